//! The events of a walk along the rows.
//!
//! A walk leads from the first row, or from a guessed one, to the row that may hold the wanted key.
//! `operation` says which operation a seat makes on its walk and `resume` what follows from what
//! that told it; `step` puts the two around the one word of a world. All three are proved equal to
//! the table of events, for the activities of a walk; every other one is made by another crate. A
//! walk takes no memory.
#![tactic(auto)]

pub mod operation;
pub mod resume;
pub mod step;
