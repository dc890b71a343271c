//! The events of a call on its own row: a put, a reader, a scan's version.
//!
//! One event is an operation on one word and then what follows from it. `operation` says which
//! operation a seat makes, from what it knows, and `resume` and the files after it change what the
//! seat knows, given what the operation told. `step` puts the two around the one word of a world.
//! All three are proved equal to the table of events, for every activity but those of a walk along
//! the rows and of a rebalance, which other crates have. The running map may use the first two on
//! its own, with its words in place of a world's.
#![tactic(auto)]

pub mod operation;
pub mod reading;
pub mod resume;
mod resume_cells;
pub mod resume_entries;
pub mod resume_insert;
pub mod resume_put;
pub mod resume_scan;
pub mod step;
