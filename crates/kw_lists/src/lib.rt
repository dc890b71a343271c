//! Linked cells of one row: a cell that is linked in keeps the order, a reader still reaches what
//! stands behind its link, and a put loses fewer exchanges than there are cells.
//!
//! Nothing runs here, and nothing here knows of a seat's activities or of the code. A row is given
//! by functions of places (`specs/Rows.antt`), `specs/Words.antt` reads one off the words of the
//! table, and `specs/Changes.antt` says what an event may do to it. What a put that links its cell
//! in knows stands in `specs/Puts.antt`, what a walk along the links knows in `specs/Walks.antt`,
//! and `laws` has the statements. The layers above read their words as such rows, draw the premises
//! from their own invariants, and take the conclusions from here.
#![tactic(auto)]

pub mod laws;
