//! The events of a rebalance, by which a full row is replaced by new ones, alone or together with
//! the row after it.
//!
//! The seat engages the full row. Where the row after it has given few cells it takes that one
//! along: it claims it, which makes it a follower of the full row. It freezes both, gathers their
//! cells, takes free rows, writes the cells that are kept into them, and links them in place of the
//! rows that it replaces, which it retires. A seat that finds its own row a follower goes left to
//! the leader, which is the full row then.
//!
//! `operation` and `operation_write` say which operation a seat makes in its rebalance, and
//! `resume` with one file for each of these topics what follows from what that told it,
//! `resume_claim` for the count and the claim of the row after and `resume_left` for the way left
//! among them; `step` puts the two around the one word of a world. `infant` has what is written
//! into a new row, `infant_rising` its links where the cells rise, and `infant_words` the words.
//! All of it is proved equal to the table of events, for the activities of a rebalance; every other
//! one is made by another crate. What is public beside `operation` and `resume` is for the running
//! map, which makes the frequent events by name. A rebalance takes no memory.
#![tactic(auto)]

pub mod infant;
mod infant_rising;
pub mod infant_words;
pub mod operation;
mod operation_write;
pub mod resume;
mod resume_claim;
mod resume_engage;
pub mod resume_freeze;
mod resume_left;
mod resume_replace;
mod resume_seek;
pub mod resume_take;
pub mod resume_write;
pub mod step;
