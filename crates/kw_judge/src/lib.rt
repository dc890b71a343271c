//! Records of runs, and whether a recorded run is right.
//!
//! A record says of each call of a run what was asked, at which positions it began and ended and
//! what it was answered, and in which order the calls are claimed to stand. `record` has its types,
//! `print` and `parse` are the one text of calls, replies, names and lines and its reader, `read`
//! reads a whole record, and `judge` says whether it is good, or what is wrong with it first
//! (`verdict`). Whoever prints or reads calls in another form of input takes them from here too.
//! What a record's text is stands in `specs/Texts.antt` and `specs/Record.antt`, what a good record
//! is in `specs/Good.antt`, and what each verdict means in `specs/Verdict.antt`, apart from the
//! code.
#![tactic(auto)]

pub mod index;
pub mod judge;
pub mod parse;
pub mod print;
pub mod read;
pub mod record;
pub mod verdict;
mod written;
