//! Scripts of seats and steps, run on the map one event at a time.
//!
//! A script says which calls each seat is to make, and which seat goes on when, so that any meeting
//! of seats can be brought about and looked at. `command` has what a line asks for, `parse` reads
//! the lines, `queue` keeps the calls that a seat is still to make, `simulator` runs the commands,
//! `print` writes what is printed, and `script` is all of it as one call. The events are made by a
//! trace of `kw_order`, which has the order of the calls. What a script means stands in `specs/`,
//! apart from the code: `Script` has the text of each line, `Printed` that of what is printed,
//! `Meaning` what each line does, and `Output` what a script prints in all.
#![tactic(auto)]

pub mod command;
pub mod parse;
pub mod print;
pub mod queue;
pub mod recording;
pub mod script;
pub mod simulator;
