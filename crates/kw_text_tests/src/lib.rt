//! Tests of what is read, by public calls: `line` tests the reader of lines of `kw_line`, and
//! `command` the words of commands of `kw_command`.
//!
//! What is expected was worked by hand. The tests stand in a crate of their own, since a crate that
//! has tests is proved twice, with them and without.
#![tactic(auto)]

#[cfg(test)]
mod command;
#[cfg(test)]
mod line;
