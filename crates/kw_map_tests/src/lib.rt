//! Tests of the map (`kw_map`), of single calls.
//!
//! They make public calls alone, and what they expect was worked out by hand. They are a crate of
//! their own since a crate with tests is proved twice, with them and without; those of a map in
//! much use stand in `kw_many_tests`.
//!
//! `gatherers` has what the gatherers are handed, and `calls` what the calls of one pass answer.
#![tactic(auto)]

#[cfg(test)]
mod calls;
#[cfg(test)]
mod gatherers;
