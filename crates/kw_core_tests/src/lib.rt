//! Tests of the core by its public calls: its worlds, one event of each sort that is none of a
//! rebalance, and what an event adds to the record.
//!
//! What is expected was worked by hand, or computed apart from this project. The tests stand in a
//! crate of their own, since a crate that has tests is proved twice, with them and without. `world`
//! tests `kw_world`, `put` and `rows` two of the step crates, and `changes` `kw_core`.
#![tactic(auto)]

#[cfg(test)]
mod changes;
#[cfg(test)]
mod put;
#[cfg(test)]
mod rows;
#[cfg(test)]
mod world;
