//! Tests of the table that threads share (`kw_table`).
//!
//! They make public calls alone, and what they expect was worked out by hand. They are a crate of
//! their own since a crate with tests is proved twice, with them and without.
//!
//! `slots` has where the words of the table lie, `calls` whole calls of passes that make one event
//! after the other, `kinds` the events by the calls of their kinds, and `rebalance_kinds` those of
//! a rebalance.
#![tactic(auto)]

#[cfg(test)]
mod calls;
#[cfg(test)]
mod kinds;
#[cfg(test)]
mod rebalance_kinds;
#[cfg(test)]
mod slots;
