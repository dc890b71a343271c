//! Tests of the rebalance of a full row over the table that threads share (`kw_live_rebal`): whole
//! puts whose row is full.
//!
//! They make public calls alone, and what they expect was worked out by hand. They are a crate of
//! their own since a crate with tests is proved twice, with them and without; the tests of calls
//! that have room are in `kw_live_tests`.
#![tactic(auto)]

#[cfg(test)]
mod rebalance;
