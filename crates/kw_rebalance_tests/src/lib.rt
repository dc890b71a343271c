//! Tests of the events of a rebalance, by public calls (`kw_step_rebal`).
//!
//! What is expected was worked by hand. The tests stand in a crate of their own, since a crate that
//! has tests is proved twice, with them and without. `rebalance` has the events of one full row,
//! one by one, and `groups` what a row that is taken along changes of them.
#![tactic(auto)]

#[cfg(test)]
mod groups;
#[cfg(test)]
mod rebalance;
