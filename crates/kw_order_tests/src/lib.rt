//! Tests of the order of calls, by public calls: of histories that are made event by event, and of
//! what one seat did.
//!
//! What is expected was worked by hand. The tests stand in a crate of their own, since a crate that
//! has tests is proved twice, with them and without. `points` tests the record of `kw_core` and the
//! order that `kw_order` computes from it, and `trace` `kw_order` by the calls of one seat.
#![tactic(auto)]

#[cfg(test)]
mod points;
#[cfg(test)]
mod trace;
