//! The order of the calls of a list of events.
//!
//! `trace` has the lists, with the world and the record that they lead to, and the order of their
//! calls; `points` and `puts` compute it from the record, by `rank`. `laws` holds no code: its
//! function has the laws of the order of any history as its contract.
#![tactic(auto)]

pub mod laws;
pub mod points;
mod puts;
pub mod rank;
pub mod trace;
