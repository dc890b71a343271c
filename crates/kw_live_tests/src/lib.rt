//! Tests of the stretches of events of which the calls of the map are put together (`kw_live`).
//!
//! They make public calls alone, and what they expect was worked out by hand. They are a crate of
//! their own since a crate with tests is proved twice, with them and without; those of calls whose
//! row is full are in `kw_live_rebal_tests`.
//!
//! `live`, `live_get` and `live_guess` put whole calls together from the functions of `kw_live`.
#![tactic(auto)]

#[cfg(test)]
mod live;
#[cfg(test)]
mod live_get;
#[cfg(test)]
mod live_guess;
