//! Tests of the workers of a run, by the public calls of `kw_app` alone: that they are beside each
//! other, and what one replies to many lines.
//!
//! `gates` has what a gate is told, `alone` one worker beside the plain list, and `generator` the
//! lines that `gen` makes. What is expected was worked out by hand. The tests stand in a crate of
//! their own, since a crate with tests is proved twice, with them and without.
#![tactic(auto)]

#[cfg(test)]
mod alone;
#[cfg(test)]
mod gates;
#[cfg(test)]
mod generator;
#[cfg(test)]
mod runs;
