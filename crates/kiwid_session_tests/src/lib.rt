//! Tests of whole sessions over streams in memory, by the public calls of `kiwid` alone. What is
//! expected was worked out by hand.
//!
//! `sources` has a source that gives its bytes in pieces of chosen sizes, and `sessions` the tests.
//! They stand in a crate of their own, since a crate that has tests is proved twice, with them and
//! without; those of seats and runs stand in `kiwid_tests`.
#![tactic(auto)]

#[cfg(test)]
mod sessions;
#[cfg(test)]
mod sources;
