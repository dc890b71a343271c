//! Tests of whole runs of the server, and of a seat that serves sessions, over links in memory, by
//! the public calls of `kiwid` alone. What is expected was worked out by hand.
//!
//! They stand in a crate of their own, since a crate that has tests is proved twice, with them and
//! without; those of single sessions stand in `kiwid_session_tests`, and those of connections
//! beside each other in `kiwid_beside_tests`.
#![tactic(auto)]

#[cfg(test)]
mod runs;
#[cfg(test)]
mod seats;
