//! Tests of connections that are served beside each other, over links in memory and over TCP, by
//! the public calls of `kiwid` alone. What is expected was worked out by hand.
//!
//! `ends` has the ends of a connection whose second line waits for another one; `beside` has the
//! test of two seats, and `clients` that of two clients of a run of the server. They stand in a
//! crate of their own, since a crate that has tests is proved twice, with them and without.
#![tactic(auto)]

#[cfg(test)]
mod beside;
#[cfg(test)]
mod clients;
#[cfg(test)]
mod ends;
