//! What the rows of the list keep of the stamped puts, and what a reader of a row knows at its end.
//!
//! This crate is mathematics alone: it names no activity and no word of the shared table. A put has
//! a key, a version, the positions at which it was given its cell and stamped, and a value, or none
//! where it is a tombstone; sets of puts stand for the cells of a row, for all that is stamped, for
//! what a reader has gathered. `laws` holds the theorems as contracts of functions that do nothing.
//! The definitions are in `specs/`. The lemmas in `proofs/` take any sets; they are for what speaks
//! of the events of a rebalance and of readers (`kw_reads`).
#![tactic(auto)]

pub mod laws;
