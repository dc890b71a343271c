//! The laws of all valid lists of events, and the record of a world's events, kept while they are
//! made.
//!
//! `laws` holds no code: its functions have the laws over all lists of events as their contracts,
//! and what stands above cites them. `recorder` makes events and keeps their record along. The
//! definitions are in `specs/`; `docs/PROOFS.md` says how the proof is cut.
#![tactic(auto)]

pub mod laws;
pub mod recorder;
