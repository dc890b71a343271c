//! What holds of the rows, of what has become of them and of where each seat is, whatever the
//! record says of calls: the first layer of the laws.
//!
//! Nothing runs here. `laws` has the statement; `specs/Shape.antt` says what the shape of a world
//! is, and each conjunct of it is proved in a file of `proofs/` (`docs/PROOFS.md`).
#![tactic(auto)]

pub mod laws;
