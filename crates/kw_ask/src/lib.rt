//! Lines asked of the concurrent map: the call of one line is made, and its answer told.
//!
//! [`ask`](asking::ask) is what the programs have in common that answer lines on a map. It stands
//! below them, in a crate of its own, since the map knows nothing of lines.
#![tactic(auto)]

pub mod asking;
