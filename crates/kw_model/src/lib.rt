//! The ordered map of one thread, and which replies are its own.
//!
//! `call` has the calls and the replies, `pair_list` the pairs of a scan, `map_state` the map
//! itself, `legal` the test whether replies could be the map's, and `memory` the one error. What
//! the map is stands in `specs/Map.antt`, what is legal in `specs/Legal.antt`; the code here is
//! proved to compute both. Every other crate measures its replies by them.
#![tactic(auto)]

pub mod call;
pub mod legal;
pub mod map_state;
pub mod memory;
pub mod pair_list;
