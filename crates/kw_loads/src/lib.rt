//! The loads that `kw_bench` times: which keys a map or an index is asked for, and the calls that
//! threads make, beside each other on one map. No clock is read here, and nothing is printed.
//!
//! `load` has what one row holds, and `asking` the calls on it; `map_load` the keys of a map of
//! many rows, `map_calls` its puts and gets, `sum_calls` the sums alone and beside puts, and
//! `fill_calls` the puts until no row is left; `moving` keys that come and go, and `moving_calls`
//! the calls by which they do. `guessing` asks an index and a plain slice for rows. What a call
//! replies is not kept, but for how many were refused; a pass that was idle is idle afterwards.
#![tactic(auto)]

pub mod asking;
pub mod fill_calls;
pub mod guessing;
pub mod load;
pub mod map_calls;
pub mod map_load;
pub mod moving;
pub mod moving_calls;
pub mod sum_calls;
