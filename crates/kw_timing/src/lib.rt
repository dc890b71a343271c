//! What the loads of `kw_loads`, and lines that are read and printed, take by a clock: figures in
//! nanoseconds. Nothing is printed here.
//!
//! `timing` has the calls on one row, `map_timing` those on a map of many rows, `sum_timing` sums
//! beside puts, `fill_timing` puts until no row is left, and `moving_timing` keys that come and go;
//! `index_timing` has guesses of an index, and `lines` the reading of lines and the printing of
//! answers. Nothing is promised of the figures.
#![tactic(auto)]

pub mod fill_timing;
pub mod index_timing;
pub mod lines;
pub mod map_timing;
pub mod moving_timing;
pub mod sum_timing;
pub mod timing;
