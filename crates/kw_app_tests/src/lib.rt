//! Tests of whole runs over streams in memory, by the public calls of `kw_app` alone: what no
//! process can show, of streams that fail in their midst. What the process prints and ends with is
//! checked by `tools/check_program.py`. What is expected was worked out by hand.
//!
//! `faults` has the tables of reads and writes that fail and of room that runs out, `few` as many
//! updates as are never refused, and more, `lines` the inputs that are cut short and lines outside
//! the grammar, and `tables` the tables of `rollup`. The tests stand in a crate of their own, since
//! a crate that has tests is proved twice, with them and without; those of workers stand in
//! `kw_worker_tests`.
#![tactic(auto)]

#[cfg(test)]
mod faults;
#[cfg(test)]
mod few;
#[cfg(test)]
mod lines;
#[cfg(test)]
mod runs;
#[cfg(test)]
mod tables;
