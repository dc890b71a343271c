//! Tests of the map (`kw_map`) in much use: many rows, keys that come and go, and threads.
//!
//! They make public calls alone, and what they expect was worked out by hand. They are a crate of
//! their own since a crate with tests is proved twice, with them and without; those of single calls
//! stand in `kw_map_tests`.
//!
//! `passes` has a map's one pass and calls of it, `index` what the index spares them, `tidying`
//! that the rows of deleted keys come back, and `threads` what passes in several threads put and
//! see.
#![tactic(auto)]

#[cfg(test)]
mod index;
#[cfg(test)]
mod passes;
#[cfg(test)]
mod threads;
#[cfg(test)]
mod tidying;
