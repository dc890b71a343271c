//! Tests of the index (`kw_index`).
//!
//! They make public calls alone, and what they expect was worked out by hand. They are a crate of
//! their own since a crate with tests is proved twice, with them and without.
//!
//! `index_edits` has what edits leave of entries, `index_logs` what a log makes of entries that lag
//! behind, `index_callers` what callers publish and guess, `index_threads` two threads on one
//! index, and `index_window` where free rows are searched for.
#![tactic(auto)]

#[cfg(test)]
mod index_callers;
#[cfg(test)]
mod index_edits;
#[cfg(test)]
mod index_logs;
#[cfg(test)]
mod index_threads;
#[cfg(test)]
mod index_window;
