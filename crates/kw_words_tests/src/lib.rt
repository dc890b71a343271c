//! Tests of the words of the shared memory (`kw_words`), and of cells (`kw_cells`), by their public
//! calls.
//!
//! What is expected was worked by hand, or computed apart from this project. The tests stand in a
//! crate of their own, since a crate that has tests is proved twice, with them and without. `words`
//! tests `kw_words`; `cells` has the order of cells and which of them are shown, `keep` which ones
//! a rebuild keeps and where its rows start, and `plain` the list of puts that answers as a map.
#![tactic(auto)]

#[cfg(test)]
mod cells;
#[cfg(test)]
mod keep;
#[cfg(test)]
mod plain;
#[cfg(test)]
mod words;
