//! The index: which row to begin at, for each key; and what each caller has for speed.
//!
//! A walk from the first row costs as many loads as there are rows. The index names a row nearer to
//! the key, by a list of least keys and rows. Whoever replaces rows publishes what that changes of
//! the list, and each caller makes the changes in a list of its own, which it asks without a lock.
//! It is a hint and no more. What it names may have been replaced since, so a walk checks the row
//! before it begins there, and no reply depends on the index.
//!
//! `entries` has the list and its edits, which one thread owns, and `change` what a publication
//! changes of it; `log` the changes that were made last, with a list to begin with; `index` the
//! slot in which the log stands, and what threads ask of it; `own` the list that one caller
//! guesses from; `window` where a caller searches for free rows; `hints` all that one caller has of
//! these. What an edit leaves and what a guess is stands in `specs/Entries.antt`, what a change
//! leaves in `specs/Changes.antt`, what a log makes of a list that lags behind in
//! `specs/Logs.antt`, and which log may stand in the slot in `specs/Turns.antt`. Nothing here
//! waits, and nothing but the making of entries and of an index takes memory.
#![tactic(auto)]

pub mod change;
pub mod entries;
pub mod hints;
pub mod index;
pub mod log;
pub mod own;
pub mod window;
