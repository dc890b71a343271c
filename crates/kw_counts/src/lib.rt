//! Few enough updates are never refused: what is counted of all valid lists of events.
//!
//! Nothing runs here. A ledger is folded along the events, beside the record of the history, and no
//! layer below knows of it (`specs/Counts.antt`): how often a row was replaced, which rows were
//! taken, in which rows cells were stamped, which seat builds for which row, and which versions and
//! numbers were drawn. `laws` has what holds of it after every valid list from an opening, its
//! functions' clauses. `kw_windows` has the laws of such counts apart from the events.
#![tactic(auto)]

pub mod laws;
