//! Few enough updates are never refused: what the updates pay for.
//!
//! Nothing runs here. The laws of windows (`kw_windows`) say how few rows are taken of any rows and
//! seats that go by their events. Here the rows and seats of a run are read as such
//! (`specs/Seats.antt`), and each event of a valid list is one of theirs. `laws` has what follows
//! of every valid list from an opening, its functions' clauses.
#![tactic(auto)]

pub mod laws;
