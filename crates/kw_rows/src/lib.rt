//! The rows of the map as a list that rebalances change: what an event may do to a row, and what
//! every event keeps.
//!
//! Nothing runs here, and nothing here knows of the table, of a seat's activities or of the code. A
//! row is what the structure of the list reads of it (`specs/Rows.antt`) with what has become of it
//! (`specs/Ledger.antt`); `specs/Events.antt` says what an event may change and under which
//! premises, and `laws` has the statements. The layers above read their words as such rows, draw
//! the premises from their own invariants, and take the conclusions from here.
#![tactic(auto)]

pub mod laws;
