//! Few enough updates are never refused: how many rows are taken between two exchanges that replace
//! a row, what an update costs, and how long a measure of three numbers may fall.
//!
//! Nothing runs here, and nothing here knows of a seat's activities or of the words. A window lies
//! between two such exchanges (`specs/Windows.antt`), a seat goes through it by the events of
//! `specs/Events.antt`, and `specs/Counted.antt` says what every event keeps of the counts. `laws`
//! has the statements. The layers above read their rows and seats as these, draw the premises of
//! the events from their own invariants, and take from here how many rows are in use at most.
#![tactic(auto)]

pub mod laws;
#[cfg(test)]
mod tests;
