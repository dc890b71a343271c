//! The core: one event of the map, and the record of what a list of events did.
//!
//! `step` makes one event, by the step crates; `history` keeps the record beside it: calls, the
//! attempts of puts, and when what happened; `stage` says where a seat stands in its call.
//! `change` and `seat_log` say what one event adds to the history and to what its seat did last.
//! `proofs/` has what is known of one event, whatever held before it: where it leads, what it
//! writes, what it adds to the record. The layers above rest on that: `kw_shape` on where each seat
//! is, `kw_laws` on the laws over all lists of events.
#![tactic(auto)]

pub mod change;
pub mod history;
pub mod seat_log;
pub mod stage;
pub mod step;
