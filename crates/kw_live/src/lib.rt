//! Calls over the table that threads share, from one activity to the next.
//!
//! Each function here takes a pass from one activity to another by the core's own events, and says
//! how the calls in what the pass has seen go on, which of them it found what it answers by, and
//! which pairs a scan has. Single events are `kw_follow`'s, whose `Local` follows the pass's seat;
//! no call takes memory.
//!
//! `entering` begins calls, begins a put anew after a rebalance, gives a scan its version, and ends
//! both; `walking` finds the row of a key; `putting` puts a cell into it, and `reading` reads it.
//! `getting` makes a whole get, most of which it makes without a local. The loops that take most of
//! a call's time stand by themselves: `beginning` finds the cell behind which a walk along a row's
//! list begins, `inserting` goes by the cells of lesser keys for a put,
//! `looking` looks at the entries of a row, and `listing`, `newest` and `streaming` go along its
//! list: for all cells of a range at once, for the newest of one key, and for one cell after the
//! other. Whoever stands above puts whole calls together from these, by their contracts, and knows
//! no event.
#![tactic(auto)]

mod beginning;
mod entering;
mod getting;
mod inserting;
mod listing;
mod looking;
mod newest;
mod putting;
mod reading;
mod streaming;
mod walking;

pub use entering::{end_scan, enter, enter_anew, leave, stop_scan};
pub use getting::get;
pub use putting::{TryPut, try_put};
pub use reading::{look_at_row, read_list, read_row};
pub use streaming::{leads_on, next_cell};
pub use walking::{go_by_rows, locate};
