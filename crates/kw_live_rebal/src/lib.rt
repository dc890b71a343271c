//! The rebalance of a full row, over the table that threads share.
//!
//! A put or a delete that has seen a full row makes the events of the core until its row is
//! replaced, or it learns that this was done by another seat, or it is refused. What the events are
//! stands in the table of events; `kw_follow` makes them. Whoever stands above knows how it ended,
//! where the call then stands, and the event by which it ended so; by the way the index is told of
//! the new rows, which is a hint alone. One that is done may have its row rebalanced by the same
//! events, by `tidy`, and is then about to leave as done, whatever has become of the row. `guess`
//! names a row to begin at, for every kind of call.
#![tactic(auto)]

mod guessing;
mod publishing;
mod rebalancing;
mod stretches;
mod tidying;

pub use guessing::guess;
pub use rebalancing::{Rebalanced, rebalance};
pub use tidying::tidy;
