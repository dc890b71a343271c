//! The parts of the table of events.
//!
//! The table is made by several crates, each of which has one part of it. Which part an event is of
//! depends on what its seat knows and on its choice: `Local::part` says it, and whoever makes any
//! event asks it first.

/// A part of the table of events.
#[derive(Clone, Copy, Debug, PartialEq, Eq)]
pub enum Part {
    /// A call on its own row: a put, a reader, a scan's version, and where each of them begins and
    /// ends.
    Put,
    /// The rows: the walk along them.
    Rows,
    /// A rebalance, of a full row that a put has seen.
    Rebalance,
}
