//! A full row is engaged.
//!
//! Who wins the exchange of its state leads; the link after it is marked, and how many rows it
//! leads is decided.

/// A full row is engaged.
#[derive(Clone, Copy, Debug, PartialEq, Eq)]
pub enum Engage {
    /// Begins the rebalance of a full row: loads the clock.
    Clock,
    /// Loads the epoch.
    Epoch,
    /// Loads the state of the full row.
    State,
    /// Exchanges the state of the full row, which is still the infant of this seat, for the normal
    /// one.
    Normal(u32),
    /// Exchanges the normal state of the full row for that of a leader.
    Lead,
    /// Marks the link of the full row, which leads so many rows; 0 where that is not decided yet.
    MarkLink(u32),
    /// Exchanges the state of the leader for one that leads so many rows, at most `MOST_GROUP`.
    Decide(u32),
}
