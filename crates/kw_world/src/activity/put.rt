//! A put or a delete is at its row.
//!
//! It asks for a cell, writes and announces it, stamps it, and in the end clears its entry.

/// A put or a delete is at its row.
#[derive(Clone, Copy, Debug, PartialEq, Eq)]
pub enum Put {
    /// Loads the count of the row, for a put or a delete.
    Count,
    /// Adds one to the count, to get a cell.
    Add,
    /// Stores the key in the cell.
    Key,
    /// Stores the value in the cell.
    Value,
    /// Exchanges the seat's idle entry for one with the cell.
    Announce,
    /// Loads the clock for the put.
    Clock,
    /// Exchanges the pending entry for one with that version.
    Stamp,
    /// Stores the version in the cell.
    Version,
    /// Stores that the seat's entry is idle.
    Clear,
}
