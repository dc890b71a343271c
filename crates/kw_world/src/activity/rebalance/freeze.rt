//! The full row is frozen, and the row that goes along with it.
//!
//! The count of each, then each of its entries; and each scan that waits gets its version, so that
//! what the scans need is known.

/// The rows at hand are frozen, one after the other.
#[derive(Clone, Copy, Debug, PartialEq, Eq)]
pub enum Freeze {
    /// Freezes the count of the row at hand.
    Count,
    /// Loads the entry of this seat in that row, below the number of seats.
    Look(u32),
    /// Exchanges that entry, which was found idle or pending, for a frozen one.
    Entry(u32),
    /// Loads the scan of this seat, below the number of seats.
    Scan(u32),
    /// Draws a version for the scan of this seat, which waits.
    Draw(u32),
    /// Exchanges the waiting scan of this seat for one with that version.
    Settle(u32),
    /// Loads the pin of this seat, below the number of seats.
    Pin(u32),
}
