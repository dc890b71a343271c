//! A reader looks at the entries of its row.
//!
//! It stamps the pending ones whose key it reads, so that no put below its version comes later.

/// A reader looks at the entries of its row.
#[derive(Clone, Copy, Debug, PartialEq, Eq)]
pub enum Look {
    /// Loads the entry of this seat in the row, below the number of seats.
    Entry(u32),
    /// Loads the key of the cell that was seen pending.
    Key,
    /// Loads the clock, to help that cell's put.
    Clock,
    /// Exchanges the pending entry for one with that version.
    Help,
}
