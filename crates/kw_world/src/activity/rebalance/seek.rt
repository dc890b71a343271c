//! Free rows are sought and taken.
//!
//! A retired row is given free where no visit can reach it any more; where too few are free all are
//! given back.

/// Free rows are sought and taken.
#[derive(Clone, Copy, Debug, PartialEq, Eq)]
pub enum Seek {
    /// Begins the search for free rows: loads the state of row 0, or of a guessed row.
    First,
    /// Loads the state of the next row.
    Next,
    /// Loads the epoch that this seat has announced, below the number of seats, where that row was
    /// retired.
    Pass(u32),
    /// Exchanges the retired state of that row, with the number that was found, for the free one.
    Reclaim,
    /// Exchanges the free state of that row for that of an infant of the seat.
    Take,
    /// Stores that the row at hand, of those taken, is free again.
    GiveBack,
}
