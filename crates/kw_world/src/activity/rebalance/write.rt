//! A new row is written, word by word.
//!
//! Nobody else names the row before it is linked.

/// A new row is written, word by word.
#[derive(Clone, Copy, Debug, PartialEq, Eq)]
pub enum Write {
    /// Stores the count of the row at hand, of those taken.
    Count,
    /// Stores its least key, and how many cells it is built with.
    Least,
    /// Stores the link to the row after it.
    Next,
    /// Stores the first link of its list.
    First,
    /// Stores that the entry of this seat in it is idle; the seat is below the number of seats.
    Entry(u32),
    /// Stores the key of this cell of it; the cell is below the number of cells, here and below.
    Key(u32),
    /// Stores the value of this cell.
    Value(u32),
    /// Stores the version of this cell, and none where the row has no cell for it.
    Version(u32),
    /// Stores the link after this cell, which the row has.
    After(u32),
}
