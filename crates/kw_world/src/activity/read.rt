//! A reader goes along the list of its row.
//!
//! It begins at the row's first link, or behind a cell with which the row was built. Then it reads
//! the cells that it remembers of the entries and did not reach there.

/// A reader goes along the list of its row.
#[derive(Clone, Copy, Debug, PartialEq, Eq)]
pub enum Read {
    /// Begins the walk along the row's list, once all entries are looked at: loads the row's first
    /// link, or the key of a guessed cell.
    Start,
    /// Loads the link of the row's list at which a reader stands.
    Link,
    /// Loads the key of the cell that was reached there.
    Key,
    /// Loads the version of that cell, whose key is in the range.
    Version,
    /// Loads the value of that cell.
    Value,
    /// Loads the key of a remembered cell that was not reached.
    LeftOverKey,
    /// Loads the value of that cell.
    LeftOverValue,
}
