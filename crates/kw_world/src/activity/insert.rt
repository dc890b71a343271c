//! A put links its cell into the list of the row.
//!
//! It finds the place of the cell, from the row's first link on or from behind a cell with which
//! the row was built, and exchanges the link before it; where that was lost it begins anew.

/// A put links its cell into the list of the row.
#[derive(Clone, Copy, Debug, PartialEq, Eq)]
pub enum Insert {
    /// Begins the walk to the place of its cell: loads the row's first link, or the key of a
    /// guessed cell.
    Start,
    /// Loads the link of the row's list at which the put stands, to find the place of its cell.
    Link,
    /// Loads the key of the cell that was reached there.
    Key,
    /// Loads the version of that cell, whose key is the own.
    Version,
    /// Stores what the link held in the link after the own cell.
    Set,
    /// Exchanges the link for one to the own cell.
    Exchange,
}
