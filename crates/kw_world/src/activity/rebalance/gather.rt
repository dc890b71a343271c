//! The cells of the full row are gathered, and those of the row that goes along with it.
//!
//! Of each row first along its list, then those that were remembered of the entries and not reached
//! there.

/// The cells of the rows at hand are gathered, one row after the other.
#[derive(Clone, Copy, Debug, PartialEq, Eq)]
pub enum Gather {
    /// Loads the link of the row's list at which the seat stands, to gather all its cells.
    Link,
    /// Loads the key of the cell that was reached there.
    Key,
    /// Loads the version of that cell.
    Version,
    /// Loads the value of that cell.
    Value,
    /// Loads the key of a remembered cell that was not reached.
    LeftOverKey,
    /// Loads the value of that cell.
    LeftOverValue,
}
