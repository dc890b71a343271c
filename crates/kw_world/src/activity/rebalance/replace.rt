//! The rows of a group are replaced.
//!
//! A walk finds the row before the full one; one exchange of that row's link puts the new rows in
//! the place of the group; they become normal, and the rows that they replace are retired.

/// The rows of the group are replaced.
#[derive(Clone, Copy, Debug, PartialEq, Eq)]
pub enum Replace {
    /// Begins the walk to the row before the full one: loads the link to the first row, or the
    /// state of a guessed row.
    Start,
    /// Loads the least key of the guessed row.
    GuessedLeast,
    /// Loads the link to the first row, after a guess that did not serve.
    First,
    /// Loads the link after the row at which that walk is.
    Next,
    /// Loads the least key of the row to which it leads.
    NextLeast,
    /// Exchanges the link to the full row for one to the first of the new rows.
    Exchange,
    /// Exchanges the infant state of the row at hand, of those taken, for the normal one.
    Normalise,
    /// Adds one to the epoch, to get the number of the row at hand, of those that are replaced.
    Number,
    /// Stores that this row is retired, with that number.
    Retire,
}
