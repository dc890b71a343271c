//! The walk to the row of the wanted key.
//!
//! It begins at the first row or at a guessed one, and goes on from row to row along their links.

/// The walk to the row of the wanted key.
#[derive(Clone, Copy, Debug, PartialEq, Eq)]
pub enum Walk {
    /// Begins the walk to the row of the wanted key: loads the link to the first row, or the state
    /// of a guessed row.
    Start,
    /// Loads the link to the first row, after a guess that did not serve.
    First,
    /// Loads the least key of the guessed row.
    GuessedLeast,
    /// Loads the link after the row.
    Next,
    /// Loads the least key of the row after it.
    NextLeast,
}
