//! The seat of a follower goes left to its leader.
//!
//! A row that goes along with another one is rebalanced by whoever rebalances that one. The walk
//! goes from the first row to the one whose link leads to the follower; or the seat takes the
//! leader that the follower's state names.

/// The seat of a follower goes left to its leader.
#[derive(Clone, Copy, Debug, PartialEq, Eq)]
pub enum Left {
    /// Begins the way left: loads the link to the first row, or the least key of the named leader.
    Start,
    /// Loads the link after the row at which that walk is.
    Next,
    /// Loads the least key of the row to which it leads.
    NextLeast,
}
