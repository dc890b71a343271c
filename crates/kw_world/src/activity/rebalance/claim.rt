//! The row after a full one is taken along.
//!
//! How many cells it has given decides whether the full row leads it. Where it does, the row's
//! state is exchanged for that of a follower, and its link is marked as well.

/// The row after a full one is taken along.
#[derive(Clone, Copy, Debug, PartialEq, Eq)]
pub enum Claim {
    /// Loads the count of the row after the full one.
    Count,
    /// Exchanges the normal state of that row for that of a follower of the full one.
    Exchange,
    /// Exchanges the state of that row, which is still the infant of this seat, for the normal one.
    Normal(u32),
    /// Marks the link of that row, which follows the full one.
    MarkLink,
}
