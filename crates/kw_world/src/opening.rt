//! The numbers that a run begins with.

/// What a run begins with. `World::open` says which numbers these may be.
#[derive(Clone, Copy, Debug, PartialEq, Eq)]
pub struct Opening {
    /// How many rows the table has.
    pub rows: u32,
    /// How many seats act.
    pub seats: u32,
    /// The first version to be drawn.
    pub clock: u64,
    /// The first number of a retired row.
    pub epoch: u64,
}
