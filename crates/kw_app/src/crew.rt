//! Who answers the lines, and on a map of how many rows.
//!
//! The three stand together since all functions between a command and the concurrent map hand them
//! on.
ghost use Rattle.kw_world.specs.Opening.{IsOpening};
ghost use Rattle.kw_world.specs.Sizes.{product};

/// How many workers answer lines beside each other, on a map of how many rows, and who is told of
/// the lines.
#[derive(Drop)]
pub struct Crew<'g, G> {
    /// From 1 to `SEATS`.
    pub workers: u32,
    /// From 1 to `MOST_ROWS`.
    pub rows: u32,
    /// Told of each line.
    pub gate: &'g G,
    ghost opens: { IsOpening product (record { rows = rows; seats = workers; clock = 1; epoch = 1 }) },
}
