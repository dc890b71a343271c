//! What the row of a map holds that is timed.
ghost use Rattle.std.specs.Prelude.{◌≤◌};
ghost use Rattle.kw_words.specs.declared.sizes.TheConstants.{MOST_ROWS};

use kw_words::sizes::{BUILT_COUNT, CELL_COUNT};

/// Whose the keys of a row's cells are, and whether the row was built.
#[derive(Clone, Copy, Debug, PartialEq, Eq)]
pub enum Keys {
    /// Each cell of a row that was not built has a key of its own.
    Different,
    /// All cells of a row that was not built have one key.
    One,
    /// Each cell has a key of its own: the row was built with `BUILT_COUNT` cells of even keys, and
    /// the others came into the gaps behind these.
    HalfBuilt,
}

impl Keys {
    /// The key of the cell with this number.
    pub fn of_cell(self, number: u32) -> u32 {
        match self {
            Keys::Different => number,
            Keys::One => 0,
            Keys::HalfBuilt => {
                if number < BUILT_COUNT {
                    even_key(number)
                } else {
                    gap_key(number - BUILT_COUNT)
                }
            }
        }
    }

    /// The words that name them in a figure.
    pub fn words(self) -> &'static str {
        match self {
            Keys::Different => "different keys",
            Keys::One => "one key",
            Keys::HalfBuilt => "half built",
        }
    }
}

/// The key with this number, of those that are put before the row is built, and that it is built
/// with.
pub fn even_key(number: u32) -> u32 {
    number.wrapping_mul(2)
}

// The odd key with this number: first one in every second gap between even keys, then one in each
// other gap.
fn gap_key(number: u32) -> u32 {
    let place = number.wrapping_mul(2);
    let gap = place % BUILT_COUNT + place / BUILT_COUNT;
    even_key(gap).wrapping_add(1)
}

/// How many cells a row has, and whose their keys are.
#[derive(Clone, Copy, Debug, PartialEq, Eq)]
pub struct Load {
    /// The number of cells: those of one row are at most `CELL_COUNT`, and those of a half-built
    /// one at least `BUILT_COUNT`.
    pub cells: u32,
    /// Their keys.
    pub keys: Keys,
}

impl Load {
    /// The key that a caller asks for in its call with this number: one cell's after another's.
    pub fn key_of_call(self, call: u32) -> u32 {
        self.keys.of_cell(call % self.cells.max(1))
    }

    /// With how many of its cells the row is built.
    pub fn built(self) -> u32 {
        match self.keys {
            Keys::Different | Keys::One => 0,
            Keys::HalfBuilt => BUILT_COUNT,
        }
    }

    /// How many even keys an empty map is given first, so that its first row is split and rows are
    /// built: one more than a row has cells, or none.
    pub fn split_keys(self) -> u32 {
        match self.keys {
            Keys::Different | Keys::One => 0,
            Keys::HalfBuilt => CELL_COUNT + 1,
        }
    }

    /// A key that no cell of the row is above, and that is in no other row.
    pub fn greatest_key(self) -> u32 {
        match self.keys {
            Keys::Different | Keys::One => self.cells,
            Keys::HalfBuilt => 2 * BUILT_COUNT - 1,
        }
    }

    /// How many rows the map has. A walk begins only at a cell whose number is that of a row too,
    /// so for one that is built they are as many as its cells.
    pub fn rows(self) -> u32
        ensures some { 1 ≤ result }
        ensures most { result ≤ MOST_ROWS }
    {
        match self.keys {
            Keys::Different | Keys::One => 1,
            Keys::HalfBuilt => CELL_COUNT,
        }
    }
}
