//! The numbers that a caller may ask of a table and of a pass.
ghost use Rattle.std.specs.Prelude.{◌≡◌, ◌-◌, ◌^◌, min};
ghost use Rattle.kw_table.specs.Passes.{view};
ghost use Rattle.kw_table.specs.Walks.{walks_in};

use crate::pass::Pass;
use crate::shared::Shared;

impl Shared {
    /// How many rows the table has, from 1 to `MOST_ROWS`. Takes no memory.
    pub fn rows(&self) -> u32
        ensures { result ≡ self.now.opening.rows }
    {
        self.opening.rows
    }
}

impl Pass {
    /// The number of the pass's seat, counted from 0. Takes no memory.
    pub fn number(&self) -> u32
        ensures { result ≡ (view self.now).number }
    {
        self.number
    }

    /// How many links from one row to the next the pass has loaded, by events of its own that it
    /// has seen: `u64::MAX` where they are more. By it a test sees how far a call has gone along
    /// the rows. Takes no memory.
    pub fn walked(&self) -> u64
        ensures { result ≡ min (2 ^ 64 - 1) (walks_in (view self.now)) }
    {
        self.walked
    }
}
