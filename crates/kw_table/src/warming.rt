//! Loads that bring the words of a row into the caches, before they are asked for one after the
//! other.
//!
//! A walk along a row's list is told by each cell where the next one is. So where a row lies far
//! from the processor, each cell costs the wait for memory, while loads that depend on nothing are
//! under way several at once. The loads here have no seat and make no event: they tell nothing, and
//! no clause rests on what they find. They are for speed alone. A small table stays in the caches,
//! and there nothing is loaded.
ghost use Rattle.std.specs.Prelude.{◌<◌, ◌≤◌, IfSome, IsTrue};
ghost use Rattle.kw_words.specs.Layout.{IsWithin};
ghost use Rattle.kw_words.specs.declared.sizes.TheConstants.{SEATS, CELLS, CELL_COUNT};

use crate::shared::Shared;
use kw_words::layout::Name;
use kw_words::link::Link;
use kw_words::plain::{unpack_built, unpack_key};
use kw_words::sizes::{CELL_COUNT, FROZEN_BIT};
use kw_words::state::State;

/// How many rows a table has at least whose rows are loaded before a walk: those of a smaller one
/// fit into a cache of its processor's own.
pub const SMALLEST_COLD: u32 = 256;

/// How many cells of a row lie in a cache line of 64 bytes: each has four words of eight bytes.
const CELLS_A_LINE: u32 = 2;

impl Shared {
    /// Loads what a search among the cells with which the row was built and the step to the next
    /// row ask for: a word of each cache line in which those cells lie, and the least key of the
    /// next row. A walk begins behind one of them, and meets few of the cells that were given
    /// since, so these are left to it. Nothing is done where the table has no such row.
    pub fn warm(&self, row: u32) {
        if self.is_cold(row) {
            let built = unpack_built(self.peek(Name::Least(row))).min(CELL_COUNT);
            self.peek_least(self.peek(Name::Next(row)));
            self.peek_cells(row, built);
        }
    }

    /// Loads what a scan asks for that comes to the row from another one: a word of each cache line
    /// in which given cells of the row lie. When it steps on to the next row, it asks for the least
    /// key of the row behind that one, to know where the next row ends. So the least key two rows
    /// on is loaded too.
    pub fn warm_next(&self, row: u32) {
        if self.is_cold(row) {
            let given = given_in(self.peek(Name::Count(row)));
            if let Some(next) = self.row_at(self.peek(Name::Next(row))) {
                self.peek_least(self.peek(Name::Next(next)));
            }
            self.peek_cells(row, given);
        }
    }

    /// Loads a word of each cache line in which cells of the row lie: for a row that is about to be
    /// written.
    pub fn warm_whole(&self, row: u32) {
        if self.is_cold(row) {
            self.peek_cells(row, CELL_COUNT);
        }
    }

    /// Whether the row is in use just now, and for no keys above this one alone: whether a walk to
    /// the key may begin there.
    #[inline(always)]
    pub fn serves(&self, row: u32, key: u32) -> bool {
        row < self.opening.rows
            && State::unpack(self.peek(Name::State(row))) == Some(State::Normal)
            && unpack_key(self.peek(Name::Least(row))) <= key
    }

    /// The least key that the row may hold just now; none where the table has no such row.
    pub fn least(&self, row: u32) -> Option<u32> {
        if row < self.opening.rows {
            Some(unpack_key(self.peek(Name::Least(row))))
        } else {
            None
        }
    }

    /// Behind which of the first cells of the row, below this number, a walk to this key may begin:
    /// the last one whose key is below it just now, where the keys rise; none where the first is
    /// not. A cell whose number is not that of a row of the table cannot be guessed, and is never
    /// the answer.
    pub fn cell_below(&self, row: u32, built: u32, key: u32) -> Option<u32>
        requires { built ≤ CELL_COUNT }
        ensures { IfSome result (λ cell. (cell < built) × (cell < self.now.opening.rows)) }
    {
        if row >= self.opening.rows {
            return None;
        }
        let mut low = 0;
        let mut high = built.min(self.opening.rows);
        while low < high {
            let middle = low + (high - low) / 2;
            if unpack_key(self.peek(Name::Key(row, middle))) < key {
                low = middle + 1;
            } else {
                high = middle;
            }
        }
        if low == 0 { None } else { Some(low - 1) }
    }

    // Whether the table has the row, and is so large that it may lie far away.
    fn is_cold(&self, row: u32) -> bool
        ensures { IsTrue result → row < self.now.opening.rows }
    {
        row < self.opening.rows && self.opening.rows >= SMALLEST_COLD
    }

    // The word as it is just now.
    #[inline(always)]
    pub(crate) fn peek(&self, word: Name) -> u64
        requires { IsWithin SEATS CELLS self.now.opening.rows word }
    {
        self.table.shared.peek(self.slot(word))
    }

    // Loads the least key of the row to which a link leads, if it leads to one.
    fn peek_least(&self, link: u64) {
        if let Some(row) = self.row_at(link) {
            let _least = self.peek(Name::Least(row));
        }
    }

    // The row of the table to which a link leads, if it leads to one.
    pub(crate) fn row_at(&self, link: u64) -> Option<u32>
        ensures { IfSome result (λ row. row < self.now.opening.rows) }
    {
        let row = Link::unpack(link)?.row?;
        if row < self.opening.rows {
            Some(row)
        } else {
            None
        }
    }

    // Loads a word of each line in which so many first cells of the row lie.
    fn peek_cells(&self, row: u32, cells: u32)
        requires row { row < self.now.opening.rows }
        requires cells { cells ≤ CELL_COUNT }
    {
        for line in 0..cells.div_ceil(CELLS_A_LINE) {
            let _key = self.peek(Name::Key(row, line * CELLS_A_LINE));
        }
    }
}

// How many cells a count's word says were given, at most as many as a row has.
fn given_in(word: u64) -> u32
    ensures { result ≤ CELL_COUNT }
{
    (word % FROZEN_BIT).min(u64::from(CELL_COUNT)) as u32
}
