//! Whether a row whose keys were deleted may well be tidied, and how many rows are in use.
//!
//! Who has deleted a key may go on and rebalance its row together with the row after it, so that
//! two rows that have become small give way to one. That takes as long as a split, so it is asked
//! first whether it pays. What is asked here is asked of words as they are just now, by loads that
//! have no seat and make no event: no clause rests on it, and a wrong answer costs time or room,
//! nothing else.
ghost use Rattle.std.specs.Prelude.{◌<◌, IfSome};
ghost use Rattle.kw_words.specs.declared.sizes.TheConstants.{CELLS};

use crate::shared::Shared;
use kw_words::layout::Name;
use kw_words::plain::{unpack_built, unpack_cell_link, unpack_key, unpack_value};
use kw_words::sizes::CELL_COUNT;
use kw_words::state::State;
use kw_world::limits::TIDY_SHARE;

/// At each so many-th cell of a row a delete asks whether the row is to be tidied, and at so many
/// first ones behind those that the row was built with: so many puts and deletes stand against each
/// tidying of a row, or a rebalance of it.
pub const TIDY_EACH: u32 = 8;

/// A row with more keys than this that have a value is not tidied, but where the one after it has
/// none. They are fewer than the cells between two questions: a row whose keys go in the order in
/// which they came is then asked for at its last keys alone, and tidied once.
pub const TIDY_KEYS: u32 = TIDY_EACH - 1;

/// How many rows are asked for one that a search would take, before a row is tidied.
pub const TIDY_LOOKS: u32 = 64;

/// How often the row after is looked at, before a row is tidied, until nobody rebalances it. That
/// is longer than a rebalance takes, and shorter than a thread waits that the system has halted.
pub const TIDY_WAITS: u32 = 16_384;

impl Shared {
    /// Whether a delete that was given this cell of its row, in a visit of this epoch, and is done
    /// there may well tidy the row. Its search for a free row would begin at the row `free`.
    #[inline]
    pub fn pays_to_tidy(&self, row: u32, cell: u32, epoch: u64, free: u32) -> bool {
        u64::from(self.opening.rows) < u64::from(TIDY_SHARE).saturating_mul(epoch)
            && self.is_asked_at(row, cell)
            && self.has_small_pair(row, epoch, free)
    }

    /// How many rows are in use just now: those of the list, and those that are about to come into
    /// it or to go. It looks at each row of the table.
    pub fn rows_in_use(&self) -> u32 {
        let mut in_use: u32 = 0;
        for row in 0..self.opening.rows {
            match State::unpack(self.peek(Name::State(row))) {
                Some(State::Free) | Some(State::Retired(_)) | None => {}
                _ => in_use = in_use.saturating_add(1),
            }
        }
        in_use
    }

    // Whether a delete that was given this cell asks: at each so many-th cell, and at as many of
    // the first that are given after the row was built. A row may be built of many deleted keys,
    // which scans that are on still need, and of few others: no cell but these is given in it then.
    fn is_asked_at(&self, row: u32, cell: u32) -> bool {
        cell % TIDY_EACH == TIDY_EACH - 1
            || row < self.opening.rows
                && cell < unpack_built(self.peek(Name::Least(row))).saturating_add(TIDY_EACH)
    }

    // Whether the row has few keys or the one after it none; both are in use, and nobody rebalances
    // them any more; and a search from this row on soon finds one to build in.
    fn has_small_pair(&self, row: u32, epoch: u64, free: u32) -> bool {
        row < self.opening.rows
            && self.is_normal(row)
            && (self.has_at_most(row, TIDY_KEYS) || self.leads_to_empty(row))
            && self.comes_to_rest(row)
            && self.finds_free(free, epoch)
    }

    // Whether the row after has no key. A row may be built of deleted keys alone, which scans that
    // are on still need: no delete comes there, so nobody asks for it but here.
    fn leads_to_empty(&self, row: u32) -> bool
        requires { row < self.now.opening.rows }
    {
        match self.row_at(self.peek(Name::Next(row))) {
            Some(next) => self.has_at_most(next, 0),
            None => false,
        }
    }

    // Whether the row and the one after it are in use and come to be rebalanced by nobody. The row
    // after is waited for: this may be the last delete in the row, and then nobody asks again, so
    // that the row would stay for good.
    fn comes_to_rest(&self, row: u32) -> bool
        requires { row < self.now.opening.rows }
    {
        for _ in 0..TIDY_WAITS {
            let Some(next) = self.row_at(self.peek(Name::Next(row))) else {
                return false;
            };
            if !self.is_normal(row) {
                return false;
            }
            if self.is_normal(next) {
                return true;
            }
        }
        false
    }

    // Whether the row is in use and not rebalanced.
    fn is_normal(&self, row: u32) -> bool
        requires { row < self.now.opening.rows }
    {
        State::unpack(self.peek(Name::State(row))) == Some(State::Normal)
    }

    // Whether one of the first rows from this one on may be taken; behind the last row of the table
    // comes the first one, as in a search. Where a search finds no row, the tidied row and the one
    // after it are left frozen, and the next put there is refused though it had room. So it is
    // asked before. Others may take the row meanwhile, or still have a visit on that began before
    // it went: then the search goes on, and most often finds another.
    fn finds_free(&self, free: u32, epoch: u64) -> bool {
        let mut row = free;
        for _ in 0..TIDY_LOOKS {
            if self.may_take(row, epoch) {
                return true;
            }
            row = row.saturating_add(1);
            if row >= self.opening.rows {
                row = 0;
            }
        }
        false
    }

    // Whether the row is one of the table, and free or retired before a visit of this epoch began.
    fn may_take(&self, row: u32, epoch: u64) -> bool {
        row < self.opening.rows
            && match State::unpack(self.peek(Name::State(row))) {
                Some(State::Free) => true,
                Some(State::Retired(number)) => number < epoch,
                _ => false,
            }
    }

    // Whether the row's list shows no more keys than this that have a value. Keys that come and go
    // mostly go at the list's start, so its end is asked first: there such a row shows enough.
    fn has_at_most(&self, row: u32, most: u32) -> bool
        requires { row < self.now.opening.rows }
    {
        !self.ends_with_more(row, most)
            && !self.shows_more(row, self.peek(Name::First(row)), None, most)
    }

    // Whether the end of the row's list shows more keys than this that have a value: what stands
    // behind one of the last cells with which the row was built.
    fn ends_with_more(&self, row: u32, most: u32) -> bool
        requires { row < self.now.opening.rows }
    {
        let built = unpack_built(self.peek(Name::Least(row)));
        match built.checked_sub(most.saturating_add(1).saturating_mul(2)) {
            Some(cell) if cell < CELL_COUNT => {
                let key = unpack_key(self.peek(Name::Key(row, cell)));
                self.shows_more(row, self.peek(Name::After(row, cell)), Some(key), most)
            }
            _ => false,
        }
    }

    // Whether the row's list shows, from this link on, more keys than this that have a value,
    // beside the key of the cell before the link. It is by rising key, and of each key by falling
    // version: the first cell of a key tells whether it has one.
    fn shows_more(&self, row: u32, from: u64, before: Option<u32>, most: u32) -> bool
        requires { row < self.now.opening.rows }
    {
        let mut link = from;
        let mut last = before;
        let mut keys: u32 = 0;
        for _ in 0..CELL_COUNT {
            let Some(cell) = given_cell(link) else {
                return false;
            };
            let key = unpack_key(self.peek(Name::Key(row, cell)));
            if last != Some(key) && unpack_value(self.peek(Name::Value(row, cell))).is_some() {
                if keys == most {
                    return true;
                }
                keys = keys.saturating_add(1);
            }
            last = Some(key);
            link = self.peek(Name::After(row, cell));
        }
        false
    }
}

// The cell of a row to which a link leads, if it leads to one.
fn given_cell(link: u64) -> Option<u32>
    ensures { IfSome result (λ cell. cell < CELLS) }
{
    let cell = unpack_cell_link(link)?;
    if cell < CELL_COUNT { Some(cell) } else { None }
}
