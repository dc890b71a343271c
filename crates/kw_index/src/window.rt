//! Where a caller searches for free rows.
//!
//! A map has many more rows than are in use at once. A search that always went on behind the last
//! row that it took would come round the whole map, so that each new row lay where nobody has been
//! for long, far from the caches. So a caller goes round in a part of the map, its window, and
//! takes rows again that were retired there. Where a round found few rows the next one is twice as
//! long. It is for speed alone: a search that finds too few rows in the window goes on behind it,
//! and asks for each row of the map in the end.

/// How many rows a window has at first, where the map has as many.
pub const SMALLEST_WINDOW: u32 = 64;

/// Of how many rows a round must have taken one for the next to be no longer.
const SPARSE: u32 = 4;

/// The rows in which a caller's searches begin: so many from one on, past the end of the map from
/// row 0 on.
#[derive(Clone, Copy, Debug, PartialEq, Eq)]
pub struct Window {
    rows: u32,
    first: u32,
    len: u32,
    // How many of them the round has behind it, and how many rows it took.
    passed: u32,
    taken: u32,
}

impl Window {
    /// A window from this row on, in a map of so many rows. No round has begun.
    pub fn new(rows: u32, first: u32) -> Window {
        Window {
            rows,
            first,
            len: SMALLEST_WINDOW.min(rows),
            passed: 0,
            taken: 0,
        }
    }

    /// The row that the next search asks first.
    pub fn start(&self) -> u32 {
        let to_end = self.rows.saturating_sub(self.first);
        if self.passed < to_end {
            self.first.saturating_add(self.passed)
        } else {
            self.passed - to_end
        }
    }

    /// A search has taken so many rows, this one last. The next one begins behind it, and at the
    /// start of the window where the round is over.
    pub fn took(&mut self, last: u32, count: u32) {
        self.taken = self.taken.saturating_add(count);
        self.passed = self.index_of(last).saturating_add(1);
        if self.passed < self.len {
            return;
        }
        if self.taken < self.len / SPARSE {
            self.len = self.len.saturating_mul(2).min(self.rows);
        }
        self.passed = 0;
        self.taken = 0;
    }

    // How many rows stand between the first row of the window and this one.
    fn index_of(&self, row: u32) -> u32 {
        match row.checked_sub(self.first) {
            Some(place) => place,
            None => row.saturating_add(self.rows.saturating_sub(self.first)),
        }
    }
}
