//! Where the new rows of a rebuild start.
//!
//! The kept cells of a rebuild stand by rising key in one list, which is cut into rows here. All
//! cells of a key go into one row, so that whoever looks for a key reads one row. There are as few
//! rows as rows of at most `BUILT` cells can be, and the cut is even: of all cuts into so few rows
//! its longest row is shortest. A row that is built full is soon full again, and one that is built
//! with a cell or two costs whoever scans as much as a full one.
//!
//! With a limit for the cells of a row, filling each row before the next one starts takes the
//! fewest rows. So the even cut is that of the least limit with which there are no more rows than
//! with `BUILT`. Nothing here takes memory.
ghost use Rattle.std.specs.Prelude.{◌≡◌, ◌+◌, ◌≤◌, ◌<◌, ◌↔◌, IsTrue, length};
ghost use Rattle.kw_cells.specs.Cuts.{AreEven, AreFilled, key_at, limit_of, index_of_key, starts_at, starts_of};
ghost use Rattle.kw_cells.specs.Kept.{AreRising, HasFew};
ghost use Rattle.kw_cells.specs.declared.limits.TheConstants.{MOST_GATHERED, MOST_STARTS};
ghost use Rattle.kw_words.specs.declared.sizes.TheConstants.{BUILT};

use crate::cell::Cell;
use crate::keep::Kept;
use crate::limits::MOST_STARTS;
use arrayvec::ArrayVec;
use kw_words::sizes::BUILT;

/// The places in the kept cells at which new rows start, at most `MOST_STARTS`.
pub type RowCuts = ArrayVec<usize, MOST_STARTS>;

/// The even cut of these cells: the places, by rising number, at which their rows start. The first
/// is 0, also where there are no cells, and each other one that of a key's first cell.
///
/// No cut into rows of at most `BUILT` cells that leaves each key in one row has fewer rows, and of
/// the cuts with as few rows none has a shorter longest row. Each row is filled up to that length
/// before the next one starts. Two neighbouring rows have more than `BUILT` cells together, so that
/// there are at most `MOST_STARTS` rows.
///
/// The cells are strictly rising by key and version, and no key has more than `BUILT` of them.
/// Takes no memory.
pub fn pack_rows(kept: &Kept) -> RowCuts
    requires rising { AreRising kept.now }
    requires few { HasFew BUILT kept.now }
    ensures even { AreEven BUILT kept.now result.items }
    ensures is { result.items ≡ starts_of BUILT kept.now }
    ensures filled { AreFilled BUILT kept.now result.items }
    ensures rows { length result.items ≤ MOST_STARTS }
{
    let cells = kept.as_slice();
    starts_at(cells, least_limit(cells))
}

/// The least limit, at most `BUILT`, with which there are no more rows than with `BUILT`.
fn least_limit(cells: &[Cell]) -> usize
    requires room { length cells.now ≤ MOST_GATHERED }
    requires rising { AreRising cells.now }
    requires few { HasFew BUILT cells.now }
    ensures { result ≡ limit_of BUILT cells.now }
{
    let rows = starts_at(cells, BUILT).len();
    // so many rows of fewer cells cannot take all of them
    let mut limit = cells.len().div_ceil(rows);
    while limit < BUILT && !all_fit(cells, rows, limit) {
        limit += 1;
    }
    limit
}

/// Whether all cells fit into so many rows where each is filled up to the limit before the next one
/// starts. The rows are no more than the cells.
fn all_fit(cells: &[Cell], rows: usize, limit: usize) -> bool
    requires room { length cells.now ≤ MOST_GATHERED }
    requires rows { 0 < rows }
    requires no_more { 0 < length cells.now → rows ≤ length cells.now }
    requires limit { limit ≤ BUILT }
    requires rising { AreRising cells.now }
    ensures { IsTrue result ↔ (length (starts_at limit cells.now) ≤ rows) }
{
    let mut counted = 1;
    let mut start = 0;
    while counted < rows && cells.len() - start > limit {
        start = first_of_key(cells, start + limit);
        counted += 1;
    }
    cells.len() - start <= limit
}

/// Where the rows start where each is filled up to the limit before the next one starts.
fn starts_at(cells: &[Cell], limit: usize) -> RowCuts
    requires room { length cells.now ≤ MOST_GATHERED }
    requires limit { limit ≤ BUILT }
    requires rising { AreRising cells.now }
    requires rows { length (starts_at limit cells.now) ≤ MOST_STARTS }
    ensures { result.items ≡ starts_at limit cells.now }
{
    let mut starts = ArrayVec::new();
    let mut start = 0;
    starts.push(start);
    // behind a key with too many cells for a row comes no other start: the cells bound their number
    while starts.len() <= cells.len() && cells.len() - start > limit {
        start = first_of_key(cells, start + limit);
        starts.push(start);
    }
    starts
}

/// The place of the first cell that has the key of the cell at this place.
fn first_of_key(cells: &[Cell], place: usize) -> usize
    requires place { place < length cells.now }
    requires rising { AreRising cells.now }
    ensures is { result ≡ index_of_key cells.now (key_at cells.now place) }
    ensures below { result ≤ place }
{
    let mut first = place;
    while first > 0 && cells[first - 1].key == cells[place].key {
        first -= 1;
    }
    first
}
