//! Cells in the order of a row's list, and what a version shows of them, in one pass.
//!
//! The list of a row goes by key, then by falling version, then by falling place: so the first cell
//! of a key that a version may show is the best one, and the pairs of a range come one after the
//! other. `cell` asks the same of cells in any order, and reads them again for each key.
ghost use Rattle.std.specs.Prelude.{ℕ, ◌≡◌, ◌↔◌, ◌+◌, ◌≤◌, ◌<◌, [], ◌∷◌, IfSome, IfNone, IsTrue, length, None};
ghost use Rattle.kw_cells.specs.Cells.{best_of, IsNextPair, shown_at, pairs_of};
ghost use Rattle.kw_cells.specs.InOrder.{stands_before, AreInOrder, AreBelow, index_in};

use crate::cell::Cell;

impl Cell {
    /// Whether this cell stands before the other in a row's list: by key, then by falling version,
    /// then by falling place.
    #[inline(always)]
    pub fn stands_before(&self, other: &Cell) -> bool
        ensures { result ≡ stands_before self.now other.now }
    {
        self.key < other.key || self.key == other.key && self.is_later(other)
    }
}

/// The place at which the cell is put among cells in order: how many of them stand before it.
///
/// Looks from the end on, where the next cell of a walk along a row's list belongs.
pub fn index_in(cell: &Cell, cells: &[Cell]) -> usize
    requires in_order { AreInOrder cells.now }
    ensures place { result ≡ index_in cell.now cells.now }
    ensures within { result ≤ length cells.now }
{
    let mut at = cells.len();
    while at > 0 {
        if cells[at - 1].stands_before(cell) {
            return at;
        }
        at -= 1;
    }
    0
}

/// Whether the cell's place is behind all of the cells, as that of the next cell of a walk along a
/// row's list is. Looks at the last of them alone.
#[inline(always)]
pub fn is_behind(cell: &Cell, cells: &[Cell]) -> bool
    requires { AreInOrder cells.now }
    ensures { IsTrue result ↔ (index_in cell.now cells.now ≡ length cells.now) }
{
    let count = cells.len();
    if count == 0 {
        return true;
    }
    cells[count - 1].stands_before(cell)
}

/// The cell of the key with the greatest version not above `version`, of cells in order: the first
/// that has such a version.
///
/// None where no cell of the key has a version at most `version`. Reads no cell behind the one that
/// it answers.
pub fn first_fit(cells: &[Cell], key: u32, version: u64) -> Option<Cell>
    requires in_order { AreInOrder cells.now }
    ensures { result ≡ best_of cells.now key version }
{
    for cell in cells {
        if cell.fits(key, version) {
            return Some(*cell);
        }
    }
    None
}

/// The first pair that cells in order show at this version in the range from `from` to `to`, both
/// included, as `cell::next_pair` says.
///
/// The keys of the cells in front of the place `at` are below `from`. It goes on to the first cell
/// that may have a later pair, so that a caller who asks again from the key after the one that it
/// was given reads each cell once, and no cell behind the first one above the range.
#[inline(always)]
pub fn next_in_order(
    cells: &[Cell],
    at: &mut usize,
    from: u32,
    to: u32,
    version: u64,
) -> Option<(u32, u64)>
    requires in_order { AreInOrder cells.now }
    requires below { AreBelow cells.now at.old from }
    ensures next { IfSome result (IsNextPair cells.now from to version) }
    ensures none { IfNone result ((key : ℕ) → from ≤ key → key ≤ to → shown_at cells.now version key
        ≡ None) }
    ensures passed { IfSome result (λ pair. AreBelow cells.now at.new (pair.0 + 1)) }

    // the same in the words of all pairs of the range
    ensures pairs { IfSome result (λ pair. pairs_of cells.now from to version
        ≡ pair ∷ pairs_of cells.now (pair.0 + 1) to version) }
    ensures no_pairs { IfNone result (pairs_of cells.now from to version ≡ []) }
{
    let mut low = from;
    while *at < cells.len() {
        let cell = cells[*at];
        if to < cell.key {
            return None;
        }
        *at += 1;
        if low <= cell.key && cell.version <= version {
            if let Some(value) = cell.value {
                return Some((cell.key, value));
            }
            if cell.key == to {
                return None;
            }
            low = cell.key + 1;
        }
    }
    None
}
