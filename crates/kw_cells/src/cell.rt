//! Cells, and which of them a version shows.
//!
//! A row of the concurrent map keeps several cells of one key. Whoever reads a row at a version
//! gathers its cells into a slice and asks here: a get for the best cell of its key, a scan for one
//! pair after the other. Nothing here takes memory or changes a cell.
ghost use Rattle.std.specs.Prelude.{ℕ, ◌≡◌, ◌+◌, ◌≤◌, ◌<◌, [], ◌∷◌, IsTrue, IsNone, IfSome, IfNone, All, MatchOption, if◌then◌else◌, ◌↔◌};
ghost use Rattle.std.specs.Ordering.{is_lt};
ghost use Rattle.kw_cells.specs.Cells.{is_later, fits, best_of, IsBest, shown_at, pairs_of, IsLeastKey, IsNextPair};
ghost use Rattle.kw_cells.specs.InOrder.{stands_before};

use std::cmp::Ordering;

/// One version of one key in a row.
///
/// The fields stand in an order that leaves no gaps: a `u64` lies at a multiple of 8 bytes, so that
/// two `u32` beside each other take as much room as one alone. A cell has 32 bytes, and would have
/// 40 with the version before the place.
#[derive(Clone, Copy, Debug, Default, PartialEq, Eq)]
pub struct Cell {
    /// The key, any `u32`.
    pub key: u32,
    /// The place in the row, which orders cells of one key and version.
    pub place: u32,
    /// The version, any `u64`.
    pub version: u64,
    /// The value, or None in a tombstone, by which a delete hides the older cells of its key.
    pub value: Option<u64>,
}

impl Cell {
    /// Whether this cell has a greater version than the other, or at one version a greater place.
    pub(crate) fn is_later(&self, other: &Cell) -> bool
        ensures { result ≡ is_later self.now other.now }
    {
        self.version > other.version || self.version == other.version && self.place > other.place
    }

    /// By key, then by falling version, then by falling place: the order of a row's list.
    pub(crate) fn order(&self, other: &Cell) -> Ordering
        ensures { is_lt result ≡ stands_before self.now other.now }
    {
        if self.key != other.key {
            return self.key.cmp(&other.key);
        }
        if self.version != other.version {
            return other.version.cmp(&self.version);
        }
        other.place.cmp(&self.place)
    }

    /// Whether this is a cell of the key with a version at most `version`.
    pub(crate) fn fits(&self, key: u32, version: u64) -> bool
        ensures { result ≡ fits key version self.now }
    {
        self.key == key && self.version <= version
    }
}

/// The cell of the key with the greatest version not above `version`, and of these the one with the
/// greatest place.
///
/// None where no cell of the key has a version at most `version`. A tombstone is a cell like any
/// other. Of cells of the key that agree in version and place, which no row has, it is the last in
/// the slice. Reads each cell once.
pub fn best(cells: &[Cell], key: u32, version: u64) -> Option<Cell>
    ensures function { result ≡ best_of cells.now key version }
    ensures best { IfSome result (IsBest cells.now key version) }
    ensures none { IsNone result ↔ All (λ cell. cell.key ≡ key → version < cell.version) cells.now }
{
    let mut best = None;
    for cell in cells {
        if cell.fits(key, version) {
            best = Some(later(best, *cell));
        }
    }
    best
}

/// The cell found so far where it is later than this one, and else this one.
fn later(found: Option<Cell>, cell: Cell) -> Cell
    ensures { MatchOption found (result ≡ cell) (λ before. result
        ≡ (if is_later before cell then before else cell)) }
{
    match found {
        Some(before) if before.is_later(&cell) => before,
        _ => cell,
    }
}

/// The value that the key shows at this version: that of its best cell. None where that is a
/// tombstone or there is none.
fn value_at(cells: &[Cell], key: u32, version: u64) -> Option<u64>
    ensures { result ≡ shown_at cells.now version key }
{
    best(cells, key, version)?.value
}

/// The least key of the cells that is at least `from` and at most `to`.
fn least_key(cells: &[Cell], from: u32, to: u32) -> Option<u32>
    ensures { MatchOption result (All (λ cell. from ≤ cell.key → to < cell.key) cells.now)
        (IsLeastKey cells.now from to) }
{
    let mut least = None;
    for cell in cells {
        if from <= cell.key && cell.key <= least.unwrap_or(to) {
            least = Some(cell.key);
        }
    }
    least
}

/// The first pair that the cells show at this version in the range from `from` to `to`, both
/// included: the least key of the range whose best cell has a value, with that value.
///
/// None where no key of the range shows a value, and so where `from > to`. A caller takes all pairs
/// of a row by asking again from the key after the one that it was given, until None comes or that
/// key was `to`; all these calls together read each cell twice for each key of the row.
pub fn next_pair(cells: &[Cell], from: u32, to: u32, version: u64) -> Option<(u32, u64)>
    ensures next { IfSome result (IsNextPair cells.now from to version) }
    ensures none { IfNone result ((key : ℕ) → from ≤ key → key ≤ to → shown_at cells.now version key
        ≡ None) }

    // the same in the words of all pairs of the range
    ensures pairs { IfSome result (λ pair. pairs_of cells.now from to version
        ≡ pair ∷ pairs_of cells.now (pair.0 + 1) to version) }
    ensures no_pairs { IfNone result (pairs_of cells.now from to version ≡ []) }
{
    let mut low = from;
    while let Some(key) = least_key(cells, low, to) {
        if let Some(value) = value_at(cells, key, version) {
            return Some((key, value));
        }
        if key == to {
            return None;
        }
        low = key + 1;
    }
    None
}
