//! Which cells a rebuild of rows keeps.
//!
//! A rebalance gathers the cells of a group of rows and the versions that scans may still ask for,
//! and asks here which of the cells go into the new rows. Nothing here takes memory or changes a
//! cell. Readers of the new rows rely on `shows`: what a key shows at a needed version, and at one
//! above all, it still shows.
//!
//! What is kept goes into a list that the caller lends, so that no list is copied. The cells of one
//! row come in the order of its list, and are gone through as they stand; others are sorted first.
ghost use Rattle.std.specs.Prelude.{ℕ, ◌≡◌, ◌≤◌, ◌<◌, ◌+◌, ◌-◌, ◌^◌, ◌↔◌, IsTrue, All, Any, Contains, length, slice_index_or, true, false};
ghost use Rattle.std.specs.List.Sorted.{IsPermutation};
ghost use Rattle.kw_cells.specs.Cells.{AreApart};
ghost use Rattle.kw_cells.specs.InOrder.{stands_before};
ghost use Rattle.kw_cells.specs.Kept.{HasFew, IsKeptList, ShowsTheSame, kept_of};
ghost use Rattle.kw_cells.specs.Ordered.{IsKeptTo, IsKeyAt, IsOrdered, IsPicked, MayStay};
ghost use Rattle.kw_cells.specs.declared.cell.Cell.{Cell};
ghost use Rattle.kw_cells.specs.declared.limits.TheConstants.{MOST_GATHERED};

use crate::cell::Cell;
use crate::limits::MOST_GATHERED;
use crate::short_list::ShortList;
use arrayvec::ArrayVec;

/// The cells that a rebuild keeps, at most `MOST_GATHERED`.
pub type Kept = ShortList<Cell, MOST_GATHERED>;

/// Puts into the list the cells that a rebuild keeps of these, strictly rising by key and version:
/// of each key the newest cell and the best one for each needed version, but no tombstone that has
/// only tombstones of its key below it. What the list had before is forgotten.
///
/// The cells come in any order. They are at most `MOST_GATHERED`, and those that agree in key,
/// version and place are one. At most one cell of a key is kept for each needed version, and one
/// more. At a needed version, and at one that no cell is above, each key has the same best cell as
/// before, or shows no value before and after. Takes no memory.
pub fn keep(cells: &[Cell], needed: &[u64], kept: &mut Kept)
    requires room { length cells.now ≤ MOST_GATHERED }
    requires apart { AreApart cells.now }
    ensures exactly { IsKeptList cells.now needed.now kept.new }
    ensures is { kept.new ≡ kept_of cells.now needed.now }
    ensures given { All (Contains cells.now) kept.new }
    ensures few { HasFew (length needed.now + 1) kept.new }
    ensures shows { (key : ℕ) → All (ShowsTheSame cells.now kept.new key) needed.now }
    ensures shows_newest { (key version : ℕ) → All (λ cell. cell.version ≤ version) cells.now →
        ShowsTheSame cells.now kept.new key version }
    ensures shows_last { (key : ℕ) → ShowsTheSame cells.now kept.new key (2 ^ 64 - 1) }
{
    fill(cells, needed, kept);
}

/// Fills the list with the kept ones of cells in any order.
fn fill(cells: &[Cell], needed: &[u64], kept: &mut Kept)
    requires room { length cells.now ≤ MOST_GATHERED }
    requires apart { AreApart cells.now }
    ensures exactly { IsKeptList cells.now needed.now kept.new }
    ensures in_range { All (λ cell. cell.version < 2 ^ 64) cells.now }
{
    if are_in_order(cells) {
        select(cells, needed, kept);
    } else {
        let ordered = in_order(cells);
        select(ordered.as_slice(), needed, kept);
    }
}

/// Whether no cell stands behind one that it stands before in a row's list.
fn are_in_order(cells: &[Cell]) -> bool
    ensures ordered { IsTrue result → IsOrdered cells.now }
    ensures in_range { IsTrue result → All (λ cell. cell.version < 2 ^ 64) cells.now }
{
    for (place, cell) in cells.iter().enumerate() {
        // read here so that its range is known
        let _version = cell.version;
        if is_early(cells, place) {
            return false;
        }
    }
    true
}

/// Whether the cell at this place stands before the one in front of it in a row's list.
fn is_early(cells: &[Cell], place: usize) -> bool
    requires { place < length cells.now }
    ensures { result ≡ false → (k : ℕ) (d : Cell) → k + 1 ≡ place → stands_before
        (slice_index_or cells.now place d) (slice_index_or cells.now k d) ≡ false }
{
    place > 0 && cells[place].stands_before(&cells[place - 1])
}

/// The same cells in the order of a row's list.
fn in_order(cells: &[Cell]) -> ArrayVec<Cell, MOST_GATHERED>
    requires { length cells.now ≤ MOST_GATHERED }
    ensures same { IsPermutation cells.now result.items }
    ensures ordered { IsOrdered result.items }
    ensures in_range { All (λ cell. cell.version < 2 ^ 64) cells.now }
{
    let mut ordered = ArrayVec::new();
    for cell in cells {
        // read here so that its range is known
        let _version = cell.version;
        ordered.push(*cell);
    }
    ordered.as_mut_slice().sort_unstable_by(|a, b| a.order(b));
    ordered
}

/// The kept ones of cells in order. The keys rise, and the cells of each are gone through from the
/// oldest on.
fn select(ordered: &[Cell], needed: &[u64], kept: &mut Kept)
    requires room { length ordered.now ≤ MOST_GATHERED }
    requires ordered { IsOrdered ordered.now }
    requires apart { AreApart ordered.now }
    ensures { IsKeptList ordered.now needed.now kept.new }
{
    kept.clear();
    let mut from = 0;
    while from < ordered.len() {
        let end = end_of_key(ordered, from);
        select_key(ordered, from, end, needed, kept);
        from = end;
    }
}

/// The place behind the last cell of the key that begins at this place.
fn end_of_key(ordered: &[Cell], from: usize) -> usize
    requires within { from < length ordered.now }
    requires ordered { IsOrdered ordered.now }
    requires first { (k : ℕ) (d : Cell) → k + 1 ≡ from → (slice_index_or ordered.now k d).key
        < (slice_index_or ordered.now from d).key }
    ensures { IsKeyAt ordered.now from result }
{
    let mut end = from + 1;
    while end < ordered.len() && ordered[end].key == ordered[from].key {
        end += 1;
    }
    end
}

/// Adds the kept ones of the cells of one key.
fn select_key(ordered: &[Cell], from: usize, end: usize, needed: &[u64], kept: &mut Kept)
    requires room { length ordered.now ≤ MOST_GATHERED }
    requires ordered { IsOrdered ordered.now }
    requires apart { AreApart ordered.now }
    requires key { IsKeyAt ordered.now from end }
    requires before { IsKeptTo ordered.now needed.now from kept.old }
    ensures { IsKeptTo ordered.now needed.now end kept.new }
{
    let mut shown = false;
    let mut place = end;
    while place > from {
        place -= 1;
        if may_stay(&ordered[place], shown) && is_picked(ordered, place, needed) {
            kept.push(ordered[place]);
            shown = true;
        }
    }
}

/// Whether the cell has a value, or one of its key was kept.
fn may_stay(cell: &Cell, shown: bool) -> bool
    ensures { IsTrue result ↔ MayStay shown cell.now }
{
    shown || cell.value.is_some()
}

/// Whether the cell at this place is the newest of its key, or a needed version lies from its own
/// to below that of the cell in front of it.
fn is_picked(ordered: &[Cell], place: usize, needed: &[u64]) -> bool
    requires { place < length ordered.now }
    ensures { IsTrue result ↔ IsPicked ordered.now needed.now place }
{
    if place == 0 {
        return true;
    }
    let cell = &ordered[place];
    let newer = &ordered[place - 1];
    newer.key != cell.key || lies_between(needed, cell.version, newer.version)
}

/// Whether a version lies from the one to below the other.
fn lies_between(needed: &[u64], from: u64, end: u64) -> bool
    ensures { IsTrue result ↔ Any (λ u. (from ≤ u) × (u < end)) needed.now }
{
    needed.iter().any(|u| from <= *u && *u < end)
}
