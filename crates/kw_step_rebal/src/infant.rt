//! What is written into a new row.
//!
//! The kept cells are cut at the starts, and each taken row gets one part of them. A row's list
//! goes by rising key, then by falling version, while the part stands by rising key and version: so
//! the first link leads to the last cell of the least key, and behind a cell stands the one before
//! it, if that has the same key, and else the last cell of the next key.
ghost use Rattle.std.specs.Prelude.{◌≡◌, ◌<◌, ◌≤◌, ◌+◌, ◌-◌, length, take, drop, count_by, nat_le, All, slice_get, slice_index_or, nat_lt, ◌&&◌, if◌then◌else◌, Some};
ghost use Rattle.kw_words.specs.declared.sizes.TheConstants.{CELLS};
ghost use Rattle.kw_world.specs.Sane.{IsCellBelow, IsCopy, IsLocal};
ghost use Rattle.kw_world.specs.Sizes.{product};
ghost use Rattle.kw_world.specs.SeekTransitions.{infant};
ghost use Rattle.kw_world.specs.WriteTransitions.{infant_cells, infant_count, infant_least, first_listed, listed_after, last_of_key, last_with, has_key, row_or};

use kw_cells::cell::Cell;
use kw_words::count::Count;
use kw_world::local::Local;

/// The taken row that is at hand, and row 0 where none is.
#[inline(always)]
pub fn infant(local: &Local) -> u32
    ensures { result ≡ infant local.now }
{
    let taken = local.rebalance.taken.as_slice();
    match taken.get(local.rebalance.at) {
        Some(row) => *row,
        None => 0,
    }
}

/// Which of the taken rows comes after the one at hand, counted from 0.
#[inline(always)]
pub fn next_at(local: &Local) -> usize
    requires { local.now.rebalance.at ≤ length local.now.rebalance.taken }
    ensures { result ≡ local.now.rebalance.at + 1 }
{
    // read here so that the number of taken rows is known
    let _taken = local.rebalance.taken.as_slice();
    local.rebalance.at + 1
}

/// The cells of that row, by rising key and version.
#[inline(always)]
pub fn infant_cells(local: &Local) -> &[Cell]
    requires { IsLocal product local.now }
    ensures cells { result.now ≡ infant_cells local.now }
    ensures few { length result.now ≤ CELLS }
    ensures in_range { All IsCopy result.now }
{
    let kept = local.rebalance.kept.as_slice();
    let starts = local.rebalance.starts.as_slice();
    let start = place_at(starts, local.rebalance.at, 0);
    let end = place_at(starts, next_at(local), kept.len());
    part_of(kept, start, end)
}

// The place at which the row of this number starts, and the other where there is none.
#[inline(always)]
fn place_at(starts: &[usize], number: usize, other: usize) -> usize
    ensures { result ≡ slice_index_or starts.now number other }
{
    match starts.get(number) {
        Some(place) => *place,
        None => other,
    }
}

// The cells from the one place to below the other, as far as there are any.
#[inline(always)]
fn part_of(cells: &[Cell], start: usize, end: usize) -> &[Cell]
    ensures { result.now ≡ take (end - start) (drop start cells.now) }
{
    let end = end.min(cells.len());
    if start < end { &cells[start..end] } else { &[] }
}

/// The count of that row, which has given its cells and is not frozen.
pub fn infant_count(local: &Local) -> Count
    requires { IsLocal product local.now }
    ensures { result ≡ infant_count local.now }
{
    Count {
        given: infant_cells(local).len() as u32,
        frozen: false,
    }
}

/// The least key of that row: that of the full row for the first new one, and that of its first
/// cell for every other.
pub fn infant_least(local: &Local) -> u32
    requires { IsLocal product local.now }
    ensures { result ≡ infant_least local.now }
{
    if local.rebalance.at == 0 {
        return local.lower;
    }
    match infant_cells(local).first() {
        Some(cell) => cell.key,
        None => 0,
    }
}

/// The row after that row: the next new row, and after the last one the row that stood after the
/// group.
pub fn infant_next(local: &Local) -> Option<u32>
    requires { local.now.rebalance.at ≤ length local.now.rebalance.taken }
    ensures { result ≡ row_or (slice_get local.now.rebalance.taken (local.now.rebalance.at + 1))
        local.now.rebalance.after }
{
    let next = next_at(local);
    match local.rebalance.taken.as_slice().get(next) {
        Some(row) => Some(*row),
        None => local.rebalance.after,
    }
}

// How many of the cells have a key at most this one.
fn count_upto(cells: &[Cell], key: u32) -> usize
    ensures count { result ≡ count_by (λ cell. nat_le cell.key key) cells.now }
    ensures few { result ≤ length cells.now }
{
    let mut count = 0;
    for cell in cells {
        if cell.key <= key {
            count += 1;
        }
    }
    count
}

// The last place of the cells of a key, which is that of one of them.
fn last_of_key(cells: &[Cell], key: u32) -> u32
    requires { length cells.now ≤ CELLS }
    ensures place { result ≡ last_of_key cells.now key }
    ensures within { result < CELLS }
{
    count_upto(cells, key).saturating_sub(1) as u32
}

/// The cell to which the first link of a row's list leads, where these are its cells.
pub fn first_listed(cells: &[Cell]) -> Option<u32>
    requires { length cells.now ≤ CELLS }
    ensures cell { result ≡ first_listed cells.now }
    ensures within { IsCellBelow CELLS result }
{
    match cells.first() {
        Some(first) => Some(last_of_key(cells, first.key)),
        None => None,
    }
}

/// The cell that stands behind the one at this place in the list of a row with these cells.
pub fn listed_after(cells: &[Cell], place: u32) -> Option<u32>
    requires { length cells.now ≤ CELLS }
    ensures cell { result ≡ listed_after cells.now place }
    ensures within { IsCellBelow CELLS result }
{
    match cells.get(place as usize) {
        Some(cell) => behind(cells, place, cell.key),
        None => None,
    }
}

// The same of a cell of this key: the one before it, if that has the same key, and else the last
// one of the next key.
fn behind(cells: &[Cell], place: u32, key: u32) -> Option<u32>
    requires few { length cells.now ≤ CELLS }
    requires at { place < length cells.now }
    ensures cell { result ≡ (if nat_lt 0 place && has_key key (slice_get cells.now (place - 1))
        then Some (place - 1)
        else last_with cells.now (slice_get cells.now
        (count_by (λ cell. nat_le cell.key key) cells.now))) }
    ensures within { IsCellBelow CELLS result }
{
    if place > 0 && cells[place as usize - 1].key == key {
        return Some(place - 1);
    }
    match cells.get(count_upto(cells, key)) {
        Some(next) => Some(last_of_key(cells, next.key)),
        None => None,
    }
}
