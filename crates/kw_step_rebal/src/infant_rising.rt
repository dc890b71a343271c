//! The links of a new row whose cells rise by key and version.
//!
//! The cells that a rebalance keeps always rise, so whoever knows that finds the cell behind
//! another one by looks at the cells of two keys.
ghost use Rattle.std.specs.Prelude.{◌≡◌, ◌<◌, ◌≤◌, ◌-◌, true, length, count_by, nat_le, nat_lt, slice_get, ◌&&◌, if◌then◌else◌, Some};
ghost use Rattle.kw_cells.specs.Kept.{AreRising};
ghost use Rattle.kw_words.specs.declared.sizes.TheConstants.{CELLS};
ghost use Rattle.kw_world.specs.Sane.{IsCellBelow};
ghost use Rattle.kw_world.specs.WriteTransitions.{has_key, last_with, listed_after};

use kw_cells::cell::Cell;

/// The cell that stands behind the one at this place in the list of a row with these cells, which
/// rise: the same as without that.
#[inline(always)]
pub fn listed_after_rising(cells: &[Cell], place: u32) -> Option<u32>
    requires few { length cells.now ≤ CELLS }
    requires rising { AreRising cells.now }
    ensures cell { result ≡ listed_after cells.now place }
    ensures within { IsCellBelow CELLS result }
{
    match cells.get(place as usize) {
        Some(cell) => behind(cells, place, cell.key),
        None => None,
    }
}

// The same of a cell of this key.
#[inline(always)]
fn behind(cells: &[Cell], place: u32, key: u32) -> Option<u32>
    requires few { length cells.now ≤ CELLS }
    requires rising { AreRising cells.now }
    requires key { has_key key (slice_get cells.now place) ≡ true }
    ensures cell { result ≡ (if nat_lt 0 place && has_key key (slice_get cells.now (place - 1))
        then Some (place - 1)
        else last_with cells.now (slice_get cells.now
        (count_by (λ cell. nat_le cell.key key) cells.now))) }
    ensures within { IsCellBelow CELLS result }
{
    if place > 0 && cells[place as usize - 1].key == key {
        return Some(place - 1);
    }
    let next = key_end(cells, place as usize, key);
    match cells.get(next) {
        Some(other) => Some((key_end(cells, next, other.key) - 1) as u32),
        None => None,
    }
}

// The first place behind this one, of a cell of this key, whose cell has another key, or the end:
// so many cells have no greater key.
#[inline(always)]
fn key_end(cells: &[Cell], at: usize, key: u32) -> usize
    requires rising { AreRising cells.now }
    requires key { has_key key (slice_get cells.now at) ≡ true }
    ensures count { result ≡ count_by (λ cell. nat_le cell.key key) cells.now }
    ensures behind { at < result }
    ensures within { result ≤ length cells.now }
{
    let mut end = at + 1;
    while end < cells.len() && cells[end].key == key {
        end += 1;
    }
    end
}
