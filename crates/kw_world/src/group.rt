//! The rows of a rebalance's group, and the places of their cells.
//!
//! A group is a full row, alone or together with the row after it. It is frozen, gathered and
//! retired one row after the other. A cell of the group has one number, its place: its own number
//! in the full row, and that plus `CELLS` in the second one.
ghost use Rattle.std.specs.Prelude.{◌≡◌, ◌<◌, ◌*◌};
ghost use Rattle.kw_words.specs.declared.sizes.TheConstants.{CELLS, MOST_CELLS};
ghost use Rattle.kw_world.specs.GroupPlaces.{at_first_row, at_last_row, cell_at, is_second, place_in_group, row_at};
ghost use Rattle.kw_world.specs.Sizes.{product};

use crate::local::Local;
use crate::rebalance::Rebalancing;
use kw_words::sizes::{CELL_COUNT, MOST_GROUP};

/// Whether the second row of the group is at hand.
#[inline(always)]
pub fn is_second(rebalance: &Rebalancing) -> bool
    ensures { result ≡ is_second rebalance.now }
{
    match rebalance.second {
        Some(row) => row == rebalance.hand,
        None => false,
    }
}

/// The place in the group of a cell of the row at hand.
#[inline(always)]
pub fn place_in_group(rebalance: &Rebalancing, cell: u32) -> u32
    requires { cell < MOST_CELLS }
    ensures { result ≡ place_in_group product rebalance.now cell }
{
    if is_second(rebalance) {
        CELL_COUNT + cell
    } else {
        cell
    }
}

/// The end of the places of the row at hand.
#[inline(always)]
pub fn places_end(rebalance: &Rebalancing) -> u32
    ensures { result ≡ place_in_group product rebalance.now CELLS }
{
    if is_second(rebalance) {
        MOST_GROUP * CELL_COUNT
    } else {
        CELL_COUNT
    }
}

/// The row of the cell at a place of the group.
pub fn row_at(local: &Local, place: u32) -> u32
    ensures { result ≡ row_at product local.now place }
{
    if place < CELL_COUNT {
        local.row
    } else {
        local.rebalance.second.unwrap_or(0)
    }
}

/// The number that the cell at a place of the group has in its row.
#[inline(always)]
pub fn cell_at(place: u32) -> u32
    ensures { result ≡ cell_at product place }
{
    if place < CELL_COUNT {
        place
    } else {
        place - CELL_COUNT
    }
}

/// The first row of the group is at hand from here on, and the second one, if there is one, comes
/// after it.
pub fn to_first_row(local: &mut Local)
    ensures { local.new ≡ at_first_row local.old }
{
    local.rebalance.hand = local.row;
    local.rebalance.ahead = local.rebalance.second;
}

/// This row of the group is at hand from here on, and none comes after it.
pub fn to_last_row(local: &mut Local, row: u32)
    ensures { local.new ≡ at_last_row row local.old }
{
    local.rebalance.hand = row;
    local.rebalance.ahead = None;
}
