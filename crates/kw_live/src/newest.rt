//! The walk of a get along the list of its row, whose local lies at rest.
//!
//! A get answers by the newest cell of its key. So this keeps that one alone of the cells that the
//! get gathers, and where the get has come along the list: both lie in registers. That the newest
//! is the first of those that its seat has gathered is for the proof to say.
ghost use Rattle.std.specs.Prelude.{◌≡◌};
ghost use Rattle.kw_cells.specs.Cells.{value_in};
ghost use Rattle.kw_follow.specs.Following.{Follows};
ghost use Rattle.kw_follow.specs.Ways.{on_way};
ghost use Rattle.kw_live.specs.Getting.{HasFound, newer_of};

use crate::beginning::begin_list;
use kw_cells::cell::Cell;
use kw_follow::{Cursor, Way};
use kw_table::{Pass, Shared};
use kw_words::plain::{unpack_cell_link, unpack_key};
use kw_world::activity::Activity;
use kw_world::activity::read::Read;

/// Goes along the list of the row of a get that has looked at its entries and remembers nothing of
/// them, to the end of the list or to the first key above its own. The answer is what the newest
/// cell of its key shows. Takes no memory.
#[inline(always)]
pub(crate) fn read_newest(shared: &Shared, pass: &mut Pass, way: Way) -> Option<u64>
    requires { Follows shared.now pass.old (on_way (Activity.Read Read.Start) way) }
    ensures { HasFound shared.now pass.old pass.new result }
{
    let mut newest: Option<Cell> = None;
    let first = Cursor::first(way.row);
    let mut cursor = begin_list(shared, pass, first, way.built, way.key);
    loop {
        let link = cursor.load_cell_link(shared, pass);
        let Some(cell) = unpack_cell_link(link) else {
            return shown_by(newest);
        };
        let there = cursor.reach(cell);
        let word = there.load_key(shared, pass);
        let key = unpack_key(word);
        if key < way.key {
            cursor = there.past();
        } else if key <= way.key {
            let ranged = there.with_key(key);
            let version = ranged.load_version(shared, pass);
            let read = ranged.with_version(version);
            let value = read.load_value(shared, pass);
            newest = Some(newer_of(read.cell(value), newest));
            cursor = read.past();
        } else {
            return shown_by(newest);
        }
    }
}

// Of a cell and the newest of those before it, the newer.
#[inline(always)]
fn newer_of(cell: Cell, newest: Option<Cell>) -> Cell
    ensures { result ≡ newer_of cell newest }
{
    match newest {
        Some(other) if !cell.stands_before(&other) => other,
        _ => cell,
    }
}

// What the cell shows; none where there is no cell.
#[inline(always)]
fn shown_by(cell: Option<Cell>) -> Option<u64>
    ensures { result ≡ value_in cell }
{
    match cell {
        Some(cell) => cell.value,
        None => None,
    }
}
