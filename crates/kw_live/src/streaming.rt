//! The walk of a scan along the list of its row, of which each cell is handed on as it is read.
//!
//! A scan that goes on to a next row needs what it gathered no more: the walk to that row forgets
//! it. So where nothing is remembered of the entries, and all keys that the row may hold are in the
//! range, no cell is written down. Whoever reads the row is told one cell after the other, in the
//! order of the list, and keeps the cursor. Each cell's key is in the range, so none is compared
//! with its ends; and each has a version, which its word is, so none is looked at for having one.
//! That these are the cells that the scan's seat has gathered, and that the pairs which they show
//! are those that the scan then has, is for the clauses to say. The walk to the next row is
//! `go_by_rows`'s.
ghost use Rattle.std.specs.Prelude.{◌≡◌, [], List, IsTrue, MatchOption, Some};
ghost use Rattle.kw_cells.specs.declared.cell.Cell.{Cell as AnyCell};
ghost use Rattle.kw_world.specs.ReadTransitions.{to_left_over};
ghost use Rattle.kw_follow.specs.Following.{CarriesOn};
ghost use Rattle.kw_live.specs.Streaming.{EndsRow, LeadsOn, ReadsCell, Streams};

use kw_cells::cell::Cell;
use kw_follow::Cursor;
use kw_model::call::Call;
use kw_table::{Pass, Shared};
use kw_words::plain::{unpack_cell_link, unpack_key};
use kw_world::activity::Activity;
use kw_world::activity::read::Read;
use kw_world::activity::walk::Walk;
use kw_world::local::Local;

/// Whether the cells of the row at whose list a scan of these keys stands may be handed on one by
/// one: nothing was gathered of it, nothing is remembered of its entries, and it begins in the
/// range, as does the row after it.
#[inline(always)]
pub fn leads_on(local: &Local, first: u32, upto: u32) -> bool
    requires { local.now.call ≡ Some (Call.Scan first upto) }
    ensures leads { IsTrue result → LeadsOn local.now }
    ensures none { IsTrue result → local.now.gathered ≡ [] }
{
    local.next.is_some()
        && first <= local.lower
        && local.upper <= upto
        && local.remembered.as_slice().is_empty()
        && local.gathered.as_slice().is_empty()
}

/// Goes on along the list to the next cell, whose key is in the range of the scan's call. The
/// answer is that cell, and the cursor at the link after it; none where the row has no more.
///
/// Each cell that is told stands behind those told before it. After the last one the scan is on its
/// walk to the next row, and wants the least key of that. Takes no memory.
#[inline(always)]
pub fn next_cell(
    shared: &Shared,
    pass: &mut Pass,
    local: &mut Local,
    cursor: Cursor,
) -> Option<(Cell, Cursor)>
    requires leads { LeadsOn local.old }
    requires streams { (cells : List AnyCell)
        × Streams shared.now pass.old local.old cursor cells }
    ensures { (cells : List AnyCell) → Streams shared.now pass.old local.old cursor cells →
        MatchOption result
        (EndsRow shared.now pass.old local.old cells pass.new local.new)
        (λ there. (local.new ≡ local.old)
        × ReadsCell shared.now pass.old local.old cursor cells pass.new there.0 there.1) }
{
    let link = cursor.load_cell_link(shared, pass);
    let Some(cell) = unpack_cell_link(link) else {
        cursor.write(local, Activity::Read(Read::Link));
        go_on(local);
        return None;
    };
    let there = cursor.reach(cell);
    let word = there.load_key(shared, pass);
    let key = unpack_key(word);
    let ranged = there.with_key(key);
    let version = ranged.load_version(shared, pass);
    let mut read = ranged;
    read.version = version;
    let value = read.load_value(shared, pass);
    Some((read.cell(value), read.past()))
}

// The row has been read to its end: the scan goes on with the next one.
#[inline(always)]
fn go_on(local: &mut Local)
    requires { LeadsOn local.old }
    ensures { CarriesOn to_left_over local.old local.new }
{
    if let Some(row) = local.next {
        local.activity = Activity::Walk(Walk::Next);
        local.has_read = true;
        local.row = row;
        local.lower = local.upper;
        local.built = 0;
        local.want = local.upper;
        local.next = None;
        local.upper = 0;
    }
}
