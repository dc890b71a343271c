//! What one event adds to the record, where a seat freezes the entries of a row, settles a scan, or
//! writes a copy of a cell.
ghost use Rattle.std.specs.Prelude.{◌≡◌, ◌<◌, ◌*◌, Some};
ghost use Rattle.kw_words.specs.declared.sizes.TheConstants.{CELLS, MOST_GROUP};
ghost use Rattle.kw_world.specs.Sane.{IsEntry, IsLocal};
ghost use Rattle.kw_world.specs.Sizes.{product};
ghost use Rattle.kw_world.specs.declared.activity.Activity.{Activity};

use kw_cells::cell::Cell;
use kw_cells::pack::RowCuts;
use kw_core::change::{Copied, Happening, Settled, change_of, copied_cell, settled_scan};
use kw_core::history::{Change, History};
use kw_core::seat_log::{Remark, SeatLog};
use kw_model::memory::Memory;
use kw_words::kind::Kind;
use kw_words::pend::Pend;
use kw_words::sizes::{CELL_COUNT, CELLS};
use kw_world::activity::Activity;
use kw_world::activity::draw::Draw;
use kw_world::activity::rebalance::Rebalance;
use kw_world::activity::rebalance::freeze::Freeze;
use kw_world::activity::rebalance::write::Write;
use kw_world::event::Choice;
use kw_world::local::Local;
use kw_world::rebuilt::{KeptCells, Starts};
use std::alloc::Global;
use std::test::Fail;

// The cells of two rows.
const TWO_ROWS: usize = 2 * CELLS;

// The seat 0 tries to freeze the entry of seat 3 in row 0, where it found this one.
fn at_an_entry(alloc: Global, entry: Pend) -> Local
    requires { IsEntry product (Some entry) }
    ensures ranges { IsLocal product result }
    ensures at { result.activity ≡ Activity.Rebalance (Rebalance.Freeze (Freeze.Entry 3)) }
    ensures row { result.row ≡ 0 }
    ensures hand { result.rebalance.hand ≡ 0 }
{
    let mut local = Local::idle(alloc);
    local.activity = Activity::Rebalance(Rebalance::Freeze(Freeze::Entry(3)));
    local.rebalance.entry = entry;
    local
}

// Its event, where the entry is this word by now.
fn finding(found: u64) -> Happening
    ensures { result.found ≡ found }
{
    Happening {
        seat: 0,
        choice: Choice::Go,
        found,
        kind: Kind::FreezePend,
        clock: 1,
    }
}

// Of row 0 cell 5 alone was given, to attempt 2.
fn with_one_given() -> [Option<usize>; CELLS] {
    let mut origins = [None; CELLS];
    origins[5] = Some(2);
    origins
}

// What the event adds by which this entry is frozen, where it is this word by now.
fn frozen(alloc: Global, entry: Pend, found: u64) -> Result<Change, Memory>
    requires { IsEntry product (Some entry) }
{
    let local = at_an_entry(alloc, entry);
    let origins = with_one_given();
    change_of(&local, finding(found), &SeatLog::new(), origins.as_slice())
}

// the cell 5 pending has the word 1 + 4 * 5, and stamped with the version 3 the word 2 + 4 * 5 +
// 2^15 * 3
#[test]
fn a_frozen_entry_loses_its_attempt_where_it_is_pending_still(rt: HostRuntime) -> Result<(), Fail> {
    let pending = frozen(rt.alloc(), Pend::Pending(5), 21)?;
    let stamped_by_now = frozen(rt.alloc(), Pend::Pending(5), 98_326)?;
    let idle = frozen(rt.alloc(), Pend::Idle, 0)?;
    assert_eq!(rt;
        [pending, stamped_by_now, idle],
        [Change::Loses(2), Change::Nothing, Change::Nothing]
    );
    Ok(())
}

// A scan that waits since the clock 4 tries to settle.
fn at_a_scan(alloc: Global) -> Local
    ensures ranges { IsLocal product result }
    ensures at { result.activity ≡ Activity.Draw Draw.Settle }
    ensures row { result.row ≡ 0 }
{
    let mut local = Local::idle(alloc);
    local.activity = Activity::Draw(Draw::Settle);
    local.waiting = 4;
    local
}

// the word of a scan that waits since the clock 4 is 1 + 4 * 4
#[test]
fn a_scan_that_settles_keeps_its_own_draw(rt: HostRuntime) -> Result<(), Fail> {
    let local = at_a_scan(rt.alloc());
    let mut log = SeatLog::new();
    log.drawn = 7;
    let settled = settled_scan(&local, finding(17), &log);
    let history = History::new(rt.alloc());
    let origins = with_one_given();
    let remark = Remark::of(&local, finding(17), origins.as_slice(), &history, 9);
    assert_eq!(rt;
        (settled, remark),
        (Some(Settled { seat: 0, at: 7 }), Remark::Same)
    );
    Ok(())
}

// the word of a scan that has drawn the version 5 is 2 + 4 * 5
#[test]
fn a_scan_that_was_helped_has_the_draw_of_its_helper(rt: HostRuntime) -> Result<(), Fail> {
    let local = at_a_scan(rt.alloc());
    let settled = settled_scan(&local, finding(22), &SeatLog::new());
    let history = History::new(rt.alloc());
    let origins = with_one_given();
    let remark = Remark::of(&local, finding(22), origins.as_slice(), &history, 9);
    assert_eq!(rt; (settled, remark), (None, Remark::DrawsVersion(9)));
    Ok(())
}

// A seat helps the scan of seat 2, which waits since the clock 4.
fn at_a_helped_scan(alloc: Global) -> Local
    ensures ranges { IsLocal product result }
{
    let mut local = Local::idle(alloc);
    local.activity = Activity::Rebalance(Rebalance::Freeze(Freeze::Settle(2)));
    local.rebalance.waiting = 4;
    local
}

#[test]
fn a_helper_settles_the_scan_of_another_seat(rt: HostRuntime) -> Result<(), Fail> {
    let local = at_a_helped_scan(rt.alloc());
    let mut log = SeatLog::new();
    log.drawn = 7;
    let waiting = settled_scan(&local, finding(17), &log);
    let quiet = settled_scan(&local, finding(0), &log);
    assert_eq!(rt; [waiting, quiet], [Some(Settled { seat: 2, at: 7 }), None]);
    Ok(())
}

// A seat writes the version of this cell of its new row 3, whose one kept cell stood at this place
// of the group of row 0 and row 1.
fn at_a_copy(alloc: Global, place: u32, cell: u32) -> Local
    requires place { place < MOST_GROUP * CELLS }
    requires cell { cell < CELLS }
    ensures ranges { IsLocal product result }
{
    let mut kept = KeptCells::new();
    kept.push(Cell {
        key: 45,
        version: 1,
        place,
        value: None,
    });
    let mut starts = RowCuts::new();
    starts.push(0);
    let mut local = Local::idle(alloc);
    local.activity = Activity::Rebalance(Rebalance::Write(Write::Version(cell)));
    local.rebalance.second = Some(1);
    local.rebalance.kept = kept;
    local.rebalance.starts = Starts::of(starts);
    local.rebalance.taken.push(3);
    local
}

#[test]
fn a_copy_stands_for_the_attempt_of_its_cell(rt: HostRuntime) -> Result<(), Fail> {
    let origins = with_one_given();
    let first = copied_cell(&at_a_copy(rt.alloc(), 5, 0), origins.as_slice());
    let second = copied_cell(&at_a_copy(rt.alloc(), 5, 1), origins.as_slice());
    let of_the_kept_cell = Copied {
        row: 3,
        cell: 0,
        attempt: Some(2),
    };
    let of_none = Copied {
        row: 3,
        cell: 1,
        attempt: None,
    };
    assert_eq!(rt; [first, second], [Some(of_the_kept_cell), Some(of_none)]);
    Ok(())
}

// Cell 5 was given in both rows of a group: to attempt 2 in row 0, and to attempt 7 in row 1.
#[test]
fn a_copy_of_the_second_row_stands_for_the_attempt_of_its_own_cell(rt: HostRuntime) {
    let mut origins = [None; TWO_ROWS];
    origins[5] = Some(2);
    origins[CELLS + 5] = Some(7);
    let of_first = copied_cell(&at_a_copy(rt.alloc(), 5, 0), origins.as_slice());
    let of_second = copied_cell(
        &at_a_copy(rt.alloc(), CELL_COUNT + 5, 0),
        origins.as_slice(),
    );
    let first = Copied {
        row: 3,
        cell: 0,
        attempt: Some(2),
    };
    let second = Copied {
        row: 3,
        cell: 0,
        attempt: Some(7),
    };
    assert_eq!(rt; [of_first, of_second], [Some(first), Some(second)]);
}
