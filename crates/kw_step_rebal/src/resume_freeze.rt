//! What a seat knows after the events that freeze the rows of the group, and after its looks at the
//! scans.
ghost use Rattle.std.specs.Prelude.{◌≡◌, ◌==◌, ◌<◌, Some, length};
ghost use Rattle.kw_cells.specs.declared.limits.TheConstants.{MOST_NEEDED};
ghost use Rattle.kw_words.specs.Pend.{pend_of, pend_word};
ghost use Rattle.kw_words.specs.Scan.{scan_of};
ghost use Rattle.kw_words.specs.declared.sizes.TheConstants.{MOST_CELLS, SEATS};
ghost use Rattle.kw_world.specs.declared.limits.TheConstants.{MOST_MARKS};
ghost use Rattle.kw_world.specs.FreezeTransitions.{count_frozen, row_frozen, to_freeze_look, marking, freezing, freeze_seen, entry_tried, to_scan_look, needing, scan_seen, scan_helped, to_pin_look, pin_seen};
ghost use Rattle.kw_world.specs.Sane.{IsEntry};
ghost use Rattle.kw_world.specs.Sizes.{product};
ghost use Rattle.kw_world.specs.Transition.{outcome};

use crate::resume::to;
use crate::resume_take::to_take;
use kw_words::pend::Pend;
use kw_words::scan::ScanWord;
use kw_words::sizes::SEAT_COUNT;
use kw_world::activity::Activity;
use kw_world::activity::rebalance::Rebalance;
use kw_world::activity::rebalance::freeze::Freeze;
use kw_world::event::StepDone;
use kw_world::group::{place_in_group, to_last_row};
use kw_world::local::Local;
use kw_world::marks::Mark;

// The seat has frozen the count of the row at hand.
pub(crate) fn count_frozen(local: &mut Local) -> StepDone
    ensures { outcome local.new result ≡ count_frozen local.old }
{
    to(
        local,
        Activity::Rebalance(Rebalance::Freeze(Freeze::Look(0))),
    )
}

// The row at hand is frozen. The next row of the group is, and after the last one come the scans.
fn row_frozen(local: &mut Local) -> StepDone
    ensures { outcome local.new result ≡ row_frozen local.old.rebalance.ahead local.old }
{
    match local.rebalance.ahead {
        Some(row) => {
            to_last_row(local, row);
            to(local, Activity::Rebalance(Rebalance::Freeze(Freeze::Count)))
        }
        None => {
            local.rebalance.needed.clear();
            to(
                local,
                Activity::Rebalance(Rebalance::Freeze(Freeze::Scan(0))),
            )
        }
    }
}

// The seat goes on to the entry of this seat; after the last entry the row at hand is frozen.
#[inline(always)]
fn to_look(local: &mut Local, entry: u32) -> StepDone
    ensures { outcome local.new result ≡ to_freeze_look product entry local.old }
{
    if entry < SEAT_COUNT {
        to(
            local,
            Activity::Rebalance(Rebalance::Freeze(Freeze::Look(entry))),
        )
    } else {
        row_frozen(local)
    }
}

// The seat remembers a stamped cell of the row at hand.
#[inline(always)]
fn remember(local: &mut Local, cell: u32, version: u64)
    requires room { length local.old.rebalance.marks < MOST_MARKS }
    requires cell { cell < MOST_CELLS }
    ensures { local.new ≡ marking product cell version local.old }
{
    let cell = place_in_group(&local.rebalance, cell);
    local.rebalance.marks.push(Mark { cell, version });
}

// The seat is about to freeze the entry that it found.
#[inline(always)]
fn freeze(local: &mut Local, entry: u32, found: Pend) -> StepDone
    ensures { outcome local.new result ≡ freezing entry found local.old }
{
    local.rebalance.entry = found;
    to(
        local,
        Activity::Rebalance(Rebalance::Freeze(Freeze::Entry(entry))),
    )
}

/// The seat was told the entry of this seat in the row at hand. An idle or a pending one is frozen
/// next, and a stamped cell is remembered.
#[inline(always)]
pub fn look(local: &mut Local, entry: u32, found: u64) -> StepDone
    requires entry { entry < SEATS }
    requires room { length local.old.rebalance.marks < MOST_MARKS }
    ensures { outcome local.new result ≡ freeze_seen product entry (pend_of found) local.old }
{
    match Pend::unpack(found) {
        Some(Pend::Idle) => freeze(local, entry, Pend::Idle),
        Some(Pend::Pending(cell)) => freeze(local, entry, Pend::Pending(cell)),
        Some(Pend::Stamped(cell, version)) => {
            remember(local, cell, version);
            to_look(local, entry + 1)
        }
        _ => to_look(local, entry + 1),
    }
}

/// The seat has tried to freeze the entry, and was told the entry found. Where it was another one,
/// it is looked at once more.
#[inline(always)]
pub fn entry_tried(local: &mut Local, entry: u32, found: u64) -> StepDone
    requires entry { entry < SEATS }
    requires held { IsEntry product (Some local.old.rebalance.entry) }
    ensures { outcome local.new result ≡ entry_tried product entry
        (found == pend_word local.old.rebalance.entry) local.old }
{
    if found == local.rebalance.entry.pack() {
        to_look(local, entry + 1)
    } else {
        to(
            local,
            Activity::Rebalance(Rebalance::Freeze(Freeze::Look(entry))),
        )
    }
}

// The seat goes on to the scan of this seat, or to the cells of the row after the last scan.
#[inline(always)]
fn to_scan(local: &mut Local, seat: u32) -> StepDone
    ensures { outcome local.new result ≡ to_scan_look product seat local.old }
{
    if seat < SEAT_COUNT {
        to(
            local,
            Activity::Rebalance(Rebalance::Freeze(Freeze::Scan(seat))),
        )
    } else {
        to_take(local)
    }
}

// A scan may still ask for the version.
#[inline(always)]
fn need(local: &mut Local, version: u64)
    requires { length local.old.rebalance.needed < MOST_NEEDED }
    ensures { local.new ≡ needing version local.old }
{
    local.rebalance.needed.push(version);
}

/// The seat was told the scan of this seat. One that waits is helped next, and the version of one
/// that has drawn is needed.
#[inline(always)]
pub fn scan(local: &mut Local, seat: u32, found: u64) -> StepDone
    requires seat { seat < SEATS }
    requires room { length local.old.rebalance.needed < MOST_NEEDED }
    ensures { outcome local.new result ≡ scan_seen product seat (scan_of found) local.old }
{
    match ScanWord::unpack(found) {
        Some(ScanWord::Waiting(clock)) => {
            local.rebalance.waiting = clock;
            to(
                local,
                Activity::Rebalance(Rebalance::Freeze(Freeze::Draw(seat))),
            )
        }
        Some(ScanWord::Drawn(version)) => {
            need(local, version);
            to_scan(local, seat + 1)
        }
        _ => to_scan(local, seat + 1),
    }
}

// The seat has tried to give the waiting scan its version, and was told the scan found.
pub(crate) fn scan_helped(local: &mut Local, seat: u32, found: u64) -> StepDone
    requires seat { seat < SEATS }
    requires room { length local.old.rebalance.needed < MOST_NEEDED }
    ensures { outcome local.new result ≡ scan_helped product seat (scan_of found) local.old }
{
    let drawn = local.rebalance.drawn;
    match ScanWord::unpack(found) {
        Some(ScanWord::Waiting(clock)) if clock == local.rebalance.waiting => {
            need(local, drawn);
            to_scan(local, seat + 1)
        }
        Some(ScanWord::Drawn(settled)) => {
            need(local, settled);
            to_scan(local, seat + 1)
        }
        _ => to_scan(local, seat + 1),
    }
}

// The seat goes on to the pin of this seat, or to the cells of the row after the last pin.
#[inline(always)]
fn to_pin(local: &mut Local, seat: u32) -> StepDone
    ensures { outcome local.new result ≡ to_pin_look product seat local.old }
{
    if seat < SEAT_COUNT {
        to(
            local,
            Activity::Rebalance(Rebalance::Freeze(Freeze::Pin(seat))),
        )
    } else {
        to_take(local)
    }
}

/// The seat was told the pin of this seat: the version at which it has pinned the map is needed.
#[inline(always)]
pub fn pin(local: &mut Local, seat: u32, found: u64) -> StepDone
    requires seat { seat < SEATS }
    requires room { length local.old.rebalance.needed < MOST_NEEDED }
    ensures { outcome local.new result ≡ pin_seen product seat (scan_of found) local.old }
{
    if let Some(ScanWord::Drawn(version)) = ScanWord::unpack(found) {
        need(local, version);
    }
    to_pin(local, seat + 1)
}
