//! What a seat knows after the events that gather the cells of the group, and after the last of
//! them.
//!
//! The end of a row's cells has no event of its own: it follows from the event that ends the
//! walk, or from that on the last remembered cell that was not reached. The seat goes on to
//! the next row of the group, or plans the new rows then, which takes no memory.
ghost use Rattle.std.specs.Prelude.{◌≡◌, ◌<◌, ◌≤◌, length};
ghost use Rattle.kw_cells.specs.declared.limits.TheConstants.{MOST_GATHERED, MOST_NEEDED};
ghost use Rattle.kw_words.specs.Plain.{cell_of_link_word, key_of_word, value_of_word, version_of_word};
ghost use Rattle.kw_words.specs.declared.sizes.TheConstants.{CELLS, MOST_CELLS};
ghost use Rattle.kw_world.specs.Sizes.{product};
ghost use Rattle.kw_world.specs.TakeTransitions.{keeping, planned, row_gathered, take_reached, take_past, take_version, taking, to_left, to_list, to_take};
ghost use Rattle.kw_world.specs.Transition.{outcome, to};

use crate::resume::to;
use kw_cells::cell::Cell;
use kw_cells::keep::keep;
use kw_cells::pack::pack_rows;
use kw_words::plain::{unpack_cell_link, unpack_key, unpack_value, unpack_version};
use kw_words::sizes::CELL_COUNT;
use kw_world::activity::Activity;
use kw_world::activity::rebalance::Rebalance;
use kw_world::activity::rebalance::gather::Gather;
use kw_world::activity::rebalance::seek::Seek;
use kw_world::event::StepDone;
use kw_world::group::{cell_at, place_in_group, places_end, to_first_row, to_last_row};
use kw_world::local::Local;
use kw_world::rebuilt::Starts;

// The seat begins to walk along the list of the row at hand.
fn to_list(local: &mut Local) -> StepDone
    ensures { outcome local.new result ≡ to_list local.old }
{
    local.link = None;
    local.walked = 0;
    to(local, Activity::Rebalance(Rebalance::Gather(Gather::Link)))
}

// The seat begins with the first row of the group, and no cell is gathered.
pub(crate) fn to_take(local: &mut Local) -> StepDone
    ensures { outcome local.new result ≡ to_take local.old }
{
    local.rebalance.gathered.clear();
    to_first_row(local);
    to_list(local)
}

// The seat has reached this cell behind its link, and need not remember it any more.
#[inline(always)]
fn reach(local: &mut Local, cell: u32)
    requires walked { local.old.walked ≤ CELLS }
    requires cell { cell < MOST_CELLS }
    ensures { local.new ≡ taking product cell local.old }
{
    local.place = cell;
    local.walked = (local.walked + 1).min(CELL_COUNT);
    let place = place_in_group(&local.rebalance, cell);
    local.rebalance.marks.forget(place);
}

/// The seat was told the link at which it stands.
#[inline(always)]
pub fn take_from(local: &mut Local, found: u64) -> StepDone
    requires walked { local.old.walked ≤ CELLS }
    requires gathered { length local.old.rebalance.gathered ≤ MOST_GATHERED }
    requires needed { length local.old.rebalance.needed ≤ MOST_NEEDED }
    ensures { outcome local.new result ≡ take_reached product (cell_of_link_word found) local.old }
{
    match unpack_cell_link(found) {
        Some(cell) => {
            reach(local, cell);
            to(local, Activity::Rebalance(Rebalance::Gather(Gather::Key)))
        }
        None => to_left(local),
    }
}

/// The seat was told the key of the cell that it reached.
#[inline(always)]
pub fn take_key(local: &mut Local, found: u64) -> StepDone
    ensures { outcome local.new result ≡ to (Activity.Rebalance (Rebalance.Gather Gather.Version))
        (record local.old { place_key = key_of_word found }) }
{
    local.place_key = unpack_key(found);
    to(
        local,
        Activity::Rebalance(Rebalance::Gather(Gather::Version)),
    )
}

/// The seat was told the version of that cell. A cell without one counts as one of version 1; no
/// list has such a cell.
#[inline(always)]
pub fn take_version(local: &mut Local, found: u64) -> StepDone
    ensures { outcome local.new result ≡ take_version (version_of_word found) local.old }
{
    local.place_version = unpack_version(found).unwrap_or(1);
    to(local, Activity::Rebalance(Rebalance::Gather(Gather::Value)))
}

// The seat was told the value of the cell in hand, and gathers the cell.
#[inline(always)]
fn gather(local: &mut Local, found: u64)
    requires { local.old.place < CELLS }
    ensures { local.new ≡ keeping product (value_of_word found) local.old }
{
    let place = place_in_group(&local.rebalance, local.place);
    local.rebalance.gathered.gather(Cell {
        key: local.place_key,
        place,
        version: local.place_version,
        value: unpack_value(found),
    });
}

/// The seat was told the value of the cell that it reached, and goes on past it.
#[inline(always)]
pub fn take_value(local: &mut Local, found: u64) -> StepDone
    requires { local.old.place < CELLS }
    ensures { outcome local.new result
        ≡ take_past (keeping product (value_of_word found) local.old) }
{
    gather(local, found);
    local.link = Some(local.place);
    to(local, Activity::Rebalance(Rebalance::Gather(Gather::Link)))
}

/// The seat was told the key of a remembered cell that it did not reach.
#[inline(always)]
pub fn take_left_over_key(local: &mut Local, found: u64) -> StepDone
    ensures { outcome local.new result ≡ to (Activity.Rebalance (Rebalance.Gather Gather.LeftOverValue))
        (record local.old { place_key = key_of_word found }) }
{
    local.place_key = unpack_key(found);
    to(
        local,
        Activity::Rebalance(Rebalance::Gather(Gather::LeftOverValue)),
    )
}

/// The seat was told the value of that cell.
#[inline(always)]
pub fn left_over_value(local: &mut Local, found: u64) -> StepDone
    requires place { local.old.place < CELLS }
    requires gathered { length local.old.rebalance.gathered ≤ MOST_GATHERED }
    requires needed { length local.old.rebalance.needed ≤ MOST_NEEDED }
    ensures { outcome local.new result
        ≡ to_left product (keeping product (value_of_word found) local.old) }
{
    gather(local, found);
    to_left(local)
}

// The seat goes on to a remembered cell of the row at hand that it did not reach; where none is
// left, that row is gathered.
fn to_left(local: &mut Local) -> StepDone
    requires gathered { length local.old.rebalance.gathered ≤ MOST_GATHERED }
    requires needed { length local.old.rebalance.needed ≤ MOST_NEEDED }
    ensures { outcome local.new result ≡ to_left product local.old }
{
    let end = places_end(&local.rebalance);
    match local.rebalance.marks.least() {
        Some(mark) if mark.cell < end => {
            local.place = cell_at(mark.cell);
            local.place_version = mark.version;
            local.rebalance.marks.forget(mark.cell);
            to(
                local,
                Activity::Rebalance(Rebalance::Gather(Gather::LeftOverKey)),
            )
        }
        _ => row_gathered(local),
    }
}

// The row at hand is gathered. The next row of the group is, and after the last one the seat plans
// the new rows and begins to seek free ones.
fn row_gathered(local: &mut Local) -> StepDone
    requires gathered { length local.old.rebalance.gathered ≤ MOST_GATHERED }
    requires needed { length local.old.rebalance.needed ≤ MOST_NEEDED }
    ensures { outcome local.new result
        ≡ row_gathered product local.old.rebalance.ahead local.old }
{
    match local.rebalance.ahead {
        Some(row) => {
            to_last_row(local, row);
            to_list(local)
        }
        None => {
            plan(local);
            to(local, Activity::Rebalance(Rebalance::Seek(Seek::First)))
        }
    }
}

// The seat chooses the cells that the new rows get, and where each of these starts among them. The
// cells go into its own list, and no other is made. No row is taken as yet.
fn plan(local: &mut Local)
    requires gathered { length local.old.rebalance.gathered ≤ MOST_GATHERED }
    requires needed { length local.old.rebalance.needed ≤ MOST_NEEDED }
    ensures { local.new ≡ planned product local.old }
{
    keep(
        local.rebalance.gathered.as_slice(),
        local.rebalance.needed.as_slice(),
        &mut local.rebalance.kept,
    );
    let starts = pack_rows(&local.rebalance.kept);
    local.rebalance.starts = Starts::of(starts);
    local.rebalance.taken.clear();
    local.rebalance.at = 0;
    local.rebalance.sought = 0;
    local.rebalance.asked = 1;
}
