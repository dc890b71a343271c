//! What a seat knows after the events of a put or a delete.
ghost use Rattle.std.specs.Prelude.{◌*◌, ◌≡◌, ◌==◌, nat_lt, if◌then◌else◌, Some, None};
ghost use Rattle.kw_words.specs.Count.{count_of};
ghost use Rattle.kw_words.specs.Pend.{pend_of, pend_word};
ghost use Rattle.kw_world.specs.Sizes.{product};
ghost use Rattle.kw_world.specs.Local.{resting};
ghost use Rattle.kw_world.specs.Transition.{outcome, to};
ghost use Rattle.kw_world.specs.EngageTransitions.{to_rebalance};
ghost use Rattle.kw_world.specs.PutTransitions.{cleared, has_room, given_of, stamp_seen, tidies_row};
ghost use Rattle.kw_world.specs.Sane.{IsNumber};
ghost use Rattle.kw_world.specs.declared.limits.TheConstants.{TIDY_SHARE};

use crate::resume::{leave, to};
use kw_words::count::Count;
use kw_words::pend::Pend;
use kw_words::sizes::CELL_COUNT;
use kw_world::activity::Activity;
use kw_world::activity::put::Put;
use kw_world::activity::rebalance::Rebalance;
use kw_world::activity::rebalance::engage::Engage;
use kw_world::answer::Answer;
use kw_world::event::{Choice, StepDone};
use kw_world::limits::TIDY_SHARE;
use kw_world::local::Local;

// The row is full: it is rebalanced, and nothing is known of an earlier rebalance.
fn full(local: &mut Local) -> StepDone
    ensures { outcome local.new result ≡ to_rebalance local.old }
{
    local.rebalance.forget();
    to(local, Activity::Rebalance(Rebalance::Engage(Engage::Clock)))
}

/// The cell that a row with this count gives, if it gives one more. What is recorded of a put's
/// attempt asks it too.
pub fn room(found: u64) -> Option<u32>
    ensures value { result ≡ (if has_room product (count_of found) then Some (given_of (count_of found))
        else None) }
{
    match Count::unpack(found) {
        Some(count) if !count.frozen && count.given < CELL_COUNT => Some(count.given),
        _ => None,
    }
}

/// The seat was told the count of its row.
pub fn count(local: &mut Local, found: u64) -> StepDone
    ensures { outcome local.new result ≡ (if has_room product (count_of found)
        then to (Activity.Put Put.Add) local.old else to_rebalance local.old) }
{
    match room(found) {
        Some(_) => to(local, Activity::Put(Put::Add)),
        None => full(local),
    }
}

/// The seat has asked for a cell, and was told the count before.
pub fn add(local: &mut Local, found: u64) -> StepDone
    ensures { outcome local.new result ≡ (if has_room product (count_of found)
        then to (Activity.Put Put.Key) (record local.old { cell = given_of (count_of found) })
        else to_rebalance local.old) }
{
    match room(found) {
        Some(cell) => {
            local.cell = cell;
            to(local, Activity::Put(Put::Key))
        }
        None => full(local),
    }
}

/// The seat has tried to announce its cell, and was told the entry found.
pub fn announce(local: &mut Local, found: u64) -> StepDone
    ensures { outcome local.new result ≡ (if found == pend_word Pend.Idle then to (Activity.Put Put.Clock)
        local.old else to_rebalance local.old) }
{
    if found == Pend::Idle.pack() {
        to(local, Activity::Put(Put::Clock))
    } else {
        full(local)
    }
}

/// The seat has tried to stamp its cell, and was told the entry found.
pub fn stamp(local: &mut Local, found: u64) -> StepDone
    ensures { outcome local.new result ≡ stamp_seen (pend_of found) local.old }
{
    match Pend::unpack(found) {
        Some(Pend::Pending(cell)) if cell == local.cell => to(local, Activity::Put(Put::Version)),
        Some(Pend::Stamped(cell, version)) if cell == local.cell => {
            local.version = version;
            to(local, Activity::Put(Put::Version))
        }
        _ => full(local),
    }
}

// Whether so many rows are few for this epoch: so many were retired that puts may tidy.
fn is_late(rows: u32, epoch: u64) -> bool
    requires { IsNumber epoch }
    ensures { result ≡ nat_lt rows (TIDY_SHARE * epoch) }
{
    u64::from(rows) < u64::from(TIDY_SHARE) * epoch
}

// Whether the choice names the put's own row, and the put may tidy it in a table of so many rows.
fn tidies_row(local: &Local, rows: u32, choice: Choice) -> bool
    requires { IsNumber local.now.epoch }
    ensures { result ≡ tidies_row rows choice local.now }
{
    match choice {
        Choice::Guess(row) => row == local.row && is_late(rows, local.epoch),
        _ => false,
    }
}

/// The seat has cleared its entry: the put is done, and leaves; or it tidies its row first.
pub fn clear(local: &mut Local, rows: u32, choice: Choice) -> StepDone
    requires { IsNumber local.old.epoch }
    ensures { outcome local.new result ≡ cleared rows choice local.old }
{
    if tidies_row(local, rows, choice) {
        local.tidies = true;
        full(local)
    } else {
        leave(local, Answer::Done)
    }
}
