//! What a reader knows after its looks at the entries of a row.
//!
//! The running map makes a look by a step of its own, and calls `look` for what follows; a pending
//! entry that it sees is rare.
ghost use Rattle.std.specs.Prelude.{◌≡◌, ◌+◌, ◌<◌, length, if◌then◌else◌};
ghost use Rattle.kw_words.specs.Pend.{pend_of};
ghost use Rattle.kw_words.specs.Plain.{key_of_word};
ghost use Rattle.kw_words.specs.declared.sizes.TheConstants.{SEATS};
ghost use Rattle.kw_world.specs.Sizes.{product};
ghost use Rattle.kw_world.specs.Calls.{is_in_range};
ghost use Rattle.kw_world.specs.Transition.{outcome, to};
ghost use Rattle.kw_world.specs.ReadTransitions.{to_look, look_seen, help_seen, remembering};

use crate::resume::to;
use kw_words::pend::Pend;
use kw_words::plain::unpack_key;
use kw_words::sizes::SEAT_COUNT;
use kw_world::activity::Activity;
use kw_world::activity::look::Look;
use kw_world::activity::read::Read;
use kw_world::calls::is_in_range;
use kw_world::event::StepDone;
use kw_world::local::Local;
use kw_world::marks::Mark;

// The seat goes on to the entry of this seat, or to the row's list after the last entry.
#[inline(always)]
fn to_look(local: &mut Local, entry: u32) -> StepDone
    ensures { outcome local.new result ≡ to_look product entry local.old }
{
    if entry < SEAT_COUNT {
        to(local, Activity::Look(Look::Entry(entry)))
    } else {
        to(local, Activity::Read(Read::Start))
    }
}

// The seat remembers a stamped cell.
fn remember(local: &mut Local, cell: u32, version: u64)
    requires { length local.old.remembered < SEATS }
    ensures { local.new ≡ remembering cell version local.old }
{
    local.remembered.push(Mark { cell, version });
}

/// The seat was told the entry of this seat.
#[inline(always)]
pub fn look(local: &mut Local, entry: u32, found: u64) -> StepDone
    requires entry { entry < SEATS }
    requires room { length local.old.remembered < SEATS }
    ensures { outcome local.new result ≡ look_seen product entry (pend_of found) local.old }
{
    match Pend::unpack(found) {
        Some(Pend::Pending(cell)) => {
            local.looked = entry;
            local.saw = cell;
            to(local, Activity::Look(Look::Key))
        }
        Some(Pend::Stamped(cell, version)) => {
            remember(local, cell, version);
            to_look(local, entry + 1)
        }
        _ => to_look(local, entry + 1),
    }
}

// The seat was told the key of the pending cell.
pub(crate) fn look_key(local: &mut Local, found: u64) -> StepDone
    requires { local.old.looked < SEATS }
    ensures { outcome local.new result ≡ (if is_in_range local.old.call (key_of_word found)
        then to (Activity.Look Look.Clock) local.old else to_look product (local.old.looked + 1) local.old) }
{
    if is_in_range(local.call, unpack_key(found)) {
        to(local, Activity::Look(Look::Clock))
    } else {
        let next = local.looked + 1;
        to_look(local, next)
    }
}

// The seat has tried to stamp the pending cell, and was told the entry found.
pub(crate) fn help(local: &mut Local, found: u64) -> StepDone
    requires looked { local.old.looked < SEATS }
    requires room { length local.old.remembered < SEATS }
    ensures { outcome local.new result ≡ help_seen product (pend_of found) local.old }
{
    let next = local.looked + 1;
    let helping = local.helping;
    match Pend::unpack(found) {
        Some(Pend::Pending(cell)) if cell == local.saw => {
            remember(local, cell, helping);
            to_look(local, next)
        }
        Some(Pend::Stamped(cell, stamped)) => {
            remember(local, cell, stamped);
            to_look(local, next)
        }
        _ => to_look(local, next),
    }
}
