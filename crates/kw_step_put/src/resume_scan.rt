//! What a seat knows after the events by which a call begins, and a scan or a pin gets its version.
//!
//! The running map makes each of these events by a step of its own, and calls the functions here
//! for what follows.
ghost use Rattle.std.specs.Prelude.{◌≡◌, Some, None};
ghost use Rattle.kw_words.specs.Scan.{scan_of};
ghost use Rattle.kw_world.specs.Transition.{outcome, to, leave};
ghost use Rattle.kw_world.specs.ScanTransitions.{begun, entered, pin_entered, scan_at_entered, unpin_entered, to_start, clock_seen, version_settled, settled};
ghost use Rattle.kw_world.specs.Sane.{CanBeginAt};

use crate::resume::{leave, to};
use kw_model::call::Call;
use kw_words::scan::ScanWord;
use kw_words::sizes::SPENT;
use kw_world::activity::Activity;
use kw_world::activity::draw::Draw;
use kw_world::activity::enter::Enter;
use kw_world::activity::walk::Walk;
use kw_world::answer::Answer;
use kw_world::calls::{first_key, is_pin, is_range_empty};
use kw_world::event::{Choice, StepDone};
use kw_world::local::Local;

/// An idle seat begins a call, and was told the epoch. With another choice it begins none, and
/// nothing changes.
pub fn begin(local: &mut Local, choice: Choice, epoch: u64) -> StepDone
    requires { CanBeginAt Activity.Idle choice local.old }
    ensures { outcome local.new result ≡ begun choice epoch local.old }
{
    match choice {
        Choice::Begin(call) => {
            local.call = Some(call);
            local.number += 1;
            local.epoch = epoch;
            to(local, Activity::Enter(Enter::Announce))
        }
        _ => StepDone::Skipped,
    }
}

/// The seat has announced its epoch: a scan is to load the clock, a call of a pin goes by what the
/// seat holds, and every other call is to begin its walk.
pub fn enter(local: &mut Local) -> StepDone
    ensures { outcome local.new result ≡ entered local.old.call local.old }
{
    match local.call {
        Some(Call::Scan(_, _)) => to(local, Activity::Draw(Draw::Clock)),
        Some(Call::Pin) => enter_pin(local),
        Some(Call::ScanAt(_, _)) => enter_scan_at(local),
        Some(Call::Unpin) => enter_unpin(local),
        _ => start(local),
    }
}

// A pin is to load the clock, unless the seat holds one.
fn enter_pin(local: &mut Local) -> StepDone
    ensures { outcome local.new result ≡ pin_entered local.old.pin local.old }
{
    match local.pin {
        Some(_) => leave(local, Answer::Held),
        None => to(local, Activity::Draw(Draw::Clock)),
    }
}

// A scan of the map as it was pinned begins its walk, or is over, where its range holds no key.
fn enter_scan_at(local: &mut Local) -> StepDone
    ensures { outcome local.new result ≡ scan_at_entered local.old.pin local.old }
{
    let Some(version) = local.pin else {
        return leave(local, Answer::NotPinned);
    };
    local.version = version;
    if is_range_empty(local.call) {
        return leave(local, Answer::Pairs);
    }
    start(local)
}

// A pin that the seat holds is to be taken back.
fn enter_unpin(local: &mut Local) -> StepDone
    ensures { outcome local.new result ≡ unpin_entered local.old.pin local.old }
{
    match local.pin {
        Some(_) => to(local, Activity::ClearPin),
        None => leave(local, Answer::NotPinned),
    }
}

// The seat begins its walk to the first key that it wants.
fn start(local: &mut Local) -> StepDone
    ensures { outcome local.new result ≡ to_start local.old }
{
    local.want = first_key(local.call);
    to(local, Activity::Walk(Walk::Start))
}

/// A scan or a pin was told the clock.
#[inline(always)]
pub fn clock(local: &mut Local, clock: u64) -> StepDone
    ensures { outcome local.new result ≡ clock_seen clock local.old }
{
    if clock >= SPENT {
        return leave(local, Answer::Spent);
    }
    local.waiting = clock;
    to(local, Activity::Draw(Draw::Wait))
}

/// A scan or a pin has exchanged its waiting word, and was told the word found.
#[inline(always)]
pub fn settle(local: &mut Local, found: u64) -> StepDone
    ensures { outcome local.new result ≡ settled (version_settled (scan_of found) local.old.drawn)
        local.old }
{
    local.version = match ScanWord::unpack(found) {
        Some(ScanWord::Drawn(version)) => version,
        _ => local.drawn,
    };
    if is_pin(local.call) {
        return to(local, Activity::Draw(Draw::Pin));
    }
    if is_range_empty(local.call) {
        return to(local, Activity::EndScan(Answer::Pairs));
    }
    start(local)
}

/// The version of a pin was stored: the seat holds it, and is to end the scan by which it got it.
pub fn pinned(local: &mut Local) -> StepDone
    ensures { outcome local.new result ≡ to (Activity.EndScan Answer.Done) (record local.old {
      pin = Some
          local.old.version;
    }) }
{
    local.pin = Some(local.version);
    to(local, Activity::EndScan(Answer::Done))
}

/// The pin was taken back: the seat holds none.
pub fn unpinned(local: &mut Local) -> StepDone
    ensures { outcome local.new result ≡ leave Answer.Done (record local.old { pin = None }) }
{
    local.pin = None;
    leave(local, Answer::Done)
}
