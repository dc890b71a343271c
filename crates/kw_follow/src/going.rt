//! Single events of a pass, and the local that follows its seat.
//!
//! An event is put together in `event`, once: the core's `operation`, a step of the table, and the
//! core's `resume`. Those that every call makes have a step of their own in `along`, and those that
//! a rebalance makes for each entry and each cell have one by way of `building`. All that the
//! crates above know of events they know by contracts like those of this file.
ghost use Rattle.std.specs.Prelude.{◌≡◌, ℕ, true, []};
ghost use Rattle.kw_core.specs.Events.{is_call_in_range};
ghost use Rattle.kw_world.specs.Local.{resting};
ghost use Rattle.kw_world.specs.RowEnd.{MayEndRow};
ghost use Rattle.kw_world.specs.Answers.{reply_of};
ghost use Rattle.kw_world.specs.ScanTransitions.{answer_or_stopped};
ghost use Rattle.kw_world.specs.WalkTransitions.{offered};
ghost use Rattle.kw_world.specs.Sane.{IsLocal, HasRoom, CanBegin};
ghost use Rattle.kw_world.specs.Sizes.{product};
ghost use Rattle.kw_world.specs.Step.{transition_of};
ghost use Rattle.kw_table.specs.Passes.{view, Asks, IsPassOf, Makes};
ghost use Rattle.kw_follow.specs.Calling.{Closes};
ghost use Rattle.kw_follow.specs.Following.{Follows, GoesTo, activity_in, held};
ghost use Rattle.kw_follow.specs.Moving.{Begins, Moves, WentOn};
ghost use Rattle.kw_follow.specs.OwnEvents.{SawOnly};
ghost use Rattle.kw_follow.specs.Within.{IsWithinCall};

use crate::along::{clear_epoch, load_own_epoch};
use crate::drawing::clear_version;
use kw_core::step::{operation, resume};
use kw_model::call::{Call, Reply};
use kw_table::{Pass, Shared, make};
use kw_world::activity::Activity;
use kw_world::activity::enter::Enter;
use kw_world::answer::Answer;
use kw_world::event::{Choice, StepDone};
use kw_world::local::Local;

// Makes the operation of the pass's next event with this choice, which is the one that the local
// names. The answer is what the event was told.
#[inline(always)]
fn ask(shared: &Shared, pass: &mut Pass, local: &Local, choice: Choice) -> u64
    requires ranges { IsLocal product local.now }
    requires asks { Asks shared.now pass.old choice (transition_of product (view pass.old).number
        (offered shared.now.opening.rows choice) local.now).operation }
    ensures { Makes shared.now pass.old choice result pass.new }
{
    let offered = choice.offered(shared.rows());
    make(
        shared,
        pass,
        choice,
        operation(pass.number(), local, offered),
    )
}

// Makes the next event of the pass with this choice, and brings the local up to it. It is not the
// last event of a scan at a row.
pub(crate) fn event(shared: &Shared, pass: &mut Pass, local: &mut Local, choice: Choice) -> StepDone
    requires ranges { IsLocal product local.old }
    requires room { HasRoom product local.old }
    requires begins { CanBegin (offered shared.now.opening.rows choice) local.old }
    requires on { MayEndRow local.old → ⊥ }
    requires asks { Asks shared.now pass.old choice (transition_of product (view pass.old).number
        (offered shared.now.opening.rows choice) local.old).operation }
    ensures { Moves shared.now pass.old local.old choice pass.new local.new result }
{
    let told = ask(shared, pass, local, choice);
    let rows = shared.rows();
    match resume(local, rows, choice.offered(rows), told) {
        Ok(done) => done,
        Err(_) => unreachable!(),
    }
}

/// Begins a call: the first event of it. The local is at rest before. Takes no memory.
#[inline(always)]
pub fn begin(shared: &Shared, pass: &mut Pass, local: &mut Local, call: Call)
    requires table { IsPassOf shared.now pass.old }
    requires idle { activity_in pass.old ≡ Activity.Idle }
    requires rested { local.old ≡ resting 0 }
    requires range { is_call_in_range call ≡ true }
    ensures begins { Begins shared.now pass.old pass.new call local.new }
    ensures activity { local.new.activity ≡ Activity.Enter Enter.Announce }
    ensures only { (told : ℕ) × SawOnly pass.old pass.new (activity_in pass.old) told }
{
    load_own_epoch(shared, pass, local, call);
}

/// Makes the next event in the middle of a call, other than one that reads cells or ends a scan.
/// Takes no memory.
pub fn go(shared: &Shared, pass: &mut Pass, local: &mut Local, choice: Choice)
    requires follows { Follows shared.now pass.old local.old }
    requires within { IsWithinCall local.old.activity }
    ensures { WentOn shared.now pass.old local.old choice pass.new local.new }
{
    event(shared, pass, local, choice);
}

/// Ends a scan: it is then about to leave, with its pairs, or with `Stopped` where the choice is to
/// stop. Takes no memory.
pub fn clear(shared: &Shared, pass: &mut Pass, local: &mut Local, choice: Choice)
    requires follows { Follows shared.now pass.old local.old }
    requires over { (answer : Answer) × (local.old.activity ≡ Activity.EndScan answer) }
    ensures went { WentOn shared.now pass.old local.old choice pass.new local.new }
    ensures leaves { (answer : Answer) → activity_in pass.old ≡ Activity.EndScan answer →
        activity_in pass.new ≡ Activity.Leave (answer_or_stopped answer choice) }
    ensures activity { (answer : Answer) → local.old.activity ≡ Activity.EndScan answer →
        local.new.activity ≡ Activity.Leave (answer_or_stopped answer choice) }
{
    let Activity::EndScan(answer) = local.activity else {
        unreachable!()
    };
    clear_version(shared, pass, local, answer, choice);
}

/// Ends the call: its last event. The local is then at rest. The answer is the reply, without the
/// pairs of a scan. Takes no memory.
pub fn end(shared: &Shared, pass: &mut Pass, local: &mut Local) -> Reply
    requires follows { Follows shared.now pass.old local.old }
    requires leaving { (answer : Answer) × (local.old.activity ≡ Activity.Leave answer) }
    ensures goes { GoesTo shared.now pass.old pass.new }
    ensures idle { activity_in pass.new ≡ Activity.Idle }
    ensures rests { local.new ≡ resting 0 }
    ensures closes { (answer : Answer) → activity_in pass.old ≡ Activity.Leave answer →
        Closes pass.old pass.new (reply_of answer (held pass.old)) × (result ≡ reply_of answer []) }
    ensures only { (told : ℕ) × SawOnly pass.old pass.new (activity_in pass.old) told }
{
    let Activity::Leave(answer) = local.activity else {
        unreachable!()
    };
    let done = clear_epoch(shared, pass, local, answer);
    // code counts no calls
    local.number = 0;
    match done {
        StepDone::Ended(reply) => reply,
        StepDone::Moved => unreachable!(),
        StepDone::Skipped => unreachable!(),
    }
}
