//! How a call begins, how a put begins anew, how a scan gets its version and is over, and how a
//! call ends.
ghost use Rattle.std.specs.Prelude.{◌≡◌, ◌↔◌, ◌⊎◌, ◌≤◌, true, [], Some, IfSome};
ghost use Rattle.kw_words.specs.declared.sizes.TheConstants.{SPENT};
ghost use Rattle.kw_world.specs.Answers.{reply_of};
ghost use Rattle.kw_world.specs.Calls.{is_scan};
ghost use Rattle.kw_world.specs.Local.{resting};
ghost use Rattle.kw_core.specs.Events.{is_call_in_range};
ghost use Rattle.kw_core.specs.Stages.{is_put};
ghost use Rattle.kw_table.specs.Passes.{IsPassOf};
ghost use Rattle.kw_follow.specs.Calling.{Closes};
ghost use Rattle.kw_follow.specs.Following.{Follows, GoesTo, activity_in, held};
ghost use Rattle.kw_follow.specs.Moving.{Begins};
ghost use Rattle.kw_follow.specs.Reaching.{Advances, Reaches};
ghost use Rattle.kw_live.specs.Sights.{SawClock};
ghost use Rattle.kw_live.specs.Stages.{HasEntered};

use kw_follow::{begin, clear, end, go, go_along, go_anew, go_draw};
use kw_model::call::{Call, Reply};
use kw_table::{Pass, Shared};
use kw_world::activity::Activity;
use kw_world::activity::draw::Draw;
use kw_world::activity::walk::Walk;
use kw_world::answer::Answer;
use kw_world::event::Choice;
use kw_world::local::Local;

/// Begins a call of an idle pass, and makes its events up to the walk to its row.
///
/// The epoch is announced, and a scan gets its version. A scan of no keys then stands at its end,
/// and one whose first clock was at `SPENT` or above is about to leave with `Spent`; every other
/// call is to begin its walk. A put's value is below `VALUE_END`. The local is at rest before, and
/// then what the seat knows. Takes no memory.
pub fn enter(shared: &Shared, pass: &mut Pass, local: &mut Local, call: Call)
    requires table { IsPassOf shared.now pass.old }
    requires idle { activity_in pass.old ≡ Activity.Idle }
    requires rested { local.old ≡ resting 0 }
    requires range { is_call_in_range call ≡ true }
    ensures begins { Begins shared.now pass.old pass.new call local.new }
    ensures entered { HasEntered call local.new.activity }
    ensures spent { is_scan (Some call) ≡ true → (clock : _) × SawClock pass.old pass.new clock
        × ((local.new.activity ≡ Activity.Leave Answer.Spent) ↔ (SPENT ≤ clock)) }
{
    begin(shared, pass, local, call);
    go_along(shared, pass, local);
    if let Activity::Draw(_) = local.activity {
        draw(shared, pass, local);
    }
}

/// Takes the announced epoch back, and begins the same put or delete anew, after a rebalance: it
/// announces an epoch again, and is to begin its walk.
///
/// It is the same call: what the pass has seen has no new one. Takes no memory.
pub fn enter_anew(shared: &Shared, pass: &mut Pass, local: &mut Local)
    requires follows { Follows shared.now pass.old local.old }
    requires again { local.old.activity ≡ Activity.Retry }
    requires update { is_put local.old.call ≡ true }
    ensures on { Advances shared.now pass.old pass.new local.new }
    ensures starts { local.new.activity ≡ Activity.Walk Walk.Start }
    ensures call { local.new.call ≡ local.old.call }
{
    go_anew(shared, pass, local);
    go_anew(shared, pass, local); // its epoch
    go_along(shared, pass, local);
}

// A scan gets its version.
fn draw(shared: &Shared, pass: &mut Pass, local: &mut Local)
    requires follows { Follows shared.now pass.old local.old }
    requires activity { local.old.activity ≡ Activity.Draw Draw.Clock }
    requires scan { is_scan local.old.call ≡ true }
    ensures on { Advances shared.now pass.old pass.new local.new }
    ensures entered { IfSome local.old.call (λ call. HasEntered call local.new.activity) }
    ensures call { local.new.call ≡ local.old.call }
    ensures unread { local.new.has_read ≡ local.old.has_read }
    ensures spent { (clock : _) × SawClock pass.old pass.new clock
        × ((local.new.activity ≡ Activity.Leave Answer.Spent) ↔ (SPENT ≤ clock)) }
{
    go_draw(shared, pass, local);
    if let Activity::Draw(_) = local.activity {
        go_draw(shared, pass, local);
        go_draw(shared, pass, local);
        go_draw(shared, pass, local);
    }
}

/// Ends a scan that has all its pairs: it is then about to leave with them.
pub fn end_scan(shared: &Shared, pass: &mut Pass, local: &mut Local)
    requires follows { Follows shared.now pass.old local.old }
    requires over { (answer : Answer) × (local.old.activity ≡ Activity.EndScan answer) }
    ensures on { Advances shared.now pass.old pass.new local.new }
    ensures leaves { (answer : Answer) → activity_in pass.old ≡ Activity.EndScan answer →
        activity_in pass.new ≡ Activity.Leave answer }
    ensures activity { (answer : Answer) → local.old.activity ≡ Activity.EndScan answer →
        local.new.activity ≡ Activity.Leave answer }
{
    clear(shared, pass, local, Choice::Go);
}

/// Stops a scan that has read a row: it is then about to leave with `Stopped`.
pub fn stop_scan(shared: &Shared, pass: &mut Pass, local: &mut Local)
    requires follows { Follows shared.now pass.old local.old }
    requires scan { is_scan local.old.call ≡ true }
    requires stage { ((local.old.activity ≡ Activity.Walk Walk.Next) × (local.old.has_read ≡ true))
        ⊎ ((answer : Answer) × (local.old.activity ≡ Activity.EndScan answer)) }
    ensures on { Reaches shared.now pass.old pass.new local.new }
    ensures leaves { activity_in pass.new ≡ Activity.Leave Answer.Stopped }
    ensures activity { local.new.activity ≡ Activity.Leave Answer.Stopped }
{
    if let Activity::EndScan(_) = local.activity {
        clear(shared, pass, local, Choice::Stop);
    } else {
        go(shared, pass, local, Choice::Stop);
    }
}

/// Ends a call that is about to leave: the seat announces no epoch any more, and the pass is idle.
///
/// The answer is the reply that is recorded, without the pairs of a scan. The local is then at
/// rest.
pub fn leave(shared: &Shared, pass: &mut Pass, local: &mut Local) -> Reply
    requires follows { Follows shared.now pass.old local.old }
    requires leaving { (answer : Answer) × (local.old.activity ≡ Activity.Leave answer) }
    ensures goes { GoesTo shared.now pass.old pass.new }
    ensures idle { activity_in pass.new ≡ Activity.Idle }
    ensures rests { local.new ≡ resting 0 }
    ensures closes { (answer : Answer) → activity_in pass.old ≡ Activity.Leave answer →
        Closes pass.old pass.new (reply_of answer (held pass.old)) × (result ≡ reply_of answer []) }
{
    end(shared, pass, local)
}
