//! The events by which a scan gets its version and is over, each by its own step of the table.
//!
//! A scan loads the clock and stores that it waits with that; it draws a version and exchanges its
//! waiting word for one with the version; and at its end it stores that the seat makes no scan.
//! What the local does next says which step it is, as in `putting`.
ghost use Rattle.kw_follow.specs.Following.{Follows};
ghost use Rattle.kw_follow.specs.Moving.{FollowsAt, Moves, WentOn};
ghost use Rattle.kw_follow.specs.Within.{IsDrawing};

use kw_step_put::resume::{end_scan, to};
use kw_step_put::resume_scan::{clock, settle};
use kw_table::{
    Pass, Shared, clear_scan, draw as add_to_clock, load_clock, settle as exchange_waiting,
    store_waiting,
};
use kw_words::layout::Name;
use kw_words::scan::ScanWord;
use kw_world::activity::Activity;
use kw_world::activity::draw::Draw;
use kw_world::answer::Answer;
use kw_world::event::{Choice, StepDone};
use kw_world::local::Local;

// Loads the clock.
#[inline(always)]
fn load_scan_clock(shared: &Shared, pass: &mut Pass, local: &mut Local) -> StepDone
    requires { FollowsAt shared.now pass.old local.old (Activity.Draw Draw.Clock) }
    ensures { Moves shared.now pass.old local.old Choice.Go pass.new local.new result }
{
    let told = load_clock(shared, pass, Name::Clock);
    clock(local, told)
}

// Stores that the scan waits with that clock.
#[inline(always)]
fn wait_with_clock(shared: &Shared, pass: &mut Pass, local: &mut Local) -> StepDone
    requires { FollowsAt shared.now pass.old local.old (Activity.Draw Draw.Wait) }
    ensures { Moves shared.now pass.old local.old Choice.Go pass.new local.new result }
{
    let word = Name::Scan(pass.number());
    let waiting = ScanWord::Waiting(local.waiting).pack();
    store_waiting(shared, pass, word, waiting);
    to(local, Activity::Draw(Draw::Version))
}

// Draws a version.
#[inline(always)]
fn draw_version(shared: &Shared, pass: &mut Pass, local: &mut Local) -> StepDone
    requires { FollowsAt shared.now pass.old local.old (Activity.Draw Draw.Version) }
    ensures { Moves shared.now pass.old local.old Choice.Go pass.new local.new result }
{
    let told = add_to_clock(shared, pass, Name::Clock, 1);
    local.drawn = told;
    to(local, Activity::Draw(Draw::Settle))
}

// Exchanges the waiting word for one with the version.
#[inline(always)]
fn settle_version(shared: &Shared, pass: &mut Pass, local: &mut Local) -> StepDone
    requires { FollowsAt shared.now pass.old local.old (Activity.Draw Draw.Settle) }
    ensures { Moves shared.now pass.old local.old Choice.Go pass.new local.new result }
{
    let word = Name::Scan(pass.number());
    let waiting = ScanWord::Waiting(local.waiting).pack();
    let drawn = ScanWord::Drawn(local.drawn).pack();
    let told = exchange_waiting(shared, pass, word, waiting, drawn);
    settle(local, told)
}

// Stores that the seat makes no scan, at the end of one or where it is stopped.
#[inline(always)]
pub(crate) fn clear_version(
    shared: &Shared,
    pass: &mut Pass,
    local: &mut Local,
    answer: Answer,
    choice: Choice,
) -> StepDone
    requires { FollowsAt shared.now pass.old local.old (Activity.EndScan answer) }
    ensures { Moves shared.now pass.old local.old choice pass.new local.new result }
{
    let word = Name::Scan(pass.number());
    let quiet = ScanWord::Quiet.pack();
    clear_scan(shared, pass, choice, word, quiet);
    end_scan(local, answer, choice)
}

// The next event, by what the local does next.
#[inline(always)]
fn draw_event(shared: &Shared, pass: &mut Pass, local: &mut Local) -> StepDone
    requires follows { Follows shared.now pass.old local.old }
    requires drawing { IsDrawing local.old.activity }
    ensures { Moves shared.now pass.old local.old Choice.Go pass.new local.new result }
{
    match local.activity {
        Activity::Draw(Draw::Clock) => load_scan_clock(shared, pass, local),
        Activity::Draw(Draw::Wait) => wait_with_clock(shared, pass, local),
        Activity::Draw(Draw::Version) => draw_version(shared, pass, local),
        Activity::Draw(Draw::Settle) => settle_version(shared, pass, local),
        _ => unreachable!(),
    }
}

/// Makes the next event of a scan that gets its version. Takes no memory.
#[inline(always)]
pub fn go_draw(shared: &Shared, pass: &mut Pass, local: &mut Local)
    requires follows { Follows shared.now pass.old local.old }
    requires drawing { IsDrawing local.old.activity }
    ensures { WentOn shared.now pass.old local.old Choice.Go pass.new local.new }
{
    draw_event(shared, pass, local);
}
