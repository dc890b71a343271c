//! The events that every call makes: as it begins, on its way to its row, at the entries there, and
//! as it ends; each by its own step of the table.
//!
//! A call loads the epoch and announces it, loads the link from the head, or the state and the
//! least key of a guessed row, and the link after each row that it goes by, and announces no epoch
//! any more at its end; a reader looks at each entry of its row. What the local does next says
//! which step it is, as in `putting`; every other event is put together in `going`.
ghost use Rattle.std.specs.Prelude.{◌≡◌, ◌<◌, true, false, length};
ghost use Rattle.kw_words.specs.Link.{link_of};
ghost use Rattle.kw_words.specs.Pend.{pend_of};
ghost use Rattle.kw_words.specs.Plain.{built_of_word, key_of_word};
ghost use Rattle.kw_words.specs.declared.sizes.TheConstants.{SEATS};
ghost use Rattle.kw_core.specs.Events.{is_call_in_range};
ghost use Rattle.kw_world.specs.Local.{resting};
ghost use Rattle.kw_world.specs.ReadTransitions.{look_seen};
ghost use Rattle.kw_world.specs.Sizes.{product};
ghost use Rattle.kw_world.specs.Transition.{outcome, row_linked};
ghost use Rattle.kw_world.specs.WalkTransitions.{link_reached, walk_least};
ghost use Rattle.kw_table.specs.Passes.{IsPassOf, Makes};
ghost use Rattle.kw_follow.specs.Following.{Follows, activity_in};
ghost use Rattle.kw_follow.specs.Moving.{FollowsAt, Moves, WentOn};
ghost use Rattle.kw_follow.specs.Within.{IsWithinCall, looking, walking};

use crate::going::{event, go};
use kw_model::call::Call;
use kw_step_put::resume::end_call;
use kw_step_put::resume_entries::look;
use kw_step_put::resume_scan::{begin, enter};
use kw_step_rows::resume::{first, guess, guessed_least, link, walk_least};
use kw_table::{
    Pass, Shared, clear_pass, load_epoch, load_head, load_least, load_link, load_pend, load_state,
    store_pass,
};
use kw_words::layout::Name;
use kw_words::plain::pack_pass;
use kw_world::activity::Activity;
use kw_world::activity::enter::Enter;
use kw_world::activity::look::Look;
use kw_world::activity::walk::Walk;
use kw_world::answer::Answer;
use kw_world::event::{Choice, StepDone};
use kw_world::local::Local;

// Loads the epoch, by which a call begins.
#[inline(always)]
pub(crate) fn load_own_epoch(
    shared: &Shared,
    pass: &mut Pass,
    local: &mut Local,
    call: Call,
) -> StepDone
    requires table { IsPassOf shared.now pass.old }
    requires idle { activity_in pass.old ≡ Activity.Idle }
    requires rested { local.old ≡ resting 0 }
    requires range { is_call_in_range call ≡ true }
    ensures { Moves shared.now pass.old local.old (Choice.Begin call) pass.new local.new result }
{
    let choice = Choice::Begin(call);
    let told = load_epoch(shared, pass, choice, Name::Epoch);
    begin(local, choice, told)
}

// Stores that the seat announces no epoch any more, by which a call ends.
#[inline(always)]
pub(crate) fn clear_epoch(
    shared: &Shared,
    pass: &mut Pass,
    local: &mut Local,
    answer: Answer,
) -> StepDone
    requires { FollowsAt shared.now pass.old local.old (Activity.Leave answer) }
    ensures { Moves shared.now pass.old local.old Choice.Go pass.new local.new result }
{
    let word = Name::Pass(pass.number());
    let none = pack_pass(None);
    clear_pass(shared, pass, word, none);
    end_call(local, answer)
}

// Stores the epoch that the seat announces.
#[inline(always)]
fn announce_epoch(shared: &Shared, pass: &mut Pass, local: &mut Local) -> StepDone
    requires { FollowsAt shared.now pass.old local.old (Activity.Enter Enter.Announce) }
    ensures { Moves shared.now pass.old local.old Choice.Go pass.new local.new result }
{
    let word = Name::Pass(pass.number());
    let epoch = pack_pass(Some(local.epoch));
    store_pass(shared, pass, word, epoch);
    enter(local)
}

// Loads the link to the first row.
#[inline(always)]
fn load_first_row(shared: &Shared, pass: &mut Pass, local: &mut Local) -> StepDone
    requires { FollowsAt shared.now pass.old local.old (Activity.Walk Walk.Start) }
    ensures { Moves shared.now pass.old local.old Choice.Go pass.new local.new result }
{
    let told = load_head(shared, pass, Name::Head);
    first(local, told)
}

// Loads the state of a row of the table, with which a walk begins that is to begin there.
#[inline(always)]
fn load_guessed_state(shared: &Shared, pass: &mut Pass, local: &mut Local, row: u32) -> StepDone
    requires at { FollowsAt shared.now pass.old local.old (Activity.Walk Walk.Start) }
    requires in_range { row < shared.now.opening.rows }
    ensures { Moves shared.now pass.old local.old (Choice.Guess row) pass.new local.new result }
{
    let told = load_state(shared, pass, Choice::Guess(row), Name::State(row));
    guess(local, row, told)
}

// Loads the least key of that row.
#[inline(always)]
fn load_guessed_least(shared: &Shared, pass: &mut Pass, local: &mut Local) -> StepDone
    requires { FollowsAt shared.now pass.old local.old (Activity.Walk Walk.GuessedLeast) }
    ensures { Moves shared.now pass.old local.old Choice.Go pass.new local.new result }
{
    let word = Name::Least(local.row);
    let told = load_least(shared, pass, word);
    guessed_least(local, told)
}

/// Loads the link after this row, for a call that walks along the rows and stands at it. The answer
/// is what the event was told, and `see_row_link` says what follows. Takes no memory.
#[inline(always)]
pub fn load_row_link(shared: &Shared, pass: &mut Pass, row: u32) -> u64
    requires { (l : Local) × Follows shared.now pass.old (walking (Activity.Walk Walk.Next) l) × (l.row ≡ row) }
    ensures { Makes shared.now pass.old Choice.Go result pass.new }
{
    load_link(shared, pass, Name::Next(row))
}

/// The call was told the link after its row. Takes no memory.
#[inline(always)]
pub fn see_row_link(local: &mut Local, found: u64) -> StepDone
    ensures { outcome local.new result ≡ link_reached (row_linked (link_of found)) local.old }
{
    link(local, found)
}

/// Loads the least key of the row to which that link led. The answer is what the event was told,
/// and `see_row_least` says what follows. Takes no memory.
#[inline(always)]
pub fn load_row_least(shared: &Shared, pass: &mut Pass, row: u32) -> u64
    requires { (l : Local) × Follows shared.now pass.old (walking (Activity.Walk Walk.NextLeast) l)
        × (l.candidate ≡ row) }
    ensures { Makes shared.now pass.old Choice.Go result pass.new }
{
    load_least(shared, pass, Name::Least(row))
}

/// The call was told the least key of that row. Takes no memory.
#[inline(always)]
pub fn see_row_least(local: &mut Local, found: u64) -> StepDone
    ensures { outcome local.new result ≡ walk_least (key_of_word found) (built_of_word found) local.old }
{
    walk_least(local, found)
}

// Goes on by the link after the row.
#[inline(always)]
fn load_next_row(shared: &Shared, pass: &mut Pass, local: &mut Local) -> StepDone
    requires { FollowsAt shared.now pass.old local.old (Activity.Walk Walk.Next) }
    ensures { Moves shared.now pass.old local.old Choice.Go pass.new local.new result }
{
    let told = load_row_link(shared, pass, local.row);
    see_row_link(local, told)
}

// Goes on by the least key of the row after it.
#[inline(always)]
fn load_least_key(shared: &Shared, pass: &mut Pass, local: &mut Local) -> StepDone
    requires { FollowsAt shared.now pass.old local.old (Activity.Walk Walk.NextLeast) }
    ensures { Moves shared.now pass.old local.old Choice.Go pass.new local.new result }
{
    let told = load_row_least(shared, pass, local.candidate);
    see_row_least(local, told)
}

/// Loads the entry of this seat in the reader's row, for a reader that looks at it next. The answer
/// is what the event was told, and `see_entry` says what follows. So code that looks at many
/// entries at which nothing is announced leaves its local as it is meanwhile. Takes no memory.
#[inline(always)]
pub fn load_entry(shared: &Shared, pass: &mut Pass, row: u32, entry: u32) -> u64
    requires { (l : Local) × Follows shared.now pass.old (looking entry l) × (l.row ≡ row) }
    ensures { Makes shared.now pass.old Choice.Go result pass.new }
{
    load_pend(shared, pass, Name::Pend(row, entry))
}

/// The reader was told the entry of this seat. Takes no memory.
#[inline(always)]
pub fn see_entry(local: &mut Local, entry: u32, found: u64) -> StepDone
    requires entry { entry < SEATS }
    requires room { length local.old.remembered < SEATS }
    ensures { outcome local.new result ≡ look_seen product entry (pend_of found) local.old }
{
    look(local, entry, found)
}

// Looks at the entry of this seat.
#[inline(always)]
fn look_at_entry(shared: &Shared, pass: &mut Pass, local: &mut Local, entry: u32) -> StepDone
    requires { FollowsAt shared.now pass.old local.old (Activity.Look (Look.Entry entry)) }
    ensures { Moves shared.now pass.old local.old Choice.Go pass.new local.new result }
{
    let told = load_entry(shared, pass, local.row, entry);
    see_entry(local, entry, told)
}

// The next event, by what the local does next.
#[inline(always)]
fn event_along(shared: &Shared, pass: &mut Pass, local: &mut Local) -> StepDone
    requires follows { Follows shared.now pass.old local.old }
    requires within { IsWithinCall local.old.activity }
    ensures { Moves shared.now pass.old local.old Choice.Go pass.new local.new result }
{
    match local.activity {
        Activity::Enter(Enter::Announce) => announce_epoch(shared, pass, local),
        Activity::Walk(Walk::Start) => load_first_row(shared, pass, local),
        Activity::Walk(Walk::GuessedLeast) => load_guessed_least(shared, pass, local),
        Activity::Walk(Walk::Next) => load_next_row(shared, pass, local),
        Activity::Walk(Walk::NextLeast) => load_least_key(shared, pass, local),
        Activity::Look(Look::Entry(entry)) => look_at_entry(shared, pass, local, entry),
        _ => event(shared, pass, local, Choice::Go),
    }
}

/// Makes the next event in the middle of a call, as `go` does with the choice `Go`. The
/// announcement of the epoch, the walk along the rows and the looks at entries are made by steps of
/// their own. Takes no memory.
#[inline(always)]
pub fn go_along(shared: &Shared, pass: &mut Pass, local: &mut Local)
    requires follows { Follows shared.now pass.old local.old }
    requires within { IsWithinCall local.old.activity }
    ensures { WentOn shared.now pass.old local.old Choice.Go pass.new local.new }
{
    event_along(shared, pass, local);
}

/// Makes the first event of a walk that is to begin at this row, as `go` does with the choice
/// `Guess(row)`. Takes no memory.
#[inline(always)]
pub fn go_guess(shared: &Shared, pass: &mut Pass, local: &mut Local, row: u32)
    requires { FollowsAt shared.now pass.old local.old (Activity.Walk Walk.Start) }
    ensures { WentOn shared.now pass.old local.old (Choice.Guess row) pass.new local.new }
{
    if row >= shared.rows() {
        return go(shared, pass, local, Choice::Guess(row));
    }
    load_guessed_state(shared, pass, local, row);
}

/// Loads the least key of a guessed row that is in use, as `go_along` does where the call tries a
/// guessed row. Takes no memory.
#[inline(always)]
pub fn go_guessed_least(shared: &Shared, pass: &mut Pass, local: &mut Local)
    requires { FollowsAt shared.now pass.old local.old (Activity.Walk Walk.GuessedLeast) }
    ensures { WentOn shared.now pass.old local.old Choice.Go pass.new local.new }
{
    load_guessed_least(shared, pass, local);
}
