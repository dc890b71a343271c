//! The events that find the row before the full one, link the new rows in place of its group, make
//! them normal and retire the rows of the group, each by its own step of the table.
//!
//! What the local does next says which step it is, as in `putting`; up to the exchange of the link
//! `building` asks for it, and behind that `go_finish`. The walk to the row before begins at a
//! guessed row mostly, and ends there; a walk from the first row is put together in `going`. After
//! it the same call enters anew: it takes the epoch back that it announced, and loads the epoch, by
//! `go_anew`.
ghost use Rattle.std.specs.Prelude.{◌≡◌, ◌<◌, Some};
ghost use Rattle.kw_words.specs.Link.{link_word};
ghost use Rattle.kw_world.specs.ReplaceTransitions.{first_infant, replaced_link};
ghost use Rattle.kw_world.specs.Transition.{row_or_first};
ghost use Rattle.kw_world.specs.WriteTransitions.{unmarked_link};
ghost use Rattle.kw_follow.specs.Following.{Follows};
ghost use Rattle.kw_follow.specs.Moving.{FollowsAt, Moves, WentOn};
ghost use Rattle.kw_follow.specs.Within.{IsWithinCall};

use crate::engaging::rebalance_on;
use crate::going::event;
use kw_step_rebal::infant::infant;
use kw_table::{
    Pass, Shared, add_epoch, clear_pass, load_epoch, load_least, load_link, load_state, normalise,
    replace, retire,
};
use kw_words::layout::Name;
use kw_words::plain::pack_pass;
use kw_words::state::State;
use kw_world::activity::Activity;
use kw_world::activity::enter::Enter;
use kw_world::activity::rebalance::Rebalance;
use kw_world::activity::rebalance::replace::Replace;
use kw_world::event::{Choice, StepDone};
use kw_world::local::Local;

// The row at which the walk to the row before the full one is, and row 0 where it is at none.
#[inline(always)]
fn row_before(local: &Local) -> u32
    ensures { result ≡ row_or_first local.now.rebalance.before }
{
    local.rebalance.before.unwrap_or(0)
}

// The link that leads to the full row: that after the row before it, or the one to the first row.
#[inline(always)]
fn link_before(local: &Local) -> Name
    ensures { result ≡ replaced_link local.now.rebalance.before }
{
    match local.rebalance.before {
        Some(row) => Name::Next(row),
        None => Name::Head,
    }
}

// The first of the new rows, and row 0 where there is none.
#[inline(always)]
fn first_new(local: &Local) -> u32
    ensures { result ≡ first_infant local.now }
{
    match local.rebalance.taken.as_slice().first() {
        Some(row) => *row,
        None => 0,
    }
}

// The word for an unmarked link to this row, whatever number the row has.
#[inline(always)]
fn link_to(row: u32) -> u64
    ensures { result ≡ link_word (unmarked_link (Some row)) }
{
    row as u64 + 1
}

// Loads the state of a row of the table, at which the walk is to begin.
#[inline(always)]
pub(crate) fn load_state_before(
    shared: &Shared,
    pass: &mut Pass,
    local: &mut Local,
    row: u32,
) -> StepDone
    requires at { FollowsAt shared.now pass.old local.old
        (Activity.Rebalance (Rebalance.Replace Replace.Start)) }
    requires in_range { row < shared.now.opening.rows }
    ensures { Moves shared.now pass.old local.old (Choice.Guess row) pass.new local.new result }
{
    let choice = Choice::Guess(row);
    let told = load_state(shared, pass, choice, Name::State(row));
    rebalance_on(shared, local, choice, told)
}

// Loads the least key of that row.
#[inline(always)]
pub(crate) fn load_least_before(shared: &Shared, pass: &mut Pass, local: &mut Local) -> StepDone
    requires { FollowsAt shared.now pass.old local.old
        (Activity.Rebalance (Rebalance.Replace Replace.GuessedLeast)) }
    ensures { Moves shared.now pass.old local.old Choice.Go pass.new local.new result }
{
    let word = Name::Least(row_before(local));
    let told = load_least(shared, pass, word);
    rebalance_on(shared, local, Choice::Go, told)
}

// Loads the link after the row at which the walk is.
#[inline(always)]
pub(crate) fn load_link_before(shared: &Shared, pass: &mut Pass, local: &mut Local) -> StepDone
    requires { FollowsAt shared.now pass.old local.old
        (Activity.Rebalance (Rebalance.Replace Replace.Next)) }
    ensures { Moves shared.now pass.old local.old Choice.Go pass.new local.new result }
{
    let word = Name::Next(row_before(local));
    let told = load_link(shared, pass, word);
    rebalance_on(shared, local, Choice::Go, told)
}

// Exchanges the link to the full row for one to the first of the new rows.
#[inline(always)]
pub(crate) fn link_new_rows(shared: &Shared, pass: &mut Pass, local: &mut Local) -> StepDone
    requires { FollowsAt shared.now pass.old local.old
        (Activity.Rebalance (Rebalance.Replace Replace.Exchange)) }
    ensures { Moves shared.now pass.old local.old Choice.Go pass.new local.new result }
{
    let link = link_before(local);
    let full = link_to(local.row);
    let new = link_to(first_new(local));
    let told = replace(shared, pass, link, full, new);
    rebalance_on(shared, local, Choice::Go, told)
}

// Exchanges the state of the new row at hand, an infant of this seat, for the normal one.
#[inline(always)]
fn make_normal(shared: &Shared, pass: &mut Pass, local: &mut Local) -> StepDone
    requires { FollowsAt shared.now pass.old local.old
        (Activity.Rebalance (Rebalance.Replace Replace.Normalise)) }
    ensures { Moves shared.now pass.old local.old Choice.Go pass.new local.new result }
{
    let state = Name::State(infant(local));
    let own = State::Infant(pass.number()).pack();
    let normal = State::Normal.pack();
    let told = normalise(shared, pass, state, own, normal);
    rebalance_on(shared, local, Choice::Go, told)
}

// Adds one to the epoch.
#[inline(always)]
fn draw_number(shared: &Shared, pass: &mut Pass, local: &mut Local) -> StepDone
    requires { FollowsAt shared.now pass.old local.old
        (Activity.Rebalance (Rebalance.Replace Replace.Number)) }
    ensures { Moves shared.now pass.old local.old Choice.Go pass.new local.new result }
{
    let told = add_epoch(shared, pass, Name::Epoch, 1);
    rebalance_on(shared, local, Choice::Go, told)
}

// Stores that the row at hand is retired with that number.
#[inline(always)]
fn retire_row(shared: &Shared, pass: &mut Pass, local: &mut Local) -> StepDone
    requires { FollowsAt shared.now pass.old local.old
        (Activity.Rebalance (Rebalance.Replace Replace.Retire)) }
    ensures { Moves shared.now pass.old local.old Choice.Go pass.new local.new result }
{
    let state = Name::State(local.rebalance.hand);
    let retired = State::Retired(local.rebalance.number).pack();
    let told = retire(shared, pass, state, retired);
    rebalance_on(shared, local, Choice::Go, told)
}

// The next event of a rebalance whose new rows are linked, by what the local does next.
#[inline(always)]
fn finish_event(shared: &Shared, pass: &mut Pass, local: &mut Local) -> StepDone
    requires follows { Follows shared.now pass.old local.old }
    requires within { IsWithinCall local.old.activity }
    ensures { Moves shared.now pass.old local.old Choice.Go pass.new local.new result }
{
    match local.activity {
        Activity::Rebalance(Rebalance::Replace(Replace::Normalise)) => make_normal(
            shared, pass, local,
        ),
        Activity::Rebalance(Rebalance::Replace(Replace::Number)) => draw_number(
            shared, pass, local,
        ),
        Activity::Rebalance(Rebalance::Replace(Replace::Retire)) => retire_row(shared, pass, local),
        _ => event(shared, pass, local, Choice::Go),
    }
}

/// Makes the next event of a rebalance whose new rows are linked, as `go` does with the choice
/// `Go`. Takes no memory.
#[inline(always)]
pub fn go_finish(shared: &Shared, pass: &mut Pass, local: &mut Local)
    requires follows { Follows shared.now pass.old local.old }
    requires within { IsWithinCall local.old.activity }
    ensures { WentOn shared.now pass.old local.old Choice.Go pass.new local.new }
{
    finish_event(shared, pass, local);
}

// Stores that the seat announces no epoch, where it is to enter anew.
#[inline(always)]
fn take_epoch_back(shared: &Shared, pass: &mut Pass, local: &mut Local) -> StepDone
    requires { FollowsAt shared.now pass.old local.old Activity.Retry }
    ensures { Moves shared.now pass.old local.old Choice.Go pass.new local.new result }
{
    let word = Name::Pass(pass.number());
    let none = pack_pass(None);
    let told = clear_pass(shared, pass, word, none);
    rebalance_on(shared, local, Choice::Go, told)
}

// Loads the epoch again, to announce it.
#[inline(always)]
fn load_epoch_anew(shared: &Shared, pass: &mut Pass, local: &mut Local) -> StepDone
    requires { FollowsAt shared.now pass.old local.old (Activity.Enter Enter.LoadEpoch) }
    ensures { Moves shared.now pass.old local.old Choice.Go pass.new local.new result }
{
    let told = load_epoch(shared, pass, Choice::Go, Name::Epoch);
    rebalance_on(shared, local, Choice::Go, told)
}

// The next event of a call that is to enter anew, by what the local does next.
#[inline(always)]
fn anew_event(shared: &Shared, pass: &mut Pass, local: &mut Local) -> StepDone
    requires follows { Follows shared.now pass.old local.old }
    requires within { IsWithinCall local.old.activity }
    ensures { Moves shared.now pass.old local.old Choice.Go pass.new local.new result }
{
    match local.activity {
        Activity::Retry => take_epoch_back(shared, pass, local),
        Activity::Enter(Enter::LoadEpoch) => load_epoch_anew(shared, pass, local),
        _ => event(shared, pass, local, Choice::Go),
    }
}

/// Makes the next event of a call that is to enter anew, as `go` does with the choice `Go`. Takes
/// no memory.
#[inline(always)]
pub fn go_anew(shared: &Shared, pass: &mut Pass, local: &mut Local)
    requires follows { Follows shared.now pass.old local.old }
    requires within { IsWithinCall local.old.activity }
    ensures { WentOn shared.now pass.old local.old Choice.Go pass.new local.new }
{
    anew_event(shared, pass, local);
}
