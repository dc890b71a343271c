//! The events by which a rebalance begins, each by its own step of the table.
//!
//! A rebalance loads the clock, the epoch and the state of the full row; it makes the row a leader,
//! marks the link after it, decides whether the row after it goes along, and freezes the count of
//! the row at hand. What the local does next says which step it is, as in `putting`; `building`
//! asks for it.
ghost use Rattle.std.specs.Prelude.{◌≡◌};
ghost use Rattle.kw_world.specs.Parts.{part_of};
ghost use Rattle.kw_world.specs.Sane.{HasRoom, IsLocal};
ghost use Rattle.kw_world.specs.Sizes.{product};
ghost use Rattle.kw_world.specs.Step.{next_of};
ghost use Rattle.kw_world.specs.Transition.{outcome};
ghost use Rattle.kw_world.specs.declared.part.Part.{Part};
ghost use Rattle.kw_follow.specs.Moving.{FollowsAt, Moves};

use kw_step_rebal::resume::rebalance_resume;
use kw_table::{
    Pass, Shared, decide, engage, freeze_count, load_clock, load_epoch, load_state, mark_link,
};
use kw_words::layout::Name;
use kw_words::sizes::{FROZEN_BIT, MARK_BIT};
use kw_words::state::State;
use kw_world::activity::Activity;
use kw_world::activity::rebalance::Rebalance;
use kw_world::activity::rebalance::engage::Engage;
use kw_world::activity::rebalance::freeze::Freeze;
use kw_world::event::{Choice, StepDone};
use kw_world::local::Local;

// What follows from an event of a rebalance that was made with this choice, by what the seat was
// told.
#[inline(always)]
pub(crate) fn rebalance_on(
    shared: &Shared,
    local: &mut Local,
    choice: Choice,
    told: u64,
) -> StepDone
    requires ranges { IsLocal product local.old }
    requires room { HasRoom product local.old }
    requires part { part_of choice local.old ≡ Part.Rebalance }
    ensures { outcome local.new result ≡ next_of product shared.now.opening.rows choice local.old
        told }
{
    rebalance_resume(local, shared.rows(), choice, told)
}

// Loads the clock, which has to leave room for what is drawn.
#[inline(always)]
pub(crate) fn ask_clock(shared: &Shared, pass: &mut Pass, local: &mut Local) -> StepDone
    requires { FollowsAt shared.now pass.old local.old
        (Activity.Rebalance (Rebalance.Engage Engage.Clock)) }
    ensures { Moves shared.now pass.old local.old Choice.Go pass.new local.new result }
{
    let told = load_clock(shared, pass, Name::Clock);
    rebalance_on(shared, local, Choice::Go, told)
}

// Loads the epoch, which has to leave room too.
#[inline(always)]
pub(crate) fn ask_epoch(shared: &Shared, pass: &mut Pass, local: &mut Local) -> StepDone
    requires { FollowsAt shared.now pass.old local.old
        (Activity.Rebalance (Rebalance.Engage Engage.Epoch)) }
    ensures { Moves shared.now pass.old local.old Choice.Go pass.new local.new result }
{
    let told = load_epoch(shared, pass, Choice::Go, Name::Epoch);
    rebalance_on(shared, local, Choice::Go, told)
}

// Loads the state of the full row.
#[inline(always)]
pub(crate) fn ask_state(shared: &Shared, pass: &mut Pass, local: &mut Local) -> StepDone
    requires { FollowsAt shared.now pass.old local.old
        (Activity.Rebalance (Rebalance.Engage Engage.State)) }
    ensures { Moves shared.now pass.old local.old Choice.Go pass.new local.new result }
{
    let told = load_state(shared, pass, Choice::Go, Name::State(local.row));
    rebalance_on(shared, local, Choice::Go, told)
}

// Exchanges the normal state of the full row for that of a leader of as yet none.
#[inline(always)]
pub(crate) fn lead_row(shared: &Shared, pass: &mut Pass, local: &mut Local) -> StepDone
    requires { FollowsAt shared.now pass.old local.old
        (Activity.Rebalance (Rebalance.Engage Engage.Lead)) }
    ensures { Moves shared.now pass.old local.old Choice.Go pass.new local.new result }
{
    let state = Name::State(local.row);
    let normal = State::Normal.pack();
    let leader = State::Leader(0).pack();
    let told = engage(shared, pass, state, normal, leader);
    rebalance_on(shared, local, Choice::Go, told)
}

// Sets the mark of the link after the full row.
#[inline(always)]
pub(crate) fn mark_row_link(
    shared: &Shared,
    pass: &mut Pass,
    local: &mut Local,
    count: u32,
) -> StepDone
    requires { FollowsAt shared.now pass.old local.old
        (Activity.Rebalance (Rebalance.Engage (Engage.MarkLink count))) }
    ensures { Moves shared.now pass.old local.old Choice.Go pass.new local.new result }
{
    let told = mark_link(shared, pass, Name::Next(local.row), MARK_BIT);
    rebalance_on(shared, local, Choice::Go, told)
}

// Exchanges the state of a leader of as yet none for that of one of so many rows.
#[inline(always)]
pub(crate) fn decide_count(
    shared: &Shared,
    pass: &mut Pass,
    local: &mut Local,
    count: u32,
) -> StepDone
    requires { FollowsAt shared.now pass.old local.old
        (Activity.Rebalance (Rebalance.Engage (Engage.Decide count))) }
    ensures { Moves shared.now pass.old local.old Choice.Go pass.new local.new result }
{
    let state = Name::State(local.row);
    let undecided = State::Leader(0).pack();
    let decided = State::Leader(count).pack();
    let told = decide(shared, pass, state, undecided, decided);
    rebalance_on(shared, local, Choice::Go, told)
}

// Sets the frozen bit of the count of the row at hand.
#[inline(always)]
pub(crate) fn freeze_row_count(shared: &Shared, pass: &mut Pass, local: &mut Local) -> StepDone
    requires { FollowsAt shared.now pass.old local.old
        (Activity.Rebalance (Rebalance.Freeze Freeze.Count)) }
    ensures { Moves shared.now pass.old local.old Choice.Go pass.new local.new result }
{
    let count = Name::Count(local.rebalance.hand);
    let told = freeze_count(shared, pass, count, FROZEN_BIT);
    rebalance_on(shared, local, Choice::Go, told)
}
