//! What a seat knows after the events by which a rebalance begins, and how it leaves one.
ghost use Rattle.std.specs.Prelude.{◌≡◌, ◌==◌};
ghost use Rattle.kw_words.specs.Link.{link_of};
ghost use Rattle.kw_words.specs.State.{state_of, state_word};
ghost use Rattle.kw_words.specs.declared.state.State.{State};
ghost use Rattle.kw_world.specs.EngageTransitions.{to_rebalance, retrying, refusal, again, refuse, balance_clock, balance_epoch, state_seen, engaged, to_group, claiming, counted, undecided, link_marked, decided};
ghost use Rattle.kw_world.specs.Transition.{outcome, row_linked};

use crate::resume::to;
use kw_words::link::Link;
use kw_words::sizes::{MOST_GROUP, SPENT};
use kw_words::state::State;
use kw_world::activity::Activity;
use kw_world::activity::rebalance::Rebalance;
use kw_world::activity::rebalance::claim::Claim;
use kw_world::activity::rebalance::engage::Engage;
use kw_world::activity::rebalance::freeze::Freeze;
use kw_world::activity::rebalance::left::Left;
use kw_world::answer::Answer;
use kw_world::event::StepDone;
use kw_world::group::to_first_row;
use kw_world::local::Local;

// The rebalance of the seat's row begins, and nothing is known of an earlier one.
pub(crate) fn to_rebalance(local: &mut Local) -> StepDone
    ensures { outcome local.new result ≡ to_rebalance local.old }
{
    local.rebalance.forget();
    to(local, Activity::Rebalance(Rebalance::Engage(Engage::Clock)))
}

// Where a rebalance that is over leads: the put tries again; one that was done before leaves.
fn retrying(local: &Local) -> Activity
    ensures { result ≡ retrying local.now }
{
    if local.tidies {
        Activity::Leave(Answer::Done)
    } else {
        Activity::Retry
    }
}

// What a put answers that can't rebalance its row; one that was done before is refused nothing.
fn refusal(local: &Local, answer: Answer) -> Answer
    ensures { result ≡ refusal answer local.now }
{
    if local.tidies { Answer::Done } else { answer }
}

// The rebalance is over, and every row is forgotten. A put that tries again takes its announced
// epoch back first.
pub(crate) fn again(local: &mut Local) -> StepDone
    ensures { outcome local.new result ≡ again local.old }
{
    let next = retrying(local);
    local.rebalance.forget();
    local.forget_rows();
    to(local, next)
}

// The rebalance can't be made: the put is refused with this answer, unless it was done before.
pub(crate) fn refuse(local: &mut Local, answer: Answer) -> StepDone
    ensures { outcome local.new result ≡ refuse answer local.old }
{
    let told = refusal(local, answer);
    local.rebalance.forget();
    local.forget_rows();
    to(local, Activity::Leave(told))
}

// The seat was told the clock.
pub(crate) fn clock(local: &mut Local, clock: u64) -> StepDone
    ensures { outcome local.new result ≡ balance_clock clock local.old }
{
    if clock >= SPENT {
        refuse(local, Answer::Spent)
    } else {
        to(local, Activity::Rebalance(Rebalance::Engage(Engage::Epoch)))
    }
}

// The seat was told the epoch.
pub(crate) fn epoch(local: &mut Local, epoch: u64) -> StepDone
    ensures { outcome local.new result ≡ balance_epoch epoch local.old }
{
    if epoch >= SPENT {
        refuse(local, Answer::Spent)
    } else {
        to(local, Activity::Rebalance(Rebalance::Engage(Engage::State)))
    }
}

// The seat was told the state of the full row.
pub(crate) fn state(local: &mut Local, found: u64) -> StepDone
    ensures { outcome local.new result ≡ state_seen (state_of found) local.old }
{
    match State::unpack(found) {
        Some(State::Infant(seat)) => to(
            local,
            Activity::Rebalance(Rebalance::Engage(Engage::Normal(seat))),
        ),
        Some(State::Normal) => to(local, Activity::Rebalance(Rebalance::Engage(Engage::Lead))),
        Some(State::Leader(count)) => to(
            local,
            Activity::Rebalance(Rebalance::Engage(Engage::MarkLink(count))),
        ),
        Some(State::Follower(leader)) => {
            local.rebalance.before = Some(leader);
            to(local, Activity::Rebalance(Rebalance::Left(Left::Start)))
        }
        _ => again(local),
    }
}

// The seat has tried to engage the full row, and was told the state found.
pub(crate) fn engage(local: &mut Local, found: u64) -> StepDone
    ensures { outcome local.new result ≡ engaged (found == state_word State.Normal) local.old }
{
    if found == State::Normal.pack() {
        to(
            local,
            Activity::Rebalance(Rebalance::Engage(Engage::MarkLink(0))),
        )
    } else {
        to(local, Activity::Rebalance(Rebalance::Engage(Engage::State)))
    }
}

// The rows of the group are known: they are frozen, the first one first, and no cell is remembered.
pub(crate) fn to_group(local: &mut Local) -> StepDone
    ensures { outcome local.new result ≡ to_group local.old }
{
    local.rebalance.marks.clear();
    to_first_row(local);
    to(local, Activity::Rebalance(Rebalance::Freeze(Freeze::Count)))
}

// It is decided how many rows the group has.
fn counted(local: &mut Local, count: u32) -> StepDone
    ensures { outcome local.new result ≡ counted count local.old }
{
    if count == MOST_GROUP && local.rebalance.after.is_some() {
        to(
            local,
            Activity::Rebalance(Rebalance::Claim(Claim::Exchange)),
        )
    } else {
        to_group(local)
    }
}

// It is not decided: a full row that is the last one goes alone, and else the row after it is
// asked.
fn undecided(local: &mut Local) -> StepDone
    ensures { outcome local.new result ≡ undecided local.old.rebalance.after local.old }
{
    if local.rebalance.after.is_some() {
        to(local, Activity::Rebalance(Rebalance::Claim(Claim::Count)))
    } else {
        to(
            local,
            Activity::Rebalance(Rebalance::Engage(Engage::Decide(1))),
        )
    }
}

// The seat has marked the link of the full row, which leads so many rows, and was told the link
// found.
pub(crate) fn link_marked(local: &mut Local, count: u32, found: u64) -> StepDone
    ensures { outcome local.new result ≡ link_marked count (row_linked (link_of found)) local.old }
{
    local.rebalance.after = linked(found);
    if count == 0 {
        undecided(local)
    } else {
        counted(local, count)
    }
}

// The seat has tried to decide that so many rows are replaced, and was told the state found.
pub(crate) fn decide(local: &mut Local, count: u32, found: u64) -> StepDone
    ensures { outcome local.new result ≡ decided count (state_of found) local.old }
{
    match State::unpack(found) {
        Some(State::Leader(0)) => counted(local, count),
        Some(State::Leader(decided)) => counted(local, decided),
        _ => again(local),
    }
}

// The row that a link leads to.
pub(crate) fn linked(found: u64) -> Option<u32>
    ensures { result ≡ row_linked (link_of found) }
{
    match Link::unpack(found) {
        Some(link) => link.row,
        None => None,
    }
}
