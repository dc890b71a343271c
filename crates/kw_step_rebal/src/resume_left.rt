//! What a seat knows after the events by which it goes left, from a follower to its leader.
ghost use Rattle.std.specs.Prelude.{◌≡◌, ℕ};
ghost use Rattle.kw_words.specs.Link.{link_of};
ghost use Rattle.kw_words.specs.Plain.{key_of_word};
ghost use Rattle.kw_world.specs.LeftTransitions.{first_left, leader_named, least_left, left_transition, link_left};
ghost use Rattle.kw_world.specs.Transition.{outcome, row_linked, row_or_first};

use crate::resume::to;
use crate::resume_engage::{again, linked};
use crate::resume_seek::move_left;
use kw_words::plain::unpack_key;
use kw_world::activity::Activity;
use kw_world::activity::rebalance::Rebalance;
use kw_world::activity::rebalance::left::Left;
use kw_world::event::{Choice, StepDone};
use kw_world::local::Local;

// The seat was told the link to the first row, which is no follower.
fn left_head(local: &mut Local, found: u64) -> StepDone
    ensures { outcome local.new result ≡ first_left (row_or_first (row_linked (link_of found)))
        local.old }
{
    let first = linked(found).unwrap_or(0);
    if first == local.row {
        return again(local);
    }
    local.rebalance.before = Some(first);
    local.rebalance.least = 0;
    to(local, Activity::Rebalance(Rebalance::Left(Left::Next)))
}

// The seat was told the least key of the leader that the follower's state named.
fn leader_named(local: &mut Local, found: u64) -> StepDone
    ensures { outcome local.new result ≡ leader_named (key_of_word found) local.old }
{
    local.rebalance.least = unpack_key(found);
    move_left(local)
}

// The seat begins its way left, and was told what its choice asked for.
pub(crate) fn left(local: &mut Local, choice: Choice, found: u64) -> StepDone
    ensures { (rows : ℕ) → outcome local.new result ≡ (left_transition choice local.old).next rows
        found }
{
    match choice {
        Choice::Guess(_) => leader_named(local, found),
        _ => left_head(local, found),
    }
}

// The seat was told the link after the row at which it is.
pub(crate) fn left_link(local: &mut Local, found: u64) -> StepDone
    ensures { outcome local.new result ≡ link_left (row_linked (link_of found)) local.old }
{
    match linked(found) {
        Some(row) if row == local.row => move_left(local),
        Some(row) => {
            local.candidate = row;
            to(local, Activity::Rebalance(Rebalance::Left(Left::NextLeast)))
        }
        None => again(local),
    }
}

// The seat was told the least key of the row to which that link leads.
pub(crate) fn left_least(local: &mut Local, found: u64) -> StepDone
    ensures { outcome local.new result ≡ least_left (key_of_word found) local.old }
{
    let least = unpack_key(found);
    if least >= local.lower {
        return again(local);
    }
    local.rebalance.before = Some(local.candidate);
    local.rebalance.least = least;
    to(local, Activity::Rebalance(Rebalance::Left(Left::Next)))
}
