//! What a seat knows after the events by which the row after a full one is taken along.
ghost use Rattle.std.specs.Prelude.{◌≡◌};
ghost use Rattle.kw_words.specs.Count.{count_of};
ghost use Rattle.kw_words.specs.Link.{link_of};
ghost use Rattle.kw_words.specs.State.{state_of};
ghost use Rattle.kw_world.specs.ClaimTransitions.{claimed, goes_along, next_counted, next_marked, to_mark_next};
ghost use Rattle.kw_world.specs.Transition.{outcome, row_linked};

use crate::resume::to;
use crate::resume_engage::{again, linked, to_group};
use kw_words::count::Count;
use kw_words::sizes::{MOST_GROUP, TAKE_ALONG};
use kw_words::state::State;
use kw_world::activity::Activity;
use kw_world::activity::rebalance::Rebalance;
use kw_world::activity::rebalance::claim::Claim;
use kw_world::activity::rebalance::engage::Engage;
use kw_world::event::StepDone;
use kw_world::local::Local;

// Whether a row with this count goes along: it is not frozen, and has given few cells. A put that
// tidies takes it along however many it has given.
fn goes_along(local: &Local, count: Option<Count>) -> bool
    ensures { result ≡ goes_along count local.now }
{
    match count {
        Some(count) => !count.frozen && (local.tidies || count.given <= TAKE_ALONG),
        None => false,
    }
}

// The seat was told the count of the row after the full one.
pub(crate) fn next_counted(local: &mut Local, found: u64) -> StepDone
    ensures { outcome local.new result ≡ next_counted (count_of found) local.old }
{
    let rows = if goes_along(local, Count::unpack(found)) {
        MOST_GROUP
    } else {
        1
    };
    to(
        local,
        Activity::Rebalance(Rebalance::Engage(Engage::Decide(rows))),
    )
}

// The row goes along, and its link is marked next.
fn to_mark_next(local: &mut Local) -> StepDone
    ensures { outcome local.new result ≡ to_mark_next local.old }
{
    to(
        local,
        Activity::Rebalance(Rebalance::Claim(Claim::MarkLink)),
    )
}

// The seat has tried to make the row after the full one its follower, and was told the state found.
pub(crate) fn claimed(local: &mut Local, found: u64) -> StepDone
    ensures { outcome local.new result ≡ claimed (state_of found) local.old }
{
    match State::unpack(found) {
        Some(State::Infant(seat)) => to(
            local,
            Activity::Rebalance(Rebalance::Claim(Claim::Normal(seat))),
        ),
        Some(State::Normal) => to_mark_next(local),
        Some(State::Leader(_)) => to_group(local),
        Some(State::Follower(leader)) if leader == local.row => to_mark_next(local),
        _ => again(local),
    }
}

// The seat has marked the link of that row, and was told the link found.
pub(crate) fn next_marked(local: &mut Local, found: u64) -> StepDone
    ensures { outcome local.new result ≡ next_marked (row_linked (link_of found)) local.old }
{
    local.rebalance.second = local.rebalance.after;
    local.rebalance.after = linked(found);
    to_group(local)
}
