//! What a seat knows after the events that find the row before the full one, and link the new rows
//! in place of the group.
ghost use Rattle.std.specs.Prelude.{◌≡◌, ◌≤◌, Some, length, ℕ};
ghost use Rattle.kw_words.specs.Link.{link_of};
ghost use Rattle.kw_words.specs.Plain.{key_of_word};
ghost use Rattle.kw_words.specs.State.{state_of};
ghost use Rattle.kw_world.specs.ReplaceTransitions.{before_transition, first_before, guess_before, guess_least, least_before, link_before, normalised, replaced, retired, row_before};
ghost use Rattle.kw_world.specs.Transition.{outcome, row_linked, row_or_first};

use crate::infant::next_at;
use crate::resume::to;
use crate::resume_engage::{again, linked};
use crate::resume_seek::{give_back, has_more};
use kw_words::link::Link;
use kw_words::plain::unpack_key;
use kw_words::state::State;
use kw_world::activity::Activity;
use kw_world::activity::rebalance::Rebalance;
use kw_world::activity::rebalance::replace::Replace;
use kw_world::event::{Choice, StepDone};
use kw_world::group::{to_first_row, to_last_row};
use kw_world::local::Local;
use kw_world::rebalance::Afterwards;

// The seat was told the link to the first row. The full row may be that one, and no row stands
// before it then.
pub(crate) fn before_head(local: &mut Local, found: u64) -> StepDone
    ensures { outcome local.new result ≡ first_before (row_or_first (row_linked (link_of found)))
        local.old }
{
    let first = linked(found).unwrap_or(0);
    local.rebalance.least = 0;
    if first == local.row {
        local.rebalance.before = None;
        to(
            local,
            Activity::Rebalance(Rebalance::Replace(Replace::Exchange)),
        )
    } else {
        local.rebalance.before = Some(first);
        to(
            local,
            Activity::Rebalance(Rebalance::Replace(Replace::Next)),
        )
    }
}

// The seat was told the state of the guessed row.
fn guess(local: &mut Local, row: u32, found: u64) -> StepDone
    ensures { outcome local.new result ≡ guess_before row (state_of found) local.old }
{
    match State::unpack(found) {
        Some(State::Normal) => {
            local.rebalance.before = Some(row);
            to(
                local,
                Activity::Rebalance(Rebalance::Replace(Replace::GuessedLeast)),
            )
        }
        _ => to(
            local,
            Activity::Rebalance(Rebalance::Replace(Replace::First)),
        ),
    }
}

// The seat begins the walk to the row before the full one, and was told what its choice asked for.
pub(crate) fn before(local: &mut Local, choice: Choice, found: u64) -> StepDone
    ensures { (rows : ℕ) → outcome local.new result ≡ (before_transition choice local.old).next rows
        found }
{
    match choice {
        Choice::Guess(row) => guess(local, row, found),
        _ => before_head(local, found),
    }
}

// The seat was told the least key of the guessed row, which serves if that is below that of the
// full row.
pub(crate) fn guess_least(local: &mut Local, found: u64) -> StepDone
    ensures { outcome local.new result ≡ guess_least (key_of_word found) local.old }
{
    let least = unpack_key(found);
    if least < local.lower {
        local.rebalance.least = least;
        to(
            local,
            Activity::Rebalance(Rebalance::Replace(Replace::Next)),
        )
    } else {
        local.rebalance.before = None;
        to(
            local,
            Activity::Rebalance(Rebalance::Replace(Replace::First)),
        )
    }
}

// The seat was told the link after the row at which it is.
pub(crate) fn before_link(local: &mut Local, found: u64) -> StepDone
    ensures { outcome local.new result ≡ link_before (link_of found) local.old }
{
    match Link::unpack(found) {
        Some(
            Link {
                row: Some(row),
                marked,
            },
        ) => row_before(local, row, marked),
        _ => give_back(local, Afterwards::TryAgain),
    }
}

// That link leads to this row, and is marked or not.
fn row_before(local: &mut Local, row: u32, marked: bool) -> StepDone
    ensures { outcome local.new result ≡ row_before (Some row) marked local.old }
{
    if row != local.row {
        local.candidate = row;
        to(
            local,
            Activity::Rebalance(Rebalance::Replace(Replace::NextLeast)),
        )
    } else if marked {
        give_back(local, Afterwards::MoveLeft)
    } else {
        to(
            local,
            Activity::Rebalance(Rebalance::Replace(Replace::Exchange)),
        )
    }
}

// The seat was told the least key of that row.
pub(crate) fn before_least(local: &mut Local, found: u64) -> StepDone
    ensures { outcome local.new result ≡ least_before (key_of_word found) local.old }
{
    let least = unpack_key(found);
    if least >= local.lower {
        return give_back(local, Afterwards::TryAgain);
    }
    local.rebalance.before = Some(local.candidate);
    local.rebalance.least = least;
    to(
        local,
        Activity::Rebalance(Rebalance::Replace(Replace::Next)),
    )
}

// The seat has tried to replace the full row, and was told the link found.
pub(crate) fn replaced(local: &mut Local, found: u64) -> StepDone
    ensures { outcome local.new result ≡ replaced (link_of found) local.old }
{
    match Link::unpack(found) {
        Some(link) if link.row == Some(local.row) => {
            if link.marked {
                return give_back(local, Afterwards::MoveLeft);
            }
            local.rebalance.at = 0;
            to(
                local,
                Activity::Rebalance(Rebalance::Replace(Replace::Normalise)),
            )
        }
        _ => give_back(local, Afterwards::TryAgain),
    }
}

// The seat has made a new row normal.
pub(crate) fn normalised(local: &mut Local) -> StepDone
    requires { local.old.rebalance.at ≤ length local.old.rebalance.taken }
    ensures { outcome local.new result ≡ normalised local.old }
{
    if has_more(local) {
        local.rebalance.at = next_at(local);
        to(
            local,
            Activity::Rebalance(Rebalance::Replace(Replace::Normalise)),
        )
    } else {
        to_first_row(local);
        to(
            local,
            Activity::Rebalance(Rebalance::Replace(Replace::Number)),
        )
    }
}

// The seat has retired the row at hand. The next row of the group gets a number, if there is one.
pub(crate) fn retired(local: &mut Local) -> StepDone
    ensures { outcome local.new result ≡ retired local.old.rebalance.ahead local.old }
{
    match local.rebalance.ahead {
        Some(row) => {
            to_last_row(local, row);
            to(
                local,
                Activity::Rebalance(Rebalance::Replace(Replace::Number)),
            )
        }
        None => again(local),
    }
}
