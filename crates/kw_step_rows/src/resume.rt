//! What a seat knows after an event of its walk.
//!
//! The running map makes the events of a walk by steps of their own, and calls `first`, `guess`,
//! `guessed_least`, `link` and `walk_least` for what follows.
ghost use Rattle.std.specs.Prelude.{◌≡◌, if◌then◌else◌};
ghost use Rattle.kw_words.specs.Link.{link_of};
ghost use Rattle.kw_words.specs.State.{state_of};
ghost use Rattle.kw_words.specs.Plain.{key_of_word, built_of_word};
ghost use Rattle.kw_world.specs.Sizes.{product};
ghost use Rattle.kw_world.specs.Parts.{part_of};
ghost use Rattle.kw_world.specs.declared.part.Part.{Part};
ghost use Rattle.kw_world.specs.Transition.{outcome, to, row_linked, row_or_first};
ghost use Rattle.kw_world.specs.WalkTransitions.{guess_seen, guessed_least, arrive, link_reached, walk_least};
ghost use Rattle.kw_world.specs.Step.{next_of};

use kw_model::call::Call;
use kw_words::link::Link;
use kw_words::plain::{unpack_built, unpack_key};
use kw_words::state::State;
use kw_world::activity::Activity;
use kw_world::activity::look::Look;
use kw_world::activity::put::Put;
use kw_world::activity::walk::Walk;
use kw_world::event::{Choice, StepDone};
use kw_world::local::Local;

/// What a seat knows after its event, where the table has so many rows and the operation told it
/// this.
///
/// Each walk ends by what it is told, so that no event here asks for the number of rows; it is the
/// end of a search along the table.
#[tactic(auto, unfolding(kw_world::specs::Step::transition_of))]
pub fn rows_resume(local: &mut Local, rows: u32, choice: Choice, told: u64) -> StepDone
    requires { part_of choice local.old ≡ Part.Rows }
    ensures { outcome local.new result ≡ next_of product rows choice local.old told }
{
    match local.activity {
        Activity::Walk(Walk::Start) => match choice {
            Choice::Guess(row) => guess(local, row, told),
            _ => first(local, told),
        },
        Activity::Walk(Walk::First) => first(local, told),
        Activity::Walk(Walk::GuessedLeast) => guessed_least(local, told),
        Activity::Walk(Walk::Next) => link(local, told),
        Activity::Walk(Walk::NextLeast) => walk_least(local, told),
        _ => unreachable!(),
    }
}

// The seat goes on to an activity.
fn to(local: &mut Local, activity: Activity) -> StepDone
    ensures { outcome local.new result ≡ to activity local.old }
{
    local.activity = activity;
    StepDone::Moved
}

// The row that a link leads to.
fn linked(found: u64) -> Option<u32>
    ensures { result ≡ row_linked (link_of found) }
{
    match Link::unpack(found) {
        Some(link) => link.row,
        None => None,
    }
}

/// The walk begins at the first row, to which the link from the head leads.
pub fn first(local: &mut Local, found: u64) -> StepDone
    ensures { outcome local.new result ≡ to (Activity.Walk Walk.Next) (record local.old {
      row = row_or_first
          (row_linked (link_of found));
      lower = 0;
      built = 0;
    }) }
{
    local.row = linked(found).unwrap_or(0);
    local.lower = 0;
    local.built = 0;
    to(local, Activity::Walk(Walk::Next))
}

/// The seat was told the state of the guessed row.
pub fn guess(local: &mut Local, row: u32, found: u64) -> StepDone
    ensures { outcome local.new result ≡ guess_seen row (state_of found) local.old }
{
    match State::unpack(found) {
        Some(State::Normal) => {
            local.row = row;
            to(local, Activity::Walk(Walk::GuessedLeast))
        }
        _ => to(local, Activity::Walk(Walk::First)),
    }
}

/// The seat was told the least key of the guessed row.
pub fn guessed_least(local: &mut Local, found: u64) -> StepDone
    ensures { outcome local.new result ≡ guessed_least (key_of_word found) (built_of_word found)
        local.old }
{
    let least = unpack_key(found);
    if least > local.want {
        return to(local, Activity::Walk(Walk::First));
    }
    local.lower = least;
    local.built = unpack_built(found);
    to(local, Activity::Walk(Walk::Next))
}

/// The seat was told the link after its row.
pub fn link(local: &mut Local, found: u64) -> StepDone
    ensures { outcome local.new result ≡ link_reached (row_linked (link_of found)) local.old }
{
    match linked(found) {
        Some(row) => {
            local.candidate = row;
            to(local, Activity::Walk(Walk::NextLeast))
        }
        None => {
            local.next = None;
            local.upper = 0;
            arrive(local)
        }
    }
}

/// The seat was told the least key of the row after its row.
pub fn walk_least(local: &mut Local, found: u64) -> StepDone
    ensures { outcome local.new result ≡ walk_least (key_of_word found) (built_of_word found) local.old }
{
    let least = unpack_key(found);
    if least <= local.want {
        local.row = local.candidate;
        local.lower = least;
        local.built = unpack_built(found);
        return to(local, Activity::Walk(Walk::Next));
    }
    local.next = Some(local.candidate);
    local.upper = least;
    arrive(local)
}

// The walk has found the row of the wanted key.
fn arrive(local: &mut Local) -> StepDone
    ensures { outcome local.new result ≡ arrive local.old.call local.old }
{
    match local.call {
        Some(Call::Put(_, _)) | Some(Call::Del(_)) => to(local, Activity::Put(Put::Count)),
        _ => {
            local.forget_cells();
            to(local, Activity::Look(Look::Entry(0)))
        }
    }
}
