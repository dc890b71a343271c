//! The search for free rows, with the row at hand.
//!
//! A search asks row after row for its state, round the whole table where it has to, and passes
//! over all that are in use. All that changes then is which row is asked and how many were: so code
//! keeps these in a `Search`, and leaves all else of its local where it was, up to the first row
//! that is free or was retired, or to the last one. `with_search` says which local the two stand
//! for. What is asked of a row that is not gone by has steps of its own, as in `gathering`;
//! `building` asks for them.
ghost use Rattle.std.specs.Prelude.{ℕ, ◌≡◌, ◌+◌, ◌<◌, false};
ghost use Rattle.kw_world.specs.Sane.{HasRoom, IsLocal};
ghost use Rattle.kw_world.specs.Sizes.{product};
ghost use Rattle.kw_world.specs.Step.{next_of};
ghost use Rattle.kw_world.specs.Transition.{outcome};
ghost use Rattle.kw_table.specs.Passes.{Makes};
ghost use Rattle.kw_words.specs.Plain.{pass_of_word};
ghost use Rattle.kw_words.specs.State.{state_of};
ghost use Rattle.kw_world.specs.SeekTransitions.{pass_seen, to_pass};
ghost use Rattle.kw_follow.specs.Following.{Follows};
ghost use Rattle.kw_follow.specs.Moving.{FollowsAt, Moves};
ghost use Rattle.kw_follow.specs.Searches.{behind, is_in_use, seeking_at, with_search};

use crate::engaging::rebalance_on;
use kw_step_rebal::resume::{rebalance_resume, to};
use kw_table::{Pass, Shared, load_pass, load_state, reclaim, take_row};
use kw_words::layout::Name;
use kw_words::plain::unpack_pass;
use kw_words::sizes::SEAT_COUNT;
use kw_words::state::State;
use kw_world::activity::Activity;
use kw_world::activity::rebalance::Rebalance;
use kw_world::activity::rebalance::seek::Seek;
use kw_world::event::{Choice, StepDone};
use kw_world::local::Local;

/// How far a search for free rows has come.
#[derive(Clone, Copy, Debug, PartialEq, Eq)]
pub struct Search {
    /// The row whose state it asks for.
    pub sought: u32,
    /// How many rows it has asked so, with that one.
    pub asked: u32,
}

impl Search {
    /// How far the search of a seat with this local has come.
    #[inline(always)]
    pub fn of(local: &Local) -> Search
        ensures { with_search result local.now ≡ local.now }
    {
        Search {
            sought: local.rebalance.sought,
            asked: local.rebalance.asked,
        }
    }

    /// Loads the state of the row at hand. The answer is what the event was told. Takes no memory.
    #[inline(always)]
    pub fn load_state(self, shared: &Shared, pass: &mut Pass) -> u64
        requires { (l : Local) × Follows shared.now pass.old (seeking_at self l) }
        ensures { Makes shared.now pass.old Choice.Go result pass.new }
    {
        load_state(shared, pass, Choice::Go, Name::State(self.sought))
    }

    /// The row at hand is gone by, in a table of so many rows, of which some were not asked.
    #[inline(always)]
    pub fn behind(self, rows: u32) -> Search
        requires { self.asked < rows }
        ensures { result ≡ behind rows self }
    {
        Search {
            sought: match self.sought.checked_add(1) {
                Some(next) if next < rows => next,
                _ => 0,
            },
            asked: self.asked + 1,
        }
    }

    /// The search stops at the row at hand, which is not gone by, or is the last one: the local
    /// has the search again, and goes on by the state that the seat was told. Takes no memory.
    #[inline(always)]
    pub fn stop(self, local: &mut Local, rows: u32, found: u64) -> StepDone
        requires ranges { IsLocal product (seeking_at self local.old) }
        requires room { HasRoom product (seeking_at self local.old) }
        ensures { outcome local.new result ≡ next_of product rows Choice.Go (seeking_at self
            local.old) found }
    {
        local.activity = Activity::Rebalance(Rebalance::Seek(Seek::Next));
        local.rebalance.sought = self.sought;
        local.rebalance.asked = self.asked;
        rebalance_resume(local, rows, Choice::Go, found)
    }
}

/// Whether a row with this state is gone by: it is neither free nor retired.
#[inline(always)]
pub fn is_in_use(found: u64) -> bool
    ensures { result ≡ is_in_use (state_of found) }
{
    match State::unpack(found) {
        Some(State::Free) | Some(State::Retired(_)) => false,
        _ => true,
    }
}

// Loads the state of a row of the table, with which a search begins that is to begin there.
#[inline(always)]
pub(crate) fn load_first_state(
    shared: &Shared,
    pass: &mut Pass,
    local: &mut Local,
    row: u32,
) -> StepDone
    requires at { FollowsAt shared.now pass.old local.old
        (Activity.Rebalance (Rebalance.Seek Seek.First)) }
    requires in_range { row < shared.now.opening.rows }
    ensures { Moves shared.now pass.old local.old (Choice.Guess row) pass.new local.new result }
{
    let choice = Choice::Guess(row);
    let told = load_state(shared, pass, choice, Name::State(row));
    rebalance_on(shared, local, choice, told)
}

// Loads the pass of a seat, while the row at hand was found retired.
#[inline(always)]
pub(crate) fn look_at_pass(
    shared: &Shared,
    pass: &mut Pass,
    local: &mut Local,
    seat: u32,
) -> StepDone
    requires { FollowsAt shared.now pass.old local.old
        (Activity.Rebalance (Rebalance.Seek (Seek.Pass seat))) }
    ensures { Moves shared.now pass.old local.old Choice.Go pass.new local.new result }
{
    let told = load_pass(shared, pass, Name::Pass(seat));
    if seat + 1 < SEAT_COUNT && !may_hold(local, told) {
        return to(
            local,
            Activity::Rebalance(Rebalance::Seek(Seek::Pass(seat + 1))),
        );
    }
    rebalance_on(shared, local, Choice::Go, told)
}

// Whether a pass with this word may have come to the row at hand before that was retired.
#[inline(always)]
fn may_hold(local: &Local, found: u64) -> bool
    ensures { result ≡ false → (rows i : ℕ) → pass_seen product i rows (pass_of_word found)
        local.now ≡ to_pass product (i + 1) local.now }
{
    match unpack_pass(found) {
        Some(epoch) => epoch <= local.rebalance.number,
        None => false,
    }
}

// Exchanges the retired row at hand, to which no pass can come any more, for a free one.
#[inline(always)]
pub(crate) fn free_row(shared: &Shared, pass: &mut Pass, local: &mut Local) -> StepDone
    requires { FollowsAt shared.now pass.old local.old
        (Activity.Rebalance (Rebalance.Seek Seek.Reclaim)) }
    ensures { Moves shared.now pass.old local.old Choice.Go pass.new local.new result }
{
    let state = Name::State(local.rebalance.sought);
    let retired = State::Retired(local.rebalance.number).pack();
    let free = State::Free.pack();
    let told = reclaim(shared, pass, state, retired, free);
    rebalance_on(shared, local, Choice::Go, told)
}

// Exchanges the free row at hand for an infant of this seat.
#[inline(always)]
pub(crate) fn take_free_row(shared: &Shared, pass: &mut Pass, local: &mut Local) -> StepDone
    requires { FollowsAt shared.now pass.old local.old
        (Activity.Rebalance (Rebalance.Seek Seek.Take)) }
    ensures { Moves shared.now pass.old local.old Choice.Go pass.new local.new result }
{
    let state = Name::State(local.rebalance.sought);
    let free = State::Free.pack();
    let infant = State::Infant(pass.number()).pack();
    let told = take_row(shared, pass, state, free, infant);
    rebalance_on(shared, local, Choice::Go, told)
}
