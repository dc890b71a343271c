//! The events of a rebalance, from the load of the clock to the last one.
//!
//! The seat agrees with others on the rows of its group, freezes and gathers them, takes free rows,
//! writes them, links them in place of the group, and retires that: one event after the other, as
//! the table says. Where an exchange is lost the seat looks once more, so a rebalance may go on as
//! long as others go on to win. `rebuild` has the events up to the exchange that wins, `finish`
//! those behind it. A put or a delete that is done goes through both too, as `tidying` says: then
//! they end otherwise, and no cause is asked for.
ghost use Rattle.std.specs.Prelude.{◌≡◌, ◌≢◌, true, false};
ghost use Rattle.kw_world.specs.EngageTransitions.{retrying};
ghost use Rattle.kw_world.specs.WalkTransitions.{is_stop};
ghost use Rattle.kw_follow.specs.Following.{Follows};
ghost use Rattle.kw_follow.specs.Moving.{WentOn};
ghost use Rattle.kw_follow.specs.Reaching.{Advances};
ghost use Rattle.kw_follow.specs.Within.{IsWithinCall};
ghost use Rattle.kw_live_rebal.specs.Rebalancing.{HasEnded, stands_after};
ghost use Rattle.kw_live_rebal.specs.Standing.{HasSeenCause, ends_rebuild};

use crate::guessing::guess;
use crate::publishing::tell_index;
use crate::stretches::{ask_seats, gather_row, seek_row, write_new_row};
use kw_follow::{asks_seat, go, go_build, go_build_guess, go_finish};
use kw_index::hints::Hints;
use kw_index::index::Index;
use kw_table::{Pass, Shared};
use kw_world::activity::Activity;
use kw_world::activity::rebalance::Rebalance;
use kw_world::activity::rebalance::engage::Engage;
use kw_world::activity::rebalance::gather::Gather;
use kw_world::activity::rebalance::left::Left;
use kw_world::activity::rebalance::replace::Replace;
use kw_world::activity::rebalance::seek::Seek;
use kw_world::activity::rebalance::write::Write;
use kw_world::answer::Answer;
use kw_world::event::Choice;
use kw_world::local::Local;
use std::sync::Wait;

/// How a rebalance ended.
#[derive(Clone, Copy, Debug, PartialEq, Eq)]
pub enum Rebalanced {
    /// This call replaced a row by new ones.
    Done,
    /// Somebody else replaced the row.
    Again,
    /// The table has too few free rows.
    NoRows,
    /// The versions or the epochs are spent.
    Spent,
}

/// Rebalances the full row at which a put or a delete stands that is not done, so it does not tidy.
///
/// After `Done` and `Again` the call is to try again from its beginning, and after `NoRows` and
/// `Spent` it is about to leave with that. `Done` comes only where an exchange of this call linked
/// new rows in place of its group; `Again` only where an event of this call found the row retired,
/// or the one that was to go along, or the row in the list no more, or the link to it led
/// elsewhere; `NoRows` only where the last search of this call asked for each row of the table;
/// `Spent` only where a load of this call found the clock or the epoch at `SPENT` or above. The row
/// is the one that the call works on at that event: its own, or one before it.
///
/// The search for free rows begins at the row that the hints name, and so does the walk to the row
/// before the full one; from a row that follows another the seat goes to its leader at once, by the
/// name that the follower's state has. Where the exchange is won the index is told of the new rows.
/// No clause rests on any of it. Takes no memory. It may wait for others: all that is said here is
/// said for a call that returns.
pub fn rebalance<R: Wait>(
    rt: &R,
    shared: &Shared,
    index: &Index,
    hints: &mut Hints,
    pass: &mut Pass,
    local: &mut Local,
) -> Rebalanced
    requires follows { Follows shared.now pass.old local.old }
    requires activity { local.old.activity ≡ Activity.Rebalance (Rebalance.Engage Engage.Clock) }
    requires untidied { local.old.tidies ≡ false }
    ensures on { Advances shared.now pass.old pass.new local.new }
    ensures stands { local.new.activity ≡ stands_after result }
    ensures call { local.new.call ≡ local.old.call }
    ensures cause { HasEnded pass.old pass.new result }
{
    rebuild(rt, shared, index, hints, pass, local);
    match local.activity {
        Activity::Retry => Rebalanced::Again,
        Activity::Leave(answer) => refused(answer),
        _ => {
            finish(rt, shared, index, hints, pass, local);
            Rebalanced::Done
        }
    }
}

// Makes the events of a rebalance, up to the exchange by which it wins, or to its end. A put that
// is done sees no cause of its end, and needs none.
pub(crate) fn rebuild<R: Wait>(
    rt: &R,
    shared: &Shared,
    index: &Index,
    hints: &mut Hints,
    pass: &mut Pass,
    local: &mut Local,
)
    requires follows { Follows shared.now pass.old local.old }
    requires activity { local.old.activity ≡ Activity.Rebalance (Rebalance.Engage Engage.Clock) }
    ensures on { Advances shared.now pass.old pass.new local.new }
    ensures tidies { local.new.tidies ≡ local.old.tidies }
    ensures ends { ends_rebuild local.new.activity ≡ true }
    ensures saw { local.old.tidies ≡ false →
        HasSeenCause pass.old pass.new local.new.activity local.new }
{
    for _ in rt.forever() {
        if ends_rebuild(&local.activity) {
            return;
        }
        if asks_seat(&local.activity) {
            ask_seats(rt, shared, pass, local);
        } else if begins_gathering(&local.activity) {
            gather_row(rt, shared, pass, local);
        } else if begins_row(&local.activity) {
            write_new_row(shared, pass, local);
        } else if asks_on(&local.activity) {
            seek_row(shared, pass, local);
        } else {
            let choice = choice_at(shared, local, index, hints);
            go_on(shared, pass, local, choice);
        }
    }
    unreachable!()
}

// Whether the new rows are linked, or the rebalance is over without them.
#[inline(always)]
fn ends_rebuild(activity: &Activity) -> bool
    ensures { result ≡ ends_rebuild activity.now }
{
    match activity {
        Activity::Rebalance(Rebalance::Replace(Replace::Normalise)) => true,
        Activity::Retry => true,
        Activity::Leave(_) => true,
        _ => false,
    }
}

// Whether the new rows are linked, and are made normal next.
#[inline(always)]
pub(crate) fn has_won(activity: &Activity) -> bool
    ensures won { result ≡ true → activity.now ≡ Activity.Rebalance (Rebalance.Replace Replace.Normalise) }
    ensures other { result ≡ false → activity.now ≢ Activity.Rebalance (Rebalance.Replace Replace.Normalise) }
{
    match activity {
        Activity::Rebalance(Rebalance::Replace(Replace::Normalise)) => true,
        _ => false,
    }
}

// Whether the next event is the first of those that gather a row of the group.
#[inline(always)]
fn begins_gathering(activity: &Activity) -> bool
    ensures { result ≡ true → activity.now ≡ Activity.Rebalance (Rebalance.Gather Gather.Link) }
{
    match activity {
        Activity::Rebalance(Rebalance::Gather(Gather::Link)) => true,
        _ => false,
    }
}

// Whether the next event is the first of those that write a new row.
#[inline(always)]
fn begins_row(activity: &Activity) -> bool
    ensures { result ≡ true → activity.now ≡ Activity.Rebalance (Rebalance.Write Write.Count) }
{
    match activity {
        Activity::Rebalance(Rebalance::Write(Write::Count)) => true,
        _ => false,
    }
}

// Whether the next event asks another row for its state.
#[inline(always)]
fn asks_on(activity: &Activity) -> bool
    ensures { result ≡ true → activity.now ≡ Activity.Rebalance (Rebalance.Seek Seek.Next) }
{
    match activity {
        Activity::Rebalance(Rebalance::Seek(Seek::Next)) => true,
        _ => false,
    }
}

// Makes the next event with this choice. Those that most rebalances have are made by steps of their
// own.
#[inline(always)]
fn go_on(shared: &Shared, pass: &mut Pass, local: &mut Local, choice: Choice)
    requires follows { Follows shared.now pass.old local.old }
    requires within { IsWithinCall local.old.activity }
    ensures { WentOn shared.now pass.old local.old choice pass.new local.new }
{
    match choice {
        Choice::Go => go_build(shared, pass, local),
        Choice::Guess(row) => go_build_guess(shared, pass, local, row),
        _ => go(shared, pass, local, choice),
    }
}

// How a rebalance ended that is about to leave with this answer.
fn refused(answer: Answer) -> Rebalanced
    ensures no_rows { answer ≡ Answer.NoRows → result ≡ Rebalanced.NoRows }
    ensures spent { answer ≢ Answer.NoRows → result ≡ Rebalanced.Spent }
{
    match answer {
        Answer::NoRows => Rebalanced::NoRows,
        _ => Rebalanced::Spent,
    }
}

// The new rows are linked: they are made normal, the index is told of them, and the rows of the
// group are retired. Then the call tries again, or leaves where it was done before.
pub(crate) fn finish<R: Wait>(
    rt: &R,
    shared: &Shared,
    index: &Index,
    hints: &mut Hints,
    pass: &mut Pass,
    local: &mut Local,
)
    requires follows { Follows shared.now pass.old local.old }
    requires won { local.old.activity ≡ Activity.Rebalance (Rebalance.Replace Replace.Normalise) }
    ensures on { Advances shared.now pass.old pass.new local.new }
    ensures ends { local.new.activity ≡ retrying local.old }
{
    for _ in rt.forever() {
        match local.activity {
            Activity::Retry => return,
            Activity::Leave(_) => return,
            _ => {
                tell_index(index, hints, local);
                go_finish(shared, pass, local);
            }
        }
    }
    unreachable!()
}

// The choice with which the next event is made.
fn choice_at(shared: &Shared, local: &Local, index: &Index, hints: &mut Hints) -> Choice
    ensures { is_stop result ≡ false }
{
    match local.activity {
        Activity::Rebalance(Rebalance::Seek(Seek::First)) => Choice::Guess(hints.window.start()),
        // The leader is the row that the follower's state named, whatever row the guess names.
        Activity::Rebalance(Rebalance::Left(Left::Start)) => Choice::Guess(local.row),
        Activity::Rebalance(Rebalance::Replace(Replace::Start)) => match guess_before(
            shared, local, index, hints,
        ) {
            Some(row) => Choice::Guess(row),
            None => Choice::Go,
        },
        _ => Choice::Go,
    }
}

// A row to begin at for the key below the least key of the full row.
fn guess_before(shared: &Shared, local: &Local, index: &Index, hints: &mut Hints) -> Option<u32> {
    let key = local.lower.checked_sub(1)?;
    guess(shared, index, hints, key)
}
