//! The events of a rebalance.
//!
//! Those by which the full row gets its leader (`engaging`), that gather the cells that were not
//! reached in the list of the row at hand (`gathering`), that take a free row (`seeking`), and that
//! link the new rows in place of the group (`replacing`) have a step of their own each. What most
//! rebalances do not need, as taking the next row along, going left to a leader, or giving rows
//! back, is put together in `going`; the seats are asked as `asking` does, the cells in the list
//! gathered as `row_gathering` says, rows asked for their state as `seeking` does, and new ones
//! written as `row_writing` does.
ghost use Rattle.std.specs.Prelude.{◌<◌};
ghost use Rattle.kw_follow.specs.Following.{Follows};
ghost use Rattle.kw_follow.specs.Moving.{Moves, WentOn};
ghost use Rattle.kw_follow.specs.Within.{IsWithinCall};

use crate::engaging::{
    ask_clock, ask_epoch, ask_state, decide_count, freeze_row_count, lead_row, mark_row_link,
};
use crate::gathering::{load_left_key, load_left_value};
use crate::going::{event, go};
use crate::replacing::{link_new_rows, load_least_before, load_link_before, load_state_before};
use crate::seeking::{free_row, load_first_state, take_free_row};
use kw_table::{Pass, Shared};
use kw_world::activity::Activity;
use kw_world::activity::rebalance::Rebalance;
use kw_world::activity::rebalance::engage::Engage;
use kw_world::activity::rebalance::freeze::Freeze;
use kw_world::activity::rebalance::gather::Gather;
use kw_world::activity::rebalance::replace::Replace;
use kw_world::activity::rebalance::seek::Seek;
use kw_world::event::{Choice, StepDone};
use kw_world::local::Local;

// The next event, by what the local does next: one that most rebalances have, but for those at the
// row that replaces, or any other one.
#[inline(always)]
fn build_event(shared: &Shared, pass: &mut Pass, local: &mut Local) -> StepDone
    requires follows { Follows shared.now pass.old local.old }
    requires within { IsWithinCall local.old.activity }
    ensures { Moves shared.now pass.old local.old Choice.Go pass.new local.new result }
{
    match local.activity {
        Activity::Rebalance(Rebalance::Engage(Engage::Clock)) => ask_clock(shared, pass, local),
        Activity::Rebalance(Rebalance::Engage(Engage::Epoch)) => ask_epoch(shared, pass, local),
        Activity::Rebalance(Rebalance::Engage(Engage::State)) => ask_state(shared, pass, local),
        Activity::Rebalance(Rebalance::Engage(Engage::Lead)) => lead_row(shared, pass, local),
        Activity::Rebalance(Rebalance::Engage(Engage::MarkLink(count))) => mark_row_link(
            shared, pass, local, count,
        ),
        Activity::Rebalance(Rebalance::Engage(Engage::Decide(count))) => decide_count(
            shared, pass, local, count,
        ),
        Activity::Rebalance(Rebalance::Freeze(Freeze::Count)) => freeze_row_count(
            shared, pass, local,
        ),
        Activity::Rebalance(Rebalance::Gather(Gather::LeftOverKey)) => load_left_key(
            shared, pass, local,
        ),
        Activity::Rebalance(Rebalance::Gather(Gather::LeftOverValue)) => load_left_value(
            shared, pass, local,
        ),
        Activity::Rebalance(Rebalance::Seek(Seek::Reclaim)) => free_row(shared, pass, local),
        Activity::Rebalance(Rebalance::Seek(Seek::Take)) => take_free_row(shared, pass, local),
        Activity::Rebalance(Rebalance::Replace(Replace::GuessedLeast)) => load_least_before(
            shared, pass, local,
        ),
        Activity::Rebalance(Rebalance::Replace(Replace::Next)) => load_link_before(
            shared, pass, local,
        ),
        Activity::Rebalance(Rebalance::Replace(Replace::Exchange)) => link_new_rows(
            shared, pass, local,
        ),
        _ => event(shared, pass, local, Choice::Go),
    }
}

/// Makes the next event in the middle of a call, as `go` does with the choice `Go`. Those that most
/// rebalances have are made by steps of their own. Takes no memory.
#[inline(always)]
pub fn go_build(shared: &Shared, pass: &mut Pass, local: &mut Local)
    requires follows { Follows shared.now pass.old local.old }
    requires within { IsWithinCall local.old.activity }
    ensures { WentOn shared.now pass.old local.old Choice.Go pass.new local.new }
{
    build_event(shared, pass, local);
}

// The next event with the choice to guess a row of the table: the search for free rows, or the walk
// to the row before the full one, begins there.
#[inline(always)]
fn guess_event(shared: &Shared, pass: &mut Pass, local: &mut Local, row: u32) -> StepDone
    requires follows { Follows shared.now pass.old local.old }
    requires within { IsWithinCall local.old.activity }
    requires in_range { row < shared.now.opening.rows }
    ensures { Moves shared.now pass.old local.old (Choice.Guess row) pass.new local.new result }
{
    match local.activity {
        Activity::Rebalance(Rebalance::Seek(Seek::First)) => load_first_state(
            shared, pass, local, row,
        ),
        Activity::Rebalance(Rebalance::Replace(Replace::Start)) => load_state_before(
            shared, pass, local, row,
        ),
        _ => event(shared, pass, local, Choice::Guess(row)),
    }
}

/// Makes the next event in the middle of a call, as `go` does with the choice `Guess(row)`. Where a
/// rebalance begins its search for free rows, or its walk to the row before the full one, at a row
/// of the table, that is a step of its own. Takes no memory.
#[inline(always)]
pub fn go_build_guess(shared: &Shared, pass: &mut Pass, local: &mut Local, row: u32)
    requires follows { Follows shared.now pass.old local.old }
    requires within { IsWithinCall local.old.activity }
    ensures { WentOn shared.now pass.old local.old (Choice.Guess row) pass.new local.new }
{
    if row >= shared.rows() {
        return go(shared, pass, local, Choice::Guess(row));
    }
    guess_event(shared, pass, local, row);
}
