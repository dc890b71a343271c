//! What a seat knows after an event of its rebalance.
//!
//! The operation tells the seat a word, and nothing for a store. `rebalance_resume` makes of that
//! what the table says: the fields that the event's line names change, and the activity. One file
//! for each topic has the lines that need more than a sentence.
ghost use Rattle.std.specs.Prelude.{◌≡◌};
ghost use Rattle.kw_step_rebal.specs.Families.{IsBuilding, IsClaiming, IsFreezing, IsGathering, IsGoingLeft};
ghost use Rattle.kw_world.specs.Parts.{part_of};
ghost use Rattle.kw_world.specs.Sane.{IsLocal, HasRoom};
ghost use Rattle.kw_world.specs.Sizes.{product};
ghost use Rattle.kw_world.specs.Step.{next_of};
ghost use Rattle.kw_world.specs.Transition.{outcome, to};
ghost use Rattle.kw_world.specs.declared.part.Part.{Part};

use crate::resume_claim::{claimed, next_counted, next_marked};
use crate::resume_engage::{clock, decide, engage, epoch, link_marked, state};
use crate::resume_freeze::{count_frozen, entry_tried, look, pin, scan, scan_helped};
use crate::resume_left::{left, left_least, left_link};
use crate::resume_replace::{
    before, before_head, before_least, before_link, guess_least, normalised, replaced, retired,
};
use crate::resume_seek::{gave_back, pass, seek, seek_first, take_row};
use crate::resume_take::{
    left_over_value, take_from, take_key, take_left_over_key, take_value, take_version,
};
use crate::resume_write::{to_write_after, to_write_cell, to_write_entry};
use kw_world::activity::Activity;
use kw_world::activity::enter::Enter;
use kw_world::activity::rebalance::Rebalance;
use kw_world::activity::rebalance::claim::Claim;
use kw_world::activity::rebalance::engage::Engage;
use kw_world::activity::rebalance::freeze::Freeze;
use kw_world::activity::rebalance::gather::Gather;
use kw_world::activity::rebalance::left::Left;
use kw_world::activity::rebalance::replace::Replace;
use kw_world::activity::rebalance::seek::Seek;
use kw_world::activity::rebalance::write::Write;
use kw_world::event::{Choice, StepDone};
use kw_world::local::Local;

/// What a seat knows after its event, where the table has so many rows and the operation told it
/// this.
///
/// The search for free rows alone asks for the number of rows. Takes no memory.
#[tactic(auto, unfolding(kw_world::specs::Step::transition_of))]
pub fn rebalance_resume(local: &mut Local, rows: u32, choice: Choice, told: u64) -> StepDone
    requires ranges { IsLocal product local.old }
    requires room { HasRoom product local.old }
    requires part { part_of choice local.old ≡ Part.Rebalance }
    ensures { outcome local.new result ≡ next_of product rows choice local.old told }
{
    match local.activity {
        Activity::Retry => to(local, Activity::Enter(Enter::LoadEpoch)),
        Activity::Enter(Enter::LoadEpoch) => {
            local.epoch = told;
            to(local, Activity::Enter(Enter::Announce))
        }
        Activity::Rebalance(Rebalance::Engage(Engage::Clock)) => clock(local, told),
        Activity::Rebalance(Rebalance::Engage(Engage::Epoch)) => epoch(local, told),
        Activity::Rebalance(Rebalance::Engage(Engage::State)) => state(local, told),
        Activity::Rebalance(Rebalance::Engage(Engage::Normal(_))) => to(
            local,
            Activity::Rebalance(Rebalance::Engage(Engage::State)),
        ),
        Activity::Rebalance(Rebalance::Engage(Engage::Lead)) => engage(local, told),
        Activity::Rebalance(Rebalance::Engage(Engage::MarkLink(count))) => link_marked(
            local, count, told,
        ),
        Activity::Rebalance(Rebalance::Engage(Engage::Decide(count))) => decide(local, count, told),
        Activity::Rebalance(Rebalance::Claim(_)) => claim_resume(local, rows, choice, told),
        Activity::Rebalance(Rebalance::Left(_)) => left_resume(local, rows, choice, told),
        Activity::Rebalance(Rebalance::Freeze(_)) => freeze_resume(local, rows, choice, told),
        Activity::Rebalance(Rebalance::Gather(_)) => gather_resume(local, rows, choice, told),
        _ => build_resume(local, rows, choice, told),
    }
}

// What it knows after an event by which the row after the full one is taken along.
#[tactic(auto, unfolding(kw_world::specs::Step::transition_of))]
fn claim_resume(local: &mut Local, rows: u32, choice: Choice, told: u64) -> StepDone
    requires ranges { IsLocal product local.old }
    requires room { HasRoom product local.old }
    requires family { IsClaiming local.old.activity }
    ensures { outcome local.new result ≡ next_of product rows choice local.old told }
{
    match local.activity {
        Activity::Rebalance(Rebalance::Claim(Claim::Count)) => next_counted(local, told),
        Activity::Rebalance(Rebalance::Claim(Claim::Exchange)) => claimed(local, told),
        Activity::Rebalance(Rebalance::Claim(Claim::Normal(_))) => to(
            local,
            Activity::Rebalance(Rebalance::Claim(Claim::Exchange)),
        ),
        Activity::Rebalance(Rebalance::Claim(Claim::MarkLink)) => next_marked(local, told),
        _ => unreachable!(),
    }
}

// What it knows after an event by which the seat of a follower goes left.
#[tactic(auto, unfolding(kw_world::specs::Step::transition_of))]
fn left_resume(local: &mut Local, rows: u32, choice: Choice, told: u64) -> StepDone
    requires ranges { IsLocal product local.old }
    requires room { HasRoom product local.old }
    requires family { IsGoingLeft local.old.activity }
    ensures { outcome local.new result ≡ next_of product rows choice local.old told }
{
    match local.activity {
        Activity::Rebalance(Rebalance::Left(Left::Start)) => left(local, choice, told),
        Activity::Rebalance(Rebalance::Left(Left::Next)) => left_link(local, told),
        Activity::Rebalance(Rebalance::Left(Left::NextLeast)) => left_least(local, told),
        _ => unreachable!(),
    }
}

// What it knows after an event by which the rows of the group are frozen, and the scans and pins
// looked at.
#[tactic(auto, unfolding(kw_world::specs::Step::transition_of))]
fn freeze_resume(local: &mut Local, rows: u32, choice: Choice, told: u64) -> StepDone
    requires ranges { IsLocal product local.old }
    requires room { HasRoom product local.old }
    requires family { IsFreezing local.old.activity }
    ensures { outcome local.new result ≡ next_of product rows choice local.old told }
{
    match local.activity {
        Activity::Rebalance(Rebalance::Freeze(Freeze::Count)) => count_frozen(local),
        Activity::Rebalance(Rebalance::Freeze(Freeze::Look(entry))) => look(local, entry, told),
        Activity::Rebalance(Rebalance::Freeze(Freeze::Entry(entry))) => entry_tried(
            local, entry, told,
        ),
        Activity::Rebalance(Rebalance::Freeze(Freeze::Scan(seat))) => scan(local, seat, told),
        Activity::Rebalance(Rebalance::Freeze(Freeze::Draw(seat))) => {
            local.rebalance.drawn = told;
            to(
                local,
                Activity::Rebalance(Rebalance::Freeze(Freeze::Settle(seat))),
            )
        }
        Activity::Rebalance(Rebalance::Freeze(Freeze::Settle(seat))) => scan_helped(
            local, seat, told,
        ),
        Activity::Rebalance(Rebalance::Freeze(Freeze::Pin(seat))) => pin(local, seat, told),
        _ => unreachable!(),
    }
}

// What it knows after an event by which the cells of the group are gathered.
#[tactic(auto, unfolding(kw_world::specs::Step::transition_of))]
fn gather_resume(local: &mut Local, rows: u32, choice: Choice, told: u64) -> StepDone
    requires ranges { IsLocal product local.old }
    requires room { HasRoom product local.old }
    requires family { IsGathering local.old.activity }
    ensures { outcome local.new result ≡ next_of product rows choice local.old told }
{
    match local.activity {
        Activity::Rebalance(Rebalance::Gather(Gather::Link)) => take_from(local, told),
        Activity::Rebalance(Rebalance::Gather(Gather::Key)) => take_key(local, told),
        Activity::Rebalance(Rebalance::Gather(Gather::Version)) => take_version(local, told),
        Activity::Rebalance(Rebalance::Gather(Gather::Value)) => take_value(local, told),
        Activity::Rebalance(Rebalance::Gather(Gather::LeftOverKey)) => take_left_over_key(
            local, told,
        ),
        Activity::Rebalance(Rebalance::Gather(Gather::LeftOverValue)) => left_over_value(
            local, told,
        ),
        _ => unreachable!(),
    }
}

// What it knows after an event by which new rows are sought, taken and written, or linked in place
// of the full row.
#[tactic(auto, unfolding(kw_world::specs::Step::transition_of))]
fn build_resume(local: &mut Local, rows: u32, choice: Choice, told: u64) -> StepDone
    requires ranges { IsLocal product local.old }
    requires room { HasRoom product local.old }
    requires family { IsBuilding local.old.activity }
    ensures { outcome local.new result ≡ next_of product rows choice local.old told }
{
    match local.activity {
        Activity::Rebalance(Rebalance::Seek(Seek::First)) => seek_first(local, rows, choice, told),
        Activity::Rebalance(Rebalance::Seek(Seek::Next)) => seek(local, rows, told),
        Activity::Rebalance(Rebalance::Seek(Seek::Pass(other))) => pass(local, rows, other, told),
        Activity::Rebalance(Rebalance::Seek(Seek::Reclaim)) => to(
            local,
            Activity::Rebalance(Rebalance::Seek(Seek::Take)),
        ),
        Activity::Rebalance(Rebalance::Seek(Seek::Take)) => take_row(local, rows, told),
        Activity::Rebalance(Rebalance::Seek(Seek::GiveBack)) => gave_back(local),
        Activity::Rebalance(Rebalance::Write(Write::Count)) => to(
            local,
            Activity::Rebalance(Rebalance::Write(Write::Least)),
        ),
        Activity::Rebalance(Rebalance::Write(Write::Least)) => to(
            local,
            Activity::Rebalance(Rebalance::Write(Write::Next)),
        ),
        Activity::Rebalance(Rebalance::Write(Write::Next)) => to(
            local,
            Activity::Rebalance(Rebalance::Write(Write::First)),
        ),
        Activity::Rebalance(Rebalance::Write(Write::First)) => to_write_entry(local, 0),
        Activity::Rebalance(Rebalance::Write(Write::Entry(entry))) => to_write_entry(
            local,
            entry + 1,
        ),
        Activity::Rebalance(Rebalance::Write(Write::Key(cell))) => to(
            local,
            Activity::Rebalance(Rebalance::Write(Write::Value(cell))),
        ),
        Activity::Rebalance(Rebalance::Write(Write::Value(cell))) => to(
            local,
            Activity::Rebalance(Rebalance::Write(Write::Version(cell))),
        ),
        Activity::Rebalance(Rebalance::Write(Write::Version(cell))) => to_write_after(local, cell),
        Activity::Rebalance(Rebalance::Write(Write::After(cell))) => to_write_cell(local, cell + 1),
        Activity::Rebalance(Rebalance::Replace(Replace::Start)) => before(local, choice, told),
        Activity::Rebalance(Rebalance::Replace(Replace::GuessedLeast)) => guess_least(local, told),
        Activity::Rebalance(Rebalance::Replace(Replace::First)) => before_head(local, told),
        Activity::Rebalance(Rebalance::Replace(Replace::Next)) => before_link(local, told),
        Activity::Rebalance(Rebalance::Replace(Replace::NextLeast)) => before_least(local, told),
        Activity::Rebalance(Rebalance::Replace(Replace::Exchange)) => replaced(local, told),
        Activity::Rebalance(Rebalance::Replace(Replace::Normalise)) => normalised(local),
        Activity::Rebalance(Rebalance::Replace(Replace::Number)) => {
            local.rebalance.number = told;
            to(
                local,
                Activity::Rebalance(Rebalance::Replace(Replace::Retire)),
            )
        }
        Activity::Rebalance(Rebalance::Replace(Replace::Retire)) => retired(local),
        _ => unreachable!(),
    }
}

/// The seat goes on to an activity.
#[inline(always)]
pub fn to(local: &mut Local, activity: Activity) -> StepDone
    ensures { outcome local.new result ≡ to activity local.old }
{
    local.activity = activity;
    StepDone::Moved
}
