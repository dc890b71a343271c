//! What a seat knows after its event.
//!
//! The operation tells the seat a word, and nothing for a store. `put_resume` makes of that what
//! the table says: the fields that the event's line names change, and the activity. Where a scan's
//! pairs find no memory the local stays as it was, so a step that answers so has done nothing.
ghost use Rattle.std.specs.Prelude.{◌≡◌, ◌<◌, ◌==◌, ℕ, if◌then◌else◌, IfOk, OnErr};
ghost use Rattle.kw_world.specs.Sizes.{product};
ghost use Rattle.kw_world.specs.Parts.{part_of};
ghost use Rattle.kw_world.specs.declared.part.Part.{Part};
ghost use Rattle.kw_world.specs.Transition.{outcome, to, leave, ended};
ghost use Rattle.kw_world.specs.ScanTransitions.{answer_or_stopped};
ghost use Rattle.kw_world.specs.Sane.{IsLocal, HasRoom, CanBegin};
ghost use Rattle.kw_world.specs.Step.{next_of};
ghost use Rattle.kw_world.specs.RowEnd.{MayEndRow};

use crate::resume_cells::{
    left_over_key, left_over_value, list_from, list_key, list_start, list_value, list_version,
};
use crate::resume_entries::{help, look, look_key};
use crate::resume_insert::{
    insert, insert_from, insert_key, insert_start, insert_version, start_insert,
};
use crate::resume_put::{add, announce, clear, count, stamp};
use crate::resume_scan::{begin, clock, enter, pinned, settle, unpinned};
use kw_model::memory::Memory;
use kw_world::activity::Activity;
use kw_world::activity::draw::Draw;
use kw_world::activity::enter::Enter;
use kw_world::activity::insert::Insert;
use kw_world::activity::look::Look;
use kw_world::activity::put::Put;
use kw_world::activity::read::Read;
use kw_world::activity::walk::Walk;
use kw_world::answer::Answer;
use kw_world::event::{Choice, StepDone};
use kw_world::local::Local;

/// What a seat knows after its event, where the table has so many rows and the operation told it
/// this.
///
/// A put that is done and may tidy its row alone asks for the number of rows. Takes memory only
/// where a scan has read a row to its end, for the row's pairs: no other call wants any, and a scan
/// does at none but the last events of a row. Without it the local is as it was.
#[tactic(auto, unfolding(kw_world::specs::Step::transition_of))]
pub fn put_resume(
    local: &mut Local,
    rows: u32,
    choice: Choice,
    told: u64,
) -> Result<StepDone, Memory>
    requires ranges { IsLocal product local.old }
    requires room { HasRoom product local.old }
    requires part { part_of choice local.old ≡ Part.Put }
    requires begin { CanBegin choice local.old }
    ensures ok { IfOk result (λ done. outcome local.new done ≡ next_of product rows
        choice local.old told) }
    ensures err { OnErr result (local.new ≡ local.old) }
    ensures memory { OnErr result (MayEndRow local.old) }
{
    match local.activity {
        Activity::Idle => Ok(begin(local, choice, told)),
        Activity::Enter(Enter::Announce) => Ok(enter(local)),
        Activity::Draw(Draw::Clock) => Ok(clock(local, told)),
        Activity::Draw(Draw::Wait) => Ok(to(local, Activity::Draw(Draw::Version))),
        Activity::Draw(Draw::Version) => {
            local.drawn = told;
            Ok(to(local, Activity::Draw(Draw::Settle)))
        }
        Activity::Draw(Draw::Settle) => Ok(settle(local, told)),
        Activity::Draw(Draw::Pin) => Ok(pinned(local)),
        Activity::Walk(Walk::Next) => Ok(leave(local, Answer::Stopped)),
        Activity::Look(Look::Entry(entry)) => Ok(look(local, entry, told)),
        Activity::Look(Look::Key) => Ok(look_key(local, told)),
        Activity::Look(Look::Clock) => {
            local.helping = told;
            Ok(to(local, Activity::Look(Look::Help)))
        }
        Activity::Look(Look::Help) => Ok(help(local, told)),
        Activity::Read(Read::Start) => {
            let guess = local.cell_guess(choice);
            list_start(local, guess, told)
        }
        Activity::Read(Read::Link) => list_from(local, told),
        Activity::Read(Read::Key) => list_key(local, told),
        Activity::Read(Read::Version) => Ok(list_version(local, told)),
        Activity::Read(Read::Value) => Ok(list_value(local, told)),
        Activity::Read(Read::LeftOverKey) => left_over_key(local, told),
        Activity::Read(Read::LeftOverValue) => left_over_value(local, told),
        Activity::EndScan(answer) => Ok(end_scan(local, answer, choice)),
        Activity::ClearPin => Ok(unpinned(local)),
        Activity::Put(Put::Count) => Ok(count(local, told)),
        Activity::Put(Put::Add) => Ok(add(local, told)),
        Activity::Put(Put::Key) => Ok(to(local, Activity::Put(Put::Value))),
        Activity::Put(Put::Value) => Ok(to(local, Activity::Put(Put::Announce))),
        Activity::Put(Put::Announce) => Ok(announce(local, told)),
        Activity::Put(Put::Clock) => {
            local.version = told;
            Ok(to(local, Activity::Put(Put::Stamp)))
        }
        Activity::Put(Put::Stamp) => Ok(stamp(local, told)),
        Activity::Put(Put::Version) => Ok(start_insert(local)),
        Activity::Insert(Insert::Start) => {
            let guess = local.cell_guess(choice);
            Ok(insert_start(local, guess, told))
        }
        Activity::Insert(Insert::Link) => Ok(insert_from(local, told)),
        Activity::Insert(Insert::Key) => Ok(insert_key(local, told)),
        Activity::Insert(Insert::Version) => Ok(insert_version(local, told)),
        Activity::Insert(Insert::Set) => Ok(to(local, Activity::Insert(Insert::Exchange))),
        Activity::Insert(Insert::Exchange) => Ok(insert(local, told)),
        Activity::Put(Put::Clear) => Ok(clear(local, rows, choice)),
        Activity::Leave(answer) => Ok(end_call(local, answer)),
        _ => unreachable!(),
    }
}

/// The seat goes on to an activity.
#[inline(always)]
pub fn to(local: &mut Local, activity: Activity) -> StepDone
    ensures { outcome local.new result ≡ to activity local.old }
{
    local.activity = activity;
    StepDone::Moved
}

/// The seat is about to leave with this answer.
pub fn leave(local: &mut Local, answer: Answer) -> StepDone
    ensures { outcome local.new result ≡ leave answer local.old }
{
    local.forget_rows();
    to(local, Activity::Leave(answer))
}

/// The scan has ended, with its answer unless it is stopped here.
#[inline(always)]
pub fn end_scan(local: &mut Local, answer: Answer, choice: Choice) -> StepDone
    ensures { outcome local.new result ≡ leave (answer_or_stopped answer choice) local.old }
{
    if choice.is_stop() {
        leave(local, Answer::Stopped)
    } else {
        leave(local, answer)
    }
}

/// The call has ended, with the pairs that it has. The answer has its reply.
pub fn end_call(local: &mut Local, answer: Answer) -> StepDone
    ensures { outcome local.new result ≡ ended answer local.old }
{
    let pairs = local.pairs.take();
    local.rest();
    StepDone::Ended(answer.reply(pairs))
}
