//! One event of a world, whichever it is.
//!
//! Each part of the table is made by a crate of its own; `part` of the acting seat's local says
//! which, and here they are one. `step` is the definition of one event, and `kind_of` names what it
//! is for before it is made: the laws over lists of events and the simulator stand on these two.
//! `operation` and `resume` are the halves of an event, before and after its word; the running map
//! puts them around a word of its own table. What a reader learns from its events in a row is
//! passed on by itself, for whoever makes those events one by one.
ghost use Rattle.std.specs.Prelude.{◌≡◌, ◌<◌, ◌↔◌, None, length, IfOk, IfSome, OnErr};
ghost use Rattle.kw_world.specs.Transition.{outcome};
ghost use Rattle.kw_world.specs.Sane.{IsSane, IsLocal, HasRoom, CanStep, CanBegin};
ghost use Rattle.kw_world.specs.Sizes.{product};
ghost use Rattle.kw_world.specs.Step.{step, stepped, kind_of, transition_of, next_of, IsMade, IsSkipped};
ghost use Rattle.kw_world.specs.RowEnd.{MayEndRow, MayEndRowAt};

use kw_model::memory::Memory;
use kw_step_put::operation::put_operation;
pub use kw_step_put::reading::{gather, go_by_cell, hold_version, reach, take_remembered};
use kw_step_put::resume::put_resume;
use kw_step_put::step::put_step;
use kw_step_rebal::operation::rebalance_operation;
use kw_step_rebal::resume::rebalance_resume;
use kw_step_rebal::step::rebalance_step;
use kw_step_rows::operation::rows_operation;
use kw_step_rows::resume::rows_resume;
use kw_step_rows::step::rows_step;
use kw_words::kind::Kind;
use kw_world::event::{Choice, Event, StepDone};
use kw_world::local::Local;
use kw_world::operation::Operation;
use kw_world::part::Part;
use kw_world::world::World;

/// Makes one event of the world.
///
/// The event's seat is one of the world's, a value that an idle seat begins to put is below
/// `VALUE_END`, and a seat that begins a call has begun fewer than `MOST_CALLS`. A choice that the
/// seat's activity does not offer counts as `Go`. The answer is `Skipped` exactly where the seat is
/// idle and begins nothing. The world is as it was after `Skipped`, and without memory, which only
/// the pairs of a scan take, at the end of a row.
pub fn step(world: &mut World, event: Event) -> Result<StepDone, Memory>
    requires sane { IsSane product world.old }
    requires seat { event.seat < length world.old.locals }
    requires begin { CanStep world.old event }
    ensures ok { IfOk result (λ done. stepped world.new done ≡ step product world.old event) }
    ensures skipped { IfOk result (λ done. (done ≡ StepDone.Skipped) ↔ IsSkipped world.old event) }
    ensures skipped_world { IfOk result (λ done. done ≡ StepDone.Skipped → world.new ≡ world.old) }
    ensures err { OnErr result (world.new ≡ world.old) }
    ensures memory { OnErr result (MayEndRowAt world.old event.seat) }
{
    match world.local(event.seat).part(event.choice) {
        Part::Put => put_step(world, event),
        Part::Rows => rows_step(world, event),
        Part::Rebalance => rebalance_step(world, event),
    }
}

/// The kind of the event, before it is made.
///
/// None exactly where `step` skips the event: the seat is idle and begins nothing. Takes no memory.
#[tactic(auto, unfolding(kw_world::specs::Step::kind_of))]
pub fn kind_of(world: &World, event: Event) -> Option<Kind>
    requires sane { IsSane product world.now }
    requires seat { event.seat < length world.now.locals }
    ensures kind { result ≡ kind_of product world.now event }
    ensures skipped { result ≡ None → step product world.now event
        ≡ stepped world.now StepDone.Skipped }
    ensures made { IfSome result (λ kind. IsMade (step product world.now event).done) }
{
    let local = world.local(event.seat);
    if local.activity.skips(event.choice) {
        return None;
    }
    let choice = event.choice.offered(world.rows());
    Some(operation(event.seat, local, choice).kind)
}

/// The operation of the event that a seat makes with this choice. Takes no memory.
///
/// A guess has to be at a row of the table, as `Choice::offered` sees to.
pub fn operation(seat: u32, local: &Local, choice: Choice) -> Operation
    requires { IsLocal product local.now }
    ensures { result ≡ (transition_of product seat choice local.now).operation }
{
    match local.part(choice) {
        Part::Put => put_operation(seat, local, choice),
        Part::Rows => rows_operation(seat, local, choice),
        Part::Rebalance => rebalance_operation(seat, local, choice),
    }
}

/// What a seat knows after its event, where the table has so many rows and the operation told it
/// this. It is the same whichever seat it is.
///
/// Takes memory only where a scan has read a row to its end, for the row's pairs: no other call
/// wants any, and a scan does at none but the last events of a row. Without it the local is as it
/// was.
pub fn resume(local: &mut Local, rows: u32, choice: Choice, told: u64) -> Result<StepDone, Memory>
    requires ranges { IsLocal product local.old }
    requires room { HasRoom product local.old }
    requires begin { CanBegin choice local.old }
    ensures ok { IfOk result (λ done. outcome local.new done ≡ next_of product rows choice local.old
        told) }
    ensures err { OnErr result (local.new ≡ local.old) }
    ensures memory { OnErr result (MayEndRow local.old) }
{
    match local.part(choice) {
        Part::Put => put_resume(local, rows, choice, told),
        Part::Rows => Ok(rows_resume(local, rows, choice, told)),
        Part::Rebalance => Ok(rebalance_resume(local, rows, choice, told)),
    }
}
