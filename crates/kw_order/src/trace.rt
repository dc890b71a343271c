//! Traces: lists of events that may happen, with the world that they lead to and the order of their
//! calls.
//!
//! A `Trace` begins with an opening world and grows by one event at a time; whoever may make events
//! at all may push them here. Its world and its record follow the events and are never set, and so
//! every law of lists of events holds of it: `push` and the two functions on traces have these laws
//! as their clauses.
ghost use Rattle.std.specs.Prelude.{◌≡◌, ◌<◌, ◌++◌, ◌↔◌, true, Some, [], List, ℕ, IfOk, OnErr, length, slice_get};
ghost use Rattle.kw_world.specs.declared.event.Event.{Event};
ghost use Rattle.kw_world.specs.declared.local.Local.{Local};
ghost use Rattle.kw_world.specs.Sizes.{product};
ghost use Rattle.kw_world.specs.Opening.{IsOpening};
ghost use Rattle.kw_world.specs.Sane.{IsSane, CanStep};
ghost use Rattle.kw_world.specs.Step.{step, is_skipped};
ghost use Rattle.kw_core.specs.Events.{is_valid};
ghost use Rattle.kw_laws.specs.Laws.{KeepsLaws};
ghost use Rattle.kw_laws.specs.Live.{AreLive};
ghost use Rattle.kw_laws.specs.Reach.{KeepsRows};
ghost use Rattle.kw_order.specs.Bounded.{IsBounded};
ghost use Rattle.kw_order.specs.Order.{IsOrder};
ghost use Rattle.kw_order.specs.Legal.{IsLegalOrder};
ghost use Rattle.kw_order.specs.OrderLaws.{OrderLaws};
ghost use Rattle.kw_order.specs.Points.{ArePoints, AreNames};
ghost use Rattle.kw_order.specs.Trace.{TraceView, run_of, world_of, history_of, pushed, longer, GivesTops};

use crate::points::{self, CallName, Point};
use kw_core::history::History;
use kw_laws::recorder::{Recorder, step_recorded};
use kw_model::memory::Memory;
use kw_world::event::{Event, StepDone};
use kw_world::opening::Opening;
use kw_world::world::World;
use std::alloc::Global;
use std::marker::Model;

/// A list of events that may happen one after the other from an opening world, and what they led
/// to.
#[derive(Drop)]
pub struct Trace {
    opening: Opening,
    world: World,
    events: Vec<Event>,
    recorder: Recorder,
}

impl Model for Trace {
    ghost use Rattle.kw_order.specs.Trace.{TraceView, IsTrace};

    ghost Value = { TraceView };

    ghost view = { λ trace. record { opening = trace.opening; events = trace.events.items } };

    ghost invariant = { λ trace. IsTrace (record { opening = trace.opening; events = trace.events.items }) trace.world trace.recorder };
}

impl Trace {
    /// The trace of no events.
    ///
    /// There are 1 to `MOST_ROWS` rows and 1 to `SEATS` seats; the clock and the epoch are from 1
    /// to `SPENT`.
    pub fn open(
        alloc: Global,
        rows: u32,
        seats: u32,
        clock: u64,
        epoch: u64,
    ) -> Result<Trace, Memory>
        requires { IsOpening product (record {
          rows = rows;
          seats = seats;
          clock = clock;
          epoch = epoch;
        }) }
        ensures { IfOk result (λ trace. trace ≡ record {
          opening = record { rows = rows; seats = seats; clock = clock; epoch = epoch };
          events = [];
        }) }
    {
        Ok(Trace {
            opening: Opening {
                rows,
                seats,
                clock,
                epoch,
            },
            world: World::open(alloc, rows, seats, clock, epoch)?,
            events: Vec::new(alloc),
            recorder: Recorder::new(alloc, rows, seats)?,
        })
    }

    /// Makes one more event, and keeps it unless it is skipped.
    ///
    /// The event's seat is one of the trace's, a value that it puts is below `VALUE_END`, and a
    /// seat that begins a call has begun fewer than `MOST_CALLS`. A choice that the seat's activity
    /// does not offer counts as `Go`. The answer is `Skipped` exactly where the seat is idle and
    /// begins nothing. Without memory the trace is as it was.
    ///
    /// Of the trace hold then the laws of all lists: each row at which a seat has arrived was in
    /// the list since it began its visit, or drew; what a seat has reached in its visit is there
    /// for it; and no row is given free while a seat is in a visit in which it has come to it.
    /// Wherever so many events stand together that are all of one seat, whatever the other seats
    /// have left half done, one of them ends its call, has replaced its full row, or goes on to the
    /// row before; and among more of them one ends its call.
    pub fn push(&mut self, event: Event) -> Result<StepDone, Memory>
        requires seat { event.seat < self.old.opening.seats }
        requires begin { CanStep (world_of self.old) event }
        ensures ok { IfOk result (λ done. self.new ≡ pushed self.old event done) }
        ensures step { IfOk result (λ done. done ≡ (step product (world_of self.old) event).done) }
        ensures skipped { IfOk result (λ done. (local : Local) →
            slice_get (world_of self.old).locals event.seat ≡ Some local → (done ≡ StepDone.Skipped)
            ↔ (is_skipped local.activity event.choice ≡ true)) }
        ensures err { OnErr result (self.new ≡ self.old) }
        ensures laws { KeepsLaws product (run_of self.new) }
        ensures live { AreLive product self.new.opening self.new.events }
        ensures rows { KeepsRows product self.new.opening self.new.events }
        ensures bound { IsBounded self.new.opening self.new.events }
    {
        if self.world.local(event.seat).activity.skips(event.choice) {
            return Ok(StepDone::Skipped);
        }
        self.events.push(event)?;
        match step_recorded(&mut self.world, &mut self.recorder, event) {
            Ok(done) => Ok(done),
            Err(error) => {
                let _ = self.events.pop();
                Err(error)
            }
        }
    }

    /// What the trace began with.
    pub fn opening(&self) -> Opening
        ensures value { result ≡ self.now.opening }
        ensures range { IsOpening product self.now.opening }
    {
        self.opening
    }

    /// The events that were not skipped, in order.
    pub fn events(&self) -> &[Event]
        ensures value { result.now ≡ self.now.events }
        ensures valid { is_valid product self.now.opening self.now.events ≡ true }
    {
        &self.events
    }

    /// The world after these events. It has the rows and the seats of the opening.
    pub fn world(&self) -> &World
        ensures value { result.now ≡ world_of self.now }
        ensures sane { IsSane product result.now }
        ensures rows { result.now.rows ≡ self.now.opening.rows }
        ensures seats { length result.now.locals ≡ self.now.opening.seats }
    {
        &self.world
    }

    /// What happened: the calls and the puts and deletes of these events.
    pub fn history(&self) -> &History
        ensures value { result.now ≡ history_of self.now }
        ensures laws { KeepsLaws product (run_of self.now) }
    {
        self.recorder.history()
    }
}

/// The calls that ended, and those whose put or delete was stamped, each with the position at which
/// it takes effect, in the one legal order. That there is one, that it is legal and that no later
/// event changes it is said by the clauses of `order`, which has the names alone.
pub fn points(alloc: Global, trace: &Trace) -> Result<Vec<Point>, Memory>
    ensures points { IfOk result (λ points. ArePoints (history_of trace.now) points.items) }
    ensures laws { (xs : List ℕ) → IsOrder (history_of trace.now) xs →
        OrderLaws (history_of trace.now) xs }
{
    points::points(alloc, trace.recorder.history())
}

/// The names of the calls that ended, and of those whose put or delete was stamped, in their order.
///
/// There is one such order. It is legal: the calls, asked one after the other in it of the empty
/// map of one thread, each for its seat, have the replies that they had. It keeps precedence, each
/// call stands at a point inside itself, and a scan gives for each key of its range what the last
/// put with a version at most its own wrote. No event that comes later changes that.
pub fn order(alloc: Global, trace: &Trace) -> Result<Vec<CallName>, Memory>
    ensures names { IfOk result (λ names. AreNames (history_of trace.now) names.items) }
    ensures one { (xs ys : List ℕ) → IsOrder (history_of trace.now) xs →
        IsOrder (history_of trace.now) ys → xs ≡ ys }
    ensures laws { (xs : List ℕ) → IsOrder (history_of trace.now) xs →
        OrderLaws (history_of trace.now) xs }
    ensures legal { (xs : List ℕ) → IsOrder (history_of trace.now) xs →
        IsLegalOrder (history_of trace.now) xs }
    ensures later { (events : List Event) → is_valid product trace.now.opening (trace.now.events
        ++ events) ≡ true → GivesTops (history_of trace.now)
        (history_of (longer trace.now events)) }
{
    points::order(alloc, trace.recorder.history())
}
