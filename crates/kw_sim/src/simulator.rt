//! A script, run line by line.
//!
//! A `Simulator` keeps the events that were made, the calls that each seat is still to make, and
//! what is printed so far. Each rule of a script has one method here that is proved to be that
//! rule: an event, a step of a seat, steps in number, steps until a kind of event, a line, and the
//! order at the end. All events are made in `event`, by the `Trace`.
ghost use Rattle.std.specs.Prelude.{◌≡◌, ◌+◌, ◌<◌, ◌≤◌, true, if◌then◌else◌, [], ◌∷◌, length, replicate, IfOk, OnOk, IfNone, IfSome, MatchOption};
ghost use Rattle.kw_words.specs.declared.sizes.TheConstants.{SEATS, MOST_ROWS};
ghost use Rattle.kw_world.specs.declared.limits.TheConstants.{MOST_CALLS};
ghost use Rattle.kw_line.specs.Line.{FitsCall};
ghost use Rattle.kw_sim.specs.declared.parse.TheConstants.{MOST_STEPS};
ghost use Rattle.kw_sim.specs.Script.{IsCommand};
ghost use Rattle.kw_sim.specs.State.{queue_of};
ghost use Rattle.kw_sim.specs.Meaning.{event, FitsChoice, kind_at, after_event, is_idle, next_choice, taken, next_event, seat_step, go, until, is_kind, missed, queued, after_command, first_state};
ghost use Rattle.kw_judge.specs.declared.record.TheConstants.{MOST_POSITION};
ghost use Rattle.kw_sim.specs.Output.{IsOutputAt};
ghost use Rattle.kw_sim.specs.Recorded.{IsTooMany, IsRecordAt};

use crate::command::Command;
use crate::parse::MOST_STEPS;
use crate::print::{judged, push_done, push_missed};
use crate::queue::Queue;
use crate::recording::record_of;
use kw_core::step::kind_of;
use kw_judge::print::push_order;
use kw_model::call::Call;
use kw_model::memory::Memory;
use kw_order::trace::{Trace, order};
use kw_words::kind::Kind;
use kw_words::sizes::{SEAT_COUNT, SEATS};
use kw_world::event::{Choice, Event};
use std::alloc::Global;
use std::marker::Model;

/// What there is while a script runs.
#[derive(Drop)]
pub struct Simulator {
    trace: Trace,
    queues: Vec<Queue>,
    text: Vec<u8>,
}

impl Model for Simulator {
    ghost use Rattle.std.specs.Prelude.{◌≡◌, length};
    ghost use Rattle.kw_words.specs.declared.sizes.TheConstants.{SEATS};
    ghost use Rattle.kw_sim.specs.State.{State};

    ghost Value = { State };

    ghost view = { λ s. record { trace = s.trace; queues = s.queues.items; text = s.text.items } };

    ghost invariant = { λ s. (s.trace.opening.seats ≡ SEATS) × (length s.queues.items ≡ SEATS) };
}

impl Simulator {
    /// No line is run yet. There are 1 to `MOST_ROWS` rows.
    pub fn open(alloc: Global, rows: u32) -> Result<Simulator, Memory>
        requires some { 1 ≤ rows }
        requires few { rows ≤ MOST_ROWS }
        ensures { IfOk result (λ simulator. simulator ≡ first_state rows) }
    {
        let trace = Trace::open(alloc, rows, SEAT_COUNT, 1, 1)?;
        let mut queues = Vec::new(alloc);
        for _seat in 0..SEATS {
            queues.push(Queue::new(alloc))?;
        }
        Ok(Simulator {
            trace,
            queues,
            text: Vec::new(alloc),
        })
    }

    /// What was printed, and the order of the calls as its last line.
    pub fn into_output(self, alloc: Global) -> Result<Vec<u8>, Memory>
        ensures { IfOk result (λ bytes. IsOutputAt self bytes.items) }
    {
        let names = order(alloc, &self.trace)?;
        let mut text = self.text;
        push_order(&mut text, &judged(alloc, &names)?)?;
        Ok(text)
    }

    /// The record of the calls so far; none where it has more calls than a record may have.
    pub fn to_record(&self, alloc: Global) -> Result<Option<Vec<u8>>, Memory>
        requires { length self.now.trace.events ≤ MOST_POSITION }
        ensures { IfOk result (λ text. MatchOption text (IsTooMany self.now.trace) (λ bytes.
            IsRecordAt self.now.trace bytes.items)) }
    {
        record_of(alloc, &self.trace)
    }

    /// Runs one line. Without memory a part of it may have been run and printed.
    pub fn run(&mut self, command: Command) -> Result<(), Memory>
        requires command { IsCommand self.old.trace.opening.rows command }
        requires room { length self.old.trace.events + MOST_STEPS ≤ MOST_CALLS }
        ensures { OnOk result (self.new ≡ after_command command self.old) }
    {
        match command {
            Command::Call(seat, call) => self.queue(seat, call, 1),
            Command::Puts {
                seat,
                count,
                key,
                value,
            } => self.queue(seat, Call::Put(key, value), count),
            Command::Go { seat, count } => self.go(seat, count),
            Command::Until { seat, kind } => self.until(seat, kind),
            Command::Guess { seat, row } => self.event(seat, Choice::Guess(row)),
            Command::Stop { seat } => self.event(seat, Choice::Stop),
        }
    }

    /// Puts a call at the end of what a seat is to make, so many times.
    fn queue(&mut self, seat: u32, call: Call, count: u32) -> Result<(), Memory>
        requires seat { seat < SEATS }
        requires some { 1 ≤ count }
        requires fits { FitsCall call }
        ensures { OnOk result (self.new ≡ queued seat (replicate count call) self.old) }
    {
        let queue = &mut self.queues[seat as usize];
        queue.push(call, count)
    }

    /// Makes so many steps of a seat, or fewer where it has nothing to do.
    fn go(&mut self, seat: u32, count: u32) -> Result<(), Memory>
        requires seat { seat < SEATS }
        requires room { length self.old.trace.events + count ≤ MOST_CALLS }
        ensures { OnOk result (self.new ≡ go count seat self.old) }
    {
        for _step in 0..count {
            let made = self.step(seat)?;
            if made.is_none() {
                return Ok(());
            }
        }
        Ok(())
    }

    /// Makes steps of a seat until one was of the kind, and says so where none was.
    fn until(&mut self, seat: u32, kind: Kind) -> Result<(), Memory>
        requires seat { seat < SEATS }
        requires room { length self.old.trace.events + MOST_STEPS ≤ MOST_CALLS }
        ensures { OnOk result (self.new ≡ until MOST_STEPS kind seat self.old) }
    {
        if self.sees(seat, kind)? {
            return Ok(());
        }
        push_missed(&mut self.text)
    }

    /// Makes steps of a seat until one was of the kind, and tells whether one was.
    fn sees(&mut self, seat: u32, kind: Kind) -> Result<bool, Memory>
        requires seat { seat < SEATS }
        requires room { length self.old.trace.events + MOST_STEPS ≤ MOST_CALLS }
        ensures { IfOk result (λ saw. until MOST_STEPS kind seat self.old
            ≡ (if saw then self.new else missed self.new)) }
    {
        for _step in 0..MOST_STEPS {
            let made = self.step(seat)?;
            if is_kind(kind, made) {
                return Ok(true);
            }
            if made.is_none() {
                return Ok(false);
            }
        }
        Ok(false)
    }

    /// Makes one step of a seat, and gives the kind of its event; none where it had nothing to do.
    fn step(&mut self, seat: u32) -> Result<Option<Kind>, Memory>
        requires seat { seat < SEATS }
        requires room { length self.old.trace.events < MOST_CALLS }
        ensures kind { IfOk result (λ kind. kind ≡ kind_at (next_event seat self.old) self.old) }
        ensures state { OnOk result (self.new ≡ seat_step seat self.old) }
    {
        let choice = self.next_choice(seat);
        let kind = self.kind_of(seat, choice);
        self.event(seat, choice)?;
        Ok(kind)
    }

    /// What a seat chooses next. A call that it is to begin is taken from those that it is still to
    /// make.
    fn next_choice(&mut self, seat: u32) -> Choice
        requires { seat < SEATS }
        ensures choice { result ≡ next_choice (is_idle seat self.old) (queue_of seat self.old) }
        ensures state { self.new ≡ taken (is_idle seat self.old) (queue_of seat self.old) seat
            self.old }
        ensures fits { FitsChoice result }
    {
        if !self.is_idle(seat) {
            return Choice::Go;
        }
        match self.take_call(seat) {
            Some(call) => Choice::Begin(call),
            None => Choice::Go,
        }
    }

    /// Takes the first call away that a seat is still to make, if there is one.
    fn take_call(&mut self, seat: u32) -> Option<Call>
        requires { seat < SEATS }
        ensures none { IfNone result (queue_of seat self.old ≡ []) }
        ensures first { IfSome result (λ call. queue_of seat self.old ≡ call ∷ queue_of seat
            self.new) }
        ensures state { self.new ≡ taken true (queue_of seat self.old) seat self.old }
        ensures fits { IfSome result (λ call. FitsCall call) }
    {
        let queue = &mut self.queues[seat as usize];
        queue.pop()
    }

    /// Whether a seat makes no call.
    fn is_idle(&self, seat: u32) -> bool
        requires { seat < SEATS }
        ensures { result ≡ is_idle seat self.now }
    {
        let local = self.trace.world().local(seat);
        local.activity.skips(Choice::Go)
    }

    /// The kind of an event of a seat, before it is made; none where it would be skipped.
    fn kind_of(&self, seat: u32, choice: Choice) -> Option<Kind>
        requires { seat < SEATS }
        ensures { result ≡ kind_at (event seat choice) self.now }
    {
        kind_of(self.trace.world(), Event { seat, choice })
    }

    /// Makes one event of a seat, and prints the line of a call that ends with it. One that is
    /// skipped leaves all as it was.
    fn event(&mut self, seat: u32, choice: Choice) -> Result<(), Memory>
        requires seat { seat < SEATS }
        requires fits { FitsChoice choice }
        requires room { length self.old.trace.events < MOST_CALLS }
        ensures { OnOk result (self.new ≡ after_event (event seat choice) self.old) }
    {
        let local = self.trace.world().local(seat);
        let number = local.number;
        let call = local.call.unwrap_or(Call::Get(0));
        let done = self.trace.push(Event { seat, choice })?;
        push_done(&mut self.text, seat, number, &call, &done)
    }
}

/// Whether an event of this kind was made.
fn is_kind(kind: Kind, made: Option<Kind>) -> bool
    ensures { result ≡ is_kind kind made }
{
    match made {
        Some(made) => made as u32 == kind as u32,
        None => false,
    }
}
