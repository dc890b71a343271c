//! The record of a world's events, kept while they are made.
//!
//! A `Recorder` holds the history of the events so far and, beside it, what is needed to say what
//! the next event adds to it: what each seat did last, where the version in each seat's scan was
//! drawn, and to which attempt each cell was given, or of which one it is a copy. `step_recorded`
//! makes an event and notes it. What an event adds is settled before it is made, as `Entry`, for
//! the seat forgets what it knew; all memory is taken then, so that an event that was made is
//! always noted, and one that was not made leaves no trace.
ghost use Rattle.std.specs.Prelude.{◌≡◌, ◌<◌, ◌≤◌, ◌+◌, ◌*◌, None, IfOk, OnOk, OnErr, length, replicate};
ghost use Rattle.kw_words.specs.declared.sizes.TheConstants.{CELLS, SEATS};
ghost use Rattle.kw_world.specs.Sizes.{product};
ghost use Rattle.kw_world.specs.Sane.{IsLocal, CanBegin, IsSane, CanStep};
ghost use Rattle.kw_world.specs.Step.{step, stepped};
ghost use Rattle.kw_core.specs.declared.history.Logged.{Logged};
ghost use Rattle.kw_core.specs.Appended.{appended};
ghost use Rattle.kw_core.specs.Run.{Run, goes_on};
ghost use Rattle.kw_reads.specs.Inv.{Inv};
ghost use Rattle.kw_core.specs.Recording.{Recording};
ghost use Rattle.kw_laws.specs.Recorder.{Records, CanSettle, IsScanBelow, draws_with, IsCopyIn, copies_with, opening_record, entry_of, settled_by, logged_of};

use kw_core::change::{Copied, Happening, Settled, change_of, copied_cell, settled_scan};
use kw_core::history::{Change, History, Logged};
use kw_core::seat_log::{Remark, SeatLog};
use kw_core::step::step;
use kw_model::memory::Memory;
use kw_words::sizes::{CELLS, SEATS};
use kw_world::activity::Activity;
use kw_world::event::{Event, StepDone};
use kw_world::local::Local;
use kw_world::world::World;
use std::alloc::Global;
use std::marker::Model;

/// What an event adds to the record, once it is made.
#[derive(Debug, Drop)]
pub struct Entry {
    seat: u32,
    change: Change,
    remark: Remark,
    scan: Option<Settled>,
    copy: Option<Copied>,
}

/// The history of the events so far, what each seat did last, where the version in each seat's scan
/// was drawn, and to which attempt each cell of each row was given, or of which one it is a copy.
#[derive(Drop)]
pub struct Recorder {
    history: History,
    logs: Vec<SeatLog>,
    settled: Vec<u64>,
    origins: Vec<Option<usize>>,
}

impl Model for Recorder {
    ghost use Rattle.kw_core.specs.Recording.{Recording};

    ghost Value = { Recording };

    ghost view = { λ recorder. record {
      history = recorder.history;
      logs = recorder.logs.items;
      settled = recorder.settled.items;
      origins = recorder.origins.items;
    } };
}

impl Recorder {
    /// The record of no events of a world with so many rows and seats.
    pub fn new(alloc: Global, rows: u32, seats: u32) -> Result<Recorder, Memory>
        ensures { IfOk result (λ recorder. recorder ≡ opening_record product rows seats) }
    {
        let mut logs = Vec::new(alloc);
        for _seat in 0..seats {
            logs.push(SeatLog::new())?;
        }
        Ok(Recorder {
            history: History::new(alloc),
            logs,
            settled: no_draws(alloc)?,
            origins: no_origins(alloc, rows as usize * CELLS)?,
        })
    }

    /// The history of the events so far.
    pub fn history(&self) -> &History
        ensures { result.now ≡ self.now.history }
    {
        &self.history
    }

    // What an event adds that is about to be made, of which the history takes what takes memory;
    // `settle` or `forget` follows.
    fn prepare(&mut self, local: &Local, happening: Happening) -> Result<Entry, Memory>
        requires seat { happening.seat < length self.old.logs }
        requires ranges { IsLocal product local.now }
        requires begin { CanBegin happening.choice local.now }
        requires scans { happening.seat < length self.old.settled }
        requires origins { local.now.row * CELLS + CELLS ≤ length self.old.origins }
        ensures entry { IfOk result (λ entry. entry ≡ entry_of product self.old local.now happening) }
        ensures ok { OnOk result (self.new ≡ record self.old {
          history = appended self.old.history
              (logged_of happening) (entry_of product self.old local.now happening).change;
        }) }
        ensures err { OnErr result (self.new ≡ self.old) }
    {
        let log = &self.logs[happening.seat as usize];
        let change = change_of(local, happening, log, &self.origins)?;
        let settled = self.settled[happening.seat as usize];
        let remark = Remark::of(local, happening, &self.origins, &self.history, settled);
        let scan = settled_scan(local, happening, log);
        let copy = copied_cell(local, &self.origins);
        self.history.append(happening.logged(), &change)?;
        Ok(Entry {
            seat: happening.seat,
            change,
            remark,
            scan,
            copy,
        })
    }

    // Notes the event that was prepared: it was made, and its seat goes on to the next activity.
    fn settle(&mut self, entry: Entry, next: &Activity)
        requires { CanSettle product self.old entry }
        ensures { self.new ≡ settled_by product self.old entry next.now }
    {
        if let Change::Adds { row, cell, .. } = &entry.change {
            let attempt = self.history.attempts().len() - 1;
            self.origins[*row as usize * CELLS + *cell as usize] = Some(attempt);
        }
        note_copy(&mut self.origins, entry.copy);
        self.logs[entry.seat as usize].note(entry.remark, next);
        note_draw(&mut self.settled, entry.scan);
        self.history.settle(entry.change);
    }

    // Takes back the event that was prepared: it is not made.
    fn forget(&mut self, entry: Entry)
        ensures { (k : Recording) (e : Logged) → self.old ≡ record k {
          history = appended k.history e entry.change;
        } → self.new ≡ k }
    {
        self.history.forget(&entry.change);
    }
}

/// Makes one event of the world, as `step` does, and notes it in the record of the world.
///
/// The record is that of a run that led to this world from an opening. The world and the record are
/// as they were after `Skipped`, and without memory.
pub fn step_recorded(
    world: &mut World,
    recorder: &mut Recorder,
    event: Event,
) -> Result<StepDone, Memory>
    requires seat { event.seat < length world.old.locals }
    requires begin { CanStep world.old event }
    requires kept { (r : Run) × (r.world ≡ world.old) × Records product recorder.old r
        × Inv product r }
    ensures ok { IfOk result (λ done. stepped world.new done ≡ step product world.old event) }
    ensures recorded { OnOk result ((r : Run) → r.world ≡ world.old →
        Records product recorder.old r → Records product recorder.new (goes_on product r event)) }
    ensures err_world { OnErr result (world.new ≡ world.old) }
    ensures err_recorder { OnErr result (recorder.new ≡ recorder.old) }
{
    let local = world.local(event.seat);
    if local.activity.skips(event.choice) {
        return Ok(StepDone::Skipped);
    }
    let entry = recorder.prepare(local, Happening::of(world, event))?;
    match step(world, event) {
        Ok(done) => {
            recorder.settle(entry, &world.local(event.seat).activity);
            Ok(done)
        }
        Err(error) => {
            recorder.forget(entry);
            Err(error)
        }
    }
}

// Notes where the version of a scan was drawn that is settled.
fn note_draw(draws: &mut Vec<u64>, scan: Option<Settled>)
    requires { IsScanBelow (length draws.old.items) scan }
    ensures { draws.new.items ≡ draws_with scan draws.old.items }
{
    if let Some(scan) = scan {
        draws[scan.seat as usize] = scan.at;
    }
}

// Notes for which attempt a cell stands from here on that is written.
fn note_copy(origins: &mut Vec<Option<usize>>, copy: Option<Copied>)
    requires { IsCopyIn product (length origins.old.items) copy }
    ensures { origins.new.items ≡ copies_with product copy origins.old.items }
{
    if let Some(copy) = copy {
        origins[copy.row as usize * CELLS + copy.cell as usize] = copy.attempt;
    }
}

// Where the versions of the seats' scans were drawn, before any was.
fn no_draws(alloc: Global) -> Result<Vec<u64>, Memory>
    ensures { IfOk result (λ draws. draws.items ≡ replicate SEATS 0) }
{
    let mut draws = Vec::new(alloc);
    for _seat in 0..SEATS {
        draws.push(0)?;
    }
    Ok(draws)
}

// The origins of so many cells, none of which was given.
fn no_origins(alloc: Global, cells: usize) -> Result<Vec<Option<usize>>, Memory>
    ensures { IfOk result (λ origins. origins.items ≡ replicate cells None) }
{
    let mut origins = Vec::new(alloc);
    for _cell in 0..cells {
        origins.push(None)?;
    }
    Ok(origins)
}
