//! What an event adds to the history, known before it is made.
//!
//! The event is told by what its seat knows, by what the seat did last, and by the word that it
//! finds; the history itself is not asked. There is one function for each activity that adds
//! something.
ghost use Rattle.std.specs.Prelude.{◌≡◌, ◌==◌, ◌<◌, ◌≤◌, ◌+◌, ◌*◌, Some, None, IfOk, length, slice_get, if◌then◌else◌};
ghost use Rattle.kw_words.specs.declared.sizes.TheConstants.{CELLS};
ghost use Rattle.kw_words.specs.Count.{count_of};
ghost use Rattle.kw_words.specs.Pend.{pend_word};
ghost use Rattle.kw_words.specs.declared.pend.Pend.TheVariants as pend;
ghost use Rattle.kw_world.specs.declared.local.Local.{Local};
ghost use Rattle.kw_world.specs.Sizes.{product};
ghost use Rattle.kw_world.specs.Calls.{first_key, put_value};
ghost use Rattle.kw_world.specs.PutTransitions.{has_room, given_of};
ghost use Rattle.kw_world.specs.Answers.{reply_of};
ghost use Rattle.kw_world.specs.Sane.{IsLocal, IsCall, IsVersion, CanBegin, CanBeginAt, IsSane};
ghost use Rattle.kw_world.specs.SeekTransitions.{infant};
ghost use Rattle.kw_world.specs.WriteTransitions.{infant_cells};
ghost use Rattle.kw_core.specs.Run.{copied, copied_cell, change_of, beginning, helping, freezing, losing, settled_scan, settling, answering, drawing, best_id, id_at};
ghost use Rattle.kw_core.specs.Recording.{origin_in};
ghost use Rattle.kw_core.specs.Happenings.{happening_at, logged_of};

use crate::history::{Change, Drawn, Logged};
use crate::seat_log::SeatLog;
use crate::step::operation;
use kw_cells::cell::{Cell, best};
use kw_model::call::Call;
use kw_model::memory::Memory;
use kw_step_put::resume_put::room;
use kw_step_rebal::infant::{infant, infant_cells};
use kw_words::kind::Kind;
use kw_words::layout::{Layout, Name};
use kw_words::pend::Pend;
use kw_words::scan::ScanWord;
use kw_words::sizes::{CELLS, SEATS};
use kw_world::activity::Activity;
use kw_world::activity::draw::Draw;
use kw_world::activity::look::Look;
use kw_world::activity::put::Put;
use kw_world::activity::rebalance::Rebalance;
use kw_world::activity::rebalance::freeze::Freeze;
use kw_world::activity::rebalance::write::Write;
use kw_world::answer::Answer;
use kw_world::calls::{first_key, put_value};
use kw_world::event::{Choice, Event};
use kw_world::group::{cell_at, row_at};
use kw_world::limits::NEWEST;
use kw_world::local::Local;
use kw_world::world::World;

/// An event that is about to be made: who acts, how, and what it finds.
#[derive(Clone, Copy, Debug, PartialEq, Eq)]
pub struct Happening {
    /// The seat that acts.
    pub seat: u32,
    /// What it chooses, of what is offered.
    pub choice: Choice,
    /// The word that it finds.
    pub found: u64,
    /// What the event is for.
    pub kind: Kind,
    /// The clock just before it.
    pub clock: u64,
}

impl Happening {
    /// The event that a seat of the world is about to make.
    pub fn of(world: &World, event: Event) -> Happening
        requires sane { IsSane product world.now }
        requires seat { event.seat < length world.now.locals }
        ensures { (l : Local) → slice_get world.now.locals event.seat ≡ Some l →
            result ≡ happening_at product world.now event l }
    {
        let choice = event.choice.offered(world.rows());
        let operation = operation(event.seat, world.local(event.seat), choice);
        let place = Layout::<SEATS, CELLS>::place(world.rows(), operation.name);
        let clock = Layout::<SEATS, CELLS>::place(world.rows(), Name::Clock);
        Happening {
            seat: event.seat,
            choice,
            found: world.word(place),
            kind: operation.kind,
            clock: world.word(clock),
        }
    }

    /// The entry for the log.
    pub fn logged(self) -> Logged
        ensures { result ≡ logged_of self }
    {
        Logged {
            clock: self.clock,
            seat: self.seat,
            kind: self.kind,
        }
    }
}

/// A scan that an event settles.
#[derive(Clone, Copy, Debug, PartialEq, Eq)]
pub struct Settled {
    /// Whose scan it is.
    pub seat: u32,
    /// The position of the draw of its version.
    pub at: u64,
}

/// The scan that the event settles which is made by a seat that knows `local` and whose log is
/// `log`: its own, or one that it helps. None if the scan does not wait any more.
pub fn settled_scan(local: &Local, happening: Happening, log: &SeatLog) -> Option<Settled>
    requires { IsLocal product local.now }
    ensures { result ≡ settled_scan local.now.activity happening.seat local.now happening.found
        log.now }
{
    match local.activity {
        Activity::Draw(Draw::Settle) => settling(
            happening.seat,
            local.waiting,
            happening.found,
            log,
        ),
        Activity::Rebalance(Rebalance::Freeze(Freeze::Settle(seat))) => {
            settling(seat, local.rebalance.waiting, happening.found, log)
        }
        _ => None,
    }
}

/// The scan of a seat is settled, if it still waits since this clock.
fn settling(seat: u32, clock: u64, found: u64, log: &SeatLog) -> Option<Settled>
    requires { IsVersion clock }
    ensures { result ≡ settling seat clock found log.now }
{
    if found == ScanWord::Waiting(clock).pack() {
        Some(Settled {
            seat,
            at: log.drawn,
        })
    } else {
        None
    }
}

/// A cell that an event writes, and the attempt for which it stands from there on: that of the cell
/// of which it is a copy, or none.
#[derive(Clone, Copy, Debug, PartialEq, Eq)]
pub struct Copied {
    /// The row that is built.
    pub row: u32,
    /// Its cell.
    pub cell: u32,
    /// The attempt.
    pub attempt: Option<usize>,
}

/// The cell whose origin the event sets that is made by a seat that knows `local`: the one whose
/// version it writes.
pub fn copied_cell(local: &Local, origins: &[Option<usize>]) -> Option<Copied>
    requires { IsLocal product local.now }
    ensures { result ≡ copied_cell product local.now.activity local.now (origin_in product origins.now) }
{
    match local.activity {
        Activity::Rebalance(Rebalance::Write(Write::Version(cell))) => Some(Copied {
            row: infant(local),
            cell,
            attempt: attempt_copied(local, cell, origins),
        }),
        _ => None,
    }
}

/// The attempt of the kept cell that is written at this place, or none where the row has no cell
/// for it.
fn attempt_copied(local: &Local, cell: u32, origins: &[Option<usize>]) -> Option<usize>
    requires { IsLocal product local.now }
    ensures { result ≡ copied product (origin_in product origins.now) local.now
        (slice_get (infant_cells local.now) cell) }
{
    match cell_in(infant_cells(local), cell) {
        Some(kept) => {
            let row = row_at(local, kept.place);
            origin_or_none(origins, row, cell_at(kept.place))
        }
        None => None,
    }
}

/// The cell at a place, if there is one.
fn cell_in(cells: &[Cell], place: u32) -> Option<Cell>
    ensures { result ≡ slice_get cells.now place }
{
    cells.get(place as usize).copied()
}

/// The attempt to which a cell was given, or none where there is no such cell.
fn origin_or_none(origins: &[Option<usize>], row: u32, cell: u32) -> Option<usize>
    ensures { result ≡ origin_in product origins.now row cell }
{
    match origins.get(row as usize * CELLS + cell as usize) {
        Some(origin) => *origin,
        None => None,
    }
}

/// What the event adds that is made by a seat that knows `local` and whose log is `log`. `origins`
/// has the attempt to which each cell was given, row by row. Only the reply of a call that ends
/// takes memory.
pub fn change_of(
    local: &Local,
    happening: Happening,
    log: &SeatLog,
    origins: &[Option<usize>],
) -> Result<Change, Memory>
    requires ranges { IsLocal product local.now }
    requires begin { CanBegin happening.choice local.now }
    requires origins { local.now.row * CELLS + CELLS ≤ length origins.now }
    ensures { IfOk result (λ change. change ≡ change_of product local.now.activity happening.seat
        happening.choice local.now happening.found log.now (origin_in product origins.now)) }
{
    Ok(match local.activity {
        Activity::Idle => beginning(happening, local),
        Activity::Look(Look::Help) => helping(local, happening.found, log, origins),
        Activity::Put(Put::Add) => adding(local, happening, log),
        Activity::Put(Put::Announce) => announcing(happening.found, log),
        Activity::Put(Put::Stamp) => stamping(local, happening.found, log),
        Activity::Leave(answer) => ending(local, answer, log)?,
        Activity::Rebalance(Rebalance::Freeze(Freeze::Entry(_))) => freezing(
            local,
            happening.found,
            origins,
        ),
        _ => Change::Nothing,
    })
}

/// The attempt to which a cell was given.
pub fn origin_at(origins: &[Option<usize>], row: u32, cell: u32) -> Option<usize>
    requires row { row * CELLS + CELLS ≤ length origins.now }
    requires cell { cell < CELLS }
    ensures { result ≡ origin_in product origins.now row cell }
{
    origins[row as usize * CELLS + cell as usize]
}

/// An idle seat begins a call.
fn beginning(happening: Happening, local: &Local) -> Change
    requires { CanBeginAt Activity.Idle happening.choice local.now }
    ensures { result ≡ beginning happening.choice happening.seat local.now }
{
    match happening.choice {
        Choice::Begin(call) => Change::Begins {
            seat: happening.seat,
            number: local.number + 1,
            call,
        },
        _ => Change::Nothing,
    }
}

/// A reader helps the put whose cell it saw pending.
fn helping(local: &Local, found: u64, log: &SeatLog, origins: &[Option<usize>]) -> Change
    requires ranges { IsLocal product local.now }
    requires origins { local.now.row * CELLS + CELLS ≤ length origins.now }
    ensures { result ≡ (if found == pend_word (pend.Pending local.now.saw)
        then helping (origin_in product origins.now local.now.row local.now.saw) local.now.helping
        log.now.loaded else Change.Nothing) }
{
    if found != Pend::Pending(local.saw).pack() {
        return Change::Nothing;
    }
    match origin_at(origins, local.row, local.saw) {
        Some(attempt) => Change::Stamps {
            attempt,
            version: local.helping,
            load: log.loaded,
        },
        None => Change::Nothing,
    }
}

/// A rebalance freezes an entry: a put whose cell was pending there loses its attempt.
fn freezing(local: &Local, found: u64, origins: &[Option<usize>]) -> Change
    requires { IsLocal product local.now }
    ensures { result ≡ (if found == pend_word local.now.rebalance.entry
        then freezing local.now.rebalance.entry local.now.rebalance.hand (origin_in product origins.now)
        else Change.Nothing) }
{
    if found != local.rebalance.entry.pack() {
        return Change::Nothing;
    }
    match local.rebalance.entry {
        Pend::Pending(cell) => losing(origin_or_none(origins, local.rebalance.hand, cell)),
        _ => Change::Nothing,
    }
}

/// The attempt to which a cell was given is lost.
fn losing(origin: Option<usize>) -> Change
    ensures { result ≡ losing origin }
{
    match origin {
        Some(attempt) => Change::Loses(attempt),
        None => Change::Nothing,
    }
}

/// A put or a delete asks its row for a cell.
fn adding(local: &Local, happening: Happening, log: &SeatLog) -> Change
    requires { IsLocal product local.now }
    ensures { result ≡ (if has_room product (count_of happening.found) then Change.Adds log.now.call
        happening.seat (first_key local.now.call) (put_value local.now.call) local.now.row
        (given_of (count_of happening.found)) else Change.Nothing) }
{
    match room(happening.found) {
        Some(cell) => Change::Adds {
            call: log.call,
            seat: happening.seat,
            key: first_key(local.call),
            value: put_value(local.call),
            row: local.row,
            cell,
        },
        None => Change::Nothing,
    }
}

/// A put or a delete announces its cell.
fn announcing(found: u64, log: &SeatLog) -> Change
    ensures { result ≡ (if found == pend_word pend.Idle then Change.Announces log.now.own
        else Change.Nothing) }
{
    if found == Pend::Idle.pack() {
        Change::Announces(log.own)
    } else {
        Change::Nothing
    }
}

/// A put or a delete stamps its cell.
fn stamping(local: &Local, found: u64, log: &SeatLog) -> Change
    requires { IsLocal product local.now }
    ensures { result ≡ (if found == pend_word (pend.Pending local.now.cell)
        then Change.Stamps log.now.own local.now.version log.now.loaded else Change.Nothing) }
{
    if found == Pend::Pending(local.cell).pack() {
        Change::Stamps {
            attempt: log.own,
            version: local.version,
            load: log.loaded,
        }
    } else {
        Change::Nothing
    }
}

/// A call ends with this answer.
fn ending(local: &Local, answer: Answer, log: &SeatLog) -> Result<Change, Memory>
    ensures { IfOk result (λ change. change ≡ Change.Ends log.now.call
        (reply_of answer local.now.pairs) (answering local.now.call local.now log.now)
        (drawing answer local.now log.now)) }
{
    let pairs = local.pairs.clone()?;
    Ok(Change::Ends {
        call: log.call,
        reply: answer.reply(pairs),
        answer: answering(local, log),
        draw: drawing(local, answer, log),
    })
}

/// The attempt whose value a get answers.
fn answering(local: &Local, log: &SeatLog) -> Option<usize>
    ensures { result ≡ answering local.now.call local.now log.now }
{
    match local.call {
        Some(Call::Get(key)) => best_id(local.gathered.as_slice(), log.ids.as_slice(), key),
        _ => None,
    }
}

/// Where a scan that ends with pairs drew its version.
fn drawing(local: &Local, answer: Answer, log: &SeatLog) -> Option<Drawn>
    ensures { result ≡ drawing answer local.now log.now }
{
    match answer {
        Answer::Pairs => Some(Drawn {
            at: log.drawn,
            version: local.version,
        }),
        _ => None,
    }
}

/// The attempt beside the newest cell of a key, where `ids` are those beside the cells.
fn best_id(cells: &[Cell], ids: &[usize], key: u32) -> Option<usize>
    ensures { result ≡ best_id cells.now ids.now key NEWEST }
{
    match best(cells, key, NEWEST) {
        Some(cell) => id_at(cell.place, cells, ids),
        None => None,
    }
}

/// The attempt beside the first cell of this place.
fn id_at(place: u32, cells: &[Cell], ids: &[usize]) -> Option<usize>
    ensures { result ≡ id_at place cells.now ids.now }
{
    for (i, cell) in cells.iter().enumerate() {
        if cell.place == place {
            return ids.get(i).copied();
        }
    }
    None
}
