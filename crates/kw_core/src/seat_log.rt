//! What a seat did last, as far as the history asks for it.
//!
//! A `SeatLog` is not what a seat knows: no event depends on it. It says which call of the history
//! the seat makes, which attempt is its put's, and at which positions it did what. `Remark` is what
//! one event adds to it.
ghost use Rattle.std.specs.Prelude.{◌≡◌, ◌==◌, if◌then◌else◌, ◌<◌, ◌≤◌, ◌+◌, ◌*◌, length};
ghost use Rattle.kw_words.specs.declared.sizes.TheConstants.{CELLS};
ghost use Rattle.kw_words.specs.declared.scan.ScanWord.TheVariants.{Waiting};
ghost use Rattle.kw_words.specs.Scan.{scan_word};
ghost use Rattle.kw_world.specs.Sizes.{product};
ghost use Rattle.kw_world.specs.Sane.{IsLocal};
ghost use Rattle.kw_core.specs.Run.{is_at_cell, log_read, no_log, index_gathered};
ghost use Rattle.kw_core.specs.Recording.{origin_in};
ghost use Rattle.kw_core.specs.Remarks.{remark_of, remarked, HasRoomFor};

use crate::change::{Happening, origin_at};
use crate::history::History;
use kw_cells::cell::Cell;
use kw_cells::short_list::ShortList;
use kw_step_put::resume_put::room;
use kw_words::plain::unpack_value;
use kw_words::scan::ScanWord;
use kw_words::sizes::CELLS;
use kw_world::activity::Activity;
use kw_world::activity::draw::Draw;
use kw_world::activity::look::Look;
use kw_world::activity::put::Put;
use kw_world::activity::read::Read;
use kw_world::activity::rebalance::Rebalance;
use kw_world::activity::rebalance::engage::Engage;
use kw_world::activity::rebalance::freeze::Freeze;
use kw_world::event::Choice;
use kw_world::local::Local;

/// What a seat did last.
///
/// `call` is the place of its call in the history and `own` the attempt of its put; `looked`,
/// `loaded` and `drawn` are the positions at which it looked at the first entry of a row, loaded
/// the clock, and drew a version, for its own scan or for one that it helps. `ids` are the attempts
/// of the cells that it has gathered, by their places in the history and in the order of their
/// cells, and `read` is the row that it has read, once it has come to the end of its cells.
#[derive(Debug, Drop)]
pub struct SeatLog {
    pub call: usize,
    pub own: usize,
    pub looked: u64,
    pub loaded: u64,
    pub drawn: u64,
    pub ids: ShortList<usize, CELLS>,
    pub read: Option<u32>,
}

/// What an event adds to the log of its seat.
#[derive(Clone, Copy, Debug, PartialEq, Eq)]
pub enum Remark {
    /// Nothing.
    Same,
    /// A call begins, with this place in the history.
    BeginsCall(usize),
    /// The first entry of a row is looked at, at this position.
    LooksFirst(u64),
    /// The clock is loaded, at this position.
    LoadsClock(u64),
    /// The version is drawn, or was drawn by another seat, at this position.
    DrawsVersion(u64),
    /// The row is read, unless the seat goes on to one of its cells.
    ReadsRow(u32),
    /// A cell of the row's list is gathered, which was given to this attempt, at this place among
    /// those that were.
    GathersListed(usize, usize),
    /// A remembered cell is gathered, which was given to this attempt, at this place; then the row
    /// is read, unless the seat goes on to one of its cells.
    GathersLeftOver(usize, usize, u32),
    /// The seat is given a cell, as this attempt.
    GetsCell(usize),
}

impl SeatLog {
    /// The log of a seat that did nothing.
    pub fn new() -> SeatLog
        ensures { result ≡ no_log }
    {
        SeatLog {
            call: 0,
            own: 0,
            looked: 0,
            loaded: 0,
            drawn: 0,
            ids: ShortList::new(),
            read: None,
        }
    }

    /// Adds what an event adds after which the seat goes on to the activity `next`.
    pub fn note(&mut self, remark: Remark, next: &Activity)
        requires { HasRoomFor CELLS remark self.old }
        ensures { self.new ≡ remarked remark next.now self.old }
    {
        match remark {
            Remark::Same => {}
            Remark::BeginsCall(call) => {
                self.call = call;
                self.own = 0;
                self.ids.clear();
                self.read = None;
            }
            Remark::LooksFirst(at) => {
                self.looked = at;
                self.ids.clear();
                self.read = None;
            }
            Remark::LoadsClock(at) => self.loaded = at,
            Remark::DrawsVersion(at) => self.drawn = at,
            Remark::ReadsRow(row) => self.note_read(row, next),
            Remark::GathersListed(attempt, at) => self.ids.insert(at, attempt),
            Remark::GathersLeftOver(attempt, at, row) => {
                self.ids.insert(at, attempt);
                self.note_read(row, next);
            }
            Remark::GetsCell(attempt) => self.own = attempt,
        }
    }

    // The row is read, unless the seat goes on to one of its cells.
    fn note_read(&mut self, row: u32, next: &Activity)
        ensures { self.new ≡ log_read next.now row self.old }
    {
        if !is_at_cell(next) {
            self.read = Some(row);
        }
    }
}

impl Remark {
    /// What the event adds that is made by a seat that knows `local`, with what came before it. The
    /// version in the word of the seat's scan, if one stands there, was drawn at `settled`.
    pub fn of(
        local: &Local,
        happening: Happening,
        origins: &[Option<usize>],
        history: &History,
        settled: u64,
    ) -> Remark
        requires ranges { IsLocal product local.now }
        requires origins { local.now.row * CELLS + CELLS ≤ length origins.now }
        ensures { result ≡ remark_of product local.now.activity happening.choice local.now
            happening.found (origin_in product origins.now) history.now settled }
    {
        match &local.activity {
            Activity::Idle => match happening.choice {
                Choice::Begin(_) => Remark::BeginsCall(history.calls().len()),
                _ => Remark::Same,
            },
            Activity::Look(Look::Entry(0)) => Remark::LooksFirst(history.now()),
            Activity::Draw(Draw::Clock)
            | Activity::Look(Look::Clock)
            | Activity::Put(Put::Clock)
            | Activity::Rebalance(Rebalance::Engage(Engage::Clock)) => {
                Remark::LoadsClock(history.now())
            }
            Activity::Draw(Draw::Settle) => tries_to_settle(local, happening.found, settled),
            Activity::Draw(Draw::Version)
            | Activity::Rebalance(Rebalance::Freeze(Freeze::Draw(_))) => {
                Remark::DrawsVersion(history.now())
            }
            Activity::Read(Read::Start)
            | Activity::Read(Read::Link)
            | Activity::Read(Read::Key)
            | Activity::Read(Read::LeftOverKey) => { Remark::ReadsRow(local.row) }
            Activity::Read(Read::Value) => {
                let attempt = origin_at(origins, local.row, local.place).unwrap_or(0);
                Remark::GathersListed(attempt, index_gathered(local, happening.found))
            }
            Activity::Read(Read::LeftOverValue) => {
                let attempt = origin_at(origins, local.row, local.place).unwrap_or(0);
                let at = index_gathered(local, happening.found);
                Remark::GathersLeftOver(attempt, at, local.row)
            }
            Activity::Put(Put::Add) if room(happening.found).is_some() => {
                Remark::GetsCell(history.attempts().len())
            }
            _ => Remark::Same,
        }
    }
}

/// A scan tries to settle: another seat that helped it has drawn its version, if it waits no more.
fn tries_to_settle(local: &Local, found: u64, settled: u64) -> Remark
    requires { IsLocal product local.now }
    ensures { result ≡ (if found == scan_word (Waiting local.now.waiting) then Remark.Same
        else Remark.DrawsVersion settled) }
{
    if found == ScanWord::Waiting(local.waiting).pack() {
        Remark::Same
    } else {
        Remark::DrawsVersion(settled)
    }
}

/// Whether a seat that goes on to this activity reads the cells of its row.
fn is_at_cell(next: &Activity) -> bool
    ensures { result ≡ is_at_cell next.now }
{
    match next {
        Activity::Read(_) => true,
        _ => false,
    }
}

/// The place among the gathered cells at which the cell in hand is put, where its value is this
/// word.
fn index_gathered(local: &Local, found: u64) -> usize
    ensures { result ≡ index_gathered local.now found }
{
    let cell = Cell {
        key: local.place_key,
        place: local.place,
        version: local.place_version,
        value: unpack_value(found),
    };
    local.gathered.index_of(&cell)
}
