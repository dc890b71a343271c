//! The top call: words in, and connections served until each seat has served its own.
//!
//! Everything that the program promises is a clause of [`kiwid_run`]. It is generic in the binder,
//! so the same clauses hold over TCP, of whose bytes nothing is known, and over links in memory,
//! whose bytes the clauses name.
ghost use Rattle.std.specs.Prelude.{◌≡◌, ◌≤◌, ◌<◌, [], length, All, IfOk, MatchOption, slice_index_or, vec_len};
ghost use Rattle.kw_world.specs.Opening.{IsOpening};
ghost use Rattle.kw_world.specs.Sizes.{product};
ghost use Rattle.kiwid.specs.Links.{IsNew};
ghost use Rattle.kiwid.specs.Server.{EndsRun, HasServed, status_code};
ghost use Rattle.kiwid.specs.Words.{asked_by};

use crate::binding::{BindEnd, Binder};
use crate::links::Listener;
use crate::serving::{Served, seated, serve};
use crate::words::read_words;
use kw_command::word::Word;
use kw_map::kiwi::Kiwi;
use kw_model::memory::Memory;
use std::alloc::Global;
use std::sync::Wait;
use std::thread::Threads;

/// How many rows the table of the map has.
pub const ROWS: u32 = 16_384;

/// How a run of the program ended.
#[derive(Clone, Copy, Debug, PartialEq, Eq)]
pub enum Status {
    /// Each seat has served as many connections as were asked for, whatever their ends.
    Done = 0,
    /// The words are bad. Nothing was bound.
    BadWords = 2,
    /// The port was not bound, or a seat served fewer connections, since its listener failed.
    Failed = 4,
    /// Memory was wanted and not found.
    OutOfMemory = 6,
}

impl Status {
    /// The status with which the process ends.
    pub fn code(self) -> u8
        ensures { result ≡ status_code self }
    {
        self as u8
    }
}

/// The end of a run: its status, and what the seats handed back, where they did.
#[derive(Drop)]
pub struct KiwidEnd<L> {
    pub status: Status,
    pub served: Vec<Served<L>>,
}

impl<L: Drop> KiwidEnd<L> {
    /// An end with this status, after which no seat hands anything back.
    fn without_seats(alloc: Global, status: Status) -> KiwidEnd<L>
        ensures status { result.status ≡ status }
        ensures served { result.served.items ≡ [] }
    {
        KiwidEnd {
            status,
            served: Vec::new(alloc),
        }
    }
}

/// Serves connections of the port that the words name, on one empty map, by as many seats beside
/// each other as they say.
///
/// Each status has its cause. Want of memory may end the run at any place, after which nothing is
/// handed back. A session may come to wait for its client and for other sessions, so all that is
/// said here is said of a run that ends.
pub fn kiwid_run<R: Threads + Wait + Sync, B: Binder>(
    rt: &R,
    alloc: Global,
    words: &[Word],
    binder: &mut B,
) -> KiwidEnd<B::Bound>
    ensures ends { EndsRun B.Bound.state (B.faults binder.old) (B.faults binder.new)
        (asked_by words.now) result.status result.served.items }
    ensures unbound { result.status ≡ Status.BadWords → binder.new ≡ binder.old }
    ensures never_falls { B.faults binder.old ≤ B.faults binder.new }
{
    let Some(asked) = read_words(words) else {
        return KiwidEnd::without_seats(alloc, Status::BadWords);
    };
    let bound = match binder.bind(asked.port as u16, asked.seats) {
        Ok(bound) => bound,
        Err(BindEnd::Failed) => return KiwidEnd::without_seats(alloc, Status::Failed),
        Err(BindEnd::Memory) => return KiwidEnd::without_seats(alloc, Status::OutOfMemory),
    };
    let Ok(served) = serve_bound(rt, alloc, bound, asked.seats, asked.sessions) else {
        return KiwidEnd::without_seats(alloc, Status::OutOfMemory);
    };
    let status = match short_seat(&served, asked.sessions) {
        Some(_) => Status::Failed,
        None => Status::Done,
    };
    KiwidEnd { status, served }
}

/// Serves connections by a seat for each of these listeners, of which nothing was asked before, on
/// a new map. The only error is the want of memory.
fn serve_bound<R: Threads + Wait + Sync, L: Listener + Send + Drop>(
    rt: &R,
    alloc: Global,
    bound: Vec<L>,
    seats: u32,
    sessions: u32,
) -> Result<Vec<Served<L>>, Memory>
    requires opens { IsOpening product
        (record { rows = ROWS; seats = seats; clock = 1; epoch = 1 }) }
    requires len { vec_len bound ≡ seats }
    requires new { All (λ listener. IsNew (L.state listener)) bound.items }
    ensures { IfOk result (λ served. HasServed L.state seats sessions served.items) }
{
    let (kiwi, passes) = Kiwi::open(alloc, ROWS, seats)?;
    let seats = seated(alloc, passes, bound)?;
    serve(rt, alloc, &kiwi, seats, sessions)
}

/// The index of the first seat that served fewer connections than so many, if there is one.
fn short_seat<L>(served: &[Served<L>], sessions: u32) -> Option<usize>
    ensures { MatchOption result
        (All (λ done. sessions ≤ length done.ends) served.now)
        (λ at. (at < length served.now)
        × ((d : _) → length (slice_index_or served.now at d).ends < sessions)) }
{
    for at in 0..served.len() {
        let done = &served[at];
        if done.ends.list().len() < sessions as usize {
            return Some(at);
        }
    }
    None
}
