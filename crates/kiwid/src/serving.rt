//! Connections served beside each other, on one map.
//!
//! A seat here is a pass of the map and a listener: it serves the links that its listener hands
//! out, one session after the other, and so many at most. All seats run beside each other, each in
//! a thread. When all have ended, the passes meet, so the calls of all sessions stand in one list
//! of events, and fit one legal order.
ghost use Rattle.std.specs.Prelude.{◌≡◌, ◌≤◌, ◌++◌, ◌∷◌, [], length, map, All, IfOk, OnErr, OnOk, vec_len};
ghost use Rattle.kw_follow.specs.Calling.{calls_in};
ghost use Rattle.kw_map.specs.Kiwi.{IsIdle};
ghost use Rattle.kw_map.specs.Meetings.{AtEach, MeetsAt, front_seen};
ghost use Rattle.kw_table.specs.Passes.{IsPassOf, opening_of};
ghost use Rattle.kiwid.specs.Lines.{StaysIdle};
ghost use Rattle.kiwid.specs.Links.{HandsNone};
ghost use Rattle.kiwid.specs.Seats.{AreParted, passes_of, rests_of};
ghost use Rattle.kiwid.specs.Serving.{HaveMet, IsSeatServed, IsServedNext};

use crate::links::Listener;
use crate::session::{SessionEnd, session};
use kw_io::Failed;
use kw_map::Pass;
use kw_map::kiwi::Kiwi;
use kw_model::memory::Memory;
use std::alloc::Global;
use std::marker::Model;
use std::sync::Wait;
use std::thread;
use std::thread::Threads;

/// Who serves connections one after the other: a pass of the map, and where they come from.
#[derive(Drop)]
pub struct Seat<L> {
    pub pass: Pass,
    pub listener: L,
}

/// What a seat hands back: its pass, its listener, and how each of its sessions ended.
#[derive(Drop)]
pub struct Served<L> {
    pub pass: Pass,
    pub listener: L,
    pub ends: Ends,
}

/// How sessions ended, one after the other. Contracts see the list.
#[derive(Debug, Drop)]
pub struct Ends {
    list: Vec<SessionEnd>,
}

impl Model for Ends {
    ghost use Rattle.std.specs.Prelude.{List};
    ghost use Rattle.kiwid.specs.declared.session.SessionEnd.{SessionEnd};

    ghost Value = { List SessionEnd };

    ghost view = { λ e. e.list.items };
}

impl Ends {
    /// No session has ended yet.
    fn new(alloc: Global) -> Ends
        ensures { result ≡ [] }
    {
        Ends {
            list: Vec::new(alloc),
        }
    }

    /// One more session ended so.
    fn push(&mut self, end: SessionEnd) -> Result<(), Memory>
        ensures { OnOk result (self.new ≡ self.old ++ end ∷ []) }
    {
        self.list.push(end)?;
        Ok(())
    }

    /// The ends, in the order in which the sessions were.
    pub fn list(&self) -> &[SessionEnd]
        ensures { result.now ≡ self.now }
    {
        &self.list
    }
}

/// What a seat hands back beside its pass.
#[derive(Drop)]
struct Rest<L> {
    listener: L,
    ends: Ends,
}

/// A seat for each pass and the listener that stands at its place. The only error is the want of
/// memory.
pub fn seated<L: Drop>(
    alloc: Global,
    passes: Vec<Pass>,
    listeners: Vec<L>,
) -> Result<Vec<Seat<L>>, Memory>
    requires { length listeners.items ≡ length passes.items }
    ensures passes { IfOk result (λ seats. map (λ seat. seat.pass) seats.items ≡ passes.items) }
    ensures listeners { IfOk result (λ seats.
        map (λ seat. seat.listener) seats.items ≡ listeners.items) }
{
    let mut seats = Vec::with_capacity(alloc, passes.len())?;
    let mut left = listeners.into_iter();
    for pass in passes {
        let Some(listener) = left.next() else {
            unreachable!()
        };
        seats.push(Seat { pass, listener })?;
    }
    Ok(seats)
}

/// Serves the links of all seats, each in a thread: as many of each seat's as `sessions`, or fewer
/// where its listener failed.
///
/// Each pass is one of this map and idle, as it is afterwards, and no listener has a link out. A
/// seat accepts a link, asks its lines, and closes it, again and again; it ends at the first link
/// that its listener does not hand out. Where no thread can be made for it, a seat serves after the
/// others. At the end all passes have seen one list of events, in which the calls of each seat that
/// are new are those of its sessions. The only error is the want of memory, after which the passes
/// are gone.
pub fn serve<R: Threads + Wait + Sync, L: Listener + Send + Drop>(
    rt: &R,
    alloc: Global,
    kiwi: &Kiwi,
    seats: Vec<Seat<L>>,
    sessions: u32,
) -> Result<Vec<Served<L>>, Memory>
    requires idle { All (λ seat. IsIdle kiwi.now seat.pass) seats.items }
    requires none_out { All (λ seat. (L.state seat.listener).out ≡ 0) seats.items }
    ensures len { IfOk result (λ served. vec_len served ≡ vec_len seats) }
    ensures each { IfOk result (λ served. AtEach (λ seat done. IsSeatServed kiwi.now sessions
        seat.pass done.pass (L.state seat.listener) (L.state done.listener) done.ends)
        seats.items served.items) }
    ensures met { IfOk result (λ served. HaveMet (opening_of kiwi.now) (passes_of served.items)) }
{
    let parts = thread::map_vec(
        rt,
        seats,
        &|seat: Seat<L>| -> Result<Served<L>, Memory>
            requires { IsIdle kiwi.now seat.pass × ((L.state seat.listener).out ≡ 0) }
            ensures { IfOk result (λ done. IsSeatServed kiwi.entry.now sessions seat.pass done.pass
                (L.state seat.listener) (L.state done.listener) done.ends) }
        { serve_seat(rt, alloc, kiwi, seat, sessions) },
    )?;
    let (passes, rests) = parted(alloc, parts)?;
    let passes = met(kiwi, passes);
    put_together(alloc, passes, rests)
}

/// Serves the links of one seat, one after the other.
fn serve_seat<R: Wait, L: Listener + Drop>(
    rt: &R,
    alloc: Global,
    kiwi: &Kiwi,
    seat: Seat<L>,
    sessions: u32,
) -> Result<Served<L>, Memory>
    requires idle { IsIdle kiwi.now seat.pass }
    requires none_out { (L.state seat.listener).out ≡ 0 }
    ensures { IfOk result (λ done. IsSeatServed kiwi.now sessions seat.pass done.pass
        (L.state seat.listener) (L.state done.listener) done.ends) }
{
    let Seat {
        mut pass,
        mut listener,
    } = seat;
    let mut ends = Ends::new(alloc);
    for _ in 0..sessions {
        let Ok(end) = serve_next(rt, alloc, kiwi, &mut pass, &mut listener) else {
            return Ok(Served {
                pass,
                listener,
                ends,
            });
        };
        ends.push(end)?;
    }
    Ok(Served {
        pass,
        listener,
        ends,
    })
}

/// Serves the next link, and says how its session ended.
fn serve_next<R: Wait, L: Listener>(
    rt: &R,
    alloc: Global,
    kiwi: &Kiwi,
    pass: &mut Pass,
    listener: &mut L,
) -> Result<SessionEnd, Failed>
    requires idle { IsIdle kiwi.now pass.old }
    requires none_out { (L.state listener.old).out ≡ 0 }
    ensures stays { StaysIdle kiwi.now pass.old pass.new }
    ensures served { IfOk result (IsServedNext (L.state listener.old) (L.state listener.new)
        (calls_in pass.old) (calls_in pass.new)) }
    ensures failed { OnErr result (HandsNone (L.state listener.old) (L.state listener.new)
        × (pass.new ≡ pass.old)) }
    ensures never_falls { (L.state listener.old).faults ≤ (L.state listener.new).faults }
{
    let mut link = listener.accept()?;
    let end = session(rt, alloc, kiwi, pass, &mut link.input, &mut link.output);
    listener.close(link);
    Ok(end)
}

/// The passes, and what else was handed back, where no seat wanted memory.
fn parted<L: Drop>(
    alloc: Global,
    parts: Vec<Result<Served<L>, Memory>>,
) -> Result<(Vec<Pass>, Vec<Rest<L>>), Memory>
    ensures { IfOk result (λ both. AreParted parts.items both.0.items both.1.items) }
{
    let mut passes = Vec::with_capacity(alloc, parts.len())?;
    let mut rests = Vec::with_capacity(alloc, parts.len())?;
    for part in parts {
        let Served {
            pass,
            listener,
            ends,
        } = part?;
        passes.push(pass)?;
        rests.push(Rest { listener, ends })?;
    }
    Ok((passes, rests))
}

/// The passes, which have then all seen one list of events.
fn met(kiwi: &Kiwi, passes: Vec<Pass>) -> Vec<Pass>
    requires { All (IsPassOf kiwi.now) passes.items }
    ensures len { vec_len result ≡ vec_len passes }
    ensures each { AtEach (MeetsAt kiwi.now (front_seen result.items)) passes.items
        result.items }
{
    let mut passes = passes;
    kiwi.meet_all(passes.as_mut_slice());
    passes
}

/// Each pass and what else its seat hands back, in one.
fn put_together<L: Drop>(
    alloc: Global,
    passes: Vec<Pass>,
    rests: Vec<Rest<L>>,
) -> Result<Vec<Served<L>>, Memory>
    requires { length rests.items ≡ length passes.items }
    ensures passes { IfOk result (λ served. passes_of served.items ≡ passes.items) }
    ensures rests { IfOk result (λ served. rests_of served.items ≡ rests.items) }
{
    let mut served = Vec::with_capacity(alloc, passes.len())?;
    let mut left = rests.into_iter();
    for pass in passes {
        let Some(Rest { listener, ends }) = left.next() else {
            unreachable!()
        };
        served.push(Served {
            pass,
            listener,
            ends,
        })?;
    }
    Ok(served)
}
