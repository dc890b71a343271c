//! The concurrent map, and its calls.
//!
//! A `Kiwi` is the shared table and an index of its rows; a caller asks it with a pass. Each call
//! here is put together from `kw_live`'s functions, on what the pass has: enter, find the row, put
//! into it or read it, leave; a get is whole there. A put or a delete that finds its row full has
//! the row rebalanced (`kw_live_rebal`) and tries again; one that is done may have it rebalanced
//! before it leaves. These two take the runtime, since they may come to wait for others; a get and
//! a scan never do. So all events are the core's, and the clauses say what follows: the call is the
//! pass's next one, it has ended, its answer is the recorded reply, and the order of all calls that
//! the pass has seen is legal.
ghost use Rattle.std.specs.Prelude.{◌≡◌, ℕ, ◌<◌, true, false, Some, IfOk, vec_len, slice_index_or, All};
ghost use Rattle.kw_words.specs.declared.sizes.TheConstants.{VALUE_END};
ghost use Rattle.kw_core.specs.Events.{is_call_in_range};
ghost use Rattle.kw_core.specs.Stages.{is_put};
ghost use Rattle.kw_world.specs.Opening.{IsOpening};
ghost use Rattle.kw_world.specs.Sizes.{product};
ghost use Rattle.kw_model.specs.Counts.{CountRose};
ghost use Rattle.kw_model.specs.Map.{found};
ghost use Rattle.kw_table.specs.Passes.{IsFresh, IsPassOf, opening_of, view};
ghost use Rattle.kw_table.specs.Views.{Meets};
ghost use Rattle.kw_follow.specs.Calling.{Calls};
ghost use Rattle.kw_follow.specs.Following.{Follows, GoesTo};
ghost use Rattle.kw_follow.specs.Reaching.{Reaches};
ghost use Rattle.kw_map.specs.Gather.{IsBelow, Takes};
ghost use Rattle.kw_map.specs.Kiwi.{AnswersScan, HasCause, IsIdle, IsOrdered, put_reply, stands_after};
ghost use Rattle.kw_map.specs.Meetings.{AtEach, MeetsAt, front_seen};

use crate::gather::{Gather, Stop};
use crate::meeting;
use crate::pass::Pass;
use crate::scanning::gather_rows;
use kw_index::hints::Hints;
use kw_index::index::Index;
use kw_live::{TryPut, enter, enter_anew, get, leave, locate, try_put};
use kw_live_rebal::{Rebalanced, guess, rebalance, tidy};
use kw_model::call::Call;
use kw_model::memory::Memory;
use kw_table::{Pass as Seat, Shared};
use kw_world::activity::Activity;
use kw_world::activity::rebalance::Rebalance;
use kw_world::activity::rebalance::engage::Engage;
use kw_world::local::Local;
use std::alloc::Global;
use std::marker::Model;
use std::sync::Wait;
use thiserror::Error;

/// Why a put or a delete changed nothing.
#[derive(Clone, Copy, Debug, Error, PartialEq, Eq)]
pub enum PutEnd {
    /// The row of the key is full, and too few rows were free to replace it.
    #[error("no rows are left")]
    NoRows,
    /// The versions or the epochs are spent, so that no full row can be replaced any more.
    #[error("the versions or the epochs are spent")]
    Spent,
}

/// Why a scan gave no pairs, or not all.
#[derive(Clone, Copy, Debug, Error, PartialEq, Eq)]
pub enum ScanEnd {
    /// The gatherer stopped.
    #[error("the gatherer stopped")]
    Stopped,
    /// The versions are spent.
    #[error("the versions are spent")]
    Spent,
}

/// An ordered map from keys to values below `VALUE_END`, which threads share by `&`, each with a
/// pass of its own.
///
/// Beside the table it has an index, which names a row to begin at for each key; no clause rests on
/// that. A contract sees of a map its table alone.
#[derive(Drop)]
pub struct Kiwi {
    shared: Shared,
    index: Index,
}

impl Model for Kiwi {
    ghost use Rattle.kw_table.specs.declared.shared.Shared.{Shared};

    ghost Value = { Shared };

    ghost view = { λ m. m.shared };
}

impl Kiwi {
    /// An empty map of this many rows, and a pass for each of this many callers, numbered from 0.
    ///
    /// There are 1 to `MOST_ROWS` rows and 1 to `SEATS` passes. All memory of the map is taken
    /// here, and the only error is the want of it.
    pub fn open(alloc: Global, rows: u32, passes: u32) -> Result<(Kiwi, Vec<Pass>), Memory>
        requires { IsOpening product
            (record { rows = rows; seats = passes; clock = 1; epoch = 1 }) }
        ensures opening { IfOk result (λ made. opening_of made.0
            ≡ record { rows = rows; seats = passes; clock = 1; epoch = 1 }) }
        ensures len { IfOk result (λ made. vec_len made.1 ≡ passes) }
        ensures each { IfOk result (λ made. (i : ℕ) (d : _) → i < vec_len made.1 →
            IsFresh made.0 i (slice_index_or made.1.items i d)) }
        ensures idle { IfOk result (λ made. All (IsIdle made.0) made.1.items) }
    {
        Kiwi::open_at(alloc, rows, passes, 1, 1)
    }

    /// The same, with a clock and an epoch to begin with, from 1 to `SPENT`.
    pub fn open_at(
        alloc: Global,
        rows: u32,
        passes: u32,
        clock: u64,
        epoch: u64,
    ) -> Result<(Kiwi, Vec<Pass>), Memory>
        requires { IsOpening product
            (record { rows = rows; seats = passes; clock = clock; epoch = epoch }) }
        ensures opening { IfOk result (λ made. opening_of made.0
            ≡ record { rows = rows; seats = passes; clock = clock; epoch = epoch }) }
        ensures len { IfOk result (λ made. vec_len made.1 ≡ passes) }
        ensures each { IfOk result (λ made. (i : ℕ) (d : _) → i < vec_len made.1 →
            IsFresh made.0 i (slice_index_or made.1.items i d)) }
        ensures idle { IfOk result (λ made. All (IsIdle made.0) made.1.items) }
    {
        let (shared, seats) = Shared::open(alloc, rows, passes, clock, epoch)?;
        let index = Index::new(alloc, rows)?;
        let passes = passes_at(alloc, seats, rows, rows / passes)?;
        Ok((Kiwi { shared, index }, passes))
    }

    /// The value of a key, if it has one.
    ///
    /// The pass is one of this map and idle, as it is afterwards. Takes no memory and never waits.
    pub fn get(&self, pass: &mut Pass, key: u32) -> Option<u64>
        requires { IsIdle self.now pass.old }
        ensures idle { IsIdle self.now pass.new }
        ensures goes { GoesTo self.now pass.old pass.new }
        ensures calls { Calls pass.old pass.new (Call.Get key) (found result) }
        ensures ordered { IsOrdered (view pass.new) }
    {
        let Pass { seat, local, hints } = pass;
        let row = guess(&self.shared, &self.index, hints, key);
        get(&self.shared, seat, local, key, row)
    }

    /// Sets the value of a key, which is below `VALUE_END`.
    ///
    /// The pass is one of this map and idle, as it is afterwards. `NoRows` comes only where the
    /// last search of this call asked for each row of the table, took fewer than it needed, and
    /// found every other one not free, or retired and perhaps still named by a call; `Spent` only
    /// where a load of this call found the clock or the epoch at `SPENT` or above. Nothing has
    /// changed then. Takes no memory. It may wait for the calls of others: all that is said here is
    /// said for a put that returns.
    pub fn put<R: Wait>(&self, rt: &R, pass: &mut Pass, key: u32, value: u64) -> Result<(), PutEnd>
        requires idle { IsIdle self.now pass.old }
        requires value { value < VALUE_END }
        ensures idle { IsIdle self.now pass.new }
        ensures goes { GoesTo self.now pass.old pass.new }
        ensures calls { Calls pass.old pass.new (Call.Put key value) (put_reply result) }
        ensures cause { HasCause pass.old pass.new (Call.Put key value) result }
        ensures ordered { IsOrdered (view pass.new) }
    {
        self.update(rt, pass, Call::Put(key, value))
    }

    /// Takes a key away, whether it has a value or not. Otherwise it is as `put`.
    ///
    /// A delete that is done may rebalance its row before it returns, so that rows of deleted keys
    /// come back; its answer is the same, whatever becomes of the row.
    pub fn delete<R: Wait>(&self, rt: &R, pass: &mut Pass, key: u32) -> Result<(), PutEnd>
        requires { IsIdle self.now pass.old }
        ensures idle { IsIdle self.now pass.new }
        ensures goes { GoesTo self.now pass.old pass.new }
        ensures calls { Calls pass.old pass.new (Call.Del key) (put_reply result) }
        ensures cause { HasCause pass.old pass.new (Call.Del key) result }
        ensures ordered { IsOrdered (view pass.new) }
    {
        self.update(rt, pass, Call::Del(key))
    }

    /// Gathers the pairs of a range, both ends included, as they stood at one moment, by rising
    /// key.
    ///
    /// The pass is one of this map and idle, as it is afterwards, and the last key that the
    /// gatherer took, if there is one, is below `from`. After `Ok` it took just the pairs of the
    /// range. `Stopped` comes only where the gatherer stopped in this call; it took the first of
    /// the pairs of the range at the version that it drew. `Spent` comes exactly where the clock
    /// that this call loaded first was at `SPENT` or above; nothing was taken. A range with `from`
    /// above `to` has no keys. The scan takes no memory of its own and never waits.
    ///
    /// It runs the gatherer's `take` while its pass is announced, and returns where that does. As
    /// long as it runs, rows that others replace are not used again: gather first, work afterwards.
    pub fn scan<G: Gather>(
        &self,
        pass: &mut Pass,
        from: u32,
        to: u32,
        into: &mut G,
    ) -> Result<(), ScanEnd>
        requires idle { IsIdle self.now pass.old }
        requires above { IsBelow (G.last into.old) from }
        ensures idle { IsIdle self.now pass.new }
        ensures goes { GoesTo self.now pass.old pass.new }
        ensures answers { AnswersScan (λ pairs. Takes G.last G.stands into.old pairs into.new)
            (CountRose (G.stops into.old) (G.stops into.new)) (into.new ≡ into.old)
            pass.old pass.new from to result }
        ensures ordered { IsOrdered (view pass.new) }
    {
        let Pass { seat, local, hints } = pass;
        let local: &mut Local = local;
        let row = guess(&self.shared, &self.index, hints, from);
        enter(&self.shared, seat, local, Call::Scan(from, to));
        if let Activity::Leave(_) = local.activity {
            leave(&self.shared, seat, local);
            return Err(ScanEnd::Spent);
        }
        let gathered = gather_rows(&self.shared, seat, local, row, to, into);
        leave(&self.shared, seat, local);
        // each arm returns by itself, so that the prover is asked for each end apart
        match gathered {
            Ok(()) => return Ok(()),
            Err(Stop) => return Err(ScanEnd::Stopped),
        }
    }

    /// How many rows are in use just now: those that have the pairs, and those of rebalances that
    /// are on. It looks at each row of the map while others go on, so it is for figures alone. No
    /// event is made, and no memory taken.
    pub fn rows_in_use(&self) -> u32 {
        self.shared.rows_in_use()
    }

    /// Both passes have then seen one list of events, which both old ones begin. No event is made,
    /// and no memory taken; a pass that was idle is idle.
    pub fn meet(&self, a: &mut Pass, b: &mut Pass)
        requires one { IsPassOf self.now a.old }
        requires other { IsPassOf self.now b.old }
        ensures one { IsPassOf self.now a.new × Meets (view a.old) (view a.new) }
        ensures other { IsPassOf self.now b.new × Meets (view b.old) (view b.new) }
        ensures same { (view a.new).seen ≡ (view b.new).seen }
        ensures idle { (IsIdle self.now a.old → IsIdle self.now a.new)
            × (IsIdle self.now b.old → IsIdle self.now b.new) }
    {
        kw_table::meet(&self.shared, &mut a.seat, &mut b.seat);
    }

    /// The same, of all passes in a slice.
    pub fn meet_all(&self, passes: &mut [Pass])
        requires { All (IsPassOf self.now) passes.old }
        ensures { AtEach (MeetsAt self.now (front_seen passes.new)) passes.old passes.new }
    {
        meeting::meet_all(&self.shared, passes);
    }
}

// A put or a delete.
impl Kiwi {
    // It tries at its row until it is done or refused: where the row is full it makes room, and
    // tries again at the row that then has the key. Where it is done it may tidy the row, and it
    // never tries again after that.
    #[tactic(auto, using(crate::proofs::WholeCalls::put_starts))]
    fn update<R: Wait>(&self, rt: &R, pass: &mut Pass, call: Call) -> Result<(), PutEnd>
        requires idle { IsIdle self.now pass.old }
        requires update { is_put (Some call) ≡ true }
        requires range { is_call_in_range call ≡ true }
        ensures idle { IsIdle self.now pass.new }
        ensures goes { GoesTo self.now pass.old pass.new }
        ensures calls { Calls pass.old pass.new call (put_reply result) }
    {
        let Pass { seat, local, hints } = pass;
        let local: &mut Local = local;
        enter(&self.shared, seat, local, call);
        for _ in rt.forever() {
            let row = guess(&self.shared, &self.index, hints, local.want);
            locate(&self.shared, seat, local, row);
            match try_put(&self.shared, seat, local, hints.window.start()) {
                TryPut::Done => {
                    leave(&self.shared, seat, local);
                    return Ok(());
                }
                TryPut::Tidies => {
                    tidy(rt, &self.shared, &self.index, hints, seat, local);
                    leave(&self.shared, seat, local);
                    return Ok(());
                }
                TryPut::RowFull(_) => {}
            }
            if let Some(end) = make_room(rt, &self.shared, &self.index, hints, seat, local) {
                leave(&self.shared, seat, local);
                return Err(end);
            }
        }
        unreachable!()
    }
}

// Rebalances the full row of a put or a delete, and begins the call anew; or says why it can't, and
// the call is about to leave with that.
fn make_room<R: Wait>(
    rt: &R,
    shared: &Shared,
    index: &Index,
    hints: &mut Hints,
    pass: &mut Seat,
    local: &mut Local,
) -> Option<PutEnd>
    requires follows { Follows shared.now pass.old local.old }
    requires activity { local.old.activity ≡ Activity.Rebalance (Rebalance.Engage Engage.Clock) }
    requires untidied { local.old.tidies ≡ false }
    requires update { is_put local.old.call ≡ true }
    ensures on { Reaches shared.now pass.old pass.new local.new }
    ensures stands { local.new.activity ≡ stands_after result }
    ensures call { local.new.call ≡ local.old.call }
{
    match rebalance(rt, shared, index, hints, pass, local) {
        Rebalanced::Done | Rebalanced::Again => {
            enter_anew(shared, pass, local);
            None
        }
        Rebalanced::NoRows => Some(PutEnd::NoRows),
        Rebalanced::Spent => Some(PutEnd::Spent),
    }
}

// A pass for each seat, in a map of so many rows: the first one searches for free rows from row 0
// on, and each other one so many rows behind the one before it.
fn passes_at(alloc: Global, seats: Vec<Seat>, rows: u32, apart: u32) -> Result<Vec<Pass>, Memory>
    ensures { IfOk result (λ passes. passes.items ≡ seats.items) }
{
    let mut passes = Vec::new(alloc);
    let mut first: u32 = 0;
    for seat in seats {
        passes.push(Pass::new(alloc, seat, rows, first)?)?;
        first = first.saturating_add(apart);
    }
    Ok(passes)
}
