//! The ordered map of one thread, with the snapshots that seats hold of it.
//!
//! The map is a tree of std behind a `Model` that shows its pairs by strictly rising key, so
//! clauses compare it with the list of the definition and nobody outside depends on the tree. What
//! a seat has pinned is a list of pairs of its own, found by the seat. Whoever asks for legal
//! replies asks this map.
ghost use Rattle.std.specs.Prelude.{◌≡◌, IfOk, OnOk, OnErr};
ghost use Rattle.kw_model.specs.Map.{IsRising, between};
ghost use Rattle.kw_model.specs.Snapshots.{empty, pinned, snapshot_of, pin_answer, scan_answer, unpin_answer, state_after, state_answer};
ghost use Rattle.kw_model.specs.declared.call.Call.TheVariants.{Unpin};

use crate::call::{Call, Reply};
use crate::memory::Memory;
use crate::pair_list::PairList;
use std::alloc::Global;
use std::collections::BTreeMap;
use std::marker::Model;

/// An ordered map of one thread, seen as its pairs of key and value by strictly rising key, and as
/// the snapshot of each seat that holds one.
#[derive(Drop)]
pub struct MapState {
    alloc: Global,
    pairs: BTreeMap<u32, u64>,
    pins: BTreeMap<u32, PairList>,
}

impl Model for MapState {
    ghost use Rattle.std.specs.FinMap.{from_entries};
    ghost use Rattle.kw_model.specs.Map.{IsRising};
    ghost use Rattle.kw_model.specs.Snapshots.{State, state_code};

    ghost Value = { State };

    ghost coded = { state_code };

    ghost view = { λ map. record { map = map.pairs.entries; pins = from_entries map.pins.entries } };

    ghost invariant = { λ map. IsRising map.pairs.entries };
}

impl MapState {
    /// The empty map, of which nobody holds a snapshot. Takes no memory; later calls take theirs
    /// from this allocator.
    pub fn new(alloc: Global) -> MapState
        ensures { result ≡ empty }
    {
        MapState {
            alloc,
            pairs: BTreeMap::new(alloc),
            pins: BTreeMap::new(alloc),
        }
    }

    /// Asks a call of the map for a seat, and gives its answer.
    ///
    /// A put and a delete answer `Done`, a get `Value` or `Absent`, a scan `Pairs`. A pin answers
    /// `Held` where the seat holds a snapshot, which stays, and else takes one and answers `Done`;
    /// a scan of it answers `Pairs`, an unpin gives it back and answers `Done`, and both answer
    /// `NotPinned` where the seat holds none. No other reply comes. Without memory for a new pair,
    /// for the pairs of a scan or for a snapshot, all stays as it was.
    pub fn apply(&mut self, seat: u32, call: &Call) -> Result<Reply, Memory>
        ensures answer { IfOk result (λ reply. reply ≡ state_answer self.old seat call.now) }
        ensures after { OnOk result (self.new ≡ state_after self.old seat call.now) }
        ensures err { OnErr result (self.new ≡ self.old) }
        ensures rising { IsRising self.new.map }
    {
        match *call {
            Call::Put(key, value) => {
                self.pairs.insert(key, value)?;
                Ok(Reply::Done)
            }
            Call::Del(key) => {
                self.pairs.remove(&key);
                Ok(Reply::Done)
            }
            Call::Get(key) => Ok(match self.pairs.get(&key) {
                Some(value) => Reply::Value(*value),
                None => Reply::Absent,
            }),
            Call::Scan(from, to) => Ok(Reply::Pairs(self.between(from, to)?)),
            Call::Pin => self.pin(seat),
            Call::ScanAt(from, to) => self.scan_at(seat, from, to),
            Call::Unpin => Ok(self.unpin(seat)),
        }
    }

    /// Takes a snapshot of the map for a seat, unless it holds one.
    fn pin(&mut self, seat: u32) -> Result<Reply, Memory>
        ensures answer { IfOk result (λ reply. reply ≡ pin_answer (snapshot_of seat self.old)) }
        ensures after { OnOk result (self.new ≡ pinned seat self.old (snapshot_of seat self.old)) }
        ensures err { OnErr result (self.new ≡ self.old) }
        ensures rising { IsRising self.new.map }
    {
        if self.pins.contains_key(&seat) {
            return Ok(Reply::Held);
        }
        let copy = self.copied()?;
        self.pins.insert(seat, copy)?;
        Ok(Reply::Done)
    }

    /// The pairs of a seat's snapshot from one key to another, both included.
    fn scan_at(&self, seat: u32, from: u32, to: u32) -> Result<Reply, Memory>
        ensures answer { IfOk result (λ reply. reply ≡ scan_answer from to (snapshot_of seat
            self.now)) }
        ensures rising { IsRising self.now.map }
    {
        match self.pins.get(&seat) {
            Some(snapshot) => Ok(Reply::Pairs(snapshot.between(from, to)?)),
            None => Ok(Reply::NotPinned),
        }
    }

    /// Gives a seat's snapshot back, if it holds one.
    fn unpin(&mut self, seat: u32) -> Reply
        ensures answer { result ≡ unpin_answer (snapshot_of seat self.old) }
        ensures after { self.new ≡ state_after self.old seat Unpin }
        ensures rising { IsRising self.new.map }
    {
        match self.pins.remove(&seat) {
            Some(_) => Reply::Done,
            None => Reply::NotPinned,
        }
    }

    /// All pairs of the map.
    fn copied(&self) -> Result<PairList, Memory>
        ensures { IfOk result (λ pairs. pairs ≡ self.now.map) }
    {
        let mut pairs = PairList::new(self.alloc);
        for (key, value) in &self.pairs {
            pairs.push(*key, *value)?;
        }
        Ok(pairs)
    }

    /// The pairs from one key to another, both included.
    fn between(&self, from: u32, to: u32) -> Result<PairList, Memory>
        ensures pairs { IfOk result (λ pairs. pairs ≡ between from to self.now.map) }
        ensures rising { IsRising self.now.map }
    {
        let mut pairs = PairList::new(self.alloc);
        if from > to {
            return Ok(pairs);
        }
        for (key, value) in self.pairs.range(from..=to) {
            pairs.push(*key, *value)?;
        }
        Ok(pairs)
    }
}
