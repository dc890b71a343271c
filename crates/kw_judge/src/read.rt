//! A record, read from its bytes.
//!
//! Lines are taken one after the other, as long as those so far begin a record: each is the text of
//! a call or of an order, calls that were answered come first, no name stands twice, there are not
//! too many, and the order is the last line.
ghost use Rattle.std.specs.Prelude.{ℕ, ◌≡◌, ◌<◌, ◌≤◌, ◌⊎◌, ◌++◌, ◌∷◌, [], None, Contains, length, Err, IfOk, MatchBool, MatchOption};
ghost use Rattle.kw_line.specs.Line.{IfBad};
ghost use Rattle.kw_judge.specs.Record.{RecordView, IsRecord, IsName, IsDone, IsOpen, IsRecordText, IsFirstBad, Begins, record_lines};
ghost use Rattle.kw_judge.specs.Texts.{done_text, open_text};
ghost use Rattle.kw_judge.specs.Reader.{IsReading, IsIndexed, KeepsLists, names_taken, lines_taken};

use crate::index::key_of;
use crate::record::{DoneCall, MOST_CALLS, Name, OpenCall, Record};
use crate::written::{Entry, written};
use kw_line::error::LineError;
use kw_line::words::Lines;
use kw_model::memory::Memory;
use std::alloc::Global;
use std::collections::BTreeMap;

/// The record whose text the bytes are.
///
/// `Bad` names the first line up to which the lines begin no record, or the line after the last one
/// where no order stands at the end. Any bytes may be given: the bad line is line 100,002 at most.
pub fn read_record(alloc: Global, bytes: &[u8]) -> Result<Record, LineError>
    ensures record { IfOk result (IsRecordText bytes.now) }
    ensures bad { IfBad (IsFirstBad bytes.now) result }

    // There is one such record at most; and where there is one, no line is bad.
    ensures only { IfOk result (λ one. (r : RecordView) → IsRecordText bytes.now r → r ≡ one) }
    ensures none { (line : ℕ) (r : RecordView) → result ≡ Err (LineError.Bad line) →
        IsRecordText bytes.now r → ⊥ }
{
    let mut reader = Reader::new(alloc);
    for line in Lines::new(bytes) {
        let next = reader.count() + 1;
        if !reader.take(alloc, line)? {
            return Err(LineError::Bad { line: next });
        }
    }
    let next = reader.count() + 1;
    reader.finish().ok_or(LineError::Bad { line: next })
}

/// What was taken of a record so far.
#[derive(Drop)]
struct Reader {
    done: Vec<DoneCall>,
    open_calls: Vec<OpenCall>,
    order: Option<Vec<Name>>,
    /// The places of the names of the calls.
    places: BTreeMap<u64, usize>,
}

impl Reader {
    /// Nothing was taken yet.
    fn new(alloc: Global) -> Reader
        ensures reading { IsReading result }
        ensures none { lines_taken result ≡ [] }
    {
        Reader {
            done: Vec::new(alloc),
            open_calls: Vec::new(alloc),
            order: None,
            places: BTreeMap::new(alloc),
        }
    }

    /// Takes one more line, and tells whether the lines still begin a record. Where they do not, or
    /// for want of memory, the reader is of no more use.
    fn take(&mut self, alloc: Global, line: &[u8]) -> Result<bool, Memory>
        requires { IsReading self.old }
        ensures { IfOk result (λ taken. MatchBool taken
            (IsReading self.new × (lines_taken self.new ≡ lines_taken self.old ++ line.now ∷ []))
            (Begins (lines_taken self.old ++ line.now ∷ []) → ⊥)) }
    {
        let Some(entry) = written(alloc, line)? else {
            return Ok(false);
        };
        if self.order.is_some() {
            return Ok(false);
        }
        match entry {
            Entry::Done(call) => self.take_done(call),
            Entry::Open(call) => self.take_open(call),
            Entry::Order(names) => {
                self.order = Some(names);
                Ok(true)
            }
        }
    }

    /// Takes an answered call: none after one that was not answered.
    fn take_done(&mut self, call: DoneCall) -> Result<bool, Memory>
        requires reading { IsReading self.old }
        requires no_order { self.old.order ≡ None }
        requires fits { IsDone call }
        ensures { IfOk result (λ taken. MatchBool taken
            (IsReading self.new × (lines_taken self.new ≡ lines_taken self.old ++ done_text call ∷ []))
            (Begins (lines_taken self.old ++ done_text call ∷ []) → ⊥)) }
    {
        if !self.open_calls.is_empty() || !self.take_name(call.name)? {
            return Ok(false);
        }
        self.done.push(call)?;
        Ok(true)
    }

    /// Takes a call that was not answered.
    fn take_open(&mut self, call: OpenCall) -> Result<bool, Memory>
        requires reading { IsReading self.old }
        requires no_order { self.old.order ≡ None }
        requires fits { IsOpen call }
        ensures { IfOk result (λ taken. MatchBool taken
            (IsReading self.new × (lines_taken self.new ≡ lines_taken self.old ++ open_text call ∷ []))
            (Begins (lines_taken self.old ++ open_text call ∷ []) → ⊥)) }
    {
        if !self.take_name(call.name)? {
            return Ok(false);
        }
        self.open_calls.push(call)?;
        Ok(true)
    }

    /// Notes the name of one more call, unless it is there or there are too many.
    fn take_name(&mut self, name: Name) -> Result<bool, Memory>
        requires reading { IsReading self.old }
        requires fits { IsName name }
        ensures lists { IfOk result (λ taken. KeepsLists self.old self.new) }
        ensures taken { IfOk result (λ taken. MatchBool taken
            (IsIndexed (names_taken self.old ++ name ∷ []) self.new × (length (names_taken self.old) < MOST_CALLS) × (Contains (names_taken self.old) name → ⊥))
            (Contains (names_taken self.old) name ⊎ (MOST_CALLS ≤ length (names_taken self.old)))) }
    {
        let place = self.done.len() + self.open_calls.len();
        let key = key_of(name);
        if place >= MOST_CALLS || self.places.contains_key(&key) {
            return Ok(false);
        }
        self.places.insert(key, place)?;
        Ok(true)
    }

    /// How many lines were taken.
    fn count(&self) -> u32
        requires { IsReading self.now }
        ensures { result ≡ length (lines_taken self.now) }
    {
        (self.done.len() + self.open_calls.len()) as u32 + u32::from(self.order.is_some())
    }

    /// The record, where all of it was taken.
    fn finish(self) -> Option<Record>
        requires { IsReading self }
        ensures { MatchOption result
            ((r : RecordView) → IsRecord r → record_lines r ≡ lines_taken self → ⊥)
            (λ r. IsRecord r × (record_lines r ≡ lines_taken self)) }
    {
        let order = self.order?;
        Some(Record::new(self.done, self.open_calls, order))
    }
}
