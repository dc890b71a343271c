//! Whether a record is good.
//!
//! The five things that may be wrong are looked for one after the other, each in one walk over the
//! order or the lines, and the first one found is the verdict. Names are looked up in an [`Index`],
//! so all of it takes time that is linear but for the look-ups and the calls of the map.
ghost use Rattle.std.specs.Prelude.{◌≡◌, ◌↔◌, ◌<◌, ◌≤◌, IsTrue, IfOk, OnOk, MatchOption, MatchResult, Contains, length, map};
ghost use Rattle.kw_judge.specs.declared.record.DoneCall.{DoneCall as AnyDone};
ghost use Rattle.kw_model.specs.LegalFor.{IsRightFor, state_went};
ghost use Rattle.kw_judge.specs.declared.verdict.Verdict.{Verdict as AnyVerdict};
ghost use Rattle.kw_judge.specs.Record.{names_of};
ghost use Rattle.kw_judge.specs.Good.{Recorded, calls_of, calls_in_order, EndedBefore};
ghost use Rattle.kw_judge.specs.Index.{AreNames, ArePlaces, StandInOrder, call_at};
ghost use Rattle.kw_judge.specs.Line.{recorded};
ghost use Rattle.kw_judge.specs.Verdict.{IsFirst, AllHold, InTime, IsRightAt, IsVerdict, IsLate, IsWrong, AllInTime};

use crate::index::Index;
use crate::record::{DoneCall, Name, OpenCall, Record};
use crate::verdict::Verdict;
use kw_model::call::Reply;
use kw_model::legal::is_right;
use kw_model::map_state::MapState;
use kw_model::memory::Memory;
use std::alloc::Global;

/// Says whether a record is good, or what is wrong with it first.
///
/// The verdict is `Yes` exactly where the record is good, and each other one exactly where it is
/// the first that holds.
pub fn judge(alloc: Global, written: &Record) -> Result<Verdict, Memory>
    ensures { IfOk result (λ verdict. (other : AnyVerdict) →
        (verdict ≡ other) ↔ IsVerdict written.now other) }
{
    verdict(alloc, written)
}

/// The verdict on a record.
fn verdict(alloc: Global, written: &Record) -> Result<Verdict, Memory>
    ensures { IfOk result (IsVerdict written.now) }
{
    let names = names(alloc, written)?;
    let order = match Index::of_order(alloc, written.order())? {
        Ok(order) => order,
        Err(name) => return Ok(Verdict::Twice(name)),
    };
    let lines = Index::new(alloc, &names)?;
    let places = match places(alloc, &lines, written.order())? {
        Ok(places) => places,
        Err(name) => return Ok(Verdict::Unknown(name)),
    };
    if let Some(name) = first_missing(&order, &names) {
        return Ok(Verdict::Missing(name));
    }
    if let Some((late, before)) = first_late(written, &places) {
        return Ok(Verdict::Late(late, before));
    }
    Ok(match first_wrong(alloc, written, &places)? {
        Some(name) => Verdict::Wrong(name),
        None => Verdict::Yes,
    })
}

/// A line of a record that is no order line.
#[derive(Clone, Copy)]
enum Line<'a> {
    Done(&'a DoneCall),
    Open(&'a OpenCall),
}

impl<'a> Line<'a> {
    /// The line at this place.
    fn at(written: &'a Record, place: usize) -> Line<'a>
        requires { place < length (calls_of written.now) }
        ensures { recorded result ≡ call_at written.entry.now place }
    {
        let done = written.done();
        match done.get(place) {
            Some(call) => Line::Done(call),
            None => Line::Open(&written.open_calls()[place - done.len()]),
        }
    }

    /// The name of its call.
    fn name(&self) -> Name
        ensures { result ≡ (recorded self.now).name }
    {
        match self {
            Line::Done(call) => call.name,
            Line::Open(call) => call.name,
        }
    }

    /// The position at which its call began.
    fn first(&self) -> u64
        ensures { result ≡ (recorded self.now).first }
    {
        match self {
            Line::Done(call) => call.first,
            Line::Open(call) => call.first,
        }
    }

    /// The position at which its call ended, if it did.
    fn last(&self) -> Option<u64>
        ensures { result ≡ (recorded self.now).last }
    {
        match self {
            Line::Done(call) => Some(call.last),
            Line::Open(_) => None,
        }
    }

    /// Whether the map gives the seat of the call this reply, or the call may be refused by it; one
    /// that was not answered counts as done.
    fn is_right(&self, map: &mut MapState) -> Result<bool, Memory>
        ensures right { IfOk result (λ right. IsTrue right ↔ IsRightFor map.old
            (recorded self.now).name.seat (recorded self.now).call (recorded self.now).reply) }
        ensures went { OnOk result (map.new ≡ state_went map.old (recorded self.now).name.seat
            (recorded self.now).call (recorded self.now).reply) }
    {
        match self {
            Line::Done(line) => is_right(map, line.name.seat, &line.call, &line.reply),
            Line::Open(line) => is_right(map, line.name.seat, &line.call, &Reply::Done),
        }
    }
}

/// The names of the lines.
fn names(alloc: Global, written: &Record) -> Result<Vec<Name>, Memory>
    ensures { IfOk result (λ names. names.items ≡ names_of written.now) }
{
    let mut names = done_names(alloc, written.done())?;
    for call in written.open_calls() {
        names.push(call.name)?;
    }
    Ok(names)
}

/// The names of answered calls.
fn done_names(alloc: Global, done: &[DoneCall]) -> Result<Vec<Name>, Memory>
    ensures { IfOk result (λ names. names.items ≡ map (λ (call : AnyDone). call.name) done.now) }
{
    Ok(done.iter().map(|call| call.name).collect(alloc)?)
}

/// The places of the order's names among the lines, or the first of these names that no line has.
fn places(alloc: Global, lines: &Index, order: &[Name]) -> Result<Result<Vec<usize>, Name>, Memory>
    requires { AreNames order.now }
    ensures { IfOk result (λ answer. MatchResult answer
        (λ places. ArePlaces lines.now order.now places.items)
        (IsFirst (λ _ name. Contains lines.now name) (λ _ name. Contains lines.now name → ⊥) order.now)) }
{
    let mut places = Vec::new(alloc);
    for name in order {
        let Some(place) = lines.place(*name) else {
            return Ok(Err(*name));
        };
        places.push(place)?;
    }
    Ok(Ok(places))
}

/// The first of the lines' names that the order lacks.
fn first_missing(order: &Index, names: &[Name]) -> Option<Name>
    requires { AreNames names.now }
    ensures { MatchOption result
        (AllHold (λ _ name. Contains order.now name) names.now)
        (IsFirst (λ _ name. Contains order.now name) (λ _ name. Contains order.now name → ⊥) names.now) }
{
    for name in names {
        if order.place(*name).is_none() {
            return Some(*name);
        }
    }
    None
}

/// The first call of the order that had ended before one in front of it began, and the first such
/// one.
fn first_late(written: &Record, places: &[usize]) -> Option<(Name, Name)>
    requires { StandInOrder written.now places.now }
    ensures { MatchOption result (AllInTime written.now) (λ names. IsLate written.now names.0
        names.1) }
{
    let mut greatest = 0;
    for place in places {
        let line = Line::at(written, *place);
        if let Some(last) = line.last() {
            if last < greatest {
                let before = first_after(written, places, last)?;
                return Some((line.name(), before));
            }
        }
        greatest = greatest.max(line.first());
    }
    None
}

/// The first call of the order that began after this position.
fn first_after(written: &Record, places: &[usize], end: u64) -> Option<Name>
    requires { StandInOrder written.now places.now }
    ensures { MatchOption result
        (AllHold (λ _ c. c.first ≤ end) (calls_in_order written.now))
        (λ name. (c : Recorded) × (c.name ≡ name) × IsFirst (λ _ d. d.first ≤ end) (λ _ d. end < d.first) (calls_in_order written.now) c) }
{
    for place in places {
        let line = Line::at(written, *place);
        if end < line.first() {
            return Some(line.name());
        }
    }
    None
}

/// The first call of the order whose reply is not that of the map, which begins empty.
fn first_wrong(alloc: Global, written: &Record, places: &[usize]) -> Result<Option<Name>, Memory>
    requires { StandInOrder written.now places.now }
    ensures { IfOk result (λ answer. MatchOption answer
        (AllHold (IsRightAt (calls_in_order written.now)) (calls_in_order written.now))
        (IsWrong written.now)) }
{
    let mut map = MapState::new(alloc);
    for place in places {
        let line = Line::at(written, *place);
        if !line.is_right(&mut map)? {
            return Ok(Some(line.name()));
        }
    }
    Ok(None)
}
