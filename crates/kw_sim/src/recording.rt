//! The record of a trace: the lines of its calls, and their order.
//!
//! A record says of each call that ended, and of each put or delete that goes on and was stamped,
//! at which positions it began and ended. The calls are gathered from the history for each of these
//! two sections, sorted by what the section's lines stand by, and printed by `kw_judge`.
ghost use Rattle.std.specs.Prelude.{◌≡◌, ◌≤◌, ◌++◌, length, IfOk, OnOk, MatchOption};
ghost use Rattle.kw_judge.specs.declared.record.TheConstants.{RECORD_SEATS, MOST_POSITION};
ghost use Rattle.kw_sim.specs.Recorded.{IsTooMany, IsRecordAt};
ghost use Rattle.kw_sim.specs.Sections.{stands_at, ArePlaces, AreWithin, line_of, lines_at};

use crate::print::judged;
use kw_core::history::{CallLog, History};
use kw_judge::print::{push_done, push_open, push_order};
use kw_judge::record::{MOST_CALLS, Name};
use kw_model::memory::Memory;
use kw_order::trace::{Trace, order};
use std::alloc::Global;

/// The two sections of a record before its order.
#[derive(Clone, Copy, Debug, PartialEq, Eq)]
pub enum Section {
    /// The calls that ended, by their last positions.
    Done,
    /// The puts and deletes that go on and were stamped, by their seats.
    Open,
}

/// A call of a section: what its line stands by there, and its place in the history.
#[derive(Clone, Copy, Debug, PartialEq, Eq, PartialOrd, Ord)]
pub struct LinePlace {
    at: u64,
    call: usize,
}

/// The text of a trace's record; none where it has more calls than a record may have.
pub fn record_of(alloc: Global, trace: &Trace) -> Result<Option<Vec<u8>>, Memory>
    requires seats { trace.now.opening.seats ≤ RECORD_SEATS }
    requires few { length trace.now.events ≤ MOST_POSITION }
    ensures { IfOk result (λ text. MatchOption text (IsTooMany trace.now) (λ bytes. IsRecordAt
        trace.now bytes.items)) }
{
    // The events are valid from the opening: so the laws of valid lists hold of what is recorded.
    let _opening = trace.opening();
    let _events = trace.events();
    let history = trace.history();
    let done = places(alloc, history, Section::Done)?;
    let open_calls = places(alloc, history, Section::Open)?;
    if done.len() + open_calls.len() > MOST_CALLS {
        return Ok(None);
    }
    let names = order(alloc, trace)?;
    let mut text = Vec::new(alloc);
    push_lines(&mut text, history, &done)?;
    push_lines(&mut text, history, &open_calls)?;
    push_order(&mut text, &judged(alloc, &names)?)?;
    Ok(Some(text))
}

/// The calls of a section, in the order of its lines.
fn places(alloc: Global, history: &History, section: Section) -> Result<Vec<LinePlace>, Memory>
    ensures { IfOk result (λ places. ArePlaces history.now section places.items) }
{
    let mut places = Vec::new(alloc);
    for (call, log) in history.calls().iter().enumerate() {
        if let Some(at) = stands_at(section, log) {
            places.push(LinePlace { at, call })?;
        }
    }
    places.sort_unstable();
    Ok(places)
}

/// What the line of a call stands by in this section, if it has one there.
fn stands_at(section: Section, call: &CallLog) -> Option<u64>
    ensures { result ≡ stands_at section call.now }
{
    match (section, &call.end) {
        (Section::Done, Some(end)) => Some(end.at),
        (Section::Open, None) => call.put.map(|_| u64::from(call.seat)),
        (Section::Done, None) | (Section::Open, Some(_)) => None,
    }
}

/// Adds the lines of these calls at the end.
fn push_lines(out: &mut Vec<u8>, history: &History, places: &[LinePlace]) -> Result<(), Memory>
    requires { AreWithin history.now places.now }
    ensures { OnOk result (out.new.items ≡ out.old.items ++ lines_at history.now places.now) }
{
    let calls = history.calls();
    for place in places {
        push_line(out, &calls[place.call])?;
    }
    Ok(())
}

/// Adds the line of a call at the end: whether it ended tells which one.
fn push_line(out: &mut Vec<u8>, call: &CallLog) -> Result<(), Memory>
    ensures { OnOk result (out.new.items ≡ out.old.items ++ line_of call.now) }
{
    let name = Name {
        seat: call.seat,
        number: call.number,
    };
    match &call.end {
        Some(end) => push_done(out, name, call.first, end.at, &call.call, &end.reply),
        None => push_open(out, name, call.first, &call.call),
    }
}
