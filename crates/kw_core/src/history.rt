//! The record of what a list of events did, which grows by one entry with each event.
//!
//! Whoever takes events hands each of them here, with what it changed: a call that began or ended,
//! a put or delete that was given a cell, announced its cell, lost it or was stamped. The laws of
//! the record, and the order of its calls, speak of it as of three lists. A call and an attempt are
//! named by their places in these lists, an event by its place in the log.
ghost use Rattle.std.specs.Prelude.{◌≡◌, ◌≤◌, ◌-◌, OnOk, OnErr, length};
ghost use Rattle.kw_core.specs.History.{Record};
ghost use Rattle.kw_core.specs.declared.history.Logged.{Logged};
ghost use Rattle.kw_core.specs.Noted.{IsWithin, noted, nothing_yet};
ghost use Rattle.kw_core.specs.Appended.{appended, attempts_set, calls_set};

use kw_model::call::{Call, Reply};
use kw_model::memory::Memory;
use kw_words::kind::Kind;
use std::alloc::Global;
use std::marker::Model;

/// An event: who acted, how, and the clock just before it.
#[derive(Clone, Copy, Debug, PartialEq, Eq)]
pub struct Logged {
    pub clock: u64,
    pub seat: u32,
    pub kind: Kind,
}

/// A put or delete that was given a cell.
///
/// `call` is the place of its call, and a delete has no value. The positions of its announcement,
/// of the clock load that gave its version and of the exchange that stamped it are 0 before they
/// are known. Where the cell was lost, it is never stamped.
#[derive(Clone, Copy, Debug, PartialEq, Eq)]
pub struct Attempt {
    pub call: usize,
    pub value: Option<u64>,
    pub seat: u32,
    pub key: u32,
    pub row: u32,
    pub cell: u32,
    pub add: u64,
    pub announced: u64,
    pub version: u64,
    pub load: u64,
    pub at: u64,
    pub is_announced: bool,
    pub is_stamped: bool,
    pub is_lost: bool,
}

/// How a call ended: at which event, and with which reply.
#[derive(Debug, Drop, PartialEq, Eq)]
pub struct End {
    pub at: u64,
    pub reply: Reply,
}

/// Where a scan drew its version.
#[derive(Clone, Copy, Debug, PartialEq, Eq)]
pub struct Drawn {
    pub at: u64,
    pub version: u64,
}

/// A call: the number-th of its seat, with its first event.
///
/// `put` is the attempt of the call that was stamped. Of a get, `answer` is the attempt whose value
/// it answered. Of a scan that gave pairs, `draw` is where it drew its version.
#[derive(Debug, Drop, PartialEq, Eq)]
pub struct CallLog {
    pub seat: u32,
    pub number: u32,
    pub call: Call,
    pub first: u64,
    pub end: Option<End>,
    pub put: Option<usize>,
    pub answer: Option<usize>,
    pub draw: Option<Drawn>,
}

/// What an event changes beside the log.
#[derive(Debug, Drop, PartialEq, Eq)]
pub enum Change {
    Nothing,
    /// A seat began a call, its number-th.
    Begins {
        seat: u32,
        number: u32,
        call: Call,
    },
    /// A call was given a cell.
    Adds {
        call: usize,
        seat: u32,
        key: u32,
        value: Option<u64>,
        row: u32,
        cell: u32,
    },
    /// An attempt announced its cell.
    Announces(usize),
    /// An attempt lost its cell.
    Loses(usize),
    /// An attempt was stamped with a version, which a clock load gave.
    Stamps {
        attempt: usize,
        version: u64,
        load: u64,
    },
    /// A call ended.
    Ends {
        call: usize,
        reply: Reply,
        answer: Option<usize>,
        draw: Option<Drawn>,
    },
}

/// What a list of events did.
#[derive(Debug, Drop)]
pub struct History {
    log: Vec<Logged>,
    attempts: Vec<Attempt>,
    calls: Vec<CallLog>,
}

impl Model for History {
    ghost use Rattle.kw_core.specs.History.{Record};

    ghost Value = { Record };

    ghost view = { λ history. record {
      log = history.log.items;
      attempts = history.attempts.items;
      calls = history.calls.items;
    } };
}

impl History {
    /// The history of no events.
    pub fn new(alloc: Global) -> History
        ensures { result ≡ nothing_yet }
    {
        History {
            log: Vec::new(alloc),
            attempts: Vec::new(alloc),
            calls: Vec::new(alloc),
        }
    }

    /// How many events there were: the position of the next one.
    pub fn now(&self) -> u64
        ensures { result ≡ length self.now.log }
    {
        self.log.len() as u64
    }

    /// The events, in order.
    pub fn log(&self) -> &[Logged]
        ensures { result.now ≡ self.now.log }
    {
        &self.log
    }

    /// The puts and deletes that were given a cell, in the order in which they were.
    pub fn attempts(&self) -> &[Attempt]
        ensures { result.now ≡ self.now.attempts }
    {
        &self.attempts
    }

    /// The calls, in the order in which they began.
    pub fn calls(&self) -> &[CallLog]
        ensures { result.now ≡ self.now.calls }
    {
        &self.calls
    }

    /// Adds an event, and what it changed. The change names calls and attempts that are there.
    pub fn note(&mut self, logged: Logged, change: Change) -> Result<(), Memory>
        requires { IsWithin self.old change }
        ensures ok { OnOk result (self.new ≡ noted self.old logged change) }
        ensures err { OnErr result (self.new ≡ self.old) }
    {
        self.append(logged, &change)?;
        self.settle(change);
        Ok(())
    }

    /// Adds an event, and the call or the attempt that it began. All that takes memory is done
    /// here: `settle` is to follow once the event is made, or `forget` where it is not.
    pub fn append(&mut self, logged: Logged, change: &Change) -> Result<(), Memory>
        ensures ok { OnOk result (self.new ≡ appended self.old logged change.now) }
        ensures err { OnErr result (self.new ≡ self.old) }
    {
        let now = self.now();
        self.log.reserve(1)?;
        match change {
            Change::Begins { seat, number, call } => self.calls.push(CallLog {
                seat: *seat,
                number: *number,
                call: *call,
                first: now,
                end: None,
                put: None,
                answer: None,
                draw: None,
            })?,
            Change::Adds {
                call,
                seat,
                key,
                value,
                row,
                cell,
            } => self.attempts.push(Attempt {
                call: *call,
                value: *value,
                seat: *seat,
                key: *key,
                row: *row,
                cell: *cell,
                add: now,
                announced: 0,
                version: 0,
                load: 0,
                at: 0,
                is_announced: false,
                is_stamped: false,
                is_lost: false,
            })?,
            _ => {}
        }
        self.log.push(logged)?;
        Ok(())
    }

    /// Writes what the last event, which was appended with this change, changed in a call or an
    /// attempt that was there.
    pub fn settle(&mut self, change: Change)
        requires some { 1 ≤ length self.old.log }
        requires within { IsWithin self.old change }
        ensures log { self.new.log ≡ self.old.log }
        ensures attempts { self.new.attempts ≡ attempts_set (length self.old.log - 1) self.old
            change }
        ensures calls { self.new.calls ≡ calls_set (length self.old.log - 1) self.old change }
    {
        write_change(&self.log, &mut self.attempts, &mut self.calls, change);
    }

    /// Takes back the last event, which was appended with this change and is not made after all.
    pub fn forget(&mut self, change: &Change)
        ensures { (h : Record) (e : Logged) → self.old ≡ appended h e change.now → self.new ≡ h }
    {
        let _ = self.log.pop();
        match change {
            Change::Begins { .. } => {
                let _ = self.calls.pop();
            }
            Change::Adds { .. } => {
                let _ = self.attempts.pop();
            }
            _ => {}
        }
    }
}

/// Writes into both lists what the last event of the log changed in an attempt or a call that was
/// there.
fn write_change(
    log: &[Logged],
    attempts: &mut Vec<Attempt>,
    calls: &mut Vec<CallLog>,
    change: Change,
)
    requires some { 1 ≤ length log.now }
    requires within { IsWithin (record {
      log = log.now;
      attempts = attempts.old.items;
      calls =
          calls.old.items;
    }) change }
    ensures attempts { attempts.new.items ≡ attempts_set (length log.now - 1)
        (record { log = log.now; attempts = attempts.old.items; calls = calls.old.items }) change }
    ensures calls { calls.new.items ≡ calls_set (length log.now - 1)
        (record { log = log.now; attempts = attempts.old.items; calls = calls.old.items }) change }
{
    let now = log.len() as u64 - 1;
    match change {
        Change::Announces(attempt) => {
            let announced = &mut attempts[attempt];
            announced.is_announced = true;
            announced.announced = now;
        }
        Change::Loses(attempt) => attempts[attempt].is_lost = true,
        Change::Stamps {
            attempt,
            version,
            load,
        } => {
            let stamped = &mut attempts[attempt];
            stamped.is_stamped = true;
            stamped.version = version;
            stamped.load = load;
            stamped.at = now;
            calls[stamped.call].put = Some(attempt);
        }
        Change::Ends {
            call,
            reply,
            answer,
            draw,
        } => {
            let ended = &mut calls[call];
            ended.end = Some(End { at: now, reply });
            ended.answer = answer;
            ended.draw = draw;
        }
        _ => {}
    }
}
