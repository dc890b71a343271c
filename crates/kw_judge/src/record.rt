//! What a record holds.
//!
//! The plain types of this crate: a call's [`Name`], and a call that was answered and one that was
//! not. `specs/Texts.antt` has the text of each line, `specs/Record.antt` the ranges of their
//! numbers.
ghost use Rattle.std.specs.Prelude.{◌≡◌};
ghost use Rattle.kw_judge.specs.Record.{IsRecord};

use kw_model::call::{Call, Reply};
use std::marker::Model;

/// How many seats a record may speak of.
pub const RECORD_SEATS: u32 = 16;

/// The greatest number that a call may have among the calls of its seat.
pub const MOST_NUMBER: u32 = 100_000;

/// The greatest position at which a call may begin or end.
pub const MOST_POSITION: u64 = 9_223_372_036_854_775_807;

/// How many calls a record may have.
pub const MOST_CALLS: usize = 100_000;

/// The name of a call: the seat that made it, and its number among the calls of the seat, from 1
/// on.
#[derive(Clone, Copy, Debug, PartialEq, Eq)]
pub struct Name {
    pub seat: u32,
    pub number: u32,
}

/// A call that was answered: the positions of its first and of its last event, what was asked and
/// what was answered.
#[derive(Debug, Drop, PartialEq, Eq)]
pub struct DoneCall {
    pub name: Name,
    pub first: u64,
    pub last: u64,
    pub call: Call,
    pub reply: Reply,
}

/// A put or delete that was not answered and took effect: the position of its first event, and what
/// was asked.
#[derive(Clone, Copy, Debug, PartialEq, Eq)]
pub struct OpenCall {
    pub name: Name,
    pub first: u64,
    pub call: Call,
}

/// A run, call by call, and the order in which its calls are claimed to stand.
///
/// The numbers of each line are in range, no name stands in two lines, and there are at most
/// `MOST_CALLS` lines.
#[derive(Debug, Drop)]
pub struct Record {
    done: Vec<DoneCall>,
    open_calls: Vec<OpenCall>,
    order: Vec<Name>,
}

impl Model for Record {
    ghost use Rattle.kw_judge.specs.Record.{RecordView, IsRecord};

    ghost Value = { RecordView };

    ghost view = { λ written. record { done = written.done.items; open_calls = written.open_calls.items; order = written.order.items } };

    ghost invariant = { λ written. IsRecord (record { done = written.done.items; open_calls = written.open_calls.items; order = written.order.items }) };
}

impl Record {
    /// The record of these lists.
    pub fn new(done: Vec<DoneCall>, open_calls: Vec<OpenCall>, order: Vec<Name>) -> Record
        requires { IsRecord (record {
          done = done.items;
          open_calls = open_calls.items;
          order = order.items;
        }) }
        ensures { result ≡ record {
          done = done.items;
          open_calls = open_calls.items;
          order = order.items;
        } }
    {
        Record {
            done,
            open_calls,
            order,
        }
    }

    /// The calls that were answered.
    pub fn done(&self) -> &[DoneCall]
        ensures value { result.now ≡ self.now.done }
        ensures fits { IsRecord self.now }
    {
        &self.done
    }

    /// The puts and deletes that were not answered and took effect.
    pub fn open_calls(&self) -> &[OpenCall]
        ensures value { result.now ≡ self.now.open_calls }
        ensures fits { IsRecord self.now }
    {
        &self.open_calls
    }

    /// The order that is claimed.
    pub fn order(&self) -> &[Name]
        ensures value { result.now ≡ self.now.order }
        ensures fits { IsRecord self.now }
    {
        &self.order
    }
}
