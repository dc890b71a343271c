//! The replies of a session: each is made as one text and written whole.
ghost use Rattle.std.specs.Prelude.{◌≡◌, ◌≤◌, ◌<◌, ◌+◌, ◌++◌, ◌∷◌, [], IfOk, IfErr, OnOk};
ghost use Rattle.std.specs.Io.KnownBytes.{Appends};
ghost use Rattle.kw_model.specs.Counts.{CountRose};
ghost use Rattle.kiwid.specs.Requests.{answer_line, bad_text};
ghost use Rattle.kiwid.specs.Lines.{IsCutShort, IsEndAtLine, Refuses};
ghost use Rattle.kiwid.specs.declared.request.TheConstants.{MOST_LINES};

use crate::request::MOST_LINES;
use crate::session::SessionEnd;
use kw_io::{Sink, write_all};
use kw_line::answer::Answer;
use kw_line::number::push_number;
use kw_line::print::push_answer;
use kw_line::words::LINE_FEED;
use kw_model::memory::Memory;
use std::alloc::Global;

/// How many lines of a session were answered whole, and the room in which each reply is made.
#[derive(Drop)]
pub(crate) struct Replies {
    pub(crate) count: u32,
    text: Vec<u8>,
}

impl Replies {
    /// No line is answered yet.
    pub(crate) fn new(alloc: Global) -> Replies
        ensures { result.count ≡ 0 }
    {
        Replies {
            count: 0,
            text: Vec::new(alloc),
        }
    }

    /// Answers the next line: writes its answer, and counts it.
    pub(crate) fn say<K: Sink>(&mut self, sink: &mut K, answer: &Answer) -> Result<(), SessionEnd>
        requires few { self.old.count < MOST_LINES }
        ensures said { OnOk result
            (Appends (K.written sink.old) (K.written sink.new) (answer_line answer.now)) }
        ensures counted { OnOk result (self.new.count ≡ self.old.count + 1) }
        ensures few { self.new.count ≤ MOST_LINES }
        ensures stops { IfErr result (λ end. IsCutShort end (answer_line answer.now)
            (K.written sink.old) (K.written sink.new)) }
        ensures cause { IfErr result (λ end.
            IsEndAtLine end (CountRose (K.faults sink.old) (K.faults sink.new))) }
        ensures never_falls { K.faults sink.old ≤ K.faults sink.new }
    {
        if self.make_answer(answer).is_err() {
            return Err(SessionEnd::Memory);
        }
        if write_all(sink, &self.text).is_err() {
            return Err(SessionEnd::WriteFault);
        }
        self.count += 1;
        Ok(())
    }

    /// Says that the next line is a bad one.
    pub(crate) fn refuse<K: Sink>(&mut self, sink: &mut K) -> SessionEnd
        requires few { self.old.count ≤ MOST_LINES }
        ensures few { self.new.count ≤ MOST_LINES }
        ensures refuses { Refuses self.old.count result (K.written sink.old) (K.written sink.new) }
        ensures cause { IsEndAtLine result (CountRose (K.faults sink.old) (K.faults sink.new)) }
        ensures never_falls { K.faults sink.old ≤ K.faults sink.new }
    {
        let line = self.count + 1;
        if self.make_bad_line(line).is_err() {
            return SessionEnd::Memory;
        }
        match write_all(sink, &self.text) {
            Ok(()) => SessionEnd::Bad(line),
            Err(_) => SessionEnd::WriteFault,
        }
    }

    fn make_answer(&mut self, answer: &Answer) -> Result<(), Memory>
        ensures text { OnOk result (self.new.text.items ≡ answer_line answer.now) }
        ensures count { self.new.count ≡ self.old.count }
    {
        self.text.clear();
        push_answer(&mut self.text, answer)?;
        self.text.push(LINE_FEED)?;
        Ok(())
    }

    fn make_bad_line(&mut self, line: u32) -> Result<(), Memory>
        ensures text { OnOk result (self.new.text.items ≡ bad_text line) }
        ensures count { self.new.count ≡ self.old.count }
    {
        self.text.clear();
        self.text.extend_from_slice(b"bad line ")?;
        push_number(&mut self.text, u128::from(line))?;
        self.text.push(LINE_FEED)?;
        Ok(())
    }
}
