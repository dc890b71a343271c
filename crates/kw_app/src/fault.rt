//! The one line on standard error with which a run that did not do all it was asked says why.
ghost use Rattle.std.specs.Prelude.{◌≡◌, ◌++◌, ◌≤◌, OnOk, OnErr, codes, decimal};
ghost use Rattle.std.specs.Io.KnownBytes.{Appends};
ghost use Rattle.kw_io.specs.Bytes.{AppendsPrefix};
ghost use Rattle.kw_model.specs.Counts.{CountRose};
ghost use Rattle.kw_app.specs.Status.{fault_text, line_of, status_text};

use crate::outcome::{Outcome, Status};
use itoa::Buffer;
use kw_io::{Sink, WriteFault, write_all};
use kw_line::words::LINE_FEED;

/// Writes the fault line of a run that ended so, and a line feed, or nothing where the whole text
/// was written. It takes no memory.
///
/// `WriteFault` comes only where the sink counted a fault in this call; a prefix of the line was
/// then written.
pub fn write_fault<K: Sink>(outcome: &Outcome, sink: &mut K) -> Result<(), WriteFault>
    ensures all { OnOk result (Appends (K.written sink.old) (K.written sink.new)
        (fault_text outcome.now)) }
    ensures prefix { OnErr result (AppendsPrefix (K.written sink.old) (K.written sink.new)
        (fault_text outcome.now)) }
    ensures fault { OnErr result (CountRose (K.faults sink.old) (K.faults sink.new)) }
    ensures never_falls { K.faults sink.old ≤ K.faults sink.new }
{
    if outcome.line == 0 {
        return write_all(sink, fixed_line(outcome.status));
    }
    match outcome.status {
        Status::BadInput => write_bad_line(sink, outcome.line),
        status => write_all(sink, fixed_line(status)),
    }
}

/// The fault line of a status, where no line of the input is named.
fn fixed_line(status: Status) -> &'static [u8]
    ensures { result.now ≡ status_text status 0 }
{
    match status {
        Status::Done => b"",
        Status::BadWords => b"bad words\n",
        Status::BadInput => b"input too long\n",
        Status::ReadFault => b"read fault\n",
        Status::WriteFault => b"write fault\n",
        Status::OutOfMemory => b"out of memory\n",
        Status::NotLegal => b"not legal\n",
        Status::Refused => b"some calls were refused\n",
    }
}

/// Writes that this line is bad, and a line feed.
fn write_bad_line<K: Sink>(sink: &mut K, line: u32) -> Result<(), WriteFault>
    ensures all { OnOk result (Appends (K.written sink.old) (K.written sink.new)
        (line_of (codes "bad line " ++ decimal line))) }
    ensures prefix { OnErr result
        (AppendsPrefix (K.written sink.old) (K.written sink.new) (line_of (codes "bad line " ++ decimal line))) }
    ensures fault { OnErr result (CountRose (K.faults sink.old) (K.faults sink.new)) }
    ensures never_falls { K.faults sink.old ≤ K.faults sink.new }
{
    let mut digits = Buffer::new();
    write_all(sink, b"bad line ")?;
    write_all(sink, digits.format(line).as_bytes())?;
    write_all(sink, &[LINE_FEED])
}
