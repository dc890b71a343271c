//! One session.
//!
//! What was read and not yet asked is held. Each line at the front of it is asked and answered, one
//! after the other; what stands behind the last line feed waits for the next read. So the cut of
//! the bytes into reads never shows.
ghost use Rattle.std.specs.Prelude.{◌≡◌, ◌≢◌, ◌<◌, ◌≤◌, ◌+◌, ◌++◌, ◌∷◌, ℕ, List, [], length, drop, IfOk, IfErr, MatchOption, OnOk, OnErr, All, Some};
ghost use Rattle.std.specs.Io.KnownBytes.{IsAtEnd};
ghost use Rattle.std.specs.List.{AllByRecursion};
ghost use Rattle.kw_model.specs.Counts.{CountRose};
ghost use Rattle.kw_line.specs.Cut.{lines};
ghost use Rattle.kw_line.specs.declared.words.TheConstants.{LINE_FEED};
ghost use Rattle.kw_follow.specs.Calling.{calls_in};
ghost use Rattle.kw_map.specs.Kiwi.{IsIdle};
ghost use Rattle.kw_table.specs.Passes.{view};
ghost use Rattle.kiwid.specs.Requests.{IsGood, IsRequestIn};
ghost use Rattle.kiwid.specs.Session.{AreCaused, Ends, IfReadFault, IfWriteFault, IsServedWhole, ReadsOn, Session};
ghost use Rattle.kiwid.specs.Lines.{AnswersUpTo, IsEndAtLine, IsEndOfLines, LineDone, LineStops, StaysIdle};
ghost use Rattle.kiwid.specs.declared.request.TheConstants.{MOST_BYTES, MOST_LINES};

use crate::replies::Replies;
use crate::request::{MOST_BYTES, MOST_LINES, Request, read_request};
use kw_ask::asking::ask;
use kw_io::{PIECE, Sink, Source};
use kw_line::words::LINE_FEED;
use kw_map::Pass;
use kw_map::kiwi::Kiwi;
use std::alloc::Global;
use std::sync::Wait;

/// How a session ended.
#[derive(Clone, Copy, Debug, PartialEq, Eq)]
pub enum SessionEnd {
    /// The source was read to its end, and each line was served.
    Ended,
    /// This line, the first one that is no request or is too long, was reached. Lines count from 1.
    Bad(u32),
    /// As many lines as a session serves were served, and a further byte came.
    Limit,
    /// A read failed.
    ReadFault,
    /// A write failed.
    WriteFault,
    /// Memory was wanted and not found.
    Memory,
}

/// Asks the lines of a source, one after the other, and writes each reply before the next line is
/// asked.
///
/// The pass is one of this map and idle, as it is after every end. A line has at most
/// [`MOST_BYTES`] bytes before its line feed, which the last line may lack, and at most
/// [`MOST_LINES`] lines are served. The first line that is none of a session is answered by `bad
/// line` and its number, and ends it. At a read or write fault, and where memory is wanted, the
/// lines before have been served whole; of the line at hand the call may have been made, and of its
/// reply a first part written. Memory is the one end without a cause. A line is told `no rows` or
/// `spent` only where its call found so.
pub fn session<R: Wait, S: Source, K: Sink>(
    rt: &R,
    alloc: Global,
    kiwi: &Kiwi,
    pass: &mut Pass,
    source: &mut S,
    sink: &mut K,
) -> SessionEnd
    requires idle { IsIdle kiwi.now pass.old }
    ensures stays { StaysIdle kiwi.now pass.old pass.new }
    ensures served { Session (S.left source.old) result (calls_in pass.old) (calls_in pass.new)
        (K.written sink.old) (K.written sink.new) }
    ensures reads_on { ReadsOn (S.left source.old) (S.left source.new)
        (calls_in pass.old) (calls_in pass.new) }

    // Why a line was refused: its call is among those of the pass, and its seat found this in it.
    ensures causes { AreCaused (view pass.new).opening (view pass.new).seen pass.new }

    // Why it ended so.
    ensures ended { result ≡ SessionEnd.Ended → IsAtEnd (S.left source.new) }
    ensures read_fault { IfReadFault result (CountRose (S.faults source.old) (S.faults source.new)) }
    ensures write_fault { IfWriteFault result (CountRose (K.faults sink.old) (K.faults sink.new)) }
    ensures whole { (bytes : List ℕ) → S.left source.old ≡ Some bytes
        → AllByRecursion IsGood (lines bytes) → length (lines bytes) ≤ MOST_LINES
        → (CountRose (S.faults source.old) (S.faults source.new) → ⊥)
        → (CountRose (K.faults sink.old) (K.faults sink.new) → ⊥) → IsServedWhole result }
{
    answer_reads(rt, alloc, kiwi, pass, source, sink)
}

/// The same, by a loop over the reads.
fn answer_reads<R: Wait, S: Source, K: Sink>(
    rt: &R,
    alloc: Global,
    kiwi: &Kiwi,
    pass: &mut Pass,
    source: &mut S,
    sink: &mut K,
) -> SessionEnd
    requires idle { IsIdle kiwi.now pass.old }
    ensures stays { StaysIdle kiwi.now pass.old pass.new }
    ensures served { Session (S.left source.old) result (calls_in pass.old) (calls_in pass.new)
        (K.written sink.old) (K.written sink.new) }
    ensures reads_on { ReadsOn (S.left source.old) (S.left source.new)
        (calls_in pass.old) (calls_in pass.new) }
    ensures ended { result ≡ SessionEnd.Ended → IsAtEnd (S.left source.new) }
    ensures read_fault { IfReadFault result (CountRose (S.faults source.old) (S.faults source.new)) }
    ensures write_fault { IfWriteFault result (CountRose (K.faults sink.old) (K.faults sink.new)) }
{
    let mut replies = Replies::new(alloc);
    let mut held = Vec::new(alloc);
    let mut piece = [0u8; PIECE];
    for _ in rt.forever() {
        let Ok(more) = source.read(&mut piece) else {
            return SessionEnd::ReadFault;
        };
        if more == 0 {
            return last_line(rt, alloc, kiwi, pass, sink, &held, &mut replies);
        }
        if held.extend_from_slice(&piece[..more]).is_err() {
            return SessionEnd::Memory;
        }
        match whole_lines(rt, alloc, kiwi, pass, sink, &held, &mut replies) {
            Ok(at) => drop_front(&mut held, at),
            Err(end) => return end,
        }
    }
    unreachable!()
}

fn drop_front(held: &mut Vec<u8>, at: usize)
    requires { at ≤ length held.old.items }
    ensures { held.new.items ≡ drop at held.old.items }
{
    held.drain(..at);
}

/// What is held at the end of the source: no line, or a last one without its line feed.
fn last_line<R: Wait, K: Sink>(
    rt: &R,
    alloc: Global,
    kiwi: &Kiwi,
    pass: &mut Pass,
    sink: &mut K,
    held: &[u8],
    replies: &mut Replies,
) -> SessionEnd
    requires idle { IsIdle kiwi.now pass.old }
    requires one_line { All (λ byte. byte ≢ LINE_FEED) held.now }
    requires few { replies.old.count ≤ MOST_LINES }
    requires room { replies.old.count ≡ MOST_LINES → held.now ≡ [] }
    ensures stays { StaysIdle kiwi.now pass.old pass.new }
    ensures ends { Ends held.now replies.old.count result (calls_in pass.old) (calls_in pass.new)
        (K.written sink.old) (K.written sink.new) }
    ensures cause { IsEndOfLines result (CountRose (K.faults sink.old) (K.faults sink.new)) }
    ensures never_falls { K.faults sink.old ≤ K.faults sink.new }
{
    if held.is_empty() {
        return SessionEnd::Ended;
    }
    match one_line(rt, alloc, kiwi, pass, sink, held, replies) {
        Ok(()) => SessionEnd::Ended,
        Err(end) => end,
    }
}

/// Asks and answers each whole line of what is held, and says where the rest begins: it is no whole
/// line, and not too long for one.
fn whole_lines<R: Wait, K: Sink>(
    rt: &R,
    alloc: Global,
    kiwi: &Kiwi,
    pass: &mut Pass,
    sink: &mut K,
    held: &[u8],
    replies: &mut Replies,
) -> Result<usize, SessionEnd>
    requires idle { IsIdle kiwi.now pass.old }
    requires few { replies.old.count ≤ MOST_LINES }
    ensures stays { StaysIdle kiwi.now pass.old pass.new }
    ensures few { replies.new.count ≤ MOST_LINES }
    ensures answers { IfOk result (λ at. AnswersUpTo held.now at (calls_in pass.old)
        (calls_in pass.new) (K.written sink.old) (K.written sink.new)
        replies.old.count replies.new.count) }
    ensures ends { IfErr result (λ end. (more : List ℕ) → Ends (held.now ++ more)
        replies.old.count end (calls_in pass.old) (calls_in pass.new)
        (K.written sink.old) (K.written sink.new)) }
    ensures cause { IfErr result (λ end.
        IsEndAtLine end (CountRose (K.faults sink.old) (K.faults sink.new))) }
    ensures never_falls { K.faults sink.old ≤ K.faults sink.new }
{
    let mut at = 0;
    while at < held.len() {
        let count = replies.count;
        if count == MOST_LINES {
            return Err(SessionEnd::Limit);
        }
        let rest = &held[at..];
        let Some((line, _)) = cut(rest) else {
            if rest.len() > MOST_BYTES {
                return Err(replies.refuse(sink));
            }
            return Ok(at);
        };
        if let Err(end) = one_line(rt, alloc, kiwi, pass, sink, line, replies) {
            return Err(end);
        }
        at += line.len() + 1;
    }
    Ok(at)
}

/// What stands before the first line feed, and what stands behind it.
fn cut(bytes: &[u8]) -> Option<(&[u8], &[u8])>
    ensures { MatchOption result
        (All (λ byte. byte ≢ LINE_FEED) bytes.now)
        (λ parts. (bytes.now ≡ parts.0.now ++ LINE_FEED ∷ parts.1.now)
        × All (λ byte. byte ≢ LINE_FEED) parts.0.now) }
{
    let end = bytes.iter().position(|byte| *byte == LINE_FEED)?;
    Some((&bytes[..end], &bytes[end + 1..]))
}

/// Asks and answers the next line, or says that it is a bad one.
fn one_line<R: Wait, K: Sink>(
    rt: &R,
    alloc: Global,
    kiwi: &Kiwi,
    pass: &mut Pass,
    sink: &mut K,
    line: &[u8],
    replies: &mut Replies,
) -> Result<(), SessionEnd>
    requires idle { IsIdle kiwi.now pass.old }
    requires few { replies.old.count < MOST_LINES }
    ensures stays { StaysIdle kiwi.now pass.old pass.new }
    ensures few { replies.new.count ≤ MOST_LINES }
    ensures done { OnOk result (LineDone line.now (calls_in pass.old) (calls_in pass.new)
        (K.written sink.old) (K.written sink.new) × (replies.new.count ≡ replies.old.count + 1)) }
    ensures stops { IfErr result (λ end. LineStops line.now replies.old.count end
        (calls_in pass.old) (calls_in pass.new) (K.written sink.old) (K.written sink.new)) }
    ensures cause { IfErr result (λ end.
        IsEndAtLine end (CountRose (K.faults sink.old) (K.faults sink.new))) }
    ensures never_falls { K.faults sink.old ≤ K.faults sink.new }
{
    let Some(Request::Plain(call, form)) = request_in(line) else {
        return Err(replies.refuse(sink));
    };
    let Ok(answer) = ask(rt, alloc, kiwi, pass, call, form) else {
        return Err(SessionEnd::Memory);
    };
    replies.say(sink, &answer)
}

/// The request of a good line, or none.
fn request_in(line: &[u8]) -> Option<Request>
    ensures { MatchOption result (IsGood line.now → ⊥) (IsRequestIn line.now) }
{
    if line.len() > MOST_BYTES {
        return None;
    }
    read_request(line)
}
