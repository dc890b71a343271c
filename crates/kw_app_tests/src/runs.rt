//! Runs over streams in memory, and how they end.
use kw_app::outcome::{Outcome, Status};
use kw_app::run::run;
use kw_app::working::NoGate;
use kw_command::word::Word;
use kw_io::{MemSink, MemSource};
use std::alloc::{AllocError, Global};
use std::process::Abort;
use std::sync::Wait;
use std::test::Fail;
use std::thread::Threads;

/// Room for every text here.
pub(crate) const ROOM: u32 = 65_536;

/// A replay on a small map, which is opened quickly: what a table of many runs is about needs no
/// more rows.
pub(crate) const SMALL_REPLAY: [&str; 3] = ["replay", "--rows", "64"];

/// The end of a run: its status, its line, and what it wrote.
#[derive(Drop)]
pub(crate) struct Ended {
    pub(crate) outcome: Outcome,
    pub(crate) written: Vec<u8>,
}

/// The reads and the writes of a run that fail, by their numbers from 0, and the room of its sink.
#[derive(Clone, Copy, Debug, PartialEq, Eq)]
pub(crate) struct Faults<'f> {
    pub(crate) reads: &'f [u32],
    pub(crate) writes: &'f [u32],
    pub(crate) room: u32,
}

/// No fault, and ample room.
pub(crate) const NO_FAULTS: Faults<'static> = Faults {
    reads: &[],
    writes: &[],
    room: ROOM,
};

fn words(alloc: Global, texts: &[&str]) -> Result<Vec<Word>, AllocError> {
    let mut words = Vec::new(alloc);
    for text in texts {
        words.push(Word::new(String::from_str(alloc, text)?))?;
    }
    Ok(words)
}

/// Runs these words on an input, with these faults.
pub(crate) fn ran<R: Threads + Wait + Sync>(
    rt: &R,
    alloc: Global,
    texts: &[&str],
    input: &[u8],
    faults: Faults<'_>,
) -> Result<Ended, Fail> {
    let words = words(alloc, texts)?;
    let bytes = Vec::from_slice(alloc, input)?;
    let mut source = MemSource::new(bytes, Vec::from_slice(alloc, faults.reads)?);
    let mut sink = MemSink::new(alloc, faults.room, Vec::from_slice(alloc, faults.writes)?)?;
    let outcome = run(rt, alloc, &words, &mut source, &mut sink, &NoGate);
    let written = Vec::from_slice(alloc, sink.written())?;
    Ok(Ended { outcome, written })
}

/// Expects that the run ended with this status and line, and wrote this text.
pub(crate) fn expect_end(
    rt: &impl Abort,
    ended: &Ended,
    status: Status,
    line: u32,
    text: &[u8],
    case: usize,
) {
    assert_eq!(rt;
        (
            ended.outcome.status,
            ended.outcome.line,
            ended.written.as_slice()
        ),
        (status, line, text),
        "in case {case}"
    );
}
