//! Lines answered by workers, over streams in memory that do not fail.
use kw_app::outcome::{Outcome, Status};
use kw_app::run::run;
use kw_app::working::Gate;
use kw_command::word::Word;
use kw_io::{MemSink, MemSource};
use std::alloc::{AllocError, Global};
use std::process::Abort;
use std::sync::Wait;
use std::test::Fail;
use std::thread::Threads;

/// Room for every text here.
const ROOM: u32 = 262_144;

/// The end of a run: its status, its line, and what it wrote.
#[derive(Drop)]
pub(crate) struct Ended {
    pub(crate) outcome: Outcome,
    pub(crate) written: Vec<u8>,
}

fn words(alloc: Global, texts: &[&str]) -> Result<Vec<Word>, AllocError> {
    let mut words = Vec::new(alloc);
    for text in texts {
        words.push(Word::new(String::from_str(alloc, text)?))?;
    }
    Ok(words)
}

/// Has so many workers answer the lines of an input, past a gate.
pub(crate) fn replayed<R: Threads + Wait + Sync, G: Gate + Sync>(
    rt: &R,
    alloc: Global,
    workers: &str,
    input: &[u8],
    gate: &G,
) -> Result<Ended, Fail> {
    let words = words(alloc, &["replay", "--workers", workers])?;
    let mut source = MemSource::new(Vec::from_slice(alloc, input)?, Vec::new(alloc));
    let mut sink = MemSink::new(alloc, ROOM, Vec::new(alloc))?;
    let outcome = run(rt, alloc, &words, &mut source, &mut sink, gate);
    let written = Vec::from_slice(alloc, sink.written())?;
    Ok(Ended { outcome, written })
}

/// Expects that a run wrote these replies, and was done.
pub(crate) fn expect_replies(rt: &impl Abort, ended: &Ended, replies: &[u8]) {
    assert_eq!(rt;
        (
            ended.outcome.status,
            ended.outcome.line,
            ended.written.as_slice()
        ),
        (Status::Done, 0, replies)
    );
}
