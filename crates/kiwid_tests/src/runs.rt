//! Whole runs of the server over binders in memory.
use crate::seats::{Handed, expect_served, listener_of};
use kiwid::binding::MemBinder;
use kiwid::server::kiwid_run;
use kiwid::session::SessionEnd;
use kw_command::word::Word;
use kw_model::memory::Memory;
use std::alloc::Global;
use std::process::Abort;
use std::sync::Wait;
use std::test::Fail;
use std::thread::Threads;

/// The words with these texts.
fn words_of(alloc: Global, texts: &[&str]) -> Result<Vec<Word>, Memory> {
    let mut words = Vec::new(alloc);
    for text in texts {
        words.push(Word::new(String::from_str(alloc, text)?))?;
    }
    Ok(words)
}

/// Expects that a run with these words ends with this code, where one listener may be bound, whose
/// links have these bytes to read, and that this is handed back by its seats.
fn expect_run<R: Threads + Wait + Abort + Sync>(
    rt: &R,
    alloc: Global,
    (words, inputs): (&[&str], &[&[u8]]),
    code: u8,
    handed: &[Handed],
) -> Result<(), Fail> {
    let words = words_of(alloc, words)?;
    let listeners = Vec::from_array(alloc, [listener_of(alloc, inputs)?])?;
    let mut binder = MemBinder::new(alloc, listeners);
    let end = kiwid_run(rt, alloc, &words, &mut binder);
    assert_eq!(rt; end.status.code(), code);
    expect_served(rt, &end.served, handed);
    Ok(())
}

#[test]
fn bad_words_bind_nothing(rt: HostRuntime) -> Result<(), Fail> {
    let table: [&[&str]; 14] = [
        &[],
        &["4000"],
        &["4000", "1"],
        &["0", "1", "1"],
        &["65536", "1", "1"],
        &["4000", "0", "1"],
        &["4000", "17", "1"],
        &["4000", "1", "0"],
        &["4000", "1", "1000001"],
        &["00000004000", "1", "1"],
        &["+4000", "1", "1"],
        &["4000", "", "1"],
        &["4000", "1", "1", "1"],
        &["4000", "1", "4294967297"],
    ];
    for words in table {
        expect_run(&rt, rt.alloc(), (words, &[]), 2, &[])?;
    }
    Ok(())
}

#[test]
fn links_in_memory_are_served(rt: HostRuntime) -> Result<(), Fail> {
    let inputs: [&[u8]; 2] = [b"put 5 50\nget 5\n", b"get 5"];
    let table: [&[&str]; 3] = [
        &["4000", "1", "1"],
        &["0004000", "01", "1"],
        &["65535", "0000000001", "1"],
    ];
    let handed: [Handed; 1] = [(&[SessionEnd::Ended], &[b"ok\n50\n"])];
    for words in table {
        expect_run(&rt, rt.alloc(), (words, &inputs), 0, &handed)?;
    }
    Ok(())
}

// One listener is there, and two are asked for, or as many as may be.
#[test]
fn a_bind_that_fails_is_told(rt: HostRuntime) -> Result<(), Fail> {
    let inputs: [&[u8]; 2] = [b"get 5", b"get 5"];
    for seats in ["2", "16"] {
        expect_run(&rt, rt.alloc(), (&["4000", seats, "1"], &inputs), 4, &[])?;
    }
    Ok(())
}

#[test]
fn a_listener_that_fails_is_told(rt: HostRuntime) -> Result<(), Fail> {
    let inputs: [&[u8]; 1] = [b"get 5\nwait\n"];
    let handed: [Handed; 1] = [(&[SessionEnd::Bad(2)], &[b"none\nbad line 2\n"])];
    expect_run(&rt, rt.alloc(), (&["4000", "1", "2"], &inputs), 4, &handed)
}
