//! What sessions print, and how they end.
ghost use Rattle.std.specs.Prelude.{IfOk};
ghost use Rattle.kw_map.specs.Kiwi.{IsIdle};

use crate::sources::Pieces;
use kiwid::session::{SessionEnd, session};
use kw_io::{MemSink, MemSource, Source};
use kw_map::{Kiwi, Pass};
use kw_model::memory::Memory;
use std::alloc::Global;
use std::process::Abort;
use std::sync::Wait;
use std::test::Fail;

/// Room for every text here but the longest ones.
const ROOM: u32 = 4096;

/// How many lines a session serves at most.
const MOST_LINES: u32 = 1_000_000;

/// A put and a get of its key.
const PUT_AND_GET: &[u8] = b"put 5 50\nget 5\n";

/// A new map of 64 rows, and its one pass.
fn open_one(alloc: Global) -> Result<(Kiwi, Pass), Memory>
    ensures { IfOk result (λ made. IsIdle made.0 made.1) }
{
    let (kiwi, mut passes) = Kiwi::open(alloc, 64, 1)?;
    let Some(pass) = passes.pop() else {
        unreachable!()
    };
    Ok((kiwi, pass))
}

/// Expects this text and this end of a session of the source on a new map, where the sink has so
/// much room.
fn expect<R: Wait + Abort, S: Source>(
    rt: &R,
    alloc: Global,
    (source, room): (&mut S, u32),
    (text, end): (&[u8], SessionEnd),
) -> Result<(), Fail> {
    let (kiwi, mut pass) = open_one(alloc)?;
    let mut sink = MemSink::new(alloc, room, Vec::new(alloc))?;
    let ended = session(rt, alloc, &kiwi, &mut pass, source, &mut sink);
    assert_eq!(rt; sink.written(), text);
    assert_eq!(rt; ended, end);
    Ok(())
}

#[test]
fn replies_are_the_same_by_single_bytes_and_by_one_read(rt: HostRuntime) -> Result<(), Fail> {
    let alloc = rt.alloc();
    let ended = SessionEnd::Ended;
    let bad = SessionEnd::Bad;
    let long = [b'x'; 65];
    let mut fed = [b'x'; 65];
    fed[64] = b'\n';
    let mut long_and_fed = [b'x'; 66];
    long_and_fed[65] = b'\n';
    let table: [(&[u8], &[u8], SessionEnd); 15] = [
        (PUT_AND_GET, b"ok\n50\n", ended),
        (b"get 1\nwait\n", b"none\nbad line 2\n", bad(2)),
        (b"put 1 1\npin\nput 1 2\n", b"ok\nbad line 2\n", bad(2)),
        (b"unpin\n", b"bad line 1\n", bad(1)),
        (b"at list 0 9\n", b"bad line 1\n", bad(1)),
        (
            b"put 1 7\nput 9 8\nlist 0 9\nsum 0 9\ndel 1\ncount 0 9\n",
            b"ok\nok\n1=7 9=8\n15\nok\n1\n",
            ended,
        ),
        (b"", b"", ended),
        (b"get 1", b"none\n", ended),
        (b"\n", b"bad line 1\n", bad(1)),
        (b"get 1\r\n", b"bad line 1\n", bad(1)),
        (b"get 1\nget 1 \nget 1\n", b"none\nbad line 2\n", bad(2)),
        (&long[..64], b"bad line 1\n", bad(1)),
        (&fed, b"bad line 1\n", bad(1)),
        (&long, b"bad line 1\n", bad(1)),
        (&long_and_fed, b"bad line 1\n", bad(1)),
    ];
    for (bytes, text, end) in table {
        let mut singly = Pieces {
            bytes,
            first: 1,
            then: 1,
        };
        expect(&rt, alloc, (&mut singly, ROOM), (text, end))?;
        expect(&rt, alloc, (&mut Pieces::whole(bytes), ROOM), (text, end))?;
    }
    Ok(())
}

#[test]
fn a_cut_at_any_place_does_not_show(rt: HostRuntime) -> Result<(), Fail> {
    for place in 1..PUT_AND_GET.len() {
        let mut cut = Pieces {
            bytes: PUT_AND_GET,
            first: place,
            then: PUT_AND_GET.len(),
        };
        expect(
            &rt,
            rt.alloc(),
            (&mut cut, ROOM),
            (b"ok\n50\n", SessionEnd::Ended),
        )?;
    }
    Ok(())
}

#[test]
fn a_line_that_is_too_long_is_refused_after_one_read(rt: HostRuntime) -> Result<(), Fail> {
    let bytes = vec![in rt.alloc(); b'x'; 1_000_065]?;
    let mut source = Pieces::whole(&bytes);
    expect(
        &rt,
        rt.alloc(),
        (&mut source, ROOM),
        (b"bad line 1\n", SessionEnd::Bad(1)),
    )?;
    assert_eq!(rt; source.bytes.len(), 995_969);
    Ok(())
}

#[test]
fn a_read_that_fails_ends_the_session(rt: HostRuntime) -> Result<(), Fail> {
    let alloc = rt.alloc();
    let bytes = Vec::from_slice(alloc, PUT_AND_GET)?;
    let mut source = MemSource::new(bytes, Vec::from_slice(alloc, &[0])?);
    expect(
        &rt,
        alloc,
        (&mut source, ROOM),
        (b"", SessionEnd::ReadFault),
    )?;
    let bytes = Vec::from_slice(alloc, PUT_AND_GET)?;
    let mut source = MemSource::new(bytes, Vec::from_slice(alloc, &[1])?);
    expect(
        &rt,
        alloc,
        (&mut source, ROOM),
        (b"ok\n50\n", SessionEnd::ReadFault),
    )
}

#[test]
fn a_write_that_fails_ends_the_session_with_its_call_made(rt: HostRuntime) -> Result<(), Fail> {
    let alloc = rt.alloc();
    let source = &mut Pieces::whole(PUT_AND_GET);
    expect(&rt, alloc, (source, 4), (b"ok\n5", SessionEnd::WriteFault))?;
    let source = &mut Pieces::whole(b"get 1\nwait\n");
    expect(
        &rt,
        alloc,
        (source, 9),
        (b"none\nbad ", SessionEnd::WriteFault),
    )?;
    let (kiwi, mut pass) = open_one(alloc)?;
    let mut sink = MemSink::new(alloc, 4, Vec::new(alloc))?;
    let mut source = Pieces::whole(b"put 1 10\nput 2 20\nput 3 30\n");
    let end = session(&rt, alloc, &kiwi, &mut pass, &mut source, &mut sink);
    assert_eq!(rt; end, SessionEnd::WriteFault);
    assert_eq!(rt; kiwi.get(&mut pass, 2), Some(20));
    assert_eq!(rt; kiwi.get(&mut pass, 3), None);
    Ok(())
}

#[test]
fn a_million_lines_are_served_and_a_further_byte_is_not(rt: HostRuntime) -> Result<(), Fail> {
    let alloc = rt.alloc();
    let mut bytes = Vec::new(alloc);
    let mut text = Vec::new(alloc);
    for _ in 0..MOST_LINES {
        bytes.extend_from_slice(b"put 1 1\n")?;
        text.extend_from_slice(b"ok\n")?;
    }
    let room = 3_000_064;
    let source = &mut Pieces::whole(&bytes);
    expect(&rt, alloc, (source, room), (&text, SessionEnd::Ended))?;
    bytes.push(b'p')?;
    let source = &mut Pieces::whole(&bytes);
    expect(&rt, alloc, (source, room), (&text, SessionEnd::Limit))
}
