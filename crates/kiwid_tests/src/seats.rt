//! What a seat serves, over a listener in memory.
ghost use Rattle.std.specs.Prelude.{IfOk};
ghost use Rattle.kiwid.specs.MemLinks.{IsUnused};

use kiwid::links::{Link, MemListener};
use kiwid::serving::{Served, seated, serve};
use kiwid::session::SessionEnd;
use kw_io::{MemSink, MemSource};
use kw_map::Kiwi;
use kw_model::memory::Memory;
use std::alloc::Global;
use std::process::Abort;
use std::sync::Wait;
use std::test::Fail;
use std::thread::Threads;

/// Room for every text here.
const ROOM: u32 = 4096;

/// What a seat is expected to hand back: how its sessions ended, and the texts that the links have
/// which it took back.
pub(crate) type Handed<'a> = (&'a [SessionEnd], &'a [&'a [u8]]);

/// A listener in memory, whose links have these bytes to read.
pub(crate) fn listener_of(
    alloc: Global,
    inputs: &[&[u8]],
) -> Result<MemListener<MemSource, MemSink>, Memory>
    ensures { IfOk result IsUnused }
{
    let mut links = Vec::new(alloc);
    for bytes in inputs {
        let input = MemSource::new(Vec::from_slice(alloc, bytes)?, Vec::new(alloc));
        let output = MemSink::new(alloc, ROOM, Vec::new(alloc))?;
        links.push(Link { input, output })?;
    }
    MemListener::new(alloc, links)
}

/// Expects that just so many seats have handed back just this.
pub(crate) fn expect_served<R: Abort>(
    rt: &R,
    served: &[Served<MemListener<MemSource, MemSink>>],
    handed: &[Handed],
) {
    assert_eq!(rt; served.len(), handed.len());
    for (done, (ends, texts)) in served.iter().zip(handed) {
        assert_eq!(rt; done.ends.list(), *ends);
        let closed = done.listener.closed();
        assert_eq!(rt; closed.len(), texts.len());
        for (link, text) in closed.iter().zip(*texts) {
            assert_eq!(rt; link.output.written(), *text);
        }
    }
}

/// One seat with links of these bytes, which serves so many of them.
fn serve_one<R: Threads + Wait + Sync>(
    rt: &R,
    alloc: Global,
    inputs: &[&[u8]],
    sessions: u32,
) -> Result<Vec<Served<MemListener<MemSource, MemSink>>>, Memory> {
    let (kiwi, passes) = Kiwi::open(alloc, 64, 1)?;
    let listeners = Vec::from_array(alloc, [listener_of(alloc, inputs)?])?;
    let seats = seated(alloc, passes, listeners)?;
    serve(rt, alloc, &kiwi, seats, sessions)
}

#[test]
fn a_seat_serves_links_in_their_order(rt: HostRuntime) -> Result<(), Fail> {
    let inputs: [&[u8]; 3] = [b"put 5 50\nget 5\n", b"get 5\nwait\nget 5\n", b"get 7"];
    let texts: [&[u8]; 3] = [b"ok\n50\n", b"50\nbad line 2\n", b"none\n"];
    let ends = [SessionEnd::Ended, SessionEnd::Bad(2), SessionEnd::Ended];
    for (sessions, count) in [(0, 0), (1, 1), (2, 2), (3, 3), (4, 3)] {
        let served = serve_one(&rt, rt.alloc(), &inputs, sessions)?;
        expect_served(&rt, &served, &[(&ends[..count], &texts[..count])]);
    }
    Ok(())
}
