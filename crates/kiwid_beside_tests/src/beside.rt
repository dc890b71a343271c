//! Two seats beside each other, over listeners in memory.
ghost use Rattle.std.specs.Prelude.{◌≡◌, IfOk};

use crate::ends::{Held, Telling};
use kiwid::links::{Link, MemListener};
use kiwid::serving::{Served, seated, serve};
use kiwid::session::SessionEnd;
use kw_map::Kiwi;
use kw_model::memory::Memory;
use std::alloc::Global;
use std::process::Abort;
use std::sync::atomic::AtomicBool;
use std::test::Fail;

/// Room for every text here.
const ROOM: u32 = 4096;

/// A listener with one link, whose second line waits for a flag, and whose replies set the other.
fn held_link<'f>(
    alloc: Global,
    lines: [&'static [u8]; 2],
    flag: &'f AtomicBool,
    told: &'f AtomicBool,
) -> Result<MemListener<Held<'f>, Telling<'f>>, Memory>
    ensures { IfOk result (λ listener. listener.out ≡ 0) }
{
    let input = Held::new(lines, flag);
    let output = Telling::new(alloc, ROOM, told)?;
    MemListener::new(alloc, Vec::from_array(alloc, [Link { input, output }])?)
}

/// Expects that a seat has taken back one link with this text written, whose session ended well.
fn expect_served<R: Abort>(rt: &R, done: &Served<MemListener<Held, Telling>>, text: &[u8]) {
    assert_eq!(rt; done.ends.list(), [SessionEnd::Ended].as_slice());
    let [link] = done.listener.closed() else {
        panic!(rt; "one link");
    };
    assert_eq!(rt; link.output.sink.written(), text);
}

#[test]
fn two_seats_serve_beside_each_other(rt: HostRuntime) -> Result<(), Fail> {
    let alloc = rt.alloc();
    let first = AtomicBool::new(false);
    let second = AtomicBool::new(false);
    let (kiwi, passes) = Kiwi::open(alloc, 64, 2)?;
    let one = held_link(alloc, [b"put 1 10\n", b"get 1\n"], &second, &first)?;
    let other = held_link(alloc, [b"put 2 20\n", b"get 2\n"], &first, &second)?;
    let seats = seated(alloc, passes, Vec::from_array(alloc, [one, other])?)?;
    let served = serve(&rt, alloc, &kiwi, seats, 1)?;
    let [one, other] = served.as_slice() else {
        panic!(rt; "two seats");
    };
    expect_served(&rt, one, b"ok\n10\n");
    expect_served(&rt, other, b"ok\n20\n");
    Ok(())
}
