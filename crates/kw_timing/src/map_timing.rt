//! What puts and gets on a map of many rows take, by one thread and by several beside each other.
ghost use Rattle.std.specs.Prelude.{◌≡◌, ◌<◌, ◌≤◌, All, IfOk};
ghost use Rattle.kw_words.specs.declared.sizes.TheConstants.{SEATS};
ghost use Rattle.kw_map.specs.Kiwi.{IsIdle};

use crate::timing::{no_memory, opened};
use kw_loads::map_calls::{Kind, call_by_each, put_keys};
use kw_loads::map_load::ROWS;
use kw_map::Pass;
use kw_map::kiwi::Kiwi;
use std::alloc::Global;
use std::io;
use std::sync::Wait;
use std::thread::Threads;
use std::time::{Clock, Instant};

/// How long calls took that threads shared, in nanoseconds: for each kind, all its calls.
#[derive(Clone, Copy)]
pub struct Times {
    /// How many calls each thread made of each kind.
    pub calls: u32,
    /// What puts took.
    pub puts: u128,
    /// What gets took.
    pub gets: u128,
    /// What puts and gets in turn took.
    pub mixed: u128,
}

/// How long calls took by one thread, by two and by four.
#[derive(Clone, Copy)]
pub struct MapFigure {
    /// By one thread.
    pub one: Times,
    /// By two threads, each half the calls.
    pub two: Times,
    /// By four threads, each a quarter of the calls.
    pub four: Times,
}

/// Times so many calls of each kind on maps of many rows that hold all keys.
pub fn time_map<R: Threads + Wait + Clock + Sync>(
    rt: &R,
    alloc: Global,
    calls: u32,
) -> io::Result<MapFigure> {
    Ok(MapFigure {
        one: time_shared(rt, alloc, 1, calls)?,
        two: time_shared(rt, alloc, 2, calls / 2)?,
        four: time_shared(rt, alloc, 4, calls / 4)?,
    })
}

// Times the calls of so many threads, each for so many of each kind.
fn time_shared<R: Threads + Wait + Clock + Sync>(
    rt: &R,
    alloc: Global,
    count: u32,
    calls: u32,
) -> io::Result<Times>
    requires { count < SEATS }
{
    let (kiwi, passes, filling) = opened(alloc, ROWS, count)?;
    put_keys(rt, &kiwi, filling);
    let (puts, passes) = time_kind(rt, &kiwi, passes, Kind::Puts, calls)?;
    let (gets, passes) = time_kind(rt, &kiwi, passes, Kind::Gets, calls)?;
    let (mixed, _) = time_kind(rt, &kiwi, passes, Kind::Mixed, calls)?;
    Ok(Times {
        calls,
        puts,
        gets,
        mixed,
    })
}

// Times calls of one kind, by a thread for each pass.
fn time_kind<R: Threads + Wait + Clock + Sync>(
    rt: &R,
    kiwi: &Kiwi,
    passes: Vec<Pass>,
    kind: Kind,
    calls: u32,
) -> io::Result<(u128, Vec<Pass>)>
    requires { All (IsIdle kiwi.now) passes.items }
    ensures { IfOk result (λ timed. All (IsIdle kiwi.now) timed.1.items) }
{
    let start = Instant::now(rt)?;
    let Ok(done) = call_by_each(rt, kiwi, passes, kind, calls) else {
        return Err(no_memory(()));
    };
    let took = start.elapsed(rt)?.as_nanos();
    Ok((took, done))
}
