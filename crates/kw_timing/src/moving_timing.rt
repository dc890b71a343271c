//! What puts and deletes take while keys come and go, by one thread and by four on one map, and how
//! many rows are in use meanwhile.
ghost use Rattle.std.specs.Prelude.{◌<◌};
ghost use Rattle.kw_words.specs.declared.sizes.TheConstants.{SEATS};

use crate::timing::{no_memory, opened};
use kw_loads::moving::Moving;
use kw_loads::moving_calls::{Part, move_by_each};
use std::alloc::Global;
use std::io;
use std::sync::Wait;
use std::sync::atomic::{AtomicU64, Ordering};
use std::thread::Threads;
use std::time::{Clock, Instant};

/// How long puts and deletes took, and how many rows were in use.
#[derive(Clone, Copy)]
pub struct MovingFigure {
    /// Which keys came and went.
    pub moving: Moving,
    /// How many threads shared the turns.
    pub threads: u32,
    /// How many keys were put.
    pub puts: u32,
    /// What all calls took, in nanoseconds.
    pub took: u128,
    /// How many rows were in use after a tenth of the puts.
    pub early: u32,
    /// How many rows were in use at the end.
    pub late: u32,
    /// How many calls were refused.
    pub refused: u64,
}

/// Times so many puts of keys that come and go, and the deletes of those that go, shared by so many
/// threads.
pub fn time_moving<R: Threads + Wait + Clock + Sync>(
    rt: &R,
    alloc: Global,
    moving: Moving,
    count: u32,
    puts: u32,
) -> io::Result<MovingFigure>
    requires { count < SEATS }
{
    let (kiwi, passes, _) = opened(alloc, moving.rows(), count)?;
    let refused = AtomicU64::new(0);
    let tenth = moving.turns(puts / 10);
    let start = Instant::now(rt)?;
    let Ok(passes) = move_by_each(
        rt,
        &kiwi,
        passes,
        Part::of(moving, count, 0, tenth),
        &refused,
    ) else {
        return Err(no_memory(()));
    };
    let early = kiwi.rows_in_use();
    let rest = Part::of(moving, count, tenth, moving.turns(puts));
    if move_by_each(rt, &kiwi, passes, rest, &refused).is_err() {
        return Err(no_memory(()));
    }
    Ok(MovingFigure {
        moving,
        threads: count,
        puts,
        took: start.elapsed(rt)?.as_nanos(),
        early,
        late: kiwi.rows_in_use(),
        refused: refused.load(Ordering::SeqCst),
    })
}
