//! What sums of many keys take on a map of many rows, alone and while other threads put.
use crate::timing::{no_memory, opened};
use kw_loads::map_calls::put_keys;
use kw_loads::map_load::ROWS;
use kw_loads::sum_calls::{sum_beside, sum_keys};
use std::alloc::Global;
use std::io;
use std::sync::Wait;
use std::thread::Threads;
use std::time::{Clock, Instant};

/// How many threads put beside the one that sums.
pub const PUTTING: u32 = 3;

/// How long sums took, in nanoseconds.
#[derive(Clone, Copy)]
pub struct SumFigure {
    /// How many sums were made alone, and how many beside threads that put.
    pub calls: u32,
    /// What they took alone.
    pub alone: u128,
    /// What they took beside the threads that put.
    pub beside: u128,
    /// How many puts these threads made meanwhile, all together.
    pub puts: u64,
}

/// Times so many sums, alone and then beside threads that put all the time.
pub fn time_sums<R: Threads + Wait + Clock + Sync>(
    rt: &R,
    alloc: Global,
    calls: u32,
) -> io::Result<SumFigure> {
    let (kiwi, putting, filling) = opened(alloc, ROWS, PUTTING)?;
    let pass = put_keys(rt, &kiwi, filling);
    let start = Instant::now(rt)?;
    let pass = sum_keys(&kiwi, pass, calls);
    let alone = start.elapsed(rt)?.as_nanos();
    let start = Instant::now(rt)?;
    let counts = sum_beside(rt, &kiwi, pass, putting, calls).map_err(no_memory)?;
    let beside = start.elapsed(rt)?.as_nanos();
    Ok(SumFigure {
        calls,
        alone,
        beside,
        puts: counts
            .iter()
            .fold(0, |all: u64, &count| all.wrapping_add(count)),
    })
}
