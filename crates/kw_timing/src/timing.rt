//! What calls take, by one thread and by several beside each other.
ghost use Rattle.std.specs.Prelude.{◌≡◌, ◌<◌, ◌≤◌, ◌+◌, All, IfOk, vec_len};
ghost use Rattle.kw_words.specs.declared.sizes.TheConstants.{MOST_ROWS, SEATS};
ghost use Rattle.kw_map.specs.Kiwi.{IsIdle};

use kw_loads::asking::{Task, build_row, put_cells, read_by_each};
use kw_loads::load::Load;
use kw_map::Pass;
use kw_map::kiwi::Kiwi;
use kw_model::memory::Memory;
use std::alloc::Global;
use std::io;
use std::sync::Wait;
use std::thread::Threads;
use std::time::{Clock, Instant};

/// How long calls that read took, in nanoseconds.
#[derive(Clone, Copy)]
pub struct ReadFigure {
    /// How many calls each thread made.
    pub calls: u32,
    /// What one thread took for them.
    pub one: u128,
    /// What two threads took, each for so many.
    pub two: u128,
    /// What four threads took, each for so many.
    pub four: u128,
}

/// How long puts took, in nanoseconds.
#[derive(Clone, Copy)]
pub struct PutFigure {
    /// How many puts were made.
    pub calls: u32,
    /// What one thread took for them.
    pub one: u128,
}

/// Want of memory, as the program's own error.
pub(crate) fn no_memory<E: Drop>(_error: E) -> io::Error {
    io::Error::from(io::ErrorKind::OutOfMemory)
}

// A map of so many rows, a pass for each of so many threads, and one more, to fill the map.
fn open(alloc: Global, rows: u32, threads: u32) -> Result<(Kiwi, Vec<Pass>, Pass), Memory>
    requires some { 1 ≤ rows }
    requires rows { rows ≤ MOST_ROWS }
    requires threads { threads < SEATS }
    ensures len { IfOk result (λ made. vec_len made.1 ≡ threads) }
    ensures idle { IfOk result (λ made. All (IsIdle made.0) made.1.items) }
    ensures filling { IfOk result (λ made. IsIdle made.0 made.2) }
{
    let (kiwi, mut passes) = Kiwi::open(alloc, rows, threads + 1)?;
    let Some(filling) = passes.pop() else {
        unreachable!()
    };
    Ok((kiwi, passes, filling))
}

/// A map of so many rows, a pass for each of so many threads, and one more, to fill the map.
pub(crate) fn opened(alloc: Global, rows: u32, threads: u32) -> io::Result<(Kiwi, Vec<Pass>, Pass)>
    requires some { 1 ≤ rows }
    requires rows { rows ≤ MOST_ROWS }
    requires threads { threads < SEATS }
    ensures len { IfOk result (λ made. vec_len made.1 ≡ threads) }
    ensures idle { IfOk result (λ made. All (IsIdle made.0) made.1.items) }
    ensures filling { IfOk result (λ made. IsIdle made.0 made.2) }
{
    match open(alloc, rows, threads) {
        Ok(made) => Ok(made),
        Err(error) => Err(no_memory(error)),
    }
}

/// Times calls that read, on maps with a row of the task's load, by one thread, by two and by four.
pub fn time_reads<R: Threads + Wait + Clock + Sync>(
    rt: &R,
    alloc: Global,
    task: Task,
) -> io::Result<ReadFigure> {
    Ok(ReadFigure {
        calls: task.calls,
        one: time_threads(rt, alloc, task, 1)?,
        two: time_threads(rt, alloc, task, 2)?,
        four: time_threads(rt, alloc, task, 4)?,
    })
}

// What so many threads take, each for the task's calls.
fn time_threads<R: Threads + Wait + Clock + Sync>(
    rt: &R,
    alloc: Global,
    task: Task,
    count: u32,
) -> io::Result<u128>
    requires { count < SEATS }
{
    let (kiwi, passes, filling) = opened(alloc, task.load.rows(), count)?;
    let filling = build_row(rt, &kiwi, filling, task.load);
    let _filling = put_cells(rt, &kiwi, filling, task.load);
    let start = Instant::now(rt)?;
    read_by_each(rt, &kiwi, passes, task).map_err(no_memory)?;
    Ok(start.elapsed(rt)?.as_nanos())
}

/// Times puts into rows that fill, each with this load, until about so many puts are made. What
/// opening the maps and building the rows takes is not in the figure.
pub fn time_puts<R: Threads + Wait + Clock + Sync>(
    rt: &R,
    alloc: Global,
    load: Load,
    calls: u32,
) -> io::Result<PutFigure> {
    let puts = load.cells.saturating_sub(load.built());
    let maps = calls / puts.max(1);
    let mut one: u128 = 0;
    for _ in 0..maps {
        let (kiwi, _, filling) = opened(alloc, load.rows(), 0)?;
        let filling = build_row(rt, &kiwi, filling, load);
        let start = Instant::now(rt)?;
        put_cells(rt, &kiwi, filling, load);
        one = one.saturating_add(start.elapsed(rt)?.as_nanos());
    }
    Ok(PutFigure {
        calls: maps.saturating_mul(puts),
        one,
    })
}
