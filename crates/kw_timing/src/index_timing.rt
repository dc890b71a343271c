//! What guesses of an index take, beside searches in a plain slice.
ghost use Rattle.std.specs.Prelude.{◌≤◌};

use crate::timing::no_memory;
use kw_loads::guessing::{Asked, Crowd, ask_by_four, ask_in_a_crowd, entries_of_all, index_of_all};
use std::alloc::Global;
use std::io;
use std::thread::Threads;
use std::time::{Clock, Instant};

/// How long guesses took, in nanoseconds.
#[derive(Clone, Copy)]
pub struct GuessFigure {
    /// How many entries the index and the slice had.
    pub entries: u32,
    /// For how many keys each thread asked.
    pub calls: u32,
    /// What one thread took for them in the slice.
    pub slice: u128,
    /// What one thread took for them at the index.
    pub one: u128,
    /// What four threads took, each for so many, in the slice.
    pub slice_by_four: u128,
    /// What four threads took, each for so many, at the index, beside a fifth that published.
    pub four: u128,
    /// What came of that.
    pub crowd: Crowd,
    /// Whether the slice and the index told one thread the same rows.
    pub agree: bool,
}

/// Times guesses of an index with an entry for each of so many rows.
pub fn time_guesses<R: Threads + Clock + Sync>(
    rt: &R,
    alloc: Global,
    rows: u32,
    calls: u32,
) -> io::Result<GuessFigure>
    requires { 1 ≤ rows }
{
    let index = index_of_all(alloc, rows).map_err(no_memory)?;
    let entries = entries_of_all(alloc, rows).map_err(no_memory)?;
    let plain = Asked::Slice(entries.list());
    let start = Instant::now(rt)?;
    let searched = plain.for_keys(alloc, 1, calls).map_err(no_memory)?;
    let slice = start.elapsed(rt)?.as_nanos();
    let start = Instant::now(rt)?;
    ask_by_four(rt, alloc, plain, calls).map_err(no_memory)?;
    let slice_by_four = start.elapsed(rt)?.as_nanos();
    let asked = Asked::Index(&index);
    let start = Instant::now(rt)?;
    let guessed = asked.for_keys(alloc, 1, calls).map_err(no_memory)?;
    let one = start.elapsed(rt)?.as_nanos();
    let start = Instant::now(rt)?;
    let crowd = ask_in_a_crowd(rt, alloc, &index, calls).map_err(no_memory)?;
    let four = start.elapsed(rt)?.as_nanos();
    Ok(GuessFigure {
        entries: rows,
        calls,
        slice,
        one,
        slice_by_four,
        four,
        crowd,
        agree: searched == guessed,
    })
}
