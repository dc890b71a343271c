//! How fast the map's calls are, by one thread, two and four on one map, how fast lines are read
//! and answers printed, and how fast an index is.
//!
//! With a number N the program makes N calls of each kind on one row of a map, for rows of a
//! quarter of their cells to all, of different keys and of one key, and for rows that were built
//! with half of their cells. It prints a table of what a call took, in nanoseconds, and of those
//! that read what it took each of two threads and of four that made N at once, and how many calls
//! they made in the time in which one made a hundred.
//!
//! Then it does the same on a map of many rows, whose full rows are replaced meanwhile: N puts, N
//! gets, and N of both in turn, which threads share; and a tenth as many sums of a thousand keys,
//! alone and while three other threads put. It fills such a map by rising, falling and random keys,
//! N at most, until a put is refused, and prints what a put took as more and more rows were in use.
//! And it lets keys come and go, by one thread and by four: a window of rising keys, series of
//! minutes, keys in disorder, and random keys that are all put and all deleted. It puts N of the
//! first, and prints what a call took, how many of the rows were in use after a tenth of the puts
//! and at the end, and how many calls were refused.
//!
//! Then it reads an input of N lines, or of as many as an input may have, and prints an answer to
//! each, with no map. At last it asks an index of few entries, one of some and one of many for N
//! keys, and plain slices of the same entries, by one thread and by four.
//!
//! All figures of a run come from that run, so its ratios can be compared where its times cannot.
//! Without a number it says how it is used. Which calls are made is said in `kw_loads`, and how
//! they are timed in `kw_timing`; here is what is printed. Nothing is promised of the figures; the
//! calls are those of `kw_map`, `kw_line` and `kw_index`, by their contracts.
#![tactic(auto)]

mod figures;
mod map_figures;

use crate::figures::{
    given_calls, print_guesses, print_heads, print_lines, print_puts, print_reads, print_usage,
};
use crate::map_figures::{
    print_fill, print_fill_heads, print_map, print_moving, print_moving_heads, print_sums,
};
use kw_loads::asking::{Reading, Task};
use kw_loads::load::{Keys, Load};
use kw_loads::map_load::{Order, PUTS_A_SUM};
use kw_loads::moving::Moving;
use kw_timing::fill_timing::time_fill;
use kw_timing::index_timing::time_guesses;
use kw_timing::lines::time_lines;
use kw_timing::map_timing::time_map;
use kw_timing::moving_timing::time_moving;
use kw_timing::sum_timing::time_sums;
use kw_timing::timing::{time_puts, time_reads};
use kw_words::sizes::CELL_COUNT;
use std::io;
use std::process::ExitCode;
use std::sync::Wait;
use std::thread::Threads;
use std::time::Clock;

fn main(rt: HostRuntime) -> ExitCode {
    match run(&rt, &rt) {
        Ok(()) => ExitCode::SUCCESS,
        Err(_) => ExitCode::FAILURE,
    }
}

/// Takes all figures and prints them, or says how the program is used.
fn run<T: Threads + Wait + Clock + Sync>(rt: &HostRuntime, threads: &T) -> io::Result<()> {
    let Some(calls) = given_calls(rt)? else {
        return print_usage(rt);
    };
    print_heads(rt)?;
    for quarters in 1..=4 {
        time_load(rt, threads, Keys::Different, quarters, calls)?;
        time_load(rt, threads, Keys::One, quarters, calls)?;
        time_load(rt, threads, Keys::HalfBuilt, quarters, calls)?;
    }
    time_many_rows(rt, threads, calls)?;
    print_lines(rt, time_lines(rt, rt.alloc(), calls)?)?;
    print_guesses(rt, time_guesses(threads, rt.alloc(), 10, calls)?)?;
    print_guesses(rt, time_guesses(threads, rt.alloc(), 1_000, calls)?)?;
    print_guesses(rt, time_guesses(threads, rt.alloc(), 16_384, calls)?)
}

// Takes the figures of a row of so many quarters of its cells, and prints a line for each. No row
// has fewer cells than it was built with, and one that has no more is given none.
fn time_load<T: Threads + Wait + Clock + Sync>(
    rt: &HostRuntime,
    threads: &T,
    keys: Keys,
    quarters: u32,
    calls: u32,
) -> io::Result<()> {
    let load = Load {
        cells: (CELL_COUNT / 4).saturating_mul(quarters),
        keys,
    };
    if load.cells < load.built() {
        return Ok(());
    }
    let gets = Task {
        load,
        reading: Reading::Gets,
        calls,
    };
    let scans = Task {
        load,
        reading: Reading::Scans,
        calls,
    };
    print_reads(rt, "get", load, time_reads(threads, rt.alloc(), gets)?)?;
    print_reads(rt, "scan", load, time_reads(threads, rt.alloc(), scans)?)?;
    if load.cells == load.built() {
        return Ok(());
    }
    print_puts(rt, load, time_puts(threads, rt.alloc(), load, calls)?)
}

// Takes the figures of maps of many rows, and prints them.
fn time_many_rows<T: Threads + Wait + Clock + Sync>(
    rt: &HostRuntime,
    threads: &T,
    calls: u32,
) -> io::Result<()> {
    print_map(rt, time_map(threads, rt.alloc(), calls)?)?;
    print_sums(rt, time_sums(threads, rt.alloc(), calls / PUTS_A_SUM)?)?;
    print_fill_heads(rt)?;
    print_fill(rt, time_fill(threads, rt.alloc(), Order::Rising, calls)?)?;
    print_fill(rt, time_fill(threads, rt.alloc(), Order::Falling, calls)?)?;
    print_fill(rt, time_fill(threads, rt.alloc(), Order::Random, calls)?)?;
    print_moving_heads(rt)?;
    time_both(rt, threads, Moving::Window, calls)?;
    time_both(rt, threads, Moving::Series, calls / 20)?;
    time_both(rt, threads, Moving::Disorder, calls)?;
    time_both(rt, threads, Moving::Random, calls / 20)
}

// Takes the figures of so many puts of keys that come and go, by one thread and by four, and prints
// a line for each.
fn time_both<T: Threads + Wait + Clock + Sync>(
    rt: &HostRuntime,
    threads: &T,
    moving: Moving,
    puts: u32,
) -> io::Result<()> {
    print_moving(rt, time_moving(threads, rt.alloc(), moving, 1, puts)?)?;
    print_moving(rt, time_moving(threads, rt.alloc(), moving, 4, puts)?)
}
