//! Words in, figures out.
use kw_loads::load::Load;
use kw_timing::index_timing::GuessFigure;
use kw_timing::lines::LineFigure;
use kw_timing::timing::{PutFigure, ReadFigure};
use std::{env, io};

/// How many calls the program's word asks for; none where there is no such word.
pub fn given_calls(rt: &HostRuntime) -> io::Result<Option<u32>> {
    let Some(word) = env::args(rt)?.nth(1) else {
        return Ok(None);
    };
    Ok(word.parse().ok())
}

/// Says how the program is used.
pub fn print_usage(rt: &HostRuntime) -> io::Result<()> {
    println!(rt;
        "kw_bench N: makes N calls of each kind on one row and on maps of many, reads and prints N lines, asks indexes N keys, prints what each took"
    )
}

/// Prints the heads of the columns for what calls took.
pub fn print_heads(rt: &HostRuntime) -> io::Result<()> {
    println!(rt;
        "nanoseconds a call, by one thread and by each of two and of four; and how many calls two and four make where one makes 100"
    )?;
    println!(rt;
        "{:<5}{:>6}  {:<15} {:>5} {:>5} {:>5} {:>7} {:>7}",
        "call", "cells", "keys", "one", "two", "four", "by two", "by four"
    )
}

/// Prints what a call that reads took: a line below the heads.
pub fn print_reads(rt: &HostRuntime, name: &str, load: Load, figure: ReadFigure) -> io::Result<()> {
    let calls = u128::from(figure.calls.max(1));
    let by_two = figure.one.saturating_mul(200) / figure.two.max(1);
    let by_four = figure.one.saturating_mul(400) / figure.four.max(1);
    println!(rt;
        "{name:<5}{:>6}  {:<15} {:>5} {:>5} {:>5} {by_two:>7} {by_four:>7}",
        load.cells,
        load.keys.words(),
        figure.one / calls,
        figure.two / calls,
        figure.four / calls
    )
}

/// Prints what a put into a row took that fills: a line below the heads, for one thread.
pub fn print_puts(rt: &HostRuntime, load: Load, figure: PutFigure) -> io::Result<()> {
    println!(rt;
        "{:<5}{:>6}  {:<15} {:>5}",
        "put",
        load.cells,
        load.keys.words(),
        figure.one / u128::from(figure.calls.max(1))
    )
}

/// Prints what an input took to be read, and its answers to be printed.
pub fn print_lines(rt: &HostRuntime, figure: LineFigure) -> io::Result<()> {
    let lines = figure.lines as u128;
    let read = figure.reading / lines.max(1);
    let printed = figure.printing / lines.max(1);
    println!(rt;
        "lines: {lines} of {} bytes; {read} ns a line to read, {printed} ns an answer to print",
        figure.bytes
    )
}

/// Prints what a guess took, and how many hundredths of a search in a plain slice that is.
pub fn print_guesses(rt: &HostRuntime, figure: GuessFigure) -> io::Result<()> {
    let calls = u128::from(figure.calls).max(1);
    let by_one = figure.one.saturating_mul(100) / figure.slice.max(1);
    let by_four = figure.four.saturating_mul(100) / figure.slice_by_four.max(1);
    let rows = if figure.agree { "the same" } else { "other" };
    println!(rt;
        "guess, {} entries: {} ns by one thread, {by_one} in 100 of a search in a slice, for {rows} rows",
        figure.entries,
        figure.one / calls
    )?;
    println!(rt;
        "  {} ns by each of four threads, {by_four} in 100; {} of {} keys were told a row, beside {} changes",
        figure.four / calls,
        figure.crowd.rows,
        u64::from(figure.calls).saturating_mul(4),
        figure.crowd.published
    )
}
