//! Figures of a map of many rows, printed.
use kw_loads::map_load::{KEYS, ROWS, SUMMED};
use kw_timing::fill_timing::{FillFigure, Stretch};
use kw_timing::map_timing::MapFigure;
use kw_timing::moving_timing::MovingFigure;
use kw_timing::sum_timing::{PUTTING, SumFigure};
use kw_words::layout::Layout;
use kw_words::sizes::{CELLS, SEATS};
use std::io;

/// Prints what puts and gets took.
pub fn print_map(rt: &HostRuntime, figure: MapFigure) -> io::Result<()> {
    let MapFigure { one, two, four } = figure;
    println!(rt;
        "a map of {ROWS} rows with {KEYS} keys in a scattered order: {} calls by one thread, and shared by two and by four",
        one.calls
    )?;
    println!(rt;
        "{:<7} {:>7} {:>7} {:>7} {:>7} {:>7}",
        "call", "one", "two", "four", "by two", "by four"
    )?;
    print_kind(rt, "put", one.calls, [one.puts, two.puts, four.puts])?;
    print_kind(rt, "get", one.calls, [one.gets, two.gets, four.gets])?;
    print_kind(rt, "mixed", one.calls, [one.mixed, two.mixed, four.mixed])
}

// Prints what calls of one kind took by one thread, by two and by four that shared them: a line
// below the heads.
fn print_kind(rt: &HostRuntime, name: &str, calls: u32, took: [u128; 3]) -> io::Result<()> {
    let [one, two, four] = took;
    let calls = u128::from(calls).max(1);
    let by_two = one.saturating_mul(100) / two.max(1);
    let by_four = one.saturating_mul(100) / four.max(1);
    println!(rt;
        "{name:<7} {:>7} {:>7} {:>7} {by_two:>7} {by_four:>7}",
        one / calls,
        two.saturating_mul(2) / calls,
        four.saturating_mul(4) / calls
    )
}

/// Prints what sums took, and the puts beside them.
pub fn print_sums(rt: &HostRuntime, figure: SumFigure) -> io::Result<()> {
    let calls = u128::from(figure.calls).max(1);
    let puts = u128::from(figure.puts).max(1);
    println!(rt;
        "sum of {SUMMED} keys: {} ns alone, {} ns while {PUTTING} other threads put; they made {} puts, {} ns each",
        figure.alone / calls,
        figure.beside / calls,
        figure.puts,
        figure.beside.saturating_mul(u128::from(PUTTING)) / puts
    )
}

/// Prints the heads of the columns for what puts took while a map filled.
pub fn print_fill_heads(rt: &HostRuntime) -> io::Result<()> {
    println!(rt;
        "nanoseconds a put while a map of {ROWS} rows fills: as 1024, 4096 and 16384 rows' worth of keys are in, and of all puts"
    )?;
    println!(rt;
        "{:<8} {:>6} {:>6} {:>6} {:>6} {:>8}  {}",
        "keys", "1024", "4096", "16384", "all", "pairs", "bytes a pair of a full map"
    )
}

/// Prints what puts took while a map filled: a line below the heads. What a pair takes is told
/// where the map is full.
pub fn print_fill(rt: &HostRuntime, figure: FillFigure) -> io::Result<()> {
    print!(rt; "{:<8}", figure.order.word())?;
    print_stretch(rt, figure.few)?;
    print_stretch(rt, figure.some)?;
    print_stretch(rt, figure.many)?;
    let keys = figure.filled.keys;
    print!(rt; " {:>6} {keys:>8}  ", figure.took / u128::from(keys.max(1)))?;
    if !figure.filled.refused {
        return println!(rt; "-");
    }
    let bytes = Layout::<SEATS, CELLS>::words(ROWS) as u64 * 8;
    println!(rt; "{}", bytes / u64::from(keys.max(1)))
}

// Prints what a put took in a stretch, or that there was none.
fn print_stretch(rt: &HostRuntime, stretch: Stretch) -> io::Result<()> {
    if stretch.puts == 0 {
        return print!(rt; " {:>6}", "-");
    }
    print!(rt; " {:>6}", stretch.took / u128::from(stretch.puts))
}

/// Prints the heads of the columns for what puts and deletes took while keys came and went.
pub fn print_moving_heads(rt: &HostRuntime) -> io::Result<()> {
    println!(rt;
        "nanoseconds a call of each thread while keys come and go, and rows in use after a tenth of the puts and at the end"
    )?;
    println!(rt;
        "{:<8} {:>7} {:>8} {:>6} {:>6} {:>6} {:>6} {:>7}",
        "keys", "threads", "puts", "ns", "of", "early", "late", "refused"
    )
}

/// Prints what puts and deletes took while keys came and went, and how many rows were in use: a
/// line below the heads.
pub fn print_moving(rt: &HostRuntime, figure: MovingFigure) -> io::Result<()> {
    let calls = u128::from(figure.puts).saturating_mul(2).max(1);
    println!(rt;
        "{:<8} {:>7} {:>8} {:>6} {:>6} {:>6} {:>6} {:>7}",
        figure.moving.words(),
        figure.threads,
        figure.puts,
        figure.took.saturating_mul(u128::from(figure.threads)) / calls,
        figure.moving.rows(),
        figure.early,
        figure.late,
        figure.refused
    )
}
