//! Lists of words, and the commands that they mean. A list is one text here, with a bar between two
//! words.
use kw_command::command::{Command, command_of};
use kw_command::word::Word;
use kw_model::memory::Memory;
use std::alloc::Global;
use std::process::Abort;
use std::test::Fail;

/// The words of a list.
fn words(alloc: Global, list: &str) -> Result<Vec<Word>, Memory> {
    let mut words = Vec::new(alloc);
    for text in list.split('|') {
        words.push(Word::new(String::from_str(alloc, text)?))?;
    }
    Ok(words)
}

/// Expects that the words of a list mean this command, or none.
fn expect_meaning(
    rt: &impl Abort,
    alloc: Global,
    list: &str,
    command: Option<Command>,
) -> Result<(), Memory> {
    let words = words(alloc, list)?;
    assert_eq!(rt; command_of(alloc, &words)?, command, "of {list}");
    Ok(())
}

/// Expects of each list that it means its command.
fn expect_commands(
    rt: &impl Abort,
    alloc: Global,
    table: &[(&str, Command)],
) -> Result<(), Memory> {
    for (list, command) in table {
        expect_meaning(rt, alloc, list, Some(*command))?;
    }
    Ok(())
}

/// The command that answers the lines of an input.
const fn replay(workers: u32, rows: u32) -> Command {
    Command::Replay { workers, rows }
}

/// The command that runs a script.
const fn simulate(rows: u32, recorded: bool) -> Command {
    Command::Simulate { rows, recorded }
}

/// The command that has lines generated, with these numbers.
const fn generated(start: u32, count: u32, workers: u32, rows: u32) -> Command {
    Command::Gen {
        start,
        count,
        workers,
        rows,
    }
}

/// The command that prints tables of buckets.
const fn rollup(bucket: u32, workers: u32, rows: u32) -> Command {
    Command::Rollup {
        bucket,
        workers,
        rows,
    }
}

#[test]
fn options_that_do_not_stand_have_their_defaults(rt: HostRuntime) -> Result<(), Fail> {
    let table = [
        ("replay", replay(1, 32_768)),
        ("replay|--workers|16", replay(16, 32_768)),
        ("replay|--rows|64", replay(1, 64)),
        ("simulate", simulate(64, false)),
        ("judge", Command::Judge),
        ("gen|0|1", generated(0, 1, 1, 32_768)),
        ("rollup|--bucket|60", rollup(60, 1, 32_768)),
    ];
    Ok(expect_commands(&rt, rt.alloc(), &table)?)
}

#[test]
fn options_stand_in_any_order(rt: HostRuntime) -> Result<(), Fail> {
    let made = generated(5, 9, 2, 70);
    let table = [
        ("replay|--workers|2|--rows|70", replay(2, 70)),
        ("replay|--rows|70|--workers|2", replay(2, 70)),
        ("simulate|--rows|65536", simulate(65_536, false)),
        ("gen|--workers|2|--rows|70|5|9", made),
        ("gen|--rows|70|5|--workers|2|9", made),
        ("gen|5|--workers|2|--rows|70|9", made),
        ("gen|5|--rows|70|9|--workers|2", made),
        ("gen|5|9|--rows|70|--workers|2", made),
        ("gen|--workers|0000000002|05|009|--rows|0070", made),
    ];
    Ok(expect_commands(&rt, rt.alloc(), &table)?)
}

#[test]
fn the_minutes_of_a_bucket_stand_anywhere_among_the_options(rt: HostRuntime) -> Result<(), Fail> {
    let made = rollup(60, 2, 64);
    let table = [
        ("rollup|--bucket|60|--workers|2|--rows|64", made),
        ("rollup|--workers|2|--bucket|0000000060|--rows|64", made),
        ("rollup|--rows|64|--workers|2|--bucket|60", made),
    ];
    Ok(expect_commands(&rt, rt.alloc(), &table)?)
}

#[test]
fn a_flag_stands_before_or_after_an_option(rt: HostRuntime) -> Result<(), Fail> {
    let table = [
        ("simulate|--record", simulate(64, true)),
        ("simulate|--record|--rows|70", simulate(70, true)),
        ("simulate|--rows|70|--record", simulate(70, true)),
    ];
    Ok(expect_commands(&rt, rt.alloc(), &table)?)
}

#[test]
fn numbers_reach_to_the_ends_of_their_ranges(rt: HostRuntime) -> Result<(), Fail> {
    let most = generated(4_294_967_295, 1_000_000, 16, 65_536);
    let table = [
        ("gen|4294967295|1000000|--workers|16|--rows|65536", most),
        ("rollup|--bucket|1", rollup(1, 1, 32_768)),
        ("rollup|--bucket|1048576", rollup(1_048_576, 1, 32_768)),
    ];
    Ok(expect_commands(&rt, rt.alloc(), &table)?)
}

/// Lists that mean no command. The first one has an empty word.
const OTHER_WORDS: [&str; 78] = [
    "",
    "Replay",
    "help",
    "--help",
    "--",
    "1",
    "record",
    "--record",
    "rollup",
    "--rows|64|replay",
    "replay|replay",
    "replay|simulate",
    "replay|1",
    "replay|get",
    "replay|--",
    "replay|-h",
    "replay|--help",
    "replay|--worker|1",
    "replay|--workers=2",
    "replay|--workers",
    "replay|--workers|",
    "replay|--workers|0",
    "replay|--workers|17",
    "replay|--workers|+1",
    "replay|--workers|-1",
    "replay|--workers| 1",
    "replay|--workers|1x",
    "replay|--workers|\u{661}",
    "replay|--workers|00000000001",
    "replay|--workers|4294967297",
    "replay|--workers|--rows",
    "replay|--workers|--rows|64",
    "replay|--workers|1|--workers|1",
    "replay|--rows",
    "replay|--rows|63",
    "replay|--rows|65537",
    "replay|--rows|64|--rows|65",
    "simulate|64",
    "simulate|--rows|63",
    "simulate|--workers|1",
    "simulate|--rows|--record|64",
    "simulate|--rows|--record",
    "simulate|--record|64",
    "simulate|--record|--record",
    "simulate|--record|--rows|64|--record",
    "simulate|--record=true",
    "replay|--record",
    "judge|--record",
    "judge|--rows|64",
    "judge|judge",
    "judge|1",
    "gen|1|2|--record",
    "gen",
    "gen|1",
    "gen|1|0",
    "gen|1|1000001",
    "gen|4294967296|1",
    "gen|1|2|3",
    "gen|--workers|1|2",
    "gen|1|gen",
    "gen|1|2|--rows|64|--rows|64",
    "--bucket",
    "rollup|60",
    "rollup|--workers|2",
    "rollup|--bucket",
    "rollup|--bucket|0",
    "rollup|--bucket|1048577",
    "rollup|--bucket|00000000060",
    "rollup|--bucket|60|--bucket|60",
    "rollup|--bucket|60|60",
    "rollup|--bucket|60|--record",
    "rollup|--bucket|--rows|64",
    "rollup|--rows|--bucket|60",
    "rollup|--bucket=60",
    "replay|--bucket|60",
    "simulate|--bucket|60",
    "judge|--bucket|60",
    "gen|1|2|--bucket|60",
];

#[test]
fn other_words_are_bad(rt: HostRuntime) -> Result<(), Fail> {
    assert_eq!(rt; command_of(rt.alloc(), &[])?, None, "of no words");
    for list in OTHER_WORDS {
        expect_meaning(&rt, rt.alloc(), list, None)?;
    }
    Ok(())
}
