//! The commands of the program, and which lists of words they are.
//!
//! A command is the whole list of its words: its own word first, and then numbers, options and a
//! flag, each option and the flag at most once; of the options only the minutes of a bucket must
//! stand. `specs/Words.antt` says which lists these are; no list is two commands. Every other list
//! is bad words, the empty one among them. What stands after the first word is read by `words`;
//! here the first word is read, and what its command takes of the rest is picked.
ghost use Rattle.std.specs.Prelude.{◌≡◌, ℕ, List, IfOk, IfSome, MatchOption};
ghost use Rattle.kw_command.specs.declared.command.Command.{Command as AnyCommand};
ghost use Rattle.kw_command.specs.Words.{AreInRange, Means};
ghost use Rattle.kw_command.specs.Reading.{first_name, name_of, picked};

use crate::word::Word;
use crate::words::{Arguments, are_known, arguments_of};
use kw_model::memory::Memory;
use kw_rollup::item::MINUTES;
use kw_words::sizes::SEAT_COUNT;
use std::alloc::Global;

/// The most workers that may be asked for.
pub const MOST_WORKERS: u32 = SEAT_COUNT;

/// How many workers there are where none are asked for.
pub const DEFAULT_WORKERS: u32 = 1;

/// The fewest rows that may be asked for.
pub const FEWEST_ROWS: u32 = 64;

/// How many rows the table of a map has where none are asked for.
pub const DEFAULT_ROWS: u32 = 32_768;

/// How many rows the table of a simulated map has where none are asked for.
pub const SIMULATED_ROWS: u32 = 64;

/// The greatest number that a generator may begin with.
pub const MOST_START: u32 = u32::MAX;

/// The most lines that may be generated.
pub const MOST_LINES: u32 = 1_000_000;

/// The most minutes that a bucket may have, which are all of a series.
pub const MOST_BUCKET: u32 = MINUTES;

/// What the program is asked to do.
#[derive(Clone, Copy, Debug, PartialEq, Eq)]
pub enum Command {
    /// Asks the lines of the input of one map.
    Replay {
        workers: u32,
        rows: u32,
    },
    /// Runs a script of seats and steps on the core of the concurrent map. Where `recorded`, what
    /// it prints is the record of the run's calls, which `Judge` reads.
    Simulate {
        rows: u32,
        recorded: bool,
    },
    /// Judges the record of a run that the input has.
    Judge,
    /// Asks `count` generated lines of one map; the generator begins with `start`.
    Gen {
        start: u32,
        count: u32,
        workers: u32,
        rows: u32,
    },
    /// Keeps metric points in one map, and prints tables of their buckets of `bucket` minutes.
    Rollup {
        bucket: u32,
        workers: u32,
        rows: u32,
    },
}

/// The commands' own words.
#[derive(Clone, Copy, Debug, PartialEq, Eq)]
pub enum Name {
    Replay,
    Simulate,
    Judge,
    Gen,
    Rollup,
}

/// The command that these words mean, or none where they are bad.
pub fn command_of(alloc: Global, words: &[Word]) -> Result<Option<Command>, Memory>
    ensures meant { IfOk result (λ found. MatchOption found ((command : AnyCommand) →
        Means words.now command → ⊥) (Means words.now)) }
    ensures range { IfOk result (λ found. IfSome found AreInRange) }
{
    let Some(name) = first_name(words) else {
        return Ok(None);
    };
    if !are_known(words) {
        return Ok(None);
    }
    match arguments_of(alloc, words)? {
        Some(arguments) => Ok(picked(name, arguments)),
        None => Ok(None),
    }
}

/// Words mean one command at most. Nothing runs here: the clause is the statement.
pub fn one_meaning()
    ensures { (words : List (List ℕ)) (one other : AnyCommand) → Means words one →
        Means words other → one ≡ other }
{}

/// The command whose own word is the first one.
fn first_name(words: &[Word]) -> Option<Name>
    ensures { result ≡ first_name words.now }
{
    name_of(words.first()?.text())
}

/// The command whose own word this is.
fn name_of(word: &str) -> Option<Name>
    ensures { result ≡ name_of word.now }
{
    match word {
        "replay" => Some(Name::Replay),
        "simulate" => Some(Name::Simulate),
        "judge" => Some(Name::Judge),
        "gen" => Some(Name::Gen),
        "rollup" => Some(Name::Rollup),
        _ => None,
    }
}

/// The command of this name, where it takes just these arguments.
fn picked(name: Name, arguments: Arguments) -> Option<Command>
    ensures { result ≡ picked name arguments }
{
    let Arguments {
        start,
        count,
        workers,
        rows,
        bucket,
        recorded,
    } = arguments;
    let asked = workers.unwrap_or(DEFAULT_WORKERS);
    match (name, start, count, workers, rows, bucket, recorded) {
        (Name::Replay, None, None, _, _, None, false) => Some(Command::Replay {
            workers: asked,
            rows: rows.unwrap_or(DEFAULT_ROWS),
        }),
        (Name::Simulate, None, None, None, _, None, _) => Some(Command::Simulate {
            rows: rows.unwrap_or(SIMULATED_ROWS),
            recorded,
        }),
        (Name::Judge, None, None, None, None, None, false) => Some(Command::Judge),
        (Name::Gen, Some(start), Some(count), _, _, None, false) => Some(Command::Gen {
            start,
            count,
            workers: asked,
            rows: rows.unwrap_or(DEFAULT_ROWS),
        }),
        (Name::Rollup, None, None, _, _, Some(bucket), false) => Some(Command::Rollup {
            bucket,
            workers: asked,
            rows: rows.unwrap_or(DEFAULT_ROWS),
        }),
        _ => None,
    }
}
