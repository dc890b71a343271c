//! What stands after a command's own word: numbers, options and a flag, as `clap` reads them.
//!
//! All commands share one set of arguments, and `command` picks what each takes. The words are
//! tested one by one before `clap` sees them, so that none of the other forms that it would read
//! (`--workers=2`, `--`, a sign) reaches it: such a word is bad words. What `clap` promises of such
//! a parse is exact in both outcomes, and `proofs/Walk.antt` to `proofs/Tokens.antt` compute it for
//! this one set of arguments.
ghost use Rattle.std.specs.Prelude.{◌≡◌, Some, IfOk, IsTrue, drop};
ghost use Rattle.std.specs.Char.{is_ascii_digit};
ghost use Rattle.std.specs.List.{list_all};
ghost use Rattle.clap.specs.Words.{app_of, with_rule};
ghost use Rattle.kw_command.specs.Words.{is_digits, is_known};
ghost use Rattle.kw_command.specs.Clap.{kiwi, rule_for, flag_rule, start, count, workers, rows, bucket};
ghost use Rattle.kw_command.specs.Reading.{no_arguments, reads};

use crate::command::{FEWEST_ROWS, MOST_BUCKET, MOST_LINES, MOST_WORKERS};
use crate::word::Word;
use clap::error::ErrorKind;
use clap::{Arg, ArgAction, Command, value_parser};
use kw_model::memory::Memory;
use kw_words::sizes::MOST_ROWS;
use std::alloc::{AllocError, Global};

/// The most digits that a number may have.
pub const MOST_DIGITS: usize = 10;

/// What may stand after a command's own word: two numbers, three options, and a flag, which has
/// no value.
#[derive(Clone, Copy, Debug, PartialEq, Eq)]
pub struct Arguments {
    pub start: Option<u32>,
    pub count: Option<u32>,
    pub workers: Option<u32>,
    pub rows: Option<u32>,
    pub bucket: Option<u32>,
    pub recorded: bool,
}

/// Whether each word is a command's own, the name of an option, the flag, or digits.
pub fn are_known(words: &[Word]) -> bool
    ensures { result ≡ list_all is_known words.now }
{
    words.iter().all(|word| is_known(word.text()))
}

/// Whether the word is a command's own, the name of an option, the flag, or digits.
fn is_known(word: &str) -> bool
    ensures { result ≡ is_known word.now }
{
    matches!(
        word,
        "replay"
            | "simulate"
            | "judge"
            | "gen"
            | "rollup"
            | "--workers"
            | "--rows"
            | "--bucket"
            | "--record"
    ) || is_digits(word)
}

/// Whether the word is one digit to ten, of which the first may be 0.
fn is_digits(word: &str) -> bool
    ensures { result ≡ is_digits word.now }
{
    let bytes = word.as_bytes();
    are_digits(bytes) && !bytes.is_empty() && bytes.len() <= MOST_DIGITS
}

/// Whether each byte is a digit.
fn are_digits(bytes: &[u8]) -> bool
    ensures { result ≡ list_all is_ascii_digit bytes.now }
{
    bytes.iter().all(|byte| byte.is_ascii_digit())
}

/// The arguments that stand after the first word, or none where the words are no arguments.
pub fn arguments_of(alloc: Global, words: &[Word]) -> Result<Option<Arguments>, Memory>
    requires { IsTrue (list_all is_known words.now) }
    ensures { IfOk result (λ found. found ≡ reads (Some no_arguments) (drop 1 words.now)) }
{
    let parser = parser(alloc)?;
    match parser.try_get_matches_from(words) {
        Ok(matches) => Ok(Some(Arguments {
            start: matches.get_one::<u32>("start"),
            count: matches.get_one::<u32>("count"),
            workers: matches.get_one::<u32>("workers"),
            rows: matches.get_one::<u32>("rows"),
            bucket: matches.get_one::<u32>("bucket"),
            recorded: matches.get_flag("record"),
        })),
        Err(error) => match error.kind() {
            ErrorKind::OutOfMemory => Err(Memory),
            _ => Ok(None),
        },
    }
}

/// The arguments of all commands, for `clap`. It passes over the first word, where it expects the
/// program's name.
fn parser<'a>(alloc: Global) -> Result<Command<'a>, AllocError>
    ensures { IfOk result (λ parser. app_of parser ≡ kiwi) }
{
    let program = Command::new(alloc, "kiwi").disable_help_flag(true);
    let program = with_numbers(alloc, program)?;
    let program = with_options(alloc, program)?;
    let program = with_bucket(alloc, program)?;
    with_flag(alloc, program)
}

/// Adds the two numbers.
fn with_numbers<'a>(alloc: Global, program: Command<'a>) -> Result<Command<'a>, AllocError>
    ensures { IfOk result (λ more. app_of more
        ≡ with_rule (with_rule (app_of program.entry) (rule_for start)) (rule_for count)) }
{
    let start = Arg::new(alloc, "start").value_parser(value_parser!(u32));
    let count = Arg::new(alloc, "count").value_parser(value_parser!(u32).range(
        1..=i64::from(MOST_LINES),
    ));
    program.arg(start)?.arg(count)
}

/// Adds the two options that the map's commands share.
fn with_options<'a>(alloc: Global, program: Command<'a>) -> Result<Command<'a>, AllocError>
    ensures { IfOk result (λ more. app_of more
        ≡ with_rule (with_rule (app_of program.entry) (rule_for workers)) (rule_for rows)) }
{
    let workers = Arg::new(alloc, "workers")
        .long("workers")
        .value_parser(value_parser!(u32).range(1..=i64::from(MOST_WORKERS)));
    let rows = Arg::new(alloc, "rows").long("rows").value_parser(value_parser!(u32).range(
        i64::from(FEWEST_ROWS)..=i64::from(MOST_ROWS),
    ));
    program.arg(workers)?.arg(rows)
}

/// Adds the option for the minutes of a bucket.
fn with_bucket<'a>(alloc: Global, program: Command<'a>) -> Result<Command<'a>, AllocError>
    ensures { IfOk result (λ more. app_of more
        ≡ with_rule (app_of program.entry) (rule_for bucket)) }
{
    let bucket = Arg::new(alloc, "bucket")
        .long("bucket")
        .value_parser(value_parser!(u32).range(1..=i64::from(MOST_BUCKET)));
    program.arg(bucket)
}

/// Adds the flag.
fn with_flag<'a>(alloc: Global, program: Command<'a>) -> Result<Command<'a>, AllocError>
    ensures { IfOk result (λ more. app_of more ≡ with_rule (app_of program.entry) flag_rule) }
{
    let recorded = Arg::new(alloc, "record")
        .long("record")
        .action(ArgAction::SetTrue);
    program.arg(recorded)
}
