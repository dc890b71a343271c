//! From lines to commands.
//!
//! A line is read word by word, and it is the text of a command exactly where all its words are
//! read. Each reader takes what it reads off the front of the words that are left, and its contract
//! says the same both ways: which words it takes for what, and that no other words would have been
//! that.
ghost use Rattle.std.specs.Prelude.{◌≡◌, ◌≢◌, ◌≤◌, ◌++◌, ◌∷◌, ℕ, List, decimal, MatchOption, IfOk};
ghost use Rattle.kw_words.specs.declared.kind.Kind.{Kind as AnyKind};
ghost use Rattle.kw_words.specs.Kind.{name_of};
ghost use Rattle.kw_line.specs.Line.{IfBad};
ghost use Rattle.kw_sim.specs.declared.command.Command.{Command as AnyCommand};
ghost use Rattle.kw_sim.specs.declared.parse.Verb.{Verb as AnyVerb};
ghost use Rattle.kw_sim.specs.Script.{verb_word, verb_of, seat_of, rest_words, command_text, HasRange, IsCommand, IsText, AreLinesOf, IsFirstBadCommand};

use crate::command::Command;
use kw_judge::parse::call;
use kw_line::error::LineError;
use kw_line::words::{Lines, Words};
use kw_words::kind::Kind;
use kw_words::sizes::SEAT_COUNT;
use std::alloc::Global;
use std::str;

/// How many lines a script may have.
pub const MOST_LINES: usize = 256;

/// How many steps one line may ask for, and how many puts.
pub const MOST_STEPS: u32 = 100_000;

/// The first word of a line.
#[derive(Clone, Copy, Debug, PartialEq, Eq)]
pub enum Verb {
    Call,
    Puts,
    Go,
    Until,
    Guess,
    Stop,
}

/// The commands of a script's lines, one for each line, for a table of this many rows.
pub fn parse_script(alloc: Global, rows: u32, script: &[u8]) -> Result<Vec<Command>, LineError>
    ensures commands { IfOk result (λ commands. AreLinesOf rows script.now commands.items) }
    ensures bad { IfBad (IsFirstBadCommand rows script.now) result }
{
    let mut commands = Vec::new(alloc);
    for line in Lines::new(script) {
        let place = commands.len();
        let bad = LineError::Bad {
            line: place as u32 + 1,
        };
        let Some(command) = command(rows, line) else {
            return Err(bad);
        };
        if place == MOST_LINES {
            return Err(bad);
        }
        commands.push(command)?;
    }
    Ok(commands)
}

/// The command whose text the line is, or none.
pub fn command(rows: u32, line: &[u8]) -> Option<Command>
    ensures { MatchOption result
        (IsText rows line.now → ⊥)
        (λ command. IsCommand rows command × (line.now ≡ command_text command)) }
{
    let mut words = Words::new(line);
    let verb = verb_named(words.next()?)?;
    let seat = number_between(&mut words, 0, SEAT_COUNT - 1)?;
    let command = rest(rows, verb, seat, &mut words)?;
    words.is_empty().then_some(command)
}

/// The verb of a line that begins with this word, or none.
fn verb_named(word: &[u8]) -> Option<Verb>
    ensures { MatchOption result
        ((verb : AnyVerb) → word.now ≢ verb_word verb)
        (λ verb. word.now ≡ verb_word verb) }
{
    match word {
        b"call" => Some(Verb::Call),
        b"puts" => Some(Verb::Puts),
        b"go" => Some(Verb::Go),
        b"until" => Some(Verb::Until),
        b"guess" => Some(Verb::Guess),
        b"stop" => Some(Verb::Stop),
        _ => None,
    }
}

/// The command of this verb and seat whose words after the seat are the next ones, or none.
fn rest(rows: u32, verb: Verb, seat: u32, words: &mut Words) -> Option<Command>
    ensures { MatchOption result
        ((command : AnyCommand) (left : List (List ℕ)) → verb_of command ≡ verb → HasRange rows command
        → words.old ≢ rest_words command ++ left)
        (λ command. (verb_of command ≡ verb) × (seat_of command ≡ seat) × HasRange rows command
        × (words.old ≡ rest_words command ++ words.new)) }
{
    match verb {
        Verb::Call => Some(Command::Call(seat, call(words)?)),
        Verb::Puts => {
            let count = number_between(words, 1, MOST_STEPS)?;
            let key = words.key()?;
            let value = words.value()?;
            Some(Command::Puts {
                seat,
                count,
                key,
                value,
            })
        }
        Verb::Go => {
            let count = number_between(words, 1, MOST_STEPS)?;
            Some(Command::Go { seat, count })
        }
        Verb::Until => {
            let kind = kind(words)?;
            Some(Command::Until { seat, kind })
        }
        Verb::Guess => {
            let row = words.key()?;
            (row < rows).then_some(Command::Guess { seat, row })
        }
        Verb::Stop => Some(Command::Stop { seat }),
    }
}

/// Takes the next word, where it is the name of a kind.
fn kind(words: &mut Words) -> Option<Kind>
    ensures { MatchOption result
        ((kind : AnyKind) (left : List (List ℕ)) → words.old ≢ name_of kind ∷ left)
        (λ kind. words.old ≡ name_of kind ∷ words.new) }
{
    let word = words.next()?;
    Kind::named(str::from_utf8(word).ok()?)
}

/// Takes the next word, where it is a number from `least` to `most`.
fn number_between(words: &mut Words, least: u32, most: u32) -> Option<u32>
    ensures { MatchOption result
        ((n : ℕ) (left : List (List ℕ)) → least ≤ n → n ≤ most → words.old ≢ decimal n ∷ left)
        (λ n. (least ≤ n) × (n ≤ most) × (words.old ≡ decimal n ∷ words.new)) }
{
    let number = words.key()?;
    (least <= number && number <= most).then_some(number)
}
