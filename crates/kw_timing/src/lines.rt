//! Reading lines and printing answers, with no map.
ghost use Rattle.std.specs.Prelude.{◌≤◌, length, IfOk};
ghost use Rattle.kw_line.specs.declared.parse.TheConstants.{MOST_BYTES};

use crate::timing::no_memory;
use kw_line::answer::Answer;
use kw_line::parse::{MOST_BYTES, parse};
use kw_line::print::print;
use std::alloc::{AllocError, Global};
use std::io;
use std::time::{Clock, Instant};

/// How long an input took, in nanoseconds.
#[derive(Clone, Copy)]
pub struct LineFigure {
    /// How many lines the input had.
    pub lines: usize,
    /// How many bytes they were.
    pub bytes: usize,
    /// What reading them took.
    pub reading: u128,
    /// What printing an answer to each took.
    pub printing: u128,
}

/// An input of so many lines that each set a value, or of as many of them as an input may have.
fn input(alloc: Global, lines: u32) -> Result<Vec<u8>, AllocError>
    ensures { IfOk result (λ bytes. length bytes.items ≤ MOST_BYTES) }
{
    let mut bytes = Vec::new(alloc);
    for line in 0..lines {
        let text = format!(in alloc; "put {line} {line}\n")?;
        if bytes.len() + text.len() > MOST_BYTES {
            return Ok(bytes);
        }
        bytes.extend_from_slice(text.as_bytes())?;
    }
    Ok(bytes)
}

/// So many answers, each a number.
fn numbers(alloc: Global, count: usize) -> Result<Vec<Answer>, AllocError> {
    let mut answers = Vec::new(alloc);
    for number in 0..count {
        answers.push(Answer::Number(number as u128))?;
    }
    Ok(answers)
}

/// Times the reading of an input and the printing of an answer to each of its lines.
pub fn time_lines<R: Clock>(rt: &R, alloc: Global, lines: u32) -> io::Result<LineFigure> {
    let bytes = input(alloc, lines).map_err(no_memory)?;
    let start = Instant::now(rt)?;
    let items = parse(alloc, &bytes).map_err(no_memory)?;
    let reading = start.elapsed(rt)?.as_nanos();
    let answers = numbers(alloc, items.len()).map_err(no_memory)?;
    let start = Instant::now(rt)?;
    print(alloc, &answers).map_err(no_memory)?;
    let printing = start.elapsed(rt)?.as_nanos();
    Ok(LineFigure {
        lines: items.len(),
        bytes: bytes.len(),
        reading,
        printing,
    })
}
