//! The summary of the replies to generated lines: eight lines of a word and a number.
//!
//! `specs/Summary.antt` says what is counted. The text is made in a `Vec` that grows, as all
//! printed text is.
ghost use Rattle.std.specs.Prelude.{◌≡◌, ◌≤◌, ◌++◌, decimal, length, IfOk, OnOk};
ghost use Rattle.std.specs.List.{count_by};
ghost use Rattle.kw_line.specs.Answered.{answer_text};
ghost use Rattle.kw_app.specs.Summary.{found, is_del, is_get_line, is_put, last_texts, summary, summary_line};

use kw_line::answer::Answer;
use kw_line::item::{Form, Item};
use kw_line::number::push_number;
use kw_line::print::push_answer;
use kw_line::words::{LINE_FEED, SPACE};
use kw_model::memory::Memory;
use std::alloc::Global;

/// How many replies at the end are printed.
pub const LAST_REPLIES: usize = 4;

/// The summary of these lines with these answers.
pub fn summary(alloc: Global, items: &[Item], answers: &[Answer]) -> Result<Vec<u8>, Memory>
    ensures { IfOk result (λ text. text.items ≡ summary items.now answers.now) }
{
    let mut out = Vec::new(alloc);
    push_count(&mut out, b"puts", puts(items))?;
    push_count(&mut out, b"dels", dels(items))?;
    push_count(&mut out, b"gets", gets(items))?;
    push_count(&mut out, b"found", found(items, answers))?;
    push_last(
        &mut out,
        &answers[answers.len().saturating_sub(LAST_REPLIES)..],
    )?;
    Ok(out)
}

/// How many lines set a value.
fn puts(items: &[Item]) -> usize
    ensures { result ≡ count_by is_put items.now }
{
    items
        .iter()
        .filter(|item| matches!(item, Item::Call(_, Form::Put)))
        .count()
}

/// How many lines take a key away.
fn dels(items: &[Item]) -> usize
    ensures { result ≡ count_by is_del items.now }
{
    items
        .iter()
        .filter(|item| matches!(item, Item::Call(_, Form::Del)))
        .count()
}

/// How many lines ask for the value of a key.
fn gets(items: &[Item]) -> usize
    ensures { result ≡ count_by is_get_line items.now }
{
    items
        .iter()
        .filter(|item| matches!(item, Item::Call(_, Form::Get)))
        .count()
}

/// How many lines that ask for the value of a key gave one.
fn found(items: &[Item], answers: &[Answer]) -> usize
    ensures { result ≡ found items.now answers.now }
{
    let mut answers = answers.iter();
    let mut found = 0;
    for item in items {
        if let Item::Call(_, form) = item {
            let Some(answer) = answers.next() else {
                return found;
            };
            if *form == Form::Get && matches!(answer, Answer::Number(_)) {
                found += 1;
            }
        }
    }
    found
}

/// Adds a line of the summary at the end: this word and a number. After an `Err` it may be there in
/// part.
fn push_count(out: &mut Vec<u8>, word: &[u8], number: usize) -> Result<(), Memory>
    ensures { OnOk result (out.new.items ≡ out.old.items
        ++ summary_line word.now (decimal number)) }
{
    out.extend_from_slice(word)?;
    out.push(SPACE)?;
    push_number(out, number as u128)?;
    Ok(out.push(LINE_FEED)?)
}

/// Adds a line of the summary at the end: this word and the text of an answer. After an `Err` it
/// may be there in part.
fn push_reply(out: &mut Vec<u8>, word: &[u8], answer: &Answer) -> Result<(), Memory>
    ensures { OnOk result (out.new.items ≡ out.old.items
        ++ summary_line word.now (answer_text answer.now)) }
{
    out.extend_from_slice(word)?;
    out.push(SPACE)?;
    push_answer(out, answer)?;
    Ok(out.push(LINE_FEED)?)
}

/// Adds the lines of the last replies at the end. After an `Err` they may be there in part.
fn push_last(out: &mut Vec<u8>, answers: &[Answer]) -> Result<(), Memory>
    ensures { OnOk result (out.new.items ≡ out.old.items ++ last_texts answers.now) }
{
    if let [count, sum, least, greatest] = answers {
        push_reply(out, b"count", count)?;
        push_reply(out, b"sum", sum)?;
        push_reply(out, b"least", least)?;
        push_reply(out, b"greatest", greatest)?;
    }
    Ok(())
}
