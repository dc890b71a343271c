//! The text of answers, a line for each.
//!
//! Every printed word and number of an answer is written here, at the end of a `Vec` that grows.
ghost use Rattle.std.specs.Prelude.{◌≡◌, ◌++◌, ◌∷◌, decimal, take, IfOk, OnOk, OnErr, vec_len};
ghost use Rattle.kw_line.specs.Answered.{answer_text, pair_text, pairs_text, text};
ghost use Rattle.kw_line.specs.Line.{call_text};

use crate::answer::Answer;
use crate::number::push_number;
use crate::words::{LINE_FEED, SPACE};
use kw_model::call::Call;
use kw_model::memory::Memory;
use kw_model::pair_list::PairList;
use std::alloc::Global;

/// The byte between a key and its value.
pub const EQUALS: u8 = b'=';

/// The text of these answers.
pub fn print(alloc: Global, answers: &[Answer]) -> Result<Vec<u8>, Memory>
    ensures { IfOk result (λ bytes. bytes.items ≡ text answers.now) }
{
    let mut out = Vec::new(alloc);
    for answer in answers {
        push_answer(&mut out, answer)?;
        out.push(LINE_FEED)?;
    }
    Ok(out)
}

/// Adds the text of an answer at the end.
pub fn push_answer(out: &mut Vec<u8>, answer: &Answer) -> Result<(), Memory>
    ensures ok { OnOk result (out.new.items ≡ out.old.items ++ answer_text answer.now) }
    ensures err { OnErr result (out.new.items ≡ out.old.items) }
{
    match answer {
        Answer::Done => Ok(out.extend_from_slice(b"ok")?),
        Answer::Number(number) => push_number(out, *number),
        Answer::Nothing => Ok(out.extend_from_slice(b"none")?),
        Answer::Pairs(pairs) => push_pairs(out, pairs),
        Answer::NoRows => Ok(out.extend_from_slice(b"no rows")?),
        Answer::Spent => Ok(out.extend_from_slice(b"spent")?),
    }
}

/// Adds the text of pairs at the end.
pub fn push_pairs(out: &mut Vec<u8>, pairs: &PairList) -> Result<(), Memory>
    ensures ok { OnOk result (out.new.items ≡ out.old.items ++ pairs_text pairs.now) }
    ensures err { OnErr result (out.new.items ≡ out.old.items) }
{
    let before = out.len();
    let pushed = push_each(out, pairs.pairs());
    if pushed.is_err() {
        out.truncate(before);
    }
    pushed
}

/// Adds the text of pairs at the end. After an `Err` the text may be there in part.
fn push_each(out: &mut Vec<u8>, pairs: &[(u32, u64)]) -> Result<(), Memory>
    ensures ok { OnOk result (out.new.items ≡ out.old.items ++ pairs_text pairs.now) }
    ensures kept { take (vec_len out.old) out.new.items ≡ out.old.items }
{
    if pairs.is_empty() {
        return Ok(out.extend_from_slice(b"empty")?);
    }
    for (index, pair) in pairs.iter().enumerate() {
        if index > 0 {
            out.push(SPACE)?;
        }
        push_pair(out, pair)?;
    }
    Ok(())
}

/// Adds the text of a pair at the end. After an `Err` the text may be there in part.
fn push_pair(out: &mut Vec<u8>, pair: &(u32, u64)) -> Result<(), Memory>
    ensures ok { OnOk result (out.new.items ≡ out.old.items ++ pair_text pair.now) }
    ensures kept { take (vec_len out.old) out.new.items ≡ out.old.items }
{
    push_number(out, u128::from(pair.0))?;
    out.push(EQUALS)?;
    push_number(out, u128::from(pair.1))
}

/// Adds a call at the end as a line has it: this word and the numbers of the call, separated by one
/// space each.
pub fn push_call(out: &mut Vec<u8>, word: &[u8], call: &Call) -> Result<(), Memory>
    ensures ok { OnOk result (out.new.items ≡ out.old.items ++ call_text word.now call.now) }
    ensures err { OnErr result (out.new.items ≡ out.old.items) }
{
    let before = out.len();
    let pushed = push_word_and_numbers(out, word, call);
    if pushed.is_err() {
        out.truncate(before);
    }
    pushed
}

/// Adds a call at the end. After an `Err` the text may be there in part.
fn push_word_and_numbers(out: &mut Vec<u8>, word: &[u8], call: &Call) -> Result<(), Memory>
    ensures ok { OnOk result (out.new.items ≡ out.old.items ++ call_text word.now call.now) }
    ensures kept { take (vec_len out.old) out.new.items ≡ out.old.items }
{
    out.extend_from_slice(word)?;
    match *call {
        Call::Put(key, value) => push_two(out, u64::from(key), value),
        Call::Del(key) | Call::Get(key) => push_next(out, u64::from(key)),
        Call::Scan(from, to) | Call::ScanAt(from, to) => {
            push_two(out, u64::from(from), u64::from(to))
        }
        Call::Pin | Call::Unpin => Ok(()),
    }
}

/// Adds two numbers at the end, a space before each. After an `Err` the text may be there in part.
fn push_two(out: &mut Vec<u8>, first: u64, second: u64) -> Result<(), Memory>
    ensures ok { OnOk result (out.new.items ≡ out.old.items ++ SPACE ∷ decimal first
        ++ SPACE ∷ decimal second) }
    ensures kept { take (vec_len out.old) out.new.items ≡ out.old.items }
{
    push_next(out, first)?;
    push_next(out, second)
}

/// Adds a space and a number at the end. After an `Err` the text may be there in part.
fn push_next(out: &mut Vec<u8>, number: u64) -> Result<(), Memory>
    ensures ok { OnOk result (out.new.items ≡ out.old.items ++ SPACE ∷ decimal number) }
    ensures kept { take (vec_len out.old) out.new.items ≡ out.old.items }
{
    out.push(SPACE)?;
    push_number(out, u128::from(number))
}
