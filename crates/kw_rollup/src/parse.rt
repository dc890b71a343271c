//! From lines to items.
//!
//! A line is read word by word, and it is the text of an item exactly where all its words are read.
//! Nothing is read twice, so the whole takes time linear in the bytes. Lines, words and numbers are
//! those of `kw_line`.
ghost use Rattle.std.specs.Prelude.{◌≡◌, ◌≢◌, ◌<◌, ◌≤◌, ◌^◌, ◌++◌, ◌∷◌, [], ◌⊎◌, ℕ, List, length, decimal, MatchOption, IfOk, vec_len};
ghost use Rattle.kw_line.specs.Line.{IfBad};
ghost use Rattle.kw_rollup.specs.Lines.{IsRollItem, IsRollText, AreRollLines, IsFirstBadRollLine, key_words, roll_text};

use crate::item::{MINUTES, RollItem, SERIES};
use kw_line::error::LineError;
use kw_line::parse::MOST_BYTES;
use kw_line::words::{Lines, Words, is_same};
use std::alloc::Global;

/// How many bytes the shortest line has, `table`, with the byte that ends it.
const FEWEST_BYTES: usize = 6;

/// The items of an input's lines, one for each line.
pub fn roll_parse(alloc: Global, bytes: &[u8]) -> Result<Vec<RollItem>, LineError>
    requires { length bytes.now ≤ MOST_BYTES }
    ensures items { IfOk result (λ items. AreRollLines bytes.now items.items) }
    ensures few { IfOk result (λ items. vec_len items ≤ length bytes.now) }
    ensures bad { IfBad (IsFirstBadRollLine bytes.now) result }
{
    // room for as many as there can be: an input that has more lines than these is a bad one
    let mut items = Vec::with_capacity(alloc, bytes.len() / FEWEST_BYTES + 1)?;
    for line in Lines::new(bytes) {
        let Some(item) = item(line) else {
            let line = items.len() as u32 + 1;
            return Err(LineError::Bad { line });
        };
        items.push(item)?;
    }
    Ok(items)
}

/// The item whose text the line is, or none.
fn item(line: &[u8]) -> Option<RollItem>
    ensures { MatchOption result
        (IsRollText line.now → ⊥)
        (λ item. IsRollItem item × (line.now ≡ roll_text item)) }
{
    let mut words = Words::new(line);
    let word = words.next()?;
    if is_same(word, b"table") {
        return words.is_empty().then_some(RollItem::Table);
    }
    if is_same(word, b"del") {
        let key = key(&mut words)?;
        return words.is_empty().then_some(RollItem::Del(key));
    }
    if is_same(word, b"put") {
        let key = key(&mut words)?;
        let value = words.value()?;
        return words.is_empty().then_some(RollItem::Put(key, value));
    }
    None
}

/// Takes the next two words, where they are a series and a minute, and gives the key of both.
fn key(words: &mut Words) -> Option<u32>
    ensures { MatchOption result
        ((key : ℕ) (rest : List (List ℕ)) → key < 2 ^ 32 → words.old ≢ key_words key ++ rest)
        (λ key. (key < 2 ^ 32) × (words.old ≡ key_words key ++ words.new)) }
{
    let series = number_below(words, SERIES)?;
    let minute = number_below(words, MINUTES)?;
    Some(series * MINUTES + minute)
}

/// Takes the next word, where it is a number below this limit.
fn number_below(words: &mut Words, limit: u32) -> Option<u32>
    ensures { MatchOption result
        ((n : ℕ) (rest : List (List ℕ)) → n < limit → words.old ≢ decimal n ∷ rest)
        (λ n. (n < limit) × (words.old ≡ decimal n ∷ words.new)) }
{
    let number = words.key()?;
    (number < limit).then_some(number)
}
