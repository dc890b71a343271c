//! The lines of bytes, and the words of a line.
//!
//! Both are iterators, seen as the list of what they still give: `specs/Cut.antt` says which lines
//! and words there are. A reader of another grammar takes its lines and words from here too, and
//! reads them with [`Words::number`], [`Words::key`] and [`Words::value`].
ghost use Rattle.std.specs.Prelude.{◌≡◌, ◌≢◌, ◌<◌, ◌^◌, ◌∷◌, [], ◌++◌, ℕ, List, All, decimal, IsTrue, ◌↔◌, IfSome, MatchOption};
ghost use Rattle.std.specs.Iterator.{YieldsFirstRef, item_count};
ghost use Rattle.kw_line.specs.Cut.{lines, words, words_of};

use crate::number;
use memchr::memchr;
use std::marker::Model;

/// The byte that ends a line.
pub const LINE_FEED: u8 = b'\n';

/// The byte between two words.
pub const SPACE: u8 = b' ';

/// The greatest value that a key may have.
pub const MOST_VALUE: u64 = 9_223_372_036_854_775_807;

/// Whether both are the same bytes: `==`, by a contract that says so of the bytes.
pub fn is_same(one: &[u8], other: &[u8]) -> bool
    ensures { IsTrue result ↔ (one.now ≡ other.now) }
{
    one == other
}

/// What stands before the first byte of this kind, and what stands after it.
fn cut_at(bytes: &[u8], mark: u8) -> Option<(&[u8], &[u8])>
    ensures { MatchOption result
        (All (λ byte. byte ≢ mark) bytes.now)
        (λ parts. (bytes.now ≡ parts.0.now ++ mark ∷ parts.1.now)
        × All (λ byte. byte ≢ mark) parts.0.now) }
{
    let end = memchr(mark, bytes)?;
    Some((&bytes[..end], &bytes[end + 1..]))
}

/// The number that is the first word of a line, and what is left of the line behind it.
///
/// None is no verdict on that word: this is the quick way, which
/// [`split_number`](number::split_number) takes.
fn first_number(line: &[u8]) -> Option<(u64, Option<&[u8]>)>
    ensures { IfSome result (λ parts. (parts.0 < 2 ^ 64)
        × (words line.now ≡ decimal parts.0 ∷ words_of parts.1)) }
{
    let (number, behind) = number::split_number(line)?;
    match behind {
        [] => Some((number, None)),
        [SPACE, rest @ ..] => Some((number, Some(rest))),
        _ => None,
    }
}

/// The lines of bytes, from the first one on. The last one's line feed may be missing.
#[derive(Drop)]
pub struct Lines<'a> {
    rest: &'a [u8],
}

impl<'a> Model for Lines<'a> {
    ghost use Rattle.std.specs.Prelude.{List, ℕ};
    ghost use Rattle.kw_line.specs.Cut.{lines};

    ghost Value = { List (List ℕ) };

    ghost view = { λ all. lines all.rest.now };
}

impl<'a> Lines<'a> {
    /// The lines of these bytes.
    pub fn new(bytes: &'a [u8]) -> Lines<'a>
        ensures { result ≡ lines bytes.entry.now }
    {
        Lines { rest: bytes }
    }
}

impl<'a> Iterator for Lines<'a> {
    type Item = &'a [u8];

    ghost next_gives = { YieldsFirstRef (λ left. left) };

    ghost remaining = { item_count (λ left. left) };

    fn next(&mut self) -> Option<&'a [u8]> {
        if self.rest.is_empty() {
            return None;
        }
        let (line, rest) = cut_at(self.rest, LINE_FEED).unwrap_or((self.rest, &[]));
        self.rest = rest;
        Some(line)
    }
}

/// The words of a line, from the first one on.
#[derive(Drop)]
pub struct Words<'a> {
    rest: Option<&'a [u8]>,
}

impl<'a> Model for Words<'a> {
    ghost use Rattle.std.specs.Prelude.{List, ℕ};
    ghost use Rattle.kw_line.specs.Cut.{words_of};

    ghost Value = { List (List ℕ) };

    ghost view = { λ left. words_of left.rest };
}

impl<'a> Words<'a> {
    /// The words of this line.
    pub fn new(line: &'a [u8]) -> Words<'a>
        ensures { result ≡ words line.entry.now }
    {
        Words { rest: Some(line) }
    }

    /// Whether no word is left.
    pub fn is_empty(&self) -> bool
        ensures { IsTrue result ↔ (self.now ≡ []) }
    {
        self.rest.is_none()
    }

    /// Takes the next word, where it is a number.
    pub fn number(&mut self) -> Option<u64>
        ensures { MatchOption result
            ((n : ℕ) (rest : List (List ℕ)) → n < 2 ^ 64 → self.old ≢ decimal n ∷ rest)
            (λ n. (n < 2 ^ 64) × (self.old ≡ decimal n ∷ self.new)) }
    {
        match first_number(self.rest?) {
            Some((number, rest)) => {
                self.rest = rest;
                Some(number)
            }
            None => number::number(self.next()?),
        }
    }

    /// Takes the next word, where it is a key.
    pub fn key(&mut self) -> Option<u32>
        ensures { MatchOption result
            ((k : ℕ) (rest : List (List ℕ)) → k < 2 ^ 32 → self.old ≢ decimal k ∷ rest)
            (λ k. (k < 2 ^ 32) × (self.old ≡ decimal k ∷ self.new)) }
    {
        u32::try_from(self.number()?).ok()
    }

    /// Takes the next word, where it is a value of a key.
    pub fn value(&mut self) -> Option<u64>
        ensures { MatchOption result
            ((v : ℕ) (rest : List (List ℕ)) → v < 2 ^ 63 → self.old ≢ decimal v ∷ rest)
            (λ v. (v < 2 ^ 63) × (self.old ≡ decimal v ∷ self.new)) }
    {
        let value = self.number()?;
        (value <= MOST_VALUE).then_some(value)
    }
}

impl<'a> Iterator for Words<'a> {
    type Item = &'a [u8];

    ghost next_gives = { YieldsFirstRef (λ left. left) };

    ghost remaining = { item_count (λ left. left) };

    fn next(&mut self) -> Option<&'a [u8]> {
        let line = self.rest?;
        match cut_at(line, SPACE) {
            Some((word, rest)) => {
                self.rest = Some(rest);
                Some(word)
            }
            None => {
                self.rest = None;
                Some(line)
            }
        }
    }
}
