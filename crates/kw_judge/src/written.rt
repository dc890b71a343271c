//! From a line of a record to what is written in it.
//!
//! Each reader here is told all bytes of what it reads, and its contract says the same both ways:
//! what these bytes are the text of, and that they are no such text. A line is read once for each
//! kind of line, so the time is linear in its bytes.
ghost use Rattle.std.specs.Prelude.{◌≡◌, ◌≢◌, ◌<◌, ◌≤◌, ◌^◌, ◌∷◌, ◌++◌, [], ℕ, List, All, decimal, length, IsTrue, ◌↔◌, IfOk, MatchOption};
ghost use Rattle.kw_line.specs.Cut.{words};
ghost use Rattle.std.specs.List.{AllByRecursion};
ghost use Rattle.kw_model.specs.declared.call.Reply.{Reply as AnyReply};
ghost use Rattle.kw_line.specs.Answered.{pair_text, pairs_text};
ghost use Rattle.kw_judge.specs.declared.record.Name.{Name as AnyName};
ghost use Rattle.kw_judge.specs.declared.record.DoneCall.{DoneCall as AnyDone};
ghost use Rattle.kw_judge.specs.declared.record.OpenCall.{OpenCall as AnyOpen};
ghost use Rattle.kw_judge.specs.declared.record.TheConstants.{MOST_POSITION};
ghost use Rattle.kw_judge.specs.declared.written.Head.{Head as AnyHead};
ghost use Rattle.kw_judge.specs.declared.written.Plain.{Plain as AnyPlain};
ghost use Rattle.kw_judge.specs.Record.{IsName, IsPair, FitsReply, IsDone, IsOpen, IsUpdate};
ghost use Rattle.kw_judge.specs.Texts.{name_text, reply_text, done_text, open_text, order_text};
ghost use Rattle.kw_judge.specs.Written.{IsWritten, IsNoLine, written_text, IsHead, head_words, open_words, plain_text, plain_reply};

use crate::parse::record_call;
use crate::print::{COLON, DOT};
use crate::record::{DoneCall, MOST_NUMBER, Name, OpenCall, RECORD_SEATS};
use kw_line::number;
use kw_line::print::EQUALS;
use kw_line::words::{MOST_VALUE, SPACE, Words, is_same};
use kw_model::call::{Call, Reply};
use kw_model::memory::Memory;
use kw_model::pair_list::PairList;
use std::alloc::Global;

/// What is written in a line of a record.
#[derive(Drop)]
pub enum Entry {
    /// A call that was answered.
    Done(DoneCall),
    /// A put or delete that was not answered and took effect.
    Open(OpenCall),
    /// The order that is claimed.
    Order(Vec<Name>),
}

/// What stands before the colon of an answered call.
#[derive(Clone, Copy)]
struct Head {
    name: Name,
    first: u64,
    last: u64,
    call: Call,
}

/// A reply that is printed as words: each but a value and pairs.
#[derive(Clone, Copy, Debug, PartialEq, Eq)]
enum Plain {
    /// `ok`.
    Done,
    /// `none`.
    Absent,
    /// `empty`, of pairs.
    Empty,
    /// `no rows`.
    NoRows,
    /// `spent`.
    Spent,
    /// `stopped`.
    Stopped,
    /// `held`.
    Held,
    /// `not pinned`.
    NotPinned,
}

/// What is written in the line, or none where it is no line of a record.
pub fn written(alloc: Global, line: &[u8]) -> Result<Option<Entry>, Memory>
    ensures { IfOk result (λ answer. MatchOption answer
        (IsNoLine line.now)
        (λ entry. IsWritten entry × (line.now ≡ written_text entry))) }
{
    if let Some(call) = done_call(alloc, line)? {
        return Ok(Some(Entry::Done(call)));
    }
    if let Some(call) = open_call(line) {
        return Ok(Some(Entry::Open(call)));
    }
    let Some(names) = order(alloc, line)? else {
        return Ok(None);
    };
    Ok(Some(Entry::Order(names)))
}

/// The answered call whose line this is, or none.
fn done_call(alloc: Global, line: &[u8]) -> Result<Option<DoneCall>, Memory>
    ensures { IfOk result (λ answer. MatchOption answer
        ((call : AnyDone) → IsDone call → line.now ≢ done_text call)
        (λ call. IsDone call × (line.now ≡ done_text call))) }
{
    let Some((before, after)) = parts_at(line, COLON) else {
        return Ok(None);
    };
    let Some(head) = done_head(before) else {
        return Ok(None);
    };
    let Some(text) = after_space(after) else {
        return Ok(None);
    };
    let Some(reply) = reply(alloc, text)? else {
        return Ok(None);
    };
    Ok(Some(DoneCall {
        name: head.name,
        first: head.first,
        last: head.last,
        call: head.call,
        reply,
    }))
}

/// What the bytes before a colon say of an answered call, or none.
fn done_head(bytes: &[u8]) -> Option<Head>
    ensures { MatchOption result
        ((head : AnyHead) → IsHead head → words bytes.now ≢ head_words head)
        (λ head. IsHead head × (words bytes.now ≡ head_words head)) }
{
    let mut words = Words::new(bytes);
    let (name, first) = name_and_first(&mut words, b"done")?;
    let last = words.value()?;
    let call = record_call(&mut words)?;
    (words.is_empty() && first <= last).then_some(Head {
        name,
        first,
        last,
        call,
    })
}

/// The put or delete whose line this is, or none.
fn open_call(line: &[u8]) -> Option<OpenCall>
    ensures { MatchOption result
        ((call : AnyOpen) → IsOpen call → words line.now ≢ open_words call)
        (λ call. IsOpen call × (words line.now ≡ open_words call)) }
{
    let mut words = Words::new(line);
    let (name, first) = name_and_first(&mut words, b"open")?;
    let call = record_call(&mut words)?;
    (words.is_empty() && is_update(&call)).then_some(OpenCall { name, first, call })
}

/// Whether the call sets a value or takes a key away.
fn is_update(call: &Call) -> bool
    ensures { IsTrue result ↔ IsUpdate call.now }
{
    matches!(call, Call::Put(..) | Call::Del(_))
}

/// Takes this word, a name and a position, where these are the next words.
fn name_and_first(words: &mut Words, word: &[u8]) -> Option<(Name, u64)>
    ensures { MatchOption result
        ((name : AnyName) (first : ℕ) (left : List (List ℕ)) → IsName name → first ≤ MOST_POSITION
        → words.old ≢ word.now ∷ name_text name ∷ decimal first ∷ left)
        (λ p. IsName p.0 × (p.1 ≤ MOST_POSITION)
        × (words.old ≡ word.now ∷ name_text p.0 ∷ decimal p.1 ∷ words.new)) }
{
    if words.next()? != word {
        return None;
    }
    let name = name(words.next()?)?;
    Some((name, words.value()?))
}

/// The names of the order whose line this is, or none.
fn order(alloc: Global, line: &[u8]) -> Result<Option<Vec<Name>>, Memory>
    ensures { IfOk result (λ answer. MatchOption answer
        ((names : List AnyName) → AllByRecursion IsName names → line.now ≢ order_text names)
        (λ names. AllByRecursion IsName names.items × (line.now ≡ order_text names.items))) }
{
    let mut names = Vec::new(alloc);
    if is_same(line, b"order none") {
        return Ok(Some(names));
    }
    let mut words = Words::new(line);
    let Some(first) = words.next() else {
        return Ok(None);
    };
    if !is_same(first, b"order") {
        return Ok(None);
    }
    for word in words {
        let Some(name) = name(word) else {
            return Ok(None);
        };
        names.push(name)?;
    }
    Ok((!names.is_empty()).then_some(names))
}

/// The name whose text this is, or none.
fn name(text: &[u8]) -> Option<Name>
    ensures { MatchOption result
        ((name : AnyName) → IsName name → text.now ≢ name_text name)
        (λ name. IsName name × (text.now ≡ name_text name)) }
{
    let (seat, number) = parts_at(text, DOT)?;
    let seat = number_between(seat, 0, u64::from(RECORD_SEATS) - 1)?;
    let number = number_between(number, 1, u64::from(MOST_NUMBER))?;
    Some(Name {
        seat: seat as u32,
        number: number as u32,
    })
}

/// The reply whose text this is, or none.
fn reply(alloc: Global, text: &[u8]) -> Result<Option<Reply>, Memory>
    ensures { IfOk result (λ answer. MatchOption answer
        ((reply : AnyReply) → FitsReply reply → text.now ≢ reply_text reply)
        (λ reply. FitsReply reply × (text.now ≡ reply_text reply))) }
{
    if let Some(plain) = plain_named(text) {
        return Ok(Some(plain_reply(alloc, plain)));
    }
    if let Some(value) = number_between(text, 0, MOST_VALUE) {
        return Ok(Some(Reply::Value(value)));
    }
    let Some(pairs) = pairs(alloc, text)? else {
        return Ok(None);
    };
    Ok(Some(Reply::Pairs(pairs)))
}

/// The reply that these words are, or none.
fn plain_named(text: &[u8]) -> Option<Plain>
    ensures { MatchOption result
        ((plain : AnyPlain) → text.now ≢ plain_text plain)
        (λ plain. text.now ≡ plain_text plain) }
{
    if is_same(text, b"ok") {
        Some(Plain::Done)
    } else if is_same(text, b"none") {
        Some(Plain::Absent)
    } else if is_same(text, b"empty") {
        Some(Plain::Empty)
    } else if is_same(text, b"no rows") {
        Some(Plain::NoRows)
    } else if is_same(text, b"spent") {
        Some(Plain::Spent)
    } else if is_same(text, b"stopped") {
        Some(Plain::Stopped)
    } else if is_same(text, b"held") {
        Some(Plain::Held)
    } else if is_same(text, b"not pinned") {
        Some(Plain::NotPinned)
    } else {
        None
    }
}

/// The reply that is printed as words.
fn plain_reply(alloc: Global, plain: Plain) -> Reply
    ensures { result ≡ plain_reply plain }
{
    match plain {
        Plain::Done => Reply::Done,
        Plain::Absent => Reply::Absent,
        Plain::Empty => Reply::Pairs(PairList::new(alloc)),
        Plain::NoRows => Reply::NoRows,
        Plain::Spent => Reply::Spent,
        Plain::Stopped => Reply::Stopped,
        Plain::Held => Reply::Held,
        Plain::NotPinned => Reply::NotPinned,
    }
}

/// The pairs whose text this is, or none; there is one at least.
fn pairs(alloc: Global, text: &[u8]) -> Result<Option<PairList>, Memory>
    ensures { IfOk result (λ answer. MatchOption answer
        ((pairs : List (ℕ × ℕ)) → 0 < length pairs → AllByRecursion IsPair pairs → text.now ≢ pairs_text pairs)
        (λ pairs. AllByRecursion IsPair pairs × (text.now ≡ pairs_text pairs))) }
{
    let mut pairs = PairList::new(alloc);
    for word in Words::new(text) {
        let Some((key, value)) = pair(word) else {
            return Ok(None);
        };
        pairs.push(key, value)?;
    }
    Ok(Some(pairs))
}

/// The pair whose text this is, or none.
fn pair(text: &[u8]) -> Option<(u32, u64)>
    ensures { MatchOption result
        ((pair : ℕ × ℕ) → IsPair pair → text.now ≢ pair_text pair)
        (λ pair. IsPair pair × (text.now ≡ pair_text pair)) }
{
    let (key, value) = parts_at(text, EQUALS)?;
    let key = number_between(key, 0, u64::from(u32::MAX))?;
    let value = number_between(value, 0, MOST_VALUE)?;
    Some((key as u32, value))
}

/// The number from `least` to `most` whose decimal text the bytes are, or none.
fn number_between(bytes: &[u8], least: u64, most: u64) -> Option<u64>
    ensures { MatchOption result
        ((n : ℕ) → least ≤ n → n ≤ most → bytes.now ≢ decimal n)
        (λ n. (least ≤ n) × (n ≤ most) × (bytes.now ≡ decimal n)) }
{
    let number = number::number(bytes)?;
    (least <= number && number <= most).then_some(number)
}

/// What follows a space, where the bytes begin with one.
fn after_space(bytes: &[u8]) -> Option<&[u8]>
    ensures { MatchOption result
        ((rest : List ℕ) → bytes.now ≢ SPACE ∷ rest)
        (λ rest. bytes.now ≡ SPACE ∷ rest.now) }
{
    match bytes {
        [b' ', rest @ ..] => Some(rest),
        _ => None,
    }
}

/// What stands before the first byte of this kind, and what stands after it.
fn parts_at(bytes: &[u8], mark: u8) -> Option<(&[u8], &[u8])>
    ensures { MatchOption result
        (All (λ byte. byte ≢ mark) bytes.now)
        (λ parts. (bytes.now ≡ parts.0.now ++ mark ∷ parts.1.now)
        × All (λ byte. byte ≢ mark) parts.0.now) }
{
    let end = bytes.iter().position(|byte| *byte == mark)?;
    Some((&bytes[..end], &bytes[end + 1..]))
}
