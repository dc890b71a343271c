//! From words to calls.
//!
//! Each reader takes what it reads off the front of the words that are left, and its contract says
//! the same both ways: which words it takes for what, and that no other words would have been that.
ghost use Rattle.std.specs.Prelude.{◌≡◌, ◌≢◌, ◌++◌, ℕ, List, map, decimal, MatchOption};
ghost use Rattle.kw_model.specs.declared.call.Call.{Call as AnyCall};
ghost use Rattle.kw_line.specs.Line.{FitsCall, arguments};
ghost use Rattle.kw_model.specs.LegalFor.{is_of_snapshots};
ghost use Rattle.kw_judge.specs.Record.{IsRecordCall};
ghost use Rattle.kw_judge.specs.declared.parse.CallVerb.{CallVerb as AnyCallVerb};
ghost use Rattle.kw_judge.specs.Texts.{call_words, call_verb_of, call_verb_word};

use kw_line::words::{Words, is_same};
use kw_model::call::Call;

/// The first word of a call.
#[derive(Clone, Copy, Debug, PartialEq, Eq)]
pub enum CallVerb {
    /// `put`, before a key and a value.
    Put,
    /// `del`, before a key.
    Del,
    /// `get`, before a key.
    Get,
    /// `scan`, before the least and the greatest key of a range.
    Scan,
    /// `pin`.
    Pin,
    /// `scan_at`, before the least and the greatest key of a range.
    ScanAt,
    /// `unpin`.
    Unpin,
}

/// The call whose words are the next ones, or none. It is of no snapshot.
pub fn call(words: &mut Words) -> Option<Call>
    ensures { MatchOption result
        ((call : AnyCall) (left : List (List ℕ)) → FitsCall call → words.old ≢ call_words call ++ left)
        (λ call. FitsCall call × (words.old ≡ call_words call ++ words.new)) }
{
    let call = record_call(words)?;
    (!is_of_snapshots(&call)).then_some(call)
}

/// Whether the call is of snapshots.
fn is_of_snapshots(call: &Call) -> bool
    ensures { result ≡ is_of_snapshots call.now }
{
    matches!(call, Call::Pin | Call::ScanAt(..) | Call::Unpin)
}

/// The call of a record whose words are the next ones, or none.
pub fn record_call(words: &mut Words) -> Option<Call>
    ensures { MatchOption result
        ((call : AnyCall) (left : List (List ℕ)) → IsRecordCall call
        → words.old ≢ call_words call ++ left)
        (λ call. IsRecordCall call × (words.old ≡ call_words call ++ words.new)) }
{
    let verb = call_verb_named(words.next()?)?;
    call_of(verb, words)
}

/// What a call does that begins with this word, or none.
fn call_verb_named(word: &[u8]) -> Option<CallVerb>
    ensures { MatchOption result
        ((verb : AnyCallVerb) → word.now ≢ call_verb_word verb)
        (λ verb. word.now ≡ call_verb_word verb) }
{
    if is_same(word, b"put") {
        Some(CallVerb::Put)
    } else if is_same(word, b"del") {
        Some(CallVerb::Del)
    } else if is_same(word, b"get") {
        Some(CallVerb::Get)
    } else if is_same(word, b"scan") {
        Some(CallVerb::Scan)
    } else if is_same(word, b"pin") {
        Some(CallVerb::Pin)
    } else if is_same(word, b"scan_at") {
        Some(CallVerb::ScanAt)
    } else if is_same(word, b"unpin") {
        Some(CallVerb::Unpin)
    } else {
        None
    }
}

/// The call that does this and whose numbers are the next words, or none.
fn call_of(verb: CallVerb, words: &mut Words) -> Option<Call>
    ensures { MatchOption result
        ((call : AnyCall) (left : List (List ℕ)) → call_verb_of call ≡ verb → IsRecordCall call
        → words.old ≢ map decimal (arguments call) ++ left)
        (λ call. (call_verb_of call ≡ verb) × IsRecordCall call
        × (words.old ≡ map decimal (arguments call) ++ words.new)) }
{
    match verb {
        CallVerb::Put => {
            let key = words.key()?;
            Some(Call::Put(key, words.value()?))
        }
        CallVerb::Del => Some(Call::Del(words.key()?)),
        CallVerb::Get => Some(Call::Get(words.key()?)),
        CallVerb::Scan => {
            let from = words.key()?;
            Some(Call::Scan(from, words.key()?))
        }
        CallVerb::Pin => Some(Call::Pin),
        CallVerb::ScanAt => {
            let from = words.key()?;
            Some(Call::ScanAt(from, words.key()?))
        }
        CallVerb::Unpin => Some(Call::Unpin),
    }
}
