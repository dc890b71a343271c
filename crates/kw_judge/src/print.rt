//! The one text of calls, replies and names, and of the lines of a record.
//!
//! Each is printed by one function here, at the end of a `Vec` that grows, so that everything that
//! prints them prints them alike. A function whose contract has no word on an `Err` may have left a
//! part of its text.
ghost use Rattle.std.specs.Prelude.{◌≡◌, ◌++◌, ◌∷◌, [], OnOk, OnErr};
ghost use Rattle.std.specs.List.{flat_map};
ghost use Rattle.kw_judge.specs.Texts.{call_text, call_word, reply_text, name_text, done_text, open_text, order_text};

use crate::record::Name;
use kw_line::number::push_number;
use kw_line::print;
use kw_line::words::{LINE_FEED, SPACE};
use kw_model::call::{Call, Reply};
use kw_model::memory::Memory;

/// The byte between a seat and the number of its call.
pub const DOT: u8 = b'.';

/// The byte between a call and its reply.
pub const COLON: u8 = b':';

/// Adds a call at the end: its word and its numbers.
pub fn push_call(out: &mut Vec<u8>, call: &Call) -> Result<(), Memory>
    ensures ok { OnOk result (out.new.items ≡ out.old.items ++ call_text call.now) }
    ensures err { OnErr result (out.new.items ≡ out.old.items) }
{
    print::push_call(out, call_word(call), call)
}

/// The word that a call begins with.
fn call_word(call: &Call) -> &'static [u8]
    ensures { result.now ≡ call_word call.now }
{
    match call {
        Call::Put(..) => b"put",
        Call::Del(_) => b"del",
        Call::Get(_) => b"get",
        Call::Scan(..) => b"scan",
        Call::Pin => b"pin",
        Call::ScanAt(..) => b"scan_at",
        Call::Unpin => b"unpin",
    }
}

/// Adds a reply at the end.
pub fn push_reply(out: &mut Vec<u8>, reply: &Reply) -> Result<(), Memory>
    ensures ok { OnOk result (out.new.items ≡ out.old.items ++ reply_text reply.now) }
    ensures err { OnErr result (out.new.items ≡ out.old.items) }
{
    match reply {
        Reply::Done => Ok(out.extend_from_slice(b"ok")?),
        Reply::Value(value) => push_number(out, u128::from(*value)),
        Reply::Absent => Ok(out.extend_from_slice(b"none")?),
        Reply::Pairs(pairs) => print::push_pairs(out, pairs),
        Reply::NoRows => Ok(out.extend_from_slice(b"no rows")?),
        Reply::Spent => Ok(out.extend_from_slice(b"spent")?),
        Reply::Stopped => Ok(out.extend_from_slice(b"stopped")?),
        Reply::Held => Ok(out.extend_from_slice(b"held")?),
        Reply::NotPinned => Ok(out.extend_from_slice(b"not pinned")?),
    }
}

/// Adds the name of a call at the end.
pub fn push_name(out: &mut Vec<u8>, name: Name) -> Result<(), Memory>
    ensures { OnOk result (out.new.items ≡ out.old.items ++ name_text name) }
{
    push_number(out, u128::from(name.seat))?;
    out.push(DOT)?;
    push_number(out, u128::from(name.number))
}

/// Adds the line of a call that was answered.
pub fn push_done(
    out: &mut Vec<u8>,
    name: Name,
    first: u64,
    last: u64,
    call: &Call,
    reply: &Reply,
) -> Result<(), Memory>
    ensures { OnOk result (out.new.items ≡ out.old.items
        ++ done_text (record { name = name; first = first; last = last; call = call.now; reply = reply.now })
        ++ LINE_FEED ∷ []) }
{
    out.extend_from_slice(b"done ")?;
    push_name(out, name)?;
    out.push(SPACE)?;
    push_number(out, u128::from(first))?;
    out.push(SPACE)?;
    push_number(out, u128::from(last))?;
    out.push(SPACE)?;
    push_call(out, call)?;
    out.extend_from_slice(&[COLON, SPACE])?;
    push_reply(out, reply)?;
    Ok(out.push(LINE_FEED)?)
}

/// Adds the line of a put or delete that was not answered.
pub fn push_open(out: &mut Vec<u8>, name: Name, first: u64, call: &Call) -> Result<(), Memory>
    ensures { OnOk result (out.new.items ≡ out.old.items
        ++ open_text (record { name = name; first = first; call = call.now }) ++ LINE_FEED ∷ []) }
{
    out.extend_from_slice(b"open ")?;
    push_name(out, name)?;
    out.push(SPACE)?;
    push_number(out, u128::from(first))?;
    out.push(SPACE)?;
    push_call(out, call)?;
    Ok(out.push(LINE_FEED)?)
}

/// Adds the line that says in which order these calls stand: their names in it, or `none` where
/// there are none.
pub fn push_order(out: &mut Vec<u8>, names: &[Name]) -> Result<(), Memory>
    ensures { OnOk result (out.new.items ≡ out.old.items
        ++ order_text names.now ++ LINE_FEED ∷ []) }
{
    out.extend_from_slice(b"order")?;
    if names.is_empty() {
        out.extend_from_slice(b" none")?;
    }
    push_names(out, names)?;
    Ok(out.push(LINE_FEED)?)
}

/// Adds the names of these calls at the end, each after a space.
fn push_names(out: &mut Vec<u8>, names: &[Name]) -> Result<(), Memory>
    ensures { OnOk result (out.new.items ≡ out.old.items
        ++ flat_map (λ name. SPACE ∷ name_text name) names.now) }
{
    for name in names {
        out.push(SPACE)?;
        push_name(out, *name)?;
    }
    Ok(())
}
