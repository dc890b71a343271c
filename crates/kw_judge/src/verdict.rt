//! What a judge says of a record.
//!
//! A [`Verdict`] names the first thing that is wrong, and where; `specs/Verdict.antt` says what
//! each means.
ghost use Rattle.std.specs.Prelude.{◌≡◌, ◌++◌, ◌∷◌, [], IfOk, OnOk};
ghost use Rattle.kw_judge.specs.Verdict.{verdict_text};
ghost use Rattle.kw_judge.specs.Texts.{name_text};

use crate::print::push_name;
use crate::record::Name;
use kw_line::words::{LINE_FEED, SPACE};
use kw_model::memory::Memory;
use std::alloc::Global;

/// Whether a record is good, or what is wrong with it. Each variant after the first comes only
/// where none before it does.
#[derive(Clone, Copy, Debug, PartialEq, Eq)]
pub enum Verdict {
    /// The record is good.
    Yes,
    /// The first name that stands again in the order.
    Twice(Name),
    /// The first name of the order that no line has.
    Unknown(Name),
    /// The name of the first line whose name the order lacks.
    Missing(Name),
    /// The first call of the order that had ended before one in front of it began, and the first
    /// such one.
    Late(Name, Name),
    /// The first call of the order whose reply is not that of the map.
    Wrong(Name),
}

/// The line that says this verdict.
pub fn print_verdict(alloc: Global, verdict: &Verdict) -> Result<Vec<u8>, Memory>
    ensures { IfOk result (λ bytes. bytes.items ≡ verdict_text verdict.now ++ LINE_FEED ∷ []) }
{
    let mut out = Vec::new(alloc);
    match *verdict {
        Verdict::Yes => out.extend_from_slice(b"yes")?,
        Verdict::Twice(name) => push_fault(&mut out, b"no: twice ", name)?,
        Verdict::Unknown(name) => push_fault(&mut out, b"no: unknown ", name)?,
        Verdict::Missing(name) => push_fault(&mut out, b"no: missing ", name)?,
        Verdict::Late(late, before) => {
            push_fault(&mut out, b"no: late ", late)?;
            out.push(SPACE)?;
            push_name(&mut out, before)?;
        }
        Verdict::Wrong(name) => push_fault(&mut out, b"no: wrong ", name)?,
    }
    out.push(LINE_FEED)?;
    Ok(out)
}

/// Adds what is wrong, and the name of the call, at the end.
fn push_fault(out: &mut Vec<u8>, fault: &[u8], name: Name) -> Result<(), Memory>
    ensures { OnOk result (out.new.items ≡ out.old.items ++ fault.now ++ name_text name) }
{
    out.extend_from_slice(fault)?;
    push_name(out, name)
}
