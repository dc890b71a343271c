//! The command `judge`: the verdict on the record that an input is.
//!
//! Who wrote the record does not matter: nothing of it is believed.
ghost use Rattle.std.specs.Prelude.{◌≡◌, None, IfOk};
ghost use Rattle.kw_judge.specs.Record.{IsFirstBad};
ghost use Rattle.kw_app.specs.Inputs.{IfNamed};
ghost use Rattle.kw_app.specs.Judging.{IsJudged, verdict_ending};

use crate::input::InputError;
use crate::printed::{Ending, Printed};
use kw_judge::judge::judge;
use kw_judge::read::read_record;
use kw_judge::verdict::{Verdict, print_verdict};
use std::alloc::Global;

/// The verdict on the record whose text these bytes are. `Bad` names the first line up to which the
/// lines begin no record.
pub fn judged(alloc: Global, bytes: &[u8]) -> Result<Printed, InputError>
    ensures text { IfOk result (λ printed. (printed.front ≡ None)
        × IsJudged bytes.now printed.text.items printed.ending) }
    ensures bad { IfNamed (IsFirstBad bytes.now) result }
{
    let written = read_record(alloc, bytes)?;
    let verdict = judge(alloc, &written)?;
    let text = print_verdict(alloc, &verdict)?;
    Ok(Printed {
        text,
        ending: ending_of(verdict),
        front: None,
    })
}

/// How a text ends that says this verdict.
fn ending_of(verdict: Verdict) -> Ending
    ensures { result ≡ verdict_ending verdict }
{
    match verdict {
        Verdict::Yes => Ending::Done,
        _ => Ending::NotLegal,
    }
}
