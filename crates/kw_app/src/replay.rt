//! The command `replay`: the replies to the lines of an input.
ghost use Rattle.std.specs.Prelude.{◌≤◌, length, IfOk};
ghost use Rattle.kw_line.specs.Line.{IsFirstBadLine};
ghost use Rattle.kw_app.specs.Inputs.{IfNamed};
ghost use Rattle.kw_app.specs.Replay.{IsReplayed};

use crate::crew::Crew;
use crate::input::InputError;
use crate::printed::{Ending, Printed};
use crate::running::run_on_map;
use crate::working::Gate;
use kw_beside::beside::{parse_beside, print_beside};
use kw_line::parse::MOST_BYTES;
use std::alloc::Global;
use std::sync::Wait;
use std::thread::Threads;

/// The text of the crew's replies to the lines of these bytes. `Bad` names the first line that is
/// not in the grammar.
pub fn replay<R: Threads + Wait + Sync, G: Gate + Sync>(
    rt: &R,
    alloc: Global,
    crew: &Crew<'_, G>,
    bytes: Vec<u8>,
) -> Result<Printed, InputError>
    requires { length bytes.items ≤ MOST_BYTES }
    ensures text { IfOk result (λ printed. IsReplayed crew.now.workers crew.now.rows
        bytes.items printed.text.items printed.front printed.ending) }
    ensures bad { IfNamed (IsFirstBadLine bytes.items) result }
{
    let items = parse_beside(rt, alloc, &bytes, crew.workers)?;
    // The room of the bytes is free again before the answers take any.
    drop(bytes);
    let (front, answers) = run_on_map(rt, alloc, crew, &items)?;
    // Nor are the lines kept while their answers are printed.
    drop(items);
    let text = print_beside(rt, alloc, &answers, crew.workers)?;
    let ending = Ending::of_answers(&answers);
    Ok(Printed {
        text,
        ending,
        front: Some(front),
    })
}
