//! The command `rollup`: tables of the points that the accepted updates above them leave.
//!
//! The workers answer the updates as those of `replay`, and the first of them scans all keys behind
//! the first table (`asked`). When all have ended, the tables are made of their answers (`tables`).
ghost use Rattle.std.specs.Prelude.{◌<◌, ◌≤◌, length, IfOk};
ghost use Rattle.kw_rollup.specs.Lines.{IsFirstBadRollLine};
ghost use Rattle.kw_app.specs.Inputs.{IfNamed};
ghost use Rattle.kw_app.specs.Rolling.{IsRolled};

use crate::asked::asked_items;
use crate::crew::Crew;
use crate::input::InputError;
use crate::printed::{Ending, Printed};
use crate::running::run_on_map;
use crate::tables::tables;
use crate::working::Gate;
use kw_line::parse::MOST_BYTES;
use kw_rollup::item::MINUTES;
use kw_rollup::parse::roll_parse;
use std::alloc::Global;
use std::sync::Wait;
use std::thread::Threads;

/// The tables among the lines of these bytes, of buckets of `width` minutes, from 1 to [`MINUTES`].
/// `Bad` names the first line that is not in the grammar.
pub fn rolled<R: Threads + Wait + Sync, G: Gate + Sync>(
    rt: &R,
    alloc: Global,
    width: u32,
    crew: &Crew<'_, G>,
    bytes: Vec<u8>,
) -> Result<Printed, InputError>
    requires short { length bytes.items ≤ MOST_BYTES }
    requires some { 0 < width }
    requires most { width ≤ MINUTES }
    ensures text { IfOk result (λ printed. IsRolled width crew.now.workers crew.now.rows
        bytes.items printed.text.items printed.front printed.ending) }
    ensures bad { IfNamed (IsFirstBadRollLine bytes.items) result }
{
    let items = roll_parse(alloc, &bytes)?;
    // The room of the bytes is free again before the answers take any.
    drop(bytes);
    let asked = asked_items(alloc, &items, crew.workers)?;
    let (front, answers) = run_on_map(rt, alloc, crew, &asked)?;
    let text = tables(alloc, width, &items, &answers)?;
    let ending = Ending::of_answers(&answers);
    Ok(Printed {
        text,
        ending,
        front: Some(front),
    })
}
