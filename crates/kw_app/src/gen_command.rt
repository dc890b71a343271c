//! The command `gen`: lines from the generator, asked as the lines of an input are, and the summary
//! of the replies.
ghost use Rattle.std.specs.Prelude.{◌≤◌, IfOk};
ghost use Rattle.kw_app.specs.Gen.{IsSummaryOf};

use crate::crew::Crew;
use crate::generate::generate;
use crate::printed::{Ending, Printed};
use crate::running::run_on_map;
use crate::summary::summary;
use crate::working::Gate;
use kw_command::command::MOST_LINES;
use kw_model::memory::Memory;
use std::alloc::Global;
use std::sync::Wait;
use std::thread::Threads;

/// The summary of the crew's replies to the lines that the generator makes: this many, from this
/// number on.
pub fn summarized<R: Threads + Wait + Sync, G: Gate + Sync>(
    rt: &R,
    alloc: Global,
    start: u32,
    count: u32,
    crew: &Crew<'_, G>,
) -> Result<Printed, Memory>
    requires { count ≤ MOST_LINES }
    ensures { IfOk result (λ printed. IsSummaryOf start count crew.now.workers crew.now.rows
        printed.text.items printed.front printed.ending) }
{
    let items = generate(alloc, start, count)?;
    let (front, answers) = run_on_map(rt, alloc, crew, &items)?;
    let text = summary(alloc, &items, &answers)?;
    let ending = Ending::of_answers(&answers);
    Ok(Printed {
        text,
        ending,
        front: Some(front),
    })
}
