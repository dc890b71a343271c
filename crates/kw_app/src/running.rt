//! All blocks of an input, one after another, on one map.
//!
//! The contract of `run_on_map` says what the list of events of a whole run has, whatever the
//! workers did beside each other, and what the answers are worth: `specs/Running.antt` and
//! `specs/Headline.antt`. `replay` and `gen_command` print such answers.
ghost use Rattle.std.specs.Prelude.{◌≡◌, ◌<◌, ◌^◌, [], length, map, All, IfOk};
ghost use Rattle.std.specs.List.{AllByRecursion};
ghost use Rattle.kw_line.specs.Line.{IsItem};
ghost use Rattle.kw_table.specs.Passes.{opening_of};
ghost use Rattle.kw_map.specs.Meetings.{front_seen};
ghost use Rattle.kw_work.specs.Dealing.{IsLine};
ghost use Rattle.kw_app.specs.Answering.{IsRun, opening};
ghost use Rattle.kw_app.specs.Rounds.{AreTogether};
ghost use Rattle.kw_app.specs.Running.{Ran};

use crate::crew::Crew;
use crate::rounds::play;
use crate::working::Gate;
use kw_beside::joined::joined;
use kw_line::answer::Answer;
use kw_line::item::Item;
use kw_map::Pass;
use kw_map::kiwi::Kiwi;
use kw_model::memory::Memory;
use kw_work::block::Block;
use kw_work::deal::deal;
use std::alloc::{AllocError, Global};
use std::sync::Wait;
use std::thread::Threads;

/// Room for the answers of all lines, where there are several blocks; else none, as the answers of
/// one block are not copied. A list that grew would leave memory behind at each doubling.
fn room(alloc: Global, blocks: &[Block<'_>]) -> Result<Vec<Answer>, AllocError>
    ensures { IfOk result (λ answers. answers.items ≡ []) }
{
    if blocks.len() < 2 {
        return Ok(Vec::new(alloc));
    }
    let mut lines: usize = 0;
    for block in blocks {
        lines = lines.saturating_add(block.len());
    }
    Vec::with_capacity(alloc, lines)
}

/// Answers the blocks in order.
fn play_all<R: Threads + Wait + Sync, G: Gate + Sync>(
    rt: &R,
    alloc: Global,
    crew: &Crew<'_, G>,
    kiwi: &Kiwi,
    blocks: &[Block<'_>],
    passes: Vec<Pass>,
) -> Result<(Vec<Pass>, Vec<Answer>), Memory>
    requires together { AreTogether kiwi.now crew.now.workers [] passes.items }
    requires workers { All (λ block. block.workers ≡ crew.now.workers) blocks.now }
    requires lines { All (λ block. All IsLine block.lines) blocks.now }
    ensures together { IfOk result (λ both.
        AreTogether kiwi.now crew.now.workers (front_seen both.0.items) both.0.items) }
    ensures ran { IfOk result (λ both. Ran (opening_of kiwi.now) crew.now.workers
        (map (λ block. block.lines) blocks.now) (front_seen both.0.items) both.1.items) }
{
    let mut passes = passes;
    let mut answers = room(alloc, blocks)?;
    for block in blocks {
        let (next, more) = play(rt, alloc, kiwi, block, passes, crew.gate)?;
        passes = next;
        answers = joined(answers, more)?;
    }
    Ok((passes, answers))
}

/// Makes the calls of an input's items on an empty map of the crew's rows, by its workers beside
/// each other, block by block. Gives the first worker's pass, which has seen all events of the run,
/// and the answers in line order.
///
/// There are fewer than 2^32 items, each one that a line may be. The gate is told of each line. The
/// only error is the want of memory.
pub fn run_on_map<R: Threads + Wait + Sync, G: Gate + Sync>(
    rt: &R,
    alloc: Global,
    crew: &Crew<'_, G>,
    items: &[Item],
) -> Result<(Pass, Vec<Answer>), Memory>
    requires few { length items.now < 2 ^ 32 }
    requires items { AllByRecursion IsItem items.now }
    ensures { IfOk result (λ both. IsRun (opening crew.now.workers crew.now.rows)
        items.now both.1.items both.0) }
{
    let (kiwi, passes) = Kiwi::open(alloc, crew.rows, crew.workers)?;
    let blocks = deal(alloc, items, crew.workers)?;
    let (passes, answers) = play_all(rt, alloc, crew, &kiwi, blocks.as_slice(), passes)?;
    let Some(front) = passes.into_iter().next() else {
        unreachable!()
    };
    Ok((front, answers))
}
