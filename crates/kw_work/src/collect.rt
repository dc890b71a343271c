//! Putting the workers' answers back into line order.
//!
//! Each worker answers its lines in their order, whenever it comes to them. Going along the lines
//! of the block, with a place in the answers of each worker, finds each line's answer in one look,
//! so the time is linear in the lines. The answers of a single worker stand in line order as they
//! are.
ghost use Rattle.std.specs.Prelude.{◌≡◌, ◌<◌, [], length, IfOk, vec_len, slice_index_or};
ghost use Rattle.kw_work.specs.Collecting.{answers_of, no_answer, merge, AnswersEach, SameLengths, SameElse};

use crate::block::Block;
use kw_line::answer::Answer;
use kw_model::memory::Memory;
use std::alloc::Global;
use std::mem;

/// The answers of a block's lines, in line order. Part w has the answers of worker w to just its
/// lines, in their order.
pub fn collect(
    alloc: Global,
    block: &Block<'_>,
    parts: Vec<Vec<Answer>>,
) -> Result<Vec<Answer>, Memory>
    requires len { vec_len parts ≡ block.now.workers }
    requires each { AnswersEach block.now.workers block.now.lines parts.items }
    ensures { IfOk result (λ answers. answers.items
        ≡ merge block.now.workers (answers_of parts.items) no_answer [] block.now.lines) }
{
    let mut parts = parts;
    if block.workers() == 1 {
        if let Some(answers) = parts.pop() {
            return Ok(answers);
        }
    }
    merged(alloc, block, parts)
}

/// The answers of several workers, in line order.
fn merged(alloc: Global, block: &Block<'_>, parts: Vec<Vec<Answer>>) -> Result<Vec<Answer>, Memory>
    requires len { vec_len parts ≡ block.now.workers }
    requires each { AnswersEach block.now.workers block.now.lines parts.items }
    ensures { IfOk result (λ answers. answers.items
        ≡ merge block.now.workers (answers_of parts.items) no_answer [] block.now.lines) }
{
    let mut parts = parts;
    let workers = block.workers();
    let mut next = vec![in alloc; 0usize; workers as usize]?;
    let mut answers = Vec::with_capacity(alloc, block.len())?;
    for at in 0..block.len() {
        let worker = block.line(at).worker(workers) as usize;
        let answer = take_answer(&mut parts, worker, next[worker]);
        answers.push(answer)?;
        next[worker] += 1;
    }
    Ok(answers)
}

/// Takes the answer at a place of a worker's answers, and leaves all others as they were.
fn take_answer(parts: &mut Vec<Vec<Answer>>, worker: usize, place: usize) -> Answer
    requires worker { worker < vec_len parts.old }
    requires place { place < length (answers_of parts.old.items worker) }
    ensures answer { result ≡ slice_index_or (answers_of parts.old.items worker) place no_answer }
    ensures len { vec_len parts.new ≡ vec_len parts.old }
    ensures lengths { SameLengths parts.old.items parts.new.items }
    ensures others { SameElse worker place parts.old.items parts.new.items }
{
    mem::replace(&mut parts[worker][place], Answer::Nothing)
}
