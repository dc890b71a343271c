//! One block, answered by all workers beside each other.
//!
//! Each pass answers the lines of the block that are dealt to it, those that have enough of them in
//! threads beside each other. When all have ended, the passes meet: all have then seen one list of
//! events. Only after that are the answers collected, so a block's calls have all ended before
//! anything of a later one.
ghost use Rattle.std.specs.Prelude.{◌≡◌, All, IfOk, Ok, vec_len};
ghost use Rattle.kw_map.specs.Meetings.{AtEach, MeetsAt, front_seen};
ghost use Rattle.kw_table.specs.Passes.{IsPassOf, opening_of};
ghost use Rattle.kw_follow.specs.Following.{GoesTo};
ghost use Rattle.kw_work.specs.Dealing.{IsLine};
ghost use Rattle.kw_app.specs.Rounds.{AreTogether, Grew};

use crate::sharing::finish_all;
use crate::working::Gate;
use kw_line::answer::Answer;
use kw_map::Pass;
use kw_map::kiwi::Kiwi;
use kw_model::memory::Memory;
use kw_work::block::Block;
use kw_work::collect::collect;
use std::alloc::Global;
use std::sync::Wait;
use std::thread::Threads;

/// What one worker hands back.
#[derive(Drop)]
pub(crate) struct Done {
    pub(crate) pass: Pass,
    pub(crate) answers: Result<Vec<Answer>, Memory>,
}

/// The passes and the answers, where no worker wanted memory.
fn parted(alloc: Global, dones: Vec<Done>) -> Result<(Vec<Pass>, Vec<Vec<Answer>>), Memory>
    ensures len { IfOk result (λ both. (vec_len both.0 ≡ vec_len dones)
        × (vec_len both.1 ≡ vec_len dones)) }
    ensures passes { IfOk result (λ both. AtEach (λ done pass. done.pass
        ≡ pass) dones.items both.0.items) }
    ensures parts { IfOk result (λ both. AtEach (λ done part. done.answers
        ≡ Ok part) dones.items both.1.items) }
{
    let mut passes = Vec::with_capacity(alloc, dones.len())?;
    let mut parts = Vec::with_capacity(alloc, dones.len())?;
    for done in dones {
        let Done { pass, answers } = done;
        let part = answers?;
        passes.push(pass)?;
        parts.push(part)?;
    }
    Ok((passes, parts))
}

/// The passes, which have then all seen one list of events.
fn met(kiwi: &Kiwi, passes: Vec<Pass>) -> Vec<Pass>
    requires { All (IsPassOf kiwi.now) passes.items }
    ensures len { vec_len result ≡ vec_len passes }
    ensures each { AtEach (MeetsAt kiwi.now (front_seen result.items)) passes.items
        result.items }
{
    let mut passes = passes;
    kiwi.meet_all(passes.as_mut_slice());
    passes
}

/// Answers one block: the passes, which then have all seen one list of events, and the answers in
/// line order. A block of few lines, or one whose lines are all one worker's, starts no thread.
///
/// There is a pass for each worker of the block, numbered from 0, and all are idle and have seen
/// one list, as they are and have afterwards. The only error is the want of memory.
pub(crate) fn play<R: Threads + Wait + Sync, G: Gate + Sync>(
    rt: &R,
    alloc: Global,
    kiwi: &Kiwi,
    block: &Block<'_>,
    passes: Vec<Pass>,
    gate: &G,
) -> Result<(Vec<Pass>, Vec<Answer>), Memory>
    requires together { AreTogether kiwi.now block.now.workers
        (front_seen passes.items) passes.items }
    requires lines { All IsLine block.now.lines }
    ensures together { IfOk result (λ both. AreTogether kiwi.now block.now.workers
        (front_seen both.0.items) both.0.items) }
    ensures grew { IfOk result (λ both. Grew (opening_of kiwi.now) block.now.workers
        block.now.lines (front_seen passes.items) (front_seen both.0.items) both.1.items) }
{
    if block.is_empty() {
        return Ok((passes, Vec::new(alloc)));
    }
    let dones = finish_all(rt, alloc, kiwi, block, passes, gate)?;
    let (passes, parts) = parted(alloc, dones)?;
    let passes = met(kiwi, passes);
    let answers = collect(alloc, block, parts)?;
    Ok((passes, answers))
}
