//! Which passes of a block get a thread.
//!
//! A thread is worth its start only for some lines. So the passes are cut into groups that have
//! enough of them, each group gets a thread, and in it the passes stand as they stood before: put
//! together, the groups are the list of the passes again. Where there is one group, as in each
//! block of few lines, the passes are gone through where they are, and no thread is made. No reply
//! depends on how the groups are cut, so no clause says it; tests show that workers with lines run
//! beside each other.
ghost use Rattle.std.specs.Prelude.{◌≡◌, ◌++◌, All, IfOk};
ghost use Rattle.std.specs.List.{flat_map};
ghost use Rattle.kw_map.specs.Kiwi.{IsIdle};
ghost use Rattle.kw_work.specs.Dealing.{IsLine};
ghost use Rattle.kw_app.specs.Rounds.{AreDone, AreOfGroups};

use crate::rounds::Done;
use crate::working::{Gate, work};
use kw_beside::joined::joined;
use kw_map::Pass;
use kw_map::kiwi::Kiwi;
use kw_work::block::Block;
use std::alloc::{AllocError, Global};
use std::sync::Wait;
use std::thread;
use std::thread::Threads;

/// How many lines a group has at least before the next one is begun. To start a thread and to wait
/// for its end takes as long as some fifty lines do, so with much fewer than twice as many the
/// threads take longer than one thread for all.
const LEAST_LINES: usize = 128;

/// What all passes do: those that have enough lines of the block beside each other.
pub(crate) fn finish_all<R: Threads + Wait + Sync, G: Gate + Sync>(
    rt: &R,
    alloc: Global,
    kiwi: &Kiwi,
    block: &Block<'_>,
    passes: Vec<Pass>,
    gate: &G,
) -> Result<Vec<Done>, AllocError>
    requires idle { All (IsIdle kiwi.now) passes.items }
    requires lines { All IsLine block.now.lines }
    ensures { IfOk result (λ dones. AreDone kiwi.now block.now passes.items dones.items) }
{
    let least = least_lines(gate);
    if block.len() / 2 < least {
        return finish_in_turn(rt, alloc, kiwi, block, passes, gate);
    }
    let groups = grouped(alloc, block, passes, least)?;
    let parts = thread::map_vec(
        rt,
        groups,
        &|group: Vec<Pass>| -> Result<Vec<Done>, AllocError>
            requires { All (IsIdle kiwi.now) group.items × All IsLine block.now.lines }
            ensures { IfOk result (λ dones.
                AreDone kiwi.entry.now block.entry.now group.items dones.items) }
        { finish_in_turn(rt, alloc, kiwi, block, group, gate) },
    )?;
    ungrouped(alloc, parts)
}

/// What some passes do, one after the other.
fn finish_in_turn<R: Wait, G: Gate>(
    rt: &R,
    alloc: Global,
    kiwi: &Kiwi,
    block: &Block<'_>,
    passes: Vec<Pass>,
    gate: &G,
) -> Result<Vec<Done>, AllocError>
    requires idle { All (IsIdle kiwi.now) passes.items }
    requires lines { All IsLine block.now.lines }
    ensures { IfOk result (λ dones. AreDone kiwi.now block.now passes.items dones.items) }
{
    let mut dones = Vec::with_capacity(alloc, passes.len())?;
    for pass in passes {
        let mut pass = pass;
        let answers = work(rt, alloc, kiwi, &mut pass, block, gate);
        dones.push(Done { pass, answers })?;
    }
    Ok(dones)
}

/// How many lines are worth a thread. A gate that may hold a worker up has each worker that has
/// lines beside the others.
fn least_lines<G: Gate>(gate: &G) -> usize {
    if gate.holds_up() { 1 } else { LEAST_LINES }
}

/// How many lines of the block are dealt to the pass, counted no further than to `most`.
fn lines_up_to(block: &Block<'_>, pass: &Pass, most: usize) -> usize {
    let workers = block.workers();
    let mut lines = 0;
    for at in 0..block.len() {
        if lines >= most {
            return lines;
        }
        if block.line(at).worker(workers) == pass.number() {
            lines += 1;
        }
    }
    lines
}

/// The passes in groups, in their order. Each group but the last has `least` lines or more, and
/// would have fewer without its last pass that has lines.
fn grouped(
    alloc: Global,
    block: &Block<'_>,
    passes: Vec<Pass>,
    least: usize,
) -> Result<Vec<Vec<Pass>>, AllocError>
    ensures { IfOk result (λ groups. flat_map (λ group. group.items) groups.items
        ≡ passes.items) }
{
    let mut groups = Vec::new(alloc);
    let mut group = Vec::new(alloc);
    let mut filled: usize = 0;
    for pass in passes {
        let lines = lines_up_to(block, &pass, least);
        let is_due = filled >= least && lines > 0;
        group = begun(alloc, &mut groups, group, is_due)?;
        filled = if is_due {
            lines
        } else {
            filled.saturating_add(lines)
        };
        group.push(pass)?;
    }
    groups.push(group)?;
    Ok(groups)
}

/// The group that goes on: this one or, where a new one is due, one that is empty; then this one
/// stands behind the groups.
fn begun(
    alloc: Global,
    groups: &mut Vec<Vec<Pass>>,
    group: Vec<Pass>,
    is_due: bool,
) -> Result<Vec<Pass>, AllocError>
    ensures { IfOk result (λ next. flat_map (λ group. group.items) groups.new.items ++ next.items
        ≡ flat_map (λ group. group.items) groups.old.items ++ group.items) }
{
    if is_due {
        groups.push(group)?;
        return Ok(Vec::new(alloc));
    }
    Ok(group)
}

/// What the passes of all groups did, one group after the other.
fn ungrouped(
    alloc: Global,
    parts: Vec<Result<Vec<Done>, AllocError>>,
) -> Result<Vec<Done>, AllocError>
    ensures { IfOk result (λ dones. AreOfGroups parts.items dones.items) }
{
    let mut dones = Vec::new(alloc);
    for part in parts {
        let more = part?;
        dones = joined(dones, more)?;
    }
    Ok(dones)
}
