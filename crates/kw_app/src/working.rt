//! One worker, and whoever is told of its lines.
//!
//! A worker answers its lines one after the other, with one pass. The gate is told of each line
//! before and after; it has no answers, so it changes nothing of what a worker does.
ghost use Rattle.std.specs.Prelude.{All, IfOk};
ghost use Rattle.kw_table.specs.Passes.{view};
ghost use Rattle.kw_follow.specs.Following.{GoesTo};
ghost use Rattle.kw_map.specs.Kiwi.{IsIdle};
ghost use Rattle.kw_work.specs.Dealing.{IsLine, part};
ghost use Rattle.kw_app.specs.Working.{Works};

use kw_ask::asking::ask;
use kw_line::answer::Answer;
use kw_map::Pass;
use kw_map::kiwi::Kiwi;
use kw_model::memory::Memory;
use kw_work::block::Block;
use kw_work::share::share;
use std::alloc::Global;
use std::sync::Wait;

/// Told of each line by its worker, with the numbers of both. It answers nothing and has no
/// meaning; a test may hold a worker up by it.
pub trait Gate {
    /// The worker is about to begin the line.
    fn before(&self, worker: u32, line: u32);

    /// The worker has answered the line.
    fn after(&self, worker: u32, line: u32);

    /// Whether it may hold a worker up until another one has got on. Then workers that have lines
    /// of a block are beside each other, however few the lines are.
    fn holds_up(&self) -> bool {
        true
    }
}

/// A gate that does nothing.
#[derive(Clone, Copy, Debug, PartialEq, Eq)]
pub struct NoGate;

impl Gate for NoGate {
    fn before(&self, _worker: u32, _line: u32) {}

    fn after(&self, _worker: u32, _line: u32) {}

    fn holds_up(&self) -> bool {
        false
    }
}

/// Makes the calls of the block's lines that are dealt to the pass, in order, and gives their
/// answers.
///
/// The worker is the number of the pass, which is one of this map and idle, as it is afterwards.
/// The lines are picked from the block one by one, so that none are copied. The only error is the
/// want of memory; which calls the pass has made is not said then.
pub fn work<R: Wait, G: Gate>(
    rt: &R,
    alloc: Global,
    kiwi: &Kiwi,
    pass: &mut Pass,
    block: &Block<'_>,
    gate: &G,
) -> Result<Vec<Answer>, Memory>
    requires idle { IsIdle kiwi.now pass.old }
    requires lines { All IsLine block.now.lines }
    ensures idle { IsIdle kiwi.now pass.new }
    ensures goes { GoesTo kiwi.now pass.old pass.new }
    ensures works { IfOk result (λ answers. Works pass.old pass.new
        (part block.now.workers (view pass.old).number block.now.lines) answers.items) }
{
    let worker = pass.number();
    let workers = block.workers();
    // A pass without lines, as most have in a small block, takes no memory.
    let mut answers = Vec::with_capacity(alloc, share(block, worker))?;
    for at in 0..block.len() {
        let line = block.line(at);
        if line.worker(workers) == worker {
            gate.before(worker, line.number);
            let answer = ask(rt, alloc, kiwi, pass, line.call, line.form)?;
            answers.push(answer)?;
            gate.after(worker, line.number);
        }
    }
    Ok(answers)
}
