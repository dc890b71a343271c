//! How much of a block is one worker's.
ghost use Rattle.std.specs.Prelude.{◌≡◌, length};
ghost use Rattle.kw_work.specs.Dealing.{part};

use crate::block::Block;

/// How many lines of the block are dealt to this worker, so that it takes room for just as many
/// answers. Takes no memory.
pub fn share(block: &Block<'_>, worker: u32) -> usize
    ensures { result ≡ length (part block.now.workers worker block.now.lines) }
{
    let workers = block.workers();
    let mut share = 0;
    for at in 0..block.len() {
        let line = block.line(at);
        if line.worker(workers) == worker {
            share += 1;
        }
    }
    share
}
