//! Cutting an input into blocks.
//!
//! The one place where a wait ends a block. A block borrows its items, so nothing of the input is
//! copied.
ghost use Rattle.std.specs.Prelude.{◌≡◌, ◌<◌, ◌^◌, length, map, All, IfOk};
ghost use Rattle.std.specs.List.{AllByRecursion};
ghost use Rattle.kw_line.specs.Line.{IsItem};
ghost use Rattle.kw_work.specs.Dealing.{blocks_of, IsLine};

use crate::block::Block;
use kw_line::item::Item;
use kw_model::memory::Memory;
use std::alloc::Global;

/// The blocks of these items, each to be dealt to so many workers. A wait ends a block, so there is
/// one block more than there are waits, and a block may have no lines.
pub fn deal<'a>(alloc: Global, items: &'a [Item], workers: u32) -> Result<Vec<Block<'a>>, Memory>
    requires workers { 0 < workers }
    requires few { length items.now < 2 ^ 32 }
    ensures blocks { IfOk result (λ blocks. map (λ b. b.lines) blocks.items
        ≡ blocks_of 1 items.now) }
    ensures workers { IfOk result (λ blocks. All (λ b. b.workers ≡ workers) blocks.items) }
    ensures lines { AllByRecursion IsItem items.now → IfOk result
        (λ blocks. All (λ b. All IsLine b.lines) blocks.items) }
{
    let mut blocks = Vec::new(alloc);
    // where the block at hand begins
    let mut start = 0;
    for (at, item) in items.iter().enumerate() {
        if let Item::Wait = *item {
            blocks.push(Block::new(&items[start..at], start as u32, workers))?;
            start = at + 1;
        }
    }
    blocks.push(Block::new(&items[start..], start as u32, workers))?;
    Ok(blocks)
}
