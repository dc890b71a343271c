//! A block: the lines between two waits, and the number of workers that they are dealt to.
//!
//! A block borrows its items from the input and copies none. Contracts see it as its list of lines
//! and its number of workers, the record `Dealt`, and never its fields. Only `deal` makes one. Each
//! item of a block makes a call, so a block has a line for each item and finds it in one look. The
//! one place where lines get their numbers is [`Block::line`].
ghost use Rattle.std.specs.Prelude.{◌≡◌, ◌<◌, ◌+◌, ◌^◌, ◌↔◌, [], Some, length, slice_get, All, IsTrue};
ghost use Rattle.kw_work.specs.Dealing.{lines_of, IsCall};

use crate::line::Line;
use kw_line::item::Item;
use std::marker::Model;

/// Lines that may be answered beside each other, and how many workers answer them.
#[derive(Debug, Drop)]
pub struct Block<'a> {
    items: &'a [Item],
    // how many items of the input stand before them
    before: u32,
    workers: u32,
}

impl<'a> Model for Block<'a> {
    ghost use Rattle.std.specs.Prelude.{◌+◌};
    ghost use Rattle.kw_work.specs.Dealing.{Dealt, IsBlock, lines_of};

    ghost Value = { Dealt };

    ghost view = { λ block. record {
      lines = lines_of (block.before + 1)
          block.items.now;
      workers = block.workers;
    } };

    ghost invariant = { λ block. IsBlock block.items.now block.before block.workers };
}

impl<'a> Block<'a> {
    /// A block of these items, which all make calls; so many items stand before them in the input.
    /// Takes no memory.
    pub(crate) fn new(items: &'a [Item], before: u32, workers: u32) -> Block<'a>
        requires workers { 0 < workers }
        requires calls { All IsCall items.now }
        requires few { before + length items.now < 2 ^ 32 }
        ensures lines { result.lines ≡ lines_of (before + 1) items.now }
        ensures workers { result.workers ≡ workers }
    {
        Block {
            items,
            before,
            workers,
        }
    }

    /// How many lines there are.
    pub fn len(&self) -> usize
        ensures { result ≡ length self.now.lines }
    {
        self.items.len()
    }

    /// Whether there is no line.
    pub fn is_empty(&self) -> bool
        ensures { IsTrue result ↔ (self.now.lines ≡ []) }
    {
        self.items.is_empty()
    }

    /// The line at a place of the block. Places are numbered from 0, in line order.
    pub fn line(&self, at: usize) -> Line
        requires { at < length self.now.lines }
        ensures { slice_get self.now.lines at ≡ Some result }
    {
        // there are as many lines as items
        prove!(at < self.items.len());
        let number = self.before + at as u32 + 1;
        let item = self.items[at];
        let Item::Call(call, form) = item else {
            unreachable!()
        };
        Line { number, call, form }
    }

    /// How many workers the lines are dealt to. They are numbered from 0.
    pub fn workers(&self) -> u32
        ensures workers { result ≡ self.now.workers }
        ensures some { 0 < result }
    {
        self.workers
    }
}
