//! The words of a new row, each by itself.
//!
//! They follow from what the seat knows: its kept cells, cut at the starts, and the rows that it
//! took. Each function takes the new row at hand. Takes no memory.
ghost use Rattle.std.specs.Prelude.{◌≡◌, All, length, slice_get};
ghost use Rattle.kw_cells.specs.Cells.{value_in};
ghost use Rattle.kw_cells.specs.Kept.{AreRising};
ghost use Rattle.kw_words.specs.Count.{count_word};
ghost use Rattle.kw_words.specs.Link.{link_word};
ghost use Rattle.kw_words.specs.Plain.{IsCounted, IsValue, cell_link_word, key_word, least_word, value_word, version_word};
ghost use Rattle.kw_world.specs.Sane.{IsCopy, IsLocal};
ghost use Rattle.kw_world.specs.Sizes.{product};
ghost use Rattle.kw_world.specs.WriteTransitions.{infant_cells, infant_count, infant_least, infant_link, first_listed, listed_after, key_in, version_in};

use crate::infant::{
    first_listed, infant_cells, infant_count, infant_least, infant_next, listed_after,
};
use crate::infant_rising::listed_after_rising;
use crate::operation::link_to;
use kw_cells::cell::Cell;
use kw_words::plain::{pack_cell_link, pack_key, pack_least, pack_value, pack_version};
use kw_world::local::Local;

/// The word of its count: that of its cells.
#[inline(always)]
pub fn count_word(local: &Local) -> u64
    requires { IsLocal product local.now }
    ensures { result ≡ count_word (infant_count local.now) }
{
    infant_count(local).pack()
}

/// The word of its least key, with the number of its cells.
#[inline(always)]
pub fn least_word(local: &Local) -> u64
    requires { IsLocal product local.now }
    ensures { result ≡ least_word (infant_least local.now) (length (infant_cells local.now)) }
{
    let built = infant_cells(local).len() as u32;
    pack_least(infant_least(local), built)
}

/// The word of the link after it, which is not marked.
#[inline(always)]
pub fn next_word(local: &Local) -> u64
    requires { IsLocal product local.now }
    ensures { result ≡ link_word (infant_link local.now) }
{
    link_to(infant_next(local))
}

/// The word of the first link of its list.
#[inline(always)]
pub fn first_word(local: &Local) -> u64
    requires { IsLocal product local.now }
    ensures { result ≡ cell_link_word (first_listed (infant_cells local.now)) }
{
    pack_cell_link(first_listed(infant_cells(local)))
}

/// The word of a cell's key: that of key 0 where the row has no cell there.
#[inline(always)]
pub fn key_word(local: &Local, cell: u32) -> u64
    requires { IsLocal product local.now }
    ensures { result ≡ key_word (key_in (slice_get (infant_cells local.now) cell)) }
{
    pack_key(key_at(infant_cells(local), cell))
}

// The key of a cell, and 0 where there is none.
#[inline(always)]
fn key_at(cells: &[Cell], cell: u32) -> u32
    ensures { result ≡ key_in (slice_get cells.now cell) }
{
    match cells.get(cell as usize) {
        Some(kept) => kept.key,
        None => 0,
    }
}

/// The word of a cell's value: that of a tombstone where the row has no cell there.
#[inline(always)]
pub fn value_word(local: &Local, cell: u32) -> u64
    requires { IsLocal product local.now }
    ensures { result ≡ value_word (value_in (slice_get (infant_cells local.now) cell)) }
{
    pack_value(value_at(infant_cells(local), cell))
}

// The value of a cell, and a tombstone's where there is none.
#[inline(always)]
fn value_at(cells: &[Cell], cell: u32) -> Option<u64>
    requires { All IsCopy cells.now }
    ensures value { result ≡ value_in (slice_get cells.now cell) }
    ensures range { IsValue result }
{
    match cells.get(cell as usize) {
        Some(kept) => kept.value,
        None => None,
    }
}

/// The word of a cell's version: that of none where the row has no cell there.
#[inline(always)]
pub fn version_word(local: &Local, cell: u32) -> u64
    requires { IsLocal product local.now }
    ensures { result ≡ version_word (version_in (slice_get (infant_cells local.now) cell)) }
{
    pack_version(version_at(infant_cells(local), cell))
}

// The version of a cell, if there is one.
#[inline(always)]
fn version_at(cells: &[Cell], cell: u32) -> Option<u64>
    requires { All IsCopy cells.now }
    ensures version { result ≡ version_in (slice_get cells.now cell) }
    ensures range { IsCounted result }
{
    match cells.get(cell as usize) {
        Some(kept) => Some(kept.version),
        None => None,
    }
}

/// The word of the link after a cell: that to none where the row has no cell there.
#[inline(always)]
pub fn after_word(local: &Local, cell: u32) -> u64
    requires { IsLocal product local.now }
    ensures { result ≡ cell_link_word (listed_after (infant_cells local.now) cell) }
{
    pack_cell_link(listed_after(infant_cells(local), cell))
}

/// The same word where the kept cells rise, as they always do where a row is written: it is found
/// by looks at the cells of two keys.
#[inline(always)]
pub fn rising_after_word(local: &Local, cell: u32) -> u64
    requires ranges { IsLocal product local.now }
    requires rising { AreRising local.now.rebalance.kept }
    ensures { result ≡ cell_link_word (listed_after (infant_cells local.now) cell) }
{
    pack_cell_link(listed_after_rising(infant_cells(local), cell))
}
