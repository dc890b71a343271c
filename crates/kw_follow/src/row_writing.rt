//! A new row, written from its first word to its last.
//!
//! A seat makes some three hundred events for a new row: they store its count, its least key,
//! the link after it and the first link of its list, its entries, and then four words for each cell
//! that it has and one for each other place. Nobody else reads the row before it is linked, and of
//! what the seat knows nothing changes in between but which of these words is the next one. So the
//! row and its cells are looked up once, and the seat's local stays as it was until all is written:
//! `at_entry` and `at_cell` say which local the pass follows meanwhile.
ghost use Rattle.std.specs.Prelude.{◌≡◌, ◌<◌, ◌≤◌, IsTrue, length, slice_get, All, Some};
ghost use Rattle.kw_cells.specs.Kept.{AreRising};
ghost use Rattle.kw_words.specs.declared.sizes.TheConstants.{CELLS};
ghost use Rattle.kw_world.specs.Sane.{IsCopy, IsLocal};
ghost use Rattle.kw_world.specs.Sizes.{product};
ghost use Rattle.kw_words.specs.Plain.{cell_link_word};
ghost use Rattle.kw_world.specs.WriteTransitions.{infant_cells, listed_after};
ghost use Rattle.kw_follow.specs.BuildsOn.{StandAlone, at_cell, at_entry, past_row, writing};
ghost use Rattle.kw_follow.specs.Following.{Follows};
ghost use Rattle.kw_follow.specs.Reaching.{Advances};

use kw_cells::cell::Cell;
use kw_step_rebal::infant::{infant, infant_cells};
use kw_step_rebal::infant_words::{
    count_word, first_word, least_word, next_word, rising_after_word,
};
use kw_step_rebal::resume_write::to_write_cell;
use kw_table::{Pass, Shared, store_infant};
use kw_words::layout::Name;
use kw_words::pend::Pend;
use kw_words::plain::{pack_cell_link, pack_key, pack_value, pack_version};
use kw_words::sizes::{CELL_COUNT, SEAT_COUNT};
use kw_world::activity::Activity;
use kw_world::activity::rebalance::Rebalance;
use kw_world::activity::rebalance::write::Write;
use kw_world::event::Choice;
use kw_world::local::Local;

/// Writes the new row at hand, each word of it but its state, which says that it is the seat's.
/// After it comes the next new row, or the walk to the row before the full one. Takes no memory.
pub fn write_row(shared: &Shared, pass: &mut Pass, local: &mut Local)
    requires follows { Follows shared.now pass.old local.old }
    requires activity { local.old.activity ≡ Activity.Rebalance (Rebalance.Write Write.Count) }
    ensures on { Advances shared.now pass.old pass.new local.new }
    ensures written { local.new ≡ past_row local.old }
{
    write_head(shared, pass, local);
    write_entries(shared, pass, local);
    write_cells(shared, pass, local);
    write_places_behind(shared, pass, local);
    to_write_cell(local, CELL_COUNT);
}

// Stores its count, its least key, the link after it and the first link of its list.
#[inline(always)]
fn write_head(shared: &Shared, pass: &mut Pass, local: &Local)
    requires ranges { IsLocal product local.now }
    requires follows { Follows shared.now pass.old (writing Write.Count local.now) }
    ensures { Advances shared.now pass.old pass.new (at_entry 0 local.now) }
{
    let row = infant(local);
    let count = count_word(local);
    let least = least_word(local);
    let next = next_word(local);
    let first = first_word(local);
    store_infant(shared, pass, Name::Count(row), count);
    store_infant(shared, pass, Name::Least(row), least);
    store_infant(shared, pass, Name::Next(row), next);
    store_infant(shared, pass, Name::First(row), first);
}

// Stores that the entry of each seat is idle.
#[inline(always)]
fn write_entries(shared: &Shared, pass: &mut Pass, local: &Local)
    requires { Follows shared.now pass.old (at_entry 0 local.now) }
    ensures { Advances shared.now pass.old pass.new (at_cell 0 local.now) }
{
    let row = infant(local);
    let idle = Pend::Idle.pack();
    for seat in 0..SEAT_COUNT {
        store_infant(shared, pass, Name::Pend(row, seat), idle);
    }
}

// Stores the key, the value and the version of each cell, and the link after it.
#[inline(always)]
fn write_cells(shared: &Shared, pass: &mut Pass, local: &Local)
    requires ranges { IsLocal product local.now }
    requires rising { AreRising local.now.rebalance.kept }
    requires follows { Follows shared.now pass.old (at_cell 0 local.now) }
    ensures { Advances shared.now pass.old pass.new
        (at_cell (length (infant_cells local.now)) local.now) }
{
    let row = infant(local);
    let cells = infant_cells(local);
    let mut place: u32 = 0;
    while (place as usize) < cells.len() {
        let cell = cell_at(cells, place);
        let key = pack_key(cell.key);
        let value = pack_value(cell.value);
        let version = pack_version(Some(cell.version));
        let behind = word_behind(local, cells, place);
        store_infant(shared, pass, Name::Key(row, place), key);
        store_infant(shared, pass, Name::Value(row, place), value);
        store_infant(shared, pass, Name::Version(row, place), version);
        store_infant(shared, pass, Name::After(row, place), behind);
        place += 1;
    }
}

// The word of the link after the cell at a place of the row. Most keys have one cell, and where
// that is so of the key here and of the next one, the link leads to the next place.
#[inline(always)]
fn word_behind(local: &Local, cells: &[Cell], place: u32) -> u64
    requires ranges { IsLocal product local.now }
    requires rising { AreRising local.now.rebalance.kept }
    requires cells { cells.now ≡ infant_cells local.now }
    requires few { length cells.now ≤ CELLS }
    requires within { place < length cells.now }
    ensures { result ≡ cell_link_word (listed_after (infant_cells local.now) place) }
{
    if stand_alone(cells, place as usize) {
        pack_cell_link(Some(place + 1))
    } else {
        rising_after_word(local, place)
    }
}

// Whether there is a cell behind the one at this place, and each of both is the only one of its
// key.
#[inline(always)]
fn stand_alone(cells: &[Cell], place: usize) -> bool
    requires { place < length cells.now }
    ensures { IsTrue result → StandAlone cells.now place }
{
    let key = cells[place].key;
    if place > 0 && cells[place - 1].key == key || place + 1 >= cells.len() {
        return false;
    }
    let next = cells[place + 1].key;
    next != key && (place + 2 >= cells.len() || cells[place + 2].key != next)
}

// The cell at a place of the row, which has one there.
#[inline(always)]
fn cell_at(cells: &[Cell], place: u32) -> Cell
    requires within { place < length cells.now }
    requires in_range { All IsCopy cells.now }
    ensures cell { slice_get cells.now place ≡ Some result }
    ensures in_range { IsCopy result }
{
    cells[place as usize]
}

// Stores at each place behind the cells that there is none. The link after it may be one of an
// earlier use of the row: no walk follows it before a put has stored its own there.
#[inline(always)]
fn write_places_behind(shared: &Shared, pass: &mut Pass, local: &Local)
    requires ranges { IsLocal product local.now }
    requires follows { Follows shared.now pass.old
        (at_cell (length (infant_cells local.now)) local.now) }
    ensures { Advances shared.now pass.old pass.new (at_cell CELLS local.now) }
{
    let row = infant(local);
    let cells = infant_cells(local);
    let built = cells.len() as u32;
    let none = pack_version(None);
    for place in built..CELL_COUNT {
        store_infant(shared, pass, Name::Version(row, place), none);
    }
}
