//! The entries of an index, as one thread edits them.
//!
//! An entry names a row and the least key of its range. Entries are a list by strictly rising least
//! keys in which no row comes twice, so the row for a key is found by binary search. Their room is
//! taken when they are made: as the rows differ and are rows of the map, there are never more
//! entries than rows, and no edit takes memory. `index` publishes them.
//!
//! What an edit searches for by a key it finds by binary search. For a row it goes through the
//! entries, but only where the row is marked as one that may have an entry. So whoever replaces
//! rows places the new ones first: a replaced row whose least key the first of them takes has then
//! lost its entry and its mark, and a row that is newly taken has none.
ghost use Rattle.std.specs.Prelude.{MatchBool, IsTrue, ◌≡◌, ◌≢◌, ◌≤◌, ◌<◌, ◌==◌, nat_lt, true, false, [], length, position, IfOk, All, AllPairs};
ghost use Rattle.std.specs.List.Sorted.{IsPartitionPoint};
ghost use Rattle.kw_index.specs.Entries.{IsLawful, IsGuess, HasLeastAt, HasNotLeastAt, without, with_entry, with_own};

use kw_model::memory::Memory;
use std::alloc::Global;
use std::marker::Model;

/// A row of the map, and the least key of its range.
#[derive(Clone, Copy, Debug, Default, PartialEq, Eq)]
pub struct IndexEntry {
    /// The least key, any `u32`.
    pub least: u32,
    /// The row, below the number of rows of the map.
    pub row: u32,
}

/// Entries by strictly rising least keys, whose rows differ, with room for as many as the map has
/// rows.
///
/// Seen as that number of rows and the list of the entries.
#[derive(Drop)]
pub struct Entries {
    rows: u32,
    list: Vec<IndexEntry>,
    // For each row whether it may have an entry: one that has is marked, so that nothing is
    // searched for the others.
    marks: Vec<bool>,
}

impl Model for Entries {
    ghost use Rattle.kw_index.specs.Entries.{Listing, IsHeld};
    ghost use Rattle.std.specs.Prelude.{vec_capacity};

    ghost Value = { Listing };

    ghost view = { λ e. record { rows = e.rows; list = e.list.items } };

    ghost invariant = { λ e. IsHeld e.rows e.list.items (vec_capacity e.list) e.marks.items };
}

impl Entries {
    /// No entries, with room for those of a map of this many rows. The only error is the want of
    /// memory.
    pub fn new(alloc: Global, rows: u32) -> Result<Entries, Memory>
        ensures { IfOk result (λ made. made ≡ record { rows = rows; list = [] }) }
    {
        let list = Vec::with_capacity(alloc, rows as usize)?;
        let marks = vec![in alloc; false; rows as usize]?;
        Ok(Entries { rows, list, marks })
    }

    /// The number of rows of the map, which is how many entries there is room for. Takes no memory.
    pub fn rows(&self) -> u32
        ensures { result ≡ self.now.rows }
    {
        self.rows
    }

    /// The entries by rising least keys. Takes no memory.
    pub fn list(&self) -> &[IndexEntry]
        ensures list { result.now ≡ self.now.list }
        ensures lawful { IsLawful self.now.rows self.now.list }
    {
        &self.list
    }

    /// The row of the entry with the greatest least key that is at most the key. None where each
    /// least key is above the key.
    ///
    /// The row is below the number of rows. Takes no memory, and as many steps as the logarithm of
    /// the number of entries.
    pub fn guess(&self, key: u32) -> Option<u32>
        ensures { IsGuess self.now.list key result }
    {
        let at = self.list.partition_point(|entry| entry.least <= key);
        if at == 0 {
            return None;
        }
        Some(self.list[at - 1].row)
    }

    /// Drops the entry of a row, if there is one. Takes no memory, and no search where the row's
    /// entry is gone already.
    pub fn remove(&mut self, row: u32)
        ensures list { self.new ≡ record { rows = self.old.rows; list = without row self.old.list } }
        ensures absent { All (λ e. e.row ≢ row) self.new.list }
    {
        if self.is_absent(row) {
            return;
        }
        self.marks[row as usize] = false;
        if let Some(at) = index_of(&self.list, row) {
            self.list.remove(at);
        }
    }

    // Whether the marks tell that no entry has the row.
    fn is_absent(&self, row: u32) -> bool
        ensures absent { IsTrue result → All (λ e. e.row ≢ row) self.now.list }
        ensures in_range { result ≡ false → row < self.now.rows }
    {
        row >= self.rows || !self.marks[row as usize]
    }

    /// Puts an entry in its place, in place of the one with the same least key, if there is one.
    ///
    /// The entry's row is below the number of rows, and no entry has it. Takes no memory.
    pub fn insert(&mut self, entry: IndexEntry)
        requires in_range { entry.row < self.old.rows }
        requires new_row { All (λ e. e.row ≢ entry.row) self.old.list }
        ensures { self.new ≡ record { rows = self.old.rows; list = with_entry entry self.old.list } }
    {
        self.marks[entry.row as usize] = true;
        let at = count_below(&self.list, entry.least);
        if has_least_at(&self.list, at, entry.least) {
            let over = self.list[at].row;
            self.marks[over as usize] = false;
            self.list[at] = entry;
        } else if self.list.insert(at, entry).is_err() {
            unreachable!()
        }
    }

    /// Makes this the one entry of its row, in place of the row's own and of the one with the same
    /// least key, if there are such.
    ///
    /// Nothing changes where the row is none of the map. Takes no memory.
    pub fn place(&mut self, entry: IndexEntry)
        ensures { self.new ≡ record { rows = self.old.rows; list = with_own self.old.rows entry self.old.list } }
    {
        if entry.row >= self.rows {
            return;
        }
        self.remove(entry.row);
        self.insert(entry);
    }

    /// Makes these entries those of another of as many rows. Takes no memory.
    pub fn copy_from(&mut self, from: &Entries)
        requires { from.now.rows ≡ self.old.rows }
        ensures { self.new ≡ from.now }
    {
        self.marks.copy_from_slice(&from.marks);
        self.list.clear();
        if self.list.extend_from_slice(&from.list).is_err() {
            unreachable!()
        }
    }
}

// The place of the entry of a row, if there is one.
fn index_of(list: &[IndexEntry], row: u32) -> Option<usize>
    ensures { result ≡ position (λ e. e.row == row) list.now }
{
    list.iter().position(|entry| entry.row == row)
}

// How many entries have a lesser least key, which are the first ones.
fn count_below(list: &[IndexEntry], least: u32) -> usize
    requires { AllPairs (λ e f. e.least < f.least) list.now }
    ensures bound { result ≤ length list.now }
    ensures parted { IsPartitionPoint (λ e. nat_lt e.least least ≡ true) (λ e. nat_lt e.least least ≡ false)
        list.now result }
{
    list.partition_point(|entry| entry.least < least)
}

// Whether an entry stands at the place and has the least key.
fn has_least_at(list: &[IndexEntry], at: usize, least: u32) -> bool
    ensures { MatchBool result (HasLeastAt list.now at least) (HasNotLeastAt list.now at least) }
{
    at < list.len() && list[at].least == least
}
