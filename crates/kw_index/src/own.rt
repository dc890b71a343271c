//! A caller's own entries, from which it guesses.
//!
//! A turn at the slot writes the slot's word twice, so that threads which guess at once wait for
//! each other's writes. A caller with entries of its own guesses from these, and touches nothing
//! that others write. Others may have published since: then the row that is guessed may be in use
//! no more, which whoever knows the rows sees at the row, and asks for a guess anew: the own
//! entries are brought up to the last change, and guessed from. So they are after each publication
//! of the caller's own.
ghost use Rattle.std.specs.Prelude.{ℕ, ◌≡◌, ◌≢◌, ◌<◌, [], ◌∷◌, ◌++◌, IfOk, IfSome, IsTrue, None, Some, drop, false, length};
ghost use Rattle.kw_index.specs.Entries.{IsOf, IsGuess};

use crate::change::{Change, MOST_UNTOLD};
use crate::entries::Entries;
use crate::index::Index;
use crate::log::{CHANGES_BEFORE_RENEWAL, Shown};
use arrayvec::ArrayVec;
use kw_model::memory::Memory;
use std::alloc::Global;

/// Entries that a caller guesses from, what it has to publish, and spare ones for a base that it
/// may have to renew.
#[derive(Drop)]
pub struct OwnEntries {
    entries: Entries,
    // The number of the last change that they have. None where they were not brought up yet.
    seen: Option<u32>,
    // What is to be published and could not be yet, the first change first.
    untold: ArrayVec<Change, MOST_UNTOLD>,
    spare: Entries,
}

impl OwnEntries {
    /// No entries, with room for those of a map of this many rows. The only error is the want of
    /// memory.
    pub fn new(alloc: Global, rows: u32) -> Result<OwnEntries, Memory>
        ensures { IfOk result (λ made. made.entries ≡ record { rows = rows; list = [] }) }
    {
        let entries = Entries::new(alloc, rows)?;
        let spare = Entries::new(alloc, rows)?;
        Ok(OwnEntries {
            entries,
            seen: None,
            untold: ArrayVec::new(),
            spare,
        })
    }

    /// A row to begin at for the key by these entries, whatever was published since they were
    /// brought up: it may be in use no more.
    ///
    /// None exactly where each least key is above it, or the entries have room for another
    /// number of rows than the index. A row is below the number of rows. Takes no memory.
    pub fn guess(&self, index: &Index, key: u32) -> Option<u32>
        ensures shown { self.now.entries.rows ≡ index.now → IsOf index.now self.now.entries
            × IsGuess self.now.entries.list key result }
        ensures other_size { self.now.entries.rows ≢ index.now → result ≡ None }
        ensures in_range { IfSome result (λ row. row < index.now) }
    {
        // entries that are guessed from have to be lawful, as all are
        let _ = self.entries.list();
        if self.entries.rows() == index.rows() {
            self.entries.guess(key)
        } else {
            None
        }
    }

    /// The same once the entries were brought up to the last change that a turn shows: for a key
    /// whose row by the own entries is in use no more. Takes no memory.
    pub fn guess_anew(&mut self, index: &Index, key: u32) -> Option<u32>
        ensures followed { self.new.seen ≡ self.old.seen → self.new.entries ≡ self.old.entries }
        ensures shown { self.new.entries.rows ≡ index.now → IsGuess self.new.entries.list key result }
        ensures other_size { self.new.entries.rows ≢ index.now → result ≡ None }
        ensures in_range { IfSome result (λ row. row < index.now) }
    {
        self.follow(index);
        self.guess(index, key)
    }

    /// Publishes a change, makes it in the own entries with all others that were published before
    /// it, and tells whether it did: exactly where none waits any more.
    ///
    /// Changes wait in the order in which they came, and the first ones are published first. Where
    /// others keep the slot just then, the change is kept and published with the caller's next one;
    /// where `MOST_UNTOLD` wait already, it is dropped. Nothing is published where the index is of
    /// a map of another size: all stays as it was. Takes no memory.
    pub fn publish(&mut self, index: &Index, change: Change) -> bool
        ensures followed { self.new.seen ≡ self.old.seen → self.new.entries ≡ self.old.entries }
        ensures kept { self.old.entries.rows ≡ index.now → length self.old.untold.items < MOST_UNTOLD →
            (count : ℕ) × (self.new.untold.items
            ≡ drop count (self.old.untold.items ++ change ∷ [])) }
        ensures full { self.old.entries.rows ≡ index.now → length self.old.untold.items ≡ MOST_UNTOLD →
            (count : ℕ) × (self.new.untold.items ≡ drop count self.old.untold.items) }
        ensures told { IsTrue result → self.new.untold.items ≡ [] }
        ensures waits { self.old.entries.rows ≡ index.now → result ≡ false → self.new.untold.items ≢ [] }
        ensures other_size { self.old.entries.rows ≢ index.now → (result ≡ false) × (self.new ≡ self.old) }
    {
        if self.entries.rows() != index.rows() {
            return false;
        }
        if !self.untold.is_full() {
            self.untold.push(change);
        }
        index.add(&mut self.untold);
        if let Some(shown) = self.follow(index) {
            if shown.since_base >= CHANGES_BEFORE_RENEWAL {
                self.renew(index, shown.number);
            }
        }
        self.untold.is_empty()
    }

    // The own entries are brought up to the last change that a turn shows, where they are of a map
    // of the index's size.
    fn follow(&mut self, index: &Index) -> Option<Shown>
        ensures none { result ≡ None → self.new ≡ self.old }
        ensures some { IfSome result (λ shown. self.new.seen ≡ Some shown.number) }
        ensures followed { self.new.seen ≡ self.old.seen → self.new.entries ≡ self.old.entries }
        ensures rows { self.new.entries.rows ≡ self.old.entries.rows }
        ensures untold { self.new.untold ≡ self.old.untold }
    {
        if self.entries.rows() != index.rows() {
            return None;
        }
        let shown = index.bring_up(&mut self.entries, self.seen)?;
        self.seen = Some(shown.number);
        Some(shown)
    }

    // A copy of the own entries, which have the changes up to this number, becomes the base that is
    // published.
    fn renew(&mut self, index: &Index, number: u32)
        ensures entries { self.new.entries ≡ self.old.entries }
        ensures seen { self.new.seen ≡ self.old.seen }
        ensures untold { self.new.untold ≡ self.old.untold }
    {
        if self.spare.rows() == index.rows() && self.entries.rows() == index.rows() {
            self.spare.copy_from(&self.entries);
            index.renew(&mut self.spare, number);
        }
    }
}
