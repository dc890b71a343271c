//! What is published: entries as they once were, and the changes that were made since.
//!
//! A copy of all entries costs as many steps as there are rows, and where several threads publish
//! at once each would copy what the others wrote. So whoever publishes writes its change alone, and
//! whoever guesses does so from entries of its own, in which it makes the changes that it has not
//! seen, in the order of their numbers. The last `CHANGES_KEPT` changes are kept, each in the place
//! of the one with as many numbers less. Who has seen none, or lags behind further than that,
//! begins with the log's base: entries that have all changes up to a number of their own. The
//! base is renewed in time, so that the changes behind it are always kept.
//!
//! `index` has the slot in which the log stands.
ghost use Rattle.std.specs.Prelude.{◌≡◌, ◌≤◌, nat_lt, MatchBool, IfOk, Some};
ghost use Rattle.kw_index.specs.declared.log.TheConstants.{CHANGES_KEPT};
ghost use Rattle.kw_index.specs.Logs.{IsFirst, IsKept, after, behind, place, with_added, with_base, brought_up};

use crate::change::Change;
use crate::entries::{Entries, IndexEntry};
use kw_model::memory::Memory;
use std::alloc::Global;
use std::marker::Model;
use std::mem;

/// How many changes a log keeps: those that were made last.
pub const CHANGES_KEPT: u32 = 128;

/// After how many changes the base should be renewed, so that those behind it are kept.
pub const CHANGES_BEFORE_RENEWAL: u32 = 64;

// The first row of a map, whose range begins with the least key.
const FIRST: IndexEntry = IndexEntry { least: 0, row: 0 };

/// What a log shows: the number of the last change, and how many changes were made since the
/// base.
#[derive(Clone, Copy, Debug, PartialEq, Eq)]
pub struct Shown {
    /// The number of the last change.
    pub number: u32,
    /// How many changes were made since the base.
    pub since_base: u32,
}

/// Entries, and the changes that were made since, numbered from 1; 0 comes after `u32::MAX`.
///
/// Seen as the base, the number of the last change that it has, the places of the changes that are
/// kept, and the number of the last change.
#[derive(Drop)]
pub struct Log {
    base: Entries,
    base_number: u32,
    // The change with a number stands at that number modulo `CHANGES_KEPT`.
    changes: Vec<Change>,
    number: u32,
}

impl Model for Log {
    ghost use Rattle.kw_index.specs.declared.log.TheConstants.{CHANGES_KEPT};
    ghost use Rattle.kw_index.specs.Logs.{Account, IsKept};

    ghost Value = { Account };

    ghost view = { λ l. record { base = l.base; base_number = l.base_number; changes = l.changes.items; number = l.number } };

    ghost invariant = { λ l. IsKept l.changes.items };
}

impl Log {
    /// A log of no change, whose base has the one entry of row 0 from the least key on, of a map
    /// of this many rows. The only error is the want of memory.
    pub fn new(alloc: Global, rows: u32) -> Result<Log, Memory>
        requires { 1 ≤ rows }
        ensures { IfOk result (IsFirst rows) }
    {
        let mut base = Entries::new(alloc, rows)?;
        base.insert(FIRST);
        let changes = no_changes(alloc)?;
        Ok(Log {
            base,
            base_number: 0,
            changes,
            number: 0,
        })
    }

    /// The number of the last change. Takes no memory.
    pub fn number(&self) -> u32
        ensures { result ≡ self.now.number }
    {
        self.number
    }

    /// How many changes were made since the base. Takes no memory.
    pub fn since_base(&self) -> u32
        ensures { result ≡ behind self.now self.now.base_number }
    {
        self.number.wrapping_sub(self.base_number)
    }

    /// The number of the last change, and how many were made since the base. Takes no memory.
    pub fn shown(&self) -> Shown
        ensures number { result.number ≡ self.now.number }
        ensures since_base { result.since_base ≡ behind self.now self.now.base_number }
    {
        Shown {
            number: self.number(),
            since_base: self.since_base(),
        }
    }

    /// Whether there is room for a change more: fewer than `CHANGES_KEPT` were made since the base.
    /// Takes no memory.
    pub fn has_room(&self) -> bool
        ensures { result ≡ nat_lt (behind self.now self.now.base_number) CHANGES_KEPT }
    {
        self.since_base() < CHANGES_KEPT
    }

    /// Adds a change, which gets the next number, and tells whether it did: not where there is no
    /// room. Takes no memory.
    pub fn add(&mut self, change: Change) -> bool
        ensures added { MatchBool result (self.new ≡ with_added change self.old) (self.new ≡ self.old) }
        ensures room { result ≡ nat_lt (behind self.old self.old.base_number) CHANGES_KEPT }
    {
        if !self.has_room() {
            return false;
        }
        self.number = self.number.wrapping_add(1);
        self.changes[place(self.number)] = change;
        true
    }

    /// Brings entries that have the changes up to a number, or none, up to the last change.
    ///
    /// Where the changes behind that number are kept they are made, and else those behind the
    /// base, in a copy of it; where there is none, nothing changes. The entries have room for as
    /// many rows as the base, before and after. Takes no memory.
    pub fn bring_up(&self, entries: &mut Entries, seen: Option<u32>)
        requires { entries.old.rows ≡ self.now.base.rows }
        ensures brought { entries.new ≡ brought_up self.now seen entries.old }
        ensures same { seen ≡ Some self.now.number → entries.new ≡ entries.old }
        ensures rows { entries.new.rows ≡ entries.old.rows }
    {
        match seen {
            Some(seen) if self.number.wrapping_sub(seen) <= CHANGES_KEPT => {
                self.make_from(entries, seen);
            }
            _ => {
                entries.copy_from(&self.base);
                self.make_from(entries, self.base_number);
            }
        }
    }

    // Makes the changes behind this number, in the order of their numbers.
    fn make_from(&self, entries: &mut Entries, seen: u32)
        ensures made { entries.new ≡ after self.now seen (behind self.now seen) entries.old }
        ensures rows { entries.new.rows ≡ entries.old.rows }
    {
        for count in 0..self.number.wrapping_sub(seen) {
            let number = seen.wrapping_add(count + 1);
            entries.apply(&self.changes[place(number)]);
        }
    }

    /// Exchanges the base for these entries, which have the changes up to this number, where that
    /// lies between the base's and the last. Whether it did. Takes no memory.
    pub fn renew(&mut self, base: &mut Entries, number: u32) -> bool
        requires { base.old.rows ≡ self.old.base.rows }
        ensures exchanged { MatchBool result ((self.new ≡ with_base base.old number self.old) × (base.new ≡ self.old.base))
            ((self.new ≡ self.old) × (base.new ≡ base.old)) }
        ensures newer { result ≡ nat_lt (behind self.old number) (behind self.old self.old.base_number) }
        ensures rows { (self.new.base.rows ≡ self.old.base.rows) × (base.new.rows ≡ base.old.rows) }
    {
        let is_newer = self.number.wrapping_sub(number) < self.since_base();
        if is_newer {
            mem::swap(&mut self.base, base);
            self.base_number = number;
        }
        is_newer
    }
}

// Where the change of a number stands.
fn place(number: u32) -> usize
    ensures { result ≡ place number }
{
    (number % CHANGES_KEPT) as usize
}

// As many changes of nothing as are kept.
fn no_changes(alloc: Global) -> Result<Vec<Change>, Memory>
    ensures { IfOk result (λ changes. IsKept changes.items) }
{
    let mut changes = Vec::with_capacity(alloc, CHANGES_KEPT as usize)?;
    for _count in 0..CHANGES_KEPT {
        changes.push(Change::without(0, None))?;
    }
    Ok(changes)
}
