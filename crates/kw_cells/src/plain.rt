//! A map of one thread that keeps every entry it was given.
//!
//! The list of entries is the truth: a key has the value of its last entry, and a delete is an
//! entry without a value. Beside it stands a tree from each key to the place of its last entry, so
//! that a get and a scan need not walk the list. Contracts see the list alone; that the tree fits
//! it is the invariant of the type, which `put` keeps.
ghost use Rattle.std.specs.Prelude.{◌≡◌, ◌↔◌, ◌⊎◌, ◌++◌, ◌∷◌, [], IsNone, IfOk, OnOk, OnErr};
ghost use Rattle.kw_cells.specs.Pairs.{ShowsRange};
ghost use Rattle.kw_cells.specs.Plain.{last_of, shown_last};

use crate::plain_pairs::PlainPairs;
use kw_model::memory::Memory;
use std::alloc::Global;
use std::collections::BTreeMap;
use std::marker::Model;

/// A map of one thread, seen as the list of its entries of a key and an optional value, in the
/// order in which they were put.
#[derive(Drop)]
pub struct Plain {
    alloc: Global,
    entries: Vec<(u32, Option<u64>)>,
    newest: BTreeMap<u32, usize>,
}

impl Model for Plain {
    ghost use Rattle.kw_cells.specs.Plain.{Entries, IsIndex};

    ghost Value = { Entries };

    ghost view = { λ plain. plain.entries.items };

    ghost invariant = { λ plain. IsIndex plain.newest.entries plain.entries.items };
}

impl Plain {
    /// The list without entries. Takes no memory; later calls take theirs from this allocator.
    pub fn new(alloc: Global) -> Plain
        ensures { result ≡ [] }
    {
        Plain {
            alloc,
            entries: Vec::new(alloc),
            newest: BTreeMap::new(alloc),
        }
    }

    /// Appends an entry: the key's value, or None for a delete. Without memory the list stays as it
    /// was.
    pub fn put(&mut self, key: u32, value: Option<u64>) -> Result<(), Memory>
        ensures ok { OnOk result (self.new ≡ self.old ++ (key, value) ∷ []) }
        ensures err { OnErr result (self.new ≡ self.old) }
    {
        let place = self.entries.len();
        self.entries.push((key, value))?;
        if let Err(refused) = self.newest.insert(key, place) {
            self.entries.truncate(place);
            return Err(refused.into());
        }
        Ok(())
    }

    /// The value of the key's last entry. None where that is a delete, or where the key has no
    /// entry.
    pub fn get(&self, key: u32) -> Option<u64>
        ensures value { result ≡ shown_last self.now key }
        ensures none { IsNone result ↔ ((last_of self.now key ≡ None)
            ⊎ (last_of self.now key ≡ Some None)) }
    {
        let place = *self.newest.get(&key)?;
        self.entries[place].1
    }

    /// Each key from `from` to `to`, both included, whose last entry has a value, with that value,
    /// by strictly rising key.
    ///
    /// Empty where `from > to`. The list stays as it is, also without memory for the pairs.
    pub fn scan(&mut self, from: u32, to: u32) -> Result<PlainPairs, Memory>
        ensures pairs { IfOk result (ShowsRange (shown_last self.old) from to) }
        ensures same { self.new ≡ self.old }
    {
        let mut pairs = PlainPairs::new(self.alloc);
        if from > to {
            return Ok(pairs);
        }
        for (key, place) in self.newest.range(from..=to) {
            let Some(value) = self.entries[*place].1 else {
                continue;
            };
            pairs.push(*key, value)?;
        }
        Ok(pairs)
    }
}
