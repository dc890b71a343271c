//! What a publication changes of the entries before it.
//!
//! A rebalance puts new rows in the place of one, or of two neighbours: each of them comes with its
//! least key, and the others go. The same change is made in several lists of entries, one after the
//! other, so it is a value of its own. It has room for `MOST_PLACED` rows.
ghost use Rattle.std.specs.Prelude.{◌≡◌, ◌<◌, ◌≤◌, [], ◌∷◌, ◌++◌, length};
ghost use Rattle.kw_index.specs.Changes.{with_change};

use crate::entries::{Entries, IndexEntry};
use arrayvec::ArrayVec;
use std::marker::Model;

/// The most rows that one change brings: one more than a rebalance takes.
pub const MOST_PLACED: usize = 8;

/// How many changes wait at most until they can be published. Others keep the slot for long only
/// where one of them is halted in its turn, for as long as the system runs another thread in its
/// place.
pub const MOST_UNTOLD: usize = 64;

/// New rows in the place of one, or of two neighbours.
///
/// Seen as the list of the entries of the new rows, in the order in which they are placed, the row
/// that goes, and the row that goes with it, if there is one.
#[derive(Debug, Default, Drop)]
pub struct Change {
    placed: ArrayVec<IndexEntry, MOST_PLACED>,
    gone: u32,
    second: Option<u32>,
}

impl Model for Change {
    ghost use Rattle.kw_index.specs.Changes.{Replacement};

    ghost Value = { Replacement };

    ghost view = { λ change. record {
      placed = change.placed.items;
      gone = change.gone;
      second = change.second;
    } };
}

impl Change {
    /// This row goes, and with it the second one, if there is one; no row comes as yet.
    pub fn without(gone: u32, second: Option<u32>) -> Change
        ensures { result ≡ record { placed = []; gone = gone; second = second } }
    {
        Change {
            placed: ArrayVec::new(),
            gone,
            second,
        }
    }

    /// This row comes too, with its least key. It is left out where the change has `MOST_PLACED`
    /// rows already. Takes no memory.
    pub fn place(&mut self, entry: IndexEntry)
        ensures room { length self.old.placed < MOST_PLACED → self.new ≡ record {
          placed = self.old.placed ++ entry ∷ [];
          gone = self.old.gone;
          second = self.old.second;
        } }
        ensures full { MOST_PLACED ≤ length self.old.placed → self.new ≡ self.old }
    {
        if !self.placed.is_full() {
            self.placed.push(entry);
        }
    }
}

impl Entries {
    /// Makes the change: the new rows come, each with its least key, and the others go. Takes no
    /// memory.
    ///
    /// In this order one row at most is searched for: the first new row takes the place of the one
    /// that goes, which then has no entry any more.
    pub fn apply(&mut self, change: &Change)
        ensures { self.new ≡ with_change change.now self.old }
    {
        for entry in change.placed.as_slice() {
            self.place(*entry);
        }
        self.remove(change.gone);
        if let Some(row) = change.second {
            self.remove(row);
        }
    }
}
