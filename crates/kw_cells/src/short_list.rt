//! A list of few values that lies in place.
//!
//! What a seat keeps of a row or of a rebalance has its room from the sizes of the map. So each of
//! these lists has a most, lies where its owner lies, and takes no memory.
ghost use Rattle.std.specs.Prelude.{◌≡◌, ◌<◌, ◌≤◌, ◌++◌, ◌∷◌, [], length, insert};

use crate::cell::Cell;
use arrayvec::ArrayVec;
use std::alloc::AllocError;
use std::marker::Model;

/// A value whose clone is the same value.
pub trait SameClone: Copy + Default {
    ghost same: { (value copy : Self) → Self.is_clone value copy → copy ≡ value };
}

impl SameClone for u32 {
    ghost same = { λ value copy cloned. cloned };
}

impl SameClone for u64 {
    ghost same = { λ value copy cloned. cloned };
}

impl SameClone for usize {
    ghost same = { λ value copy cloned. cloned };
}

impl SameClone for Cell {
    ghost same = { λ value copy cloned. cloned };
}

/// Values in order, at most `MOST`. Contracts see it as their list.
#[derive(Debug, Drop)]
pub struct ShortList<T, const MOST: usize> {
    items: ArrayVec<T, MOST>,
}

impl<T, const MOST: usize> Model for ShortList<T, MOST> {
    ghost use Rattle.std.specs.Prelude.{List};
    ghost use Rattle.std.specs.Coded.{coded_list};

    ghost Value = { List T };

    ghost coded = { coded_list T.code };

    ghost view = { λ list. list.items.items };
}

impl<T: SameClone, const MOST: usize> Clone for ShortList<T, MOST> {
    ghost use Rattle.std.specs.Prelude.{◌≡◌};

    ghost is_clone = { λ list copy. copy ≡ list };

    // Takes no memory.
    fn clone(&self) -> Result<ShortList<T, MOST>, AllocError> {
        let items = self.items.clone()?;
        Ok(ShortList { items })
    }
}

impl<T: SameClone, const MOST: usize> ShortList<T, MOST> {
    /// No values.
    pub fn new() -> ShortList<T, MOST>
        ensures { result ≡ [] }
    {
        ShortList {
            items: ArrayVec::new(),
        }
    }

    /// These values.
    pub fn of(items: ArrayVec<T, MOST>) -> ShortList<T, MOST>
        ensures { result ≡ items.items }
    {
        ShortList { items }
    }

    /// Forgets all values.
    pub fn clear(&mut self)
        ensures { self.new ≡ [] }
    {
        self.items.clear();
    }

    /// Adds a value at the end. There must be room.
    pub fn push(&mut self, value: T)
        requires { length self.old < MOST }
        ensures { self.new ≡ self.old ++ value ∷ [] }
    {
        self.items.push(value);
    }

    /// Puts a value at a place among them. There must be room.
    pub fn insert(&mut self, at: usize, value: T)
        requires { (length self.old < MOST) × (at ≤ length self.old) }
        ensures { self.new ≡ insert self.old at value }
    {
        self.items.insert(at, value);
    }

    /// The values, in order.
    pub fn as_slice(&self) -> &[T]
        ensures values { result.now ≡ self.now }
        ensures few { length self.now ≤ MOST }
    {
        self.items.as_slice()
    }
}
