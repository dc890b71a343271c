//! The values of a bucket's points, each as often as points have it.
//!
//! Most buckets have few points, and a short list of their values is gone through sooner than a
//! tree is searched. So the values stand in a list as long as it has room, and in a tree from there
//! on: a change takes logarithmic time however many values there are.
ghost use Rattle.std.specs.Prelude.{◌≡◌, ◌≢◌, ◌<◌, ◌≤◌, ◌==◌, ◌^◌, ◌∷◌, [], ℕ, List, IfOk, OnOk, OnErr, length, fold, min, max, MatchOption};
ghost use Rattle.std.specs.List.{position, slice_get};
ghost use Rattle.std.specs.Ordering.{nat_cmp};
ghost use Rattle.std.specs.BTreeMap.{get};
ghost use Rattle.kw_rollup.specs.Kept.{AreValues};

use kw_model::memory::Memory;
use std::alloc::Global;
use std::collections::BTreeMap;

/// How many values the list has at most. More of them take as long to go through as a tree takes to
/// search.
const MOST_LISTED: usize = 128;

/// Values in no order: those of a short list, and those of which a tree says how many there are of
/// each.
#[derive(Drop)]
pub struct Values {
    listed: Vec<u64>,
    counted: BTreeMap<u64, u32>,
}

impl Values {
    /// One value. Takes its memory from the allocator, as later values do.
    pub fn of_one(alloc: Global, value: u64) -> Result<Values, Memory>
        ensures { IfOk result (λ values. AreValues (value ∷ []) values) }
    {
        let mut listed = Vec::new(alloc);
        listed.push(value)?;
        Ok(Values {
            listed,
            counted: BTreeMap::new(alloc),
        })
    }

    /// Adds a value. Without memory for it the values stay as they were.
    pub fn add(&mut self, value: u64) -> Result<(), Memory>
        requires { (vs : List ℕ) × AreValues vs self.old × (length vs < 2 ^ 31) }
        ensures ok { OnOk result ((vs : List ℕ) → AreValues vs self.old → AreValues (value ∷ vs) self.new) }
        ensures err { OnErr result ((vs : List ℕ) → AreValues vs self.old → AreValues vs self.new) }
    {
        if self.listed.len() < MOST_LISTED {
            self.listed.push(value)?;
            return Ok(());
        }
        let times = self.counted.get(&value).copied().unwrap_or(0);
        self.counted.insert(value, times + 1)?;
        Ok(())
    }

    /// Takes a value away, of which there is one. Takes no memory.
    pub fn take(&mut self, value: u64)
        requires { (vs : List ℕ) × AreValues (value ∷ vs) self.old }
        ensures { (vs : List ℕ) → AreValues (value ∷ vs) self.old → AreValues vs self.new }
    {
        if let Some(at) = place_of(&self.listed, value) {
            self.listed.swap_remove(at);
            return;
        }
        let times = self.counted.get(&value).copied().unwrap_or(0);
        if times > 1 {
            // the value is there, so this takes no memory and cannot fail
            let _ = self.counted.insert(value, times - 1);
        } else {
            self.counted.remove(&value);
        }
    }

    /// The least value, or 0 where there are none.
    pub fn least(&self) -> u64
        ensures { (v : ℕ) (vs : List ℕ) → AreValues (v ∷ vs) self.now → result ≡ fold min v vs }
    {
        let start = value_or(self.counted.first_key_value(), first(&self.listed));
        least_of(start, &self.listed)
    }

    /// The greatest value, or 0 where there are none.
    pub fn greatest(&self) -> u64
        ensures { (v : ℕ) (vs : List ℕ) → AreValues (v ∷ vs) self.now → result ≡ fold max v vs }
    {
        let start = value_or(self.counted.last_key_value(), first(&self.listed));
        greatest_of(start, &self.listed)
    }
}

/// The first place at which the value stands.
fn place_of(values: &[u64], value: u64) -> Option<usize>
    ensures { result ≡ position (λ other. other == value) values.now }
{
    values.iter().position(|other| *other == value)
}

/// The first of these values, or 0 where there are none.
fn first(values: &[u64]) -> u64
    ensures { MatchOption (slice_get values.now 0) (result ≡ 0) (λ value. result ≡ value) }
{
    values.first().copied().unwrap_or(0)
}

/// The value of an entry of the tree, or this one where there is none.
fn value_or(entry: Option<(&u64, &u32)>, other: u64) -> u64
    ensures { MatchOption entry.entry (result ≡ other) (λ pair. result ≡ pair.0.now) }
{
    match entry {
        Some((value, _)) => *value,
        None => other,
    }
}

/// The least of a value and these.
fn least_of(start: u64, values: &[u64]) -> u64
    ensures { result ≡ fold min start values.now }
{
    let mut least = start;
    for value in values {
        least = least.min(*value);
    }
    least
}

/// The greatest of a value and these.
fn greatest_of(start: u64, values: &[u64]) -> u64
    ensures { result ≡ fold max start values.now }
{
    let mut greatest = start;
    for value in values {
        greatest = greatest.max(*value);
    }
    greatest
}
