//! Points with their buckets, kept up to date by each change.
//!
//! A [`Rollup`] holds the points by key, and beside them the buckets that have points, by their
//! first key. Callers see its width and its points alone, and a printed table is that of the
//! definition over these.
ghost use Rattle.std.specs.Prelude.{◌≡◌, ◌≢◌, ◌<◌, ◌≤◌, ◌∷◌, [], ℕ, List, IsSome, IfOk, OnOk, OnErr};
ghost use Rattle.std.specs.BTreeMap.{get};
ghost use Rattle.std.specs.Ordering.{nat_cmp};
ghost use Rattle.kw_model.specs.Map.{IsRising, put, without};
ghost use Rattle.kw_rollup.specs.Buckets.{buckets};
ghost use Rattle.kw_rollup.specs.Texts.{table_text};
ghost use Rattle.kw_rollup.specs.Kept.{IsKeptFor, IsSmall, first_of, restored, with_old};

use crate::bucket::Bucket;
use crate::item::MINUTES;
use crate::summary::{push_end, push_summary};
use kw_model::memory::Memory;
use kw_model::pair_list::PairList;
use std::alloc::Global;
use std::collections::BTreeMap;
use std::marker::Model;

/// Points and their buckets, seen as the width of a bucket and the points' pairs by strictly rising
/// key.
#[derive(Drop)]
pub struct Rollup {
    alloc: Global,
    width: u32,
    points: BTreeMap<u32, u64>,
    buckets: BTreeMap<u32, Bucket>,
}

impl Model for Rollup {
    ghost use Rattle.kw_rollup.specs.Kept.{Rolled, IsKept};

    ghost Value = { Rolled };

    ghost view = { λ rollup. record { width = rollup.width; pairs = rollup.points.entries } };

    ghost invariant = { λ rollup. IsKept rollup.width rollup.points.entries rollup.buckets };
}

impl Rollup {
    /// The points of these pairs, with buckets of `width` minutes each, from 1 to [`MINUTES`].
    /// Later changes take their memory from the same allocator.
    pub fn from_pairs(alloc: Global, width: u32, pairs: &PairList) -> Result<Rollup, Memory>
        requires some { 0 < width }
        requires most { width ≤ MINUTES }
        requires rising { IsRising pairs.now }
        ensures width { IfOk result (λ rollup. rollup.width ≡ width) }
        ensures pairs { IfOk result (λ rollup. rollup.pairs ≡ pairs.now) }
    {
        let mut rollup = Rollup::empty(alloc, width);
        let list = pairs.pairs();
        for (key, value) in list {
            rollup.put(*key, *value)?;
        }
        Ok(rollup)
    }

    /// No points.
    fn empty(alloc: Global, width: u32) -> Rollup
        requires some { 0 < width }
        requires most { width ≤ MINUTES }
        ensures { result ≡ record { width = width; pairs = [] } }
    {
        Rollup {
            alloc,
            width,
            points: BTreeMap::new(alloc),
            buckets: BTreeMap::new(alloc),
        }
    }

    /// Sets the value of a point. Without memory for it all stays as it was.
    pub fn put(&mut self, key: u32, value: u64) -> Result<(), Memory>
        ensures ok { OnOk result (self.new.pairs ≡ put key value self.old.pairs) }
        ensures width { self.new.width ≡ self.old.width }
        ensures err { OnErr result (self.new ≡ self.old) }
    {
        let first = first_key(self.width, key);
        let old = self.points.insert(key, value)?;
        match put_point(self.alloc, &mut self.buckets, first, old, value) {
            Ok(()) => Ok(()),
            Err(error) => {
                restore(&mut self.points, key, old);
                Err(error)
            }
        }
    }

    /// Takes a point away, where there is one at this key. Takes no memory.
    pub fn del(&mut self, key: u32)
        ensures pairs { self.new.pairs ≡ without key self.old.pairs }
        ensures width { self.new.width ≡ self.old.width }
    {
        let first = first_key(self.width, key);
        if let Some(old) = self.points.remove(&key) {
            take_point(&mut self.buckets, first, old);
        }
    }

    /// The table of these points, with the number of updates that were refused in its last line.
    pub fn print(&self, refused: u64) -> Result<Vec<u8>, Memory>
        ensures { IfOk result (λ bytes. bytes.items ≡ table_text (buckets self.now.width self.now.pairs) refused) }
    {
        let mut out = Vec::new(self.alloc);
        for (first, bucket) in self.buckets.iter() {
            push_summary(&mut out, &bucket.summary(*first))?;
        }
        push_end(&mut out, refused)?;
        Ok(out)
    }
}

/// The first key of the bucket that a key is in.
fn first_key(width: u32, key: u32) -> u32
    requires { 0 < width }
    ensures { result ≡ first_of width key }
{
    key - key % MINUTES % width
}

/// Adds a point with this value to the bucket that begins at this key, in place of one with the old
/// value, where that is given. Without memory for it the points of each bucket stay as they were.
fn put_point(
    alloc: Global,
    buckets: &mut BTreeMap<u32, Bucket>,
    first: u32,
    old: Option<u64>,
    value: u64,
) -> Result<(), Memory>
    requires { (vs : List ℕ) × IsSmall (with_old old vs) × IsKeptFor (with_old old vs) (get nat_cmp buckets.old first) }
    ensures ok { OnOk result ((vs : List ℕ) → IsKeptFor (with_old old vs) (get nat_cmp buckets.old first)
        → IsKeptFor (value ∷ vs) (get nat_cmp buckets.new first)) }
    ensures err { OnErr result ((vs : List ℕ) → IsKeptFor vs (get nat_cmp buckets.old first)
        → IsKeptFor vs (get nat_cmp buckets.new first)) }
    ensures others { (b : ℕ) → b ≢ first → get nat_cmp buckets.new b ≡ get nat_cmp buckets.old b }
{
    match buckets.get_mut(&first) {
        Some(bucket) => bucket.put(old, value),
        None => {
            buckets.insert(first, Bucket::of_one(alloc, value)?)?;
            Ok(())
        }
    }
}

/// Takes a point with this value away from the bucket that begins at this key, and the bucket where
/// that was its last one.
fn take_point(buckets: &mut BTreeMap<u32, Bucket>, first: u32, value: u64)
    requires { (vs : List ℕ) × IsKeptFor (value ∷ vs) (get nat_cmp buckets.old first) }
    ensures kept { (vs : List ℕ) → IsKeptFor (value ∷ vs) (get nat_cmp buckets.old first)
        → IsKeptFor vs (get nat_cmp buckets.new first) }
    ensures others { (b : ℕ) → b ≢ first → get nat_cmp buckets.new b ≡ get nat_cmp buckets.old b }
{
    if let Some(bucket) = buckets.get_mut(&first) {
        bucket.take(value);
        if !bucket.is_empty() {
            return;
        }
    }
    buckets.remove(&first);
}

/// Gives a key that has a value the value that it had before, or none.
fn restore(points: &mut BTreeMap<u32, u64>, key: u32, old: Option<u64>)
    requires there { IsSome (get nat_cmp points.old key) }
    requires rising { IsRising points.old.entries }
    ensures { points.new.entries ≡ restored key old points.old.entries }
{
    match old {
        // the key is there, so this takes no memory and cannot fail
        Some(old) => {
            let _ = points.insert(key, old);
        }
        None => {
            points.remove(&key);
        }
    }
}
