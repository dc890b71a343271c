//! The points of one bucket.
//!
//! A bucket forgets which minutes its points have, and keeps their number, their sum and the values
//! themselves, each as often as points have it.
ghost use Rattle.std.specs.Prelude.{◌≡◌, ◌<◌, ◌^◌, ◌∷◌, [], ℕ, List, IfOk, OnOk, OnErr, length, MatchOption, IsTrue, ◌↔◌};
ghost use Rattle.kw_rollup.specs.Buckets.{series_of, minute_of, summary_of};
ghost use Rattle.kw_rollup.specs.Kept.{IsBucketOf, with_old};

use crate::item::MINUTES;
use crate::summary::Summary;
use crate::values::Values;
use kw_model::memory::Memory;
use std::alloc::Global;

/// The points of a bucket: how many there are, the sum of their values, and the values.
#[derive(Drop)]
pub struct Bucket {
    count: u32,
    sum: u128,
    values: Values,
}

impl Bucket {
    /// The bucket of one point, which has this value. The values take their memory from the
    /// allocator.
    pub fn of_one(alloc: Global, value: u64) -> Result<Bucket, Memory>
        ensures { IfOk result (λ bucket. IsBucketOf (value ∷ []) bucket) }
    {
        Ok(Bucket {
            count: 1,
            sum: u128::from(value),
            values: Values::of_one(alloc, value)?,
        })
    }

    /// Adds a point with this value. Without memory for a new value the points stay as they were.
    fn add(&mut self, value: u64) -> Result<(), Memory>
        requires few { self.old.count < 2 ^ 31 }
        requires small { self.old.sum < 2 ^ 127 }
        requires sound { (vs : List ℕ) × IsBucketOf vs self.old }
        ensures ok { OnOk result ((vs : List ℕ) → IsBucketOf vs self.old → IsBucketOf (value ∷ vs) self.new) }
        ensures err { OnErr result ((vs : List ℕ) → IsBucketOf vs self.old → IsBucketOf vs self.new) }
    {
        self.values.add(value)?;
        self.count += 1;
        self.sum += u128::from(value);
        Ok(())
    }

    /// Takes away a point with this value, of which there is one. Takes no memory.
    pub fn take(&mut self, value: u64)
        requires { (vs : List ℕ) × IsBucketOf (value ∷ vs) self.old }
        ensures { (vs : List ℕ) → IsBucketOf (value ∷ vs) self.old → IsBucketOf vs self.new }
    {
        self.values.take(value);
        self.count -= 1;
        self.sum -= u128::from(value);
    }

    /// Adds a point with this value in place of one with the old value, where that is given.
    /// Without memory for a new value the points stay as they were.
    pub fn put(&mut self, old: Option<u64>, value: u64) -> Result<(), Memory>
        requires few { self.old.count < 2 ^ 31 }
        requires small { self.old.sum < 2 ^ 127 }
        requires sound { (vs : List ℕ) × IsBucketOf (with_old old vs) self.old }
        ensures ok { OnOk result ((vs : List ℕ) → IsBucketOf (with_old old vs) self.old → IsBucketOf (value ∷ vs) self.new) }
        ensures err { OnErr result ((vs : List ℕ) → IsBucketOf vs self.old → IsBucketOf vs self.new) }
    {
        self.add(value)?;
        if let Some(old) = old {
            self.take(old);
        }
        Ok(())
    }

    /// Whether there are no points.
    pub fn is_empty(&self) -> bool
        ensures { IsTrue result ↔ (self.now.count ≡ 0) }
    {
        self.count == 0
    }

    /// What a table says of these points, where the bucket begins at this key.
    pub fn summary(&self, first: u32) -> Summary
        ensures { (vs : List ℕ) → 0 < length vs → IsBucketOf vs self.now
            → summary_of (series_of first) (minute_of first) vs ≡ result ∷ [] }
    {
        Summary {
            series: first / MINUTES,
            start: first % MINUTES,
            count: self.count,
            sum: self.sum,
            least: self.values.least(),
            greatest: self.values.greatest(),
        }
    }
}
