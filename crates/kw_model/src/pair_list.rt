//! A list of pairs that grows at its end: what a scan answers.
//!
//! Contracts see the list as a list of pairs of numbers and never its `Vec`, so replies can be
//! compared with those of a definition. The list keeps whatever order its pairs are pushed in; that
//! a scan's pairs rise is for those who push to show.
ghost use Rattle.std.specs.Prelude.{◌≡◌, ◌++◌, ◌∷◌, [], take, IfOk, OnOk, OnErr};
ghost use Rattle.kw_model.specs.Map.{between};

use crate::memory::Memory;
use std::alloc::{AllocError, Global};
use std::marker::Model;
use std::mem;

/// A list of pairs of a key and a value, in the order in which they were pushed.
#[derive(Debug, Drop)]
pub struct PairList {
    pairs: Vec<(u32, u64)>,
}

impl Model for PairList {
    ghost use Rattle.std.specs.Prelude.{List, ℕ};

    ghost Value = { List (ℕ × ℕ) };

    ghost view = { λ list. list.pairs.items };
}

impl PartialEq for PairList {
    ghost use Rattle.kw_model.specs.Same.{same_pairs};
    ghost use Rattle.std.specs.Cmp.Rules.{comparing};
    ghost use Rattle.std.proofs.Common.{rules};

    ghost eq = { same_pairs };

    ghost laws = { Prim.search (comparing, rules) };

    fn eq(&self, other: &PairList) -> bool {
        self.pairs == other.pairs
    }
}

impl Eq for PairList {
    ghost use Rattle.std.specs.Cmp.Rules.{comparing};
    ghost use Rattle.std.proofs.Common.{rules};

    ghost laws = { Prim.search (comparing, rules) };
}

impl Clone for PairList {
    ghost use Rattle.std.specs.Prelude.{◌≡◌};

    ghost is_clone = { λ list copy. copy ≡ list };

    // Takes memory for the pairs; without it an `AllocError` is the answer.
    fn clone(&self) -> Result<PairList, AllocError> {
        let pairs = self.pairs.clone()?;
        Ok(PairList { pairs })
    }
}

impl PairList {
    /// No pairs. Takes no memory; later pushes take theirs from this allocator.
    pub fn new(alloc: Global) -> PairList
        ensures { result ≡ [] }
    {
        PairList {
            pairs: Vec::new(alloc),
        }
    }

    /// Adds a pair at the end. Without memory for it the list stays as it was.
    pub fn push(&mut self, key: u32, value: u64) -> Result<(), Memory>
        ensures ok { OnOk result (self.new ≡ self.old ++ (key, value) ∷ []) }
        ensures err { OnErr result (self.new ≡ self.old) }
    {
        self.pairs.push((key, value))?;
        Ok(())
    }

    /// The pairs whose keys are from the first key to the second, both included, in their order.
    pub fn between(&self, from: u32, to: u32) -> Result<PairList, Memory>
        ensures { IfOk result (λ pairs. pairs ≡ between from to self.now) }
    {
        let mut pairs = self.fresh();
        for (key, value) in &self.pairs {
            if from <= *key && *key <= to {
                pairs.push(*key, *value)?;
            }
        }
        Ok(pairs)
    }

    /// Keeps the first `len` pairs.
    pub fn truncate(&mut self, len: usize)
        ensures { self.new ≡ take len self.old }
    {
        self.pairs.truncate(len);
    }

    /// No pairs. Takes no memory; later pushes take theirs from the allocator of this list.
    pub fn fresh(&self) -> PairList
        ensures { result ≡ [] }
    {
        PairList::new(*self.pairs.allocator())
    }

    /// Gives the pairs away, and leaves none. Takes no memory; later pushes take theirs from the
    /// same allocator.
    pub fn take(&mut self) -> PairList
        ensures given { result ≡ self.old }
        ensures left { self.new ≡ [] }
    {
        let alloc = *self.pairs.allocator();
        let pairs = mem::replace(&mut self.pairs, Vec::new(alloc));
        PairList { pairs }
    }

    /// The list of these pairs. Takes no memory.
    pub fn from_vec(pairs: Vec<(u32, u64)>) -> PairList
        ensures { result ≡ pairs.items }
    {
        PairList { pairs }
    }

    /// The pairs, in a `Vec`. Takes no memory.
    pub fn into_vec(self) -> Vec<(u32, u64)>
        ensures { result.items ≡ self }
    {
        self.pairs
    }

    /// The pairs, in order.
    pub fn pairs(&self) -> &[(u32, u64)]
        ensures { result.now ≡ self.now }
    {
        &self.pairs
    }
}
