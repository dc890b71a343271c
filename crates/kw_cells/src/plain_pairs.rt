//! What a scan of the plain list answers.
//!
//! Contracts see a list of pairs of numbers and never the `Vec`. Only a scan fills it.
ghost use Rattle.std.specs.Prelude.{◌≡◌, ◌++◌, ◌∷◌, [], OnOk, OnErr};

use kw_model::memory::Memory;
use std::alloc::Global;
use std::marker::Model;

/// A list of pairs of a key and a value.
#[derive(Debug, Drop)]
pub struct PlainPairs {
    pairs: Vec<(u32, u64)>,
}

impl Model for PlainPairs {
    ghost use Rattle.std.specs.Prelude.{List, ℕ};

    ghost Value = { List (ℕ × ℕ) };

    ghost view = { λ list. list.pairs.items };
}

impl PlainPairs {
    /// No pairs. Takes no memory; later pushes take theirs from this allocator.
    pub(crate) fn new(alloc: Global) -> PlainPairs
        ensures { result ≡ [] }
    {
        PlainPairs {
            pairs: Vec::new(alloc),
        }
    }

    /// Adds a pair at the end. Without memory for it the list stays as it was.
    pub(crate) fn push(&mut self, key: u32, value: u64) -> Result<(), Memory>
        ensures ok { OnOk result (self.new ≡ self.old ++ (key, value) ∷ []) }
        ensures err { OnErr result (self.new ≡ self.old) }
    {
        self.pairs.push((key, value))?;
        Ok(())
    }

    /// The list of these pairs. Takes no memory.
    pub fn from_vec(pairs: Vec<(u32, u64)>) -> PlainPairs
        ensures { result ≡ pairs.items }
    {
        PlainPairs { pairs }
    }

    /// The pairs, in a `Vec`. Takes no memory.
    pub fn into_vec(self) -> Vec<(u32, u64)>
        ensures { result.items ≡ self }
    {
        self.pairs
    }

    /// The pairs, in order.
    pub fn pairs(&self) -> &[(u32, u64)]
        ensures { result.now ≡ self.now }
    {
        &self.pairs
    }
}
