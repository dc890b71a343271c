//! What a seat has announced in a row.
//!
//! A put announces its cell in the entry of its seat before it reads the clock, and writes its
//! version there. Readers and rebalances read the entries of a row to find the puts that are on
//! their way.
ghost use Rattle.std.specs.Prelude.{◌≡◌, Some};
ghost use Rattle.kw_words.specs.Pend.{IsPend, pend_word, pend_of};
ghost use Rattle.kw_words.specs.declared.pend.Pend.{Pend};

use crate::sizes::{MOST_CELLS, STAMP_UNIT};

/// A seat's entry in a row.
#[derive(Clone, Copy, Debug, PartialEq, Eq)]
pub enum Pend {
    /// Nothing is announced.
    Idle,
    /// The put of this cell, below `MOST_CELLS`, has no version yet.
    Pending(u32),
    /// The put of this cell, below `MOST_CELLS`, has this version, from 1 to below `VERSION_END`.
    Stamped(u32, u64),
    /// The row takes no more puts of this seat.
    Frozen,
}

impl Pend {
    /// The word for this entry.
    #[tactic(auto, unfolding(crate::specs::Pend::pend_of))]
    pub fn pack(self) -> u64
        requires { IsPend self }
        ensures value { result ≡ pend_word self }
        ensures back { pend_of result ≡ Some self }
    {
        match self {
            Pend::Idle => 0,
            Pend::Pending(cell) => 1 + 4 * cell as u64,
            Pend::Stamped(cell, version) => 2 + 4 * cell as u64 + STAMP_UNIT * version,
            Pend::Frozen => 3,
        }
    }

    /// The entry that a word stands for, or none where it stands for no entry in range.
    #[tactic(auto, unfolding(crate::specs::Pend::pend_of))]
    pub fn unpack(word: u64) -> Option<Pend>
        ensures value { result ≡ pend_of word }
        // So a word that no entry in range packs to gives none.
        ensures right { (entry : Pend) → result ≡ Some entry → IsPend entry
            × (pend_word entry ≡ word) }
        ensures every { (entry : Pend) → IsPend entry → pend_word entry ≡ word →
            result ≡ Some entry }
    {
        let cell = word % STAMP_UNIT / 4;
        let version = word / STAMP_UNIT;
        if word == 0 {
            Some(Pend::Idle)
        } else if word == 3 {
            Some(Pend::Frozen)
        } else if word % 4 == 1 && cell < MOST_CELLS as u64 && version == 0 {
            Some(Pend::Pending(cell as u32))
        } else if word % 4 == 2 && cell < MOST_CELLS as u64 && version > 0 {
            Some(Pend::Stamped(cell as u32, version))
        } else {
            None
        }
    }
}
