//! How many cells of a row were asked for.
//!
//! A put adds one to the count of its row, and the count that it found is its cell. The count may
//! pass the number of cells: a put that finds it there or frozen has no cell. A rebalance freezes
//! the count.
ghost use Rattle.std.specs.Prelude.{◌≡◌, Some};
ghost use Rattle.kw_words.specs.Count.{IsCount, count_word, count_of};
ghost use Rattle.kw_words.specs.declared.count.Count.{Count};

use crate::sizes::FROZEN_BIT;

/// How many cells were asked for, and whether the row is frozen.
#[derive(Clone, Copy, Debug, PartialEq, Eq)]
pub struct Count {
    /// How many cells were asked for.
    pub given: u32,
    /// Whether the row gives no more cells.
    pub frozen: bool,
}

impl Count {
    /// The word for this count.
    #[tactic(auto, unfolding(crate::specs::Count::count_of))]
    pub fn pack(self) -> u64
        ensures value { result ≡ count_word self }
        ensures back { count_of result ≡ Some self }
    {
        if self.frozen {
            self.given as u64 + FROZEN_BIT
        } else {
            self.given as u64
        }
    }

    /// The count that a word stands for, or none where it stands for no count.
    #[tactic(auto, unfolding(crate::specs::Count::count_of))]
    pub fn unpack(word: u64) -> Option<Count>
        ensures value { result ≡ count_of word }
        // So a word that no count in range packs to gives none.
        ensures right { (count : Count) → result ≡ Some count → IsCount count
            × (count_word count ≡ word) }
        ensures every { (count : Count) → IsCount count → count_word count ≡ word →
            result ≡ Some count }
    {
        if word < FROZEN_BIT {
            Some(Count {
                given: word as u32,
                frozen: false,
            })
        } else if word - FROZEN_BIT < FROZEN_BIT {
            Some(Count {
                given: (word - FROZEN_BIT) as u32,
                frozen: true,
            })
        } else {
            None
        }
    }
}
