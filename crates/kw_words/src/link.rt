//! The link from one row of the list to the next.
//!
//! A link leads to a row or ends the list. A rebalance marks the link of a row that it replaces,
//! and a marked link does not change any more.
ghost use Rattle.std.specs.Prelude.{◌≡◌, Some};
ghost use Rattle.kw_words.specs.Link.{IsLink, link_word, link_of};
ghost use Rattle.kw_words.specs.declared.link.Link.{Link};

use crate::sizes::{MARK_BIT, MOST_ROWS};

/// The row after a row, below `MOST_ROWS`, and whether the link is marked.
#[derive(Clone, Copy, Debug, PartialEq, Eq)]
pub struct Link {
    /// The row that the link leads to; none at the end of the list.
    pub row: Option<u32>,
    /// Whether the row that the link stands in is about to be replaced.
    pub marked: bool,
}

impl Link {
    /// The word for this link.
    #[tactic(auto, unfolding(crate::specs::Link::link_of))]
    pub fn pack(self) -> u64
        requires { IsLink self }
        ensures value { result ≡ link_word self }
        ensures back { link_of result ≡ Some self }
    {
        let word = match self.row {
            Some(row) => row as u64 + 1,
            None => 0,
        };
        if self.marked { word + MARK_BIT } else { word }
    }

    /// The link that a word stands for, or none where it stands for no link in range.
    #[tactic(auto, unfolding(crate::specs::Link::link_of))]
    pub fn unpack(word: u64) -> Option<Link>
        ensures value { result ≡ link_of word }
        // So a word that no link in range packs to gives none.
        ensures right { (link : Link) → result ≡ Some link → IsLink link × (link_word link ≡ word) }
        ensures every { (link : Link) → IsLink link → link_word link ≡ word → result ≡ Some link }
    {
        let marked = word >= MARK_BIT;
        let place = if marked { word - MARK_BIT } else { word };
        if place == 0 {
            Some(Link { row: None, marked })
        } else if place <= MOST_ROWS as u64 {
            Some(Link {
                row: Some((place - 1) as u32),
                marked,
            })
        } else {
            None
        }
    }
}
