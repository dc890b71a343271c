//! The scan of a seat.
//!
//! A scan first writes the clock that it loaded, then draws a version, and then sets the version
//! here. A rebalance that finds it waiting sets a version for it, so that it knows which versions
//! are still read.
ghost use Rattle.std.specs.Prelude.{◌≡◌, Some};
ghost use Rattle.kw_words.specs.Scan.{IsScan, scan_word, scan_of};
ghost use Rattle.kw_words.specs.declared.scan.ScanWord.{ScanWord};

use crate::sizes::VERSION_END;

/// A seat's scan.
#[derive(Clone, Copy, Debug, PartialEq, Eq)]
pub enum ScanWord {
    /// The seat makes no scan.
    Quiet,
    /// The scan has no version yet, and loaded this clock, from 1 to below `VERSION_END`.
    Waiting(u64),
    /// The scan has this version, from 1 to below `VERSION_END`.
    Drawn(u64),
}

impl ScanWord {
    /// The word for this scan.
    #[tactic(auto, unfolding(crate::specs::Scan::scan_of))]
    pub fn pack(self) -> u64
        requires { IsScan self }
        ensures value { result ≡ scan_word self }
        ensures back { scan_of result ≡ Some self }
    {
        match self {
            ScanWord::Quiet => 0,
            ScanWord::Waiting(clock) => 1 + 4 * clock,
            ScanWord::Drawn(version) => 2 + 4 * version,
        }
    }

    /// The scan that a word stands for, or none where it stands for no scan in range.
    #[tactic(auto, unfolding(crate::specs::Scan::scan_of))]
    pub fn unpack(word: u64) -> Option<ScanWord>
        ensures value { result ≡ scan_of word }
        // So a word that no scan in range packs to gives none.
        ensures right { (scan : ScanWord) → result ≡ Some scan → IsScan scan
            × (scan_word scan ≡ word) }
        ensures every { (scan : ScanWord) → IsScan scan → scan_word scan ≡ word →
            result ≡ Some scan }
    {
        let version = word / 4;
        if word == 0 {
            Some(ScanWord::Quiet)
        } else if version == 0 || version >= VERSION_END {
            None
        } else if word % 4 == 1 {
            Some(ScanWord::Waiting(version))
        } else if word % 4 == 2 {
            Some(ScanWord::Drawn(version))
        } else {
            None
        }
    }
}
