//! The words that hold one number, or none; and the word of a row's least key, which holds two.
//!
//! Keys, values, versions, announced epochs and links between cells are written as plain numbers.
//! The least key of a row stands beside the number of cells with which the row was built.
//! Every number is read back as something, so `unpack` of these words never refuses: what is
//! promised is that each value in range has a word of its own, and is read back from it.
ghost use Rattle.std.specs.Prelude.{◌≡◌, ◌<◌, ◌≤◌};
ghost use Rattle.kw_words.specs.Plain.{IsValue, value_word, value_of_word, IsCounted, version_word, version_of_word, pass_word, pass_of_word, IsCell, cell_link_word, cell_of_link_word, key_word, key_of_word, least_word, built_of_word};
ghost use Rattle.kw_words.specs.declared.sizes.TheConstants.{MOST_CELLS, KEY_END, VALUE_END};

use crate::sizes::{KEY_END, MOST_CELLS, VALUE_END};

/// The word for the value of a cell, below `VALUE_END`; none is a tombstone.
#[tactic(auto, unfolding(crate::specs::Plain::value_of_word))]
pub fn pack_value(value: Option<u64>) -> u64
    requires { IsValue value }
    ensures value { result ≡ value_word value }
    ensures back { value_of_word result ≡ value }
{
    match value {
        Some(value) => VALUE_END + value,
        None => 0,
    }
}

/// The value that a word stands for, or none for a tombstone. A word that is neither is read as a
/// tombstone.
#[tactic(auto, unfolding(crate::specs::Plain::value_of_word))]
pub fn unpack_value(word: u64) -> Option<u64>
    ensures value { result ≡ value_of_word word }
    ensures range { IsValue result }
{
    if word < VALUE_END {
        None
    } else {
        Some(word - VALUE_END)
    }
}

/// The word for the version of a cell, from 1 on; none where the cell has no version yet.
#[tactic(auto, unfolding(crate::specs::Plain::number_of_word))]
pub fn pack_version(version: Option<u64>) -> u64
    requires { IsCounted version }
    ensures value { result ≡ version_word version }
    ensures back { version_of_word result ≡ version }
{
    version.unwrap_or(0)
}

/// The version that a word stands for, from 1 on; none where the cell has no version yet.
#[tactic(auto, unfolding(crate::specs::Plain::number_of_word))]
pub fn unpack_version(word: u64) -> Option<u64>
    ensures value { result ≡ version_of_word word }
    ensures right { IsCounted result × (version_word result ≡ word) }
{
    if word == 0 { None } else { Some(word) }
}

/// The word for the epoch that a seat announces, from 1 on; none outside a call.
#[tactic(auto, unfolding(crate::specs::Plain::number_of_word))]
pub fn pack_pass(epoch: Option<u64>) -> u64
    requires { IsCounted epoch }
    ensures value { result ≡ pass_word epoch }
    ensures back { pass_of_word result ≡ epoch }
{
    epoch.unwrap_or(0)
}

/// The announced epoch that a word stands for, from 1 on; none outside a call.
#[tactic(auto, unfolding(crate::specs::Plain::number_of_word))]
pub fn unpack_pass(word: u64) -> Option<u64>
    ensures value { result ≡ pass_of_word word }
    ensures right { IsCounted result × (pass_word result ≡ word) }
{
    if word == 0 { None } else { Some(word) }
}

/// The word for the link to a cell, below `MOST_CELLS`; none at the end of the list.
#[tactic(auto, unfolding(crate::specs::Plain::cell_of_link_word))]
pub fn pack_cell_link(cell: Option<u32>) -> u64
    requires { IsCell cell }
    ensures value { result ≡ cell_link_word cell }
    ensures back { cell_of_link_word result ≡ cell }
{
    match cell {
        Some(cell) => cell as u64 + 1,
        None => 0,
    }
}

/// The cell that a link leads to, below `MOST_CELLS`; none at the end of the list, and for a word
/// that leads to no cell.
#[tactic(auto, unfolding(crate::specs::Plain::cell_of_link_word))]
pub fn unpack_cell_link(word: u64) -> Option<u32>
    ensures value { result ≡ cell_of_link_word word }
    ensures range { IsCell result }
    ensures right { word ≤ MOST_CELLS → cell_link_word result ≡ word }
{
    if word == 0 || word > MOST_CELLS as u64 {
        None
    } else {
        Some((word - 1) as u32)
    }
}

/// The word for the key of a cell.
#[tactic(auto, unfolding(crate::specs::Plain::key_of_word))]
pub fn pack_key(key: u32) -> u64
    ensures value { result ≡ key_word key }
    ensures back { key_of_word result ≡ key }
{
    key as u64
}

/// The key that a word stands for, of a cell or the least of a row: its lowest 32 bits.
#[tactic(auto, unfolding(crate::specs::Plain::key_of_word))]
pub fn unpack_key(word: u64) -> u32
    ensures value { result ≡ key_of_word word }
    ensures right { word < KEY_END → key_word result ≡ word }
{
    (word % KEY_END) as u32
}

/// The word for the least key of a row, and with how many cells the row was built.
#[tactic(auto, unfolding(crate::specs::Plain::key_of_word, crate::specs::Plain::built_of_word))]
pub fn pack_least(key: u32, built: u32) -> u64
    ensures value { result ≡ least_word key built }
    ensures key { key_of_word result ≡ key }
    ensures built { built_of_word result ≡ built }
{
    key as u64 + KEY_END * built as u64
}

/// With how many cells a row was built, of the word for its least key: the highest 32 bits.
#[tactic(auto, unfolding(crate::specs::Plain::built_of_word))]
pub fn unpack_built(word: u64) -> u32
    ensures { result ≡ built_of_word word }
{
    (word / KEY_END) as u32
}
