//! How much a rebuild of rows takes in and gives out.
//!
//! A rebalance gathers the cells of a group of rows, keeps some of them and cuts these into new
//! rows. What a row and a group hold stands with the encodings, in `kw_words::sizes`; here is what
//! follows from it for the lists of a rebuild, and nothing else names these numbers. Beside `keep`
//! and `pack_rows` whoever keeps such lists takes their room from here.

use kw_words::sizes::{CELLS, MOST_GROUP, MOST_NEW_ROWS, SEATS};

/// The most cells that a rebalance gathers: all those of a group of rows.
pub const MOST_GATHERED: usize = MOST_GROUP as usize * CELLS;

/// The most versions that a rebalance needs: for each seat that of its scan, which may not have
/// ended, and that at which it has pinned the map.
pub const MOST_NEEDED: usize = 2 * SEATS;

/// `MOST_NEW_ROWS`, as the length of a list.
pub const MOST_STARTS: usize = MOST_NEW_ROWS as usize;
