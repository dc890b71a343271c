//! Numbers that bound what a world holds and that no encoding names.
//!
//! The sizes of the map and the limits of its words stand with the words; here are the limits that
//! come from how events use them.

use kw_words::sizes::{MOST_GROUP, SEATS};

/// A row's count stays below this. Each seat asks a full row for at most one more cell, so it never
/// comes near.
pub const GIVEN_END: u64 = 1 << 31;

/// No seat begins more calls than this.
pub const MOST_CALLS: u32 = u32::MAX;

/// A put or a delete that is done may rebalance its own row where the table has fewer than so many
/// rows for each number of its visit's epoch.
///
/// The epoch counts the rows that were retired, so in a young map, whose rows are not scarce,
/// nobody does.
pub const TIDY_SHARE: u32 = 32;

/// The most stamped cells that a rebalance remembers: one for each entry of a group of rows.
pub const MOST_MARKS: usize = MOST_GROUP as usize * SEATS;

/// A version above every version that a cell can have: the best cell for it is the newest.
pub const NEWEST: u64 = u64::MAX;
