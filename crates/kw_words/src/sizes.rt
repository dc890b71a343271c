//! The sizes of the product's map, and the limits of the encodings.
//!
//! The first three are the product's choice, and may be changed within the limits. The limits are
//! what the encodings have room for: they say which values a word can hold, and every `pack`
//! requires them.

/// How many seats the map has: how many threads may call it at once.
pub const SEATS: usize = 16;

/// How many cells a row has.
pub const CELLS: usize = 128;

/// How many cells of a new row a rebalance fills.
pub const BUILT: usize = 64;

/// `SEATS`, as seats are counted in words.
pub const SEAT_COUNT: u32 = SEATS as u32;

/// `CELLS`, as cells are counted in words.
pub const CELL_COUNT: u32 = CELLS as u32;

/// `BUILT`, as cells are counted in words.
pub const BUILT_COUNT: u32 = BUILT as u32;

/// The most seats that a layout may have.
pub const MOST_SEATS: usize = 16;

/// The most cells that a row may have.
pub const MOST_CELLS: usize = 128;

/// The most rows that a table may have.
pub const MOST_ROWS: u32 = 65_536;

/// The most rows that one rebalance replaces.
pub const MOST_GROUP: u32 = 2;

/// A full row takes the row after it along where that has given no more cells than this. It does
/// not grow with the sizes.
pub const TAKE_ALONG: u32 = 8;

/// The most rows that one rebalance builds.
pub const MOST_NEW_ROWS: u32 = 7;

/// Versions in a word are below this.
pub const VERSION_END: u64 = 1 << 49;

/// Numbers of retired rows are below this.
pub const NUMBER_END: u64 = 1 << 49;

/// From this clock or epoch on nothing begins that would raise it.
pub const SPENT: u64 = 1 << 48;

/// Keys are below this.
pub const KEY_END: u64 = 1 << 32;

/// Values are below this. It is added to a value in its word, so that no value has the word of a
/// tombstone.
pub const VALUE_END: u64 = 1 << 63;

/// The bit of a count's word that says that the row is frozen. The cells given are counted below
/// it.
pub const FROZEN_BIT: u64 = 1 << 32;

/// The bit of a link's word that says that the link is marked.
pub const MARK_BIT: u64 = 1 << 32;

/// What a version is multiplied by in the word of a stamped entry; the cell stands below it.
pub const STAMP_UNIT: u64 = 1 << 15;
