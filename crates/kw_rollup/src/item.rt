//! What a line of metric points asks for.
//!
//! The callers of [`parse`](crate::parse) hold a [`RollItem`] for each line. A point's series and
//! minute are one key of the map, so that the keys of a series stand together and rise with the
//! minutes.

/// How many minutes a series has, and so how far the keys of two series at the same minute are
/// apart.
pub const MINUTES: u32 = 1_048_576;

/// How many series there are.
pub const SERIES: u32 = 4_096;

/// A line of an input. A key is its series times [`MINUTES`] and its minute.
#[derive(Clone, Copy, Debug, PartialEq, Eq)]
pub enum RollItem {
    /// `put S M V`: sets the value of a point: the key, then the value.
    Put(u32, u64),
    /// `del S M`: takes a point away. It may be absent.
    Del(u32),
    /// `table`: asks for the table of all points that the lines above it left.
    Table,
}
