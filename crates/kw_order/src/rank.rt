//! The place of a call among all others.
//!
//! Ranks are compared number by number. That no two calls have one rank, and that the calls stand
//! by rising rank in the one legal order, is what the laws of this crate say.

/// The place of a call: its point, and what tells calls at one point apart.
///
/// At one point the puts and deletes stand by the position of their add, with a tail of 0. A get
/// that stands behind a put has the put's point and add, and its own first event plus 1 as its
/// tail. Every other call has an add of 0.
#[derive(Clone, Copy, Debug, PartialEq, Eq, PartialOrd, Ord)]
pub struct Rank {
    pub at: u64,
    pub add: u64,
    pub tail: u64,
}

/// A call, by its place in the history, with its rank.
#[derive(Clone, Copy, Debug, PartialEq, Eq, PartialOrd, Ord)]
pub struct RankedCall {
    pub rank: Rank,
    pub call: usize,
}
