//! A full row is replaced by new ones.
//!
//! The families below are its parts, one after the other.
pub mod claim;
pub mod engage;
pub mod freeze;
pub mod gather;
pub mod left;
pub mod replace;
pub mod seek;
pub mod write;

use crate::activity::rebalance::claim::Claim;
use crate::activity::rebalance::engage::Engage;
use crate::activity::rebalance::freeze::Freeze;
use crate::activity::rebalance::gather::Gather;
use crate::activity::rebalance::left::Left;
use crate::activity::rebalance::replace::Replace;
use crate::activity::rebalance::seek::Seek;
use crate::activity::rebalance::write::Write;

/// A full row is replaced by new ones.
#[derive(Clone, Copy, Debug, PartialEq, Eq)]
pub enum Rebalance {
    /// A full row is engaged.
    Engage(Engage),
    /// The row after the full one is taken along.
    Claim(Claim),
    /// The full row is a follower: the seat goes left to its leader.
    Left(Left),
    /// The full row is frozen, and the one that goes along.
    Freeze(Freeze),
    /// The cells of both are gathered.
    Gather(Gather),
    /// Free rows are sought and taken.
    Seek(Seek),
    /// A new row is written, word by word.
    Write(Write),
    /// The rows of the group are replaced.
    Replace(Replace),
}
