//! What is asked of the map, and what it answers.
//!
//! The two enums here are the words in which every layer speaks of the map: the map of one thread
//! in this crate, the steps of the concurrent map and the program's lines. They are plain data
//! whose variants clauses match on, so a new variant is a change of what the map means. Every crate
//! that names a call or a reply relies on them.
use crate::pair_list::PairList;
use std::alloc::AllocError;

/// A call of the map.
///
/// A key is any `u32`. A value is any `u64` here; the concurrent map takes values below 2^63 alone,
/// which its callers see to.
#[derive(Clone, Copy, Debug, PartialEq, Eq)]
pub enum Call {
    /// Sets the value of a key: the key, then the value.
    Put(u32, u64),
    /// Takes a key away. It may be absent.
    Del(u32),
    /// Asks for the value of a key.
    Get(u32),
    /// Asks for the pairs from the first key to the second, both included. The range is empty where
    /// the first is above the second.
    Scan(u32, u32),
    /// Remembers the map as it stands, for the seat that asks, until that seat takes it back.
    Pin,
    /// Asks for the pairs from the first key to the second, both included, of the map that the seat
    /// has pinned.
    ScanAt(u32, u32),
    /// Forgets the map that the seat has pinned.
    Unpin,
}

/// The answer to a call.
///
/// `NoRows`, `Spent` and `Stopped` are refusals: the call changed nothing. The others are answers
/// of the map.
#[derive(Debug, Drop, PartialEq, Eq)]
pub enum Reply {
    /// The put or delete was made, the map was pinned, or the pin was taken back.
    Done,
    /// The value of the key that a get asked for.
    Value(u64),
    /// The key that a get asked for has no value.
    Absent,
    /// The pairs of a scan's range, of the map as it stands or as it was pinned, by strictly rising
    /// key.
    Pairs(PairList),
    /// Refuses a put or a delete: no row was left for new cells.
    NoRows,
    /// Refuses a put, a delete, a scan or a pin: a counter of the map is at its end.
    Spent,
    /// Refuses a scan, of the map as it stands or as it was pinned: whoever takes its pairs stopped
    /// it.
    Stopped,
    /// The seat that asks to pin the map holds a pin, and goes on holding it.
    Held,
    /// The seat that asks of a pin, or takes one back, holds none.
    NotPinned,
}

impl Clone for Reply {
    ghost use Rattle.std.specs.Prelude.{◌≡◌};

    ghost is_clone = { λ reply copy. copy ≡ reply };

    // Pairs are copied into new memory, for which an `AllocError` may be the answer; the other
    // replies need none.
    fn clone(&self) -> Result<Reply, AllocError> {
        Ok(match self {
            Reply::Done => Reply::Done,
            Reply::Value(value) => Reply::Value(*value),
            Reply::Absent => Reply::Absent,
            Reply::Pairs(pairs) => Reply::Pairs(pairs.clone()?),
            Reply::NoRows => Reply::NoRows,
            Reply::Spent => Reply::Spent,
            Reply::Stopped => Reply::Stopped,
            Reply::Held => Reply::Held,
            Reply::NotPinned => Reply::NotPinned,
        })
    }
}
