//! What a call is about to answer.
//!
//! A seat that ends its call keeps the answer in its activity. The pairs of a scan are no part of
//! it: they stay where the seat keeps them until the call is over, so that an answer, and an
//! activity with it, is a few words that are copied.
ghost use Rattle.std.specs.Prelude.{◌≡◌};
ghost use Rattle.kw_world.specs.Answers.{answer_found, reply_of};

use kw_model::call::Reply;
use kw_model::pair_list::PairList;

/// What a call is about to answer: its reply, but for the pairs of a scan.
#[derive(Clone, Copy, Debug, PartialEq, Eq)]
pub enum Answer {
    /// The put or delete was made, the map was pinned, or the pin was taken back.
    Done,
    /// The value of the key that a get asked for.
    Value(u64),
    /// The key that a get asked for has no value.
    Absent,
    /// The pairs that the scan has, of the map as it stands or as it was pinned.
    Pairs,
    /// Refuses a put or a delete: no row was left for new cells.
    NoRows,
    /// Refuses a scan or a pin: the clock is at its end.
    Spent,
    /// Refuses a scan: whoever takes its pairs stopped it.
    Stopped,
    /// The seat that asks to pin the map holds a pin.
    Held,
    /// The seat that asks of a pin, or takes one back, holds none.
    NotPinned,
}

impl Answer {
    /// What a get answers: the value of its key, if it has one.
    pub fn found(value: Option<u64>) -> Answer
        ensures { result ≡ answer_found value }
    {
        match value {
            Some(value) => Answer::Value(value),
            None => Answer::Absent,
        }
    }

    /// The reply, where these are the pairs that the call has. An answer other than `Pairs` drops
    /// them.
    pub fn reply(self, pairs: PairList) -> Reply
        ensures { result ≡ reply_of self pairs }
    {
        match self {
            Answer::Done => Reply::Done,
            Answer::Value(value) => Reply::Value(value),
            Answer::Absent => Reply::Absent,
            Answer::Pairs => Reply::Pairs(pairs),
            Answer::NoRows => Reply::NoRows,
            Answer::Spent => Reply::Spent,
            Answer::Stopped => Reply::Stopped,
            Answer::Held => Reply::Held,
            Answer::NotPinned => Reply::NotPinned,
        }
    }
}
