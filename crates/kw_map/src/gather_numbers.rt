//! Gatherers that keep one number of the pairs they take.
//!
//! Each keeps the last key beside its number, and stands for just the lists by rising key, with
//! values below `VALUE_END`, that have both. So the number is that of each list for which the
//! gatherer stands, and in particular of the pairs taken since it was new. None of them takes
//! memory, and none ever stops: its count of stops is always 0. That no number passes the end of
//! its type rests on the last key: there are no more pairs than keys up to it.
ghost use Rattle.std.specs.Prelude.{◌≡◌, ℕ, List, [], None, sum, length};
ghost use Rattle.kw_model.specs.Values.{values, least, greatest};
ghost use Rattle.kw_map.specs.GatherNumbers.{Sums, Counts, HaveLeast, HaveGreatest};

use crate::gather::{Gather, Stop};
use std::marker::Model;

/// Adds up the values that it takes.
///
/// Contracts see its last key and its sum.
#[derive(Debug, Drop)]
pub struct SumGather {
    last: Option<u32>,
    total: u128,
}

impl Model for SumGather {
    ghost use Rattle.std.specs.Prelude.{ℕ, ◌≤◌, ◌*◌};
    ghost use Rattle.kw_words.specs.declared.sizes.TheConstants.{VALUE_END};
    ghost use Rattle.kw_map.specs.GatherNumbers.{Tally, keys_upto};

    ghost Value = { Tally ℕ };

    ghost view = { λ s. record { last = s.last; number = s.total } };

    ghost invariant = { λ s. s.total ≤ keys_upto s.last * VALUE_END };
}

impl SumGather {
    /// A gatherer that has taken no pair.
    pub fn new() -> SumGather
        ensures none { result ≡ record { last = None; number = 0 } }
        ensures stands { Sums result [] }
    {
        SumGather {
            last: None,
            total: 0,
        }
    }

    /// The sum of the values of the pairs: below 2^95, since there are at most 2^32 keys.
    pub fn total(&self) -> u128
        ensures kept { result ≡ self.now.number }
        ensures sum { (list : List (ℕ × ℕ)) → Sums self.now list → result ≡ sum (values list) }
    {
        self.total
    }
}

impl Gather for SumGather {
    ghost last = { λ s. s.last };

    ghost stands = { Sums };

    ghost stops = { λ s. 0 };

    fn take(&mut self, key: u32, value: u64) -> Result<(), Stop> {
        self.last = Some(key);
        self.total += u128::from(value);
        Ok(())
    }
}

/// Counts the pairs that it takes.
///
/// Contracts see its last key and its count.
#[derive(Debug, Drop)]
pub struct CountGather {
    last: Option<u32>,
    total: u64,
}

impl Model for CountGather {
    ghost use Rattle.std.specs.Prelude.{ℕ, ◌≤◌};
    ghost use Rattle.kw_map.specs.GatherNumbers.{Tally, keys_upto};

    ghost Value = { Tally ℕ };

    ghost view = { λ s. record { last = s.last; number = s.total } };

    ghost invariant = { λ s. s.total ≤ keys_upto s.last };
}

impl CountGather {
    /// A gatherer that has taken no pair.
    pub fn new() -> CountGather
        ensures none { result ≡ record { last = None; number = 0 } }
        ensures stands { Counts result [] }
    {
        CountGather {
            last: None,
            total: 0,
        }
    }

    /// The number of the pairs: at most 2^32, since there are no more keys.
    pub fn total(&self) -> u64
        ensures kept { result ≡ self.now.number }
        ensures count { (list : List (ℕ × ℕ)) → Counts self.now list → result ≡ length list }
    {
        self.total
    }
}

impl Gather for CountGather {
    ghost last = { λ s. s.last };

    ghost stands = { Counts };

    ghost stops = { λ s. 0 };

    fn take(&mut self, key: u32, _value: u64) -> Result<(), Stop> {
        self.last = Some(key);
        self.total += 1;
        Ok(())
    }
}

/// Keeps the least of the values that it takes.
///
/// Contracts see its last key and that value, or none.
#[derive(Debug, Drop)]
pub struct LeastGather {
    last: Option<u32>,
    least: Option<u64>,
}

impl Model for LeastGather {
    ghost use Rattle.std.specs.Prelude.{ℕ, Option};
    ghost use Rattle.kw_map.specs.GatherNumbers.{Tally};

    ghost Value = { Tally (Option ℕ) };

    ghost view = { λ s. record { last = s.last; number = s.least } };
}

impl LeastGather {
    /// A gatherer that has taken no pair.
    pub fn new() -> LeastGather
        ensures none { result ≡ record { last = None; number = None } }
        ensures stands { HaveLeast result [] }
    {
        LeastGather {
            last: None,
            least: None,
        }
    }

    /// The least value of the pairs, or None where there are none.
    pub fn least(&self) -> Option<u64>
        ensures kept { result ≡ self.now.number }
        ensures least { (list : List (ℕ × ℕ)) → HaveLeast self.now list →
            result ≡ least (values list) }
    {
        self.least
    }
}

impl Gather for LeastGather {
    ghost last = { λ s. s.last };

    ghost stands = { HaveLeast };

    ghost stops = { λ s. 0 };

    fn take(&mut self, key: u32, value: u64) -> Result<(), Stop> {
        self.last = Some(key);
        self.least = Some(self.least.map_or(value, |least| least.min(value)));
        Ok(())
    }
}

/// Keeps the greatest of the values that it takes.
///
/// Contracts see its last key and that value, or none.
#[derive(Debug, Drop)]
pub struct GreatestGather {
    last: Option<u32>,
    greatest: Option<u64>,
}

impl Model for GreatestGather {
    ghost use Rattle.std.specs.Prelude.{ℕ, Option};
    ghost use Rattle.kw_map.specs.GatherNumbers.{Tally};

    ghost Value = { Tally (Option ℕ) };

    ghost view = { λ s. record { last = s.last; number = s.greatest } };
}

impl GreatestGather {
    /// A gatherer that has taken no pair.
    pub fn new() -> GreatestGather
        ensures none { result ≡ record { last = None; number = None } }
        ensures stands { HaveGreatest result [] }
    {
        GreatestGather {
            last: None,
            greatest: None,
        }
    }

    /// The greatest value of the pairs, or None where there are none.
    pub fn greatest(&self) -> Option<u64>
        ensures kept { result ≡ self.now.number }
        ensures greatest { (list : List (ℕ × ℕ)) → HaveGreatest self.now list →
            result ≡ greatest (values list) }
    {
        self.greatest
    }
}

impl Gather for GreatestGather {
    ghost last = { λ s. s.last };

    ghost stands = { HaveGreatest };

    ghost stops = { λ s. 0 };

    fn take(&mut self, key: u32, value: u64) -> Result<(), Stop> {
        self.last = Some(key);
        self.greatest = Some(self.greatest.map_or(value, |greatest| greatest.max(value)));
        Ok(())
    }
}
