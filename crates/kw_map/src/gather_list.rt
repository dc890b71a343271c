//! The gatherer that keeps all pairs.
//!
//! It is the one gatherer that takes memory, and so the one that can stop. Contracts see the pairs
//! that it keeps and how often it stopped; it stands for the list of these pairs alone.
ghost use Rattle.std.specs.Prelude.{◌≡◌, []};

use crate::gather::{Gather, Stop};
use kw_model::pair_list::PairList;
use std::alloc::Global;
use std::marker::Model;

/// Keeps the pairs that it takes, in order.
///
/// Contracts see its pairs, and its count of stops, which stands still at 2^64 - 1.
#[derive(Debug, Drop)]
pub struct ListGather {
    pairs: PairList,
    stops: u64,
}

impl Model for ListGather {
    ghost use Rattle.std.specs.Prelude.{◌<◌, ◌^◌};
    ghost use Rattle.kw_map.specs.GatherList.{Listed};

    ghost Value = { Listed };

    ghost view = { λ s. record { pairs = s.pairs; stops = s.stops } };

    ghost invariant = { λ s. s.stops < 2 ^ 64 };
}

impl ListGather {
    ghost use Rattle.kw_map.specs.GatherList.{IsListed};

    /// A gatherer that has taken no pair. Takes no memory; later calls take theirs from this
    /// allocator.
    pub fn new(alloc: Global) -> ListGather
        ensures none { result ≡ record { pairs = []; stops = 0 } }
        ensures stands { IsListed result [] }
    {
        ListGather {
            pairs: PairList::new(alloc),
            stops: 0,
        }
    }

    /// The pairs, in the order in which they were taken. Takes no memory.
    pub fn finish(self) -> PairList
        ensures kept { result ≡ self.pairs }
        ensures stands { IsListed self result }
    {
        self.pairs
    }
}

impl Gather for ListGather {
    ghost use Rattle.std.specs.Prelude.{None};
    ghost use Rattle.kw_map.specs.Gather.{last_key};
    ghost use Rattle.kw_map.specs.GatherList.{IsListed};

    ghost last = { λ s. last_key None s.pairs };

    ghost stands = { IsListed };

    ghost stops = { λ s. s.stops };

    /// Stops only for want of memory, and counts it.
    fn take(&mut self, key: u32, value: u64) -> Result<(), Stop> {
        if self.pairs.push(key, value).is_err() {
            self.stops = self.stops.saturating_add(1);
            return Err(Stop);
        }
        Ok(())
    }
}
