//! Sums of many keys on a map of many rows, alone and while other threads put.
ghost use Rattle.std.specs.Prelude.{All};
ghost use Rattle.kw_map.specs.Kiwi.{IsIdle};

use crate::map_calls::put_by_each;
use crate::map_load::{SUMMED, sum_start};
use kw_map::Pass;
use kw_map::gather_numbers::SumGather;
use kw_map::kiwi::Kiwi;
use std::alloc::AllocError;
use std::sync::Wait;
use std::sync::atomic::{AtomicBool, Ordering};
use std::thread::{Threads, join};

/// Makes so many sums while a thread for each other pass puts, and tells how many puts each of
/// these made.
pub fn sum_beside<T: Threads + Wait + Sync>(
    threads: &T,
    kiwi: &Kiwi,
    summing: Pass,
    putting: Vec<Pass>,
    calls: u32,
) -> Result<Vec<u64>, AllocError>
    requires sums { IsIdle kiwi.now summing }
    requires puts { All (IsIdle kiwi.now) putting.items }
{
    let over = AtomicBool::new(false);
    let (_, counts) = join(
        threads,
        || {
            let summed = sum_keys(kiwi, summing, calls);
            over.store(true, Ordering::SeqCst);
            summed
        },
        ||
            requires { All (IsIdle kiwi.now) putting.items }
        { put_by_each(threads, kiwi, putting, &over) },
    );
    counts
}

/// Makes so many sums, which begin in a scattered order.
pub fn sum_keys(kiwi: &Kiwi, pass: Pass, calls: u32) -> Pass
    requires { IsIdle kiwi.now pass }
    ensures { IsIdle kiwi.now result }
{
    let mut pass = pass;
    for call in 0..calls {
        let from = sum_start(call);
        let _ = kiwi.scan(&mut pass, from, from + (SUMMED - 1), &mut SumGather::new());
    }
    pass
}
