//! Threads share a map, each with a pass of its own.
ghost use Rattle.std.specs.Prelude.{◌<◌, All, IfOk};
ghost use Rattle.kw_words.specs.declared.sizes.TheConstants.{VALUE_END};
ghost use Rattle.kw_map.specs.Kiwi.{IsIdle};

use crate::passes::{count_of, put_each, sum_of};
use kw_map::{Kiwi, Pass, PutEnd, SumGather};
use kw_model::memory::Memory;
use kw_words::sizes::{BUILT_COUNT, SEAT_COUNT};
use std::alloc::Global;
use std::sync::Wait;
use std::sync::atomic::{AtomicBool, Ordering};
use std::test::Fail;
use std::thread;
use std::thread::Threads;

/// How often a thread looks for the flag before it gives up.
const MOST_LOOKS: u32 = 1_000_000;

/// A map of 64 rows, and its two passes.
fn open_two(alloc: Global) -> Result<(Kiwi, Pass, Pass), Memory>
    ensures { IfOk result (λ made. IsIdle made.0 made.1 × IsIdle made.0 made.2) }
{
    let (kiwi, mut passes) = Kiwi::open(alloc, 64, 2)?;
    let (Some(second), Some(first)) = (passes.pop(), passes.pop()) else {
        unreachable!()
    };
    Ok((kiwi, first, second))
}

/// Puts the keys 0 to 29, and sets the flag after the first put.
fn put_low_keys<R: Wait>(
    rt: &R,
    kiwi: &Kiwi,
    pass: Pass,
    flag: &AtomicBool,
) -> (Pass, Result<(), PutEnd>)
    requires { IsIdle kiwi.now pass }
    ensures { IsIdle kiwi.now result.0 }
{
    let mut pass = pass;
    let first = put_each(rt, kiwi, &mut pass, 0, 1, 1);
    flag.store(true, Ordering::SeqCst);
    let others = put_each(rt, kiwi, &mut pass, 1, 30, 1);
    (pass, first.and(others))
}

/// Puts the keys 100 to 129, waits for the flag, and gets key 0.
fn put_high_keys<R: Wait>(
    rt: &R,
    kiwi: &Kiwi,
    pass: Pass,
    flag: &AtomicBool,
) -> (Pass, Result<(), PutEnd>, Option<u64>)
    requires { IsIdle kiwi.now pass }
    ensures { IsIdle kiwi.now result.0 }
{
    let mut pass = pass;
    let puts = put_each(rt, kiwi, &mut pass, 100, 130, 2);
    let found = if is_set_in_time(flag) {
        kiwi.get(&mut pass, 0)
    } else {
        None
    };
    (pass, puts, found)
}

/// Waits for the flag, but for no more than so many looks.
fn is_set_in_time(flag: &AtomicBool) -> bool {
    for _ in 0..MOST_LOOKS {
        if flag.load(Ordering::SeqCst) {
            return true;
        }
        thread::yield_now();
    }
    false
}

#[test]
fn what_two_threads_put_is_one_map(rt: HostRuntime) -> Result<(), Fail> {
    let (kiwi, first, second) = open_two(rt.alloc())?;
    let flag = AtomicBool::new(false);
    let ((mut first, low), (mut second, high, found)) = thread::join(
        &rt,
        || put_low_keys(&rt, &kiwi, first, &flag),
        || put_high_keys(&rt, &kiwi, second, &flag),
    );
    kiwi.meet(&mut first, &mut second);
    let sum = sum_of(&kiwi, &mut first, 0, 200);
    assert_eq!(rt; (low, high, found, sum), (Ok(()), Ok(()), Some(1), Ok(90)));
    Ok(())
}

/// How often all keys are summed.
const SUMS: u32 = 50;

/// How many keys each of two threads puts: they split some thirty rows.
const EACH: u32 = 32 * BUILT_COUNT;

/// The first key of the second thread.
const SECOND: u32 = 2 * EACH;

/// A map of 16,384 rows, and its three passes.
fn open_three(alloc: Global) -> Result<(Kiwi, Pass, Pass, Pass), Memory>
    ensures { IfOk result (λ made. IsIdle made.0 made.1 × IsIdle made.0 made.2 × IsIdle made.0 made.3) }
{
    let (kiwi, mut passes) = Kiwi::open(alloc, 16_384, 3)?;
    let (Some(third), Some(second), Some(first)) = (passes.pop(), passes.pop(), passes.pop()) else {
        unreachable!()
    };
    Ok((kiwi, first, second, third))
}

/// Sums all keys so often, and says whether a sum was refused or less than the one before.
fn sum_often(kiwi: &Kiwi, pass: Pass) -> (Pass, bool)
    requires { IsIdle kiwi.now pass }
    ensures { IsIdle kiwi.now result.0 }
{
    let mut pass = pass;
    let mut last: u128 = 0;
    let mut fell = false;
    for _ in 0..SUMS {
        let mut sum = SumGather::new();
        let told = kiwi.scan(&mut pass, 0, SECOND + EACH, &mut sum);
        fell = fell || told.is_err() || sum.total() < last;
        last = sum.total();
    }
    (pass, fell)
}

/// Puts this value for `EACH` keys from this one on.
fn put_part<R: Wait>(
    rt: &R,
    kiwi: &Kiwi,
    pass: Pass,
    from: u32,
    value: u64,
) -> (Pass, Result<(), PutEnd>)
    requires idle { IsIdle kiwi.now pass }
    requires value { value < VALUE_END }
    ensures { IsIdle kiwi.now result.0 }
{
    let mut pass = pass;
    let told = put_each(rt, kiwi, &mut pass, from, from.saturating_add(EACH), value);
    (pass, told)
}

/// Two threads put `EACH` keys each. Gives their passes, and whether all was put.
fn put_both<R: Threads + Wait + Sync>(
    rt: &R,
    kiwi: &Kiwi,
    first: Pass,
    second: Pass,
) -> (Pass, Pass, bool)
    requires first { IsIdle kiwi.now first }
    requires second { IsIdle kiwi.now second }
    ensures { IsIdle kiwi.now result.0 × IsIdle kiwi.now result.1 }
{
    let ((first, low), (second, high)) = thread::join(
        rt,
        || put_part(rt, kiwi, first, 0, 1),
        || put_part(rt, kiwi, second, SECOND, 2),
    );
    (first, second, low.is_ok() && high.is_ok())
}

// Rows are split all the time, and no sum misses what an earlier one had.
#[test]
fn sums_never_fall_while_two_put(rt: HostRuntime) -> Result<(), Fail> {
    let (kiwi, first, second, third) = open_three(rt.alloc())?;
    let ((mut third, fell), (mut first, mut second, put)) = thread::join(
        &rt,
        || sum_often(&kiwi, third),
        || put_both(&rt, &kiwi, first, second),
    );
    kiwi.meet(&mut third, &mut first);
    kiwi.meet(&mut third, &mut second);
    let sum = sum_of(&kiwi, &mut third, 0, SECOND + EACH);
    assert_eq!(rt; (put, fell, sum), (true, false, Ok(u128::from(3 * EACH))));
    Ok(())
}

/// How often each thread puts.
const PUTS: u32 = 500;

/// The keys that all threads put.
const KEYS: u32 = 16;

/// A map of 64 rows, with as many passes as there are seats: one that reads, and the others for
/// threads.
fn open_all(alloc: Global) -> Result<(Kiwi, Vec<Pass>, Pass), Memory>
    ensures { IfOk result (λ made. All (IsIdle made.0) made.1.items × IsIdle made.0 made.2) }
{
    let (kiwi, mut passes) = Kiwi::open(alloc, 64, SEAT_COUNT)?;
    let Some(reader) = passes.pop() else {
        unreachable!()
    };
    Ok((kiwi, passes, reader))
}

/// Puts the keys in turn, each time with the number of the put as value.
fn put_in_turn<R: Wait>(rt: &R, kiwi: &Kiwi, pass: Pass) -> Result<(), PutEnd>
    requires { IsIdle kiwi.now pass }
{
    let mut pass = pass;
    for put in 0..PUTS {
        kiwi.put(rt, &mut pass, put % KEYS, u64::from(put))?;
    }
    Ok(())
}

// One row is replaced all the time. Whichever thread was last at a key, it put the same value there
// last.
#[test]
fn all_seats_but_one_put_the_same_keys(rt: HostRuntime) -> Result<(), Fail> {
    let (kiwi, passes, mut reader) = open_all(rt.alloc())?;
    let job = &|pass: Pass|
        requires { IsIdle kiwi pass }
    { put_in_turn(&rt, &kiwi, pass) };
    for told in thread::map_vec(&rt, passes, job)? {
        assert_eq!(rt; told, Ok(()));
    }
    let found = [
        kiwi.get(&mut reader, 0),
        kiwi.get(&mut reader, 3),
        kiwi.get(&mut reader, 4),
        kiwi.get(&mut reader, 15),
    ];
    assert_eq!(rt; found, [Some(496), Some(499), Some(484), Some(495)]);
    let count = count_of(&kiwi, &mut reader, 0, 4294967295);
    let sum = sum_of(&kiwi, &mut reader, 0, 4294967295);
    assert_eq!(rt; (count, sum), (Ok(16), Ok(7864)));
    Ok(())
}
