//! Puts and gets of keys in a scattered order, by threads that share one map of many rows.
ghost use Rattle.std.specs.Prelude.{All, IfOk};
ghost use Rattle.kw_map.specs.Kiwi.{IsIdle};

use crate::map_load::{KEYS, scattered};
use kw_map::Pass;
use kw_map::kiwi::Kiwi;
use std::alloc::AllocError;
use std::sync::Wait;
use std::sync::atomic::{AtomicBool, Ordering};
use std::thread;
use std::thread::Threads;

/// What is asked.
#[derive(Clone, Copy, Debug, PartialEq, Eq)]
pub enum Kind {
    /// Puts alone.
    Puts,
    /// Gets alone.
    Gets,
    /// A put and a get in turn.
    Mixed,
}

impl Kind {
    // Whether the call with this number puts. Of mixed calls every second one does, and in the next
    // round of all keys the others.
    fn is_put(self, number: u32) -> bool {
        match self {
            Kind::Puts => true,
            Kind::Gets => false,
            Kind::Mixed => (number ^ (number / KEYS)) % 2 == 0,
        }
    }
}

/// Puts a value for each key below `KEYS`.
pub fn put_keys<R: Wait>(rt: &R, kiwi: &Kiwi, pass: Pass) -> Pass
    requires { IsIdle kiwi.now pass }
    ensures { IsIdle kiwi.now result }
{
    call_from(rt, kiwi, pass, Kind::Puts, 0, KEYS)
}

/// Makes so many calls with each pass, in a thread of its own; with one pass in this thread. Each
/// thread has a part of the scattered order of its own.
pub fn call_by_each<T: Threads + Wait + Sync>(
    threads: &T,
    kiwi: &Kiwi,
    passes: Vec<Pass>,
    kind: Kind,
    calls: u32,
) -> Result<Vec<Pass>, AllocError>
    requires { All (IsIdle kiwi.now) passes.items }
    ensures { IfOk result (λ passes. All (IsIdle kiwi.now) passes.items) }
{
    thread::map_vec(
        threads,
        passes,
        &|pass: Pass|
            requires { IsIdle kiwi.now pass }
        { call_part(threads, kiwi, pass, kind, calls) },
    )
}

// Makes the calls of this pass's part.
fn call_part<R: Wait>(rt: &R, kiwi: &Kiwi, pass: Pass, kind: Kind, calls: u32) -> Pass
    requires { IsIdle kiwi.now pass }
    ensures { IsIdle kiwi.now result }
{
    let first = pass.number().wrapping_mul(calls);
    call_from(rt, kiwi, pass, kind, first, calls)
}

// Makes so many calls, for the keys from this number on.
fn call_from<R: Wait>(rt: &R, kiwi: &Kiwi, pass: Pass, kind: Kind, first: u32, calls: u32) -> Pass
    requires { IsIdle kiwi.now pass }
    ensures { IsIdle kiwi.now result }
{
    let mut pass = pass;
    for call in 0..calls {
        let number = first.wrapping_add(call);
        let key = scattered(number);
        if kind.is_put(number) {
            // A put may be refused; the call is made all the same.
            let _ = kiwi.put(rt, &mut pass, key, u64::from(call));
        } else {
            kiwi.get(&mut pass, key);
        }
    }
    pass
}

/// Puts with each pass, in a thread of its own, until this is over, and tells how many puts each
/// thread made.
pub fn put_by_each<T: Threads + Wait + Sync>(
    threads: &T,
    kiwi: &Kiwi,
    passes: Vec<Pass>,
    over: &AtomicBool,
) -> Result<Vec<u64>, AllocError>
    requires { All (IsIdle kiwi.now) passes.items }
{
    thread::map_vec(
        threads,
        passes,
        &|pass: Pass|
            requires { IsIdle kiwi.now pass }
        { put_until(threads, kiwi, pass, over) },
    )
}

// Puts until this is over, and counts the puts. Each pass begins elsewhere in the scattered order.
fn put_until<R: Wait>(rt: &R, kiwi: &Kiwi, pass: Pass, over: &AtomicBool) -> u64
    requires { IsIdle kiwi.now pass }
{
    let mut pass = pass;
    let mut number = pass.number().wrapping_mul(KEYS / 3);
    let mut puts: u64 = 0;
    for _ in 0..u64::MAX {
        if over.load(Ordering::SeqCst) {
            break;
        }
        let _ = kiwi.put(rt, &mut pass, scattered(number), puts / 2);
        number = number.wrapping_add(1);
        puts = puts.wrapping_add(1);
    }
    puts
}
