//! Four threads put readings into one map while a fifth adds up what it sees of them.
//!
//! The whole program stands on `kw_map` alone. Each thread has a pass of its own. `IsIdle` says of
//! a pass that it is one of this map and makes no call: `open` gives such passes, and every call
//! asks for one and leaves it so. Copy it to begin a program of your own.
#![tactic(auto)]

ghost use Rattle.kw_map.specs.Kiwi.{IsIdle};

use kw_map::{Kiwi, Pass, PutEnd, SumGather};
use std::sync::Wait;
use std::{io, thread};

/// The rows of the map.
const ROWS: u32 = 64;

/// How many threads put readings.
const PUTTING: u32 = 4;

/// How many readings each of them puts, each under a key of its own.
const READINGS: u32 = 12;

/// The value of each reading.
const READING: u64 = 10;

fn main(rt: HostRuntime) -> io::Result<()> {
    let (kiwi, passes) = Kiwi::open(rt.alloc(), ROWS, PUTTING + 1).map_err(no_memory)?;
    let job = &|pass: Pass|
        requires { IsIdle kiwi pass }
    { work(&rt, &kiwi, pass) };
    for told in thread::map_vec(&rt, passes, job).map_err(no_memory)? {
        println!(rt; "{told}")?;
    }
    Ok(())
}

/// Want of memory, as the program's own error.
fn no_memory<E: Drop>(_error: E) -> io::Error {
    io::Error::from(io::ErrorKind::OutOfMemory)
}

/// Puts this thread's readings, or sums those that are there, and tells how that went.
fn work<R: Wait>(rt: &R, kiwi: &Kiwi, pass: Pass) -> &'static str
    requires { IsIdle kiwi.now pass }
{
    let mut pass = pass;
    if pass.number() < PUTTING {
        return match put_readings(rt, kiwi, &mut pass) {
            Ok(()) => "a thread put its readings",
            Err(PutEnd::NoRows | PutEnd::Spent) => "a put was refused",
        };
    }
    let mut sum = SumGather::new();
    let most = u128::from(READING) * u128::from(READINGS) * u128::from(PUTTING);
    match kiwi.scan(&mut pass, 0, u32::MAX, &mut sum) {
        Ok(()) if sum.total() <= most => "a sum meanwhile was at most that of all",
        Ok(()) => "a sum was greater than that of all",
        Err(_) => "a sum was refused",
    }
}

/// Puts this thread's readings, up to the first refusal.
fn put_readings<R: Wait>(rt: &R, kiwi: &Kiwi, pass: &mut Pass) -> Result<(), PutEnd>
    requires { IsIdle kiwi.now pass.old }
    ensures { IsIdle kiwi.now pass.new }
{
    let first = pass.number().saturating_mul(READINGS);
    for key in first..first.saturating_add(READINGS) {
        kiwi.put(rt, pass, key, READING)?;
    }
    Ok(())
}
