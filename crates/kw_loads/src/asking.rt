//! Many calls of one kind, one after the other.
ghost use Rattle.std.specs.Prelude.{All};
ghost use Rattle.kw_map.specs.Kiwi.{IsIdle};

use crate::load::{Load, even_key};
use kw_map::Pass;
use kw_map::gather_numbers::SumGather;
use kw_map::kiwi::Kiwi;
use std::alloc::AllocError;
use std::sync::Wait;
use std::thread;
use std::thread::Threads;

/// What is read.
#[derive(Clone, Copy, Debug, PartialEq, Eq)]
pub enum Reading {
    /// Gets, of one cell's key after another's.
    Gets,
    /// Scans of all keys of the row.
    Scans,
}

/// So many calls that read a row of this load.
#[derive(Clone, Copy, Debug, PartialEq, Eq)]
pub struct Task {
    /// What the row holds.
    pub load: Load,
    /// What is read.
    pub reading: Reading,
    /// How many calls are made.
    pub calls: u32,
}

/// Has the row of an empty map built, where the load is one of a built row: even keys are put until
/// the row is full and is split, evenly.
pub fn build_row<R: Wait>(rt: &R, kiwi: &Kiwi, pass: Pass, load: Load) -> Pass
    requires { IsIdle kiwi.now pass }
    ensures { IsIdle kiwi.now result }
{
    let mut pass = pass;
    for number in 0..load.split_keys() {
        let _ = kiwi.put(rt, &mut pass, even_key(number), 1);
    }
    pass
}

/// Puts a value for each cell of the row with which it was not built.
pub fn put_cells<R: Wait>(rt: &R, kiwi: &Kiwi, pass: Pass, load: Load) -> Pass
    requires { IsIdle kiwi.now pass }
    ensures { IsIdle kiwi.now result }
{
    let mut pass = pass;
    for number in load.built()..load.cells {
        // A put may be refused; the call is made all the same.
        let _ = kiwi.put(rt, &mut pass, load.keys.of_cell(number), 1);
    }
    pass
}

/// Makes the calls with each pass, in a thread of its own; with one pass in this thread.
pub fn read_by_each<T: Threads + Sync>(
    threads: &T,
    kiwi: &Kiwi,
    passes: Vec<Pass>,
    task: Task,
) -> Result<Vec<Pass>, AllocError>
    requires { All (IsIdle kiwi.now) passes.items }
{
    thread::map_vec(
        threads,
        passes,
        &|pass: Pass|
            requires { IsIdle kiwi.now pass }
        { read(kiwi, pass, task) },
    )
}

/// Makes the calls.
fn read(kiwi: &Kiwi, pass: Pass, task: Task) -> Pass
    requires { IsIdle kiwi.now pass }
    ensures { IsIdle kiwi.now result }
{
    match task.reading {
        Reading::Gets => get_keys(kiwi, pass, task.load, task.calls),
        Reading::Scans => scan_keys(kiwi, pass, task.load, task.calls),
    }
}

// So many gets, of one cell's key after another's.
fn get_keys(kiwi: &Kiwi, pass: Pass, load: Load, calls: u32) -> Pass
    requires { IsIdle kiwi.now pass }
    ensures { IsIdle kiwi.now result }
{
    let mut pass = pass;
    for call in 0..calls {
        kiwi.get(&mut pass, load.key_of_call(call));
    }
    pass
}

// So many scans of all keys of the row.
fn scan_keys(kiwi: &Kiwi, pass: Pass, load: Load, calls: u32) -> Pass
    requires { IsIdle kiwi.now pass }
    ensures { IsIdle kiwi.now result }
{
    let mut pass = pass;
    for _ in 0..calls {
        let _ = kiwi.scan(&mut pass, 0, load.greatest_key(), &mut SumGather::new());
    }
    pass
}
