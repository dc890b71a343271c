//! The one pass of a map, and calls of a pass, one after the other.
ghost use Rattle.std.specs.Prelude.{◌<◌, ◌≤◌, IfOk};
ghost use Rattle.kw_words.specs.declared.sizes.TheConstants.{MOST_ROWS, VALUE_END};
ghost use Rattle.kw_map.specs.Kiwi.{IsIdle};

use kw_map::{CountGather, Kiwi, Pass, PutEnd, ScanEnd, SumGather};
use kw_model::memory::Memory;
use std::alloc::Global;
use std::sync::Wait;

/// A map of so many rows, and its one pass.
pub(crate) fn open_one(alloc: Global, rows: u32) -> Result<(Kiwi, Pass), Memory>
    requires some { 1 ≤ rows }
    requires rows { rows ≤ MOST_ROWS }
    ensures { IfOk result (λ made. IsIdle made.0 made.1) }
{
    let (kiwi, mut passes) = Kiwi::open(alloc, rows, 1)?;
    let Some(pass) = passes.pop() else {
        unreachable!()
    };
    Ok((kiwi, pass))
}

/// Puts this value for each key from `from` to below `end`, up to the first refusal.
pub(crate) fn put_each<R: Wait>(
    rt: &R,
    kiwi: &Kiwi,
    pass: &mut Pass,
    from: u32,
    end: u32,
    value: u64,
) -> Result<(), PutEnd>
    requires idle { IsIdle kiwi.now pass.old }
    requires value { value < VALUE_END }
    ensures { IsIdle kiwi.now pass.new }
{
    for key in from..end {
        kiwi.put(rt, pass, key, value)?;
    }
    Ok(())
}

/// The sum of the values of a range.
pub(crate) fn sum_of(kiwi: &Kiwi, pass: &mut Pass, from: u32, upto: u32) -> Result<u128, ScanEnd>
    requires { IsIdle kiwi.now pass.old }
    ensures { IsIdle kiwi.now pass.new }
{
    let mut sum = SumGather::new();
    kiwi.scan(pass, from, upto, &mut sum)?;
    Ok(sum.total())
}

/// How many keys of a range have a value.
pub(crate) fn count_of(kiwi: &Kiwi, pass: &mut Pass, from: u32, upto: u32) -> Result<u64, ScanEnd>
    requires { IsIdle kiwi.now pass.old }
    ensures { IsIdle kiwi.now pass.new }
{
    let mut count = CountGather::new();
    kiwi.scan(pass, from, upto, &mut count)?;
    Ok(count.total())
}
