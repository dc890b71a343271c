//! What puts take while a map of many rows fills, until no row is left.
ghost use Rattle.std.specs.Prelude.{◌≤◌};
ghost use Rattle.kw_loads.specs.declared.map_load.TheConstants.{ROWS};
ghost use Rattle.kw_map.specs.Kiwi.{IsIdle};

use crate::timing::opened;
use kw_loads::fill_calls::{Filled, put_upto};
use kw_loads::map_load::{Order, ROWS};
use kw_map::Pass;
use kw_map::kiwi::Kiwi;
use kw_words::sizes::BUILT_COUNT;
use std::alloc::Global;
use std::io;
use std::sync::Wait;
use std::thread::Threads;
use std::time::{Clock, Instant};

/// In which order a map is filled, and how far at most.
#[derive(Clone, Copy)]
pub struct Plan {
    /// In which order the keys come.
    pub order: Order,
    /// How many keys are put if none is refused.
    pub calls: u32,
}

/// The last puts before a map held a number of keys: a quarter of them.
#[derive(Clone, Copy)]
pub struct Stretch {
    /// How many puts they were: none, if the map was never so full.
    pub puts: u32,
    /// What they took, in nanoseconds.
    pub took: u128,
}

/// How long puts took while a map filled.
#[derive(Clone, Copy)]
pub struct FillFigure {
    /// In which order the keys came.
    pub order: Order,
    /// The last puts before 1,024 rows' worth of keys.
    pub few: Stretch,
    /// The last puts before 4,096 rows' worth.
    pub some: Stretch,
    /// The last puts before 16,384 rows' worth.
    pub many: Stretch,
    /// What all puts took, in nanoseconds.
    pub took: u128,
    /// How far the map was filled.
    pub filled: Filled,
}

/// Times puts into an empty map until one is refused, or so many are made.
pub fn time_fill<R: Threads + Wait + Clock + Sync>(
    rt: &R,
    alloc: Global,
    order: Order,
    calls: u32,
) -> io::Result<FillFigure> {
    let (kiwi, _, mut pass) = opened(alloc, ROWS, 0)?;
    let plan = Plan { order, calls };
    let empty = Filled {
        keys: 0,
        refused: false,
    };
    let start = Instant::now(rt)?;
    let (filled, few) = time_stretch(rt, &kiwi, &mut pass, plan, empty, 1_024)?;
    let (filled, some) = time_stretch(rt, &kiwi, &mut pass, plan, filled, 4_096)?;
    let (filled, many) = time_stretch(rt, &kiwi, &mut pass, plan, filled, 16_384)?;
    let filled = put_upto(rt, &kiwi, &mut pass, order, filled, calls);
    Ok(FillFigure {
        order,
        few,
        some,
        many,
        took: start.elapsed(rt)?.as_nanos(),
        filled,
    })
}

// Puts on until so many rows' worth of keys are in, but no more than so many keys, and times the
// last quarter of them.
fn time_stretch<R: Wait + Clock>(
    rt: &R,
    kiwi: &Kiwi,
    pass: &mut Pass,
    plan: Plan,
    filled: Filled,
    rows: u32,
) -> io::Result<(Filled, Stretch)>
    requires idle { IsIdle kiwi.now pass.old }
    requires rows { rows ≤ ROWS }
    ensures { IsIdle kiwi.now pass.new }
{
    let keys = rows * BUILT_COUNT;
    let begun = put_upto(
        rt,
        kiwi,
        pass,
        plan.order,
        filled,
        plan.calls.min(keys - keys / 4),
    );
    let start = Instant::now(rt)?;
    let ended = put_upto(rt, kiwi, pass, plan.order, begun, plan.calls.min(keys));
    let took = start.elapsed(rt)?.as_nanos();
    let puts = ended.keys.saturating_sub(begun.keys);
    Ok((ended, Stretch { puts, took }))
}
