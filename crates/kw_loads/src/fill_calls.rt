//! Puts into a map of many rows, until no row is left.
ghost use Rattle.kw_map.specs.Kiwi.{IsIdle};

use crate::map_load::Order;
use kw_map::Pass;
use kw_map::kiwi::Kiwi;
use std::sync::Wait;

/// How far a map is filled.
#[derive(Clone, Copy, Debug, PartialEq, Eq)]
pub struct Filled {
    /// How many keys were put, each with a value.
    pub keys: u32,
    /// Whether the next one was refused. Nothing is put then any more.
    pub refused: bool,
}

/// Puts on until so many keys are in, or one is refused.
pub fn put_upto<R: Wait>(
    rt: &R,
    kiwi: &Kiwi,
    pass: &mut Pass,
    order: Order,
    filled: Filled,
    keys: u32,
) -> Filled
    requires { IsIdle kiwi.now pass.old }
    ensures { IsIdle kiwi.now pass.new }
{
    if filled.refused {
        return filled;
    }
    for number in filled.keys..keys {
        if kiwi.put(rt, pass, order.key(number), 1).is_err() {
            return Filled {
                keys: number,
                refused: true,
            };
        }
    }
    Filled {
        keys: filled.keys.max(keys),
        refused: false,
    }
}
