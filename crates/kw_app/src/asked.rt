//! What `rollup` asks the concurrent map: the updates of its lines, and one scan of all keys.
//!
//! An update becomes the line of a `replay`, and a table ends a block, as a wait does. The scan
//! stands in a block of its own behind the first table, so nothing runs beside it; below it each
//! table is kept up to date by the updates alone. A range is dealt by the number of its line, so
//! waits before the scan make its number one of the first worker's.
ghost use Rattle.std.specs.Prelude.{◌≡◌, ◌++◌, ◌<◌, ◌≤◌, ◌^◌, IfOk, OnOk, length, map, replicate};
ghost use Rattle.kw_app.specs.Asked.{asked_items, item_of, scan_items, updates_above};

use kw_line::item::{Form, Item};
use kw_model::call::Call;
use kw_model::memory::Memory;
use kw_rollup::item::RollItem;
use std::alloc::Global;

/// The items that the workers are asked, of these lines.
pub fn asked_items(alloc: Global, items: &[RollItem], workers: u32) -> Result<Vec<Item>, Memory>
    requires some { 0 < workers }
    requires few { length items.now < 2 ^ 32 }
    ensures { IfOk result (λ asked. asked.items ≡ asked_items workers items.now) }
{
    let first = updates_above(items);
    let mut asked = Vec::with_capacity(alloc, items.len() + workers as usize + 1)?;
    push_items(&mut asked, &items[..first])?;
    if first == items.len() {
        return Ok(asked);
    }
    asked.push(item_of(items[first]))?;
    push_scan(&mut asked, workers, first + 1)?;
    push_items(&mut asked, &items[first + 1..])?;
    Ok(asked)
}

/// How many updates stand above the first table.
pub(crate) fn updates_above(items: &[RollItem]) -> usize
    ensures above { result ≡ updates_above items.now }
    ensures within { result ≤ length items.now }
{
    let mut count = 0;
    for item in items {
        if let RollItem::Table = *item {
            return count;
        }
        count += 1;
    }
    count
}

/// Adds what these lines ask at the end.
fn push_items(asked: &mut Vec<Item>, items: &[RollItem]) -> Result<(), Memory>
    ensures { OnOk result (asked.new.items ≡ asked.old.items ++ map item_of items.now) }
{
    for item in items {
        asked.push(item_of(*item))?;
    }
    Ok(())
}

/// What a line asks.
fn item_of(item: RollItem) -> Item
    ensures { result ≡ item_of item }
{
    match item {
        RollItem::Put(key, value) => Item::Call(Call::Put(key, value), Form::Put),
        RollItem::Del(key) => Item::Call(Call::Del(key), Form::Del),
        RollItem::Table => Item::Wait,
    }
}

/// Adds the scan at the end, behind so many items.
fn push_scan(asked: &mut Vec<Item>, workers: u32, items: usize) -> Result<(), Memory>
    requires { 0 < workers }
    ensures { OnOk result (asked.new.items ≡ asked.old.items ++ scan_items workers items) }
{
    let workers = workers as usize;
    push_waits(asked, workers - 1 - items % workers)?;
    asked.push(Item::Call(Call::Scan(0, u32::MAX), Form::List))?;
    Ok(asked.push(Item::Wait)?)
}

/// Adds so many waits at the end.
fn push_waits(asked: &mut Vec<Item>, count: usize) -> Result<(), Memory>
    ensures { OnOk result (asked.new.items ≡ asked.old.items ++ replicate count Item.Wait) }
{
    for _ in 0..count {
        asked.push(Item::Wait)?;
    }
    Ok(())
}
