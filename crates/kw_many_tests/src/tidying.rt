//! Rows whose keys were deleted come back: keys that come and go in a map of few rows.
ghost use Rattle.kw_map.specs.Kiwi.{IsIdle};

use crate::passes::{count_of, open_one, sum_of};
use kw_map::{Kiwi, Pass, PutEnd};
use kw_words::sizes::BUILT_COUNT;
use std::sync::Wait;
use std::test::Fail;

/// How many keys the window has: more than three rows have when they are built, and fewer than
/// four.
const WINDOW: u32 = 3 * BUILT_COUNT + BUILT_COUNT / 8;

/// How many rows may be in use: twice as many as have room for the window when they are built. A
/// row of few keys is left as it is until a delete comes to a cell at which it asks.
const FEW_ROWS: u32 = 8;

/// How many rows the map has.
const ROWS: u32 = 64;

/// After so many moves the rows in use are counted.
const EARLY: u32 = 20 * BUILT_COUNT;

/// How many moves there are: each `BUILT_COUNT` rising keys take a row, so that they would take
/// three times as many as there are, where none comes back.
const MOVES: u32 = 3 * ROWS * BUILT_COUNT;

/// The least value that is there at the end.
const LEAST: u32 = MOVES - WINDOW;

/// The sum of those from `LEAST` to below `MOVES`.
const SUM: u32 = WINDOW * (LEAST + MOVES - 1) / 2;

/// The window moves on by a key at a time: so many keys above each of these one is put, with this
/// as its value, and this one is deleted; up to the first refusal.
fn move_window<R: Wait>(
    rt: &R,
    kiwi: &Kiwi,
    pass: &mut Pass,
    from: u32,
    end: u32,
) -> Result<(), PutEnd>
    requires { IsIdle kiwi.now pass.old }
    ensures { IsIdle kiwi.now pass.new }
{
    for key in from..end {
        kiwi.put(rt, pass, key.saturating_add(WINDOW), u64::from(key))?;
        kiwi.delete(rt, pass, key)?;
    }
    Ok(())
}

// At the end the keys from `MOVES` on have the values from `LEAST` to below `MOVES`.
#[test]
fn a_window_of_keys_moves_on_in_few_rows(rt: HostRuntime) -> Result<(), Fail> {
    let (kiwi, mut pass) = open_one(rt.alloc(), ROWS)?;
    let begun = move_window(&rt, &kiwi, &mut pass, 0, EARLY);
    let early = kiwi.rows_in_use();
    let ended = move_window(&rt, &kiwi, &mut pass, EARLY, MOVES);
    assert_eq!(rt; (begun, ended), (Ok(()), Ok(())));
    assert!(rt; early <= FEW_ROWS);
    assert!(rt; kiwi.rows_in_use() <= FEW_ROWS);
    let found = [kiwi.get(&mut pass, MOVES - 1), kiwi.get(&mut pass, MOVES)];
    let all = sum_of(&kiwi, &mut pass, 0, 4294967295);
    let keys = count_of(&kiwi, &mut pass, 0, 4294967295);
    assert_eq!(rt;
        (found, all, keys),
        (
            [None, Some(u64::from(LEAST))],
            Ok(u128::from(SUM)),
            Ok(u64::from(WINDOW))
        )
    );
    Ok(())
}
