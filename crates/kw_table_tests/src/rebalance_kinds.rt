//! The calls of the kinds of a rebalance, each made in its place.
//!
//! The words that they find are those of a model of the events in another language. A row's state
//! is 2 as a word where it is normal, 3 where it is a leader that has not decided, 11 where it
//! leads alone, 0 where it is free, 1 where seat 0 writes it, and 13 where it is retired with
//! number 1.
use crate::kinds::{ALL, Turn, Who, expect_told};
use kw_words::kind::Kind;
use kw_words::sizes::{CELL_COUNT, CELLS, SEAT_COUNT, SEATS};
use std::test::Fail;

// How many puts fill an empty row.
const ROW: u32 = CELL_COUNT;

// The word of the count of a full row.
const FULL: u64 = CELLS as u64;

// The put of a full row comes to its row, which is a normal one, and begins to rebalance it.
const REBALANCE_BEGINS: [(Kind, u64); 11] = [
    (Kind::StorePass, 0),
    (Kind::LoadHead, 1),
    (Kind::LoadLink, 0),
    (Kind::LoadCount, FULL),
    (Kind::LoadClock, 1),
    (Kind::LoadEpoch, 1),
    (Kind::LoadState, 2),
    (Kind::Engage, 2),
    (Kind::MarkLink, 0),
    (Kind::Decide, 3),
    (Kind::FreezeCount, FULL),
];

// How many events freeze the entries: each is looked at first.
const FREEZING: usize = 2 * SEATS;

// The entries of the seats are idle, and are frozen one after the other.
fn freezes_entries() -> [(Kind, u64); FREEZING] {
    let mut made = [(Kind::LoadPend, 0); FREEZING];
    for seat in 0..SEATS {
        made[2 * seat + 1] = (Kind::FreezePend, 0);
    }
    made
}

// How many events gather the cells of a full row: each has its link, key, version and value.
const GATHERING: u32 = 4 * CELL_COUNT;

// How many events a rebalance makes until it looks for a row: it begins, freezes the entries of the
// seats, looks at their scans, and gathers the cells, behind which the list ends.
const BEFORE_ITS_SEARCH: u32 = 11 + 3 * SEAT_COUNT + GATHERING + 1;

// The stores of a new row of one cell: 4 of its head, one for each entry, 4 of the cell, and of the
// other places the version alone.
const STORES: usize = 4 + SEATS + 4 + (CELLS - 1);

const STORE_COUNT: u32 = STORES as u32;

// Row 0 is led alone, and row 1 is free.
const TAKES_A_ROW: [(Kind, u64); 3] = [
    (Kind::LoadState, 11),
    (Kind::LoadState, 0),
    (Kind::TakeRow, 0),
];

// The new row is written. It takes the place of row 0, which is retired with number 1; then the put
// begins its way anew.
const REPLACES_THE_ROW: [(Kind, u64); 10] = [
    (Kind::LoadHead, 1),
    (Kind::Replace, 1),
    (Kind::Normalise, 1),
    (Kind::Number, 1),
    (Kind::StoreRetired, 0),
    (Kind::ClearPass, 0),
    (Kind::LoadEpoch, 2),
    (Kind::StorePass, 0),
    (Kind::LoadHead, 2),
    (Kind::LoadLink, 0),
];

// The next put that finds its row full finds row 1 full and row 0 retired. Its own epoch is 2, and
// no other seat announces one: it frees row 0 and takes it.
const ASKS_ITS_OWN_PASS: [(Kind, u64); 2] = [(Kind::LoadState, 13), (Kind::LoadPass, 2)];

const USES_A_ROW_AGAIN: [(Kind, u64); 2] = [(Kind::Reclaim, 13), (Kind::TakeRow, 0)];

// Row 0 has then the place of row 1.
const REPLACES_THE_NEXT_ROW: [(Kind, u64); 7] = [
    (Kind::LoadHead, 2),
    (Kind::Replace, 2),
    (Kind::Normalise, 1),
    (Kind::Number, 2),
    (Kind::StoreRetired, 0),
    (Kind::ClearPass, 0),
    (Kind::LoadEpoch, 3),
];

// One pass fills a row, rebalances it, and fills and rebalances the new one. That has the last cell
// of the first row and the put's own, so two puts fewer fill it.
const TWO_REBALANCES: [(Who, Turn); 19] = [
    (Who::First, Turn::Puts(ROW, 7)),
    (Who::First, Turn::Put(7, 1)),
    (Who::First, Turn::Go(11)),
    (Who::First, Turn::Go(2 * SEAT_COUNT)),
    (Who::First, Turn::Go(SEAT_COUNT)),
    (Who::First, Turn::Go(GATHERING)),
    (Who::First, Turn::Go(1)),
    (Who::First, Turn::Go(3)),
    (Who::First, Turn::Go(STORE_COUNT)),
    (Who::First, Turn::Go(10)),
    (Who::First, Turn::Go(ALL)),
    (Who::First, Turn::Puts(ROW - 2, 7)),
    (Who::First, Turn::Put(7, 2)),
    (Who::First, Turn::Go(BEFORE_ITS_SEARCH)),
    (Who::First, Turn::Go(2)),
    (Who::First, Turn::Go(SEAT_COUNT - 1)),
    (Who::First, Turn::Go(2)),
    (Who::First, Turn::Go(STORE_COUNT)),
    (Who::First, Turn::Go(7)),
];

#[test]
fn a_full_row_is_replaced_and_used_again(rt: HostRuntime) -> Result<(), Fail> {
    let freezes = freezes_entries();
    let table = [
        (2, REBALANCE_BEGINS.as_slice()),
        (3, freezes.as_slice()),
        (4, [(Kind::LoadScan, 0); SEATS].as_slice()),
        (6, [(Kind::LoadAfter, 0)].as_slice()),
        (7, TAKES_A_ROW.as_slice()),
        (8, [(Kind::StoreInfant, 0); STORES].as_slice()),
        (9, REPLACES_THE_ROW.as_slice()),
        (14, ASKS_ITS_OWN_PASS.as_slice()),
        (15, [(Kind::LoadPass, 0); SEATS - 1].as_slice()),
        (16, USES_A_ROW_AGAIN.as_slice()),
        (18, REPLACES_THE_NEXT_ROW.as_slice()),
    ];
    Ok(expect_told(&rt, rt.alloc(), &TWO_REBALANCES, &table)?)
}

// Another pass's scan from 0 to 9 has stored that it waits with the clock 1, which is 5 as a word.
// A rebalance comes to the scans, draws a version for it, and finds no other.
const HELPS_A_SCAN: [(Kind, u64); 4] = [
    (Kind::LoadScan, 0),
    (Kind::LoadScan, 5),
    (Kind::HelpDraw, 1),
    (Kind::HelpSettle, 5),
];

#[test]
fn a_rebalance_helps_a_scan(rt: HostRuntime) -> Result<(), Fail> {
    let turns = [
        (Who::First, Turn::Puts(ROW, 7)),
        (Who::Second, Turn::Scan(0, 9)),
        (Who::Second, Turn::Go(3)),
        (Who::First, Turn::Put(7, 1)),
        (Who::First, Turn::Go(11 + 2 * SEAT_COUNT)),
        (Who::First, Turn::Go(4)),
        (Who::First, Turn::Go(SEAT_COUNT - 2)),
    ];
    let table = [
        (5, HELPS_A_SCAN.as_slice()),
        (6, [(Kind::LoadScan, 0); SEATS - 2].as_slice()),
    ];
    Ok(expect_told(&rt, rt.alloc(), &turns, &table)?)
}

// As many keys as a row has cells, and one more, want two rows, and one is free: it is taken, and
// given back.
const GIVES_A_ROW_BACK: [(Kind, u64); 5] = [
    (Kind::LoadState, 11),
    (Kind::LoadState, 0),
    (Kind::TakeRow, 0),
    (Kind::GiveBack, 0),
    (Kind::ClearPass, 0),
];

#[test]
fn a_row_that_is_one_too_few_is_given_back(rt: HostRuntime) -> Result<(), Fail> {
    let turns = [
        (Who::First, Turn::PutsFrom(ROW, 0)),
        (Who::First, Turn::Put(ROW, 1)),
        (Who::First, Turn::Go(BEFORE_ITS_SEARCH)),
        (Who::First, Turn::Go(ALL)),
    ];
    let table = [(3, GIVES_A_ROW_BACK.as_slice())];
    Ok(expect_told(&rt, rt.alloc(), &turns, &table)?)
}
