//! Cells: which one a version shows, in any order and in that of a row's list, and the room for
//! them.
ghost use Rattle.kw_cells.specs.InOrder.{AreBelow, AreInOrder};

use kw_cells::cell::{Cell, best, next_pair};
use kw_cells::in_order::{first_fit, index_in, is_behind, next_in_order};
use kw_cells::limits::{MOST_GATHERED, MOST_NEEDED, MOST_STARTS};
use kw_words::sizes::{CELLS, SEATS};

fn put(key: u32, version: u64, place: u32, value: u64) -> Cell {
    Cell {
        key,
        place,
        version,
        value: Some(value),
    }
}

fn tombstone(key: u32, version: u64, place: u32) -> Cell {
    Cell {
        key,
        place,
        version,
        value: None,
    }
}

// key 5 has two versions, the later one twice; key 7 a tombstone over a value; key 9 a version far
// above
fn row() -> [Cell; 7] {
    [
        put(5, 2, 6, 52),
        put(7, 1, 1, 71),
        put(5, 1, 0, 51),
        put(9, 8, 3, 98),
        put(5, 2, 4, 50),
        tombstone(7, 3, 5),
        put(4294967295, 1, 2, 9223372036854775807),
    ]
}

// the greatest version in the bound, of one version the greatest place, which may be a tombstone,
// and none where no cell fits
#[test]
fn best_is_the_last_cell_of_the_key_in_the_bound(rt: HostRuntime) {
    let table = [
        (5, 1, Some(put(5, 1, 0, 51))),
        (9, 8, Some(put(9, 8, 3, 98))),
        (9, 18446744073709551615, Some(put(9, 8, 3, 98))),
        (5, 2, Some(put(5, 2, 6, 52))),
        (5, 7, Some(put(5, 2, 6, 52))),
        (7, 2, Some(put(7, 1, 1, 71))),
        (7, 3, Some(tombstone(7, 3, 5))),
        (6, 9, None),
        (9, 7, None),
        (5, 0, None),
    ];
    for (key, version, want) in table {
        assert_eq!(rt;
            best(&row(), key, version),
            want,
            "of key {key} at {version}"
        );
    }
    assert_eq!(rt; best(&[], 5, 9), None);
}

#[test]
fn pairs_come_by_rising_key_and_end_with_the_range(rt: HostRuntime) {
    let table = [
        (0, 4294967295, 8, Some((5, 52))),
        (6, 4294967295, 8, Some((9, 98))),
        (10, 4294967295, 8, Some((4294967295, 9223372036854775807))),
        (6, 8, 8, None),
        (6, 8, 2, Some((7, 71))),
        (0, 5, 1, Some((5, 51))),
        (0, 4, 8, None),
        (9, 5, 8, None),
    ];
    for (from, to, version, want) in table {
        assert_eq!(rt;
            next_pair(&row(), from, to, version),
            want,
            "from {from} to {to} at {version}"
        );
    }
}

// the same without the last cell, in order
fn ordered_row() -> [Cell; 6]
    ensures { AreInOrder result }
{
    [
        Cell {
            key: 5,
            place: 6,
            version: 2,
            value: Some(52),
        },
        Cell {
            key: 5,
            place: 4,
            version: 2,
            value: Some(50),
        },
        Cell {
            key: 5,
            place: 0,
            version: 1,
            value: Some(51),
        },
        Cell {
            key: 7,
            place: 5,
            version: 3,
            value: None,
        },
        Cell {
            key: 7,
            place: 1,
            version: 1,
            value: Some(71),
        },
        Cell {
            key: 9,
            place: 3,
            version: 8,
            value: Some(98),
        },
    ]
}

#[test]
fn the_first_that_fits_is_the_best(rt: HostRuntime) {
    let row = ordered_row();
    for (key, version, want) in [
        (5, 9, Some(put(5, 2, 6, 52))),
        (5, 1, Some(put(5, 1, 0, 51))),
        (7, 3, Some(tombstone(7, 3, 5))),
        (9, 7, None),
    ] {
        assert_eq!(rt;
            first_fit(&row, key, version),
            want,
            "of key {key} at {version}"
        );
    }
}

// the next pair of cells up to key 9, after which the next one is asked for from the key behind it,
// or from the first cell on where there is none
fn next_to_nine(cells: &[Cell], at: &mut usize, from: &mut u32, version: u64) -> Option<(u32, u64)>
    requires in_order { AreInOrder cells.now }
    requires below { AreBelow cells.now at.old from.old }
    ensures { AreBelow cells.now at.new from.new }
{
    let Some(pair) = next_in_order(cells, at, *from, 9, version) else {
        *at = 0;
        *from = 0;
        return None;
    };
    *from = pair.0 + 1;
    Some(pair)
}

#[test]
fn pairs_come_in_one_pass(rt: HostRuntime) {
    let row = ordered_row();
    let mut at = 0;
    let mut from = 0;
    let pairs = [
        next_to_nine(&row, &mut at, &mut from, 2),
        next_to_nine(&row, &mut at, &mut from, 2),
        next_to_nine(&row, &mut at, &mut from, 2),
        next_to_nine(&row, &mut at, &mut from, 8),
        next_to_nine(&row, &mut at, &mut from, 8),
    ];
    let want = [
        Some((5, 52)),
        Some((7, 71)),
        None,
        Some((5, 52)),
        Some((9, 98)),
    ];
    assert_eq!(rt; (pairs, at), (want, 6));
}

#[test]
fn a_cell_belongs_behind_those_before_it(rt: HostRuntime) {
    let row = ordered_row();
    let places = [
        index_in(&put(5, 2, 5, 0), &row),
        index_in(&put(4, 1, 0, 0), &row),
        index_in(&put(7, 2, 0, 0), &row),
        index_in(&put(9, 8, 2, 0), &row),
    ];
    let behind = [
        is_behind(&put(9, 8, 2, 0), &row),
        is_behind(&put(9, 9, 2, 0), &row),
        is_behind(&put(0, 1, 0, 0), &[]),
    ];
    assert_eq!(rt; (places, behind), ([1, 0, 4, 6], [true, false, true]));
}

// the cells of two rows, two versions for each seat, and the 7 rows that a rebuild makes at most
#[test]
fn the_room_of_a_rebuild(rt: HostRuntime) {
    assert_eq!(rt;
        [MOST_GATHERED, MOST_NEEDED, MOST_STARTS],
        [2 * CELLS, 2 * SEATS, 7]
    );
}
