//! What a rebuild keeps and where its rows start, of cells that are written out.
//!
//! The expected cells and places are counted by hand from the rules: the newest cell of a key and
//! the best one for each needed version, no tombstone below all values of its key, and as few rows
//! of at most `BUILT` cells as can be, cut between keys so that the longest is as short as with so
//! few rows it can be.
ghost use Rattle.std.specs.Prelude.{◌<◌, IsTrue};
ghost use Rattle.kw_cells.specs.Cells.{AreApart};

use kw_cells::cell::Cell;
use kw_cells::keep::{Kept, keep};
use kw_cells::limits::{MOST_GATHERED, MOST_NEEDED};
use kw_cells::pack::pack_rows;
use kw_words::sizes::BUILT;
use std::process::Abort;
use std::test::Fail;

fn put(key: u32, version: u64, place: u32) -> Cell {
    let value = Some(version);
    Cell {
        key,
        place,
        version,
        value,
    }
}

fn tombstone(key: u32, version: u64, place: u32) -> Cell {
    let value = None;
    Cell {
        key,
        place,
        version,
        value,
    }
}

// whether no two cells differ in their values alone
fn are_apart(cells: &[Cell]) -> bool
    ensures { IsTrue result → AreApart cells.now }
{
    cells.iter().all(|one| {
        cells.iter().all(|other| {
            *one == *other
                || one.key != other.key
                || one.version != other.version
                || one.place != other.place
        })
    })
}

// expects that these are kept of the cells for the needed versions
fn expect_kept(rt: &impl Abort, cells: &[Cell], needed: &[u64], want: &[Cell]) -> Result<(), Fail> {
    if cells.len() > MOST_GATHERED || !are_apart(cells) {
        return Err("no row has these cells")?;
    }
    let mut kept = Kept::new();
    keep(cells, needed, &mut kept);
    assert_eq!(rt; kept.as_slice(), want, "for {needed:?}");
    Ok(())
}

// expects where the rows start of what is kept of these cells, which is so many
fn expect_starts(
    rt: &impl Abort,
    cells: &[Cell],
    needed: &[u64],
    count: usize,
    want: &[usize],
) -> Result<(), Fail> {
    if cells.len() > MOST_GATHERED || !are_apart(cells) || needed.len() >= BUILT {
        return Err("no row has these cells")?;
    }
    let mut kept = Kept::new();
    keep(cells, needed, &mut kept);
    if kept.as_slice().len() != count {
        return Err("another number of cells is kept")?;
    }
    let starts = pack_rows(&kept);
    assert_eq!(rt; starts.as_slice(), want, "of {count} cells");
    Ok(())
}

#[test]
fn of_no_cells_none_is_kept(rt: HostRuntime) -> Result<(), Fail> {
    expect_kept(&rt, &[], &[1, 2], &[])
}

#[test]
fn a_tombstone_alone_is_not_kept(rt: HostRuntime) -> Result<(), Fail> {
    let cells = [tombstone(5, 3, 0)];
    expect_kept(&rt, &cells, &[], &[])?;
    expect_kept(&rt, &cells, &[1, 3, 9], &[])
}

#[test]
fn a_tombstone_above_an_older_kept_cell_is_kept(rt: HostRuntime) -> Result<(), Fail> {
    let cells = [tombstone(5, 4, 1), put(5, 1, 0)];
    let both = [put(5, 1, 0), tombstone(5, 4, 1)];
    expect_kept(&rt, &cells, &[2], &both)?;
    // without a scan between them nobody asks for the older one, and then the tombstone hides
    // nothing
    expect_kept(&rt, &cells, &[], &[])?;
    expect_kept(&rt, &cells, &[4], &[])
}

#[test]
fn tombstones_below_all_values_go_and_others_stay(rt: HostRuntime) -> Result<(), Fail> {
    let cells = [
        tombstone(5, 2, 0),
        tombstone(5, 4, 1),
        put(5, 6, 2),
        tombstone(5, 8, 3),
    ];
    let late = [put(5, 6, 2), tombstone(5, 8, 3)];
    expect_kept(&rt, &cells, &[3, 5, 7], &late)?;
    expect_kept(&rt, &cells, &[3, 5], &[])
}

// more versions of a key than twice as many as may be needed
const MANY_VERSIONS: usize = 2 * MOST_NEEDED + 4;

// the best cells of as many versions as may be needed, and the newest one
const MOST_BEST: usize = MOST_NEEDED + 1;

#[test]
fn each_needed_version_keeps_its_best_cell(rt: HostRuntime) -> Result<(), Fail> {
    let mut cells = [put(7, 0, 0); MANY_VERSIONS];
    for place in 0..MANY_VERSIONS {
        cells[place] = put(7, place as u64 + 1, place as u32);
    }
    // every second version is needed, as many as may be, and the newest one is kept besides
    let mut needed = [0; MOST_NEEDED];
    let mut best = [put(7, MANY_VERSIONS as u64, MANY_VERSIONS as u32 - 1); MOST_BEST];
    for nth in 0..MOST_NEEDED {
        needed[nth] = 2 * nth as u64 + 2;
        best[nth] = put(7, 2 * nth as u64 + 2, 2 * nth as u32 + 1);
    }
    expect_kept(&rt, &cells, &needed, &best)
}

#[test]
fn of_one_key_and_version_the_greatest_place_is_kept(rt: HostRuntime) -> Result<(), Fail> {
    let cells = [put(5, 2, 4), put(5, 2, 6), put(5, 2, 1)];
    let last = [put(5, 2, 6)];
    expect_kept(&rt, &cells, &[], &last)?;
    expect_kept(&rt, &cells, &[2], &last)
}

#[test]
fn a_cell_given_twice_is_kept_once(rt: HostRuntime) -> Result<(), Fail> {
    let cells = [put(7, 1, 3), put(5, 2, 6), put(5, 2, 6)];
    let once = [put(5, 2, 6), put(7, 1, 3)];
    expect_kept(&rt, &cells, &[2], &once)
}

#[test]
fn of_so_many_keys_each_is_kept_in_order(rt: HostRuntime) -> Result<(), Fail> {
    let mut cells = [put(0, 0, 0); MOST_GATHERED];
    let mut rising = [put(0, 0, 0); MOST_GATHERED];
    for place in 0..MOST_GATHERED {
        cells[place] = put((MOST_GATHERED - place) as u32, 3, 1);
        rising[place] = put(place as u32 + 1, 3, 1);
    }
    expect_kept(&rt, &cells, &[1, 5], &rising)
}

#[test]
fn of_one_key_few_cells_are_kept(rt: HostRuntime) -> Result<(), Fail> {
    let mut cells = [put(9, 0, 0); MOST_GATHERED];
    for place in 0..MOST_GATHERED {
        cells[place] = put(9, (MOST_GATHERED - place) as u64, 1);
    }
    let newest = MOST_GATHERED as u64;
    let middle = newest / 2;
    let few = [put(9, 1, 1), put(9, middle, 1), put(9, newest, 1)];
    expect_kept(&rt, &cells, &[middle, 1], &few)?;
    expect_kept(&rt, &cells, &[], &[put(9, newest, 1)])
}

// so many keys of one cell each
fn keys<const N: usize>() -> [Cell; N]
    requires { N < 1000 }
{
    let mut cells = [put(0, 1, 0); N];
    for place in 0..N {
        cells[place] = put(place as u32, 1, place as u32);
    }
    cells
}

#[test]
fn no_cells_have_one_row(rt: HostRuntime) -> Result<(), Fail> {
    expect_starts(&rt, &[], &[], 0, &[0])
}

// one cell more than a new row takes
const ONE_MORE: usize = BUILT + 1;

// a quarter of a new row more
const A_QUARTER_MORE: usize = BUILT + BUILT / 4;

// what two new rows take, and one cell more than that
const TWO_ROWS: usize = 2 * BUILT;

const MORE_THAN_TWO: usize = 2 * BUILT + 1;

// what three new rows take, and an eighth of one more
const MORE_THAN_THREE: usize = 3 * BUILT + BUILT / 8;

// As few rows as can be are one, two, two, two, three, four and four. The shortest longest row has
// that part of the cells, rounded up, which goes into each row but the last.
#[test]
fn rows_are_as_few_and_as_even_as_can_be(rt: HostRuntime) -> Result<(), Fail> {
    let half = BUILT / 2;
    let third = (MORE_THAN_TWO + 2) / 3;
    let quarter = MORE_THAN_THREE / 4;
    let in_three = [0, third, 2 * third];
    let in_four = [0, quarter, 2 * quarter, 3 * quarter];
    let all_full = [0, BUILT, 2 * BUILT, 3 * BUILT];
    expect_starts(&rt, &keys::<BUILT>(), &[], BUILT, &[0])?;
    expect_starts(&rt, &keys::<ONE_MORE>(), &[], ONE_MORE, &[0, half + 1])?;
    expect_starts(
        &rt,
        &keys::<A_QUARTER_MORE>(),
        &[],
        A_QUARTER_MORE,
        &[0, half + BUILT / 8],
    )?;
    expect_starts(&rt, &keys::<TWO_ROWS>(), &[], TWO_ROWS, &[0, BUILT])?;
    expect_starts(&rt, &keys::<MORE_THAN_TWO>(), &[], MORE_THAN_TWO, &in_three)?;
    expect_starts(
        &rt,
        &keys::<MORE_THAN_THREE>(),
        &[],
        MORE_THAN_THREE,
        &in_four,
    )?;
    expect_starts(&rt, &keys::<MOST_GATHERED>(), &[], MOST_GATHERED, &all_full)
}

#[test]
fn a_key_stays_whole(rt: HostRuntime) -> Result<(), Fail> {
    // a key in the middle has a second cell: behind half of what a row takes it goes into the
    // second row, so that both have at most one more than that, and behind one cell fewer into the
    // first one
    let half = BUILT / 2;
    let mut cells = keys::<ONE_MORE>();
    cells[BUILT] = put(half as u32, 2, 40);
    expect_starts(&rt, &cells, &[1], ONE_MORE, &[0, half])?;
    cells[BUILT] = put(half as u32 - 1, 2, 40);
    expect_starts(&rt, &cells, &[1], ONE_MORE, &[0, half + 1])?;
    // with one key fewer one row takes them all
    cells[0] = put(half as u32 - 1, 2, 40);
    expect_starts(&rt, &cells, &[1], BUILT, &[0])
}

// four keys of one cell, and between them three keys of as many cells as a row takes
const OF_SEVEN_ROWS: usize = 3 * BUILT + 4;

// one version fewer than a row takes cells
const ONE_FEWER: usize = BUILT - 1;

#[test]
fn seven_rows_are_the_most(rt: HostRuntime) -> Result<(), Fail> {
    // the odd keys have as many versions as a row takes and the even ones have one: beside a full
    // row none has room
    let mut cells = [put(0, 1, 0); OF_SEVEN_ROWS];
    let mut needed = [0; ONE_FEWER];
    for version in 0..ONE_FEWER {
        needed[version] = version as u64 + 1;
    }
    for place in 0..OF_SEVEN_ROWS {
        let key = place / ONE_MORE * 2;
        cells[place] = match place % ONE_MORE {
            0 => put(key as u32, 1, 0),
            version => put(key as u32 + 1, version as u64, 0),
        };
    }
    let starts = [
        0,
        1,
        BUILT + 1,
        BUILT + 2,
        2 * BUILT + 2,
        2 * BUILT + 3,
        3 * BUILT + 3,
    ];
    expect_starts(&rt, &cells, &needed, OF_SEVEN_ROWS, &starts)
}
