//! What the calls of one pass answer, one after the other.
ghost use Rattle.std.specs.Prelude.{◌<◌, IfOk};
ghost use Rattle.kw_words.specs.declared.sizes.TheConstants.{VALUE_END};
ghost use Rattle.kw_world.specs.Opening.{IsOpening};
ghost use Rattle.kw_world.specs.Sizes.{product};
ghost use Rattle.kw_map.specs.Kiwi.{IsIdle};

use crate::gatherers::Roomy;
use kw_map::{CountGather, Kiwi, Pass, PutEnd, ScanEnd, Stop, SumGather};
use kw_model::memory::Memory;
use kw_words::sizes::{BUILT_COUNT, CELL_COUNT};
use std::alloc::Global;
use std::sync::Wait;
use std::test::Fail;

/// The clock and the epoch from which on they are spent.
const SPENT: u64 = 281474976710656;

/// How many puts fill a row that has no cell.
const ROW: u32 = CELL_COUNT;

/// How many cells each of the two rows is built with that replace a full one of different keys, and
/// so how many more puts fill each of them.
const BUILT: u32 = BUILT_COUNT;

/// So many rising keys stand in six rows: from the first one on the last row is filled and split
/// five times.
const MANY: u32 = ROW + 4 * BUILT + 8;

/// A map of so many rows, whose clock and epoch begin here, and its one pass.
fn open_one(alloc: Global, rows: u32, clock: u64, epoch: u64) -> Result<(Kiwi, Pass), Memory>
    requires { IsOpening product
        (record { rows = rows; seats = 1; clock = clock; epoch = epoch }) }
    ensures { IfOk result (λ made. IsIdle made.0 made.1) }
{
    let (kiwi, mut passes) = Kiwi::open_at(alloc, rows, 1, clock, epoch)?;
    let Some(pass) = passes.pop() else {
        unreachable!()
    };
    Ok((kiwi, pass))
}

/// Puts this value for each key from `from` to below `end`, up to the first refusal.
fn put_each<R: Wait>(
    rt: &R,
    kiwi: &Kiwi,
    pass: &mut Pass,
    from: u32,
    end: u32,
    value: u64,
) -> Result<(), PutEnd>
    requires idle { IsIdle kiwi.now pass.old }
    requires value { value < VALUE_END }
    ensures { IsIdle kiwi.now pass.new }
{
    for key in from..end {
        kiwi.put(rt, pass, key, value)?;
    }
    Ok(())
}

/// Puts the values from `from` to below `end` for one key, up to the first refusal.
fn put_again<R: Wait>(
    rt: &R,
    kiwi: &Kiwi,
    pass: &mut Pass,
    key: u32,
    from: u32,
    end: u32,
) -> Result<(), PutEnd>
    requires { IsIdle kiwi.now pass.old }
    ensures { IsIdle kiwi.now pass.new }
{
    for value in from..end {
        kiwi.put(rt, pass, key, u64::from(value))?;
    }
    Ok(())
}

/// Deletes each key from `from` to below `end`, up to the first refusal.
fn delete_each<R: Wait>(
    rt: &R,
    kiwi: &Kiwi,
    pass: &mut Pass,
    from: u32,
    end: u32,
) -> Result<(), PutEnd>
    requires { IsIdle kiwi.now pass.old }
    ensures { IsIdle kiwi.now pass.new }
{
    for key in from..end {
        kiwi.delete(rt, pass, key)?;
    }
    Ok(())
}

/// The sum of the values of a range.
fn sum_of(kiwi: &Kiwi, pass: &mut Pass, from: u32, upto: u32) -> Result<u128, ScanEnd>
    requires { IsIdle kiwi.now pass.old }
    ensures { IsIdle kiwi.now pass.new }
{
    let mut sum = SumGather::new();
    kiwi.scan(pass, from, upto, &mut sum)?;
    Ok(sum.total())
}

/// How many keys of a range have a value.
fn count_of(kiwi: &Kiwi, pass: &mut Pass, from: u32, upto: u32) -> Result<u64, ScanEnd>
    requires { IsIdle kiwi.now pass.old }
    ensures { IsIdle kiwi.now pass.new }
{
    let mut count = CountGather::new();
    kiwi.scan(pass, from, upto, &mut count)?;
    Ok(count.total())
}

// A row that is full of keys is replaced by two, which have what it had.
#[test]
fn a_full_row_is_split(rt: HostRuntime) -> Result<(), Fail> {
    let (kiwi, mut pass) = open_one(rt.alloc(), 64, 1, 1)?;
    let put = put_each(&rt, &kiwi, &mut pass, 0, ROW + 1, 7);
    let found = [kiwi.get(&mut pass, 0), kiwi.get(&mut pass, ROW)];
    let all = sum_of(&kiwi, &mut pass, 0, 4294967295);
    let sums = [u128::from(7 * ROW + 7), u128::from(7 * ROW)];
    assert_eq!(rt;
        (put, found, all),
        (Ok(()), [Some(7), Some(7)], Ok(sums[0]))
    );
    let deleted = kiwi.delete(&rt, &mut pass, 1);
    let rest = sum_of(&kiwi, &mut pass, 0, 4294967295);
    assert_eq!(rt; (deleted, rest), (Ok(()), Ok(sums[1])));
    Ok(())
}

// A row that is full of one key is replaced by one that has its last value. The put after `ROW`
// ones does so, and then twice another one, each `ROW - 1` puts later.
#[test]
fn puts_of_one_key_never_end(rt: HostRuntime) -> Result<(), Fail> {
    let (kiwi, mut pass) = open_one(rt.alloc(), 64, 1, 1)?;
    let put = put_again(&rt, &kiwi, &mut pass, 7, 1, 3 * ROW + 9);
    let last = u64::from(3 * ROW + 8);
    assert_eq!(rt; (put, kiwi.get(&mut pass, 7)), (Ok(()), Some(last)));
    Ok(())
}

// A delete at a full row rebalances it as a put does, and then the key is gone.
#[test]
fn a_delete_is_refused_at_a_full_row_no_more(rt: HostRuntime) -> Result<(), Fail> {
    let (kiwi, mut pass) = open_one(rt.alloc(), 64, 1, 1)?;
    let put = put_each(&rt, &kiwi, &mut pass, 0, ROW, 7);
    let deleted = kiwi.delete(&rt, &mut pass, 1);
    assert_eq!(rt; (put, deleted), (Ok(()), Ok(())));
    let found = kiwi.get(&mut pass, 1);
    let rest = sum_of(&kiwi, &mut pass, 0, 4294967295);
    assert_eq!(rt; (found, rest), (None, Ok(u128::from(7 * ROW - 7))));
    Ok(())
}

// Puts that fill the first row, and then 62 rows that were built, make 62 splits. So 63 of the 64
// rows are live, the last one is full, and its split needs two. Whoever asks for no new row is not
// refused.
#[test]
fn no_rows_are_left(rt: HostRuntime) -> Result<(), Fail> {
    let (kiwi, mut pass) = open_one(rt.alloc(), 64, 1, 1)?;
    let keys = ROW + 62 * BUILT;
    let put = put_each(&rt, &kiwi, &mut pass, 1, keys + 1, 1);
    let more = [
        kiwi.put(&rt, &mut pass, keys + 1, 1),
        kiwi.put(&rt, &mut pass, keys + 1, 1),
    ];
    assert_eq!(rt;
        (put, more),
        (Ok(()), [Err(PutEnd::NoRows), Err(PutEnd::NoRows)])
    );
    let found = kiwi.get(&mut pass, keys);
    let count = count_of(&kiwi, &mut pass, 0, 4294967295);
    assert_eq!(rt; (found, count), (Some(1), Ok(u64::from(keys))));
    let deleted = [
        kiwi.delete(&rt, &mut pass, keys + 1),
        kiwi.delete(&rt, &mut pass, 5),
    ];
    let found = kiwi.get(&mut pass, 5);
    assert_eq!(rt; (deleted, found), ([Err(PutEnd::NoRows), Ok(())], None));
    Ok(())
}

// In a table of three rows the keys below `BUILT` stand in one row, and those from `BUILT` to `ROW`
// in the next. With `BUILT - 1` deletes that one is full, and the put of `BUILT + 1` replaces it by
// one of three cells, of `BUILT` and `BUILT + 1`. With as many deletes and a put the first one is
// full, and the next put of 0 takes its small neighbour along: one row has the three keys, in four
// cells. So `ROW - 4` more keys fit in it, and the next one splits it. That needs two rows, and
// both others are free by then. Had the full row gone alone, one would be: its neighbour, of three
// cells, would be full one key later, and the last put would be refused.
#[test]
fn a_full_row_takes_its_small_neighbour_along(rt: HostRuntime) -> Result<(), Fail> {
    let (kiwi, mut pass) = open_one(rt.alloc(), 3, 1, 1)?;
    let made = [
        put_each(&rt, &kiwi, &mut pass, 0, ROW + 1, 1),
        delete_each(&rt, &kiwi, &mut pass, BUILT + 2, ROW + 1),
        kiwi.put(&rt, &mut pass, BUILT + 1, 2),
        delete_each(&rt, &kiwi, &mut pass, 1, BUILT),
        put_again(&rt, &kiwi, &mut pass, 0, 2, 4),
    ];
    let together = (
        sum_of(&kiwi, &mut pass, 0, 4294967295),
        count_of(&kiwi, &mut pass, 0, 4294967295),
    );
    let more = put_each(&rt, &kiwi, &mut pass, 2 * ROW, 3 * ROW - 2, 10);
    let all = sum_of(&kiwi, &mut pass, 0, 4294967295);
    let sum = u128::from(10 * (ROW - 2) + 6);
    assert_eq!(rt;
        (made, together, (more, all)),
        ([Ok(()); 5], (Ok(6), Ok(3)), (Ok(()), Ok(sum)))
    );
    let found = [
        kiwi.get(&mut pass, 0),
        kiwi.get(&mut pass, BUILT - 1),
        kiwi.get(&mut pass, BUILT),
        kiwi.get(&mut pass, BUILT + 1),
        kiwi.get(&mut pass, BUILT + 2),
    ];
    assert_eq!(rt; found, [Some(3), None, Some(1), Some(2), None]);
    Ok(())
}

// In a row that no other follows, and in one that others follow: a new row has at most `BUILT`
// keys, so the pair that there is no room for stands in a later row than the first one, and others
// come after it.
#[test]
fn a_scan_stops_where_the_gatherer_stops(rt: HostRuntime) -> Result<(), Fail> {
    for (first, end, upto, room, last, greatest) in [
        (10, 15, 100, 3, 12, 14),
        (0, MANY, MANY - 1, BUILT + 8, BUILT + 7, MANY - 1),
    ] {
        let (kiwi, mut pass) = open_one(rt.alloc(), 64, 1, 1)?;
        let put = put_each(&rt, &kiwi, &mut pass, first, end, 1);
        let mut roomy = Roomy::new(room);
        let ended = kiwi.scan(&mut pass, 0, upto, &mut roomy);
        let kept = (roomy.room, roomy.last, roomy.stops);
        let found = kiwi.get(&mut pass, greatest);
        let wanted = (Ok(()), Err(ScanEnd::Stopped), (0, Some(last), 1), Some(1));
        assert_eq!(rt; (put, ended, kept, found), wanted, "with room for {room}");
    }
    Ok(())
}

// Keys in several rows, of which 40 have a second value, 3, and one of these was deleted. Of the
// `MANY - 29` keys of the range 39 have 3, and the others but the deleted one have 1.
#[test]
fn a_scan_over_rows_takes_each_key_as_it_is_last(rt: HostRuntime) -> Result<(), Fail> {
    let (kiwi, mut pass) = open_one(rt.alloc(), 64, 1, 1)?;
    let made = [
        put_each(&rt, &kiwi, &mut pass, 0, MANY, 1),
        put_each(&rt, &kiwi, &mut pass, ROW - 14, ROW + 26, 3),
        kiwi.delete(&rt, &mut pass, ROW - 4),
    ];
    let sum = sum_of(&kiwi, &mut pass, 10, MANY - 20);
    let count = count_of(&kiwi, &mut pass, 10, MANY - 20);
    let (ones, threes) = (MANY - 69, 39);
    let wanted = (
        Ok(u128::from(ones + 3 * threes)),
        Ok(u64::from(ones + threes)),
    );
    assert_eq!(rt; (made, (sum, count)), ([Ok(()), Ok(()), Ok(())], wanted));
    Ok(())
}

// Clock and epoch begin at their end or one before it. One before its end the clock serves one
// scan, and the epoch one replacement of a row. A put needs neither as long as its row has room: a
// row has room for `ROW` puts, and one that is replaced for `ROW - 1` more of the same key. Their
// values count on from 50.
#[test]
fn counters_at_their_end_refuse_only_what_needs_them(rt: HostRuntime) -> Result<(), Fail> {
    let spent = Err(ScanEnd::Spent);
    let (once, twice) = (50 + ROW, 49 + 2 * ROW);
    let (last_once, last_twice) = (u128::from(once - 1), u128::from(twice - 1));
    for (clock, epoch, before, first_refused, after) in [
        (SPENT, 1, spent, once, spent),
        (SPENT - 1, 1, Ok(0), once, spent),
        (1, SPENT, Ok(0), once, Ok(last_once)),
        (1, SPENT - 1, Ok(0), twice, Ok(last_twice)),
        (SPENT - 1, SPENT - 1, Ok(0), once, spent),
        (SPENT, SPENT, spent, once, spent),
    ] {
        assert!(rt; 1 <= clock && clock <= SPENT && 1 <= epoch && epoch <= SPENT);
        let (kiwi, mut pass) = open_one(rt.alloc(), 64, clock, epoch)?;
        let sum = sum_of(&kiwi, &mut pass, 0, 9);
        let put = kiwi.put(&rt, &mut pass, 5, 50);
        let found = kiwi.get(&mut pass, 5);
        assert_eq!(rt;
            (sum, put, found),
            (before, Ok(()), Some(50)),
            "with the clock at {clock} and the epoch at {epoch}"
        );
        let made = [
            put_again(&rt, &kiwi, &mut pass, 5, 51, first_refused),
            kiwi.put(&rt, &mut pass, 5, u64::from(first_refused)),
            kiwi.delete(&rt, &mut pass, 5),
        ];
        let found = kiwi.get(&mut pass, 5);
        let sum = sum_of(&kiwi, &mut pass, 0, 9);
        let last = u64::from(first_refused).checked_sub(1);
        let refused = Err(PutEnd::Spent);
        assert_eq!(rt;
            (made, found, sum),
            ([Ok(()), refused, refused], last, after),
            "with the clock at {clock} and the epoch at {epoch}"
        );
    }
    Ok(())
}

#[test]
fn ends_and_stops_have_texts(rt: HostRuntime) -> Result<(), Fail> {
    let texts = [
        Stop.to_string(rt.alloc())?,
        PutEnd::NoRows.to_string(rt.alloc())?,
        PutEnd::Spent.to_string(rt.alloc())?,
        ScanEnd::Stopped.to_string(rt.alloc())?,
        ScanEnd::Spent.to_string(rt.alloc())?,
    ];
    let wants = [
        "the gatherer stopped",
        "no rows are left",
        "the versions or the epochs are spent",
        "the gatherer stopped",
        "the versions are spent",
    ];
    for (text, want) in texts.iter().zip(wants) {
        assert_eq!(rt; text.as_str(), want);
    }
    Ok(())
}
