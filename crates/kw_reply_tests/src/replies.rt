//! The map of one thread: what it replies, also of its snapshots, and which replies are legal.
ghost use Rattle.std.specs.Prelude.{◌≡◌, length};

use kw_model::call::{Call, Reply};
use kw_model::legal::is_legal;
use kw_model::map_state::MapState;
use kw_model::memory::Memory;
use kw_model::pair_list::PairList;
use std::alloc::Global;
use std::process::Abort;
use std::test::Fail;

// expects these replies of an empty map to these calls of seat 0, one after the other
fn expect_replies(rt: &impl Abort, alloc: Global, table: &[(Call, Reply)]) -> Result<(), Memory> {
    let mut map = MapState::new(alloc);
    for (call, want) in table {
        let reply = map.apply(0, call)?;
        assert_eq!(rt; reply, *want, "to {call:?}");
    }
    Ok(())
}

// expects these replies of an empty map to these calls of seats, one after the other
fn expect_seat_replies(
    rt: &impl Abort,
    alloc: Global,
    table: &[(u32, Call, Reply)],
) -> Result<(), Memory> {
    let mut map = MapState::new(alloc);
    for (seat, call, want) in table {
        let reply = map.apply(*seat, call)?;
        assert_eq!(rt; reply, *want, "to {call:?} of {seat}");
    }
    Ok(())
}

#[test]
fn answers_each_call(rt: HostRuntime) -> Result<(), Fail> {
    let mut both = PairList::new(rt.alloc());
    both.push(5, 50)?;
    both.push(7, 71)?;
    let table = [
        (Call::Put(7, 70), Reply::Done),
        (Call::Put(5, 50), Reply::Done),
        (Call::Put(7, 71), Reply::Done),
        (Call::Get(7), Reply::Value(71)),
        (Call::Scan(5, 7), Reply::Pairs(both)),
        (Call::Scan(8, 4), Reply::Pairs(PairList::new(rt.alloc()))),
        (Call::Del(7), Reply::Done),
        (Call::Get(7), Reply::Absent),
    ];
    Ok(expect_replies(&rt, rt.alloc(), &table)?)
}

#[test]
fn a_key_may_be_deleted_twice(rt: HostRuntime) -> Result<(), Fail> {
    let table = [
        (Call::Put(5, 1), Reply::Done),
        (Call::Del(5), Reply::Done),
        (Call::Del(5), Reply::Done),
        (Call::Get(5), Reply::Absent),
        (Call::Scan(0, 9), Reply::Pairs(PairList::new(rt.alloc()))),
    ];
    Ok(expect_replies(&rt, rt.alloc(), &table)?)
}

// the reply with this one pair
fn one_pair(alloc: Global, key: u32, value: u64) -> Result<Reply, Memory> {
    let mut pairs = PairList::new(alloc);
    pairs.push(key, value)?;
    Ok(Reply::Pairs(pairs))
}

#[test]
fn a_snapshot_stands_still(rt: HostRuntime) -> Result<(), Fail> {
    let table = [
        (0, Call::Put(5, 1), Reply::Done),
        (1, Call::Pin, Reply::Done),
        (0, Call::Put(5, 2), Reply::Done),
        (0, Call::Put(7, 3), Reply::Done),
        (1, Call::ScanAt(0, 9), one_pair(rt.alloc(), 5, 1)?),
        (
            1,
            Call::ScanAt(6, 9),
            Reply::Pairs(PairList::new(rt.alloc())),
        ),
        (
            1,
            Call::ScanAt(9, 0),
            Reply::Pairs(PairList::new(rt.alloc())),
        ),
        (1, Call::Get(5), Reply::Value(2)),
        (1, Call::Scan(6, 9), one_pair(rt.alloc(), 7, 3)?),
        (1, Call::Unpin, Reply::Done),
        (1, Call::ScanAt(0, 9), Reply::NotPinned),
        (1, Call::Unpin, Reply::NotPinned),
    ];
    Ok(expect_seat_replies(&rt, rt.alloc(), &table)?)
}

#[test]
fn a_second_pin_leaves_the_first(rt: HostRuntime) -> Result<(), Fail> {
    let table = [
        (3, Call::Put(5, 1), Reply::Done),
        (3, Call::Pin, Reply::Done),
        (3, Call::Put(5, 2), Reply::Done),
        (3, Call::Pin, Reply::Held),
        (3, Call::ScanAt(5, 5), one_pair(rt.alloc(), 5, 1)?),
        (3, Call::Unpin, Reply::Done),
        (3, Call::Pin, Reply::Done),
        (3, Call::Del(5), Reply::Done),
        (3, Call::ScanAt(5, 5), one_pair(rt.alloc(), 5, 2)?),
    ];
    Ok(expect_seat_replies(&rt, rt.alloc(), &table)?)
}

#[test]
fn each_seat_has_its_own_snapshot(rt: HostRuntime) -> Result<(), Fail> {
    let table = [
        (0, Call::Put(5, 1), Reply::Done),
        (0, Call::Pin, Reply::Done),
        (0, Call::Put(5, 2), Reply::Done),
        (1, Call::Pin, Reply::Done),
        (1, Call::Put(5, 3), Reply::Done),
        (0, Call::ScanAt(0, 9), one_pair(rt.alloc(), 5, 1)?),
        (1, Call::ScanAt(0, 9), one_pair(rt.alloc(), 5, 2)?),
        (2, Call::ScanAt(0, 9), Reply::NotPinned),
        (2, Call::Unpin, Reply::NotPinned),
        (1, Call::Unpin, Reply::Done),
        (0, Call::ScanAt(0, 9), one_pair(rt.alloc(), 5, 1)?),
        (1, Call::ScanAt(0, 9), Reply::NotPinned),
    ];
    Ok(expect_seat_replies(&rt, rt.alloc(), &table)?)
}

// expects of the replies to these calls of seat 0 that they are legal, or that they are not
fn expect_legal(
    rt: &impl Abort,
    alloc: Global,
    calls: &[Call],
    replies: &[Reply],
    want: bool,
) -> Result<(), Memory>
    requires { length calls.now ≡ length replies.now }
{
    let seats = vec![in alloc; 0; calls.len()]?;
    let legal = is_legal(alloc, &seats, calls, replies)?;
    assert_eq!(rt; legal, want, "of {replies:?}");
    Ok(())
}

// a key is put, deleted twice and asked for, and all keys are scanned
#[test]
fn knows_a_deleted_key(rt: HostRuntime) -> Result<(), Fail> {
    let calls = [
        Call::Put(5, 1),
        Call::Del(5),
        Call::Del(5),
        Call::Get(5),
        Call::Scan(0, 9),
    ];
    for (got, want) in [(Reply::Absent, true), (Reply::Value(1), false)] {
        let replies = [
            Reply::Done,
            Reply::Done,
            Reply::Done,
            got,
            Reply::Pairs(PairList::new(rt.alloc())),
        ];
        expect_legal(&rt, rt.alloc(), &calls, &replies, want)?;
    }
    Ok(())
}

#[test]
fn allows_refusals_in_their_place(rt: HostRuntime) -> Result<(), Fail> {
    let calls = [Call::Put(5, 1), Call::Get(5), Call::Scan(0, 9)];
    let refused = [Reply::NoRows, Reply::Absent, Reply::Stopped];
    expect_legal(&rt, rt.alloc(), &calls, &refused, true)?;
    let stopped = [Reply::Stopped, Reply::Absent, Reply::Stopped];
    expect_legal(&rt, rt.alloc(), &calls, &stopped, false)?;
    let stored = [Reply::NoRows, Reply::Value(1), Reply::Spent];
    expect_legal(&rt, rt.alloc(), &calls, &stored, false)?;
    Ok(())
}

#[test]
fn tells_orders_apart(rt: HostRuntime) -> Result<(), Fail> {
    let first = Call::Put(5, 10);
    let second = Call::Put(5, 20);
    let got = [Reply::Done, Reply::Done, Reply::Value(20)];
    let later_last = [first, second, Call::Get(5)];
    expect_legal(&rt, rt.alloc(), &later_last, &got, true)?;
    let later_first = [second, first, Call::Get(5)];
    expect_legal(&rt, rt.alloc(), &later_first, &got, false)?;
    Ok(())
}

// one put between two scans, where one of the scans gave a pair
#[test]
fn compares_the_pairs_of_a_scan(rt: HostRuntime) -> Result<(), Fail> {
    let calls = [Call::Scan(0, 9), Call::Put(5, 10), Call::Scan(0, 9)];
    for late in [true, false] {
        let none = Reply::Pairs(PairList::new(rt.alloc()));
        let mut pair = PairList::new(rt.alloc());
        pair.push(5, 10)?;
        let one = Reply::Pairs(pair);
        let replies = if late {
            [none, Reply::Done, one]
        } else {
            [one, Reply::Done, none]
        };
        expect_legal(&rt, rt.alloc(), &calls, &replies, late)?;
    }
    Ok(())
}

// expects of a pin of seat 1 between two puts of one key, and of a scan of the snapshot by a seat
// behind them, that the scan may have the reply, or that it may not
fn expect_of_scan_at(
    rt: &impl Abort,
    alloc: Global,
    seat: u32,
    got: Reply,
    want: bool,
) -> Result<(), Memory> {
    let seats = [0, 1, 0, seat];
    let calls = [
        Call::Put(5, 1),
        Call::Pin,
        Call::Put(5, 2),
        Call::ScanAt(0, 9),
    ];
    let replies = [Reply::Done, Reply::Done, Reply::Done, got];
    let legal = is_legal(alloc, &seats, &calls, &replies)?;
    assert_eq!(rt; legal, want, "of seat {seat}: {replies:?}");
    Ok(())
}

#[test]
fn asks_a_snapshot_of_its_seat(rt: HostRuntime) -> Result<(), Fail> {
    let alloc = rt.alloc();
    expect_of_scan_at(&rt, alloc, 1, one_pair(alloc, 5, 1)?, true)?;
    expect_of_scan_at(&rt, alloc, 1, one_pair(alloc, 5, 2)?, false)?;
    expect_of_scan_at(&rt, alloc, 1, Reply::NotPinned, false)?;
    expect_of_scan_at(&rt, alloc, 1, Reply::Stopped, true)?;
    expect_of_scan_at(&rt, alloc, 1, Reply::Spent, false)?;
    expect_of_scan_at(&rt, alloc, 0, one_pair(alloc, 5, 1)?, false)?;
    expect_of_scan_at(&rt, alloc, 0, Reply::NotPinned, true)?;
    Ok(())
}

#[test]
fn a_refused_pin_holds_nothing(rt: HostRuntime) -> Result<(), Fail> {
    let calls = [Call::Pin, Call::Unpin, Call::Pin, Call::Pin];
    let refused = [Reply::Spent, Reply::NotPinned, Reply::Done, Reply::Held];
    expect_legal(&rt, rt.alloc(), &calls, &refused, true)?;
    let held = [Reply::Spent, Reply::Done, Reply::Done, Reply::Held];
    expect_legal(&rt, rt.alloc(), &calls, &held, false)?;
    let again = [Reply::Done, Reply::Done, Reply::Done, Reply::Done];
    expect_legal(&rt, rt.alloc(), &calls, &again, false)?;
    let stopped = [Reply::Stopped, Reply::NotPinned, Reply::Done, Reply::Held];
    expect_legal(&rt, rt.alloc(), &calls, &stopped, false)?;
    Ok(())
}

#[test]
fn clones_each_reply(rt: HostRuntime) -> Result<(), Fail> {
    let mut pairs = PairList::new(rt.alloc());
    pairs.push(5, 50)?;
    let replies = [
        Reply::Done,
        Reply::Value(7),
        Reply::Absent,
        Reply::Pairs(pairs),
        Reply::NoRows,
        Reply::Spent,
        Reply::Stopped,
        Reply::Held,
        Reply::NotPinned,
    ];
    for reply in &replies {
        assert_eq!(rt; reply.clone()?, *reply);
    }
    Ok(())
}

#[test]
fn says_what_was_wanted(rt: HostRuntime) -> Result<(), Fail> {
    let text = Memory.to_string(rt.alloc())?;
    assert_eq!(rt; text.as_str(), "out of memory");
    Ok(())
}
