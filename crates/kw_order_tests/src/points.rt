//! The record of a history that is made event by event, and the order of its calls.
//!
//! Each call's events are noted by a function of their own, whose clause gives the history behind
//! them in full: the proof of one call then does not carry the events of those before it.
ghost use Rattle.std.specs.Prelude.{◌≡◌, ◌∷◌, [], IfOk, OnOk, take};
ghost use Rattle.kw_core.specs.HistoryLaws.{HistoryLaws};
ghost use Rattle.kw_core.specs.Noted.{IsWithin, noted, nothing_yet};
ghost use Rattle.kw_laws.specs.Example.{events, the_put, call_0, call_1, call_2, example};

use kw_core::history::{Change, Drawn, History, Logged};
use kw_model::call::{Call, Reply};
use kw_model::memory::Memory;
use kw_model::pair_list::PairList;
use kw_order::points::{CallName, Point, order, points};
use kw_words::kind::Kind;
use std::alloc::Global;
use std::test::Fail;

// one more event, with what it changed
fn note(
    history: &mut History,
    seat: u32,
    kind: Kind,
    clock: u64,
    change: Change,
) -> Result<(), Memory>
    requires { IsWithin history.old change }
    ensures { OnOk result (history.new ≡ noted history.old
        (record { clock = clock; seat = seat; kind = kind }) change) }
{
    history.note(Logged { clock, seat, kind }, change)
}

// put 5 7 by seat 0
fn put(history: &mut History) -> Result<(), Memory>
    requires { history.old ≡ nothing_yet }
    ensures { OnOk result (history.new ≡ record {
      log = take 6 events;
      attempts = the_put ∷ [];
      calls = call_0 ∷ [];
    }) }
{
    let begins = Change::Begins {
        seat: 0,
        number: 1,
        call: Call::Put(5, 7),
    };
    note(history, 0, Kind::LoadEpoch, 1, begins)?;
    let adds = Change::Adds {
        call: 0,
        seat: 0,
        key: 5,
        value: Some(7),
        row: 0,
        cell: 0,
    };
    note(history, 0, Kind::AddCount, 1, adds)?;
    note(history, 0, Kind::Announce, 1, Change::Announces(0))?;
    note(history, 0, Kind::LoadClock, 1, Change::Nothing)?;
    let stamps = Change::Stamps {
        attempt: 0,
        version: 1,
        load: 3,
    };
    note(history, 0, Kind::Stamp, 1, stamps)?;
    let ends = Change::Ends {
        call: 0,
        reply: Reply::Done,
        answer: None,
        draw: None,
    };
    note(history, 0, Kind::ClearPass, 1, ends)?;
    Ok(())
}

// get 5 by seat 1, behind it
fn get_put(history: &mut History) -> Result<(), Memory>
    requires { history.old ≡ record {
      log = take 6 events;
      attempts = the_put ∷ [];
      calls = call_0 ∷ [];
    } }
    ensures { OnOk result (history.new ≡ record {
      log = take 8 events;
      attempts = the_put ∷ [];
      calls = call_0 ∷ call_1 ∷ [];
    }) }
{
    let begins = Change::Begins {
        seat: 1,
        number: 1,
        call: Call::Get(5),
    };
    note(history, 1, Kind::LoadEpoch, 1, begins)?;
    let ends = Change::Ends {
        call: 1,
        reply: Reply::Value(7),
        answer: Some(0),
        draw: None,
    };
    note(history, 1, Kind::ClearPass, 1, ends)?;
    Ok(())
}

// scan 0 9 by seat 0, behind these
fn scan(alloc: Global, history: &mut History) -> Result<(), Memory>
    requires { history.old ≡ record {
      log = take 8 events;
      attempts = the_put ∷ [];
      calls = call_0 ∷ call_1 ∷ [];
    } }
    ensures { OnOk result (history.new ≡ record {
      log = take 11 events;
      attempts = the_put ∷ [];
      calls = call_0 ∷ call_1 ∷ call_2 ∷ [];
    }) }
{
    let mut pairs = PairList::new(alloc);
    pairs.push(5, 7)?;
    let begins = Change::Begins {
        seat: 0,
        number: 2,
        call: Call::Scan(0, 9),
    };
    note(history, 0, Kind::LoadEpoch, 1, begins)?;
    note(history, 0, Kind::Draw, 1, Change::Nothing)?;
    let ends = Change::Ends {
        call: 2,
        reply: Reply::Pairs(pairs),
        answer: None,
        draw: Some(Drawn { at: 9, version: 1 }),
    };
    note(history, 0, Kind::ClearPass, 2, ends)?;
    Ok(())
}

// get 6 by seat 1, behind these
fn get_none(history: &mut History) -> Result<(), Memory>
    requires { history.old ≡ record {
      log = take 11 events;
      attempts = the_put ∷ [];
      calls = call_0 ∷ call_1 ∷ call_2 ∷ [];
    } }
    ensures { OnOk result (history.new ≡ example) }
{
    let begins = Change::Begins {
        seat: 1,
        number: 2,
        call: Call::Get(6),
    };
    note(history, 1, Kind::LoadEpoch, 2, begins)?;
    let ends = Change::Ends {
        call: 3,
        reply: Reply::Absent,
        answer: None,
        draw: None,
    };
    note(history, 1, Kind::ClearPass, 2, ends)?;
    Ok(())
}

// put 5 7, get 5, scan 0 9 and get 6, one after the other
fn four_calls(alloc: Global) -> Result<History, Memory>
    ensures { IfOk result HistoryLaws }
{
    let mut history = History::new(alloc);
    put(&mut history)?;
    get_put(&mut history)?;
    scan(alloc, &mut history)?;
    get_none(&mut history)?;
    Ok(history)
}

#[test]
fn records_a_put_from_begin_to_end(rt: HostRuntime) -> Result<(), Fail> {
    let mut history = History::new(rt.alloc());
    put(&mut history)?;
    let attempt = history.attempts().first().ok_or("no attempt")?;
    let call = history.calls().first().ok_or("no call")?;
    let end = call.end.as_ref().ok_or("no end")?;
    let positions = [
        call.first,
        attempt.add,
        attempt.announced,
        attempt.load,
        attempt.at,
        end.at,
        history.now(),
    ];
    assert_eq!(rt; positions, [0, 1, 2, 3, 4, 5, 6]);
    assert_eq!(rt; (call.put, &end.reply == &Reply::Done), (Some(0), true));
    Ok(())
}

#[test]
fn orders_calls_by_their_points(rt: HostRuntime) -> Result<(), Fail> {
    let history = four_calls(rt.alloc())?;
    let put = CallName { seat: 0, number: 1 };
    let get = CallName { seat: 1, number: 1 };
    let scan = CallName { seat: 0, number: 2 };
    let none = CallName { seat: 1, number: 2 };
    let want = [put, get, scan, none];
    assert_eq!(rt; order(rt.alloc(), &history)?.as_slice(), want.as_slice());
    let want = [
        Point { call: put, at: 3 },
        Point { call: get, at: 6 },
        Point { call: scan, at: 9 },
        Point { call: none, at: 11 },
    ];
    assert_eq!(rt; points(rt.alloc(), &history)?.as_slice(), want.as_slice());
    Ok(())
}
