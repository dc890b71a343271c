//! Whole calls put together from the functions of `kw_live`, between the events of another pass's
//! put.
ghost use Rattle.std.specs.Prelude.{◌≡◌, true, Some, IfOk, IfSome};
ghost use Rattle.kw_core.specs.Events.{is_call_in_range};
ghost use Rattle.kw_core.specs.Stages.{is_put};
ghost use Rattle.kw_table.specs.Passes.{IsPassOf};
ghost use Rattle.kw_follow.specs.Following.{Follows, activity_in};

use kw_cells::cell::next_pair;
use kw_core::stage::Stage;
use kw_follow::{go, go_put};
use kw_live::{TryPut, end_scan, enter, get, leave, locate, read_row, try_put};
use kw_model::call::{Call, Reply};
use kw_model::memory::Memory;
use kw_model::pair_list::PairList;
use kw_table::{Pass, Shared};
use kw_world::activity::Activity;
use kw_world::activity::walk::Walk;
use kw_world::event::Choice;
use kw_world::local::Local;
use std::alloc::Global;
use std::test::Fail;

// A table of 64 rows, and its two passes.
fn open_two(alloc: Global) -> Result<(Shared, Pass, Pass), Memory>
    ensures table { IfOk result (λ made. IsPassOf made.0 made.1 × IsPassOf made.0 made.2) }
    ensures idle { IfOk result (λ made. (activity_in made.1 ≡ Activity.Idle)
        × (activity_in made.2 ≡ Activity.Idle)) }
{
    let (shared, mut passes) = Shared::open(alloc, 64, 2, 1, 1)?;
    let (Some(second), Some(first)) = (passes.pop(), passes.pop()) else {
        unreachable!()
    };
    Ok((shared, first, second))
}

// Begins a put, and makes at most this many of its events at its row. Gives what the seat knows.
fn begin_put(
    alloc: Global,
    shared: &Shared,
    pass: &mut Pass,
    key: u32,
    value: u64,
    events: u32,
) -> Local
    requires table { IsPassOf shared.now pass.old }
    requires idle { activity_in pass.old ≡ Activity.Idle }
    requires range { is_call_in_range (Call.Put key value) ≡ true }
    ensures follows { Follows shared.now pass.new result }
{
    let mut local = Local::idle(alloc);
    enter(shared, pass, &mut local, Call::Put(key, value));
    locate(shared, pass, &mut local, None);
    for _ in 0..events {
        if !Stage::of(&local.activity).is_putting() {
            return local;
        }
        go(shared, pass, &mut local, Choice::Go);
    }
    local
}

// The reply of a whole put or delete, whose walk has this guess. None where its row is full; the
// pass is then in the middle of the call.
pub(crate) fn update(
    alloc: Global,
    shared: &Shared,
    pass: &mut Pass,
    call: Call,
    guess: Option<u32>,
) -> Option<Reply>
    requires table { IsPassOf shared.now pass.old }
    requires idle { activity_in pass.old ≡ Activity.Idle }
    requires range { is_call_in_range call ≡ true }
    requires update { is_put (Some call) ≡ true }
    ensures table { IsPassOf shared.now pass.new }
    ensures idle { IfSome result (λ reply. activity_in pass.new ≡ Activity.Idle) }
{
    let mut local = Local::idle(alloc);
    enter(shared, pass, &mut local, call);
    locate(shared, pass, &mut local, guess);
    let TryPut::Done = try_put(shared, pass, &mut local, 0) else {
        return None;
    };
    Some(leave(shared, pass, &mut local))
}

// Puts each of these pairs of a key and a value, one after the other, whose walks have this guess.
// None where one found its row full.
pub(crate) fn put_each(
    alloc: Global,
    shared: &Shared,
    pass: &mut Pass,
    pairs: &[(u32, u32)],
    guess: Option<u32>,
) -> Option<Reply>
    requires table { IsPassOf shared.now pass.old }
    requires idle { activity_in pass.old ≡ Activity.Idle }
    ensures table { IsPassOf shared.now pass.new }
    ensures idle { IfSome result (λ reply. activity_in pass.new ≡ Activity.Idle) }
{
    for (key, value) in pairs {
        update(
            alloc,
            shared,
            pass,
            Call::Put(*key, u64::from(*value)),
            guess,
        )?;
    }
    Some(Reply::Done)
}

// The value that a whole get finds, whose walk has this guess. Its local is then at rest, as the
// next get of a pass has it.
pub(crate) fn found(
    alloc: Global,
    shared: &Shared,
    pass: &mut Pass,
    key: u32,
    guess: Option<u32>,
) -> Option<u64>
    requires table { IsPassOf shared.now pass.old }
    requires idle { activity_in pass.old ≡ Activity.Idle }
    ensures table { IsPassOf shared.now pass.new }
    ensures idle { activity_in pass.new ≡ Activity.Idle }
{
    let mut local = Local::idle(alloc);
    get(shared, pass, &mut local, key, guess)
}

// What a get finds at this guess, where the put of another pass has made this many events at its
// row.
fn found_within_a_put(
    alloc: Global,
    events: u32,
    guess: Option<u32>,
) -> Result<Option<u64>, Memory> {
    let (shared, mut putter, mut reader) = open_two(alloc)?;
    begin_put(alloc, &shared, &mut putter, 5, 50, events);
    Ok(found(alloc, &shared, &mut reader, 5, guess))
}

// What a scan knows that has read its first row, to which it walked with this guess. None where it
// has none to read.
pub(crate) fn scan_row(
    alloc: Global,
    shared: &Shared,
    pass: &mut Pass,
    from: u32,
    upto: u32,
    guess: Option<u32>,
) -> Option<Local>
    requires table { IsPassOf shared.now pass.old }
    requires idle { activity_in pass.old ≡ Activity.Idle }
    requires range { is_call_in_range (Call.Scan from upto) ≡ true }
    ensures follows { IfSome result (Follows shared.now pass.new) }
{
    let mut local = Local::idle(alloc);
    enter(shared, pass, &mut local, Call::Scan(from, upto));
    let Activity::Walk(Walk::Start) = local.activity else {
        return None;
    };
    locate(shared, pass, &mut local, guess);
    read_row(shared, pass, &mut local);
    Some(local)
}

// The reply of a scan that is at its end.
pub(crate) fn finish(shared: &Shared, pass: &mut Pass, local: Local) -> Option<Reply>
    requires follows { Follows shared.now pass.old local }
{
    let mut local = local;
    let Activity::EndScan(_) = local.activity else {
        return None;
    };
    end_scan(shared, pass, &mut local);
    Some(leave(shared, pass, &mut local))
}

// Of the twelve events of a put that is alone in its row the fifth announces its cell, the seventh
// stamps it, and the eleventh inserts it in the row's list.
#[test]
fn a_get_helps_a_put_that_has_announced_its_cell(rt: HostRuntime) -> Result<(), Fail> {
    for events in 0..12 {
        let value = if events < 5 { None } else { Some(50) };
        let found = [
            found_within_a_put(rt.alloc(), events, None)?,
            found_within_a_put(rt.alloc(), events, Some(0))?,
        ];
        assert_eq!(rt; found, [value, value], "after {events} events");
    }
    Ok(())
}

// A put of key 5 has made this many events at its row when another pass puts key 3, and then goes
// on. How many exchanges it lost, its reply, and what a get of its key then finds.
fn put_around_a_put(
    alloc: Global,
    events: u32,
) -> Result<Option<(u32, Reply, Option<u64>)>, Memory> {
    let (shared, mut first, mut second) = open_two(alloc)?;
    let mut local = begin_put(alloc, &shared, &mut first, 5, 50, events);
    let Some(Reply::Done) = update(alloc, &shared, &mut second, Call::Put(3, 30), None) else {
        return Ok(None);
    };
    for _ in 0..20 {
        if Stage::of(&local.activity).is_putting() {
            go_put(&shared, &mut first, &mut local);
        }
    }
    let Activity::Leave(_) = local.activity else {
        return Ok(None);
    };
    let lost = local.lost;
    let reply = leave(&shared, &mut first, &mut local);
    Ok(Some((lost, reply, found(alloc, &shared, &mut second, 5, None))))
}

// A put has loaded its link with the ninth event, and exchanges it with the eleventh: where another
// one was there in between it loses.
#[test]
fn a_put_that_loses_its_insert_goes_again(rt: HostRuntime) -> Result<(), Fail> {
    for events in 0..13 {
        let lost = if events == 9 || events == 10 { 1 } else { 0 };
        let wanted = (lost, Reply::Done, Some(50));
        assert_eq!(rt;
            put_around_a_put(rt.alloc(), events)?,
            Some(wanted),
            "after {events} events"
        );
    }
    Ok(())
}

// The table has one row, so that a scan is at its end once it has read it.
#[test]
fn a_scan_gathers_the_cells_of_its_row(rt: HostRuntime) -> Result<(), Fail> {
    let (shared, mut putter, mut reader) = open_two(rt.alloc())?;
    let pairs = [(5, 50), (7, 70), (5, 51)];
    let Some(Reply::Done) = put_each(rt.alloc(), &shared, &mut putter, pairs.as_slice(), None)
    else {
        panic!(rt; "each put");
    };
    let Some(local) = scan_row(rt.alloc(), &shared, &mut reader, 0, 200, None) else {
        panic!(rt; "a row to read");
    };
    let cells = local.gathered.as_slice();
    let count = cells.len();
    let shown = [
        next_pair(cells, 0, 200, local.version),
        next_pair(cells, 6, 200, local.version),
        next_pair(cells, 8, 200, local.version),
    ];
    assert_eq!(rt; (count, shown), (3, [Some((5, 51)), Some((7, 70)), None]));
    let none = Reply::Pairs(PairList::new(rt.alloc()));
    assert_eq!(rt; finish(&shared, &mut reader, local), Some(none));
    Ok(())
}
