//! Passes that make whole calls, one event after the other, and meet.
//!
//! A test here follows each seat with a local of its own, so that the events are those that the
//! core names.
ghost use Rattle.std.specs.Prelude.{◌≡◌, true, false, IfOk};
ghost use Rattle.kw_world.specs.Local.{resting};
ghost use Rattle.kw_world.specs.Sane.{CanBegin};
ghost use Rattle.kw_world.specs.Step.{is_skipped};
ghost use Rattle.kw_core.specs.Events.{is_call_in_range, may_begin};
ghost use Rattle.kw_table.specs.Passes.{view, IsPassOf};
ghost use Rattle.kw_table.specs.Views.{local_in};

use crate::kinds::{Player, open_two};
use kw_core::step::{operation, resume};
use kw_model::call::{Call, Reply};
use kw_model::memory::Memory;
use kw_model::pair_list::PairList;
use kw_table::{Pass, Shared, make, meet};
use kw_words::sizes::{SEAT_COUNT, SEATS};
use kw_world::event::{Choice, StepDone};
use kw_world::local::Local;
use std::alloc::Global;
use std::process::Abort;
use std::test::Fail;

// More events than any call of these tests makes.
const ALL: u32 = 1000;

// Makes the next event of a pass with this choice, and brings the local of its seat up to it. The
// answer is what the event did.
fn advance(
    shared: &Shared,
    pass: &mut Pass,
    local: &mut Local,
    choice: Choice,
) -> Result<StepDone, Memory>
    requires table { IsPassOf shared.now pass.old }
    requires knows { local.old ≡ local_in (view pass.old) }
    requires begins { may_begin local.old.activity choice ≡ true }
    requires counts { CanBegin choice local.old }
    requires moves { is_skipped local.old.activity choice ≡ false }
    ensures table { IsPassOf shared.now pass.new }
    ensures knows { IfOk result (λ _. local.new ≡ local_in (view pass.new)) }
{
    let rows = shared.rows();
    let offered = choice.offered(rows);
    let does = operation(pass.number(), local, offered);
    let told = make(shared, pass, choice, does);
    resume(local, rows, offered, told)
}

// Begins the first call of a pass, which is one event.
fn begin(shared: &Shared, player: &mut Player, call: Call) -> Result<(), Memory>
    requires table { IsPassOf shared.now player.old.pass }
    requires knows { player.old.local ≡ local_in (view player.old.pass) }
    requires idle { player.old.local ≡ resting 0 }
    requires range { is_call_in_range call ≡ true }
    ensures table { IfOk result (λ _. IsPassOf shared.now player.new.pass) }
    ensures knows { IfOk result (λ _. player.new.local ≡ local_in (view player.new.pass)) }
{
    advance(
        shared,
        &mut player.pass,
        &mut player.local,
        Choice::Begin(call),
    )?;
    Ok(())
}

// Makes the next events of a call, at most this many. Gives the reply, if the call has ended.
fn play(shared: &Shared, player: &mut Player, most: u32) -> Result<Option<Reply>, Memory>
    requires table { IsPassOf shared.now player.old.pass }
    requires knows { player.old.local ≡ local_in (view player.old.pass) }
    ensures table { IfOk result (λ _. IsPassOf shared.now player.new.pass) }
    ensures knows { IfOk result (λ _. player.new.local ≡ local_in (view player.new.pass)) }
{
    for _ in 0..most {
        if player.local.activity.skips(Choice::Go) {
            return Ok(None);
        }
        let done = advance(shared, &mut player.pass, &mut player.local, Choice::Go)?;
        if let StepDone::Ended(reply) = done {
            return Ok(Some(reply));
        }
    }
    Ok(None)
}

// A table whose second pass has begun this call, and whose first has begun a put.
fn begin_two(alloc: Global, call: Call) -> Result<(Shared, Player, Player), Memory>
    requires { is_call_in_range call ≡ true }
    ensures putter { IfOk result (λ made. IsPassOf made.0 made.1.pass
        × (made.1.local ≡ local_in (view made.1.pass))) }
    ensures reader { IfOk result (λ made. IsPassOf made.0 made.2.pass
        × (made.2.local ≡ local_in (view made.2.pass))) }
{
    let (shared, mut putter, mut reader) = open_two(alloc, 1, 1)?;
    begin(&shared, &mut reader, call)?;
    begin(&shared, &mut putter, Call::Put(5, 50))?;
    Ok((shared, putter, reader))
}

// Expects that a put is made, and this reply of a call of another pass that comes after the put's
// first event and this many more.
fn expect_within_a_put(
    rt: &impl Abort,
    alloc: Global,
    more: u32,
    call: Call,
    want: Reply,
) -> Result<(), Memory>
    requires { is_call_in_range call ≡ true }
{
    let (shared, mut putter, mut reader) = begin_two(alloc, call)?;
    play(&shared, &mut putter, more)?;
    let found = play(&shared, &mut reader, ALL)?;
    let done = play(&shared, &mut putter, ALL)?;
    meet(&shared, &mut putter.pass, &mut reader.pass);
    assert_eq!(rt;
        (done, found),
        (Some(Reply::Done), Some(want)),
        "after {more} more"
    );
    Ok(())
}

// A put makes 14 events. The ninth announces its cell.
#[test]
fn a_get_finds_the_value_from_the_announcement_on(rt: HostRuntime) -> Result<(), Fail> {
    for more in 0..13 {
        let value = if more < 8 {
            Reply::Absent
        } else {
            Reply::Value(50)
        };
        expect_within_a_put(&rt, rt.alloc(), more, Call::Get(5), value)?;
    }
    Ok(())
}

// The eleventh stamps it, with the clock that the tenth loaded.
#[test]
fn a_scan_finds_the_pair_that_was_stamped_before_it_drew(rt: HostRuntime) -> Result<(), Fail> {
    for more in 0..13 {
        let mut pairs = PairList::new(rt.alloc());
        if more >= 10 {
            pairs.push(5, 50)?;
        }
        let pairs = Reply::Pairs(pairs);
        expect_within_a_put(&rt, rt.alloc(), more, Call::Scan(0, 200), pairs)?;
    }
    Ok(())
}

// How many links of rows a put has loaded after its first event and this many more, and another
// pass that has seen them.
fn walked_within_a_put(alloc: Global, more: u32) -> Result<(u64, u64), Memory> {
    let (shared, mut putter, mut other) = begin_two(alloc, Call::Get(5))?;
    play(&shared, &mut putter, more)?;
    meet(&shared, &mut putter.pass, &mut other.pass);
    Ok((putter.pass.walked(), other.pass.walked()))
}

// The fourth event of a put, the first after its row is found at the head, loads the link to the
// next row, of which there is none. The others load no link of a row, and neither does what other
// passes do.
#[test]
fn a_pass_counts_the_links_of_rows_that_it_loads(rt: HostRuntime) -> Result<(), Fail> {
    for (more, walked) in [(2, 0), (3, 1), (ALL, 1)] {
        assert_eq!(rt; walked_within_a_put(rt.alloc(), more)?, (walked, 0));
    }
    Ok(())
}

#[test]
fn passes_are_numbered(rt: HostRuntime) -> Result<(), Fail> {
    let (shared, passes) = Shared::open(rt.alloc(), 64, SEAT_COUNT, 1, 1)?;
    // how many passes have the number of their place
    let mut number = 0;
    for pass in &passes {
        if pass.number() == number {
            number += 1;
        }
    }
    assert_eq!(rt;
        (shared.rows(), passes.len(), number),
        (64, SEATS, SEAT_COUNT)
    );
    Ok(())
}
