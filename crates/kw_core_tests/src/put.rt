//! One event of each sort on a call's own row: a call begins, an idle seat is skipped, a scan ends
//! with the pairs of a row, and a pin is stored, kept between calls and taken back.
ghost use Rattle.std.specs.Prelude.{◌≡◌, ◌<◌, length, IfOk, Some};
ghost use Rattle.kw_model.specs.declared.call.Call.{Call};
ghost use Rattle.kw_world.specs.Local.{resting};
ghost use Rattle.kw_world.specs.Sizes.{product};
ghost use Rattle.kw_world.specs.Sane.{IsSane, IsOfPart, IsCall, CanStep, IsLocal, HasRoom};
ghost use Rattle.kw_world.specs.declared.event.Choice.{Choice};
ghost use Rattle.kw_world.specs.declared.part.Part.{Part};

use kw_model::call::Call;
use kw_model::memory::Memory;
use kw_step_put::operation::put_operation;
use kw_step_put::resume::put_resume;
use kw_step_put::step::put_step;
use kw_words::kind::Kind;
use kw_words::layout::Name;
use kw_words::plain::pack_value;
use kw_world::activity::Activity;
use kw_world::activity::draw::Draw;
use kw_world::activity::enter::Enter;
use kw_world::activity::insert::Insert;
use kw_world::activity::put::Put;
use kw_world::activity::read::Read;
use kw_world::activity::rebalance::Rebalance;
use kw_world::activity::rebalance::engage::Engage;
use kw_world::answer::Answer;
use kw_world::event::{Choice, Event, StepDone};
use kw_world::local::Local;
use kw_world::operation::{Action, Operation};
use kw_world::world::World;
use std::alloc::Global;
use std::test::Fail;

// Three rows and two seats, all of them idle; the epoch is 9.
fn idle(alloc: Global) -> Result<World, Memory>
    ensures sane { IfOk result (λ world. IsSane product world) }
    ensures seat { IfOk result (λ world. 1 < length world.locals) }
    ensures begin { IfOk result (λ world. (call : Call) → IsCall (Some call) →
        CanStep world (record { seat = 1; choice = Choice.Begin call })) }
    ensures go { IfOk result (λ world. CanStep world (record { seat = 1; choice = Choice.Go })) }
    ensures part { IfOk result (λ world. (choice : Choice) →
        IsOfPart Part.Put world (record { seat = 1; choice = choice })) }
{
    World::open(alloc, 3, 2, 7, 9)
}

// A scan of the keys 2 to 9 at version 5 has one cell left of its row, which it remembers: of key 4
// and version 3, whose value it is to load.
fn at_a_value(alloc: Global) -> Local
    ensures ranges { IsLocal product result }
    ensures room { HasRoom product result }
    ensures at { result.activity ≡ Activity.Read Read.LeftOverValue }
{
    let mut local = Local::idle(alloc);
    local.activity = Activity::Read(Read::LeftOverValue);
    local.call = Some(Call::Scan(2, 9));
    local.want = 2;
    local.version = 5;
    local.place_version = 3;
    local.place_key = 4;
    local
}

// A put in a pass of epoch 2 has cleared its entry of row 2 next.
fn at_its_end(alloc: Global) -> Local
    ensures ranges { IsLocal product result }
    ensures room { HasRoom product result }
    ensures at { result.activity ≡ Activity.Put Put.Clear }
{
    let mut local = Local::idle(alloc);
    local.activity = Activity::Put(Put::Clear);
    local.call = Some(Call::Put(5, 10));
    local.epoch = 2;
    local.row = 2;
    local
}

// A put of key 5 is to begin its walk along the list of row 2, which was built with three cells.
fn at_its_start(alloc: Global) -> Local
    ensures ranges { IsLocal product result }
    ensures room { HasRoom product result }
    ensures at { result.activity ≡ Activity.Insert Insert.Start }
{
    let mut local = Local::idle(alloc);
    local.activity = Activity::Insert(Insert::Start);
    local.call = Some(Call::Put(5, 10));
    local.row = 2;
    local.built = 3;
    local
}

// What it does next, and at which link, where its event was told this word.
fn begins(alloc: Global, choice: Choice, word: u64) -> Result<(Activity, Option<u32>), Memory> {
    let mut local = at_its_start(alloc);
    put_resume(&mut local, 9, choice, word)?;
    Ok((local.activity, local.link))
}

// Where a put goes on from there, in a table of so many rows, and whether it tidies.
fn ends(alloc: Global, rows: u32, choice: Choice) -> Result<(Activity, bool), Memory> {
    let mut local = at_its_end(alloc);
    put_resume(&mut local, rows, choice, 0)?;
    Ok((local.activity, local.tidies))
}

// A pin has got the version 7, and is to be stored next.
fn at_a_pin(alloc: Global) -> Local
    ensures ranges { IsLocal product result }
    ensures room { HasRoom product result }
    ensures at { result.activity ≡ Activity.Draw Draw.Pin }
{
    let mut local = Local::idle(alloc);
    local.activity = Activity::Draw(Draw::Pin);
    local.version = 7;
    local
}

// A seat that has pinned the map at the version 7 takes that back next.
fn at_an_unpin(alloc: Global) -> Local
    ensures ranges { IsLocal product result }
    ensures room { HasRoom product result }
    ensures at { result.activity ≡ Activity.ClearPin }
{
    let mut local = Local::idle(alloc);
    local.activity = Activity::ClearPin;
    local.pin = Some(7);
    local
}

// A get of such a seat is to leave next.
fn at_a_leave(alloc: Global) -> Local
    ensures ranges { IsLocal product result }
    ensures room { HasRoom product result }
    ensures at { result.activity ≡ Activity.Leave Answer.Done }
{
    let mut local = Local::idle(alloc);
    local.activity = Activity::Leave(Answer::Done);
    local.pin = Some(7);
    local
}

// Seat 1 makes an event on its row, with this choice.
fn act(world: &mut World, choice: Choice) -> Result<StepDone, Memory>
    requires sane { IsSane product world.old }
    requires seat { 1 < length world.old.locals }
    requires begin { CanStep world.old (record { seat = 1; choice = choice }) }
    requires part { IsOfPart Part.Put world.old (record { seat = 1; choice = choice }) }
    ensures { IfOk result (λ _. 1 < length world.new.locals) }
{
    let done = put_step(world, Event { seat: 1, choice })?;
    Ok(done)
}

#[test]
fn an_idle_seat_begins_a_put(rt: HostRuntime) -> Result<(), Fail> {
    let mut world = idle(rt.alloc())?;
    let call = Call::Put(5, 10);
    let done = act(&mut world, Choice::Begin(call))?;
    let seat = world.local(1);
    assert_eq!(rt;
        (done, seat.activity, world.local(0).activity),
        (
            StepDone::Moved,
            Activity::Enter(Enter::Announce),
            Activity::Idle
        )
    );
    assert_eq!(rt; (seat.call, seat.number, seat.epoch), (Some(call), 1, 9));
    Ok(())
}

#[test]
fn an_idle_seat_that_begins_nothing_is_skipped(rt: HostRuntime) -> Result<(), Fail> {
    let mut world = idle(rt.alloc())?;
    let done = act(&mut world, Choice::Go)?;
    let seat = world.local(1);
    assert_eq!(rt;
        (done, seat.activity, seat.number),
        (StepDone::Skipped, Activity::Idle, 0)
    );
    Ok(())
}

#[test]
fn a_scan_has_the_pairs_of_a_row_at_its_last_cell(rt: HostRuntime) -> Result<(), Fail> {
    let mut local = at_a_value(rt.alloc());
    let done = put_resume(&mut local, 3, Choice::Go, pack_value(Some(42)))?;
    assert_eq!(rt;
        (done, local.activity),
        (StepDone::Moved, Activity::EndScan(Answer::Pairs))
    );
    assert_eq!(rt; local.pairs.pairs(), [(4, 42)].as_slice());
    Ok(())
}

// Cell 1 is one of the three, and cell 3 is not: a guess at that is none, and the word is that of
// the row's first link, which leads to cell 3 by the word 4.
#[test]
fn a_put_begins_behind_a_cell_of_a_smaller_key(rt: HostRuntime) -> Result<(), Fail> {
    let alloc = rt.alloc();
    let smaller = begins(alloc, Choice::Guess(1), 4)?;
    let own = begins(alloc, Choice::Guess(1), 5)?;
    let not_built = begins(alloc, Choice::Guess(3), 4)?;
    let none = begins(alloc, Choice::Go, 4)?;
    assert_eq!(rt;
        [smaller, own, not_built, none],
        [
            (Activity::Insert(Insert::Link), Some(1)),
            (Activity::Insert(Insert::Link), None),
            (Activity::Insert(Insert::Key), None),
            (Activity::Insert(Insert::Key), None),
        ]
    );
    Ok(())
}

// Twice 32 rows are 64: in a pass of epoch 2 a table of 63 rows has few enough, one of 64 has not.
#[test]
fn a_done_put_tidies_its_own_row_in_a_table_of_few_enough(rt: HostRuntime) -> Result<(), Fail> {
    let alloc = rt.alloc();
    let few = ends(alloc, 63, Choice::Guess(2))?;
    let many = ends(alloc, 64, Choice::Guess(2))?;
    let other = ends(alloc, 63, Choice::Guess(1))?;
    let leaves = (Activity::Leave(Answer::Done), false);
    assert_eq!(rt;
        (few, many, other),
        (
            (Activity::Rebalance(Rebalance::Engage(Engage::Clock)), true),
            leaves,
            leaves
        )
    );
    Ok(())
}

// the version 7 is pinned by the word 2 + 4 * 7
#[test]
fn a_pin_is_held_once_it_is_stored(rt: HostRuntime) -> Result<(), Fail> {
    let mut local = at_a_pin(rt.alloc());
    let stores = Operation {
        kind: Kind::StorePin,
        name: Name::Pin(1),
        action: Action::Store(30),
    };
    assert_eq!(rt; put_operation(1, &local, Choice::Go), stores);
    let done = put_resume(&mut local, 3, Choice::Go, 0)?;
    assert_eq!(rt;
        (done, local.activity, local.pin),
        (StepDone::Moved, Activity::EndScan(Answer::Done), Some(7))
    );
    Ok(())
}

// a seat that pins nothing has the word 0
#[test]
fn no_pin_is_held_once_it_is_cleared(rt: HostRuntime) -> Result<(), Fail> {
    let mut local = at_an_unpin(rt.alloc());
    let clears = Operation {
        kind: Kind::ClearPin,
        name: Name::Pin(1),
        action: Action::Store(0),
    };
    assert_eq!(rt; put_operation(1, &local, Choice::Go), clears);
    let done = put_resume(&mut local, 3, Choice::Go, 0)?;
    assert_eq!(rt;
        (done, local.activity, local.pin),
        (StepDone::Moved, Activity::Leave(Answer::Done), None)
    );
    Ok(())
}

#[test]
fn a_pin_is_kept_between_calls(rt: HostRuntime) -> Result<(), Fail> {
    let mut local = at_a_leave(rt.alloc());
    put_resume(&mut local, 3, Choice::Go, 0)?;
    assert_eq!(rt; (local.activity, local.pin), (Activity::Idle, Some(7)));
    Ok(())
}
