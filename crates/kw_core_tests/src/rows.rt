//! One event of a walk, on a world that was just opened.
ghost use Rattle.std.specs.Prelude.{◌<◌, length, IfOk};
ghost use Rattle.kw_world.specs.Sizes.{product};
ghost use Rattle.kw_world.specs.Sane.{IsSane, IsOfPart};
ghost use Rattle.kw_world.specs.declared.event.Choice.{Choice};
ghost use Rattle.kw_world.specs.declared.part.Part.{Part};

use kw_model::memory::Memory;
use kw_step_rows::step::rows_step;
use kw_world::activity::Activity;
use kw_world::activity::walk::Walk;
use kw_world::event::{Choice, Event, StepDone};
use kw_world::world::World;
use std::alloc::Global;
use std::test::Fail;

// Three rows, of which row 0 alone is in the list, and two seats; seat 1 is about to begin a walk.
fn before_a_walk(alloc: Global) -> Result<World, Memory>
    ensures sane { IfOk result (λ world. IsSane product world) }
    ensures seat { IfOk result (λ world. 1 < length world.locals) }
    ensures part { IfOk result (λ world. (choice : Choice) →
        IsOfPart Part.Rows world (record { seat = 1; choice = choice })) }
{
    let mut world = World::open(alloc, 3, 2, 7, 9)?;
    world.local_mut(1).activity = Activity::Walk(Walk::Start);
    Ok(world)
}

// Seat 1 makes an event of its walk, with this choice.
fn walk(world: &mut World, choice: Choice) -> Result<StepDone, Memory>
    requires sane { IsSane product world.old }
    requires seat { 1 < length world.old.locals }
    requires part { IsOfPart Part.Rows world.old (record { seat = 1; choice = choice }) }
    ensures { IfOk result (λ _. 1 < length world.new.locals) }
{
    let done = rows_step(world, Event { seat: 1, choice })?;
    Ok(done)
}

#[test]
fn a_walk_begins_at_the_first_row_of_the_list(rt: HostRuntime) -> Result<(), Fail> {
    let mut world = before_a_walk(rt.alloc())?;
    let done = walk(&mut world, Choice::Go)?;
    let seat = world.local(1);
    assert_eq!(rt;
        (done, seat.activity, world.local(0).activity),
        (StepDone::Moved, Activity::Walk(Walk::Next), Activity::Idle)
    );
    assert_eq!(rt; (seat.row, seat.lower), (0, 0));
    Ok(())
}

// row 2 is free, row 0 normal
#[test]
fn a_guess_is_taken_at_a_normal_row_and_not_at_a_free_one(rt: HostRuntime) -> Result<(), Fail> {
    for (row, next) in [
        (2, Activity::Walk(Walk::First)),
        (0, Activity::Walk(Walk::GuessedLeast)),
    ] {
        let mut world = before_a_walk(rt.alloc())?;
        let done = walk(&mut world, Choice::Guess(row))?;
        assert_eq!(rt;
            (done, world.local(1).activity),
            (StepDone::Moved, next),
            "row {row}"
        );
    }
    Ok(())
}
