//! An opened world, its clone, and the bounds that no encoding names.
ghost use Rattle.std.specs.Prelude.{◌≡◌, IfOk};
ghost use Rattle.kw_world.specs.Opening.{opened};
ghost use Rattle.kw_world.specs.Sizes.{product};

use kw_model::memory::Memory;
use kw_words::layout::{Layout, Name};
use kw_words::link::Link;
use kw_words::sizes::{CELLS, SEATS};
use kw_words::state::State;
use kw_world::activity::Activity;
use kw_world::activity::enter::Enter;
use kw_world::limits::{GIVEN_END, MOST_CALLS, NEWEST};
use kw_world::world::World;
use std::alloc::Global;
use std::test::Fail;

// Three rows and two seats; the clock begins with 7, the epoch with 9.
fn small(alloc: Global) -> Result<World, Memory>
    ensures { IfOk result (λ world. world ≡ opened product (record {
      rows = 3;
      seats = 2;
      clock = 7;
      epoch = 9;
    })) }
{
    World::open(alloc, 3, 2, 7, 9)
}

#[test]
fn a_world_opens_with_one_row_in_its_list(rt: HostRuntime) -> Result<(), Fail> {
    let world = small(rt.alloc())?;
    let clock = world.word(Layout::<SEATS, CELLS>::place(3, Name::Clock));
    let epoch = world.word(Layout::<SEATS, CELLS>::place(3, Name::Epoch));
    assert_eq!(rt; (world.rows(), world.seats(), clock, epoch), (3, 2, 7, 9));
    let head = Link::unpack(world.word(Layout::<SEATS, CELLS>::place(3, Name::Head)));
    let to_first = Link {
        row: Some(0),
        marked: false,
    };
    assert_eq!(rt; head, Some(to_first));
    let first = State::unpack(world.word(Layout::<SEATS, CELLS>::place(3, Name::State(0))));
    let last = State::unpack(world.word(Layout::<SEATS, CELLS>::place(3, Name::State(2))));
    assert_eq!(rt; (first, last), (Some(State::Normal), Some(State::Free)));
    assert_eq!(rt; world.local(1).activity, Activity::Idle);
    Ok(())
}

#[test]
fn a_clone_is_a_world_of_its_own(rt: HostRuntime) -> Result<(), Fail> {
    let world = small(rt.alloc())?;
    let mut copy = world.clone_world()?;
    let place = Layout::<SEATS, CELLS>::place(3, Name::Clock);
    copy.set_word(place, 8);
    copy.local_mut(1).activity = Activity::Enter(Enter::Announce);
    assert_eq!(rt; (copy.word(place), world.word(place)), (8, 7));
    assert_eq!(rt;
        (copy.local(1).activity, world.local(1).activity),
        (Activity::Enter(Enter::Announce), Activity::Idle)
    );
    assert_eq!(rt; (copy.rows(), copy.seats()), (3, 2));
    Ok(())
}

// 2^31, and the greatest numbers of 32 and of 64 bits
#[test]
fn the_bounds_that_no_encoding_names(rt: HostRuntime) {
    assert_eq!(rt;
        (GIVEN_END, MOST_CALLS, NEWEST),
        (2_147_483_648, 4_294_967_295, 18_446_744_073_709_551_615)
    );
}
