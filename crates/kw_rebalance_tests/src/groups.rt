//! One event of each topic by which a rebalance takes the row after the full one along, goes
//! through the rows of its group, or goes left from a follower to its leader: what a seat knows
//! after it.
ghost use Rattle.std.specs.Prelude.{◌≡◌};
ghost use Rattle.kw_world.specs.Sane.{HasRoom, IsActivity, IsLocal, IsTakingRows};
ghost use Rattle.kw_world.specs.Parts.{part_of};
ghost use Rattle.kw_world.specs.Sizes.{product};
ghost use Rattle.kw_world.specs.declared.activity.Activity.{Activity};
ghost use Rattle.kw_world.specs.declared.event.Choice.{Choice};
ghost use Rattle.kw_world.specs.declared.part.Part.{Part};

use kw_cells::cell::Cell;
use kw_step_rebal::resume::rebalance_resume;
use kw_words::sizes::{CELL_COUNT, SEAT_COUNT};
use kw_world::activity::Activity;
use kw_world::activity::rebalance::Rebalance;
use kw_world::activity::rebalance::claim::Claim;
use kw_world::activity::rebalance::engage::Engage;
use kw_world::activity::rebalance::freeze::Freeze;
use kw_world::activity::rebalance::gather::Gather;
use kw_world::activity::rebalance::left::Left;
use kw_world::activity::rebalance::replace::Replace;
use kw_world::event::Choice;
use kw_world::local::Local;
use kw_world::marks::Mark;
use std::alloc::Global;

// A seat has row 2 for its full one, whose least key is 40, and after it stands row 6. It does this
// next, with these rows of the group.
fn with_group(
    alloc: Global,
    rebalance: Rebalance,
    second: Option<u32>,
    hand: u32,
    ahead: Option<u32>,
) -> Local
    requires activity { IsActivity product (Activity.Rebalance rebalance) }
    requires done { IsTakingRows (Activity.Rebalance rebalance) → ⊥ }
    ensures ranges { IsLocal product result }
    ensures room { HasRoom product result }
    ensures part { (choice : Choice) → part_of choice result ≡ Part.Rebalance }
{
    let mut local = Local::idle(alloc);
    local.activity = Activity::Rebalance(rebalance);
    local.row = 2;
    local.lower = 40;
    local.candidate = 5;
    local.place = 9;
    local.place_key = 45;
    local.place_version = 3;
    local.rebalance.after = Some(6);
    local.rebalance.second = second;
    local.rebalance.hand = hand;
    local.rebalance.ahead = ahead;
    local.rebalance.before = Some(1);
    local.rebalance.least = 7;
    local
}

// What it knows once its event, made with this choice, has told it this word, in a table of nine
// rows.
fn told(before: Local, choice: Choice, word: u64) -> Local
    requires ranges { IsLocal product before }
    requires room { HasRoom product before }
    requires part { part_of choice before ≡ Part.Rebalance }
{
    let mut local = before;
    rebalance_resume(&mut local, 9, choice, word);
    local
}

// The row after the full one.

// What it does next at this activity of claiming.
fn claims(alloc: Global, claim: Claim, word: u64) -> Activity
    requires { IsActivity product (Activity.Rebalance (Rebalance.Claim claim)) }
{
    let before = with_group(alloc, Rebalance::Claim(claim), None, 0, None);
    told(before, Choice::Go, word).activity
}

// a count of 8 cells has the word 8, and a frozen one of 3 the word 2^32 + 3
#[test]
fn a_row_that_has_given_few_cells_is_to_go_along(rt: HostRuntime) {
    let decides = [
        claims(rt.alloc(), Claim::Count, 8),
        claims(rt.alloc(), Claim::Count, 9),
        claims(rt.alloc(), Claim::Count, 4_294_967_299),
    ];
    let wanted = [
        Activity::Rebalance(Rebalance::Engage(Engage::Decide(2))),
        Activity::Rebalance(Rebalance::Engage(Engage::Decide(1))),
        Activity::Rebalance(Rebalance::Engage(Engage::Decide(1))),
    ];
    assert_eq!(rt; decides, wanted);
}

// an infant of seat 1 has the word 1 + 8 = 9, a normal row the word 2, a follower of row 2 the word
// 4 + 16 = 20 and one of row 5 the word 4 + 40 = 44, a leader of one row the word 3 + 8 = 11, and a
// row retired with the number 9 the word 5 + 72 = 77
#[test]
fn the_state_of_the_next_row_says_whether_it_goes_along(rt: HostRuntime) {
    let goes_on = [
        claims(rt.alloc(), Claim::Exchange, 9),
        claims(rt.alloc(), Claim::Exchange, 2),
        claims(rt.alloc(), Claim::Exchange, 20),
        claims(rt.alloc(), Claim::Exchange, 44),
        claims(rt.alloc(), Claim::Exchange, 11),
        claims(rt.alloc(), Claim::Exchange, 77),
    ];
    let wanted = [
        Activity::Rebalance(Rebalance::Claim(Claim::Normal(1))),
        Activity::Rebalance(Rebalance::Claim(Claim::MarkLink)),
        Activity::Rebalance(Rebalance::Claim(Claim::MarkLink)),
        Activity::Retry,
        Activity::Rebalance(Rebalance::Freeze(Freeze::Count)),
        Activity::Retry,
    ];
    assert_eq!(rt; goes_on, wanted);
}

// the link to row 8 has the word 9
#[test]
fn both_rows_are_frozen_once_the_second_link_is_marked(rt: HostRuntime) {
    let marking = with_group(rt.alloc(), Rebalance::Claim(Claim::MarkLink), None, 0, None);
    let local = told(marking, Choice::Go, 9);
    assert_eq!(rt;
        (
            local.activity,
            local.rebalance.second,
            local.rebalance.after
        ),
        (
            Activity::Rebalance(Rebalance::Freeze(Freeze::Count)),
            Some(6),
            Some(8)
        )
    );
    assert_eq!(rt; (local.rebalance.hand, local.rebalance.ahead), (2, Some(6)));
}

// The rows of a group.

// What it does next, which row is at hand and which one ahead, where it leads both rows and the
// first one is at hand.
fn after_first(alloc: Global, rebalance: Rebalance, word: u64) -> (Activity, u32, Option<u32>)
    requires activity { IsActivity product (Activity.Rebalance rebalance) }
    requires done { IsTakingRows (Activity.Rebalance rebalance) → ⊥ }
{
    let before = with_group(alloc, rebalance, Some(6), 2, Some(6));
    let local = told(before, Choice::Go, word);
    (local.activity, local.rebalance.hand, local.rebalance.ahead)
}

// What it does next, where the second one is at hand.
fn after_second(alloc: Global, rebalance: Rebalance, word: u64) -> Activity
    requires activity { IsActivity product (Activity.Rebalance rebalance) }
    requires done { IsTakingRows (Activity.Rebalance rebalance) → ⊥ }
{
    let before = with_group(alloc, rebalance, Some(6), 6, None);
    told(before, Choice::Go, word).activity
}

// an entry that is frozen has the word 3
#[test]
fn the_second_row_is_frozen_after_the_first(rt: HostRuntime) {
    let last = Rebalance::Freeze(Freeze::Look(SEAT_COUNT - 1));
    assert_eq!(rt;
        after_first(rt.alloc(), last, 3),
        (
            Activity::Rebalance(Rebalance::Freeze(Freeze::Count)),
            6,
            None
        )
    );
    assert_eq!(rt;
        after_second(rt.alloc(), last, 3),
        Activity::Rebalance(Rebalance::Freeze(Freeze::Scan(0)))
    );
}

// a link to no cell has the word 0
#[test]
fn the_second_row_is_gathered_after_the_first(rt: HostRuntime) {
    let list = Rebalance::Gather(Gather::Link);
    assert_eq!(rt;
        after_first(rt.alloc(), list, 0),
        (
            Activity::Rebalance(Rebalance::Gather(Gather::Link)),
            6,
            None
        )
    );
}

#[test]
fn the_second_row_is_retired_after_the_first(rt: HostRuntime) {
    let retire = Rebalance::Replace(Replace::Retire);
    assert_eq!(rt;
        after_first(rt.alloc(), retire, 0),
        (
            Activity::Rebalance(Rebalance::Replace(Replace::Number)),
            6,
            None
        )
    );
    assert_eq!(rt; after_second(rt.alloc(), retire, 0), Activity::Retry);
}

// the cell 5 stamped with the version 3 has the word 2 + 4 * 5 + 2^15 * 3, and the value 8 the word
// 2^63 + 8
#[test]
fn the_cells_of_the_second_row_have_places_of_their_own(rt: HostRuntime) {
    let looks = with_group(
        rt.alloc(),
        Rebalance::Freeze(Freeze::Look(3)),
        Some(6),
        6,
        None,
    );
    let saw = told(looks, Choice::Go, 98_326);
    let mark = Mark {
        cell: CELL_COUNT + 5,
        version: 3,
    };
    assert_eq!(rt; saw.rebalance.marks.as_slice(), [mark].as_slice());
    let reads = with_group(
        rt.alloc(),
        Rebalance::Gather(Gather::Value),
        Some(6),
        6,
        None,
    );
    let read = told(reads, Choice::Go, 9_223_372_036_854_775_816);
    let cell = Cell {
        key: 45,
        place: CELL_COUNT + 9,
        version: 3,
        value: Some(8),
    };
    assert_eq!(rt; read.rebalance.gathered.as_slice(), [cell].as_slice());
}

// The way left.

// What it does next on that way, its row and that row's least key, and where its walk is.
fn goes_left(
    alloc: Global,
    left: Left,
    choice: Choice,
    word: u64,
) -> (Activity, u32, u32, Option<u32>)
    requires { IsActivity product (Activity.Rebalance (Rebalance.Left left)) }
{
    let before = with_group(alloc, Rebalance::Left(left), None, 0, None);
    let local = told(before, choice, word);
    (
        local.activity,
        local.row,
        local.lower,
        local.rebalance.before,
    )
}

// the link to row 0 has the word 1, that to row 2 the word 3, and that to row 5 the word 6; a least
// key is its own word where the row was built with no cell
#[test]
fn the_seat_of_a_follower_goes_to_the_row_that_leads_to_it(rt: HostRuntime) {
    let walks = Activity::Rebalance(Rebalance::Left(Left::Next));
    let looks = Activity::Rebalance(Rebalance::Left(Left::NextLeast));
    let leads = Activity::Rebalance(Rebalance::Engage(Engage::Clock));
    let way = [
        goes_left(rt.alloc(), Left::Start, Choice::Go, 1),
        goes_left(rt.alloc(), Left::Next, Choice::Go, 6),
        goes_left(rt.alloc(), Left::NextLeast, Choice::Go, 39),
        goes_left(rt.alloc(), Left::Next, Choice::Go, 3),
        goes_left(rt.alloc(), Left::Start, Choice::Guess(4), 33),
    ];
    let wanted = [
        (walks, 2, 40, Some(0)),
        (looks, 2, 40, Some(1)),
        (walks, 2, 40, Some(5)),
        (leads, 1, 7, None),
        (leads, 1, 33, None),
    ];
    assert_eq!(rt; way, wanted);
}

#[test]
fn a_follower_without_a_leader_was_replaced(rt: HostRuntime) {
    let ends = [
        goes_left(rt.alloc(), Left::Start, Choice::Go, 3).0,
        goes_left(rt.alloc(), Left::Next, Choice::Go, 0).0,
        goes_left(rt.alloc(), Left::NextLeast, Choice::Go, 40).0,
    ];
    assert_eq!(rt; ends, [Activity::Retry; 3]);
}
