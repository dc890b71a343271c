//! One event of each topic of a rebalance: what a seat knows after it, or what it stores.
ghost use Rattle.std.specs.Prelude.{◌≡◌, ◌<◌, ◌≤◌, length, IfOk, None};
ghost use Rattle.kw_world.specs.Sane.{HasRoom, IsActivity, IsLocal, IsOfPart, IsSane, IsTakingRows};
ghost use Rattle.kw_world.specs.Parts.{part_of};
ghost use Rattle.kw_world.specs.Sizes.{product};
ghost use Rattle.kw_world.specs.declared.activity.Activity.{Activity};
ghost use Rattle.kw_world.specs.declared.event.Choice.{Choice};
ghost use Rattle.kw_world.specs.declared.part.Part.{Part};

use kw_cells::cell::Cell;
use kw_cells::pack::RowCuts;
use kw_model::memory::Memory;
use kw_step_rebal::operation::rebalance_operation;
use kw_step_rebal::resume::rebalance_resume;
use kw_step_rebal::step::rebalance_step;
use kw_words::kind::Kind;
use kw_words::layout::Name;
use kw_words::sizes::SEAT_COUNT;
use kw_world::activity::Activity;
use kw_world::activity::rebalance::Rebalance;
use kw_world::activity::rebalance::engage::Engage;
use kw_world::activity::rebalance::freeze::Freeze;
use kw_world::activity::rebalance::gather::Gather;
use kw_world::activity::rebalance::left::Left;
use kw_world::activity::rebalance::replace::Replace;
use kw_world::activity::rebalance::seek::Seek;
use kw_world::activity::rebalance::write::Write;
use kw_world::event::{Choice, Event, StepDone};
use kw_world::local::Local;
use kw_world::marks::Mark;
use kw_world::operation::{Action, Operation};
use kw_world::rebalance::Afterwards;
use kw_world::rebuilt::{KeptCells, Starts};
use kw_world::world::World;
use std::alloc::Global;
use std::test::Fail;

// Three rows and two seats; seat 1 is about to begin a rebalance, and the clock is 7.
fn before_a_rebalance(alloc: Global) -> Result<World, Memory>
    ensures sane { IfOk result (λ world. IsSane product world) }
    ensures seat { IfOk result (λ world. 1 < length world.locals) }
    ensures part { IfOk result (λ world. (choice : Choice) →
        IsOfPart Part.Rebalance world (record { seat = 1; choice = choice })) }
{
    let mut world = World::open(alloc, 3, 2, 7, 9)?;
    world.local_mut(1).activity = Activity::Rebalance(Rebalance::Engage(Engage::Clock));
    Ok(world)
}

// Seat 1 makes an event of its rebalance.
fn go_on(world: &mut World) -> Result<StepDone, Memory>
    requires sane { IsSane product world.old }
    requires seat { 1 < length world.old.locals }
    requires part { IsOfPart Part.Rebalance world.old (record { seat = 1; choice = Choice.Go }) }
    ensures { IfOk result (λ _. 1 < length world.new.locals) }
{
    let choice = Choice::Go;
    let done = rebalance_step(world, Event { seat: 1, choice })?;
    Ok(done)
}

#[test]
fn a_rebalance_begins_with_the_clock(rt: HostRuntime) -> Result<(), Fail> {
    let mut world = before_a_rebalance(rt.alloc())?;
    let done = go_on(&mut world)?;
    assert_eq!(rt;
        (done, world.local(1).activity, world.local(0).activity),
        (
            StepDone::Moved,
            Activity::Rebalance(Rebalance::Engage(Engage::Epoch)),
            Activity::Idle
        )
    );
    Ok(())
}

// What a seat knows once its event has told it this word, in a table of three rows.
fn told(before: Local, word: u64) -> Local
    requires ranges { IsLocal product before }
    requires room { HasRoom product before }
    requires part { part_of Choice.Go before ≡ Part.Rebalance }
{
    let mut local = before;
    rebalance_resume(&mut local, 3, Choice::Go, word);
    local
}

// A seat looks at the state of row 2, the full one, whose least key is 40.
fn at_a_state(alloc: Global) -> Local
    ensures ranges { IsLocal product result }
    ensures room { HasRoom product result }
    ensures part { part_of Choice.Go result ≡ Part.Rebalance }
{
    let mut local = Local::idle(alloc);
    local.activity = Activity::Rebalance(Rebalance::Engage(Engage::State));
    local.row = 2;
    local.lower = 40;
    local
}

// What it does next, its row and that row's least key, where the state is this word.
fn after_state(alloc: Global, word: u64) -> (Activity, u32, u32) {
    let local = told(at_a_state(alloc), word);
    (local.activity, local.row, local.lower)
}

// What helps the leader of so many rows.
fn helps(count: u32) -> Activity {
    Activity::Rebalance(Rebalance::Engage(Engage::MarkLink(count)))
}

// a leader of one row has the word 3 + 8, and one of two rows 3 + 16
#[test]
fn a_leader_of_one_row_or_two_is_helped(rt: HostRuntime) {
    assert_eq!(rt;
        [after_state(rt.alloc(), 11), after_state(rt.alloc(), 19)],
        [(helps(1), 2, 40), (helps(2), 2, 40)]
    );
}

// a follower of row 1 has the word 4 + 8
#[test]
fn the_seat_of_a_follower_goes_left(rt: HostRuntime) {
    let left = Activity::Rebalance(Rebalance::Left(Left::Start));
    assert_eq!(rt; after_state(rt.alloc(), 12), (left, 2, 40));
}

// A seat looks at the entry of seat 3 in row 2.
fn at_an_entry(alloc: Global) -> Local
    ensures ranges { IsLocal product result }
    ensures room { HasRoom product result }
    ensures part { part_of Choice.Go result ≡ Part.Rebalance }
{
    let mut local = Local::idle(alloc);
    local.activity = Activity::Rebalance(Rebalance::Freeze(Freeze::Look(3)));
    local.row = 2;
    local.rebalance.hand = 2;
    local
}

// the cell 5 stamped with the version 3 has the word 2 + 4 * 5 + 2^15 * 3
#[test]
fn a_stamped_cell_is_remembered(rt: HostRuntime) {
    let local = told(at_an_entry(rt.alloc()), 98_326);
    let mark = Mark {
        cell: 5,
        version: 3,
    };
    assert_eq!(rt;
        (local.activity, local.rebalance.marks.as_slice()),
        (
            Activity::Rebalance(Rebalance::Freeze(Freeze::Look(4))),
            [mark].as_slice()
        )
    );
}

// A seat has tried to give the version 6 to the scan of the last seat, which waited with the clock
// 4.
fn at_a_scan(alloc: Global) -> Local
    ensures ranges { IsLocal product result }
    ensures room { HasRoom product result }
    ensures part { part_of Choice.Go result ≡ Part.Rebalance }
{
    let mut local = Local::idle(alloc);
    local.activity = Activity::Rebalance(Rebalance::Freeze(Freeze::Settle(SEAT_COUNT - 1)));
    local.rebalance.waiting = 4;
    local.rebalance.drawn = 6;
    local
}

// a scan that waits with the clock 4 has the word 1 + 4 * 4
#[test]
fn the_version_of_a_helped_scan_is_needed(rt: HostRuntime) {
    let local = told(at_a_scan(rt.alloc()), 17);
    assert_eq!(rt;
        (local.activity, local.rebalance.needed.as_slice()),
        (
            Activity::Rebalance(Rebalance::Gather(Gather::Link)),
            [6].as_slice()
        )
    );
}

// A seat looks at the pin of this one, and needs no version yet.
fn at_a_pin(alloc: Global, seat: u32) -> Local
    requires activity { IsActivity product (Activity.Rebalance (Rebalance.Freeze (Freeze.Pin seat))) }
    ensures ranges { IsLocal product result }
    ensures room { HasRoom product result }
    ensures part { part_of Choice.Go result ≡ Part.Rebalance }
{
    let mut local = Local::idle(alloc);
    local.activity = Activity::Rebalance(Rebalance::Freeze(Freeze::Pin(seat)));
    local
}

// a pin of the version 7 has the word 2 + 4 * 7, and a seat that pins nothing the word 0
#[test]
fn the_version_of_a_pin_is_needed(rt: HostRuntime) {
    let load = Operation {
        kind: Kind::LoadPin,
        name: Name::Pin(3),
        action: Action::Load,
    };
    assert_eq!(rt;
        rebalance_operation(1, &at_a_pin(rt.alloc(), 3), Choice::Go),
        load
    );
    let next = Activity::Rebalance(Rebalance::Freeze(Freeze::Pin(4)));
    let pinned = told(at_a_pin(rt.alloc(), 3), 30);
    assert_eq!(rt;
        (pinned.activity, pinned.rebalance.needed.as_slice()),
        (next, [7].as_slice())
    );
    let free = told(at_a_pin(rt.alloc(), 3), 0);
    assert_eq!(rt;
        (free.activity, free.rebalance.needed.as_slice().len()),
        (next, 0)
    );
}

#[test]
fn cells_are_gathered_after_the_last_pin(rt: HostRuntime) {
    let local = told(at_a_pin(rt.alloc(), SEAT_COUNT - 1), 30);
    assert_eq!(rt;
        (local.activity, local.rebalance.needed.as_slice()),
        (
            Activity::Rebalance(Rebalance::Gather(Gather::Link)),
            [7].as_slice()
        )
    );
}

// A seat is about to read the value of the last cell of the full row, of key 45 and version 3, at
// the place 9.
fn at_the_last_cell(alloc: Global) -> Local
    ensures ranges { IsLocal product result }
    ensures room { HasRoom product result }
    ensures part { part_of Choice.Go result ≡ Part.Rebalance }
{
    let mut local = Local::idle(alloc);
    local.activity = Activity::Rebalance(Rebalance::Gather(Gather::LeftOverValue));
    local.place = 9;
    local.place_key = 45;
    local.place_version = 3;
    local
}

// the value 8 has the word 2^63 + 8
#[test]
fn the_last_cell_is_kept_in_one_new_row(rt: HostRuntime) {
    let local = told(at_the_last_cell(rt.alloc()), 9_223_372_036_854_775_816);
    let kept = Cell {
        key: 45,
        place: 9,
        version: 3,
        value: Some(8),
    };
    assert_eq!(rt;
        (
            local.activity,
            (local.rebalance.sought, local.rebalance.asked),
            local.rebalance.kept.as_slice(),
            local.rebalance.starts.as_slice()
        ),
        (
            Activity::Rebalance(Rebalance::Seek(Seek::First)),
            (0, 1),
            [kept].as_slice(),
            [0].as_slice()
        )
    );
}

// A seat needs one row, has asked two, of which row 1 was the last, knows the number 6, and does
// this next of its search.
fn asking(alloc: Global, seek: Seek) -> Local
    requires activity { IsActivity product (Activity.Rebalance (Rebalance.Seek seek)) }
    ensures ranges { IsLocal product result }
    ensures room { HasRoom product result }
    ensures part { part_of Choice.Go result ≡ Part.Rebalance }
{
    let mut starts = RowCuts::new();
    starts.push(0);
    let mut local = Local::idle(alloc);
    local.activity = Activity::Rebalance(Rebalance::Seek(seek));
    local.rebalance.starts = Starts::of(starts);
    local.rebalance.sought = 1;
    local.rebalance.asked = 2;
    local.rebalance.number = 6;
    local
}

// What it does then, which row it asks, how many it has asked, and the number that it knows.
fn after_asking(alloc: Global, seek: Seek, word: u64) -> (Activity, u32, u32, u64)
    requires { IsActivity product (Activity.Rebalance (Rebalance.Seek seek)) }
{
    let local = told(asking(alloc, seek), word);
    (
        local.activity,
        local.rebalance.sought,
        local.rebalance.asked,
        local.rebalance.number,
    )
}

// The first of the rows that it has taken then, and how many these are.
fn taken_after_asking(alloc: Global, seek: Seek, word: u64) -> (Option<u32>, usize)
    requires { IsActivity product (Activity.Rebalance (Rebalance.Seek seek)) }
{
    let local = told(asking(alloc, seek), word);
    let taken = local.rebalance.taken.as_slice();
    (taken.first().copied(), taken.len())
}

// The operation that it makes.
fn asked(alloc: Global, seek: Seek) -> Operation
    requires { IsActivity product (Activity.Rebalance (Rebalance.Seek seek)) }
{
    rebalance_operation(1, &asking(alloc, seek), Choice::Go)
}

// What goes on with the search.
fn seeks(seek: Seek) -> Activity {
    Activity::Rebalance(Rebalance::Seek(seek))
}

// a free row has the word 0, and a normal one the word 2
#[test]
fn a_row_is_taken_where_it_was_free(rt: HostRuntime) {
    let writes = Activity::Rebalance(Rebalance::Write(Write::Count));
    assert_eq!(rt;
        [
            after_asking(rt.alloc(), Seek::Take, 0),
            after_asking(rt.alloc(), Seek::Take, 2)
        ],
        [(writes, 1, 2, 6), (seeks(Seek::Next), 2, 3, 6)]
    );
    assert_eq!(rt; taken_after_asking(rt.alloc(), Seek::Take, 0), (Some(1), 1));
}

// a row that was retired with the number 9 has the word 5 + 8 * 9
#[test]
fn the_number_of_a_retired_row_is_remembered(rt: HostRuntime) {
    assert_eq!(rt;
        after_asking(rt.alloc(), Seek::Next, 77),
        (seeks(Seek::Pass(0)), 1, 2, 9)
    );
}

// a seat that announces no epoch has the word 0 for its pass, and any other one its epoch
#[test]
fn the_pass_of_each_seat_is_looked_at(rt: HostRuntime) {
    let load = Operation {
        kind: Kind::LoadPass,
        name: Name::Pass(2),
        action: Action::Load,
    };
    assert_eq!(rt; asked(rt.alloc(), Seek::Pass(2)), load);
    assert_eq!(rt;
        [
            after_asking(rt.alloc(), Seek::Pass(2), 0),
            after_asking(rt.alloc(), Seek::Pass(2), 7),
            after_asking(rt.alloc(), Seek::Pass(SEAT_COUNT - 1), 7)
        ],
        [
            (seeks(Seek::Pass(3)), 1, 2, 6),
            (seeks(Seek::Pass(3)), 1, 2, 6),
            (seeks(Seek::Reclaim), 1, 2, 6)
        ]
    );
}

#[test]
fn a_pass_up_to_the_number_keeps_the_row_from_use(rt: HostRuntime) {
    assert_eq!(rt;
        [
            after_asking(rt.alloc(), Seek::Pass(2), 6),
            after_asking(rt.alloc(), Seek::Pass(SEAT_COUNT - 1), 5)
        ],
        [(seeks(Seek::Next), 2, 3, 6); 2]
    );
}

// a row that was retired with the number 6 has the word 5 + 8 * 6, a free one the word 0, and a
// normal one the word 2
#[test]
fn a_row_that_is_freed_is_tried(rt: HostRuntime) {
    let reclaim = Operation {
        kind: Kind::Reclaim,
        name: Name::State(1),
        action: Action::Exchange(53, 0),
    };
    assert_eq!(rt; asked(rt.alloc(), Seek::Reclaim), reclaim);
    assert_eq!(rt;
        [
            after_asking(rt.alloc(), Seek::Reclaim, 53),
            after_asking(rt.alloc(), Seek::Reclaim, 2)
        ],
        [(seeks(Seek::Take), 1, 2, 6); 2]
    );
}

// A cell without a value.
fn tombstone(key: u32, version: u64) -> Cell
    ensures { result ≡ record { key = key; place = 0; version = version; value = None } }
{
    Cell {
        key,
        place: 0,
        version,
        value: None,
    }
}

// A seat has two new rows, 3 and 5, of three kept cells and of one, and does this next, with the
// first or the second at hand. The full row is row 2, whose least key is 40, and after it stands
// row 7.
fn with_new_rows(alloc: Global, rebalance: Rebalance, at: usize) -> Local
    requires activity { IsActivity product (Activity.Rebalance rebalance) }
    requires done { IsTakingRows (Activity.Rebalance rebalance) → ⊥ }
    requires at { at ≤ 1 }
    ensures ranges { IsLocal product result }
    ensures room { HasRoom product result }
    ensures part { part_of Choice.Go result ≡ Part.Rebalance }
{
    let mut kept = KeptCells::new();
    kept.push(tombstone(45, 1));
    kept.push(tombstone(45, 3));
    kept.push(tombstone(47, 2));
    kept.push(tombstone(48, 2));
    let mut starts = RowCuts::new();
    starts.push(0);
    starts.push(3);
    let mut local = Local::idle(alloc);
    local.activity = Activity::Rebalance(rebalance);
    local.row = 2;
    local.lower = 40;
    local.rebalance.after = Some(7);
    local.rebalance.kept = kept;
    local.rebalance.starts = Starts::of(starts);
    local.rebalance.taken.push(3);
    local.rebalance.taken.push(5);
    local.rebalance.at = at;
    local
}

// What it stores by its event.
fn stored(alloc: Global, write: Write, at: usize) -> Option<(Name, u64)>
    requires activity { IsActivity product (Activity.Rebalance (Rebalance.Write write)) }
    requires at { at ≤ 1 }
{
    let local = with_new_rows(alloc, Rebalance::Write(write), at);
    match rebalance_operation(1, &local, Choice::Go) {
        Operation {
            name,
            action: Action::Store(word),
            ..
        } => Some((name, word)),
        _ => None,
    }
}

// the list of the first row is 45 at 3, 45 at 1, 47 at 2: the places 1, 0, 2, whose links have the
// words 2, 1, 3
#[test]
fn a_new_row_is_listed_by_falling_version(rt: HostRuntime) {
    let links = [
        stored(rt.alloc(), Write::First, 0),
        stored(rt.alloc(), Write::After(1), 0),
        stored(rt.alloc(), Write::After(0), 0),
        stored(rt.alloc(), Write::After(2), 0),
    ];
    let wanted = [
        Some((Name::First(3), 2)),
        Some((Name::After(3, 1), 1)),
        Some((Name::After(3, 0), 3)),
        Some((Name::After(3, 2), 0)),
    ];
    assert_eq!(rt; links, wanted);
}

// What it writes behind this word of the first row.
fn written_next(alloc: Global, write: Write) -> Activity
    requires activity { IsActivity product (Activity.Rebalance (Rebalance.Write write)) }
{
    let mut local = with_new_rows(alloc, Rebalance::Write(write), 0);
    rebalance_resume(&mut local, 9, Choice::Go, 0);
    local.activity
}

// the first row has three cells, and so no cell at place 3: its version alone is stored there
#[test]
fn no_link_is_stored_behind_the_cells_of_a_new_row(rt: HostRuntime) {
    let next = [
        written_next(rt.alloc(), Write::Version(2)),
        written_next(rt.alloc(), Write::After(2)),
        written_next(rt.alloc(), Write::Version(3)),
    ];
    let wanted = [
        Activity::Rebalance(Rebalance::Write(Write::After(2))),
        Activity::Rebalance(Rebalance::Write(Write::Version(3))),
        Activity::Rebalance(Rebalance::Write(Write::Version(4))),
    ];
    assert_eq!(rt; next, wanted);
}

// the link to row 5 has the word 6, and that to row 7 the word 8; row 3 is built with three cells,
// and row 5 with one, each of which adds 2^32 = 4,294,967,296 to the word of the least key
#[test]
fn new_rows_are_linked_before_the_row_after_the_full_one(rt: HostRuntime) {
    let words = [
        stored(rt.alloc(), Write::Count, 0),
        stored(rt.alloc(), Write::Least, 0),
        stored(rt.alloc(), Write::Next, 0),
        stored(rt.alloc(), Write::Next, 1),
        stored(rt.alloc(), Write::Least, 1),
    ];
    let wanted = [
        Some((Name::Count(3), 3)),
        Some((Name::Least(3), 12_884_901_928)),
        Some((Name::Next(3), 6)),
        Some((Name::Next(5), 8)),
        Some((Name::Least(5), 4_294_967_344)),
    ];
    assert_eq!(rt; words, wanted);
}

// A seat that is about to link its new rows in place of the full one.
fn linking(alloc: Global) -> Local
    ensures ranges { IsLocal product result }
    ensures room { HasRoom product result }
    ensures part { part_of Choice.Go result ≡ Part.Rebalance }
{
    with_new_rows(alloc, Rebalance::Replace(Replace::Exchange), 0)
}

// The operation by which it links them.
fn links_by(alloc: Global) -> Operation {
    rebalance_operation(1, &linking(alloc), Choice::Go)
}

// What it does once that has reached this word, in a table of nine rows, which of the new rows is
// at hand, and what follows once they are given back.
fn after_linking(alloc: Global, word: u64) -> (Activity, usize, Afterwards) {
    let mut local = linking(alloc);
    rebalance_resume(&mut local, 9, Choice::Go, word);
    (
        local.activity,
        local.rebalance.at,
        local.rebalance.afterwards,
    )
}

// an unmarked link to the full row has the word 3, and a marked one 2^32 more
#[test]
fn new_rows_are_made_normal_once_they_are_linked(rt: HostRuntime) {
    let replace = Operation {
        kind: Kind::Replace,
        name: Name::Head,
        action: Action::Exchange(3, 4),
    };
    assert_eq!(rt; links_by(rt.alloc()), replace);
    let normalises = Activity::Rebalance(Rebalance::Replace(Replace::Normalise));
    assert_eq!(rt;
        [
            after_linking(rt.alloc(), 3),
            after_linking(rt.alloc(), 4_294_967_299)
        ],
        [
            (normalises, 0, Afterwards::TryAgain),
            (seeks(Seek::GiveBack), 0, Afterwards::MoveLeft)
        ]
    );
}
