//! The calls of the kinds, each made in its place.
//!
//! The words that they find are those of runs that were worked by hand from the encodings: a clock
//! and an epoch of 1, row 0 as the first row, whose state is 2, its key 5 and its value 10, which
//! is 10 above 2^63 in its word. What a store leaves shows in a load or an exchange that comes
//! later, where one of this table loads that word.
//!
//! A test is a list of turns that two passes take, and what each turn was told. One loop makes the
//! turns of every list, so that their events are proved once.
ghost use Rattle.std.specs.Prelude.{◌≡◌, true, false, IfOk};
ghost use Rattle.kw_world.specs.Local.{resting};
ghost use Rattle.kw_world.specs.Opening.{IsOpening};
ghost use Rattle.kw_world.specs.Sane.{CanBegin};
ghost use Rattle.kw_world.specs.Sizes.{product};
ghost use Rattle.kw_world.specs.Step.{is_skipped};
ghost use Rattle.kw_core.specs.Events.{is_call_in_range, may_begin};
ghost use Rattle.kw_table.specs.Passes.{view, Asks, IsPassOf, Makes};
ghost use Rattle.kw_table.specs.Views.{local_in};

use kw_core::step::{operation, resume};
use kw_model::call::Call;
use kw_model::memory::Memory;
use kw_table::{
    Pass, Shared, add_count, announce, clear_pass, clear_pend, clear_scan, draw, freeze_pend,
    insert, load_after, load_clock, load_count, load_epoch, load_head, load_key, load_least,
    load_link, load_pass, load_pend, load_scan, load_state, load_value, load_version, make,
    reclaim, settle, stamp, store_after, store_infant, store_key, store_pass, store_value,
    store_version, store_waiting, take_row,
};
use kw_words::kind::Kind;
use kw_words::sizes::{SEAT_COUNT, SEATS};
use kw_world::activity::Activity;
use kw_world::event::Choice;
use kw_world::local::Local;
use kw_world::operation::{Action, Operation};
use std::alloc::Global;
use std::process::Abort;
use std::test::Fail;

// More events than any call of these tests makes.
pub(crate) const ALL: u32 = 1000;

// A load that is made by `Go`, by the call of its kind.
#[tactic(auto, using(crate::proofs::AskedOperations::asks_for))]
fn load(shared: &Shared, pass: &mut Pass, does: Operation) -> u64
    requires asks { Asks shared.now pass.old Choice.Go does }
    requires action { does.action ≡ Action.Load }
    ensures { Makes shared.now pass.old Choice.Go result pass.new }
{
    let word = does.name;
    match does.kind {
        Kind::LoadCount => load_count(shared, pass, word),
        Kind::LoadClock => load_clock(shared, pass, word),
        Kind::LoadPend => load_pend(shared, pass, word),
        Kind::LoadKey => load_key(shared, pass, Choice::Go, word),
        Kind::LoadValue => load_value(shared, pass, word),
        Kind::LoadVersion => load_version(shared, pass, word),
        Kind::LoadAfter => load_after(shared, pass, word),
        Kind::LoadHead => load_head(shared, pass, word),
        Kind::LoadLink => load_link(shared, pass, word),
        Kind::LoadLeast => load_least(shared, pass, word),
        Kind::LoadState => load_state(shared, pass, Choice::Go, word),
        Kind::LoadScan => load_scan(shared, pass, word),
        Kind::LoadPass => load_pass(shared, pass, word),
        _ => make(shared, pass, Choice::Go, does),
    }
}

// A store that is made by `Go`, by the call of its kind.
#[tactic(auto, using(crate::proofs::AskedOperations::asks_for))]
fn store(shared: &Shared, pass: &mut Pass, does: Operation, stored: u64) -> u64
    requires asks { Asks shared.now pass.old Choice.Go does }
    requires action { does.action ≡ Action.Store stored }
    ensures { Makes shared.now pass.old Choice.Go result pass.new }
{
    let word = does.name;
    match does.kind {
        Kind::StorePass => store_pass(shared, pass, word, stored),
        Kind::ClearPass => clear_pass(shared, pass, word, stored),
        Kind::StoreKey => store_key(shared, pass, word, stored),
        Kind::StoreValue => store_value(shared, pass, word, stored),
        Kind::StoreVersion => store_version(shared, pass, word, stored),
        Kind::StoreAfter => store_after(shared, pass, word, stored),
        Kind::ClearPend => clear_pend(shared, pass, Choice::Go, word, stored),
        Kind::StoreWaiting => store_waiting(shared, pass, word, stored),
        Kind::ClearScan => clear_scan(shared, pass, Choice::Go, word, stored),
        Kind::StoreInfant => store_infant(shared, pass, word, stored),
        _ => make(shared, pass, Choice::Go, does),
    }
}

// An exchange that is made by `Go`, by the call of its kind.
#[tactic(auto, using(crate::proofs::AskedOperations::asks_for))]
fn exchange(shared: &Shared, pass: &mut Pass, does: Operation, expected: u64, stored: u64) -> u64
    requires asks { Asks shared.now pass.old Choice.Go does }
    requires action { does.action ≡ Action.Exchange expected stored }
    ensures { Makes shared.now pass.old Choice.Go result pass.new }
{
    let word = does.name;
    match does.kind {
        Kind::Announce => announce(shared, pass, word, expected, stored),
        Kind::Stamp => stamp(shared, pass, word, expected, stored),
        Kind::Insert => insert(shared, pass, word, expected, stored),
        Kind::Settle => settle(shared, pass, word, expected, stored),
        Kind::FreezePend => freeze_pend(shared, pass, word, expected, stored),
        Kind::Reclaim => reclaim(shared, pass, word, expected, stored),
        Kind::TakeRow => take_row(shared, pass, word, expected, stored),
        _ => make(shared, pass, Choice::Go, does),
    }
}

// An addition that is made by `Go`, by the call of its kind.
#[tactic(auto, using(crate::proofs::AskedOperations::asks_for))]
fn add(shared: &Shared, pass: &mut Pass, does: Operation, by: u64) -> u64
    requires asks { Asks shared.now pass.old Choice.Go does }
    requires action { does.action ≡ Action.Add by }
    ensures { Makes shared.now pass.old Choice.Go result pass.new }
{
    let word = does.name;
    match does.kind {
        Kind::AddCount => add_count(shared, pass, word, by),
        Kind::Draw => draw(shared, pass, word, by),
        _ => make(shared, pass, Choice::Go, does),
    }
}

// An operation that is made by `Go`, by the call of its kind.
fn go_by_kind(shared: &Shared, pass: &mut Pass, does: Operation) -> u64
    requires { Asks shared.now pass.old Choice.Go does }
    ensures { Makes shared.now pass.old Choice.Go result pass.new }
{
    match does.action {
        Action::Load => load(shared, pass, does),
        Action::Store(stored) => store(shared, pass, does, stored),
        Action::Exchange(expected, stored) => exchange(shared, pass, does, expected, stored),
        Action::Add(by) => add(shared, pass, does, by),
        Action::Or(_) => make(shared, pass, Choice::Go, does),
    }
}

// An operation, by the call of its kind: the two kinds that other choices than `Go` make here are
// the first event of a call and the load of the state of a row that is guessed.
#[tactic(auto, using(crate::proofs::AskedOperations::asks_for))]
fn make_by_kind(shared: &Shared, pass: &mut Pass, choice: Choice, does: Operation) -> u64
    requires { Asks shared.now pass.old choice does }
    ensures { Makes shared.now pass.old choice result pass.new }
{
    if let Choice::Go = choice {
        return go_by_kind(shared, pass, does);
    }
    match (does.action, does.kind) {
        (Action::Load, Kind::LoadEpoch) => load_epoch(shared, pass, choice, does.name),
        (Action::Load, Kind::LoadState) => load_state(shared, pass, choice, does.name),
        _ => make(shared, pass, choice, does),
    }
}

// A pass, and what its seat knows.
#[derive(Drop)]
pub(crate) struct Player {
    pub(crate) pass: Pass,
    pub(crate) local: Local,
}

// A table of two rows that begins with this clock and this epoch, and its two passes, the first one
// first.
pub(crate) fn open_two(
    alloc: Global,
    clock: u64,
    epoch: u64,
) -> Result<(Shared, Player, Player), Memory>
    requires { IsOpening product (record { rows = 2; seats = 2; clock = clock; epoch = epoch }) }
    ensures first { IfOk result (λ made. IsPassOf made.0 made.1.pass
        × (made.1.local ≡ local_in (view made.1.pass))) }
    ensures second { IfOk result (λ made. IsPassOf made.0 made.2.pass
        × (made.2.local ≡ local_in (view made.2.pass))) }
    ensures idle { IfOk result (λ made. (made.1.local ≡ resting 0) × (made.2.local ≡ resting 0)) }
{
    let (shared, mut passes) = Shared::open(alloc, 2, 2, clock, epoch)?;
    let (Some(second), Some(first)) = (passes.pop(), passes.pop()) else {
        unreachable!()
    };
    let first = Player {
        pass: first,
        local: Local::idle(alloc),
    };
    let second = Player {
        pass: second,
        local: Local::idle(alloc),
    };
    Ok((shared, first, second))
}

// Which of the two passes takes a turn.
#[derive(Clone, Copy)]
pub(crate) enum Who {
    First,
    Second,
}

// What a pass does in its turn. An idle one alone begins a call.
#[derive(Clone, Copy)]
pub(crate) enum Turn {
    // The first event of a put: its key, then its value.
    Put(u32, u32),
    // The first event of a get.
    Get(u32),
    // The first event of a scan.
    Scan(u32, u32),
    // The next event, where the walk begins at this row.
    Guess(u32),
    // The next events of the call, this many, or fewer where it ends.
    Go(u32),
    // This many whole puts of one key and the value 1.
    Puts(u32, u32),
    // This many whole puts of the key and the next ones, with the value 1.
    PutsFrom(u32, u32),
}

// The next event of a pass by the call of its kind. Gives the kind and what it was told.
fn advance(
    shared: &Shared,
    pass: &mut Pass,
    local: &mut Local,
    choice: Choice,
) -> Result<(Kind, u64), Memory>
    requires table { IsPassOf shared.now pass.old }
    requires knows { local.old ≡ local_in (view pass.old) }
    requires begins { may_begin local.old.activity choice ≡ true }
    requires counts { CanBegin choice local.old }
    requires moves { is_skipped local.old.activity choice ≡ false }
    ensures table { IsPassOf shared.now pass.new }
    ensures knows { IfOk result (λ _. local.new ≡ local_in (view pass.new)) }
{
    let rows = shared.rows();
    let offered = choice.offered(rows);
    let does = operation(pass.number(), local, offered);
    let told = make_by_kind(shared, pass, choice, does);
    resume(local, rows, offered, told)?;
    Ok((does.kind, told))
}

// The first event of a call, where the seat is idle and has begun no more than so many.
fn begin(
    alloc: Global,
    shared: &Shared,
    player: &mut Player,
    call: Call,
) -> Result<Vec<(Kind, u64)>, Memory>
    requires table { IsPassOf shared.now player.old.pass }
    requires knows { player.old.local ≡ local_in (view player.old.pass) }
    requires range { is_call_in_range call ≡ true }
    ensures table { IfOk result (λ _. IsPassOf shared.now player.new.pass) }
    ensures knows { IfOk result (λ _. player.new.local ≡ local_in (view player.new.pass)) }
{
    let mut made = Vec::new(alloc);
    if let Activity::Idle = player.local.activity {
        if player.local.number < ALL {
            made.push(advance(
                shared,
                &mut player.pass,
                &mut player.local,
                Choice::Begin(call),
            )?)?;
        }
    }
    Ok(made)
}

// The next event of a call, with this choice.
fn guess(
    alloc: Global,
    shared: &Shared,
    player: &mut Player,
    row: u32,
) -> Result<Vec<(Kind, u64)>, Memory>
    requires table { IsPassOf shared.now player.old.pass }
    requires knows { player.old.local ≡ local_in (view player.old.pass) }
    ensures table { IfOk result (λ _. IsPassOf shared.now player.new.pass) }
    ensures knows { IfOk result (λ _. player.new.local ≡ local_in (view player.new.pass)) }
{
    let mut made = Vec::new(alloc);
    let choice = Choice::Guess(row);
    if !player.local.activity.skips(choice) {
        made.push(advance(shared, &mut player.pass, &mut player.local, choice)?)?;
    }
    Ok(made)
}

// The next events of a call, this many, or fewer where the call ends.
fn play(
    alloc: Global,
    shared: &Shared,
    player: &mut Player,
    many: u32,
) -> Result<Vec<(Kind, u64)>, Memory>
    requires table { IsPassOf shared.now player.old.pass }
    requires knows { player.old.local ≡ local_in (view player.old.pass) }
    ensures table { IfOk result (λ _. IsPassOf shared.now player.new.pass) }
    ensures knows { IfOk result (λ _. player.new.local ≡ local_in (view player.new.pass)) }
{
    let mut made = Vec::new(alloc);
    for _ in 0..many {
        if player.local.activity.skips(Choice::Go) {
            break;
        }
        made.push(advance(shared, &mut player.pass, &mut player.local, Choice::Go)?)?;
    }
    Ok(made)
}

// Whole puts with value 1, this many: of one key, or, where keys rise, of it and the next ones.
// What they are told is not kept.
fn put_many(
    alloc: Global,
    shared: &Shared,
    player: &mut Player,
    many: u32,
    key: u32,
    rises: bool,
) -> Result<Vec<(Kind, u64)>, Memory>
    requires table { IsPassOf shared.now player.old.pass }
    requires knows { player.old.local ≡ local_in (view player.old.pass) }
    ensures table { IfOk result (λ _. IsPassOf shared.now player.new.pass) }
    ensures knows { IfOk result (λ _. player.new.local ≡ local_in (view player.new.pass)) }
{
    for i in 0..many {
        let next = if rises { key.saturating_add(i) } else { key };
        begin(alloc, shared, player, Call::Put(next, 1))?;
        play(alloc, shared, player, ALL)?;
    }
    Ok(Vec::new(alloc))
}

// A turn of a pass. Gives the kinds of its events and what they were told.
fn take_turn(
    alloc: Global,
    shared: &Shared,
    player: &mut Player,
    turn: Turn,
) -> Result<Vec<(Kind, u64)>, Memory>
    requires table { IsPassOf shared.now player.old.pass }
    requires knows { player.old.local ≡ local_in (view player.old.pass) }
    ensures table { IfOk result (λ _. IsPassOf shared.now player.new.pass) }
    ensures knows { IfOk result (λ _. player.new.local ≡ local_in (view player.new.pass)) }
{
    match turn {
        Turn::Put(key, value) => begin(alloc, shared, player, Call::Put(key, u64::from(value))),
        Turn::Get(key) => begin(alloc, shared, player, Call::Get(key)),
        Turn::Scan(from, upto) => begin(alloc, shared, player, Call::Scan(from, upto)),
        Turn::Guess(row) => guess(alloc, shared, player, row),
        Turn::Go(many) => play(alloc, shared, player, many),
        Turn::Puts(many, key) => put_many(alloc, shared, player, many, key, false),
        Turn::PutsFrom(many, key) => put_many(alloc, shared, player, many, key, true),
    }
}

// A turn of one of two passes.
fn take_turn_of(
    alloc: Global,
    shared: &Shared,
    first: &mut Player,
    second: &mut Player,
    who: Who,
    turn: Turn,
) -> Result<Vec<(Kind, u64)>, Memory>
    requires first { IsPassOf shared.now first.old.pass
        × (first.old.local ≡ local_in (view first.old.pass)) }
    requires second { IsPassOf shared.now second.old.pass
        × (second.old.local ≡ local_in (view second.old.pass)) }
    ensures first { IfOk result (λ _. IsPassOf shared.now first.new.pass
        × (first.new.local ≡ local_in (view first.new.pass))) }
    ensures second { IfOk result (λ _. IsPassOf shared.now second.new.pass
        × (second.new.local ≡ local_in (view second.new.pass))) }
{
    match who {
        Who::First => take_turn(alloc, shared, first, turn),
        Who::Second => take_turn(alloc, shared, second, turn),
    }
}

// What two passes of such a table are told when they take these turns, turn by turn.
fn take_turns(
    alloc: Global,
    clock: u64,
    epoch: u64,
    turns: &[(Who, Turn)],
) -> Result<Vec<Vec<(Kind, u64)>>, Memory>
    requires { IsOpening product (record { rows = 2; seats = 2; clock = clock; epoch = epoch }) }
{
    let (shared, mut first, mut second) = open_two(alloc, clock, epoch)?;
    let mut told = Vec::new(alloc);
    for turn in turns {
        let made = take_turn_of(alloc, &shared, &mut first, &mut second, turn.0, turn.1)?;
        told.push(made)?;
    }
    Ok(told)
}

// What the turn of this number was told; nothing, where there was none.
fn told_at(told: &[Vec<(Kind, u64)>], turn: usize) -> &[(Kind, u64)] {
    match told.get(turn) {
        Some(made) => made.as_slice(),
        None => &[],
    }
}

// Expects that each turn with one of these numbers finds this.
fn expect_finds(rt: &impl Abort, told: &[Vec<(Kind, u64)>], table: &[(usize, &[(Kind, u64)])]) {
    for (turn, finds) in table {
        assert_eq!(rt; told_at(told, *turn), *finds, "in turn {turn}");
    }
}

// The same of two passes that take these turns on a table of two rows that begins with the clock 1
// and the epoch 1.
pub(crate) fn expect_told(
    rt: &impl Abort,
    alloc: Global,
    turns: &[(Who, Turn)],
    table: &[(usize, &[(Kind, u64)])],
) -> Result<(), Memory> {
    let told = take_turns(alloc, 1, 1, turns)?;
    expect_finds(rt, &told, table);
    Ok(())
}

// A put of key 5 and value 10 up to its stamp: row 0 is the first row and has no next one, its
// count is 0, and the seat's entry is idle.
const PUT_UNTIL_ITS_STAMP: [(Kind, u64); 9] = [
    (Kind::StorePass, 0),
    (Kind::LoadHead, 1),
    (Kind::LoadLink, 0),
    (Kind::LoadCount, 0),
    (Kind::AddCount, 0),
    (Kind::StoreKey, 0),
    (Kind::StoreValue, 0),
    (Kind::Announce, 0),
    (Kind::LoadClock, 1),
];

// A scan from 0 to 9 that comes then. Its scan word waits for the clock 1, which is 5, until it is
// settled. It finds the put's entry, which is 1 as a pending one of cell 0, and whose key is in its
// range, and stamps it with the clock 2.
const SCAN_UNTIL_IT_HELPED: [(Kind, u64); 11] = [
    (Kind::StorePass, 0),
    (Kind::LoadClock, 1),
    (Kind::StoreWaiting, 0),
    (Kind::Draw, 1),
    (Kind::Settle, 5),
    (Kind::LoadHead, 1),
    (Kind::LoadLink, 0),
    (Kind::LoadPend, 1),
    (Kind::LoadKey, 5),
    (Kind::LoadClock, 2),
    (Kind::HelpStamp, 1),
];

// The entries of the other seats are idle, and the row's list has no cell yet, since the put has
// not inserted its own: the scan loads the key and the value of the cell that it helped, and ends.
const SCAN_TO_ITS_END: [(Kind, u64); 5] = [
    (Kind::LoadAfter, 0),
    (Kind::LoadKey, 5),
    (Kind::LoadValue, 9223372036854775818),
    (Kind::ClearScan, 0),
    (Kind::ClearPass, 0),
];

// The put goes on. Its stamp finds the entry that the scan left: of cell 0, with version 2, which
// is 2 + 2 * 32768. It stores the version, finds the row's list empty, lets its cell lead to none,
// and inserts the cell at the row's first link, which led to none.
const PUT_FROM_ITS_STAMP: [(Kind, u64); 7] = [
    (Kind::Stamp, 65538),
    (Kind::StoreVersion, 0),
    (Kind::LoadAfter, 0),
    (Kind::StoreAfter, 0),
    (Kind::Insert, 0),
    (Kind::ClearPend, 0),
    (Kind::ClearPass, 0),
];

#[test]
fn a_put_and_the_scan_that_helps_it_find_the_words_of_their_kinds(
    rt: HostRuntime,
) -> Result<(), Fail> {
    let turns = [
        (Who::First, Turn::Put(5, 10)),
        (Who::First, Turn::Go(9)),
        (Who::Second, Turn::Scan(0, 9)),
        (Who::Second, Turn::Go(11)),
        (Who::Second, Turn::Go(SEAT_COUNT - 1)),
        (Who::Second, Turn::Go(ALL)),
        (Who::First, Turn::Go(ALL)),
    ];
    let table = [
        (0, [(Kind::LoadEpoch, 1)].as_slice()),
        (1, PUT_UNTIL_ITS_STAMP.as_slice()),
        (2, [(Kind::LoadEpoch, 1)].as_slice()),
        (3, SCAN_UNTIL_IT_HELPED.as_slice()),
        (4, [(Kind::LoadPend, 0); SEATS - 1].as_slice()),
        (5, SCAN_TO_ITS_END.as_slice()),
        (6, PUT_FROM_ITS_STAMP.as_slice()),
    ];
    Ok(expect_told(&rt, rt.alloc(), &turns, &table)?)
}

// A get that guesses row 0, whose least key is 0. It finds the entries of all seats idle, and then
// the put's cell 0 as the list's first, which is 1 as a link, and the key, version and value that
// the put stored.
const GET_BY_ITS_GUESS: [(Kind, u64); 2] = [(Kind::LoadLeast, 0), (Kind::LoadLink, 0)];

const GET_OF_ITS_CELL: [(Kind, u64); 4] = [
    (Kind::LoadAfter, 1),
    (Kind::LoadKey, 5),
    (Kind::LoadVersion, 1),
    (Kind::LoadValue, 9223372036854775818),
];

#[test]
fn a_get_that_guesses_its_row_finds_what_a_put_stored(rt: HostRuntime) -> Result<(), Fail> {
    let turns = [
        (Who::First, Turn::Put(5, 10)),
        (Who::First, Turn::Go(ALL)),
        (Who::Second, Turn::Get(5)),
        (Who::Second, Turn::Go(1)),
        (Who::Second, Turn::Guess(0)),
        (Who::Second, Turn::Go(2)),
        (Who::Second, Turn::Go(SEAT_COUNT)),
        (Who::Second, Turn::Go(4)),
    ];
    let table = [
        (4, [(Kind::LoadState, 2)].as_slice()),
        (5, GET_BY_ITS_GUESS.as_slice()),
        (6, [(Kind::LoadPend, 0); SEATS].as_slice()),
        (7, GET_OF_ITS_CELL.as_slice()),
    ];
    Ok(expect_told(&rt, rt.alloc(), &turns, &table)?)
}

// Four words are not 0 when a run begins: the clock, the epoch, the first link and the state of row
// 0.
#[test]
fn a_run_begins_with_the_clock_and_the_epoch_that_it_is_given(rt: HostRuntime) -> Result<(), Fail> {
    let turns = [
        (Who::First, Turn::Put(5, 10)),
        (Who::First, Turn::Go(2)),
        (Who::First, Turn::Go(6)),
        (Who::First, Turn::Go(1)),
        (Who::Second, Turn::Get(5)),
        (Who::Second, Turn::Go(1)),
        (Who::Second, Turn::Guess(0)),
    ];
    let table = [
        (0, [(Kind::LoadEpoch, 7)].as_slice()),
        (1, [(Kind::StorePass, 0), (Kind::LoadHead, 1)].as_slice()),
        (3, [(Kind::LoadClock, 5)].as_slice()),
        (4, [(Kind::LoadEpoch, 7)].as_slice()),
        (6, [(Kind::LoadState, 2)].as_slice()),
    ];
    let told = take_turns(rt.alloc(), 5, 7, &turns)?;
    expect_finds(&rt, &told, &table);
    Ok(())
}
