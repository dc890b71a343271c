//! The events of a put at its row, each by its own step of the table.
//!
//! What the local does next says which step it is, and the core says what follows from the word
//! that was found: nothing else is asked. A put makes nine events for its cell, and then goes along
//! the row's list, with two or three events for each cell that it goes by. Code that goes by many
//! cells of lesser keys leaves the put's local as it is meanwhile and makes these events by a
//! `Cursor`, as `cursor` says; `see_insert_link` and `see_insert_key` say what follows from the
//! last of them.
ghost use Rattle.std.specs.Prelude.{◌≡◌, ◌≤◌, true};
ghost use Rattle.kw_words.specs.Plain.{cell_of_link_word, key_of_word};
ghost use Rattle.kw_words.specs.declared.sizes.TheConstants.{CELLS};
ghost use Rattle.kw_core.specs.Stages.{is_putting};
ghost use Rattle.kw_world.specs.ListTransitions.{insert_from, insert_key};
ghost use Rattle.kw_world.specs.Sizes.{product};
ghost use Rattle.kw_world.specs.Transition.{outcome};
ghost use Rattle.kw_follow.specs.Following.{Follows};
ghost use Rattle.kw_follow.specs.Moving.{FollowsAt, Moves, WentOn};

use kw_step_put::operation::link_name;
use kw_step_put::resume::{leave, to};
use kw_step_put::resume_insert::{insert, insert_from, insert_key, insert_version, start_insert};
use kw_step_put::resume_put::{add, announce, count, stamp};
use kw_table::{
    Pass, Shared, add_count, announce as exchange_idle, clear_pend, insert as exchange, load_after,
    load_clock, load_count, load_key, load_version, stamp as exchange_pending, store_after,
    store_key, store_value, store_version,
};
use kw_words::layout::Name;
use kw_words::pend::Pend;
use kw_words::plain::{pack_cell_link, pack_key, pack_value, pack_version};
use kw_world::activity::Activity;
use kw_world::activity::insert::Insert;
use kw_world::activity::put::Put;
use kw_world::answer::Answer;
use kw_world::calls::{first_key, put_value};
use kw_world::event::{Choice, StepDone};
use kw_world::local::Local;

// Loads the count of the row.
#[inline(always)]
fn load_given(shared: &Shared, pass: &mut Pass, local: &mut Local) -> StepDone
    requires { FollowsAt shared.now pass.old local.old (Activity.Put Put.Count) }
    ensures { Moves shared.now pass.old local.old Choice.Go pass.new local.new result }
{
    let count_word = Name::Count(local.row);
    let told = load_count(shared, pass, count_word);
    count(local, told)
}

// Adds one to the count, to get a cell.
#[inline(always)]
fn ask_for_cell(shared: &Shared, pass: &mut Pass, local: &mut Local) -> StepDone
    requires { FollowsAt shared.now pass.old local.old (Activity.Put Put.Add) }
    ensures { Moves shared.now pass.old local.old Choice.Go pass.new local.new result }
{
    let count_word = Name::Count(local.row);
    let told = add_count(shared, pass, count_word, 1);
    add(local, told)
}

// Stores the key in the cell.
#[inline(always)]
fn write_key(shared: &Shared, pass: &mut Pass, local: &mut Local) -> StepDone
    requires { FollowsAt shared.now pass.old local.old (Activity.Put Put.Key) }
    ensures { Moves shared.now pass.old local.old Choice.Go pass.new local.new result }
{
    let word = Name::Key(local.row, local.cell);
    let key = pack_key(first_key(local.call));
    store_key(shared, pass, word, key);
    to(local, Activity::Put(Put::Value))
}

// Stores the value in the cell.
#[inline(always)]
fn write_value(shared: &Shared, pass: &mut Pass, local: &mut Local) -> StepDone
    requires { FollowsAt shared.now pass.old local.old (Activity.Put Put.Value) }
    ensures { Moves shared.now pass.old local.old Choice.Go pass.new local.new result }
{
    let word = Name::Value(local.row, local.cell);
    let value = pack_value(put_value(local.call));
    store_value(shared, pass, word, value);
    to(local, Activity::Put(Put::Announce))
}

// Exchanges the idle entry for one with the cell.
#[inline(always)]
fn announce_cell(shared: &Shared, pass: &mut Pass, local: &mut Local) -> StepDone
    requires { FollowsAt shared.now pass.old local.old (Activity.Put Put.Announce) }
    ensures { Moves shared.now pass.old local.old Choice.Go pass.new local.new result }
{
    let entry = Name::Pend(local.row, pass.number());
    let idle = Pend::Idle.pack();
    let pending = Pend::Pending(local.cell).pack();
    let told = exchange_idle(shared, pass, entry, idle, pending);
    announce(local, told)
}

// Loads the clock.
#[inline(always)]
fn load_own_clock(shared: &Shared, pass: &mut Pass, local: &mut Local) -> StepDone
    requires { FollowsAt shared.now pass.old local.old (Activity.Put Put.Clock) }
    ensures { Moves shared.now pass.old local.old Choice.Go pass.new local.new result }
{
    let told = load_clock(shared, pass, Name::Clock);
    local.version = told;
    to(local, Activity::Put(Put::Stamp))
}

// Exchanges the pending entry for one with the version.
#[inline(always)]
fn stamp_cell(shared: &Shared, pass: &mut Pass, local: &mut Local) -> StepDone
    requires { FollowsAt shared.now pass.old local.old (Activity.Put Put.Stamp) }
    ensures { Moves shared.now pass.old local.old Choice.Go pass.new local.new result }
{
    let entry = Name::Pend(local.row, pass.number());
    let pending = Pend::Pending(local.cell).pack();
    let stamped = Pend::Stamped(local.cell, local.version).pack();
    let told = exchange_pending(shared, pass, entry, pending, stamped);
    stamp(local, told)
}

// Stores the version in the cell.
#[inline(always)]
fn write_version(shared: &Shared, pass: &mut Pass, local: &mut Local) -> StepDone
    requires { FollowsAt shared.now pass.old local.old (Activity.Put Put.Version) }
    ensures { Moves shared.now pass.old local.old Choice.Go pass.new local.new result }
{
    let word = Name::Version(local.row, local.cell);
    let version = pack_version(Some(local.version));
    store_version(shared, pass, word, version);
    start_insert(local)
}

// Stores that the entry is idle.
#[inline(always)]
fn clear_entry(shared: &Shared, pass: &mut Pass, local: &mut Local) -> StepDone
    requires { FollowsAt shared.now pass.old local.old (Activity.Put Put.Clear) }
    ensures { Moves shared.now pass.old local.old Choice.Go pass.new local.new result }
{
    let entry = Name::Pend(local.row, pass.number());
    let idle = Pend::Idle.pack();
    clear_pend(shared, pass, Choice::Go, entry, idle);
    leave(local, Answer::Done)
}

/// The put was told the link at which it stands. Takes no memory.
#[inline(always)]
pub fn see_insert_link(local: &mut Local, found: u64) -> StepDone
    requires { local.old.walked ≤ CELLS }
    ensures { outcome local.new result ≡ insert_from product (cell_of_link_word found) local.old }
{
    insert_from(local, found)
}

/// It was told the key of the cell that it reached. Takes no memory.
#[inline(always)]
pub fn see_insert_key(local: &mut Local, found: u64) -> StepDone
    ensures { outcome local.new result ≡ insert_key (key_of_word found) local.old }
{
    insert_key(local, found)
}

// Loads the row's first link, at which the put begins.
#[inline(always)]
fn load_first_link(shared: &Shared, pass: &mut Pass, local: &mut Local) -> StepDone
    requires { FollowsAt shared.now pass.old local.old (Activity.Insert Insert.Start) }
    ensures { Moves shared.now pass.old local.old Choice.Go pass.new local.new result }
{
    let link = link_name(local.row, local.link);
    let told = load_after(shared, pass, link);
    insert_from(local, told)
}

// Loads the link at which the put stands.
#[inline(always)]
fn load_cell_link(shared: &Shared, pass: &mut Pass, local: &mut Local) -> StepDone
    requires { FollowsAt shared.now pass.old local.old (Activity.Insert Insert.Link) }
    ensures { Moves shared.now pass.old local.old Choice.Go pass.new local.new result }
{
    let link = link_name(local.row, local.link);
    let told = load_after(shared, pass, link);
    insert_from(local, told)
}

// Loads the key of the cell that the put has reached.
#[inline(always)]
fn load_reached_key(shared: &Shared, pass: &mut Pass, local: &mut Local) -> StepDone
    requires { FollowsAt shared.now pass.old local.old (Activity.Insert Insert.Key) }
    ensures { Moves shared.now pass.old local.old Choice.Go pass.new local.new result }
{
    let key = Name::Key(local.row, local.place);
    let told = load_key(shared, pass, Choice::Go, key);
    insert_key(local, told)
}

// Loads the version of that cell.
#[inline(always)]
fn load_reached_version(shared: &Shared, pass: &mut Pass, local: &mut Local) -> StepDone
    requires { FollowsAt shared.now pass.old local.old (Activity.Insert Insert.Version) }
    ensures { Moves shared.now pass.old local.old Choice.Go pass.new local.new result }
{
    let version = Name::Version(local.row, local.place);
    let told = load_version(shared, pass, version);
    insert_version(local, told)
}

// Stores what the link held in the link after the own cell.
#[inline(always)]
fn store_link(shared: &Shared, pass: &mut Pass, local: &mut Local) -> StepDone
    requires { FollowsAt shared.now pass.old local.old (Activity.Insert Insert.Set) }
    ensures { Moves shared.now pass.old local.old Choice.Go pass.new local.new result }
{
    let after = Name::After(local.row, local.cell);
    let held = pack_cell_link(local.held);
    store_after(shared, pass, after, held);
    to(local, Activity::Insert(Insert::Exchange))
}

// Exchanges the link for one to the own cell.
#[inline(always)]
fn exchange_link(shared: &Shared, pass: &mut Pass, local: &mut Local) -> StepDone
    requires { FollowsAt shared.now pass.old local.old (Activity.Insert Insert.Exchange) }
    ensures { Moves shared.now pass.old local.old Choice.Go pass.new local.new result }
{
    let link = link_name(local.row, local.link);
    let held = pack_cell_link(local.held);
    let own = pack_cell_link(Some(local.cell));
    let told = exchange(shared, pass, link, held, own);
    insert(local, told)
}

// The next event, by what the local does next.
#[inline(always)]
fn put_event(shared: &Shared, pass: &mut Pass, local: &mut Local) -> StepDone
    requires follows { Follows shared.now pass.old local.old }
    requires putting { is_putting local.old.activity ≡ true }
    ensures { Moves shared.now pass.old local.old Choice.Go pass.new local.new result }
{
    match local.activity {
        Activity::Put(Put::Count) => load_given(shared, pass, local),
        Activity::Put(Put::Add) => ask_for_cell(shared, pass, local),
        Activity::Put(Put::Key) => write_key(shared, pass, local),
        Activity::Put(Put::Value) => write_value(shared, pass, local),
        Activity::Put(Put::Announce) => announce_cell(shared, pass, local),
        Activity::Put(Put::Clock) => load_own_clock(shared, pass, local),
        Activity::Put(Put::Stamp) => stamp_cell(shared, pass, local),
        Activity::Put(Put::Version) => write_version(shared, pass, local),
        Activity::Insert(Insert::Start) => load_first_link(shared, pass, local),
        Activity::Insert(Insert::Link) => load_cell_link(shared, pass, local),
        Activity::Insert(Insert::Key) => load_reached_key(shared, pass, local),
        Activity::Insert(Insert::Version) => load_reached_version(shared, pass, local),
        Activity::Insert(Insert::Set) => store_link(shared, pass, local),
        Activity::Insert(Insert::Exchange) => exchange_link(shared, pass, local),
        Activity::Put(Put::Clear) => clear_entry(shared, pass, local),
        _ => unreachable!(),
    }
}

/// Makes the next event of a put or a delete at its row. Takes no memory.
#[inline(always)]
pub fn go_put(shared: &Shared, pass: &mut Pass, local: &mut Local)
    requires follows { Follows shared.now pass.old local.old }
    requires putting { is_putting local.old.activity ≡ true }
    ensures { WentOn shared.now pass.old local.old Choice.Go pass.new local.new }
{
    put_event(shared, pass, local);
}
