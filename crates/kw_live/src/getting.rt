//! A whole get.
//!
//! Mostly a get sees nothing on its way: the row that was guessed for its key serves, nothing is
//! announced in the entries there, and it goes along the row's list. Then all that it learns lies
//! in registers, as a `Way` and a `Cursor`, and the local that its pass lent stays at rest from its
//! begin to its end. Of the cells of its key it keeps the newest alone. Where it sees anything
//! else, its local is brought up to there, and it goes on as every other call does, by `locate`,
//! `read_row` and `leave`.
ghost use Rattle.std.specs.Prelude.{◌≡◌, ◌<◌, false, Some};
ghost use Rattle.kw_model.specs.Map.{found};
ghost use Rattle.kw_words.specs.State.{state_of};
ghost use Rattle.kw_world.specs.Local.{resting};
ghost use Rattle.kw_table.specs.Passes.{IsPassOf};
ghost use Rattle.kw_follow.specs.Calling.{Calls};
ghost use Rattle.kw_follow.specs.Following.{Follows, GoesTo, activity_in};
ghost use Rattle.kw_follow.specs.Ways.{on_way};
ghost use Rattle.kw_follow.specs.Reaching.{Reaches};
ghost use Rattle.kw_live.specs.Getting.{HasGot, is_normal};
ghost use Rattle.kw_live.specs.Reading.{is_looking};
ghost use Rattle.kw_live.specs.Walking.{IsUnderWay};

use crate::entering::leave;
use crate::looking::{is_idle, look_along};
use crate::newest::read_newest;
use crate::reading::read_row;
use crate::walking::{linked, locate};
use kw_follow::{Way, end_resting, load_row_least, load_row_link, see_entry};
use kw_model::call::{Call, Reply};
use kw_table::{Pass, Shared};
use kw_words::plain::{unpack_built, unpack_key};
use kw_words::sizes::SEAT_COUNT;
use kw_words::state::State;
use kw_world::activity::Activity;
use kw_world::activity::look::Look;
use kw_world::activity::read::Read;
use kw_world::activity::walk::Walk;
use kw_world::local::Local;

/// The value of a key, if it has one: a whole call of an idle pass.
///
/// The walk tries the guessed row first, where there is a guess; that is for speed alone, and no
/// clause rests on it. The local is at rest before and afterwards. Takes no memory.
pub fn get(
    shared: &Shared,
    pass: &mut Pass,
    local: &mut Local,
    key: u32,
    guess: Option<u32>,
) -> Option<u64>
    requires table { IsPassOf shared.now pass.old }
    requires idle { activity_in pass.old ≡ Activity.Idle }
    requires rested { local.old ≡ resting 0 }
    ensures goes { GoesTo shared.now pass.old pass.new }
    ensures idle { activity_in pass.new ≡ Activity.Idle }
    ensures rests { local.new ≡ resting 0 }
    ensures calls { Calls pass.old pass.new (Call.Get key) (found result) }
{
    let way = Way::enter(shared, pass, key);
    let place = set_out(shared, pass, way, guess);
    if let Activity::Look(Look::Entry(_)) = place.activity {
        return get_there(shared, pass, local, place.way);
    }
    place.way.write(local, place.activity);
    locate(shared, pass, local, None);
    get_slowly(shared, pass, local, key)
}

// Where a get stands, whose local is at rest.
#[derive(Clone, Copy, Debug, PartialEq, Eq)]
struct Place {
    activity: Activity,
    way: Way,
}

// The walk from the guessed row on, as far as no second row is gone by: the get has then come to
// its row, or is still on its way.
#[inline(always)]
fn set_out(shared: &Shared, pass: &mut Pass, way: Way, guess: Option<u32>) -> Place
    requires { Follows shared.now pass.old (on_way (Activity.Walk Walk.Start) way) }
    ensures gets { Reaches shared.now pass.old pass.new (on_way result.activity result.way) }
    ensures key { result.way.key ≡ way.key }
    ensures under_way { IsUnderWay (Some (Call.Get way.key)) result.activity }
{
    match guess {
        Some(row) if row < shared.rows() => try_row(shared, pass, way, row),
        _ => Place {
            activity: Activity::Walk(Walk::Start),
            way,
        },
    }
}

// The walk that begins at this row of the table.
#[inline(always)]
fn try_row(shared: &Shared, pass: &mut Pass, way: Way, row: u32) -> Place
    requires follows { Follows shared.now pass.old (on_way (Activity.Walk Walk.Start) way) }
    requires in_range { row < shared.now.opening.rows }
    ensures gets { Reaches shared.now pass.old pass.new (on_way result.activity result.way) }
    ensures key { result.way.key ≡ way.key }
    ensures under_way { IsUnderWay (Some (Call.Get way.key)) result.activity }
{
    shared.warm(row);
    let state = way.load_state(shared, pass, row);
    if !is_normal(state) {
        return Place {
            activity: Activity::Walk(Walk::First),
            way,
        };
    }
    let mut tried = way;
    tried.row = row;
    let word = tried.load_least(shared, pass);
    let least = unpack_key(word);
    if least > way.key {
        return Place {
            activity: Activity::Walk(Walk::First),
            way: tried,
        };
    }
    tried.lower = least;
    tried.built = unpack_built(word);
    step_on(shared, pass, tried)
}

// The step from a row whose least key is not above the key: to the row's entries, where the next
// row's least key is above it.
#[inline(always)]
fn step_on(shared: &Shared, pass: &mut Pass, way: Way) -> Place
    requires { Follows shared.now pass.old (on_way (Activity.Walk Walk.Next) way) }
    ensures gets { Reaches shared.now pass.old pass.new (on_way result.activity result.way) }
    ensures key { result.way.key ≡ way.key }
    ensures under_way { IsUnderWay (Some (Call.Get way.key)) result.activity }
{
    let mut next = way;
    let Some(row) = linked(load_row_link(shared, pass, way.row)) else {
        next.next = None;
        next.upper = 0;
        return Place {
            activity: Activity::Look(Look::Entry(0)),
            way: next,
        };
    };
    next.candidate = row;
    let word = load_row_least(shared, pass, row);
    let least = unpack_key(word);
    if least <= way.key {
        next.row = row;
        next.lower = least;
        next.built = unpack_built(word);
        return Place {
            activity: Activity::Walk(Walk::Next),
            way: next,
        };
    }
    next.next = Some(row);
    next.upper = least;
    Place {
        activity: Activity::Look(Look::Entry(0)),
        way: next,
    }
}

// Whether a state's word says that the row is in use.
#[inline(always)]
fn is_normal(state: u64) -> bool
    ensures { result ≡ is_normal (state_of state) }
{
    matches!(State::unpack(state), Some(State::Normal))
}

// The get at its row.
#[inline(always)]
fn get_there(shared: &Shared, pass: &mut Pass, local: &mut Local, way: Way) -> Option<u64>
    requires follows { Follows shared.now pass.old (on_way ((Activity.Look (Look.Entry 0))) way) }
    requires rested { local.old ≡ resting 0 }
    ensures { HasGot shared.now pass.old pass.new result local.new }
{
    let seen = look_along(shared, pass, way.row, 0);
    if seen.entry + 1 >= SEAT_COUNT && is_idle(seen.found) {
        let value = read_newest(shared, pass, way);
        end_resting(shared, pass);
        return value;
    }
    way.write(local, Activity::Look(Look::Entry(seen.entry)));
    see_entry(local, seen.entry, seen.found);
    get_slowly(shared, pass, local, way.key)
}

// The rest of a get of this key that has come to its row, by its local.
fn get_slowly(shared: &Shared, pass: &mut Pass, local: &mut Local, key: u32) -> Option<u64>
    requires follows { Follows shared.now pass.old local.old }
    requires stage { is_looking local.old.activity ≡ false → local.old.activity ≡ Activity.Read Read.Start }
    requires call { local.old.call ≡ Some (Call.Get key) }
    ensures { HasGot shared.now pass.old pass.new result local.new }
{
    read_row(shared, pass, local);
    match leave(shared, pass, local) {
        Reply::Value(value) => Some(value),
        _ => None,
    }
}
