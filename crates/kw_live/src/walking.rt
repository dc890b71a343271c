//! The walk along the rows to the one whose range holds a key.
ghost use Rattle.std.specs.Prelude.{◌≡◌, ◌⊎◌, true, Some, List};
ghost use Rattle.kw_cells.specs.declared.cell.Cell.{Cell};
ghost use Rattle.kw_words.specs.Link.{link_of};
ghost use Rattle.kw_world.specs.Transition.{row_linked};
ghost use Rattle.kw_core.specs.Stages.{is_walking};
ghost use Rattle.kw_follow.specs.Following.{Follows};
ghost use Rattle.kw_follow.specs.Reaching.{Advances};
ghost use Rattle.kw_live.specs.Sights.{BeginsWith};
ghost use Rattle.kw_live.specs.Stages.{arrived, guessing};
ghost use Rattle.kw_live.specs.Walking.{IsUnderWay, WalksFurther, WalksOn};

use kw_follow::{
    go_along, go_guess, go_guessed_least, load_row_least, load_row_link, see_row_least,
    see_row_link,
};
use kw_table::{Pass, Shared};
use kw_words::link::Link;
use kw_words::plain::{unpack_built, unpack_key};
use kw_world::activity::Activity;
use kw_world::activity::look::Look;
use kw_world::activity::walk::Walk;
use kw_world::local::Local;

/// Walks to the row whose range holds the key that the call wants.
///
/// A walk that is yet to begin begins at the guessed row where there is a guess, where that is a
/// row of the table, in the normal state, and one whose least key is not above the key; every other
/// walk begins at the first row. Its first event has the choice `Guess(row)` where there is a
/// guess, and else `Go`. The call then stands at its row: the local's `row`, `next` and `upper` are
/// that row, the one after it and the least key of that one. Least keys rise from row to row, so
/// that the walk ends. Takes no memory.
pub fn locate(shared: &Shared, pass: &mut Pass, local: &mut Local, guess: Option<u32>)
    requires follows { Follows shared.now pass.old local.old }
    requires going { is_walking local.old.activity ≡ true }
    ensures on { Advances shared.now pass.old pass.new local.new }
    ensures walks { WalksOn local.old local.new }
    ensures arrived { local.new.activity ≡ arrived local.old.call }
    ensures guess { local.old.activity ≡ Activity.Walk Walk.Start →
        BeginsWith pass.old pass.new (guessing guess) }
{
    if let Activity::Walk(Walk::Start) = local.activity {
        set_out(shared, pass, local, guess);
    }
    walk(shared, pass, local);
}

// The first event of a walk.
fn set_out(shared: &Shared, pass: &mut Pass, local: &mut Local, guess: Option<u32>)
    requires follows { Follows shared.now pass.old local.old }
    requires start { local.old.activity ≡ Activity.Walk Walk.Start }
    ensures on { Advances shared.now pass.old pass.new local.new }
    ensures walks { WalksOn local.old local.new }
    ensures guess { BeginsWith pass.old pass.new (guessing guess) }
{
    match guess {
        Some(row) => {
            shared.warm(row);
            go_guess(shared, pass, local, row);
        }
        None => {
            go_along(shared, pass, local);
        }
    }
}

// The events of a walk up to the row of the key.
fn walk(shared: &Shared, pass: &mut Pass, local: &mut Local)
    requires follows { Follows shared.now pass.old local.old }
    requires under_way { IsUnderWay local.old.call local.old.activity }
    ensures on { Advances shared.now pass.old pass.new local.new }
    ensures walks { WalksOn local.old local.new }
    ensures arrived { local.new.activity ≡ arrived local.old.call }
{
    while is_walking(&local.activity) {
        walk_on(shared, pass, local);
    }
}

// The events from row to row, or the next one of a call that tries a guessed row or begins at the
// first one.
#[inline(always)]
fn walk_on(shared: &Shared, pass: &mut Pass, local: &mut Local)
    requires follows { Follows shared.now pass.old local.old }
    requires walking { is_walking local.old.activity ≡ true }
    ensures { WalksFurther shared.now pass.old local.old pass.new local.new }
{
    match local.activity {
        Activity::Walk(Walk::Next) => go_by_rows(shared, pass, local),
        Activity::Walk(Walk::GuessedLeast) => {
            go_guessed_least(shared, pass, local);
        }
        _ => {
            go_along(shared, pass, local);
        }
    }
}

/// Goes from row to row, up to the one whose range holds the wanted key. Of the local the row,
/// its least key and with how many cells it was built are brought up alone, where the walk goes by
/// a row.
///
/// What a get or a scan gathered in the row before, which the walk forgets, need not stand in the
/// local. Takes no memory.
#[inline(always)]
pub fn go_by_rows(shared: &Shared, pass: &mut Pass, local: &mut Local)
    requires follows { (cells : List Cell)
        × Follows shared.now pass.old (record local.old { gathered = cells }) }
    requires forgets { (arrived local.old.call ≡ Activity.Look (Look.Entry 0))
        ⊎ Follows shared.now pass.old local.old }
    requires activity { local.old.activity ≡ Activity.Walk Walk.Next }
    ensures walks { WalksFurther shared.now pass.old local.old pass.new local.new }
    ensures arrived { local.new.activity ≡ arrived local.old.call }
{
    loop {
        let link = load_row_link(shared, pass, local.row);
        let Some(row) = linked(link) else {
            local.activity = Activity::Walk(Walk::Next);
            see_row_link(local, link);
            return;
        };
        local.candidate = row;
        let least = load_row_least(shared, pass, row);
        let key = unpack_key(least);
        if key <= local.want {
            local.row = row;
            local.lower = key;
            local.built = unpack_built(least);
        } else {
            local.activity = Activity::Walk(Walk::NextLeast);
            see_row_least(local, least);
            return;
        }
    }
}

/// The row that a link leads to.
#[inline(always)]
pub(crate) fn linked(found: u64) -> Option<u32>
    ensures { result ≡ row_linked (link_of found) }
{
    match Link::unpack(found) {
        Some(link) => link.row,
        None => None,
    }
}

// Whether the call is on its way along the rows. This is asked at each event, so it is no call of
// the core's `Stage`.
#[inline(always)]
fn is_walking(activity: &Activity) -> bool
    ensures { result ≡ is_walking activity.now }
{
    match activity {
        Activity::Walk(_) => true,
        _ => false,
    }
}
