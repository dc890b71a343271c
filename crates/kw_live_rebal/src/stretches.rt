//! The stretches of a rebalance in which many events alike follow each other: it asks the seats,
//! gathers the cells of the row at hand, asks row after row for its state, and writes the words of
//! a new row.
//!
//! A split makes some hundreds of such events, and a search may ask each row of the table. Between
//! two of a stretch nothing is asked but which of its events is the next one, and what changes with
//! them is at hand, which is what makes a rebalance fast; `rebalancing` asks what else is to be
//! done before and after.
ghost use Rattle.std.specs.Prelude.{◌≡◌, false};
ghost use Rattle.kw_follow.specs.BuildsOn.{asks_seat, past_row};
ghost use Rattle.kw_follow.specs.Following.{Follows};
ghost use Rattle.kw_follow.specs.Reaching.{Advances};
ghost use Rattle.kw_live_rebal.specs.Standing.{GoesOn};
ghost use Rattle.kw_live_rebal.specs.Stretches.{HasLeftList, HasLeftSearch};

use kw_follow::{
    Cursor, Hand, Search, asks_seat, gather_cell, go_ask, is_in_use, reach_next, write_row,
};
use kw_table::{Pass, Shared};
use kw_world::activity::Activity;
use kw_world::activity::rebalance::Rebalance;
use kw_world::activity::rebalance::gather::Gather;
use kw_world::activity::rebalance::seek::Seek;
use kw_world::activity::rebalance::write::Write;
use kw_world::local::Local;
use std::sync::Wait;

/// Asks one seat after the other, for its entry, its scan or its pass, on to what comes after that.
/// Takes no memory.
pub(crate) fn ask_seats<R: Wait>(rt: &R, shared: &Shared, pass: &mut Pass, local: &mut Local)
    requires { Follows shared.now pass.old local.old }
    ensures on { Advances shared.now pass.old pass.new local.new }
    ensures tidies { local.new.tidies ≡ local.old.tidies }
    ensures over { asks_seat local.new.activity ≡ false }
    ensures goes_on { GoesOn shared.now pass.old local.old pass.new local.new }
{
    for _ in rt.forever() {
        if !asks_seat(&local.activity) {
            return;
        }
        go_ask(shared, pass, local);
    }
    unreachable!()
}

/// Goes along the list of the row at hand and gathers its cells, from the first link on to the end,
/// and on to what comes after it. Takes no memory.
pub(crate) fn gather_row<R: Wait>(rt: &R, shared: &Shared, pass: &mut Pass, local: &mut Local)
    requires follows { Follows shared.now pass.old local.old }
    requires activity { local.old.activity ≡ Activity.Rebalance (Rebalance.Gather Gather.Link) }
    ensures on { Advances shared.now pass.old pass.new local.new }
    ensures tidies { local.new.tidies ≡ local.old.tidies }
    ensures left { HasLeftList local.new }
    ensures goes_on { GoesOn shared.now pass.old local.old pass.new local.new }
{
    let mut cursor = Cursor::of(local);
    let hand = Hand::of(local);
    for _ in rt.forever() {
        let Some(saw) = reach_next(shared, pass, local, cursor, hand) else {
            return;
        };
        cursor = gather_cell(shared, pass, local, saw, hand);
    }
    unreachable!()
}

/// Asks row after row for its state, from the one at hand on, to the first that is free or was
/// retired, or to the last one, and on to what follows there. Takes no memory.
pub(crate) fn seek_row(shared: &Shared, pass: &mut Pass, local: &mut Local)
    requires follows { Follows shared.now pass.old local.old }
    requires activity { local.old.activity ≡ Activity.Rebalance (Rebalance.Seek Seek.Next) }
    ensures on { Advances shared.now pass.old pass.new local.new }
    ensures tidies { local.new.tidies ≡ local.old.tidies }
    ensures left { HasLeftSearch shared.now.opening.rows local.old local.new }
    ensures goes_on { GoesOn shared.now pass.old local.old pass.new local.new }
{
    let rows = shared.rows();
    let mut search = Search::of(local);
    loop {
        let found = search.load_state(shared, pass);
        if is_in_use(found) && search.asked < rows {
            search = search.behind(rows);
        } else {
            search.stop(local, rows, found);
            return;
        }
    }
}

/// Writes the words of the new row at hand, from its count on, and on to what comes after it. Takes
/// no memory.
pub(crate) fn write_new_row(shared: &Shared, pass: &mut Pass, local: &mut Local)
    requires follows { Follows shared.now pass.old local.old }
    requires activity { local.old.activity ≡ Activity.Rebalance (Rebalance.Write Write.Count) }
    ensures on { Advances shared.now pass.old pass.new local.new }
    ensures tidies { local.new.tidies ≡ local.old.tidies }
    ensures written { local.new ≡ past_row local.old }
    ensures goes_on { GoesOn shared.now pass.old local.old pass.new local.new }
{
    warm_new_row(shared, local);
    write_row(shared, pass, local);
}

// The new row at hand is loaded first: it may lie far away, and each of its words is written by one
// step.
#[inline(always)]
fn warm_new_row(shared: &Shared, local: &Local) {
    if let Some(row) = local.rebalance.taken.as_slice().get(local.rebalance.at) {
        shared.warm_whole(*row);
    }
}
