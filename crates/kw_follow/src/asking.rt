//! The events by which a rebalance asks one seat after the other: for its entry of the row at hand,
//! which it freezes, for its scan, and for its pass.
//!
//! They make up most of those between the cells that are gathered and the words that are written,
//! and what follows one of them is mostly the next one. So they are put together here, apart from
//! those of `building`: each has a step of its own, and code that makes one after the other tells
//! them apart by one look.
ghost use Rattle.std.specs.Prelude.{◌≡◌, true};
ghost use Rattle.kw_follow.specs.BuildsOn.{asks_seat};
ghost use Rattle.kw_follow.specs.Following.{Follows};
ghost use Rattle.kw_follow.specs.Moving.{Moves, WentOn};

use crate::gathering::{freeze_entry, look_at_entry, look_at_scan};
use crate::seeking::look_at_pass;
use kw_table::{Pass, Shared};
use kw_world::activity::Activity;
use kw_world::activity::rebalance::Rebalance;
use kw_world::activity::rebalance::freeze::Freeze;
use kw_world::activity::rebalance::seek::Seek;
use kw_world::event::{Choice, StepDone};
use kw_world::local::Local;

/// Whether the next event of a seat that does this next asks a seat.
#[inline(always)]
pub fn asks_seat(activity: &Activity) -> bool
    ensures { result ≡ asks_seat activity.now }
{
    match activity {
        Activity::Rebalance(Rebalance::Freeze(Freeze::Look(_))) => true,
        Activity::Rebalance(Rebalance::Freeze(Freeze::Entry(_))) => true,
        Activity::Rebalance(Rebalance::Freeze(Freeze::Scan(_))) => true,
        Activity::Rebalance(Rebalance::Seek(Seek::Pass(_))) => true,
        _ => false,
    }
}

/// Makes the next event, which asks a seat. Takes no memory.
#[inline(always)]
pub fn go_ask(shared: &Shared, pass: &mut Pass, local: &mut Local)
    requires follows { Follows shared.now pass.old local.old }
    requires asks { asks_seat local.old.activity ≡ true }
    ensures { WentOn shared.now pass.old local.old Choice.Go pass.new local.new }
{
    ask_event(shared, pass, local);
}

// The event, by what the local does next.
#[inline(always)]
fn ask_event(shared: &Shared, pass: &mut Pass, local: &mut Local) -> StepDone
    requires follows { Follows shared.now pass.old local.old }
    requires asks { asks_seat local.old.activity ≡ true }
    ensures { Moves shared.now pass.old local.old Choice.Go pass.new local.new result }
{
    match local.activity {
        Activity::Rebalance(Rebalance::Freeze(Freeze::Look(entry))) => look_at_entry(
            shared, pass, local, entry,
        ),
        Activity::Rebalance(Rebalance::Freeze(Freeze::Entry(entry))) => freeze_entry(
            shared, pass, local, entry,
        ),
        Activity::Rebalance(Rebalance::Freeze(Freeze::Scan(seat))) => look_at_scan(
            shared, pass, local, seat,
        ),
        Activity::Rebalance(Rebalance::Seek(Seek::Pass(seat))) => look_at_pass(
            shared, pass, local, seat,
        ),
        _ => unreachable!(),
    }
}
