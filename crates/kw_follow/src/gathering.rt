//! The events that freeze the rows of a group and gather the cells that were not reached in their
//! lists, each by its own step of the table.
//!
//! A rebalance looks at each entry of the row at hand, and freezes it where no version is stamped
//! there; it looks at each scan; and then it goes along the list of each row, as `row_gathering`
//! says. What it remembers of the row's entries and did not reach there it reads after it. What the
//! local does next says which step it is, as in `putting`; `building` asks for it.
ghost use Rattle.kw_follow.specs.Moving.{FollowsAt, Moves};

use kw_step_rebal::resume_freeze::{entry_tried, look, scan};
use kw_step_rebal::resume_take::{left_over_value, take_left_over_key};
use kw_table::{Pass, Shared, freeze_pend, load_key, load_pend, load_scan, load_value};
use kw_words::layout::Name;
use kw_words::pend::Pend;
use kw_world::activity::Activity;
use kw_world::activity::rebalance::Rebalance;
use kw_world::activity::rebalance::freeze::Freeze;
use kw_world::activity::rebalance::gather::Gather;
use kw_world::event::{Choice, StepDone};
use kw_world::local::Local;

// Loads an entry of the row at hand.
#[inline(always)]
pub(crate) fn look_at_entry(
    shared: &Shared,
    pass: &mut Pass,
    local: &mut Local,
    entry: u32,
) -> StepDone
    requires { FollowsAt shared.now pass.old local.old
        (Activity.Rebalance (Rebalance.Freeze (Freeze.Look entry))) }
    ensures { Moves shared.now pass.old local.old Choice.Go pass.new local.new result }
{
    let word = Name::Pend(local.rebalance.hand, entry);
    let told = load_pend(shared, pass, word);
    look(local, entry, told)
}

// Exchanges the entry, as it was found, for a frozen one.
#[inline(always)]
pub(crate) fn freeze_entry(
    shared: &Shared,
    pass: &mut Pass,
    local: &mut Local,
    entry: u32,
) -> StepDone
    requires { FollowsAt shared.now pass.old local.old
        (Activity.Rebalance (Rebalance.Freeze (Freeze.Entry entry))) }
    ensures { Moves shared.now pass.old local.old Choice.Go pass.new local.new result }
{
    let word = Name::Pend(local.rebalance.hand, entry);
    let found = local.rebalance.entry.pack();
    let frozen = Pend::Frozen.pack();
    let told = freeze_pend(shared, pass, word, found, frozen);
    entry_tried(local, entry, told)
}

// Loads the scan of a seat.
#[inline(always)]
pub(crate) fn look_at_scan(
    shared: &Shared,
    pass: &mut Pass,
    local: &mut Local,
    seat: u32,
) -> StepDone
    requires { FollowsAt shared.now pass.old local.old
        (Activity.Rebalance (Rebalance.Freeze (Freeze.Scan seat))) }
    ensures { Moves shared.now pass.old local.old Choice.Go pass.new local.new result }
{
    let told = load_scan(shared, pass, Name::Scan(seat));
    scan(local, seat, told)
}

// Loads the key of a remembered cell that was not reached.
#[inline(always)]
pub(crate) fn load_left_key(shared: &Shared, pass: &mut Pass, local: &mut Local) -> StepDone
    requires { FollowsAt shared.now pass.old local.old
        (Activity.Rebalance (Rebalance.Gather Gather.LeftOverKey)) }
    ensures { Moves shared.now pass.old local.old Choice.Go pass.new local.new result }
{
    let key = Name::Key(local.rebalance.hand, local.place);
    let told = load_key(shared, pass, Choice::Go, key);
    take_left_over_key(local, told)
}

// Loads the value of that cell, which is gathered.
#[inline(always)]
pub(crate) fn load_left_value(shared: &Shared, pass: &mut Pass, local: &mut Local) -> StepDone
    requires { FollowsAt shared.now pass.old local.old
        (Activity.Rebalance (Rebalance.Gather Gather.LeftOverValue)) }
    ensures { Moves shared.now pass.old local.old Choice.Go pass.new local.new result }
{
    let value = Name::Value(local.rebalance.hand, local.place);
    let told = load_value(shared, pass, value);
    left_over_value(local, told)
}
