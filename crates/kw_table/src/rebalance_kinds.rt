//! The kinds of event that come often in a rebalance, each a step of its own.
//!
//! They stand by what `kinds` says of its own: what each asks, what it tells, and what the pass has
//! seen afterwards. First come those by which a full row gets its leader, the rows that go are
//! frozen, and scans are looked for, then those that find and write new rows, and link them in
//! place of those. The rows that go, one or two, are the group of the rebalance. What most
//! rebalances do not need, as the claim of the row after the full one, is made by `make`.
ghost use Rattle.kw_table.specs.Passes.{operation, Asks, Makes};

use crate::kinds::step;
use crate::pass::Pass;
use crate::shared::Shared;
use kw_words::kind::Kind;
use kw_words::layout::Name;
use kw_world::event::Choice;
use kw_world::operation::{Action, Operation};

// The full row of a rebalance.

/// Makes the full row a leader of as yet none.
#[inline(always)]
pub fn engage(shared: &Shared, pass: &mut Pass, word: Name, expected: u64, stored: u64) -> u64
    requires { Asks shared.now pass.old Choice.Go
        (operation Kind.Engage word (Action.Exchange expected stored)) }
    ensures { Makes shared.now pass.old Choice.Go result pass.new }
{
    step!(
        exchange,
        Engage,
        Action::Exchange(expected, stored),
        shared,
        pass,
        Choice::Go,
        word,
        expected,
        stored
    )
}

/// Marks the link after a row of the group, by which the row behind it stays there.
#[inline(always)]
pub fn mark_link(shared: &Shared, pass: &mut Pass, word: Name, bits: u64) -> u64
    requires { Asks shared.now pass.old Choice.Go (operation Kind.MarkLink word (Action.Or bits)) }
    ensures { Makes shared.now pass.old Choice.Go result pass.new }
{
    step!(
        unite,
        MarkLink,
        Action::Or(bits),
        shared,
        pass,
        Choice::Go,
        word,
        bits
    )
}

/// Decides of how many rows the full one is the leader.
#[inline(always)]
pub fn decide(shared: &Shared, pass: &mut Pass, word: Name, expected: u64, stored: u64) -> u64
    requires { Asks shared.now pass.old Choice.Go
        (operation Kind.Decide word (Action.Exchange expected stored)) }
    ensures { Makes shared.now pass.old Choice.Go result pass.new }
{
    step!(
        exchange,
        Decide,
        Action::Exchange(expected, stored),
        shared,
        pass,
        Choice::Go,
        word,
        expected,
        stored
    )
}

/// Freezes the count of a row of the group, by which it gives no cell any more.
#[inline(always)]
pub fn freeze_count(shared: &Shared, pass: &mut Pass, word: Name, bits: u64) -> u64
    requires { Asks shared.now pass.old Choice.Go
        (operation Kind.FreezeCount word (Action.Or bits)) }
    ensures { Makes shared.now pass.old Choice.Go result pass.new }
{
    step!(
        unite,
        FreezeCount,
        Action::Or(bits),
        shared,
        pass,
        Choice::Go,
        word,
        bits
    )
}

/// Freezes an entry of a row of the group, by which no put gets a version any more.
#[inline(always)]
pub fn freeze_pend(shared: &Shared, pass: &mut Pass, word: Name, expected: u64, stored: u64) -> u64
    requires { Asks shared.now pass.old Choice.Go
        (operation Kind.FreezePend word (Action.Exchange expected stored)) }
    ensures { Makes shared.now pass.old Choice.Go result pass.new }
{
    step!(
        exchange,
        FreezePend,
        Action::Exchange(expected, stored),
        shared,
        pass,
        Choice::Go,
        word,
        expected,
        stored
    )
}

/// Loads the word of a seat's scan.
#[inline(always)]
pub fn load_scan(shared: &Shared, pass: &mut Pass, word: Name) -> u64
    requires { Asks shared.now pass.old Choice.Go (operation Kind.LoadScan word Action.Load) }
    ensures { Makes shared.now pass.old Choice.Go result pass.new }
{
    step!(load, LoadScan, Action::Load, shared, pass, Choice::Go, word)
}

// The new rows.

/// Loads the epoch that a seat announces.
#[inline(always)]
pub fn load_pass(shared: &Shared, pass: &mut Pass, word: Name) -> u64
    requires { Asks shared.now pass.old Choice.Go (operation Kind.LoadPass word Action.Load) }
    ensures { Makes shared.now pass.old Choice.Go result pass.new }
{
    step!(load, LoadPass, Action::Load, shared, pass, Choice::Go, word)
}

/// Exchanges a retired row for a free one.
#[inline(always)]
pub fn reclaim(shared: &Shared, pass: &mut Pass, word: Name, expected: u64, stored: u64) -> u64
    requires { Asks shared.now pass.old Choice.Go
        (operation Kind.Reclaim word (Action.Exchange expected stored)) }
    ensures { Makes shared.now pass.old Choice.Go result pass.new }
{
    step!(
        exchange,
        Reclaim,
        Action::Exchange(expected, stored),
        shared,
        pass,
        Choice::Go,
        word,
        expected,
        stored
    )
}

/// Takes a free row, to write a new one there.
#[inline(always)]
pub fn take_row(shared: &Shared, pass: &mut Pass, word: Name, expected: u64, stored: u64) -> u64
    requires { Asks shared.now pass.old Choice.Go
        (operation Kind.TakeRow word (Action.Exchange expected stored)) }
    ensures { Makes shared.now pass.old Choice.Go result pass.new }
{
    step!(
        exchange,
        TakeRow,
        Action::Exchange(expected, stored),
        shared,
        pass,
        Choice::Go,
        word,
        expected,
        stored
    )
}

/// Stores a word of a new row.
#[inline(always)]
pub fn store_infant(shared: &Shared, pass: &mut Pass, word: Name, stored: u64) -> u64
    requires { Asks shared.now pass.old Choice.Go
        (operation Kind.StoreInfant word (Action.Store stored)) }
    ensures { Makes shared.now pass.old Choice.Go result pass.new }
{
    step!(
        store,
        StoreInfant,
        Action::Store(stored),
        shared,
        pass,
        Choice::Go,
        word,
        stored
    )
}

// The new rows are linked, and those of the group go.

/// Links the new rows in place of the group.
#[inline(always)]
pub fn replace(shared: &Shared, pass: &mut Pass, word: Name, expected: u64, stored: u64) -> u64
    requires { Asks shared.now pass.old Choice.Go
        (operation Kind.Replace word (Action.Exchange expected stored)) }
    ensures { Makes shared.now pass.old Choice.Go result pass.new }
{
    step!(
        exchange,
        Replace,
        Action::Exchange(expected, stored),
        shared,
        pass,
        Choice::Go,
        word,
        expected,
        stored
    )
}

/// Makes a new row normal.
#[inline(always)]
pub fn normalise(shared: &Shared, pass: &mut Pass, word: Name, expected: u64, stored: u64) -> u64
    requires { Asks shared.now pass.old Choice.Go
        (operation Kind.Normalise word (Action.Exchange expected stored)) }
    ensures { Makes shared.now pass.old Choice.Go result pass.new }
{
    step!(
        exchange,
        Normalise,
        Action::Exchange(expected, stored),
        shared,
        pass,
        Choice::Go,
        word,
        expected,
        stored
    )
}

/// Adds to the epoch: what it found is the number with which a row of the group is retired.
#[inline(always)]
pub fn add_epoch(shared: &Shared, pass: &mut Pass, word: Name, number: u64) -> u64
    requires { Asks shared.now pass.old Choice.Go (operation Kind.Number word (Action.Add number)) }
    ensures { Makes shared.now pass.old Choice.Go result pass.new }
{
    step!(
        add,
        Number,
        Action::Add(number),
        shared,
        pass,
        Choice::Go,
        word,
        number
    )
}

/// Stores that a row of the group is retired.
#[inline(always)]
pub fn retire(shared: &Shared, pass: &mut Pass, word: Name, stored: u64) -> u64
    requires { Asks shared.now pass.old Choice.Go
        (operation Kind.StoreRetired word (Action.Store stored)) }
    ensures { Makes shared.now pass.old Choice.Go result pass.new }
{
    step!(
        store,
        StoreRetired,
        Action::Store(stored),
        shared,
        pass,
        Choice::Go,
        word,
        stored
    )
}
