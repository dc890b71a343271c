//! The kinds of event, each a step of its own.
//!
//! The next event of the pass is of this kind, on this word and with these numbers: that is what
//! each call asks, and what the table of events says for what the pass's seat knows. It is so with
//! the choice that the call is given, or with `Go` for a kind whose events here are made by that
//! choice alone. A call that begins has a value below `VALUE_END`. The answer is what the operation
//! tells the seat: the word that it found, and 0 for a store. Afterwards the pass has seen all
//! events up to and with this one, which is the only new one of its own. No kind takes memory, and
//! none is ever refused.
//!
//! The functions differ in the kind and in the action alone, so each body is the macro below: one
//! atomic operation on one word.
ghost use Rattle.kw_table.specs.Passes.{operation, Asks, Makes};

use crate::pass::Pass;
use crate::shared::Shared;
use kw_words::kind::Kind;
use kw_words::layout::Name;
use kw_world::event::Choice;
use kw_world::operation::{Action, Operation};

/// Makes the step of a kind by what it does to the word.
macro_rules! step {
    ($by:ident, $kind:ident, $action:expr, $shared:ident, $pass:ident, $choice:expr, $word:ident $(, $number:ident)*) => {
        $shared.$by(
            $pass,
            $choice,
            Operation {
                kind: Kind::$kind,
                name: $word,
                action: $action,
            }
            $(, $number)*
        )
    };
}

pub(crate) use step;

// A call begins and ends.

/// Loads the epoch, to announce it.
#[inline(always)]
pub fn load_epoch(shared: &Shared, pass: &mut Pass, choice: Choice, word: Name) -> u64
    requires { Asks shared.now pass.old choice (operation Kind.LoadEpoch word Action.Load) }
    ensures { Makes shared.now pass.old choice result pass.new }
{
    step!(load, LoadEpoch, Action::Load, shared, pass, choice, word)
}

/// Stores the epoch that the seat announces.
#[inline(always)]
pub fn store_pass(shared: &Shared, pass: &mut Pass, word: Name, stored: u64) -> u64
    requires { Asks shared.now pass.old Choice.Go (operation Kind.StorePass word (Action.Store stored)) }
    ensures { Makes shared.now pass.old Choice.Go result pass.new }
{
    step!(
        store,
        StorePass,
        Action::Store(stored),
        shared,
        pass,
        Choice::Go,
        word,
        stored
    )
}

/// Stores that the seat announces no epoch.
#[inline(always)]
pub fn clear_pass(shared: &Shared, pass: &mut Pass, word: Name, stored: u64) -> u64
    requires { Asks shared.now pass.old Choice.Go (operation Kind.ClearPass word (Action.Store stored)) }
    ensures { Makes shared.now pass.old Choice.Go result pass.new }
{
    step!(
        store,
        ClearPass,
        Action::Store(stored),
        shared,
        pass,
        Choice::Go,
        word,
        stored
    )
}

// A put or a delete at its row.

/// Loads the count of a row.
#[inline(always)]
pub fn load_count(shared: &Shared, pass: &mut Pass, word: Name) -> u64
    requires { Asks shared.now pass.old Choice.Go (operation Kind.LoadCount word Action.Load) }
    ensures { Makes shared.now pass.old Choice.Go result pass.new }
{
    step!(
        load,
        LoadCount,
        Action::Load,
        shared,
        pass,
        Choice::Go,
        word
    )
}

/// Adds to the count of a row, to get a cell.
#[inline(always)]
pub fn add_count(shared: &Shared, pass: &mut Pass, word: Name, number: u64) -> u64
    requires { Asks shared.now pass.old Choice.Go (operation Kind.AddCount word (Action.Add number)) }
    ensures { Makes shared.now pass.old Choice.Go result pass.new }
{
    step!(
        add,
        AddCount,
        Action::Add(number),
        shared,
        pass,
        Choice::Go,
        word,
        number
    )
}

/// Stores the key of a cell.
#[inline(always)]
pub fn store_key(shared: &Shared, pass: &mut Pass, word: Name, stored: u64) -> u64
    requires { Asks shared.now pass.old Choice.Go (operation Kind.StoreKey word (Action.Store stored)) }
    ensures { Makes shared.now pass.old Choice.Go result pass.new }
{
    step!(
        store,
        StoreKey,
        Action::Store(stored),
        shared,
        pass,
        Choice::Go,
        word,
        stored
    )
}

/// Stores the value of a cell.
#[inline(always)]
pub fn store_value(shared: &Shared, pass: &mut Pass, word: Name, stored: u64) -> u64
    requires { Asks shared.now pass.old Choice.Go
        (operation Kind.StoreValue word (Action.Store stored)) }
    ensures { Makes shared.now pass.old Choice.Go result pass.new }
{
    step!(
        store,
        StoreValue,
        Action::Store(stored),
        shared,
        pass,
        Choice::Go,
        word,
        stored
    )
}

/// Exchanges the seat's idle entry in a row for one with its cell.
#[inline(always)]
pub fn announce(shared: &Shared, pass: &mut Pass, word: Name, expected: u64, stored: u64) -> u64
    requires { Asks shared.now pass.old Choice.Go
        (operation Kind.Announce word (Action.Exchange expected stored)) }
    ensures { Makes shared.now pass.old Choice.Go result pass.new }
{
    step!(
        exchange,
        Announce,
        Action::Exchange(expected, stored),
        shared,
        pass,
        Choice::Go,
        word,
        expected,
        stored
    )
}

/// Loads the clock.
#[inline(always)]
pub fn load_clock(shared: &Shared, pass: &mut Pass, word: Name) -> u64
    requires { Asks shared.now pass.old Choice.Go (operation Kind.LoadClock word Action.Load) }
    ensures { Makes shared.now pass.old Choice.Go result pass.new }
{
    step!(
        load,
        LoadClock,
        Action::Load,
        shared,
        pass,
        Choice::Go,
        word
    )
}

/// Exchanges the seat's pending entry for one with a version.
#[inline(always)]
pub fn stamp(shared: &Shared, pass: &mut Pass, word: Name, expected: u64, stored: u64) -> u64
    requires { Asks shared.now pass.old Choice.Go
        (operation Kind.Stamp word (Action.Exchange expected stored)) }
    ensures { Makes shared.now pass.old Choice.Go result pass.new }
{
    step!(
        exchange,
        Stamp,
        Action::Exchange(expected, stored),
        shared,
        pass,
        Choice::Go,
        word,
        expected,
        stored
    )
}

/// Stores the version of a cell.
#[inline(always)]
pub fn store_version(shared: &Shared, pass: &mut Pass, word: Name, stored: u64) -> u64
    requires { Asks shared.now pass.old Choice.Go
        (operation Kind.StoreVersion word (Action.Store stored)) }
    ensures { Makes shared.now pass.old Choice.Go result pass.new }
{
    step!(
        store,
        StoreVersion,
        Action::Store(stored),
        shared,
        pass,
        Choice::Go,
        word,
        stored
    )
}

// A reader at its row, and the end of a put.

/// Loads a link between the cells of a row: its first, or that after a cell.
#[inline(always)]
pub fn load_after(shared: &Shared, pass: &mut Pass, word: Name) -> u64
    requires { Asks shared.now pass.old Choice.Go (operation Kind.LoadAfter word Action.Load) }
    ensures { Makes shared.now pass.old Choice.Go result pass.new }
{
    step!(
        load,
        LoadAfter,
        Action::Load,
        shared,
        pass,
        Choice::Go,
        word
    )
}

/// Stores the link after a cell that is not listed yet.
#[inline(always)]
pub fn store_after(shared: &Shared, pass: &mut Pass, word: Name, stored: u64) -> u64
    requires { Asks shared.now pass.old Choice.Go
        (operation Kind.StoreAfter word (Action.Store stored)) }
    ensures { Makes shared.now pass.old Choice.Go result pass.new }
{
    step!(
        store,
        StoreAfter,
        Action::Store(stored),
        shared,
        pass,
        Choice::Go,
        word,
        stored
    )
}

/// Exchanges a link between the cells of a row for one to a cell that is listed so.
#[inline(always)]
pub fn insert(shared: &Shared, pass: &mut Pass, word: Name, expected: u64, stored: u64) -> u64
    requires { Asks shared.now pass.old Choice.Go
        (operation Kind.Insert word (Action.Exchange expected stored)) }
    ensures { Makes shared.now pass.old Choice.Go result pass.new }
{
    step!(
        exchange,
        Insert,
        Action::Exchange(expected, stored),
        shared,
        pass,
        Choice::Go,
        word,
        expected,
        stored
    )
}

/// Stores that the seat's entry in a row is idle.
#[inline(always)]
pub fn clear_pend(shared: &Shared, pass: &mut Pass, choice: Choice, word: Name, stored: u64) -> u64
    requires { Asks shared.now pass.old choice (operation Kind.ClearPend word (Action.Store stored)) }
    ensures { Makes shared.now pass.old choice result pass.new }
{
    step!(
        store,
        ClearPend,
        Action::Store(stored),
        shared,
        pass,
        choice,
        word,
        stored
    )
}

/// Loads an entry of a row.
#[inline(always)]
pub fn load_pend(shared: &Shared, pass: &mut Pass, word: Name) -> u64
    requires { Asks shared.now pass.old Choice.Go (operation Kind.LoadPend word Action.Load) }
    ensures { Makes shared.now pass.old Choice.Go result pass.new }
{
    step!(load, LoadPend, Action::Load, shared, pass, Choice::Go, word)
}

/// Loads the key of a cell.
#[inline(always)]
pub fn load_key(shared: &Shared, pass: &mut Pass, choice: Choice, word: Name) -> u64
    requires { Asks shared.now pass.old choice (operation Kind.LoadKey word Action.Load) }
    ensures { Makes shared.now pass.old choice result pass.new }
{
    step!(load, LoadKey, Action::Load, shared, pass, choice, word)
}

/// Loads the value of a cell.
#[inline(always)]
pub fn load_value(shared: &Shared, pass: &mut Pass, word: Name) -> u64
    requires { Asks shared.now pass.old Choice.Go (operation Kind.LoadValue word Action.Load) }
    ensures { Makes shared.now pass.old Choice.Go result pass.new }
{
    step!(
        load,
        LoadValue,
        Action::Load,
        shared,
        pass,
        Choice::Go,
        word
    )
}

/// Loads the version of a cell.
#[inline(always)]
pub fn load_version(shared: &Shared, pass: &mut Pass, word: Name) -> u64
    requires { Asks shared.now pass.old Choice.Go (operation Kind.LoadVersion word Action.Load) }
    ensures { Makes shared.now pass.old Choice.Go result pass.new }
{
    step!(
        load,
        LoadVersion,
        Action::Load,
        shared,
        pass,
        Choice::Go,
        word
    )
}

// A scan and its version.

/// Stores the clock that the seat's scan loaded.
#[inline(always)]
pub fn store_waiting(shared: &Shared, pass: &mut Pass, word: Name, stored: u64) -> u64
    requires { Asks shared.now pass.old Choice.Go
        (operation Kind.StoreWaiting word (Action.Store stored)) }
    ensures { Makes shared.now pass.old Choice.Go result pass.new }
{
    step!(
        store,
        StoreWaiting,
        Action::Store(stored),
        shared,
        pass,
        Choice::Go,
        word,
        stored
    )
}

/// Adds to the clock, to draw a version for the seat's scan.
#[inline(always)]
pub fn draw(shared: &Shared, pass: &mut Pass, word: Name, number: u64) -> u64
    requires { Asks shared.now pass.old Choice.Go (operation Kind.Draw word (Action.Add number)) }
    ensures { Makes shared.now pass.old Choice.Go result pass.new }
{
    step!(
        add,
        Draw,
        Action::Add(number),
        shared,
        pass,
        Choice::Go,
        word,
        number
    )
}

/// Exchanges the seat's waiting scan for one with a version.
#[inline(always)]
pub fn settle(shared: &Shared, pass: &mut Pass, word: Name, expected: u64, stored: u64) -> u64
    requires { Asks shared.now pass.old Choice.Go
        (operation Kind.Settle word (Action.Exchange expected stored)) }
    ensures { Makes shared.now pass.old Choice.Go result pass.new }
{
    step!(
        exchange,
        Settle,
        Action::Exchange(expected, stored),
        shared,
        pass,
        Choice::Go,
        word,
        expected,
        stored
    )
}

/// Stores that the seat makes no scan.
#[inline(always)]
pub fn clear_scan(shared: &Shared, pass: &mut Pass, choice: Choice, word: Name, stored: u64) -> u64
    requires { Asks shared.now pass.old choice (operation Kind.ClearScan word (Action.Store stored)) }
    ensures { Makes shared.now pass.old choice result pass.new }
{
    step!(
        store,
        ClearScan,
        Action::Store(stored),
        shared,
        pass,
        choice,
        word,
        stored
    )
}

// The walk along the rows.

/// Loads the link to the first row.
#[inline(always)]
pub fn load_head(shared: &Shared, pass: &mut Pass, word: Name) -> u64
    requires { Asks shared.now pass.old Choice.Go (operation Kind.LoadHead word Action.Load) }
    ensures { Makes shared.now pass.old Choice.Go result pass.new }
{
    step!(load, LoadHead, Action::Load, shared, pass, Choice::Go, word)
}

/// Loads the link from a row to the next.
#[inline(always)]
pub fn load_link(shared: &Shared, pass: &mut Pass, word: Name) -> u64
    requires { Asks shared.now pass.old Choice.Go (operation Kind.LoadLink word Action.Load) }
    ensures { Makes shared.now pass.old Choice.Go result pass.new }
{
    step!(load, LoadLink, Action::Load, shared, pass, Choice::Go, word)
}

/// Loads the least key of a row.
#[inline(always)]
pub fn load_least(shared: &Shared, pass: &mut Pass, word: Name) -> u64
    requires { Asks shared.now pass.old Choice.Go (operation Kind.LoadLeast word Action.Load) }
    ensures { Makes shared.now pass.old Choice.Go result pass.new }
{
    step!(
        load,
        LoadLeast,
        Action::Load,
        shared,
        pass,
        Choice::Go,
        word
    )
}

/// Loads the state of a row.
pub fn load_state(shared: &Shared, pass: &mut Pass, choice: Choice, word: Name) -> u64
    requires { Asks shared.now pass.old choice (operation Kind.LoadState word Action.Load) }
    ensures { Makes shared.now pass.old choice result pass.new }
{
    step!(load, LoadState, Action::Load, shared, pass, choice, word)
}
