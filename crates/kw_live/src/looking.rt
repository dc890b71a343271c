//! The looks of a reader at the entries of its row.
//!
//! A put that is announced in an entry may not be listed yet, so a reader looks at the entry of
//! each seat before it goes along the list. Mostly nothing is announced: such entries are looked at
//! one after the other, and the reader's local is left as it is meanwhile. It is brought up at the
//! first entry of another kind, or at the last one.
ghost use Rattle.std.specs.Prelude.{◌≡◌, true, false};
ghost use Rattle.kw_words.specs.Pend.{pend_of};
ghost use Rattle.kw_follow.specs.Following.{Follows};
ghost use Rattle.kw_follow.specs.Reaching.{Advances};
ghost use Rattle.kw_follow.specs.Within.{looking};
ghost use Rattle.kw_live.specs.Reading.{LooksFurther, LooksOn, LooksUpTo, is_idle, is_looking};

use kw_follow::{go_along, load_entry, see_entry};
use kw_table::{Pass, Shared};
use kw_words::pend::Pend;
use kw_words::sizes::SEAT_COUNT;
use kw_world::activity::Activity;
use kw_world::activity::look::Look;
use kw_world::activity::read::Read;
use kw_world::local::Local;

/// Looks at all entries that the reader has yet to look at, and helps the puts that it sees there.
/// The reader then stands at the first link of the row's list. Takes no memory.
pub(crate) fn look_at_entries(shared: &Shared, pass: &mut Pass, local: &mut Local)
    requires follows { Follows shared.now pass.old local.old }
    requires stage { is_looking local.old.activity ≡ false → local.old.activity ≡ Activity.Read Read.Start }
    ensures on { Advances shared.now pass.old pass.new local.new }
    ensures looks { LooksOn local.old local.new }
    ensures activity { local.new.activity ≡ Activity.Read Read.Start }
{
    while is_looking(&local.activity) {
        look_on(shared, pass, local);
    }
}

// The looks from an entry on, or the next event at one where a put has no version yet.
#[inline(always)]
fn look_on(shared: &Shared, pass: &mut Pass, local: &mut Local)
    requires follows { Follows shared.now pass.old local.old }
    requires looking { is_looking local.old.activity ≡ true }
    ensures { LooksFurther shared.now pass.old local.old pass.new local.new }
{
    match local.activity {
        Activity::Look(Look::Entry(entry)) => look_from(shared, pass, local, entry),
        _ => {
            go_along(shared, pass, local);
        }
    }
}

// The looks from the entry of this seat on, to the first at which something is announced, or to the
// last one.
#[inline(always)]
fn look_from(shared: &Shared, pass: &mut Pass, local: &mut Local, entry: u32)
    requires follows { Follows shared.now pass.old local.old }
    requires activity { local.old.activity ≡ Activity.Look (Look.Entry entry) }
    ensures { LooksFurther shared.now pass.old local.old pass.new local.new }
{
    let seen = look_along(shared, pass, local.row, entry);
    local.activity = Activity::Look(Look::Entry(seen.entry));
    see_entry(local, seen.entry, seen.found);
}

/// An entry at which a reader has looked, and what it was told there.
#[derive(Clone, Copy, Debug, PartialEq, Eq)]
pub(crate) struct Seen {
    /// The seat whose entry it is.
    pub(crate) entry: u32,
    /// Its word.
    pub(crate) found: u64,
}

/// Looks at the entries of this row from that of this seat on, to the first at which something is
/// announced, or to the last one. What follows from that one is still to be said, by `see_entry`.
/// Takes no memory.
#[inline(always)]
pub(crate) fn look_along(shared: &Shared, pass: &mut Pass, row: u32, entry: u32) -> Seen
    requires { (l : Local) × Follows shared.now pass.old (looking entry l) × (l.row ≡ row) }
    ensures { (l : Local) → Follows shared.now pass.old (looking entry l) → l.row ≡ row →
        LooksUpTo shared.now pass.old l entry result.entry result.found pass.new }
{
    let mut at = entry;
    loop {
        let found = load_entry(shared, pass, row, at);
        let next = at + 1;
        if next < SEAT_COUNT && is_idle(found) {
            at = next;
        } else {
            return Seen { entry: at, found };
        }
    }
}

/// Whether nothing is announced in the entry.
#[inline(always)]
pub(crate) fn is_idle(found: u64) -> bool
    ensures { result ≡ is_idle (pend_of found) }
{
    matches!(Pend::unpack(found), Some(Pend::Idle))
}

// Whether the reader looks at the entries of the row.
#[inline(always)]
fn is_looking(activity: &Activity) -> bool
    ensures { result ≡ is_looking activity.now }
{
    match activity {
        Activity::Look(_) => true,
        _ => false,
    }
}
