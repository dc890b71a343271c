//! The events of a get or a scan at a row.
ghost use Rattle.std.specs.Prelude.{◌≡◌, All, false, true};
ghost use Rattle.kw_words.specs.Plain.{IsValue};
ghost use Rattle.kw_follow.specs.Following.{Follows, held};
ghost use Rattle.kw_follow.specs.Reaching.{Advances, Reaches};
ghost use Rattle.kw_live.specs.Reading.{HasRead, LooksOn, ReadsOn, is_at_remembered, is_listing, is_looking};

use crate::listing::read_listed;
use crate::looking::look_at_entries;
use kw_follow::go_remembered;
use kw_table::{Pass, Shared};
use kw_world::activity::Activity;
use kw_world::activity::read::Read;
use kw_world::local::Local;

/// Reads the row that the call stands at: its entries first, helping the puts that it sees there,
/// and then its list, and what it remembers of the entries and did not reach in the list.
///
/// The call is a get or a scan that has arrived at its row, or has looked at some of the entries
/// there. A get is then about to leave with what the newest cell of its key shows. A scan has the
/// pairs of the row beside those that it had: those that the local's `gathered` cells show, from
/// the key that it wanted on; it then walks on to the row after this one, with the least key of
/// that row as the wanted one, or is at its end, where there is no such row or its keys are all
/// above the range. Takes no memory: the pairs are for the caller to take from `gathered`, whose
/// values are below `VALUE_END` and which stays as it is until the call looks at the entries of its
/// next row.
pub fn read_row(shared: &Shared, pass: &mut Pass, local: &mut Local)
    requires follows { Follows shared.now pass.old local.old }
    requires stage { is_looking local.old.activity ≡ false → local.old.activity ≡ Activity.Read Read.Start }
    ensures on { Reaches shared.now pass.old pass.new local.new }
    ensures call { local.new.call ≡ local.old.call }
    ensures version { local.new.version ≡ local.old.version }
    ensures read { HasRead local.old local.new (held pass.old) (held pass.new) }
    ensures cells { All (λ cell. IsValue cell.value) local.new.gathered }
{
    look_at_row(shared, pass, local);
    read_list(shared, pass, local);
}

/// Looks at the entries of the row at which the call stands, as `read_row` does. The call is then
/// about to go along the row's list. Takes no memory.
pub fn look_at_row(shared: &Shared, pass: &mut Pass, local: &mut Local)
    requires follows { Follows shared.now pass.old local.old }
    requires stage { is_looking local.old.activity ≡ false → local.old.activity ≡ Activity.Read Read.Start }
    ensures on { Advances shared.now pass.old pass.new local.new }
    ensures looks { LooksOn local.old local.new }
    ensures activity { local.new.activity ≡ Activity.Read Read.Start }
{
    if local.has_read {
        // a scan's next row, which no guess was made for
        shared.warm_next(local.row);
    }
    look_at_entries(shared, pass, local);
}

/// Goes along the list of a row whose entries the call has looked at, and reads what it remembers
/// of them, to the end of the row, as `read_row` does. Takes no memory.
pub fn read_list(shared: &Shared, pass: &mut Pass, local: &mut Local)
    requires follows { Follows shared.now pass.old local.old }
    requires activity { local.old.activity ≡ Activity.Read Read.Start }
    ensures on { Reaches shared.now pass.old pass.new local.new }
    ensures call { local.new.call ≡ local.old.call }
    ensures version { local.new.version ≡ local.old.version }
    ensures read { HasRead local.old local.new (held pass.old) (held pass.new) }
    ensures cells { All (λ cell. IsValue cell.value) local.new.gathered }
{
    read_listed(shared, pass, local);
    while is_at_remembered(&local.activity) {
        read_on(shared, pass, local);
    }
}

// One event at a cell that the reader remembers and did not reach in the list. It does not come
// back to the list.
#[inline(always)]
fn read_on(shared: &Shared, pass: &mut Pass, local: &mut Local)
    requires follows { Follows shared.now pass.old local.old }
    requires remembered { is_at_remembered local.old.activity ≡ true }
    ensures reads { ReadsOn shared.now pass.old local.old pass.new local.new }
    ensures over { is_listing local.new.activity ≡ false }
{
    go_remembered(shared, pass, local);
}

// Whether the reader is at a cell that it remembers and did not reach in the list.
#[inline(always)]
fn is_at_remembered(activity: &Activity) -> bool
    ensures { result ≡ is_at_remembered activity.now }
{
    match activity {
        Activity::Read(Read::LeftOverKey) | Activity::Read(Read::LeftOverValue) => true,
        _ => false,
    }
}
