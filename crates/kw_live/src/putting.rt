//! The events of a put or a delete at its row.
//!
//! The put asks for a cell, writes and announces it, stamps it, and inserts it in the list of the
//! row. Each event is made by its own step, but for those by which it goes by the cells of lesser
//! keys: these are made in one loop, as `inserting` says. A delete that is done may find that its
//! row is worth to be tidied.
ghost use Rattle.std.specs.Prelude.{◌≡◌, if◌then◌else◌};
ghost use Rattle.kw_follow.specs.Following.{Follows};
ghost use Rattle.kw_follow.specs.Reaching.{Advances};
ghost use Rattle.kw_live.specs.Putting.{Tried, is_trying, stands_after, tidies_after};
ghost use Rattle.kw_live.specs.declared.putting.TryPut.TheVariants.{Done, Tidies};

use crate::inserting::go_by_lesser;
use kw_follow::{go, go_put};
use kw_model::call::Call;
use kw_table::{Pass, Shared};
use kw_world::activity::Activity;
use kw_world::activity::insert::Insert;
use kw_world::activity::put::Put;
use kw_world::event::Choice;
use kw_world::local::Local;

/// How a put or a delete ended at its row.
#[derive(Clone, Copy, Debug, PartialEq, Eq)]
pub enum TryPut {
    /// Its cell is stamped.
    Done,
    /// Its cell is stamped, and its row is to be tidied: it rebalances the row before it leaves.
    Tidies,
    /// This row gives no cell any more, or lets no put get a version. No cell is stamped.
    RowFull(u32),
}

/// Puts the call's cell into the row that it stands at.
///
/// The call is a put or a delete that has arrived at its row; it is then about to leave with
/// `Done`, or to rebalance its row. `RowFull` names that row, and comes only where an event of this
/// call found the row's count frozen, or at `CELLS` or above, or its own entry there frozen.
/// `Tidies` comes where a delete is done whose row, as it looks just now, is worth it: a search for
/// free rows would begin at the row `free`. Takes no memory.
pub fn try_put(shared: &Shared, pass: &mut Pass, local: &mut Local, free: u32) -> TryPut
    requires follows { Follows shared.now pass.old local.old }
    requires activity { local.old.activity ≡ Activity.Put Put.Count }
    ensures on { Advances shared.now pass.old pass.new local.new }
    ensures stands { local.new.activity ≡ stands_after result }
    ensures call { local.new.call ≡ local.old.call }
    ensures tidies { local.new.tidies ≡ tidies_after result }
    ensures cause { Tried pass.old pass.new local.old.row result }
{
    let row = local.row;
    while is_trying(&local.activity) {
        match local.activity {
            Activity::Insert(Insert::Start) | Activity::Insert(Insert::Link) => {
                go_by_lesser(shared, pass, local)
            }
            _ => {
                go_put(shared, pass, local);
            }
        }
    }
    if let Activity::Rebalance(_) = local.activity {
        return TryPut::RowFull(row);
    }
    if clear(shared, pass, local, free) {
        TryPut::Tidies
    } else {
        TryPut::Done
    }
}

// The last event of a put at its row, which is done: it is then about to leave, or to tidy its row.
// Whether it tidies.
#[inline(always)]
fn clear(shared: &Shared, pass: &mut Pass, local: &mut Local, free: u32) -> bool
    requires follows { Follows shared.now pass.old local.old }
    requires activity { local.old.activity ≡ Activity.Put Put.Clear }
    ensures on { Advances shared.now pass.old pass.new local.new }
    ensures stands { local.new.activity ≡ stands_after (if result then Tidies else Done) }
    ensures tidies { local.new.tidies ≡ result }
{
    let tidies = wants_to_tidy(shared, local, free);
    if tidies {
        let row = local.row;
        go(shared, pass, local, Choice::Guess(row));
    } else {
        go_put(shared, pass, local);
    }
    local.tidies
}

// Whether the put is a delete, and its row is worth it.
#[inline(always)]
fn wants_to_tidy(shared: &Shared, local: &Local, free: u32) -> bool {
    match local.call {
        Some(Call::Del(_)) => shared.pays_to_tidy(local.row, local.cell, local.epoch, free),
        _ => false,
    }
}

// Whether the put is at its row, and not done.
#[inline(always)]
fn is_trying(activity: &Activity) -> bool
    ensures { result ≡ is_trying activity.now }
{
    match activity {
        Activity::Put(Put::Clear) => false,
        Activity::Put(_) | Activity::Insert(_) => true,
        _ => false,
    }
}
