//! The rebalance of a row by a put or a delete that is done.
//!
//! A row whose keys are deleted is full for nobody, so no put would ever replace it. So a call that
//! is done there may rebalance the row before it leaves, by the events of every rebalance. What
//! differs is the end: whatever becomes of the row, the call does not try again, and is refused
//! nothing.
ghost use Rattle.std.specs.Prelude.{◌≡◌, true};
ghost use Rattle.kw_follow.specs.Following.{Follows};
ghost use Rattle.kw_follow.specs.Reaching.{Advances};

use crate::rebalancing::{finish, has_won, rebuild};
use kw_index::hints::Hints;
use kw_index::index::Index;
use kw_table::{Pass, Shared};
use kw_world::activity::Activity;
use kw_world::activity::rebalance::Rebalance;
use kw_world::activity::rebalance::engage::Engage;
use kw_world::answer::Answer;
use kw_world::local::Local;
use std::sync::Wait;

/// Rebalances the row at which a put or a delete stands that is done, and that is to tidy its row;
/// the call is then about to leave, with `Done`.
///
/// The row may be replaced by this call or by another one, or stay as it is where too few rows are
/// free, or where the versions or the epochs are spent: the call ends the same. Where it stays, a
/// put that comes to it next may find it frozen, and rebalances it. The search for free rows, the
/// walks and the index are as in `rebalance`. Takes no memory. It may wait for others: all that is
/// said here is said for a call that returns.
pub fn tidy<R: Wait>(
    rt: &R,
    shared: &Shared,
    index: &Index,
    hints: &mut Hints,
    pass: &mut Pass,
    local: &mut Local,
)
    requires follows { Follows shared.now pass.old local.old }
    requires activity { local.old.activity ≡ Activity.Rebalance (Rebalance.Engage Engage.Clock) }
    requires tidies { local.old.tidies ≡ true }
    ensures on { Advances shared.now pass.old pass.new local.new }
    ensures done { local.new.activity ≡ Activity.Leave Answer.Done }
    ensures call { local.new.call ≡ local.old.call }
{
    rebuild(rt, shared, index, hints, pass, local);
    if has_won(&local.activity) {
        finish(rt, shared, index, hints, pass, local);
    }
}
