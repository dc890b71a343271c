//! What the index of a map is told of a rebalance that won.
//!
//! The index is a hint: a walk looks at the row that it names, and begins at the first row where
//! that is the wrong one. So no clause rests on what stands here; it makes the walks short. The new
//! rows are published once they are normal, since a walk begins at no other row; and before the
//! seat forgets them, which it does as it retires the last row of its group.
use kw_index::change::Change;
use kw_index::entries::IndexEntry;
use kw_index::hints::Hints;
use kw_index::index::Index;
use kw_world::activity::Activity;
use kw_world::activity::rebalance::Rebalance;
use kw_world::activity::rebalance::replace::Replace;
use kw_world::local::Local;

/// Tells the index of a rebalance that won, where its new rows are normal and none of its group is
/// retired yet; elsewhere nothing is done.
///
/// The rows of the group are gone then, and each new row has its least key. The hints have other
/// entries afterwards, and the pass searches behind the last new row next. Where others publish
/// again and again just then, the change waits with the hints, and is published with the next one
/// of this caller. Takes no memory.
pub(crate) fn tell_index(index: &Index, hints: &mut Hints, local: &Local) {
    let Activity::Rebalance(Rebalance::Replace(Replace::Number)) = local.activity else {
        return;
    };
    if local.rebalance.hand != local.row {
        return;
    }
    let taken = local.rebalance.taken.as_slice();
    if let Some(row) = taken.last() {
        hints.window.took(*row, taken.len() as u32);
    }
    hints.own.publish(index, change_of(local));
}

// Each new row comes with its least key, and the rows of the group go.
fn change_of(local: &Local) -> Change {
    let mut change = Change::without(local.row, local.rebalance.second);
    let mut number: usize = 0;
    for row in local.rebalance.taken.as_slice() {
        change.place(IndexEntry {
            least: least_key(local, number),
            row: *row,
        });
        number = number.saturating_add(1);
    }
    change
}

// The least key of the new row of this number, from 0: that of the full row for the first one, and
// that of its first cell for every other.
fn least_key(local: &Local, number: usize) -> u32 {
    if number == 0 {
        return local.lower;
    }
    let kept = local.rebalance.kept.as_slice();
    match local.rebalance.starts.as_slice().get(number) {
        Some(start) => match kept.get(*start) {
            Some(cell) => cell.key,
            None => local.lower,
        },
        None => local.lower,
    }
}
