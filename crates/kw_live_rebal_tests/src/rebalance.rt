//! Whole puts whose row is full, put together from `rebalance` and the functions of `kw_live`.
//!
//! A row has `CELLS` cells, and a new one is built with `BUILT` at most. Of a key that is put again
//! and again only the newest cell goes into a new row.
ghost use Rattle.std.specs.Prelude.{◌≡◌, ◌<◌, true, false, IfNone, IfSome};
ghost use Rattle.kw_words.specs.declared.sizes.TheConstants.{VALUE_END};
ghost use Rattle.kw_core.specs.Stages.{is_put};
ghost use Rattle.kw_follow.specs.Following.{Follows, activity_in};
ghost use Rattle.kw_table.specs.Passes.{IsPassOf};
ghost use Rattle.kw_world.specs.Local.{resting};

use kw_index::hints::Hints;
use kw_index::index::Index;
use kw_live::{TryPut, enter, enter_anew, get, leave, locate, try_put};
use kw_live_rebal::{Rebalanced, rebalance};
use kw_model::call::{Call, Reply};
use kw_table::{Pass, Shared};
use kw_words::sizes::{BUILT_COUNT, CELL_COUNT, CELLS, SPENT};
use kw_world::activity::Activity;
use kw_world::activity::rebalance::Rebalance;
use kw_world::activity::rebalance::engage::Engage;
use kw_world::local::Local;
use std::process::Abort;
use std::sync::Wait;
use std::test::Fail;

// A put up to its row, and to its end where there is room. The row that is full; the put is then to
// rebalance it.
fn put_once<R: Abort>(
    rt: &R,
    shared: &Shared,
    pass: &mut Pass,
    local: &mut Local,
    key: u32,
    value: u64,
) -> Option<u32>
    requires table { IsPassOf shared.now pass.old }
    requires idle { activity_in pass.old ≡ Activity.Idle }
    requires rested { local.old ≡ resting 0 }
    requires value { value < VALUE_END }
    ensures table { IsPassOf shared.now pass.new }
    ensures done { IfNone result ((activity_in pass.new ≡ Activity.Idle)
        × (local.new ≡ resting 0)) }
    ensures full { IfSome result (λ row. Follows shared.now pass.new local.new
        × (local.new.activity ≡ Activity.Rebalance (Rebalance.Engage Engage.Clock)) × (is_put local.new.call ≡ true)
        × (local.new.tidies ≡ false)) }
{
    enter(shared, pass, local, Call::Put(key, value));
    locate(shared, pass, local, None);
    match try_put(shared, pass, local, 0) {
        TryPut::Done => {
            leave(shared, pass, local);
            None
        }
        TryPut::RowFull(row) => Some(row),
        TryPut::Tidies => panic!(rt; "a put does not tidy"),
    }
}

// A whole put, which is done. Where its row is full it replaces that: both rows, the full one and
// the one that it then comes to.
fn put<R: Wait + Abort>(
    rt: &R,
    shared: &Shared,
    index: &Index,
    hints: &mut Hints,
    pass: &mut Pass,
    local: &mut Local,
    key: u32,
    value: u64,
) -> Option<(u32, u32)>
    requires table { IsPassOf shared.now pass.old }
    requires idle { activity_in pass.old ≡ Activity.Idle }
    requires rested { local.old ≡ resting 0 }
    requires value { value < VALUE_END }
    ensures table { IsPassOf shared.now pass.new }
    ensures idle { activity_in pass.new ≡ Activity.Idle }
    ensures rests { local.new ≡ resting 0 }
{
    let Some(full) = put_once(rt, shared, pass, local, key, value) else {
        return None;
    };
    let Rebalanced::Done = rebalance(rt, shared, index, hints, pass, local) else {
        panic!(rt; "a row in place of the full one");
    };
    enter_anew(shared, pass, local);
    locate(shared, pass, local, None);
    let row = local.row;
    let TryPut::Done = try_put(shared, pass, local, 0) else {
        panic!(rt; "room in a new row");
    };
    leave(shared, pass, local);
    Some((full, row))
}

// The cells of a row, as values are counted.
const ROW: u64 = CELLS as u64;

// Puts the values from this one on for key 7, below the number of cells of three rows, until one of
// them replaces its row. Its value, and both rows.
fn put_until_replaced<R: Wait + Abort>(
    rt: &R,
    shared: &Shared,
    index: &Index,
    hints: &mut Hints,
    pass: &mut Pass,
    local: &mut Local,
    from: u64,
) -> Option<(u64, (u32, u32))>
    requires table { IsPassOf shared.now pass.old }
    requires idle { activity_in pass.old ≡ Activity.Idle }
    requires rested { local.old ≡ resting 0 }
    ensures table { IsPassOf shared.now pass.new }
    ensures idle { activity_in pass.new ≡ Activity.Idle }
    ensures rests { local.new ≡ resting 0 }
{
    for value in from..3 * ROW {
        if let Some(rows) = put(rt, shared, index, hints, pass, local, 7, value) {
            return Some((value, rows));
        }
    }
    None
}

// Fills a row: a put for each of its cells, of which the first one has key 0, and each the key that
// is `step` above.
fn fill<R: Wait + Abort>(
    rt: &R,
    shared: &Shared,
    index: &Index,
    hints: &mut Hints,
    pass: &mut Pass,
    local: &mut Local,
    step: u32,
)
    requires table { IsPassOf shared.now pass.old }
    requires idle { activity_in pass.old ≡ Activity.Idle }
    requires rested { local.old ≡ resting 0 }
    ensures table { IsPassOf shared.now pass.new }
    ensures idle { activity_in pass.new ≡ Activity.Idle }
    ensures rests { local.new ≡ resting 0 }
{
    let mut key: u32 = 0;
    for _ in 0..CELL_COUNT {
        if put(rt, shared, index, hints, pass, local, key, 1).is_some() {
            panic!(rt; "room in the row");
        }
        key = key.saturating_add(step);
    }
}

// How a put of this key is refused whose row is full: how the rebalance ends, and its reply.
fn refusal<R: Wait + Abort>(
    rt: &R,
    shared: &Shared,
    index: &Index,
    hints: &mut Hints,
    pass: &mut Pass,
    local: &mut Local,
    key: u32,
) -> (Rebalanced, Reply)
    requires table { IsPassOf shared.now pass.old }
    requires idle { activity_in pass.old ≡ Activity.Idle }
    requires rested { local.old ≡ resting 0 }
    ensures table { IsPassOf shared.now pass.new }
    ensures idle { activity_in pass.new ≡ Activity.Idle }
    ensures rests { local.new ≡ resting 0 }
{
    if put_once(rt, shared, pass, local, key, 1).is_none() {
        panic!(rt; "a full row");
    }
    match rebalance(rt, shared, index, hints, pass, local) {
        Rebalanced::NoRows => (Rebalanced::NoRows, leave(shared, pass, local)),
        Rebalanced::Spent => (Rebalanced::Spent, leave(shared, pass, local)),
        _ => panic!(rt; "no row in place of the full one"),
    }
}

// Of the two rows one takes the place of the other. The put behind those that fill row 0 is the
// second one in row 1, and two fewer than a row has cells fill that.
#[test]
fn a_put_replaces_its_row(rt: HostRuntime) -> Result<(), Fail> {
    let (shared, mut passes) = Shared::open(rt.alloc(), 2, 1, 1, 1)?;
    let index = Index::new(rt.alloc(), 2)?;
    let mut hints = Hints::new(rt.alloc(), 2, 0)?;
    let Some(mut pass) = passes.pop() else {
        panic!(rt; "a pass");
    };
    let mut local = Local::idle(rt.alloc());
    let first = put_until_replaced(&rt, &shared, &index, &mut hints, &mut pass, &mut local, 1);
    let second = put_until_replaced(
        &rt,
        &shared,
        &index,
        &mut hints,
        &mut pass,
        &mut local,
        ROW + 2,
    );
    let found = get(&shared, &mut pass, &mut local, 7, None);
    let replaced = (Some((ROW + 1, (0, 1))), Some((2 * ROW, (1, 0))));
    assert_eq!(rt; ((first, second), found), (replaced, Some(2 * ROW)));
    Ok(())
}

// In a table of one row there is none to put in its place. The row is led by then, and is read as
// before.
#[test]
fn a_put_is_refused_for_want_of_rows(rt: HostRuntime) -> Result<(), Fail> {
    let (shared, mut passes) = Shared::open(rt.alloc(), 1, 1, 1, 1)?;
    let index = Index::new(rt.alloc(), 1)?;
    let mut hints = Hints::new(rt.alloc(), 1, 0)?;
    let Some(mut pass) = passes.pop() else {
        panic!(rt; "a pass");
    };
    let mut local = Local::idle(rt.alloc());
    fill(&rt, &shared, &index, &mut hints, &mut pass, &mut local, 0);
    let first = refusal(&rt, &shared, &index, &mut hints, &mut pass, &mut local, 0);
    let second = refusal(&rt, &shared, &index, &mut hints, &mut pass, &mut local, 0);
    let found = get(&shared, &mut pass, &mut local, 0, None);
    let refused = (Rebalanced::NoRows, Reply::NoRows);
    let again = (Rebalanced::NoRows, Reply::NoRows);
    assert_eq!(rt; (first, second, found), (refused, again, Some(1)));
    Ok(())
}

// As many keys as a row has cells want two rows. The only one that is free is given back, so the
// next put finds the same.
#[test]
fn a_row_that_is_not_enough_is_given_back(rt: HostRuntime) -> Result<(), Fail> {
    let (shared, mut passes) = Shared::open(rt.alloc(), 2, 1, 1, 1)?;
    let index = Index::new(rt.alloc(), 2)?;
    let mut hints = Hints::new(rt.alloc(), 2, 0)?;
    let Some(mut pass) = passes.pop() else {
        panic!(rt; "a pass");
    };
    let mut local = Local::idle(rt.alloc());
    fill(&rt, &shared, &index, &mut hints, &mut pass, &mut local, 1);
    let first = refusal(
        &rt, &shared, &index, &mut hints, &mut pass, &mut local, CELL_COUNT,
    );
    let second = refusal(
        &rt, &shared, &index, &mut hints, &mut pass, &mut local, CELL_COUNT,
    );
    let refused = (Rebalanced::NoRows, Reply::NoRows);
    let again = (Rebalanced::NoRows, Reply::NoRows);
    assert_eq!(rt; (first, second), (refused, again));
    Ok(())
}

// With two free rows each gets half of the keys, as many as a new row takes, and the put of a
// greater key comes to the second one. The last key of the first one is found.
#[test]
fn a_row_of_many_keys_is_split(rt: HostRuntime) -> Result<(), Fail> {
    let (shared, mut passes) = Shared::open(rt.alloc(), 3, 1, 1, 1)?;
    let index = Index::new(rt.alloc(), 3)?;
    let mut hints = Hints::new(rt.alloc(), 3, 0)?;
    let Some(mut pass) = passes.pop() else {
        panic!(rt; "a pass");
    };
    let mut local = Local::idle(rt.alloc());
    fill(&rt, &shared, &index, &mut hints, &mut pass, &mut local, 1);
    let rows = put(
        &rt, &shared, &index, &mut hints, &mut pass, &mut local, CELL_COUNT, 1,
    );
    let found = get(&shared, &mut pass, &mut local, BUILT_COUNT - 1, None);
    assert_eq!(rt; (rows, found), (Some((0, 2)), Some(1)));
    Ok(())
}

// The clock, or the epoch, begins at the bound from which on no rebalance begins.
#[test]
fn no_rebalance_begins_where_numbers_are_spent(rt: HostRuntime) -> Result<(), Fail> {
    for (clock, epoch) in [(SPENT, 1), (1, SPENT)] {
        let (shared, mut passes) = Shared::open(rt.alloc(), 2, 1, clock, epoch)?;
        let index = Index::new(rt.alloc(), 2)?;
        let mut hints = Hints::new(rt.alloc(), 2, 0)?;
        let Some(mut pass) = passes.pop() else {
            panic!(rt; "a pass");
        };
        let mut local = Local::idle(rt.alloc());
        fill(&rt, &shared, &index, &mut hints, &mut pass, &mut local, 0);
        assert_eq!(rt;
            refusal(&rt, &shared, &index, &mut hints, &mut pass, &mut local, 0),
            (Rebalanced::Spent, Reply::Spent)
        );
    }
    Ok(())
}

// A put has found its row full when another pass replaces that.
#[test]
fn a_put_finds_its_row_replaced(rt: HostRuntime) -> Result<(), Fail> {
    let (shared, mut passes) = Shared::open(rt.alloc(), 3, 2, 1, 1)?;
    let index = Index::new(rt.alloc(), 3)?;
    let mut hints = Hints::new(rt.alloc(), 3, 0)?;
    let (Some(mut second), Some(mut first)) = (passes.pop(), passes.pop()) else {
        panic!(rt; "two passes");
    };
    let mut local = Local::idle(rt.alloc());
    let mut other = Local::idle(rt.alloc());
    fill(&rt, &shared, &index, &mut hints, &mut first, &mut local, 0);
    if put_once(&rt, &shared, &mut second, &mut other, 0, 2).is_none() {
        panic!(rt; "a full row");
    }
    let rows = put(
        &rt, &shared, &index, &mut hints, &mut first, &mut local, 0, 3,
    );
    let ended = rebalance(&rt, &shared, &index, &mut hints, &mut second, &mut other);
    assert_eq!(rt; (rows, ended), (Some((0, 1)), Rebalanced::Again));
    Ok(())
}
