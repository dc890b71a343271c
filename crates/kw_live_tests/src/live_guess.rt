//! Walks that are given a row to begin at, and the replies of their calls.
//!
//! One row of the table is live, row 0; every other one is free. A walk that takes its guess goes
//! on by the least key of that row, and one that cannot take it by the link to the first row: so
//! the events after the first one show what became of the guess.
ghost use Rattle.std.specs.Prelude.{◌≡◌, true};
ghost use Rattle.kw_core.specs.Events.{is_call_in_range};
ghost use Rattle.kw_follow.specs.Following.{Follows, activity_in};
ghost use Rattle.kw_table.specs.Passes.{IsPassOf};

use crate::live::{finish, found, put_each, scan_row};
use kw_cells::cell::next_pair;
use kw_core::stage::Stage;
use kw_core::step::operation;
use kw_follow::go;
use kw_live::enter;
use kw_model::call::{Call, Reply};
use kw_model::memory::Memory;
use kw_model::pair_list::PairList;
use kw_table::{Pass, Shared};
use kw_words::kind::Kind;
use kw_world::activity::Activity;
use kw_world::activity::look::Look;
use kw_world::activity::put::Put;
use kw_world::activity::walk::Walk;
use kw_world::event::Choice;
use kw_world::local::Local;
use std::alloc::Global;
use std::test::Fail;

// A row that is free, and the number of rows, which names none.
const FREE: u32 = 5;

const ROWS: u32 = 64;

// More events than any walk of these tests makes.
const ALL: u32 = 10;

// The kinds of the events of a walk after its first one, which has the choice that `locate` makes
// of this guess. The call then stands at its row.
fn kinds_after_guess(
    alloc: Global,
    shared: &Shared,
    pass: &mut Pass,
    local: &mut Local,
    guess: Option<u32>,
) -> Result<Vec<Kind>, Memory>
    requires follows { Follows shared.now pass.old local.old }
    requires start { local.old.activity ≡ Activity.Walk Walk.Start }
{
    let mut kinds = Vec::new(alloc);
    let first = match guess {
        Some(row) => Choice::Guess(row),
        None => Choice::Go,
    };
    go(shared, pass, local, first);
    for _ in 0..ALL {
        if !Stage::of(&local.activity).is_walking() {
            return Ok(kinds);
        }
        kinds.push(operation(pass.number(), local, Choice::Go).kind)?;
        go(shared, pass, local, Choice::Go);
    }
    Ok(kinds)
}

// The same of a call on a new table. None where it does not stand at row 0 at the end.
fn kinds_on_the_way(
    alloc: Global,
    call: Call,
    guess: Option<u32>,
) -> Result<Option<Vec<Kind>>, Memory>
    requires { is_call_in_range call ≡ true }
{
    let (shared, mut passes) = Shared::open(alloc, ROWS, 1, 1, 1)?;
    let Some(mut pass) = passes.pop() else {
        return Ok(None);
    };
    let mut local = Local::idle(alloc);
    enter(&shared, &mut pass, &mut local, call);
    let Activity::Walk(Walk::Start) = local.activity else {
        return Ok(None);
    };
    let kinds = kinds_after_guess(alloc, &shared, &mut pass, &mut local, guess)?;
    match (&local.activity, local.row) {
        (Activity::Put(Put::Count) | Activity::Look(Look::Entry(0)), 0) => Ok(Some(kinds)),
        _ => Ok(None),
    }
}

// A guess at a free row is refused, and the walk begins at the first row. With none, or one at no
// row, its first event loads the link to that.
#[test]
fn a_guess_is_taken_at_the_live_row_alone(rt: HostRuntime) -> Result<(), Fail> {
    let taken = [Kind::LoadLeast, Kind::LoadLink];
    let refused = [Kind::LoadHead, Kind::LoadLink];
    let none = [Kind::LoadLink];
    for (guess, wanted) in [
        (Some(0), taken.as_slice()),
        (Some(FREE), refused.as_slice()),
        (None, none.as_slice()),
        (Some(ROWS), none.as_slice()),
        (Some(4294967295), none.as_slice()),
    ] {
        for call in [
            Call::Put(5, 50),
            Call::Del(5),
            Call::Get(5),
            Call::Scan(0, 200),
        ] {
            let Some(kinds) = kinds_on_the_way(rt.alloc(), call, guess)? else {
                panic!(rt; "at row 0");
            };
            assert_eq!(rt; kinds.as_slice(), wanted);
        }
    }
    Ok(())
}

#[test]
fn replies_are_the_same_whatever_the_guess(rt: HostRuntime) -> Result<(), Fail> {
    for guess in [None, Some(0), Some(FREE), Some(ROWS), Some(4294967295)] {
        let (shared, mut passes) = Shared::open(rt.alloc(), ROWS, 1, 1, 1)?;
        let Some(mut pass) = passes.pop() else {
            panic!(rt; "a pass");
        };
        let pairs = [(5, 50), (5, 51)];
        let Some(Reply::Done) = put_each(rt.alloc(), &shared, &mut pass, pairs.as_slice(), guess)
        else {
            panic!(rt; "each put");
        };
        let found = [
            found(rt.alloc(), &shared, &mut pass, 5, guess),
            found(rt.alloc(), &shared, &mut pass, 6, guess),
        ];
        let Some(local) = scan_row(rt.alloc(), &shared, &mut pass, 0, 200, guess) else {
            panic!(rt; "a row to read");
        };
        let cells = local.gathered.as_slice();
        let shown = [
            next_pair(cells, 0, 200, local.version),
            next_pair(cells, 6, 200, local.version),
        ];
        assert_eq!(rt; (found, shown), ([Some(51), None], [Some((5, 51)), None]));
        let none = Reply::Pairs(PairList::new(rt.alloc()));
        assert_eq!(rt; finish(&shared, &mut pass, local), Some(none));
    }
    Ok(())
}
