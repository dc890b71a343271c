//! The walk of a put along the list of its row, to where its own cell stands.
//!
//! Most of what a put does at its row is to go by the cells of lesser keys. So these are gone by in
//! one loop, whose cursor the put's local gets back at the first other cell, or at the end of the
//! list. The order of cells of one key, and the exchange of the link, are `putting`'s.
ghost use Rattle.std.specs.Prelude.{◌≡◌};
ghost use Rattle.kw_world.specs.Calls.{first_key};
ghost use Rattle.kw_core.specs.Stages.{IsAtInsertLink};
ghost use Rattle.kw_follow.specs.declared.cursor.Cursor.{Cursor as AnyCursor};
ghost use Rattle.kw_follow.specs.Cursors.{with_cursor};
ghost use Rattle.kw_follow.specs.Following.{Follows};
ghost use Rattle.kw_live.specs.Beginning.{BeginsInsert, is_insert_start};
ghost use Rattle.kw_live.specs.Putting.{InsertsFurther};

use crate::beginning::begin_insert;
use kw_follow::{Cursor, see_insert_key, see_insert_link};
use kw_table::{Pass, Shared};
use kw_words::plain::{unpack_cell_link, unpack_key};
use kw_world::activity::Activity;
use kw_world::activity::insert::Insert;
use kw_world::calls::first_key;
use kw_world::local::Local;

/// Goes along the list from the link at which the put stands, past the cells of lesser keys, up to
/// the first other cell or the end of the list, and on to what the put does there. Takes no memory.
pub(crate) fn go_by_lesser(shared: &Shared, pass: &mut Pass, local: &mut Local)
    requires follows { Follows shared.now pass.old local.old }
    requires activity { IsAtInsertLink local.old.activity }
    ensures { InsertsFurther shared.now pass.old local.old pass.new local.new }
{
    let own = first_key(local.call);
    let mut cursor = begin_own(shared, pass, local, own);
    loop {
        let link = cursor.load_insert_link(shared, pass);
        let Some(cell) = unpack_cell_link(link) else {
            cursor.write(local, Activity::Insert(Insert::Link));
            see_insert_link(local, link);
            return;
        };
        let there = cursor.reach_holding(local, cell);
        let word = there.load_insert_key(shared, pass);
        if unpack_key(word) < own {
            cursor = there.past();
        } else {
            there.write(local, Activity::Insert(Insert::Key));
            see_insert_key(local, word);
            return;
        }
    }
}

// Begins the walk of a put of this key, unless it has begun. The answer is the cursor at its link.
#[inline(always)]
fn begin_own(shared: &Shared, pass: &mut Pass, local: &Local, own: u32) -> Cursor
    requires follows { Follows shared.now pass.old local.now }
    requires activity { IsAtInsertLink local.now.activity }
    requires least { own ≡ first_key local.now.call }
    ensures { (w : AnyCursor) → with_cursor local.now.activity w local.now ≡ local.now →
        BeginsInsert shared.now pass.old local.now w pass.new result }
{
    let cursor = Cursor::of(local);
    if is_start(&local.activity) {
        begin_insert(shared, pass, cursor, local.built, own)
    } else {
        cursor
    }
}

// Whether the walk of a put is yet to begin.
#[inline(always)]
fn is_start(activity: &Activity) -> bool
    ensures { result ≡ is_insert_start activity.now }
{
    matches!(activity, Activity::Insert(Insert::Start))
}
