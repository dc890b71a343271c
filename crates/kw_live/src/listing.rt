//! The walk of a reader along the list of its row.
//!
//! Most of what a get or a scan does is this: so the cells are gone by and gathered in one loop,
//! whose cursor the reader's local gets back once the walk is over. What the reader remembers of
//! the entries and did not reach here, it reads after it, as `reading` says.
ghost use Rattle.std.specs.Prelude.{◌≡◌, ◌≤◌, false};
ghost use Rattle.kw_world.specs.Calls.{first_key, last_key};
ghost use Rattle.kw_follow.specs.Cursors.{with_cursor};
ghost use Rattle.kw_follow.specs.Following.{Follows};
ghost use Rattle.kw_live.specs.Reading.{ReadsOn, is_listing};

use crate::beginning::begin_list;
use kw_follow::{Cursor, go_to_left_over};
use kw_table::{Pass, Shared};
use kw_words::plain::{unpack_cell_link, unpack_key};
use kw_world::activity::Activity;
use kw_world::activity::read::Read;
use kw_world::calls::{first_key, last_key};
use kw_world::local::Local;

/// Goes along the list from the link at which the reader stands, to the end of the list or to the
/// first cell above the range, and on to what the reader does after it: it is not in the list any
/// more. Takes no memory.
pub(crate) fn read_listed(shared: &Shared, pass: &mut Pass, local: &mut Local)
    requires follows { Follows shared.now pass.old local.old }
    requires activity { local.old.activity ≡ Activity.Read Read.Start }
    ensures reads { ReadsOn shared.now pass.old local.old pass.new local.new }
    ensures over { is_listing local.new.activity ≡ false }
{
    let first = first_key(local.call);
    let last = last_key(local.call);
    let mut cursor = begin_list(shared, pass, Cursor::of(local), local.built, first);
    loop {
        let link = cursor.load_cell_link(shared, pass);
        let Some(cell) = unpack_cell_link(link) else {
            cursor.write(local, Activity::Read(Read::Link));
            go_to_left_over(local);
            return;
        };
        let there = cursor.reach(cell);
        local.remembered.forget(cell);
        let word = there.load_key(shared, pass);
        let key = unpack_key(word);
        if key < first {
            cursor = there.past();
        } else if key <= last {
            let ranged = there.with_key(key);
            cursor = gather_cell(shared, pass, local, ranged);
        } else {
            there.write(local, Activity::Read(Read::Key));
            go_to_left_over(local);
            return;
        }
    }
}

// Reads the cell at hand, whose key is in the range, and gathers it. The answer is the cursor at
// the link after it.
#[inline(always)]
fn gather_cell(shared: &Shared, pass: &mut Pass, local: &mut Local, cursor: Cursor) -> Cursor
    requires { Follows shared.now pass.old (with_cursor (Activity.Read Read.Version) cursor local.old) }
    ensures { ReadsOn shared.now pass.old (with_cursor (Activity.Read Read.Version) cursor local.old)
        pass.new (with_cursor (Activity.Read Read.Link) result local.new) }
{
    let version = cursor.load_version(shared, pass);
    let read = cursor.with_version(version);
    let value = read.load_value(shared, pass);
    read.gather(local, value);
    read.past()
}
