//! Where a walk along a row's list begins.
//!
//! The cells with which a row was built stand at its first places, by rising key, and all of them
//! are listed. So a reader, or a put that inserts its cell, begins behind the last of them whose
//! key is below its own. Loads that are no events find it (`cell_below`), and one event checks it.
//! A row that was not built, and one of which the call does not know it, is walked from its first
//! link on.
ghost use Rattle.std.specs.Prelude.{◌≡◌};
ghost use Rattle.kw_live.specs.Beginning.{BeginsAt, BeginsInsert, BeginsList};

use kw_follow::Cursor;
use kw_table::{Pass, Shared};
use kw_words::plain::unpack_key;
use kw_world::activity::Activity;
use kw_world::activity::insert::Insert;
use kw_world::activity::read::Read;
use kw_world::local::Local;

/// Begins the walk of a reader that has looked at the entries of its row, which was built with so
/// many cells; the least key that it reads is `first`. The answer is the cursor at its link. Takes
/// no memory.
#[inline(always)]
pub(crate) fn begin_list(
    shared: &Shared,
    pass: &mut Pass,
    cursor: Cursor,
    built: u32,
    first: u32,
) -> Cursor
    requires { (l : Local) × BeginsAt shared.now pass.old (Activity.Read Read.Start) l cursor built first }
    ensures { (l : Local) → BeginsAt shared.now pass.old (Activity.Read Read.Start) l cursor built first →
        BeginsList shared.now pass.old l cursor pass.new result }
{
    let Some(cell) = shared.cell_below(cursor.row, built, first) else {
        return cursor;
    };
    let key = unpack_key(cursor.load_guessed_key(shared, pass, cell));
    if key < first {
        cursor.behind(cell)
    } else {
        cursor
    }
}

/// Begins the walk of a put of this key that inserts its cell, in the same way. Takes no memory.
#[inline(always)]
pub(crate) fn begin_insert(
    shared: &Shared,
    pass: &mut Pass,
    cursor: Cursor,
    built: u32,
    key: u32,
) -> Cursor
    requires { (l : Local) × BeginsAt shared.now pass.old (Activity.Insert Insert.Start) l cursor built key }
    ensures { (l : Local) → BeginsAt shared.now pass.old (Activity.Insert Insert.Start) l cursor built key →
        BeginsInsert shared.now pass.old l cursor pass.new result }
{
    let Some(cell) = shared.cell_below(cursor.row, built, key) else {
        return cursor;
    };
    let least = unpack_key(cursor.load_guessed_insert_key(shared, pass, cell));
    if least < key {
        cursor.behind(cell)
    } else {
        cursor
    }
}
