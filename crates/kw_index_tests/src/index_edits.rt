//! What edits leave of the entries of an index, and which row they guess.
ghost use Rattle.std.specs.Prelude.{◌≡◌, IfOk};

use kw_index::change::Change;
use kw_index::entries::{Entries, IndexEntry};
use kw_model::memory::Memory;
use std::alloc::Global;
use std::test::Fail;

/// The greatest key.
pub(crate) const LAST_KEY: u32 = 4_294_967_295;

/// An entry: the least key of this row.
pub(crate) fn entry(least: u32, row: u32) -> IndexEntry {
    IndexEntry { least, row }
}

/// Entries of a map of four rows, placed one after the other.
pub(crate) fn entries_of(alloc: Global, list: &[IndexEntry]) -> Result<Entries, Memory>
    ensures { IfOk result (λ entries. entries.rows ≡ 4) }
{
    let mut entries = Entries::new(alloc, 4)?;
    for entry in list {
        entries.place(*entry);
    }
    Ok(entries)
}

/// A change by which these rows, each with its least key, come in the place of one.
pub(crate) fn change(gone: u32, placed: &[IndexEntry]) -> Change {
    let mut change = Change::without(gone, None);
    for entry in placed {
        change.place(*entry);
    }
    change
}

#[test]
fn an_entry_stands_at_its_least_key(rt: HostRuntime) -> Result<(), Fail> {
    let mut entries = Entries::new(rt.alloc(), 8)?;
    let new = (entries.rows(), entries.list().is_empty());
    entries.insert(IndexEntry { least: 20, row: 5 });
    for placed in [entry(0, 0), entry(10, 3), entry(10, 6)] {
        entries.place(placed);
    }
    entries.remove(0);
    let left = [entry(10, 6), entry(20, 5)];
    assert_eq!(rt; (new, entries.list()), ((8, true), left.as_slice()));
    Ok(())
}

#[test]
fn a_guess_is_the_nearest_row_to_the_left(rt: HostRuntime) -> Result<(), Fail> {
    let entries = entries_of(rt.alloc(), &[entry(0, 0), entry(100, 3)])?;
    for (key, row) in [(0, 0), (99, 0), (100, 3), (LAST_KEY, 3)] {
        assert_eq!(rt; entries.guess(key), Some(row), "at {key}");
    }
    Ok(())
}

// The ninth row of a change is left out.
#[test]
fn a_change_brings_eight_rows_at_most(rt: HostRuntime) -> Result<(), Fail> {
    let mut entries = Entries::new(rt.alloc(), 16)?;
    let rows = [0, 1, 2, 3, 4, 5, 6, 7, 8].map(|row| entry(row, row));
    entries.apply(&change(3, &rows));
    let left = [0, 1, 2, 4, 5, 6, 7].map(|row| entry(row, row));
    assert_eq!(rt; entries.list(), left.as_slice());
    Ok(())
}

// Row 5 stands behind row 3, and goes along with it.
#[test]
fn a_change_takes_both_rows_of_a_group_out(rt: HostRuntime) -> Result<(), Fail> {
    let mut entries = Entries::new(rt.alloc(), 16)?;
    for old in [entry(0, 0), entry(10, 3), entry(20, 5), entry(30, 6)] {
        entries.place(old);
    }
    let mut change = Change::without(3, Some(5));
    change.place(entry(10, 7));
    change.place(entry(15, 8));
    entries.apply(&change);
    let left = [entry(0, 0), entry(10, 7), entry(15, 8), entry(30, 6)];
    assert_eq!(rt; entries.list(), left.as_slice());
    Ok(())
}
