//! What a log keeps of changes, and what it makes of entries that lag behind.
ghost use Rattle.std.specs.Prelude.{◌≡◌, IfOk};

use crate::index_edits::{change, entries_of, entry};
use kw_index::entries::{Entries, IndexEntry};
use kw_index::log::{CHANGES_BEFORE_RENEWAL, CHANGES_KEPT, Log};
use kw_model::memory::Memory;
use kw_words::sizes::SEAT_COUNT;
use std::alloc::Global;
use std::test::Fail;

// A renewal is begun while there is room for a change of each caller, one for each seat.
#[test]
fn the_base_is_renewed_before_the_changes_behind_it_are_lost(rt: HostRuntime) {
    assert!(rt; CHANGES_BEFORE_RENEWAL + SEAT_COUNT <= CHANGES_KEPT);
}

/// Adds a change, and tells whether the log took it.
fn add(log: &mut Log, gone: u32, placed: &[IndexEntry]) -> bool
    ensures { log.new.base ≡ log.old.base }
{
    log.add(change(gone, placed))
}

/// Adds a change for each number from one to another, by which row 1 begins at that key, and tells
/// how many the log took.
fn add_numbered(log: &mut Log, from: u32, to: u32) -> u32
    ensures { log.new.base ≡ log.old.base }
{
    let mut added: u32 = 0;
    for least in from..=to {
        if add(log, 2, &[entry(least, 1)]) {
            added = added.saturating_add(1);
        }
    }
    added
}

/// A log of a map of four rows with so many such changes.
fn numbered(alloc: Global, changes: u32) -> Result<Log, Memory>
    ensures { IfOk result (λ log. log.base.rows ≡ 4) }
{
    let mut log = Log::new(alloc, 4)?;
    add_numbered(&mut log, 1, changes);
    Ok(log)
}

/// Entries of which the changes up to a number are known, brought up to the last change.
fn brought(
    alloc: Global,
    log: &Log,
    list: &[IndexEntry],
    seen: Option<u32>,
) -> Result<Entries, Memory>
    requires { log.now.base.rows ≡ 4 }
    ensures { IfOk result (λ entries. entries.rows ≡ 4) }
{
    let mut entries = entries_of(alloc, list)?;
    log.bring_up(&mut entries, seen);
    Ok(entries)
}

/// Exchanges the base of a map of four rows.
fn renew(log: &mut Log, base: &mut Entries, number: u32) -> bool
    requires log { log.old.base.rows ≡ 4 }
    requires base { base.old.rows ≡ 4 }
    ensures log { log.new.base.rows ≡ 4 }
    ensures base { base.new.rows ≡ 4 }
{
    log.renew(base, number)
}

#[test]
fn a_new_log_has_the_first_row_alone(rt: HostRuntime) -> Result<(), Fail> {
    let log = numbered(rt.alloc(), 0)?;
    let entries = brought(rt.alloc(), &log, &[entry(0, 0), entry(100, 3)], None)?;
    let numbers = [log.number(), log.since_base()];
    assert_eq!(rt;
        (numbers, entries.list()),
        ([0, 0], [entry(0, 0)].as_slice())
    );
    Ok(())
}

// Whoever has the changes up to a number gets those behind it, and keeps what else it has: here an
// entry of row 3.
#[test]
fn the_changes_behind_a_number_are_made_and_no_others(rt: HostRuntime) -> Result<(), Fail> {
    let mut log = numbered(rt.alloc(), 0)?;
    add(&mut log, 0, &[entry(0, 1), entry(50, 2)]);
    add(&mut log, 2, &[entry(50, 0)]);
    let all = [entry(0, 1), entry(50, 0), entry(100, 3)];
    let last = [entry(50, 0), entry(100, 3)];
    let none = [entry(0, 0), entry(100, 3)];
    for (seen, wanted) in [
        (0, all.as_slice()),
        (1, last.as_slice()),
        (2, none.as_slice()),
    ] {
        let entries = brought(rt.alloc(), &log, &none, Some(seen))?;
        assert_eq!(rt; entries.list(), wanted, "behind {seen}");
    }
    Ok(())
}

// One change more than is kept is refused, and leaves all as it was; a base renewed by hand makes
// room for it.
#[test]
fn a_log_keeps_the_changes_since_its_base(rt: HostRuntime) -> Result<(), Fail> {
    let mut log = numbered(rt.alloc(), 0)?;
    let added = add_numbered(&mut log, 1, CHANGES_KEPT + 1);
    let full = [added, log.number(), log.since_base()];
    let mut base = brought(rt.alloc(), &log, &[], None)?;
    let last = [entry(0, 0), entry(128, 1)];
    assert_eq!(rt; (full, base.list()), ([128, 128, 128], last.as_slice()));
    let is_renewed = renew(&mut log, &mut base, 128);
    let more = [add_numbered(&mut log, 129, 130), log.since_base()];
    let first = [entry(0, 0)];
    assert_eq!(rt;
        (is_renewed, more, base.list()),
        (true, [2, 2], first.as_slice())
    );
    Ok(())
}

// Whoever lags behind by as many changes as are kept gets these, and keeps an entry of its own; one
// further behind gets the base.
#[test]
fn who_lags_behind_the_kept_changes_begins_with_the_base(rt: HostRuntime) -> Result<(), Fail> {
    let mut log = numbered(rt.alloc(), 64)?;
    let mut base = brought(rt.alloc(), &log, &[], None)?;
    renew(&mut log, &mut base, 64);
    add_numbered(&mut log, 65, 140);
    // row 3, which no numbered change names, begins at key 1000
    let lagging = [entry(0, 0), entry(1_000, 3)];
    let near = [entry(0, 0), entry(140, 1), entry(1_000, 3)];
    let far = [entry(0, 0), entry(140, 1)];
    for (seen, wanted) in [(12, near.as_slice()), (11, far.as_slice())] {
        let entries = brought(rt.alloc(), &log, &lagging, Some(seen))?;
        assert_eq!(rt; entries.list(), wanted, "behind {seen}");
    }
    Ok(())
}

// A base that is not behind the log's own is not taken.
#[test]
fn an_older_base_is_not_taken(rt: HostRuntime) -> Result<(), Fail> {
    let mut log = numbered(rt.alloc(), 9)?;
    let mut base = entries_of(rt.alloc(), &[entry(0, 0), entry(100, 3)])?;
    let older = renew(&mut log, &mut base, 0);
    let beyond = renew(&mut log, &mut base, 10);
    let all = [entry(0, 0), entry(100, 3)];
    assert_eq!(rt;
        (older, beyond, log.since_base(), base.list()),
        (false, false, 9, all.as_slice())
    );
    let newer = renew(&mut log, &mut base, 7);
    assert_eq!(rt; (newer, log.since_base()), (true, 2));
    Ok(())
}
