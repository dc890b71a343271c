//! What callers publish, and which rows they guess, one after the other on one index.
//!
//! A test is a list of turns that callers take, and what each is told. One loop takes the turns of
//! every list, so that they are proved once.
ghost use Rattle.std.specs.Prelude.{◌≤◌};

use crate::index_edits::{LAST_KEY, change, entry};
use kw_index::entries::IndexEntry;
use kw_index::index::Index;
use kw_index::own::OwnEntries;
use kw_model::memory::Memory;
use std::alloc::Global;
use std::process::Abort;
use std::test::Fail;

/// What a caller does with its own entries and is told, or what they are then.
#[derive(Clone, Copy)]
pub(crate) enum Turn<'a> {
    /// It publishes that these rows, each with its least key, come in the place of one, and is told
    /// whether it did.
    Publishes(u32, &'a [IndexEntry], bool),
    /// It guesses the row of this key.
    Guesses(u32, Option<u32>),
    /// It does so anew.
    GuessesAnew(u32, Option<u32>),
    /// Its entries are these, of which the first has the least key.
    Has(&'a [IndexEntry]),
}

/// Takes a turn by these entries, and expects what is told.
pub(crate) fn expect_turn(
    rt: &impl Abort,
    index: &Index,
    own: &mut OwnEntries,
    turn: Turn<'_>,
    place: usize,
) {
    match turn {
        Turn::Publishes(gone, placed, done) => {
            let told = own.publish(index, change(gone, placed));
            assert_eq!(rt; told, done, "at turn {place}");
        }
        Turn::Guesses(key, row) => {
            assert_eq!(rt; own.guess(index, key), row, "at turn {place}");
        }
        Turn::GuessesAnew(key, row) => {
            assert_eq!(rt; own.guess_anew(index, key), row, "at turn {place}");
        }
        Turn::Has(list) => {
            expect_entries(rt, index, own, list, place);
        }
    }
}

/// Expects that a caller's entries are these. No row comes twice in entries, so they are the ones
/// that guess each row at its least key and at the last key before the next row's.
fn expect_entries(
    rt: &impl Abort,
    index: &Index,
    own: &OwnEntries,
    list: &[IndexEntry],
    place: usize,
) {
    let mut last = LAST_KEY;
    for entry in list.iter().rev() {
        let guessed = [own.guess(index, entry.least), own.guess(index, last)];
        assert_eq!(rt; guessed, [Some(entry.row); 2], "at turn {place}");
        last = entry.least.saturating_sub(1);
    }
}

/// Takes turns, each by the caller of its number, and expects what they are told.
fn expect_turns(
    rt: &impl Abort,
    index: &Index,
    callers: &mut [OwnEntries],
    turns: &[(usize, Turn<'_>)],
) {
    for (place, step) in turns.iter().enumerate() {
        let (caller, turn) = *step;
        assert!(rt; caller < callers.len());
        expect_turn(rt, index, &mut callers[caller], turn, place);
    }
}

/// Callers with entries of maps of these numbers of rows.
fn callers_of(alloc: Global, rows: &[u32]) -> Result<Vec<OwnEntries>, Memory> {
    let mut callers = Vec::new(alloc);
    for count in rows {
        callers.push(OwnEntries::new(alloc, *count)?)?;
    }
    Ok(callers)
}

/// Takes turns at a new index of a map of so many rows, by callers of maps of these.
fn expect_anew(
    rt: &impl Abort,
    alloc: Global,
    rows: u32,
    of_callers: &[u32],
    turns: &[(usize, Turn<'_>)],
) -> Result<(), Memory>
    requires { 1 ≤ rows }
{
    let index = Index::new(alloc, rows)?;
    let mut callers = callers_of(alloc, of_callers)?;
    expect_turns(rt, &index, callers.as_mut_slice(), turns);
    assert_eq!(rt; index.rows(), rows);
    Ok(())
}

#[test]
fn a_new_index_shows_the_first_row(rt: HostRuntime) -> Result<(), Fail> {
    let first = [entry(0, 0)];
    let turns = [
        (0, Turn::Guesses(0, None)),
        (0, Turn::Guesses(LAST_KEY, None)),
        (0, Turn::GuessesAnew(7, Some(0))),
        (0, Turn::Has(first.as_slice())),
    ];
    Ok(expect_anew(&rt, rt.alloc(), 4, &[4], &turns)?)
}

#[test]
fn what_is_published_is_guessed_anew(rt: HostRuntime) -> Result<(), Fail> {
    let both = [entry(0, 1), entry(100, 3)];
    let turns = [
        (0, Turn::Publishes(0, both.as_slice(), true)),
        (0, Turn::Guesses(99, Some(1))),
        (0, Turn::Guesses(100, Some(3))),
        (1, Turn::Guesses(99, None)),
        (1, Turn::Guesses(100, None)),
        (1, Turn::GuessesAnew(100, Some(3))),
        (1, Turn::Guesses(99, Some(1))),
        (1, Turn::Guesses(100, Some(3))),
    ];
    Ok(expect_anew(&rt, rt.alloc(), 4, &[4, 4], &turns)?)
}

// Own entries are guessed from whatever others have published since.
#[test]
fn own_entries_stay_where_others_publish(rt: HostRuntime) -> Result<(), Fail> {
    let one = [entry(100, 1)];
    let turns = [
        (0, Turn::GuessesAnew(100, Some(0))),
        (1, Turn::Publishes(2, one.as_slice(), true)),
        (0, Turn::Guesses(100, Some(0))),
        (0, Turn::GuessesAnew(100, Some(1))),
    ];
    Ok(expect_anew(&rt, rt.alloc(), 4, &[4, 4], &turns)?)
}

// Entries with room for those of another map are not taken for this one's.
#[test]
fn own_entries_of_another_map_are_not_asked(rt: HostRuntime) -> Result<(), Fail> {
    let index = Index::new(rt.alloc(), 4)?;
    let other = Index::new(rt.alloc(), 5)?;
    let mut own = OwnEntries::new(rt.alloc(), 5)?;
    expect_turn(&rt, &index, &mut own, Turn::GuessesAnew(100, None), 0);
    expect_turn(&rt, &other, &mut own, Turn::GuessesAnew(100, Some(0)), 1);
    expect_turn(&rt, &index, &mut own, Turn::Guesses(100, None), 2);
    Ok(())
}

// Nothing is published over an index of another size.
#[test]
fn own_entries_of_another_map_are_not_published(rt: HostRuntime) -> Result<(), Fail> {
    let one = [entry(0, 4)];
    let turns = [
        (0, Turn::Publishes(0, one.as_slice(), false)),
        (1, Turn::GuessesAnew(100, Some(0))),
    ];
    Ok(expect_anew(&rt, rt.alloc(), 4, &[5, 4], &turns)?)
}

// Each of two callers publishes twice, the first one in a row, and then over the other's. What each
// publishes is made over all that was published before, as a third caller, and at last each of the
// two, shows.
#[test]
fn own_publications_are_made_over_those_of_others(rt: HostRuntime) -> Result<(), Fail> {
    let one = [entry(0, 1), entry(50, 2)];
    let two = [entry(50, 3), entry(70, 4)];
    let three = [entry(0, 5), entry(20, 6)];
    let four = [entry(70, 7)];
    let five = [entry(20, 8)];
    let all = [entry(0, 5), entry(20, 8), entry(50, 3), entry(70, 7)];
    let turns = [
        (0, Turn::Publishes(0, one.as_slice(), true)),
        (0, Turn::Publishes(2, two.as_slice(), true)),
        (1, Turn::Publishes(1, three.as_slice(), true)),
        (0, Turn::Publishes(4, four.as_slice(), true)),
        (1, Turn::Publishes(6, five.as_slice(), true)),
        (2, Turn::GuessesAnew(0, Some(5))),
        (0, Turn::GuessesAnew(0, Some(5))),
        (2, Turn::Has(all.as_slice())),
        (0, Turn::Has(all.as_slice())),
        (1, Turn::Has(all.as_slice())),
    ];
    Ok(expect_anew(&rt, rt.alloc(), 9, &[9, 9, 9], &turns)?)
}

// While the log is out, a change has to wait, and the own entries stay. It is published with the
// caller's next one, and before that.
#[test]
fn a_change_that_has_to_wait_is_published_with_the_next_one(rt: HostRuntime) -> Result<(), Fail> {
    let index = Index::new(rt.alloc(), 4)?;
    let mut callers = callers_of(rt.alloc(), &[4])?;
    let held = index.take();
    expect_a_wait(&rt, &index, callers.as_mut_slice());
    if let Some(log) = held {
        index.give(log);
    }
    expect_a_publication(&rt, &index, callers.as_mut_slice());
    Ok(())
}

// The log is held elsewhere: a change waits, and the caller finds no row by it.
fn expect_a_wait(rt: &impl Abort, index: &Index, callers: &mut [OwnEntries]) {
    let both = [entry(0, 1), entry(100, 3)];
    let waits = [
        (0, Turn::Publishes(0, both.as_slice(), false)),
        (0, Turn::GuessesAnew(100, None)),
    ];
    expect_turns(rt, index, callers, &waits);
}

// It is held no more: the change that waited is published with the next one, and before that.
fn expect_a_publication(rt: &impl Abort, index: &Index, callers: &mut [OwnEntries]) {
    let one = [entry(100, 2)];
    let all = [entry(0, 1), entry(100, 2)];
    let goes_on = [
        (0, Turn::GuessesAnew(100, Some(0))),
        (0, Turn::Publishes(3, one.as_slice(), true)),
        (0, Turn::Guesses(99, Some(1))),
        (0, Turn::Has(all.as_slice())),
    ];
    expect_turns(rt, index, callers, &goes_on);
}

/// Publishes by turns that one of two rows takes the other's place, and tells whether it did.
pub(crate) fn publish_by_turns(
    own: &mut OwnEntries,
    index: &Index,
    least: u32,
    rows: [u32; 2],
    turn: u32,
) -> bool {
    let [one, other] = rows;
    let (gone, placed) = if turn % 2 == 0 {
        (one, other)
    } else {
        (other, one)
    };
    own.publish(index, change(gone, &[entry(least, placed)]))
}

/// Publishes so many changes, by each of which one of two rows gives its place to the other, and
/// tells how many were published.
pub(crate) fn publish_many(
    own: &mut OwnEntries,
    index: &Index,
    least: u32,
    rows: [u32; 2],
    times: u32,
) -> u32 {
    let mut published: u32 = 0;
    for time in 0..times {
        if publish_by_turns(own, index, least, rows, time) {
            published = published.saturating_add(1);
        }
    }
    published
}

// Many times as many changes as are kept: the base is renewed on the way, so that none is refused.
#[test]
fn publications_do_not_run_out(rt: HostRuntime) -> Result<(), Fail> {
    let index = Index::new(rt.alloc(), 4)?;
    let mut own = OwnEntries::new(rt.alloc(), 4)?;
    let published = publish_many(&mut own, &index, 100, [1, 2], 1_001);
    assert_eq!(rt; published, 1_001);
    let all = [entry(0, 0), entry(100, 2)];
    let mut other = OwnEntries::new(rt.alloc(), 4)?;
    expect_turn(&rt, &index, &mut other, Turn::GuessesAnew(100, Some(2)), 0);
    expect_turn(&rt, &index, &mut other, Turn::Has(all.as_slice()), 1);
    Ok(())
}
