//! Two threads on one index.
use crate::index_callers::{Turn, expect_turn, publish_by_turns, publish_many};
use crate::index_edits::entry;
use kw_index::index::Index;
use kw_index::own::OwnEntries;
use std::sync::atomic::{AtomicBool, Ordering};
use std::test::Fail;
use std::thread;

/// How often a thread of a test tries before it gives up: minutes, since another thread may wait
/// long for a processor of a busy machine.
const MOST_TRIES: u32 = 1_000_000_000;

/// What a thread was told.
#[derive(Clone, Copy, Default)]
struct Sightings {
    first: bool,
    second: bool,
    other: bool,
}

/// Guesses the row of key 100 anew until both rows came, and then sets the flag.
fn guess_until_both(own: &mut OwnEntries, index: &Index, flag: &AtomicBool) -> Sightings {
    let mut seen = Sightings::default();
    for _ in 0..MOST_TRIES {
        match own.guess_anew(index, 100) {
            Some(1) => seen.first = true,
            Some(2) => seen.second = true,
            Some(0) | None => {}
            Some(_) => seen.other = true,
        }
        if seen.first && seen.second {
            break;
        }
        thread::yield_now();
    }
    flag.store(true, Ordering::SeqCst);
    seen
}

/// Publishes that one row takes the other's place, and back, until the flag is set, and tells
/// whether it ever did.
fn publish_in_turn(own: &mut OwnEntries, index: &Index, flag: &AtomicBool) -> bool {
    let mut ever = false;
    for _ in 0..MOST_TRIES {
        if flag.load(Ordering::SeqCst) {
            break;
        }
        let published = publish_many(own, index, 100, [2, 1], 2);
        ever = ever || published > 0;
        thread::yield_now();
    }
    ever
}

#[test]
fn one_thread_guesses_what_another_publishes(rt: HostRuntime) -> Result<(), Fail> {
    let index = Index::new(rt.alloc(), 4)?;
    let mut own = OwnEntries::new(rt.alloc(), 4)?;
    let mut other = OwnEntries::new(rt.alloc(), 4)?;
    let flag = AtomicBool::new(false);
    let (published, seen) = thread::join(
        &rt,
        || publish_in_turn(&mut own, &index, &flag),
        || guess_until_both(&mut other, &index, &flag),
    );
    let told = [published, seen.first, seen.second, seen.other];
    assert_eq!(rt; told, [true, true, true, false]);
    Ok(())
}

/// Publishes by turns that one of two rows takes the other's place, so many times, each once the
/// one before it was published.
fn publish_all(own: &mut OwnEntries, index: &Index, least: u32, rows: [u32; 2], times: u32) {
    let mut left = times;
    for _ in 0..MOST_TRIES {
        if left == 0 {
            break;
        }
        let published = publish_by_turns(own, index, least, rows, left);
        left = left.saturating_sub(u32::from(published));
    }
}

// Two threads publish beside each other, each for keys of its own. What is shown in the end has the
// last change of each.
#[test]
fn of_two_threads_that_publish_no_change_is_lost(rt: HostRuntime) -> Result<(), Fail> {
    let index = Index::new(rt.alloc(), 5)?;
    let mut low = OwnEntries::new(rt.alloc(), 5)?;
    let mut high = OwnEntries::new(rt.alloc(), 5)?;
    thread::join(
        &rt,
        || publish_all(&mut low, &index, 100, [1, 2], 300),
        || publish_all(&mut high, &index, 200, [3, 4], 300),
    );
    let list = [entry(0, 0), entry(100, 1), entry(200, 3)];
    let mut shown = OwnEntries::new(rt.alloc(), 5)?;
    expect_turn(&rt, &index, &mut shown, Turn::GuessesAnew(0, Some(0)), 0);
    expect_turn(&rt, &index, &mut shown, Turn::Has(list.as_slice()), 1);
    Ok(())
}
