//! Guesses of an index, by one thread and by four beside one that publishes, and searches in a
//! plain slice.
//!
//! Each thread asks for keys from a fixed generator, so the index and the slice are asked for the
//! same ones, and should tell the same rows. A guess of the index is one that is made anew, by own
//! entries that were brought up to the last change.
ghost use Rattle.std.specs.Prelude.{◌≡◌, ◌≤◌, IfOk};

use kw_index::change::Change;
use kw_index::entries::{Entries, IndexEntry};
use kw_index::index::Index;
use kw_index::own::OwnEntries;
use kw_model::memory::Memory;
use std::alloc::Global;
use std::sync::atomic::{AtomicBool, Ordering};
use std::thread::{Threads, join};

/// What a thread was told for its keys.
#[derive(Clone, Copy, Debug, PartialEq, Eq)]
pub struct Told {
    /// For how many keys it was told a row.
    pub rows: u64,
    /// The sum of these rows, which shows that they were looked up.
    pub sum: u64,
}

/// What four threads were told beside a fifth one, and how often that one published.
#[derive(Clone, Copy, Debug, PartialEq, Eq)]
pub struct Crowd {
    /// For how many keys the four were told a row.
    pub rows: u64,
    /// How often the fifth published.
    pub published: u64,
}

/// The key after a key, of a generator that goes through all of them.
fn next_key(key: u32) -> u32 {
    key.wrapping_mul(1_664_525).wrapping_add(1_013_904_223)
}

/// An entry for each row, whose least keys lie equally far apart.
pub fn entries_of_all(alloc: Global, rows: u32) -> Result<Entries, Memory>
    requires { 1 ≤ rows }
    ensures { IfOk result (λ entries. entries.rows ≡ rows) }
{
    let mut entries = Entries::new(alloc, rows)?;
    let apart = u32::MAX / rows;
    for row in 0..rows {
        let least = row.wrapping_mul(apart);
        entries.remove(row);
        entries.insert(IndexEntry { least, row });
    }
    Ok(entries)
}

/// An index with an entry for each of so many rows, those of `entries_of_all`.
pub fn index_of_all(alloc: Global, rows: u32) -> Result<Index, Memory>
    requires { 1 ≤ rows }
    ensures { IfOk result (λ index. index ≡ rows) }
{
    let index = Index::new(alloc, rows)?;
    let entries = entries_of_all(alloc, rows)?;
    let mut own = OwnEntries::new(alloc, rows)?;
    for entry in entries.list() {
        publish_entry(&mut own, &index, *entry);
    }
    Ok(index)
}

// Publishes that this row begins at this key, in place of no other.
fn publish_entry(own: &mut OwnEntries, index: &Index, entry: IndexEntry) -> bool {
    let mut change = Change::without(index.rows(), None);
    change.place(entry);
    own.publish(index, change)
}

/// What is asked for the row of a key.
#[derive(Clone, Copy)]
pub enum Asked<'a> {
    /// A plain slice of entries, by std's own search.
    Slice(&'a [IndexEntry]),
    /// An index, by own entries of the thread that asks.
    Index(&'a Index),
}

impl Asked<'_> {
    /// Asks for so many keys, which follow this one. The only error is the want of memory for own
    /// entries.
    pub fn for_keys(&self, alloc: Global, first: u32, calls: u32) -> Result<Told, Memory> {
        match *self {
            Asked::Slice(list) => Ok(search(list, first, calls)),
            Asked::Index(index) => {
                let mut own = OwnEntries::new(alloc, index.rows())?;
                Ok(guess(index, &mut own, first, calls))
            }
        }
    }
}

fn search(list: &[IndexEntry], first: u32, calls: u32) -> Told {
    let mut key = first;
    let mut told = Told { rows: 0, sum: 0 };
    for _ in 0..calls {
        key = next_key(key);
        let above = list.partition_point(|entry| entry.least <= key);
        if above > 0 {
            told = counted(told, list[above - 1].row);
        }
    }
    told
}

fn guess(index: &Index, own: &mut OwnEntries, first: u32, calls: u32) -> Told {
    let mut key = first;
    let mut told = Told { rows: 0, sum: 0 };
    for _ in 0..calls {
        key = next_key(key);
        if let Some(row) = own.guess_anew(index, key) {
            told = counted(told, row);
        }
    }
    told
}

fn counted(told: Told, row: u32) -> Told {
    Told {
        rows: told.rows.wrapping_add(1),
        sum: told.sum.wrapping_add(u64::from(row)),
    }
}

/// Lets four threads ask an index for so many keys each, while a fifth publishes again and again
/// that the first row begins at the least key.
pub fn ask_in_a_crowd<T: Threads + Sync>(
    threads: &T,
    alloc: Global,
    index: &Index,
    calls: u32,
) -> Result<Crowd, Memory> {
    let mut own = OwnEntries::new(alloc, index.rows())?;
    let over = AtomicBool::new(false);
    let (rows, published) = join(
        threads,
        || {
            let rows = ask_by_four(threads, alloc, Asked::Index(index), calls);
            over.store(true, Ordering::SeqCst);
            rows
        },
        || publish_until(index, &mut own, &over),
    );
    Ok(Crowd {
        rows: rows?,
        published,
    })
}

/// Lets four threads ask for so many keys each, and counts the rows that they were told.
pub fn ask_by_four<T: Threads + Sync>(
    threads: &T,
    alloc: Global,
    asked: Asked<'_>,
    calls: u32,
) -> Result<u64, Memory> {
    let (left, right) = join(
        threads,
        || ask_by_two(threads, alloc, asked, 1, calls),
        || ask_by_two(threads, alloc, asked, 3, calls),
    );
    Ok(left?.wrapping_add(right?))
}

fn ask_by_two<T: Threads + Sync>(
    threads: &T,
    alloc: Global,
    asked: Asked<'_>,
    first: u32,
    calls: u32,
) -> Result<u64, Memory> {
    let (one, other) = join(
        threads,
        || asked.for_keys(alloc, first, calls),
        || asked.for_keys(alloc, first.wrapping_add(1), calls),
    );
    Ok(one?.rows.wrapping_add(other?.rows))
}

/// Publishes until the others are done, and counts how often.
fn publish_until(index: &Index, own: &mut OwnEntries, over: &AtomicBool) -> u64 {
    let mut published: u64 = 0;
    for _ in 0..u64::MAX {
        if over.load(Ordering::SeqCst) {
            break;
        }
        let is_published = publish_entry(own, index, IndexEntry { least: 0, row: 0 });
        published = published.wrapping_add(u64::from(is_published));
    }
    published
}
