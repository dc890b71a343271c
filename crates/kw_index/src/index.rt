//! The slot in which the published log stands, and what threads ask of it.
//!
//! The slot is a value with a word that counts its readers. Who reads takes a turn that counts one
//! reader more, and leaves. Who edits takes the log out, and only while nobody reads; nobody
//! else comes until it is back: a slot whose log is out has a word of its own, `FREE`, from
//! which nobody but the one who has it takes a turn. Edits are short: a few changes are written, or
//! one base exchanged for another. A turn that sees another word than the one it loaded is tried
//! again, `TRIES` times at most; then the call goes on without the index. So nothing here waits for
//! another thread.
//!
//! The rule of the slot is that the base of what stands in it has room for as many rows as the map
//! has.
ghost use Rattle.std.specs.Prelude.{ℕ, ◌≡◌, ◌<◌, ◌≤◌, ◌%◌, false, drop, IfOk, IfSome, None, Some};
ghost use Rattle.counted_slot.specs.Counting.{readers, IsTurn, Gains};
ghost use Rattle.kw_index.specs.Turns.{IsLogOf};

use crate::change::{Change, MOST_UNTOLD};
use crate::entries::Entries;
use crate::log::{Log, Shown};
use arrayvec::ArrayVec;
use counted_slot::{Claim, Counted, FREE, Fits, MOST_READERS, ONE_READER, PRESENT, TAKEN};
use kw_model::memory::Memory;
use std::alloc::Global;
use std::marker::Model;

/// How often a turn is tried.
///
/// Whoever reads keeps editors out for as long as it makes the changes that it has not seen, a
/// microsecond at most where it does so at each publication of its own, and an editor everybody for
/// less. So many tries as these outlast both.
pub const TRIES: u32 = 4_096;

impl Fits for Log {
    type Tag = u32;

    ghost fits = { IsLogOf };
}

/// The published log of a map, which threads share by `&`. Seen as the number of rows of the
/// map.
#[derive(Drop)]
pub struct Index {
    rows: u32,
    slot: Counted<Option<Log>>,
}

impl Model for Index {
    ghost Value = { ℕ };

    ghost view = { λ index. index.rows };

    ghost invariant = { λ index. index.slot ≡ index.rows };
}

impl Index {
    /// The index of a map of this many rows, at least 1, with the one entry of the least key 0 and
    /// row 0.
    ///
    /// All memory of the index is taken here, and the only error is the want of it.
    pub fn new(alloc: Global, rows: u32) -> Result<Index, Memory>
        requires { 1 ≤ rows }
        ensures { IfOk result (λ index. index ≡ rows) }
    {
        let log = Log::new(alloc, rows)?;
        let index = Index {
            rows,
            slot: Counted::new(None, &rows),
        };
        index.give(log);
        Ok(index)
    }

    /// The number of rows of the map. Takes no memory.
    pub fn rows(&self) -> u32
        ensures { result ≡ self.now }
    {
        self.rows
    }

    /// Brings entries up to the last change that a turn shows, as `Log::bring_up` does, and
    /// tells what `Log::shown` does.
    ///
    /// The entries have room for as many rows as the index. None comes only where the turn gained
    /// no right to read. Nothing has changed then, nor where the last change is the one that was
    /// seen. Takes no memory.
    pub fn bring_up(&self, entries: &mut Entries, seen: Option<u32>) -> Option<Shown>
        requires { entries.old.rows ≡ self.now }
        ensures none { result ≡ None → entries.new ≡ entries.old }
        ensures same { IfSome result (λ shown. seen ≡ Some shown.number →
            entries.new ≡ entries.old) }
        ensures rows { entries.new.rows ≡ entries.old.rows }
    {
        let turn = self.turn_to_read()?;
        let shown = match turn.get() {
            Some(log) => {
                log.bring_up(entries, seen);
                Some(log.shown())
            }
            None => None,
        };
        turn.leave();
        shown
    }

    /// Publishes changes, the first ones first, and takes out those that it published.
    ///
    /// None where the turn gained no right to write, and as many as the log has room for: it
    /// keeps no more than `CHANGES_KEPT` since its base. Takes no memory.
    pub fn add(&self, changes: &mut ArrayVec<Change, MOST_UNTOLD>)
        ensures { (count : ℕ) × (changes.new.items ≡ drop count changes.old.items) }
    {
        let Some(mut log) = self.take() else {
            return;
        };
        for _ in 0..changes.len() {
            if changes.is_empty() || !log.has_room() {
                break;
            }
            log.add(changes.remove(0));
        }
        self.give(log);
    }

    /// Exchanges the log's base for these entries, which have the changes up to this number,
    /// where that is behind the base's. Whether it did.
    ///
    /// Where it did not, the entries are as they were: the turn gained no right to write, or the
    /// number is not behind the base's. They have room for as many rows as the index, before and
    /// after. Takes no memory.
    pub fn renew(&self, base: &mut Entries, number: u32) -> bool
        requires { base.old.rows ≡ self.now }
        ensures kept { result ≡ false → base.new ≡ base.old }
        ensures rows { base.new.rows ≡ self.now }
    {
        let Some(mut log) = self.take() else {
            return false;
        };
        let is_renewed = log.renew(base, number);
        self.give(log);
        is_renewed
    }

    /// Takes the log out to be edited, if one of the tries gained the right to.
    ///
    /// Nobody else gains a turn until it is given back: meanwhile calls go on without the index.
    /// Takes no memory.
    pub fn take(&self) -> Option<Log>
        ensures { IfSome result (IsLogOf self.now) }
    {
        for _ in 0..TRIES {
            if self.slot.load() == PRESENT {
                if let Some(turn) = self.turn_to_write(PRESENT) {
                    return turn.put(None, FREE);
                }
            }
        }
        None
    }

    /// Puts a log in, where none is: gives back the one that was taken out.
    ///
    /// Nobody else takes a turn at a slot whose log is out, so the first try gains it. Takes no
    /// memory.
    pub fn give(&self, log: Log)
        requires { IsLogOf self.now log }
    {
        if let Some(turn) = self.turn_to_write(FREE) {
            turn.put(Some(log), PRESENT);
        }
    }

    // The right to write, if this is the word, which counts no reader.
    fn turn_to_write(&self, word: u64) -> Option<Claim<'_, Option<Log>>>
        requires { (word % 4 < 3) × (readers word ≡ 0) }
        ensures { IfSome result (λ turn. (turn.right ≡ 2) × (turn.tag ≡ self.now)) }
    {
        let (found, turn) = self.slot.turn(word, TAKEN);
        if found == word {
            return Some(turn);
        }
        turn.done();
        None
    }

    // The right to read, if one of the tries gained it.
    fn turn_to_read(&self) -> Option<Claim<'_, Option<Log>>>
        ensures { IfSome result (λ turn. (turn.right ≡ 1) × (turn.tag ≡ self.now)) }
    {
        for _ in 0..TRIES {
            if let Some(turn) = self.try_to_read() {
                return Some(turn);
            }
        }
        None
    }

    fn try_to_read(&self) -> Option<Claim<'_, Option<Log>>>
        ensures { IfSome result (λ turn. (turn.right ≡ 1) × (turn.tag ≡ self.now)) }
    {
        let word = self.slot.load();
        let counted = one_reader_more(word)?;
        let (found, turn) = self.slot.turn(word, counted);
        if found == word {
            return Some(turn);
        }
        turn.done();
        None
    }
}

// The word of a slot has its state, and above that how many readers it counts.
const STATES: u64 = 4;

// The word with one reader more, where readers may come and one more can be counted.
fn one_reader_more(word: u64) -> Option<u64>
    ensures { IfSome result (λ counted. IsTurn word counted × (readers word < readers counted)
        × (counted % 4 < 3)) }
{
    if word % STATES == PRESENT && word / ONE_READER < MOST_READERS {
        Some(word + ONE_READER)
    } else {
        None
    }
}
