//! Where each word lies in the memory of the running table.
//!
//! What counts for speed is how many cache lines a call touches, and which of them others write.
//! Each call writes words of no row: a pass announces an epoch at its start and takes it back at
//! its end. If the pass words of two seats lay in one line, each store of one thread would take the
//! line from the other, and with it what else is there. So each word of no row has a line to
//! itself. The rows follow, and each begins at a line: first its head, with its own words and its
//! entries, then its cells, two in each line. Only the states are not there: those of all rows lie
//! side by side behind the rows, since who looks for free rows asks one state after the other, and
//! a guess asks that of a row which may be gone. The places of the words, by which the core counts
//! them, are another matter: they are the same on every machine, and a slot is for the memory
//! alone.
ghost use Rattle.std.specs.Prelude.{◌≡◌, ◌≢◌, ◌+◌, ◌<◌, ◌≤◌, ◌⊎◌, true};
ghost use Rattle.kw_words.specs.Layout.{IsSized, IsWithin};
ghost use Rattle.kw_words.specs.declared.layout.Name.{Name};
ghost use Rattle.kw_words.specs.declared.sizes.TheConstants.{SEATS, CELLS, MOST_ROWS};
ghost use Rattle.kw_table.specs.declared.slot.TheConstants.{WORDS_A_LINE};
ghost use Rattle.kw_table.specs.Slots.{cell_slot, is_rowless, row_slot, slot, slots};

use kw_words::layout::{Layout, Name};
use kw_words::sizes::{CELLS, SEATS};

/// How many words a cache line has: 64 bytes, and 8 for each word.
pub const WORDS_A_LINE: usize = 8;

/// How many words the C library keeps for itself at the start of a large block, which begins at a
/// line: the memory begins behind them.
const BLOCK_HEADER: usize = 2;

/// How many words of the memory stand unused before the first line. In a block that begins
/// elsewhere nothing is lost but speed.
pub(crate) const LEFT_OUT: usize = WORDS_A_LINE - BLOCK_HEADER;

/// How many words are of no row. Each has a line.
const ROWLESS: usize = 4 + 3 * SEATS;

/// How many words of its own a row has beside its state: its count, its least key and two links.
const OWN_WORDS: usize = 4;

/// How many words a cell has.
const CELL_WORDS: usize = 4;

/// How many slots the head of a row takes: its own words and an entry for each seat, in lines.
const HEAD_SLOTS: usize = (OWN_WORDS + SEATS + (WORDS_A_LINE - 1)) / WORDS_A_LINE * WORDS_A_LINE;

/// How many slots a row takes: its head and its cells, in whole lines.
const ROW_SLOTS: usize = HEAD_SLOTS
    + (CELL_WORDS * CELLS + (WORDS_A_LINE - 1)) / WORDS_A_LINE * WORDS_A_LINE;

// Where the row begins. The rows end where the next one would begin.
#[inline(always)]
fn row_slot(row: u32) -> usize
    requires { row ≤ MOST_ROWS }
    ensures { result ≡ row_slot row }
{
    LEFT_OUT + ROWLESS * WORDS_A_LINE + row as usize * ROW_SLOTS
}

// Where the cell of the row begins.
#[inline(always)]
fn cell_slot(row: u32, cell: u32) -> usize
    requires row { row ≤ MOST_ROWS }
    requires cell { cell < CELLS }
    ensures { result ≡ cell_slot row cell }
{
    row_slot(row) + HEAD_SLOTS + CELL_WORDS * cell as usize
}

/// How many words the memory of a table of this many rows has.
pub fn slots(rows: u32) -> usize
    requires { IsSized SEATS CELLS rows }
    ensures { result ≡ slots rows }
{
    row_slot(rows) + rows as usize
}

/// Where a word lies in the memory of a table of this many rows.
#[inline(always)]
pub fn slot(rows: u32, word: Name) -> usize
    requires sized { IsSized SEATS CELLS rows }
    requires within { IsWithin SEATS CELLS rows word }
    ensures value { result ≡ slot rows word }
    ensures below { result < slots rows }
    ensures distinct { (other : Name) → IsWithin SEATS CELLS rows other →
        slot rows other ≡ result → other ≡ word }
    ensures alone { is_rowless word ≡ true → (other : Name) → IsWithin SEATS CELLS rows other →
        other ≢ word →
        (result + WORDS_A_LINE ≤ slot rows other) ⊎ (slot rows other + WORDS_A_LINE ≤ result) }
{
    slotted(rows, word)
}

// `slot` without the clauses that follow from where the word lies: each is one goal there, and
// would be one for each word here.
#[inline(always)]
fn slotted(rows: u32, word: Name) -> usize
    requires sized { IsSized SEATS CELLS rows }
    requires within { IsWithin SEATS CELLS rows word }
    ensures { result ≡ slot rows word }
{
    match word {
        Name::State(row) => row_slot(rows) + row as usize,
        Name::Count(row) => row_slot(row),
        Name::Least(row) => row_slot(row) + 1,
        Name::Next(row) => row_slot(row) + 2,
        Name::First(row) => row_slot(row) + 3,
        Name::Pend(row, seat) => row_slot(row) + OWN_WORDS + seat as usize,
        Name::Key(row, cell) => cell_slot(row, cell),
        Name::Value(row, cell) => cell_slot(row, cell) + 1,
        Name::Version(row, cell) => cell_slot(row, cell) + 2,
        Name::After(row, cell) => cell_slot(row, cell) + 3,
        Name::Clock
        | Name::Epoch
        | Name::Head
        | Name::Turn
        | Name::Pass(_)
        | Name::Scan(_)
        | Name::Pin(_) => LEFT_OUT + Layout::<SEATS, CELLS>::place(rows, word) * WORDS_A_LINE,
    }
}
