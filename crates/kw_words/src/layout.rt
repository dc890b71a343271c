//! Where each word of the table lies.
//!
//! First come four words of the whole map, then three words for each seat, then the rows one after
//! the other. A row has five words of its own, one for each seat, and four for each cell. `Layout`
//! is generic in the numbers of seats and of cells, and its calls take the number of rows. That
//! different words have different places is a clause of `place`: all that is proved of the words
//! above rests on it.
ghost use Rattle.std.specs.Prelude.{◌≡◌, ◌<◌, ◌+◌};
ghost use Rattle.kw_words.specs.Layout.{IsSized, IsWithin, place_of, words_of, row_start, cell_start};
ghost use Rattle.kw_words.specs.declared.layout.Name.{Name};

/// A word of the table. Seats, rows and cells are counted from 0.
#[derive(Clone, Copy, Debug, PartialEq, Eq)]
pub enum Name {
    /// The next version to be drawn.
    Clock,
    /// The next number of a retired row.
    Epoch,
    /// The link to the first row of the list.
    Head,
    /// Not used, and always 0.
    Turn,
    /// The epoch that a seat has announced.
    Pass(u32),
    /// The scan of a seat.
    Scan(u32),
    /// The pinned version of a seat.
    Pin(u32),
    /// The state of a row.
    State(u32),
    /// How many cells of a row were asked for, and whether it is frozen.
    Count(u32),
    /// The least key that a row may hold.
    Least(u32),
    /// The link to the row after this one.
    Next(u32),
    /// The link to the first listed cell of a row.
    First(u32),
    /// What a seat has announced in a row: the row, then the seat.
    Pend(u32, u32),
    /// The key of a cell: the row, then the cell.
    Key(u32, u32),
    /// The value of a cell: the row, then the cell.
    Value(u32, u32),
    /// The version of a cell: the row, then the cell.
    Version(u32, u32),
    /// The link to the listed cell after this one: the row, then the cell.
    After(u32, u32),
}

/// The layout for this many seats, from 1 to 16, and this many cells in each row, from 1 to 128.
pub struct Layout<const SEATS: usize, const CELLS: usize>;

impl<const SEATS: usize, const CELLS: usize> Layout<SEATS, CELLS> {
    /// How many words a table of this many rows has, from 1 to 65,536.
    pub fn words(rows: u32) -> usize
        requires { IsSized SEATS CELLS rows }
        ensures { result ≡ words_of SEATS CELLS rows }
    {
        4 + 3 * SEATS + rows as usize * (5 + SEATS + 4 * CELLS)
    }

    /// The place of a word in a table of this many rows, counted from 0.
    pub fn place(rows: u32, name: Name) -> usize
        requires sized { IsSized SEATS CELLS rows }
        requires within { IsWithin SEATS CELLS rows name }
        ensures value { result ≡ place_of SEATS CELLS name }
        ensures below { result < words_of SEATS CELLS rows }
        ensures distinct { (other : Name) → IsWithin SEATS CELLS rows other →
            place_of SEATS CELLS other ≡ result → other ≡ name }
    {
        Self::placed(rows, name)
    }

    // `place` without the clause on other words, which is one goal there and would be one for each
    // word here.
    fn placed(rows: u32, name: Name) -> usize
        requires sized { IsSized SEATS CELLS rows }
        requires within { IsWithin SEATS CELLS rows name }
        ensures value { result ≡ place_of SEATS CELLS name }
        ensures below { result < words_of SEATS CELLS rows }
    {
        match name {
            Name::Clock => 0,
            Name::Epoch => 1,
            Name::Head => 2,
            Name::Turn => 3,
            Name::Pass(seat) => 4 + seat as usize,
            Name::Scan(seat) => 4 + SEATS + seat as usize,
            Name::Pin(seat) => 4 + 2 * SEATS + seat as usize,
            Name::State(row) => Self::row(row),
            Name::Count(row) => Self::row(row) + 1,
            Name::Least(row) => Self::row(row) + 2,
            Name::Next(row) => Self::row(row) + 3,
            Name::First(row) => Self::row(row) + 4,
            Name::Pend(row, seat) => Self::row(row) + 5 + seat as usize,
            Name::Key(row, cell) => Self::cell(row, cell),
            Name::Value(row, cell) => Self::cell(row, cell) + 1,
            Name::Version(row, cell) => Self::cell(row, cell) + 2,
            Name::After(row, cell) => Self::cell(row, cell) + 3,
        }
    }

    // Where a row begins.
    fn row(row: u32) -> usize
        requires { IsSized SEATS CELLS (row + 1) }
        ensures { result ≡ row_start SEATS CELLS row }
    {
        4 + 3 * SEATS + row as usize * (5 + SEATS + 4 * CELLS)
    }

    // Where a cell of a row begins.
    fn cell(row: u32, cell: u32) -> usize
        requires sized { IsSized SEATS CELLS (row + 1) }
        requires within { cell < CELLS }
        ensures { result ≡ cell_start SEATS CELLS row cell }
    {
        Self::row(row) + 5 + SEATS + 4 * cell as usize
    }
}
