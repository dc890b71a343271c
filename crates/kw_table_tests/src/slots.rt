//! Where the words of a table lie, worked by hand, and rows that are loaded before they are asked.
//!
//! Behind 6 words that are left out, 4 words of the whole map and 3 for each seat have a line of 8
//! words each; then the rows begin. A row has 4 words and one for each seat in its head, in whole
//! lines, and 4 for each cell. The states follow behind the last row. With 16 seats and 128 cells
//! the first row begins at 6 + 52 * 8 = 422, its cells 24 words behind that, and a row has 536.
ghost use Rattle.kw_words.specs.Layout.{IsSized, IsWithin};
ghost use Rattle.kw_words.specs.declared.sizes.TheConstants.{SEATS, CELLS};

use kw_table::slot::{WORDS_A_LINE, slot, slots};
use kw_table::{SMALLEST_COLD, Shared};
use kw_words::layout::Name;
use kw_words::sizes::{CELL_COUNT, CELLS, SEAT_COUNT, SEATS};
use std::test::Fail;

// Where the first row begins.
const FIRST: usize = 6 + (4 + 3 * SEATS) * 8;

// The words of a row's head, in whole lines.
const HEAD: usize = (4 + SEATS + 7) / 8 * 8;

// The words of a row.
const ROW: usize = HEAD + 4 * CELLS;

// Where a word lies, without the clauses of `slot`, which the tests need not know.
fn place(rows: u32, word: Name) -> usize
    requires sized { IsSized SEATS CELLS rows }
    requires within { IsWithin SEATS CELLS rows word }
{
    slot(rows, word)
}

#[test]
fn rows_of_the_product_have_whole_lines(rt: HostRuntime) {
    let first = place(2, Name::Count(0));
    let cells = place(2, Name::Key(0, 0));
    let next = place(2, Name::Count(1));
    assert_eq!(rt;
        ([first, cells, next], [FIRST, HEAD, ROW]),
        ([422, 446, 958], [422, 24, 536])
    );
}

#[test]
fn pass_words_have_a_line_each(rt: HostRuntime) {
    let one = place(2, Name::Pass(0));
    let other = place(2, Name::Pass(1));
    assert_eq!(rt; (one, other, other.abs_diff(one)), (38, 46, WORDS_A_LINE));
}

#[test]
fn words_of_no_row_lie_before_the_rows(rt: HostRuntime) {
    let found = [
        place(2, Name::Clock),
        place(2, Name::Turn),
        place(2, Name::Scan(0)),
        place(2, Name::Pin(SEAT_COUNT - 1)),
    ];
    let scans = 6 + (4 + SEATS) * 8;
    assert_eq!(rt; found, [6, 30, scans, FIRST - 8]);
}

#[test]
fn a_row_has_its_head_and_then_its_cells(rt: HostRuntime) {
    let head = [
        place(2, Name::Count(0)),
        place(2, Name::Least(0)),
        place(2, Name::Next(0)),
        place(2, Name::First(0)),
        place(2, Name::Pend(0, 0)),
        place(2, Name::Pend(0, SEAT_COUNT - 1)),
    ];
    let cells = [
        place(2, Name::Key(0, 0)),
        place(2, Name::Value(0, 0)),
        place(2, Name::Version(0, 0)),
        place(2, Name::After(0, 0)),
        place(2, Name::After(0, CELL_COUNT - 1)),
        place(2, Name::Count(1)),
    ];
    let entries = FIRST + 4;
    let of_head = [
        FIRST,
        FIRST + 1,
        FIRST + 2,
        FIRST + 3,
        entries,
        entries + SEATS - 1,
    ];
    let first = FIRST + HEAD;
    let next = FIRST + ROW;
    let of_cells = [first, first + 1, first + 2, first + 3, next - 1, next];
    assert_eq!(rt; (head, cells), (of_head, of_cells));
}

// The lines begin at 6 and each 8 words on.
#[test]
fn rows_and_their_cells_begin_at_a_line(rt: HostRuntime) {
    let rows = [place(3, Name::Count(0)), place(3, Name::Count(2))];
    let cells = [
        place(3, Name::Key(2, 0)),
        place(3, Name::Key(2, CELL_COUNT - 2)),
    ];
    let states = place(3, Name::State(0));
    let of_rows = [FIRST, FIRST + 2 * ROW];
    let of_cells = [of_rows[1] + HEAD, FIRST + 3 * ROW - 8];
    assert_eq!(rt; (rows, cells, states), (of_rows, of_cells, FIRST + 3 * ROW));
    let in_a_line = [
        rows[1] % WORDS_A_LINE,
        cells[1] % WORDS_A_LINE,
        states % WORDS_A_LINE,
    ];
    assert_eq!(rt; in_a_line, [6, 6, 6]);
}

#[test]
fn states_lie_side_by_side_behind_the_rows(rt: HostRuntime) {
    let one = [place(1, Name::State(0)), slots(1)];
    let two = [place(2, Name::State(0)), place(2, Name::State(1)), slots(2)];
    let three = [place(3, Name::State(0)), place(3, Name::State(2)), slots(3)];
    let behind_one = FIRST + ROW;
    let behind_two = FIRST + 2 * ROW;
    let behind_three = FIRST + 3 * ROW;
    assert_eq!(rt;
        (one, two, three),
        (
            [behind_one, behind_one + 1],
            [behind_two, behind_two + 1, behind_two + 2],
            [behind_three, behind_three + 2, behind_three + 3]
        )
    );
}

// Of a table whose rows are loaded before a walk, and of rows that it lacks.
#[test]
fn any_row_may_be_asked_to_be_loaded(rt: HostRuntime) -> Result<(), Fail> {
    let (shared, _passes) = Shared::open(rt.alloc(), SMALLEST_COLD, 1, 1, 1)?;
    for row in [0, SMALLEST_COLD - 1, SMALLEST_COLD, u32::MAX] {
        shared.warm(row);
        shared.warm_whole(row);
    }
    assert_eq!(rt; shared.rows(), SMALLEST_COLD);
    Ok(())
}
