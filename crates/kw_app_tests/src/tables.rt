//! Tables of metric points: what stands above a table counts, whatever the number of workers, and
//! an update that is refused changes none.
use crate::runs::{NO_FAULTS, expect_end, ran};
use kw_app::outcome::Status;
use kw_words::sizes::{BUILT_COUNT, CELL_COUNT};
use std::test::Fail;

const INPUT: &[u8] =
    b"put 1 0 5\nput 1 9 7\nput 1 10 1\nput 2 3 4\ntable\ndel 1 9\ntable\nput 9 9 9\n";

/// Its two tables, of buckets of ten minutes. The last update stands in none.
const TABLES: &[u8] =
    b"1 0 count 2 sum 12 least 5 greatest 7\n1 10 count 1 sum 1 least 1 greatest 1\n\
    2 0 count 1 sum 4 least 4 greatest 4\nend 0\n1 0 count 1 sum 5 least 5 greatest 5\n\
    1 10 count 1 sum 1 least 1 greatest 1\n2 0 count 1 sum 4 least 4 greatest 4\nend 0\n";

#[test]
fn the_tables_are_the_same_for_any_number_of_workers(rt: HostRuntime) -> Result<(), Fail> {
    for (case, workers) in ["1", "2", "3", "16"].into_iter().enumerate() {
        let words = [
            "rollup",
            "--bucket",
            "10",
            "--workers",
            workers,
            "--rows",
            "64",
        ];
        let ended = ran(&rt, rt.alloc(), &words, INPUT, NO_FAULTS)?;
        expect_end(&rt, &ended, Status::Done, 0, TABLES, case);
        assert!(rt; ended.outcome.front.is_some(), "in case {case}");
    }
    Ok(())
}

// Rising keys fill half of each row, but the last one, which is full before it would be split. So
// 64 rows take this many of them: there are 62 splits, and the next one needs two rows.
const MOST_KEYS: u32 = CELL_COUNT + 62 * BUILT_COUNT;

#[test]
fn an_update_that_is_refused_changes_no_table_and_is_counted(rt: HostRuntime) -> Result<(), Fail> {
    let mut input = String::new(rt.alloc());
    for minute in 1..=MOST_KEYS + 1 {
        write!(input, "put 0 {minute} 1\n")?;
    }
    input.push_str("table\nput 0 1 3\ntable\n")?;
    let words = ["rollup", "--bucket", "1048576", "--rows", "64"];
    let ended = ran(&rt, rt.alloc(), &words, input.as_bytes(), NO_FAULTS)?;
    let mut text = String::new(rt.alloc());
    for (sum, greatest) in [(MOST_KEYS, 1), (MOST_KEYS + 2, 3)] {
        write!(
            text,
            "0 0 count {MOST_KEYS} sum {sum} least 1 greatest {greatest}\nend 1\n"
        )?;
    }
    expect_end(&rt, &ended, Status::Refused, 0, text.as_bytes(), 0);
    Ok(())
}

#[test]
fn an_input_without_tables_prints_nothing(rt: HostRuntime) -> Result<(), Fail> {
    let table: [(&[u8], Status, u32, &[u8]); 5] = [
        (b"", Status::Done, 0, b""),
        (b"put 0 1 1\ndel 0 1\n", Status::Done, 0, b""),
        (b"table", Status::Done, 0, b"end 0\n"),
        (b"table\nput 4096 0 1\n", Status::BadInput, 2, b""),
        (b"put 0 1 1\nwait\ntable\n", Status::BadInput, 2, b""),
    ];
    let words = ["rollup", "--bucket", "60", "--rows", "64"];
    for (case, (input, status, line, text)) in table.into_iter().enumerate() {
        let ended = ran(&rt, rt.alloc(), &words, input, NO_FAULTS)?;
        expect_end(&rt, &ended, status, line, text, case);
    }
    Ok(())
}
