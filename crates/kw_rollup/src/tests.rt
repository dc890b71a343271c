//! Rows worked by hand: the tables of inputs of which no update is refused, and which lines are
//! bad.
use crate::item::{MINUTES, RollItem};
use crate::parse::roll_parse;
use crate::rollup::Rollup;
use kw_line::error::LineError;
use kw_line::parse::MOST_BYTES;
use kw_model::pair_list::PairList;
use std::alloc::Global;
use std::process::Abort;
use std::test::Fail;

/// Expects this text of the tables of an input, one after the other, where buckets have this width.
fn expect_tables(
    rt: &impl Abort,
    alloc: Global,
    width: u32,
    input: &[u8],
    want: &[u8],
) -> Result<(), Fail> {
    assert!(rt; width > 0 && width <= MINUTES);
    assert!(rt; input.len() <= MOST_BYTES);
    let mut rollup = Rollup::from_pairs(alloc, width, &PairList::new(alloc))?;
    let mut out = Vec::new(alloc);
    for item in roll_parse(alloc, input)? {
        match item {
            RollItem::Put(key, value) => rollup.put(key, value)?,
            RollItem::Del(key) => rollup.del(key),
            RollItem::Table => out.extend_from_slice(&rollup.print(0)?)?,
        }
    }
    assert_eq!(rt; out.as_slice(), want, "of buckets of {width} minutes");
    Ok(())
}

#[test]
fn prints_the_table_of_the_points_above_it(rt: HostRuntime) -> Result<(), Fail> {
    let rows: [(u32, &[u8], &[u8]); 9] = [
        (
            10,
            b"put 1 0 5\nput 1 9 7\nput 1 10 1\nput 2 3 4\ntable\ndel 1 9\ntable\n",
            b"1 0 count 2 sum 12 least 5 greatest 7\n1 10 count 1 sum 1 least 1 greatest 1\n\
              2 0 count 1 sum 4 least 4 greatest 4\nend 0\n1 0 count 1 sum 5 least 5 greatest 5\n\
              1 10 count 1 sum 1 least 1 greatest 1\n2 0 count 1 sum 4 least 4 greatest 4\nend 0\n",
        ),
        (60, b"table", b"end 0\n"),
        (60, b"", b""),
        // the minute before a bucket's first, and a value in place of another
        (
            60,
            b"put 0 59 1\nput 0 60 2\nput 0 59 3\ntable",
            b"0 0 count 1 sum 3 least 3 greatest 3\n0 60 count 1 sum 2 least 2 greatest 2\nend 0\n",
        ),
        // 2 * (2^63 - 1)
        (
            60,
            b"put 0 1 9223372036854775807\nput 0 2 9223372036854775807\ntable",
            b"0 0 count 2 sum 18446744073709551614 least 9223372036854775807 greatest 9223372036854775807\nend 0\n",
        ),
        // the last bucket of a series is cut short: 17476 * 60 = 1048560
        (
            60,
            b"put 4095 1048575 1\ntable",
            b"4095 1048560 count 1 sum 1 least 1 greatest 1\nend 0\n",
        ),
        (
            60,
            b"del 7 7\ntable\nput 7 7 0\ntable\nput 7 7 5\n",
            b"end 0\n7 0 count 1 sum 0 least 0 greatest 0\nend 0\n",
        ),
        // a value stays least while another point has it
        (
            60,
            b"put 1 1 5\nput 1 2 5\ntable\ndel 1 1\ntable\nput 1 2 9\ntable\n",
            b"1 0 count 2 sum 10 least 5 greatest 5\nend 0\n1 0 count 1 sum 5 least 5 greatest 5\nend 0\n\
              1 0 count 1 sum 9 least 9 greatest 9\nend 0\n",
        ),
        (
            1_048_576,
            b"put 0 0 1\nput 0 1048575 2\nput 1 0 3\ntable",
            b"0 0 count 2 sum 3 least 1 greatest 2\n1 0 count 1 sum 3 least 3 greatest 3\nend 0\n",
        ),
    ];
    for (width, input, want) in rows {
        expect_tables(&rt, rt.alloc(), width, input, want)?;
    }
    Ok(())
}

// 1048576 + 5 and 1048576 + 12 are minutes 5 and 12 of series 1
#[test]
fn begins_with_pairs_and_says_how_many_were_refused(rt: HostRuntime) -> Result<(), Fail> {
    let mut pairs = PairList::new(rt.alloc());
    pairs.push(1_048_581, 3)?;
    pairs.push(1_048_588, 4)?;
    let rollup = Rollup::from_pairs(rt.alloc(), 10, &pairs)?;
    let text = rollup.print(18_446_744_073_709_551_615)?;
    assert_eq!(rt;
        text.as_slice(),
        b"1 0 count 1 sum 3 least 3 greatest 3\n1 10 count 1 sum 4 least 4 greatest 4\n\
          end 18446744073709551615\n"
            .as_slice()
    );
    Ok(())
}

/// Expects this text of the table of these points.
fn expect_table(rt: &impl Abort, rollup: &Rollup, want: &[u8]) -> Result<(), Fail> {
    assert_eq!(rt; rollup.print(0)?.as_slice(), want);
    Ok(())
}

// the values from 500 down to 201, of which the first 128 are listed: the least, 201, is in the
// tree, and the greatest, 500, in the list; then values of the list and of the tree go
#[test]
fn finds_the_ends_of_more_values_than_are_listed(rt: HostRuntime) -> Result<(), Fail> {
    let mut rollup = Rollup::from_pairs(rt.alloc(), MINUTES, &PairList::new(rt.alloc()))?;
    for minute in 0..300u32 {
        rollup.put(minute, 500 - u64::from(minute))?;
    }
    expect_table(
        &rt,
        &rollup,
        b"0 0 count 300 sum 105150 least 201 greatest 500\nend 0\n",
    )?;
    rollup.del(299);
    rollup.del(0);
    expect_table(
        &rt,
        &rollup,
        b"0 0 count 298 sum 104449 least 202 greatest 499\nend 0\n",
    )?;
    rollup.put(1, 7)?;
    expect_table(
        &rt,
        &rollup,
        b"0 0 count 298 sum 103957 least 7 greatest 498\nend 0\n",
    )?;
    for minute in 1..128u32 {
        rollup.put(minute, 400)?;
    }
    expect_table(
        &rt,
        &rollup,
        b"0 0 count 298 sum 99877 least 202 greatest 400\nend 0\n",
    )?;
    for minute in 128..299u32 {
        rollup.del(minute);
    }
    expect_table(
        &rt,
        &rollup,
        b"0 0 count 127 sum 50800 least 400 greatest 400\nend 0\n",
    )
}

#[test]
fn reads_each_item(rt: HostRuntime) -> Result<(), Fail> {
    let items = roll_parse(
        rt.alloc(),
        b"put 4095 1048575 9223372036854775807\ndel 0 0\ntable",
    )?;
    let want = [
        RollItem::Put(4_294_967_295, 9_223_372_036_854_775_807),
        RollItem::Del(0),
        RollItem::Table,
    ];
    assert_eq!(rt; items.as_slice(), want.as_slice());
    Ok(())
}

#[test]
fn names_the_first_bad_line(rt: HostRuntime) -> Result<(), Fail> {
    let rows: [(&[u8], u32); 16] = [
        (b"put 4096 0 1", 1),
        (b"table\nput 0 1048576 1\nput 4096 0 1", 2),
        (b"del 0 0\ntable\nput 0 0 9223372036854775808\n", 3),
        (b"del 1", 1),
        (b"del 1 1 1", 1),
        (b"table ", 1),
        (b"\n", 1),
        (b"table\n\ntable", 2),
        (b"wait", 1),
        (b"get 1 1", 1),
        (b"put 01 0 1", 1),
        (b"put +1 0 1", 1),
        (b"put 1 0", 1),
        (b"put 1  0 1", 1),
        (b"Table", 1),
        (b"put 1 0 1\r\n", 1),
    ];
    for (input, line) in rows {
        assert!(rt; input.len() <= MOST_BYTES);
        let read = roll_parse(rt.alloc(), input);
        assert_eq!(rt; read.err(), Some(LineError::Bad { line }), "at line {line}");
    }
    Ok(())
}
