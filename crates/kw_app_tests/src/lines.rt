//! Inputs that are cut short, and lines that are outside the grammar.
use crate::runs::{NO_FAULTS, SMALL_REPLAY, expect_end, ran};
use kw_app::outcome::Status;
use std::test::Fail;

const INPUT: &[u8] = b"put 1 5\nput 2 3\nput 3 9\nleast 1 3\ngreatest 1 3\ncount 2 9\n";

/// The replies to its lines.
const REPLIES: &[u8] = b"ok\nok\nok\n3\n9\n2\n";

// At a line's end, with its line feed or without, the lines so far are answered; in a line's midst
// that line is bad.
#[test]
fn an_input_that_is_cut_short_ends_in_a_whole_line_or_a_bad_one(
    rt: HostRuntime,
) -> Result<(), Fail> {
    for length in 0..58_usize {
        let (status, line, count) = match length {
            0 => (Status::Done, 0, 0),
            1..=6 => (Status::BadInput, 1, 0),
            7 | 8 => (Status::Done, 0, 3),
            9..=14 => (Status::BadInput, 2, 0),
            15 | 16 => (Status::Done, 0, 6),
            17..=22 => (Status::BadInput, 3, 0),
            23 | 24 => (Status::Done, 0, 9),
            25..=32 => (Status::BadInput, 4, 0),
            33 | 34 => (Status::Done, 0, 11),
            35..=45 => (Status::BadInput, 5, 0),
            46 | 47 => (Status::Done, 0, 13),
            48..=55 => (Status::BadInput, 6, 0),
            _ => (Status::Done, 0, 15),
        };
        let input = INPUT.get(..length).unwrap_or(b"too short");
        let ended = ran(&rt, rt.alloc(), &SMALL_REPLAY, input, NO_FAULTS)?;
        let text = REPLIES.get(..count).unwrap_or(b"too short");
        expect_end(&rt, &ended, status, line, text, length);
    }
    Ok(())
}

#[test]
fn a_line_outside_the_grammar_is_named(rt: HostRuntime) -> Result<(), Fail> {
    let table: [(&[u8], u32); 6] = [
        (b"put 1 5\n\nput 2 3\n", 2),
        (b"put 1 5 \n", 1),
        (b"put 01 1\n", 1),
        (b"put 1 +1\n", 1),
        (b"get 4294967296\n", 1),
        (b"put 1 9223372036854775808\n", 1),
    ];
    for (case, (input, line)) in table.into_iter().enumerate() {
        let ended = ran(&rt, rt.alloc(), &SMALL_REPLAY, input, NO_FAULTS)?;
        expect_end(&rt, &ended, Status::BadInput, line, b"", case);
    }
    Ok(())
}
