//! An input read, and its answers printed, by threads beside each other.
//!
//! Each thread takes some of the lines, or of the answers, that stand behind each other; what they
//! give is put together in order. So what comes out is what one thread would have made: how many
//! there are is for speed alone.
ghost use Rattle.std.specs.Prelude.{◌≡◌, ◌<◌, ◌≤◌, length, All, IsOk, IfOk, OnOk, vec_len};
ghost use Rattle.std.specs.List.{flat_map};
ghost use Rattle.kw_line.specs.Answered.{text};
ghost use Rattle.kw_line.specs.Line.{AreLinesOf, IsFirstBadLine, IfBad};
ghost use Rattle.kw_line.specs.declared.parse.TheConstants.{MOST_BYTES};
ghost use Rattle.kw_beside.specs.Texts.{text_in};

use crate::joined::joined;
use crate::pieces::pieces;
use crate::together::together;
use kw_line::answer::Answer;
use kw_line::error::LineError;
use kw_line::item::Item;
use kw_line::parse::parse;
use kw_line::print::print;
use kw_model::memory::Memory;
use std::alloc::Global;
use std::thread;
use std::thread::Threads;

/// How many answers a thread prints at least: fewer are printed sooner than a thread starts.
const SMALLEST_PART: usize = 4_096;

/// The items of an input's lines, one for each line, read by about so many threads, at least 1. A
/// short input is read by fewer.
pub fn parse_beside<R: Threads + Sync>(
    rt: &R,
    alloc: Global,
    bytes: &[u8],
    threads: u32,
) -> Result<Vec<Item>, LineError>
    requires some { 0 < threads }
    requires short { length bytes.now ≤ MOST_BYTES }
    ensures items { IfOk result (λ items. AreLinesOf bytes.now items.items) }
    ensures few { IfOk result (λ items. vec_len items ≤ length bytes.now) }
    ensures bad { IfBad (IsFirstBadLine bytes.now) result }
{
    let Ok(pieces) = pieces(alloc, bytes, threads) else {
        return Err(LineError::Memory);
    };
    let parts = thread::map_vec(
        rt,
        pieces,
        &|piece: &[u8]|
            requires { length piece.now ≤ MOST_BYTES }
        { parse(alloc, piece) },
    )?;
    together(alloc, parts)
}

/// The text of these answers, a line for each, made by at most so many threads, at least 1.
pub fn print_beside<R: Threads + Sync>(
    rt: &R,
    alloc: Global,
    answers: &[Answer],
    threads: u32,
) -> Result<Vec<u8>, Memory>
    requires { 0 < threads }
    ensures { IfOk result (λ bytes. bytes.items ≡ text answers.now) }
{
    let size = answers.len().div_ceil(threads as usize).max(SMALLEST_PART);
    let parts = thread::map_chunks(
        rt,
        alloc,
        answers,
        size,
        &|_start: usize, chunk: &[Answer]| { print(alloc, chunk) },
    )?;
    in_order(alloc, parts)
}

/// The texts of some parts, one after the other. That of the first part is not copied.
fn in_order(alloc: Global, parts: Vec<Result<Vec<u8>, Memory>>) -> Result<Vec<u8>, Memory>
    ensures made { OnOk result (All IsOk parts.items) }
    ensures joined { IfOk result (λ text. text.items ≡ flat_map text_in parts.items) }
{
    let mut all = Vec::new(alloc);
    for part in parts {
        let text = part?;
        all = joined(all, text)?;
    }
    Ok(all)
}

#[cfg(test)]
mod tests {
    use super::*;
    use kw_line::item::Form;
    use kw_line::parse::MOST_BYTES;
    use kw_model::call::Call;
    use std::alloc::AllocError;
    use std::test::Fail;

    /// This line, so many times.
    fn repeated(alloc: Global, line: &[u8], times: usize) -> Result<Vec<u8>, AllocError> {
        let mut text = Vec::new(alloc);
        for _ in 0..times {
            text.extend_from_slice(line)?;
        }
        Ok(text)
    }

    // 180 017 bytes, so three pieces: of 65 538 bytes twice, as far as the end of the line in which
    // byte 65 536 stands, and what is left
    #[test]
    fn reads_by_three_threads_as_by_one(rt: HostRuntime) -> Result<(), Fail> {
        let mut text = repeated(rt.alloc(), b"get 7\n", 15_000)?;
        text.append(&mut repeated(rt.alloc(), b"del 8\n", 15_000)?)?;
        text.extend_from_slice(b"put 4294967295 1\n")?;
        assert!(rt; text.len() == 180_017);
        let items = parse_beside(&rt, rt.alloc(), &text, 3)?;
        assert_eq!(rt; items.len(), 30_001);
        assert_eq!(rt;
            [items.get(14_999), items.get(15_000), items.last()],
            [
                Some(&Item::Call(Call::Get(7), Form::Get)),
                Some(&Item::Call(Call::Del(8), Form::Del)),
                Some(&Item::Call(Call::Put(4294967295, 1), Form::Put)),
            ]
        );
        let alone = parse(rt.alloc(), &text)?;
        assert_eq!(rt; items.as_slice(), alone.as_slice());
        Ok(())
    }

    // in the third of three pieces, and then also one in the second: of 300 011 bytes a piece has a
    // third, as far as the end of a line
    #[test]
    fn names_the_first_bad_line_of_the_whole(rt: HostRuntime) -> Result<(), Fail> {
        let mut late = repeated(rt.alloc(), b"get 7\n", 30_000)?;
        late.extend_from_slice(b"get\nget 7\n")?;
        assert!(rt; late.len() <= MOST_BYTES);
        let third = parse_beside(&rt, rt.alloc(), &late, 3);
        let mut both = repeated(rt.alloc(), b"get 7\n", 20_000)?;
        both.extend_from_slice(b"\n")?;
        both.append(&mut late)?;
        assert!(rt; both.len() == 300_011);
        let second = parse_beside(&rt, rt.alloc(), &both, 3);
        assert_eq!(rt;
            [third, second],
            [
                Err(LineError::Bad { line: 30_001 }),
                Err(LineError::Bad { line: 20_001 }),
            ]
        );
        Ok(())
    }

    // 10 numbers of one digit, 90 of two, 900 of three and 9 000 of four, and 10 000 line feeds, by
    // parts of 4 096 numbers, twice, and 1 808
    #[test]
    fn prints_by_three_threads_as_by_one(rt: HostRuntime) -> Result<(), Fail> {
        let mut answers = Vec::new(rt.alloc());
        for number in 0..10_000u32 {
            answers.push(Answer::Number(u128::from(number)))?;
        }
        let text = print_beside(&rt, rt.alloc(), &answers, 3)?;
        let starts = text.starts_with(b"0\n1\n2\n");
        let ends = text.ends_with(b"\n9998\n9999\n");
        assert_eq!(rt; (text.len(), starts, ends), (48_890, true, true));
        let alone = print(rt.alloc(), &answers)?;
        assert_eq!(rt; text.as_slice(), alone.as_slice());
        Ok(())
    }
}
