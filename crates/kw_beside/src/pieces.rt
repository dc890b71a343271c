//! An input cut into pieces of whole lines, for readers beside each other.
ghost use Rattle.std.specs.Prelude.{◌≡◌, ◌<◌, ◌≤◌, ◌+◌, ◌-◌, ◌*◌, ◌++◌, length, All, IfOk, vec_len};
ghost use Rattle.std.specs.List.{flat_map};
ghost use Rattle.kw_line.specs.Cut.{lines};

use kw_line::words::LINE_FEED;
use kw_model::memory::Memory;
use std::alloc::Global;

/// How many bytes a piece has at least, but for the last one: a thread takes longer to start than a
/// shorter piece takes to read.
pub const SMALLEST_PIECE: usize = 65_536;

/// The bytes, cut into pieces of whole lines: at most so many, of about the same length, and fewer
/// where they would be short. Their lines, one piece after the other, are those of the bytes. None
/// of the bytes are copied, and each is looked at once at most.
pub fn pieces<'a>(alloc: Global, bytes: &'a [u8], count: u32) -> Result<Vec<&'a [u8]>, Memory>
    requires { 0 < count }
    ensures lines { IfOk result (λ pieces. lines bytes.entry.now
        ≡ flat_map (λ piece. lines piece.now) pieces.items) }
    ensures short { IfOk result (λ pieces. All (λ piece. length piece.now
        ≤ length bytes.entry.now) pieces.items) }
    ensures some { IfOk result (λ pieces. 0 < vec_len pieces) }
    ensures few { IfOk result (λ pieces. vec_len pieces ≤ count) }
    ensures long { IfOk result (λ pieces. (vec_len pieces - 1) * SMALLEST_PIECE
        ≤ length bytes.entry.now) }
{
    let size = bytes.len().div_ceil(count as usize).max(SMALLEST_PIECE);
    let mut pieces = Vec::new(alloc);
    let mut rest = bytes;
    while size < rest.len() {
        let (piece, behind) = cut_behind(rest, size);
        pieces.push(piece)?;
        rest = behind;
    }
    pieces.push(rest)?;
    Ok(pieces)
}

/// So many of the bytes and those up to the end of the line in which they end, and what stands
/// behind that line.
fn cut_behind(bytes: &[u8], least: usize) -> (&[u8], &[u8])
    requires some { 0 < least }
    requires within { least ≤ length bytes.now }
    ensures lines { lines bytes.now ≡ lines result.0.now ++ lines result.1.now }
    ensures short { length result.0.now ≤ length bytes.now }
    ensures long { least + length result.1.now ≤ length bytes.now }
{
    let feed = bytes[least - 1..]
        .iter()
        .position(|byte| *byte == LINE_FEED);
    let end = feed.map_or(bytes.len(), |at| least + at);
    (&bytes[..end], &bytes[end..])
}

#[cfg(test)]
mod tests {
    use super::*;
    use std::test::Fail;

    #[test]
    fn a_piece_ends_where_its_last_line_does(rt: HostRuntime) {
        // the line feeds stand at places 5, 12 and 18
        let bytes = b"get 1\nget 22\nget 3\n";
        for (least, end) in [(1, 6), (6, 6), (7, 13), (13, 13), (14, 19), (19, 19)] {
            assert!(rt; 0 < least && least <= bytes.len());
            let (piece, behind) = cut_behind(bytes, least);
            assert_eq!(rt;
                (piece, behind),
                (&bytes[..end], &bytes[end..]),
                "at {least}"
            );
        }
    }

    #[test]
    fn the_last_line_needs_no_line_feed(rt: HostRuntime) {
        let (piece, behind) = cut_behind(b"get 1\nget 2", 7);
        assert_eq!(rt;
            (piece, behind),
            (b"get 1\nget 2".as_slice(), b"".as_slice())
        );
    }

    // the lengths of the pieces of so many lines of five bytes
    fn lengths(alloc: Global, lines: usize, count: u32) -> Result<Vec<usize>, Fail>
        requires { 0 < count }
    {
        let mut bytes = Vec::new(alloc);
        for _ in 0..lines {
            bytes.extend_from_slice(b"wait\n")?;
        }
        let mut lengths = Vec::new(alloc);
        for piece in pieces(alloc, &bytes, count)? {
            lengths.push(piece.len())?;
        }
        Ok(lengths)
    }

    #[test]
    fn pieces_are_whole_lines_and_not_short(rt: HostRuntime) -> Result<(), Fail> {
        // a quarter would be shorter than the smallest piece, whose last line is the 13,108th
        let four = lengths(rt.alloc(), 30_000, 4)?;
        let two = lengths(rt.alloc(), 30_000, 2)?;
        let one = lengths(rt.alloc(), 30_000, 1)?;
        let empty = lengths(rt.alloc(), 0, 4)?;
        assert_eq!(rt;
            [
                four.as_slice(),
                two.as_slice(),
                one.as_slice(),
                empty.as_slice(),
            ],
            [
                [65_540, 65_540, 18_920].as_slice(),
                [75_000, 75_000].as_slice(),
                [150_000].as_slice(),
                [0].as_slice(),
            ]
        );
        Ok(())
    }
}
