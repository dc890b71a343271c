//! What a table says of a bucket, and its text.
//!
//! A [`Summary`] is plain data, whose numbers clauses name; the printed words and numbers of a
//! table are written here, at the end of a `Vec` that grows.
ghost use Rattle.std.specs.Prelude.{◌≡◌, ◌++◌, ◌∷◌, [], decimal, OnOk};
ghost use Rattle.kw_rollup.specs.Texts.{end_text, summary_text};

use kw_line::number::push_number;
use kw_line::words::{LINE_FEED, SPACE};
use kw_model::memory::Memory;

/// A bucket that has points: its series and first minute, and the count, sum, least and greatest of
/// their values.
#[derive(Clone, Copy, Debug, PartialEq, Eq)]
pub struct Summary {
    pub series: u32,
    pub start: u32,
    pub count: u32,
    pub sum: u128,
    pub least: u64,
    pub greatest: u64,
}

/// Adds the line of a bucket at the end. After an `Err` it may be there in part.
pub fn push_summary(out: &mut Vec<u8>, summary: &Summary) -> Result<(), Memory>
    ensures { OnOk result (out.new.items ≡ out.old.items ++ summary_text summary.now ++ LINE_FEED ∷ []) }
{
    push_number(out, u128::from(summary.series))?;
    push_next(out, u128::from(summary.start))?;
    push_named(out, b"count", u128::from(summary.count))?;
    push_named(out, b"sum", summary.sum)?;
    push_named(out, b"least", u128::from(summary.least))?;
    push_named(out, b"greatest", u128::from(summary.greatest))?;
    Ok(out.push(LINE_FEED)?)
}

/// Adds the last line of a table at the end. After an `Err` it may be there in part.
pub fn push_end(out: &mut Vec<u8>, refused: u64) -> Result<(), Memory>
    ensures { OnOk result (out.new.items ≡ out.old.items ++ end_text refused ++ LINE_FEED ∷ []) }
{
    out.extend_from_slice(b"end")?;
    push_next(out, u128::from(refused))?;
    Ok(out.push(LINE_FEED)?)
}

/// Adds a space, a word, a space and a number at the end. After an `Err` they may be there in part.
fn push_named(out: &mut Vec<u8>, name: &[u8], number: u128) -> Result<(), Memory>
    ensures { OnOk result (out.new.items ≡ out.old.items ++ SPACE ∷ name.now ++ SPACE ∷ decimal number) }
{
    out.push(SPACE)?;
    out.extend_from_slice(name)?;
    push_next(out, number)
}

/// Adds a space and a number at the end. After an `Err` the space may be there alone.
fn push_next(out: &mut Vec<u8>, number: u128) -> Result<(), Memory>
    ensures { OnOk result (out.new.items ≡ out.old.items ++ SPACE ∷ decimal number) }
{
    out.push(SPACE)?;
    push_number(out, number)
}
