//! The input of a command: read whole, or why the command has no text.
//!
//! What the reading of the source tells and what the readers of lines tell becomes one
//! [`InputError`], so that `run` need not know which command it was.
ghost use Rattle.std.specs.Prelude.{◌≡◌, ◌≤◌, ◌<◌, ℕ, length, IfOk, IfSome, IsErrOf};
ghost use Rattle.kw_model.specs.Counts.{CountRose};

use kw_io::{ReadError, Source, read_all};
use kw_line::error::LineError;
use kw_line::parse::MOST_BYTES;
use kw_model::memory::Memory;
use std::alloc::Global;

/// How many bytes an input may have, as a limit of reading.
const READ_LIMIT: u32 = MOST_BYTES as u32;

/// Why a command has no text.
#[derive(Clone, Copy, Debug, PartialEq, Eq)]
pub enum InputError {
    /// A read failed.
    Fault,
    /// The first line, counted from 1, that is not in the command's grammar; or 0, for an input
    /// that is too long and for a script whose record would have too many calls.
    Bad { line: u32 },
    /// Memory was wanted and not found.
    Memory,
}

impl From<LineError> for InputError {
    ghost use Rattle.std.specs.Prelude.{◌≡◌};
    ghost use Rattle.kw_app.specs.Inputs.{of_lines};

    ghost from_gives = { λ given made. made ≡ of_lines given };

    fn from(error: LineError) -> InputError {
        match error {
            LineError::Bad { line } => InputError::Bad { line },
            LineError::Memory => InputError::Memory,
        }
    }
}

impl From<Memory> for InputError {
    ghost use Rattle.std.specs.Prelude.{◌≡◌};
    ghost use Rattle.kw_app.specs.declared.input.InputError.TheVariants as error;

    ghost from_gives = { λ _ made. made ≡ error.Memory };

    fn from(_memory: Memory) -> InputError {
        InputError::Memory
    }
}

/// Reads a source to its end: all bytes that were left, of which there are at most `MOST_BYTES`.
///
/// `Fault` comes only where a read failed, and `Bad`, with line 0, only where more bytes were left.
pub fn read_input<S: Source>(alloc: Global, source: &mut S) -> Result<Vec<u8>, InputError>
    ensures whole { IfOk result (λ bytes. IfSome (S.left source.old) (λ all. bytes.items ≡ all)) }
    ensures short { IfOk result (λ bytes. length bytes.items ≤ MOST_BYTES) }
    ensures fault { IsErrOf result InputError.Fault →
        CountRose (S.faults source.old) (S.faults source.new) }
    ensures long { (line : ℕ) → IsErrOf result (InputError.Bad line) → (line ≡ 0)
        × IfSome (S.left source.old) (λ all. MOST_BYTES < length all) }
    ensures never_falls { S.faults source.old ≤ S.faults source.new }
{
    match read_all(alloc, source, READ_LIMIT) {
        Ok(bytes) => Ok(bytes),
        Err(ReadError::Fault) => Err(InputError::Fault),
        Err(ReadError::Long) => Err(InputError::Bad { line: 0 }),
        Err(ReadError::Memory) => Err(InputError::Memory),
    }
}
