//! Why lines were not read.
//!
//! The one error of each reader of lines: that of an input here, and in the crates above those of
//! scripts, of records and of metric points. Which line is bad is said by the reader's own clause.
use kw_model::memory::Memory;
use std::alloc::{AllocError, AllocFailed};
use thiserror::Error;

/// Why a text was not read, or a text that was read has no output.
#[derive(Clone, Copy, Debug, PartialEq, Eq, Error)]
pub enum LineError {
    /// The first bad line, counted from 1: the lines up to it begin no text of the reader's. 0,
    /// which is no line, where the reader says so, for a text that is bad as a whole.
    #[error("bad line {line}")]
    Bad { line: u32 },
    /// Memory was wanted and not found.
    #[error("out of memory")]
    Memory,
}

impl From<Memory> for LineError {
    ghost use Rattle.std.specs.Prelude.{◌≡◌};
    ghost use Rattle.kw_line.specs.declared.error.LineError.TheVariants as error;

    ghost from_gives = { λ _ e. e ≡ error.Memory };

    fn from(_memory: Memory) -> LineError {
        LineError::Memory
    }
}

impl From<AllocError> for LineError {
    ghost use Rattle.std.specs.Prelude.{◌≡◌};
    ghost use Rattle.kw_line.specs.declared.error.LineError.TheVariants as error;

    ghost from_gives = { λ _ e. e ≡ error.Memory };

    fn from(_error: AllocError) -> LineError {
        LineError::Memory
    }
}

impl<T: Drop> From<AllocFailed<T>> for LineError {
    ghost use Rattle.std.specs.Prelude.{◌≡◌};
    ghost use Rattle.kw_line.specs.declared.error.LineError.TheVariants as error;

    ghost from_gives = { λ _ e. e ≡ error.Memory };

    fn from(_failed: AllocFailed<T>) -> LineError {
        LineError::Memory
    }
}
