//! What a stream, or a function that goes through a whole stream, answers in place of success.
//!
//! A fault has no further cause: the count of the stream that had it is what tells that it
//! happened.
ghost use Rattle.std.specs.Prelude.{◌≡◌, Some, codes};

use std::alloc::AllocError;
use std::error::Error;
use std::fmt;

/// One read or one write failed. It moved no byte, and the stream counted it.
#[derive(Clone, Copy, Debug, PartialEq, Eq)]
pub struct Failed;

/// Not all of a text was written, since a write failed.
#[derive(Clone, Copy, Debug, PartialEq, Eq)]
pub struct WriteFault;

/// Why a source was not read to its end.
#[derive(Clone, Copy, Debug, PartialEq, Eq)]
pub enum ReadError {
    /// A read failed.
    Fault,
    /// More bytes came than the limit allows.
    Long,
    /// Memory was wanted and not found.
    Memory,
}

impl fmt::Display for Failed {
    ghost output = { λ _. Some (codes "the stream failed") };

    fn fmt<W: fmt::Write>(&self, f: &mut fmt::Formatter<W>) -> fmt::Result {
        write!(f, "the stream failed")
    }
}

impl Error for Failed {}

impl fmt::Display for WriteFault {
    ghost output = { λ _. Some (codes "write fault") };

    fn fmt<W: fmt::Write>(&self, f: &mut fmt::Formatter<W>) -> fmt::Result {
        write!(f, "write fault")
    }
}

impl Error for WriteFault {}

impl From<Failed> for WriteFault {
    ghost from_gives = { λ _ e. Unit {0} };

    fn from(_failed: Failed) -> WriteFault {
        WriteFault
    }
}

impl fmt::Display for ReadError {
    ghost use Rattle.kw_io.specs.Errors.{read_error_text};

    ghost output = { λ error. Some (read_error_text error) };

    fn fmt<W: fmt::Write>(&self, f: &mut fmt::Formatter<W>) -> fmt::Result {
        match self {
            ReadError::Fault => write!(f, "read fault"),
            ReadError::Long => write!(f, "input too long"),
            ReadError::Memory => write!(f, "out of memory"),
        }
    }
}

impl Error for ReadError {}

impl From<Failed> for ReadError {
    ghost use Rattle.kw_io.specs.declared.errors.ReadError.TheVariants as read_error;

    ghost from_gives = { λ _ e. e ≡ read_error.Fault };

    fn from(_failed: Failed) -> ReadError {
        ReadError::Fault
    }
}

impl From<AllocError> for ReadError {
    ghost use Rattle.kw_io.specs.declared.errors.ReadError.TheVariants as read_error;

    ghost from_gives = { λ _ e. e ≡ read_error.Memory };

    fn from(_error: AllocError) -> ReadError {
        ReadError::Memory
    }
}
