//! How a run of the program ends.
ghost use Rattle.std.specs.Prelude.{◌≡◌, None};
ghost use Rattle.kw_app.specs.Status.{named_line, status_code, status_of};

use crate::input::InputError;
use kw_map::Pass;

/// How a run ended. The causes are tested in this order: bad words, a read fault, bad input, a
/// write fault; want of memory may come at any place before the first byte is written. That a
/// record is not good, or that calls were refused, is told last, since it is no fault of the run.
#[derive(Clone, Copy, Debug, PartialEq, Eq)]
pub enum Status {
    /// The whole text was written.
    Done = 0,
    /// The words are no command. Nothing was read.
    BadWords = 2,
    /// The input is too long, or has a line that is not in the grammar, or a script's record would
    /// be too long. Nothing was written.
    BadInput = 3,
    /// The source failed. Nothing was written.
    ReadFault = 4,
    /// The sink failed. A prefix of the text was written.
    WriteFault = 5,
    /// Memory was wanted and not found. Nothing was written.
    OutOfMemory = 6,
    /// The whole text was written, and says what is wrong with a record.
    NotLegal = 7,
    /// The whole text was written, and a call was refused.
    Refused = 8,
}

impl Status {
    /// The status with which the process ends.
    pub fn code(self) -> u8
        ensures { result ≡ status_code self }
    {
        self as u8
    }
}

/// The end of a run: its status, and for bad input the first bad line, counted from 1, or 0 for an
/// input that is too long. The line is 0 at every other status.
#[derive(Drop)]
pub struct Outcome {
    pub status: Status,
    pub line: u32,
    /// Where text of `replay`, `gen` or `rollup` was written, the pass that has seen all events of
    /// the run.
    /// No bytes of the text depend on it.
    pub front: Option<Pass>,
}

impl Outcome {
    /// The end with this status, no line and no pass.
    pub fn of(status: Status) -> Outcome
        ensures status { result.status ≡ status }
        ensures line { result.line ≡ 0 }
        ensures front { result.front ≡ None }
    {
        Outcome {
            status,
            line: 0,
            front: None,
        }
    }

    /// The end of a command that has no text, for this reason.
    pub fn without_text(error: InputError) -> Outcome
        ensures status { result.status ≡ status_of error }
        ensures line { result.line ≡ named_line error }
        ensures front { result.front ≡ None }
    {
        match error {
            InputError::Fault => Outcome::of(Status::ReadFault),
            InputError::Bad { line } => Outcome {
                status: Status::BadInput,
                line,
                front: None,
            },
            InputError::Memory => Outcome::of(Status::OutOfMemory),
        }
    }
}
