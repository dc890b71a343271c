//! A line that is dealt.
//!
//! The rule which worker takes a line stands here and nowhere else: who answers lines and who
//! collects answers both ask [`Line::worker`], and it is proved to be `worker_of` of
//! `specs/Dealing.antt`.
ghost use Rattle.std.specs.Prelude.{◌≡◌, ◌<◌};
ghost use Rattle.kw_work.specs.Dealing.{worker_of};

use kw_line::item::Form;
use kw_model::call::Call;

/// A line that makes a call.
#[derive(Clone, Copy, Debug, PartialEq, Eq)]
pub struct Line {
    /// The line's number in its input. Lines count from 1, and those that make no call count too.
    pub number: u32,
    /// The call that the line makes, which is one of its form.
    pub call: Call,
    /// The form in which the call's answer is printed.
    pub form: Form,
}

impl Line {
    /// The worker that takes the line, one of so many: a line on one key goes by its key, so that
    /// all lines on a key go to one worker, and any other by its number.
    pub fn worker(&self, workers: u32) -> u32
        requires { 0 < workers }
        ensures worker { result ≡ worker_of workers self.now }
        ensures below { result < workers }
    {
        match self.call {
            Call::Put(key, _) | Call::Del(key) | Call::Get(key) => key % workers,
            Call::Scan(..) | Call::Pin | Call::ScanAt(..) | Call::Unpin => self.number % workers,
        }
    }
}
