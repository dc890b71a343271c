//! What a command prints, and what it has to show for it.
//!
//! The types stand alone here, since each command makes a [`Printed`] and `run` takes one apart.
ghost use Rattle.std.specs.Prelude.{◌≡◌};
ghost use Rattle.kw_app.specs.Answering.{some_refused};
ghost use Rattle.kw_app.specs.Ending.{refusal_ending};

use kw_line::answer::Answer;
use kw_map::Pass;

/// What is to be said of a text once it was written whole.
#[derive(Clone, Copy, Debug, PartialEq, Eq)]
pub enum Ending {
    /// Nothing: all that was asked is done.
    Done,
    /// A reply of the text is a refusal.
    Refused,
    /// The text says what is wrong with a record.
    NotLegal,
}

impl Ending {
    /// How a text of these answers ends, by whether some are refusals.
    pub fn of_answers(answers: &[Answer]) -> Ending
        ensures { result ≡ refusal_ending (some_refused answers.now) }
    {
        if some_refused(answers) {
            Ending::Refused
        } else {
            Ending::Done
        }
    }
}

/// Whether some answer is a refusal.
fn some_refused(answers: &[Answer]) -> bool
    ensures { result ≡ some_refused answers.now }
{
    answers
        .iter()
        .any(|answer| matches!(answer, Answer::NoRows | Answer::Spent))
}

/// The text that a command prints.
#[derive(Drop)]
pub struct Printed {
    /// All bytes of the text.
    pub text: Vec<u8>,
    /// What is to be said of it.
    pub ending: Ending,
    /// The pass that has seen all events of the run, of `replay`, `gen` and `rollup`.
    pub front: Option<Pass>,
}
