//! One operation on one word.
//!
//! All that a step does to the shared words is here: a load, a store, an addition, a union of bits
//! or an exchange, what each of them leaves in the word, and what it tells the seat. Every layer
//! above cites these two.
ghost use Rattle.std.specs.Prelude.{◌≡◌};
ghost use Rattle.kw_world.specs.Operation.{word_after, told_by, CanHappen};

use kw_words::kind::Kind;
use kw_words::layout::Name;

/// What is done to a word.
#[derive(Clone, Copy, Debug, PartialEq, Eq)]
pub enum Action {
    /// The word is read.
    Load,
    /// The word becomes this one.
    Store(u64),
    /// This is added to the word.
    Add(u64),
    /// These bits are set in the word.
    Or(u64),
    /// The word becomes the second, if it was the first.
    Exchange(u64, u64),
}

impl Action {
    /// The word after the action, where this one was found.
    pub fn after(self, found: u64) -> u64
        requires { CanHappen self found }
        ensures { result ≡ word_after self found }
    {
        match self {
            Action::Load => found,
            Action::Store(word) => word,
            Action::Add(number) => found + number,
            Action::Or(bits) => found | bits,
            Action::Exchange(expected, word) => if found == expected { word } else { found },
        }
    }

    /// What the action tells, where this word was found: the word, and 0 for a store.
    pub fn told(self, found: u64) -> u64
        ensures { result ≡ told_by self found }
    {
        match self {
            Action::Store(_) => 0,
            _ => found,
        }
    }
}

/// An action on a word, and what it is for.
#[derive(Clone, Copy, Debug, PartialEq, Eq)]
pub struct Operation {
    /// What the action is for.
    pub kind: Kind,
    /// The word.
    pub name: Name,
    /// What is done to the word.
    pub action: Action,
}
