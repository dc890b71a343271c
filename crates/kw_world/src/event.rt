//! What may happen to a world.
//!
//! An event says which seat acts and what it chooses; all else follows from the world. Lists of
//! events are kept by the million, so an event is a few words of plain data that is copied.
ghost use Rattle.std.specs.Prelude.{◌≡◌};
ghost use Rattle.kw_world.specs.WalkTransitions.{offered, is_stop};
ghost use Rattle.kw_world.specs.Sane.{IsOffered};

use kw_model::call::{Call, Reply};

/// What the acting seat chooses. A choice that its activity does not offer counts as `Go`.
#[derive(Clone, Copy, Debug, PartialEq, Eq)]
pub enum Choice {
    /// An idle seat begins this call. A put's value is below `VALUE_END`.
    Begin(Call),
    /// The seat goes on.
    Go,
    /// A walk begins at this row, where it may, and a walk along a row behind this cell. A number
    /// that is not one of the table's rows is not offered.
    Guess(u32),
    /// A scan ends before its time, where it may.
    Stop,
}

impl Choice {
    /// This choice, in a table of this many rows: a guess at a row that does not exist is none.
    pub fn offered(self, rows: u32) -> Choice
        ensures value { result ≡ offered rows self }
        ensures below { IsOffered rows result }
    {
        match self {
            Choice::Guess(row) if row >= rows => Choice::Go,
            _ => self,
        }
    }

    /// Whether this is the choice to stop.
    pub fn is_stop(self) -> bool
        ensures { result ≡ is_stop self }
    {
        match self {
            Choice::Stop => true,
            _ => false,
        }
    }
}

/// One event: the seat that acts, counted from 0, and its choice.
#[derive(Clone, Copy, Debug, PartialEq, Eq)]
pub struct Event {
    /// The seat that acts.
    pub seat: u32,
    /// What it chooses.
    pub choice: Choice,
}

/// What an event did.
#[derive(Debug, Drop, PartialEq, Eq)]
pub enum StepDone {
    /// The seat goes on.
    Moved,
    /// The seat's call ended with this reply.
    Ended(Reply),
    /// Nothing: the seat was idle and began nothing.
    Skipped,
}
