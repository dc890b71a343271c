//! What a seat does next.
//!
//! There is one leaf for each line of the table of events, and none for what is passed through
//! without an event. The leaves stand in families, one for each part of a call, in a file of its
//! own below here; those of a rebalance are families again. A leaf's field is what the line's own
//! text names in brackets; all else that a seat keeps stands in `local`. The table goes by these
//! leaves (`specs/Table` and the files that it sends each family to), so a new one is a new line
//! there.
ghost use Rattle.std.specs.Prelude.{◌≡◌};
ghost use Rattle.kw_world.specs.Step.{is_skipped};

pub mod draw;
pub mod enter;
pub mod insert;
pub mod look;
pub mod put;
pub mod read;
pub mod rebalance;
pub mod walk;

use crate::activity::draw::Draw;
use crate::activity::enter::Enter;
use crate::activity::insert::Insert;
use crate::activity::look::Look;
use crate::activity::put::Put;
use crate::activity::read::Read;
use crate::activity::rebalance::Rebalance;
use crate::activity::walk::Walk;
use crate::answer::Answer;
use crate::event::Choice;

/// What a seat does next: one event for each leaf of these families.
#[derive(Clone, Copy, Debug, PartialEq, Eq)]
pub enum Activity {
    /// Begins a call, if the seat chooses one: loads the epoch.
    Idle,
    /// Beginning a visit.
    Enter(Enter),
    /// A scan gets its version.
    Draw(Draw),
    /// The walk to the row of the wanted key.
    Walk(Walk),
    /// A reader looks at the entries of its row.
    Look(Look),
    /// A reader goes along the list of its row.
    Read(Read),
    /// Ends the scan with this answer: stores that the seat makes no scan.
    EndScan(Answer),
    /// Takes the pin back: stores that the seat pins nothing.
    ClearPin,
    /// A put or a delete is at its row.
    Put(Put),
    /// A put links its cell into the list of the row.
    Insert(Insert),
    /// A full row is replaced by new ones.
    Rebalance(Rebalance),
    /// Takes the announced epoch back, for the put to try again: stores that the seat announces
    /// none.
    Retry,
    /// Ends the call with this answer: stores that the seat announces no epoch.
    Leave(Answer),
}

impl Activity {
    /// Whether an event with this choice is skipped here: the seat is idle, and begins nothing.
    pub fn skips(&self, choice: Choice) -> bool
        ensures { result ≡ is_skipped self.now choice }
    {
        match (self, choice) {
            (Activity::Idle, Choice::Begin(_)) => false,
            (Activity::Idle, _) => true,
            _ => false,
        }
    }
}
