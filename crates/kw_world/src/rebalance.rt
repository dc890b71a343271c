//! What one seat knows of the rebalance that it makes.
//!
//! A rebalance replaces a full row by new ones, alone or together with the row after it: a group of
//! rows. Its row and that row's least key are the row and the least key of the seat's walk; here is
//! what it knows beside them. As in `Local` every number always has a range that holds, so that
//! code may use it whatever the seat does.
ghost use Rattle.std.specs.Prelude.{◌≡◌};
ghost use Rattle.kw_world.specs.Local.{no_rebalance};

use crate::gathered::Gathered;
use crate::limits::MOST_MARKS;
use crate::marks::Marks;
use crate::rebuilt::{KeptCells, Needed, Starts, Taken};
use kw_cells::limits::MOST_GATHERED;
use kw_words::pend::Pend;
use std::alloc::AllocError;

/// What follows once the rows that a rebalance took are given back.
#[derive(Clone, Copy, Debug, PartialEq, Eq)]
pub enum Afterwards {
    /// The put tries again.
    TryAgain,
    /// The put is refused, since the table has too few rows.
    Refuse,
    /// The seat helps with the row before the full one, which is being replaced itself.
    MoveLeft,
}

/// What one seat knows of the rebalance that it makes. Of no rebalance it knows nothing.
#[derive(Debug, Drop)]
pub struct Rebalancing {
    /// The row after the full one, to which its marked link leads, and from where that goes along
    /// the row after both; none where the last of them is the last of all.
    pub after: Option<u32>,
    /// The row that goes along with the full one; none where that goes alone, and as long as it is
    /// not known.
    pub second: Option<u32>,
    /// The row of the group that is frozen, gathered or retired now.
    pub hand: u32,
    /// The row of the group that comes after the one at hand; none where that is the last.
    pub ahead: Option<u32>,
    /// The entry that the seat found, and is about to freeze.
    pub entry: Pend,
    /// The stamped cells that it has seen in entries of the group's rows, and not yet in their
    /// lists, each by its place in the group.
    pub marks: Marks<MOST_MARKS>,
    /// The clock with which another seat's scan waits, from 1 to below `VERSION_END`.
    pub waiting: u64,
    /// The version that was drawn for that scan, from 1 to below `VERSION_END`.
    pub drawn: u64,
    /// The versions that scans may still ask for.
    pub needed: Needed,
    /// The cells that it has gathered, each with its place in the group.
    pub gathered: Gathered<MOST_GATHERED>,
    /// Those of them that go into the new rows.
    pub kept: KeptCells,
    /// Where each new row starts among the kept cells.
    pub starts: Starts,
    /// The rows that it took, to be the new ones.
    pub taken: Taken,
    /// Which of the taken rows is at hand, counted from 0; at most as many as were taken.
    pub at: usize,
    /// The row whose state it asks for, to take it where it is free.
    pub sought: u32,
    /// How many rows it has asked so, with that one.
    pub asked: u32,
    /// The row at which its walk to the row before the full one is; none where the full row is the
    /// first. Where the full row is a follower, its leader as long as no walk has begun.
    pub before: Option<u32>,
    /// The least key that this row may hold.
    pub least: u32,
    /// The number of the retired row that it asks for, and then that of the row at hand, of those
    /// that were replaced; from 1 to below `NUMBER_END`.
    pub number: u64,
    /// What follows once the taken rows are given back.
    pub afterwards: Afterwards,
}

impl Clone for Rebalancing {
    ghost use Rattle.std.specs.Prelude.{◌≡◌};

    ghost is_clone = { λ rebalance copy. copy ≡ rebalance };

    // Takes no memory.
    fn clone(&self) -> Result<Rebalancing, AllocError> {
        Ok(Rebalancing {
            after: self.after,
            second: self.second,
            hand: self.hand,
            ahead: self.ahead,
            entry: self.entry,
            marks: self.marks.clone()?,
            waiting: self.waiting,
            drawn: self.drawn,
            needed: self.needed.clone()?,
            gathered: self.gathered.clone()?,
            kept: self.kept.clone()?,
            starts: self.starts.clone()?,
            taken: self.taken.clone()?,
            at: self.at,
            sought: self.sought,
            asked: self.asked,
            before: self.before,
            least: self.least,
            number: self.number,
            afterwards: self.afterwards,
        })
    }
}

impl Rebalancing {
    /// Nothing of a rebalance.
    pub fn none() -> Rebalancing
        ensures { result ≡ no_rebalance }
    {
        Rebalancing {
            after: None,
            second: None,
            hand: 0,
            ahead: None,
            entry: Pend::Idle,
            marks: Marks::new(),
            waiting: 1,
            drawn: 1,
            needed: Needed::new(),
            gathered: Gathered::new(),
            kept: KeptCells::new(),
            starts: Starts::new(),
            taken: Taken::new(),
            at: 0,
            sought: 0,
            asked: 0,
            before: None,
            least: 0,
            number: 1,
            afterwards: Afterwards::TryAgain,
        }
    }

    /// Forgets the rebalance.
    pub fn forget(&mut self)
        ensures { self.new ≡ no_rebalance }
    {
        self.after = None;
        self.second = None;
        self.hand = 0;
        self.ahead = None;
        self.entry = Pend::Idle;
        self.marks.clear();
        self.waiting = 1;
        self.drawn = 1;
        self.needed.clear();
        self.gathered.clear();
        self.kept.clear();
        self.starts.clear();
        self.taken.clear();
        self.at = 0;
        self.sought = 0;
        self.asked = 0;
        self.before = None;
        self.least = 0;
        self.number = 1;
        self.afterwards = Afterwards::TryAgain;
    }
}
