//! The stamped cells that a reader has seen in a row.
//!
//! A reader looks at the entry of each seat before it walks along the row's list, and remembers the
//! cell and the version of each put that has a version in its entry and may not be listed yet. A
//! cell that it reaches in the list is remembered no more; those that are left it reads by
//! themselves. There is one entry for each seat, so the list lies in place and takes no memory. A
//! rebalance remembers those of all rows of its group.
ghost use Rattle.std.specs.Prelude.{◌≡◌, ◌<◌, ◌++◌, ◌∷◌, [], length};
ghost use Rattle.kw_world.specs.Marks.{unmarked, least_mark, lesser_of};

use arrayvec::ArrayVec;
use std::alloc::AllocError;
use std::marker::Model;

/// A cell, and the version that its put has.
#[derive(Clone, Copy, Debug, Default, PartialEq, Eq)]
pub struct Mark {
    /// The cell; in a rebalance its place in the group.
    pub cell: u32,
    /// The version of its put.
    pub version: u64,
}

/// The stamped cells that were seen in entries, in the order of these; at most `MOST`.
#[derive(Debug, Drop)]
pub struct Marks<const MOST: usize> {
    items: ArrayVec<Mark, MOST>,
}

impl<const MOST: usize> Model for Marks<MOST> {
    ghost use Rattle.std.specs.Prelude.{List};
    ghost use Rattle.kw_world.specs.declared.marks.Mark.{Mark};

    ghost Value = { List Mark };

    ghost view = { λ m. m.items.items };
}

impl<const MOST: usize> Clone for Marks<MOST> {
    ghost use Rattle.std.specs.Prelude.{◌≡◌};

    ghost is_clone = { λ marks copy. copy ≡ marks };

    // Takes no memory.
    fn clone(&self) -> Result<Marks<MOST>, AllocError> {
        let items = self.items.clone()?;
        Ok(Marks { items })
    }
}

impl<const MOST: usize> Marks<MOST> {
    /// No cells.
    pub fn new() -> Marks<MOST>
        ensures { result ≡ [] }
    {
        Marks {
            items: ArrayVec::new(),
        }
    }

    /// Forgets all cells.
    pub fn clear(&mut self)
        ensures { self.new ≡ [] }
    {
        self.items.clear();
    }

    /// Adds a cell at the end. There must be room.
    pub fn push(&mut self, mark: Mark)
        requires { length self.old < MOST }
        ensures { self.new ≡ self.old ++ mark ∷ [] }
    {
        self.items.push(mark);
    }

    /// Forgets each mark of this cell.
    #[inline(always)]
    pub fn forget(&mut self, cell: u32)
        ensures { self.new ≡ unmarked cell self.old }
    {
        if self.items.as_slice().is_empty() {
            return;
        }
        self.keep_others(cell);
    }

    // Keeps the marks of all cells but this one.
    fn keep_others(&mut self, cell: u32)
        ensures { self.new ≡ unmarked cell self.old }
    {
        let marks = self.items.as_slice();
        let mut kept = ArrayVec::new();
        for mark in marks {
            if mark.cell != cell {
                kept.push(*mark);
            }
        }
        self.items = kept;
    }

    /// A mark of the least cell, or none where there is none.
    pub fn least(&self) -> Option<Mark>
        ensures { result ≡ least_mark self.now }
    {
        let marks = self.items.as_slice();
        let mut least: Option<Mark> = None;
        let mut at = marks.len();
        while at > 0 {
            at -= 1;
            least = Some(lesser_of(marks[at], least));
        }
        least
    }

    /// The cells, in order.
    pub fn as_slice(&self) -> &[Mark]
        ensures { result.now ≡ self.now }
    {
        self.items.as_slice()
    }
}

// Of two marks the one of the lesser cell.
fn lesser_of(mark: Mark, other: Option<Mark>) -> Mark
    ensures { result ≡ lesser_of mark other }
{
    match other {
        Some(other) if other.cell < mark.cell => other,
        _ => mark,
    }
}
