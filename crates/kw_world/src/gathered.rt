//! The cells that a reader has gathered in a row, or a rebalance in the rows of its group.
//!
//! Of each cell of the row whose key is in its range and whose put has a version a reader keeps a
//! copy. The copies stand in the order of the row's list, so that what a version shows of them is
//! found in one go. A row has a fixed number of cells, so the list lies in place and takes no
//! memory.
ghost use Rattle.std.specs.Prelude.{◌≡◌, ◌<◌, [], true, length, nat_lt, if◌then◌else◌, slice_index_or, remove, IfSome, IfNone};
ghost use Rattle.kw_cells.specs.InOrder.{AreInOrder, index_in, stands_before, with_cell};

use arrayvec::ArrayVec;
use kw_cells::cell::Cell;
use kw_cells::in_order::{index_in, is_behind};
use std::alloc::AllocError;
use std::marker::Model;

/// The gathered cells, in the order of the row's list: by key, then by falling version, then by
/// falling place; at most `MOST`, of which no two agree in key, version and place.
#[derive(Debug, Drop)]
pub struct Gathered<const MOST: usize> {
    cells: ArrayVec<Cell, MOST>,
}

impl<const MOST: usize> Model for Gathered<MOST> {
    ghost use Rattle.std.specs.Prelude.{List};
    ghost use Rattle.kw_cells.specs.declared.cell.Cell.{Cell};
    ghost use Rattle.kw_cells.specs.InOrder.{AreInOrder};

    ghost Value = { List Cell };

    ghost view = { λ g. g.cells.items };

    ghost invariant = { λ g. AreInOrder g.cells.items };
}

impl<const MOST: usize> Clone for Gathered<MOST> {
    ghost use Rattle.std.specs.Prelude.{◌≡◌};

    ghost is_clone = { λ gathered copy. copy ≡ gathered };

    // Takes no memory.
    fn clone(&self) -> Result<Gathered<MOST>, AllocError> {
        let cells = self.cells.clone()?;
        Ok(Gathered { cells })
    }
}

impl<const MOST: usize> Gathered<MOST> {
    /// No cells.
    pub fn new() -> Gathered<MOST>
        ensures { result ≡ [] }
    {
        Gathered {
            cells: ArrayVec::new(),
        }
    }

    /// Forgets all cells.
    pub fn clear(&mut self)
        ensures { self.new ≡ [] }
    {
        self.cells.clear();
    }

    /// Puts a cell at its place among those that were gathered. The answer is that place.
    ///
    /// None where the cell is not put there, and all stays as it was: there is no room, or a cell
    /// was gathered that agrees with it in key, version and place. No reader of a row reaches
    /// either. A walk along a row's list has the next cell for the end.
    #[inline(always)]
    pub fn gather(&mut self, cell: Cell) -> Option<usize>
        ensures gathered { self.new ≡ (if nat_lt (length self.old) MOST
            then with_cell cell self.old else self.old) }
        ensures put { IfSome result (λ at. (at < length self.new) × (remove self.new at ≡ self.old)) }
        ensures kept { IfNone result (self.new ≡ self.old) }
    {
        if self.cells.is_full() {
            return None;
        }
        if is_behind(&cell, self.cells.as_slice()) {
            let end = self.cells.len();
            self.cells.push(cell);
            return Some(end);
        }
        self.put_between(cell)
    }

    // Puts a cell at its place where others may stand behind it.
    fn put_between(&mut self, cell: Cell) -> Option<usize>
        requires { length self.old < MOST }
        ensures gathered { self.new ≡ with_cell cell self.old }
        ensures put { IfSome result (λ at. (at < length self.new) × (remove self.new at ≡ self.old)) }
        ensures kept { IfNone result (self.new ≡ self.old) }
    {
        let at = index_in(&cell, self.cells.as_slice());
        if !is_new(&cell, self.cells.as_slice(), at) {
            return None;
        }
        self.cells.insert(at, cell);
        Some(at)
    }

    /// The place at which the cell is put among those that were gathered: how many of them stand
    /// before it in the list.
    pub fn index_of(&self, cell: &Cell) -> usize
        ensures { result ≡ index_in cell.now self.now }
    {
        index_in(cell, self.cells.as_slice())
    }

    /// Takes the cell at a place away.
    pub fn remove(&mut self, at: usize)
        requires { at < length self.old }
        ensures { self.new ≡ remove self.old at }
    {
        self.cells.remove(at);
    }

    /// The cells, in order.
    pub fn as_slice(&self) -> &[Cell]
        ensures cells { result.now ≡ self.now }
        ensures in_order { AreInOrder self.now }
    {
        self.cells.as_slice()
    }
}

// Whether the cell stands before the one at this place, if there is one. At the cell's own place it
// then agrees with none.
fn is_new(cell: &Cell, cells: &[Cell], at: usize) -> bool
    ensures { result ≡ (if nat_lt at (length cells.now) then stands_before cell.now
        (slice_index_or cells.now at cell.now) else true) }
{
    if at < cells.len() {
        cell.stands_before(&cells[at])
    } else {
        true
    }
}
