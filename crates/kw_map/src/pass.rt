//! What one caller has for its calls of a map.
//!
//! A pass holds beside each other all that a call uses: its seat of the table, the local that
//! follows the seat while a call runs, and the hints by which calls begin near their key. They are
//! made with the map, so that a call takes no memory for them and moves none of them. Between calls
//! the local is at rest: that is a fact of each pass, which each call proves again at its end. A
//! contract sees of a pass its seat alone: which table it is one of, and what it has seen.
ghost use Rattle.std.specs.Prelude.{◌≡◌, ◌-◌, ◌^◌, min, IfOk};
ghost use Rattle.kw_table.specs.Passes.{view};
ghost use Rattle.kw_table.specs.Walks.{walks_in};

use kw_index::hints::Hints;
use kw_model::memory::Memory;
use kw_table::Pass as Seat;
use kw_world::local::Local;
use std::alloc::Global;
use std::marker::Model;

/// One caller's pass of a map. Its calls borrow it as `&mut`, so no two run on it at once.
#[derive(Drop)]
pub struct Pass {
    pub(crate) seat: Seat,
    // Boxed as the hints are, so that little is moved where a pass is handed to a thread.
    pub(crate) local: Box<Local>,
    pub(crate) hints: Box<Hints>,
}

impl Model for Pass {
    ghost use Rattle.std.specs.Prelude.{◌≡◌};
    ghost use Rattle.kw_world.specs.Local.{resting};
    ghost use Rattle.kw_table.specs.declared.pass.Pass.{Pass as Seat};

    ghost Value = { Seat };

    ghost view = { λ p. p.seat };

    ghost invariant = { λ p. p.local.value ≡ resting 0 };
}

impl Pass {
    // A pass with this seat of a map of so many rows, which searches for free rows from this one
    // on. The only error is the want of memory.
    pub(crate) fn new(alloc: Global, seat: Seat, rows: u32, first: u32) -> Result<Pass, Memory>
        ensures { IfOk result (λ made. made ≡ seat) }
    {
        let local = Box::new(alloc, Local::idle(alloc))?;
        let hints = Box::new(alloc, Hints::new(alloc, rows, first)?)?;
        Ok(Pass { seat, local, hints })
    }

    /// The number of the pass, counted from 0. Takes no memory.
    pub fn number(&self) -> u32
        ensures { result ≡ (view self.now).number }
    {
        self.seat.number()
    }

    /// How many links from one row to the next the pass has loaded, by events of its own that it
    /// has seen: `u64::MAX` where they are more. By it a test sees how far a call has gone along
    /// the rows. Takes no memory.
    pub fn walked(&self) -> u64
        ensures { result ≡ min (2 ^ 64 - 1) (walks_in (view self.now)) }
    {
        self.seat.walked()
    }
}
