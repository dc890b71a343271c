//! What one caller has seen, and the seat that it steps with.
//!
//! The two types stand alone here, since their facts may name nothing that names them; what a pass
//! can do is in the other modules.
ghost use Rattle.std.specs.Prelude.{◌≡◌, ◌-◌, ◌^◌, min};
ghost use Rattle.kw_table.specs.Known.{IsKnown};
ghost use Rattle.kw_table.specs.Walks.{walks_in};

use atomic_table::Seat;
use kw_world::event::Event;
use kw_world::opening::Opening;
use std::collections::LinkedList;

/// What a seat of the table of words has seen. It is for the proofs alone: no value of it is made.
///
/// It may act for the seats of the run from `number` on, as many as `count`: a pass for one, a note
/// for none, and the view that the table is opened with for all. So no two views act for one seat.
pub struct View {
    /// The first seat that it may act for.
    pub number: u32,
    /// How many seats it may act for.
    pub count: u32,
    /// What the run began with.
    pub opening: Opening,
    /// The events that it knows to begin the list of all events.
    pub seen: LinkedList<Event>,
    /// Events that another view has told it of, and that begin the list as well.
    pub told: LinkedList<Event>,
}

/// One caller's seat of a run. It has its number, and how many links of rows it has loaded.
#[derive(Drop)]
pub struct Pass {
    pub(crate) number: u32,
    pub(crate) seat: Seat<(), View>,
    pub(crate) walked: u64,
    ghost known: { IsKnown number seat.me },
    ghost counted: { walked ≡ min (2 ^ 64 - 1) (walks_in seat.me.0) },
}
