//! What one seat knows.
//!
//! A `Local` has a field for each value that a seat keeps from one event to the next. Every number
//! always has a range that holds, so that code may use it whatever the seat does; what it means at
//! which activity is for the laws over lists of events to say. The step crates write the fields,
//! each event those that its line of the table names, and nobody else does.
ghost use Rattle.std.specs.Prelude.{◌≡◌};
ghost use Rattle.kw_world.specs.Local.{resting, at_rest, without_rows, before_row};
ghost use Rattle.kw_world.specs.WalkTransitions.{is_stopped};
ghost use Rattle.kw_world.specs.ListTransitions.{cell_guess};
ghost use Rattle.kw_world.specs.Parts.{part_of};

use crate::activity::Activity;
use crate::activity::enter::Enter;
use crate::activity::walk::Walk;
use crate::calls::is_scan;
use crate::event::Choice;
use crate::gathered::Gathered;
use crate::marks::Marks;
use crate::part::Part;
use crate::rebalance::Rebalancing;
use kw_model::call::Call;
use kw_model::pair_list::PairList;
use kw_words::sizes::{CELLS, SEATS};
use std::alloc::{AllocError, Global};

/// What one seat knows. Between calls it knows the number of its calls and its pin alone.
#[derive(Debug, Drop)]
pub struct Local {
    /// What it does next.
    pub activity: Activity,
    /// The call that it makes; none between calls.
    pub call: Option<Call>,
    /// How many calls it has begun.
    pub number: u32,
    /// The version at which it has pinned the map, from 1 to below `VERSION_END`; none where it
    /// pins nothing.
    pub pin: Option<u64>,
    /// The epoch that it announces, from 1 to below `NUMBER_END`.
    pub epoch: u64,

    /// The key of a put, a delete or a get; the lowest key that a scan still wants.
    pub want: u32,
    /// The row that its walk is on.
    pub row: u32,
    /// The least key that this row may hold.
    pub lower: u32,
    /// With how many cells this row was built, or less where that was not asked for; at most the
    /// number of cells.
    pub built: u32,
    /// The row whose least key the walk asks for.
    pub candidate: u32,
    /// The row after the one at which the walk ended; none where that was the last.
    pub next: Option<u32>,
    /// The least key that the next row may hold; 0 where there is no next row.
    pub upper: u32,

    /// The clock with which a scan waits, from 1 to below `VERSION_END`.
    pub waiting: u64,
    /// The version that a scan drew, from 1 to below `VERSION_END`.
    pub drawn: u64,
    /// The version of a scan, or of a put once it has loaded the clock; from 1 to below
    /// `VERSION_END`.
    pub version: u64,
    /// Whether a scan has read a row.
    pub has_read: bool,
    /// The pairs that a scan has added.
    pub pairs: PairList,

    /// The seat whose entry a reader saw pending, below the number of seats.
    pub looked: u32,
    /// The cell that it saw in that entry, below the number of cells.
    pub saw: u32,
    /// The version with which a reader helps that cell's put, from 1 to below `VERSION_END`.
    pub helping: u64,
    /// The stamped cells that a reader has seen in entries of the row, and not yet in its list.
    pub remembered: Marks<SEATS>,
    /// The cell that a walk along the row's list has reached, or that a reader remembered, below
    /// the number of cells.
    pub place: u32,
    /// The version of that cell, from 1 to below `VERSION_END`.
    pub place_version: u64,
    /// The key of that cell.
    pub place_key: u32,
    /// The cells that a reader has gathered in the row.
    pub gathered: Gathered<CELLS>,

    /// The cell of a put or a delete, below the number of cells.
    pub cell: u32,
    /// The cell after which the link stands that a walk along the row's list is at; none at the
    /// row's first link.
    pub link: Option<u32>,
    /// The cell to which that link led; none where it led to no cell.
    pub held: Option<u32>,
    /// How many cells the walk has reached since the row's first link, at most the number of cells.
    pub walked: u32,
    /// How many exchanges the put has lost that were to insert its cell, at most the number of
    /// cells.
    pub lost: u32,
    /// Whether the put or the delete is done and tidies: its seat rebalances its row before it
    /// leaves.
    pub tidies: bool,

    /// The rebalance that it makes.
    pub rebalance: Rebalancing,
}

impl Clone for Local {
    ghost use Rattle.std.specs.Prelude.{◌≡◌};

    ghost is_clone = { λ local copy. copy ≡ local };

    // The pairs are copied into new memory; nothing else takes any.
    fn clone(&self) -> Result<Local, AllocError> {
        Ok(Local {
            activity: self.activity,
            call: self.call,
            number: self.number,
            pin: self.pin,
            epoch: self.epoch,
            want: self.want,
            row: self.row,
            lower: self.lower,
            built: self.built,
            candidate: self.candidate,
            next: self.next,
            upper: self.upper,
            waiting: self.waiting,
            drawn: self.drawn,
            version: self.version,
            has_read: self.has_read,
            pairs: self.pairs.clone()?,
            looked: self.looked,
            saw: self.saw,
            helping: self.helping,
            remembered: self.remembered.clone()?,
            place: self.place,
            place_version: self.place_version,
            place_key: self.place_key,
            gathered: self.gathered.clone()?,
            cell: self.cell,
            link: self.link,
            held: self.held,
            walked: self.walked,
            lost: self.lost,
            tidies: self.tidies,
            rebalance: self.rebalance.clone()?,
        })
    }
}

impl Local {
    /// A seat that has begun no call. Takes no memory; the pairs of its scans take theirs from this
    /// allocator.
    pub fn idle(alloc: Global) -> Local
        ensures { result ≡ resting 0 }
    {
        Local {
            activity: Activity::Idle,
            call: None,
            number: 0,
            pin: None,
            epoch: 1,
            want: 0,
            row: 0,
            lower: 0,
            built: 0,
            candidate: 0,
            next: None,
            upper: 0,
            waiting: 1,
            drawn: 1,
            version: 1,
            has_read: false,
            pairs: PairList::new(alloc),
            looked: 0,
            saw: 0,
            helping: 1,
            remembered: Marks::new(),
            place: 0,
            place_version: 1,
            place_key: 0,
            gathered: Gathered::new(),
            cell: 0,
            link: None,
            held: None,
            walked: 0,
            lost: 0,
            tidies: false,
            rebalance: Rebalancing::none(),
        }
    }

    /// Between calls a seat knows how many calls it has begun, its pin, and nothing else.
    pub fn rest(&mut self)
        ensures { self.new ≡ at_rest self.old }
    {
        self.activity = Activity::Idle;
        self.call = None;
        self.epoch = 1;
        self.want = 0;
        self.row = 0;
        self.lower = 0;
        self.built = 0;
        self.candidate = 0;
        self.next = None;
        self.upper = 0;
        self.waiting = 1;
        self.drawn = 1;
        self.version = 1;
        self.has_read = false;
        self.pairs.truncate(0);
        self.looked = 0;
        self.saw = 0;
        self.helping = 1;
        self.remembered.clear();
        self.place = 0;
        self.place_version = 1;
        self.place_key = 0;
        self.gathered.clear();
        self.cell = 0;
        self.link = None;
        self.held = None;
        self.walked = 0;
        self.lost = 0;
        self.tidies = false;
        self.rebalance.forget();
    }

    /// Forgets every row.
    pub fn forget_rows(&mut self)
        ensures { self.new ≡ without_rows self.old }
    {
        self.row = 0;
        self.lower = 0;
        self.built = 0;
        self.candidate = 0;
        self.next = None;
        self.upper = 0;
    }

    /// Forgets what was remembered and gathered of a row, and stands at the first link of a list.
    pub fn forget_cells(&mut self)
        ensures { self.new ≡ before_row self.old }
    {
        self.remembered.clear();
        self.gathered.clear();
        self.link = None;
        self.walked = 0;
    }

    /// Whether the choice stops the walk that this seat is on: it is a scan that has read a row.
    pub fn is_stopped(&self, choice: Choice) -> bool
        ensures { result ≡ is_stopped choice self.now }
    {
        choice.is_stop() && is_scan(self.call) && self.has_read
    }

    /// The cell behind which a walk along its row is to begin with this choice: one of those with
    /// which the row was built. Any other choice names none.
    pub fn cell_guess(&self, choice: Choice) -> Option<u32>
        ensures { result ≡ cell_guess choice self.now }
    {
        match choice {
            Choice::Guess(cell) if cell < self.built => Some(cell),
            _ => None,
        }
    }

    /// The part of the table that has the event with this choice. A walk that is stopped does not
    /// walk.
    pub fn part(&self, choice: Choice) -> Part
        ensures { result ≡ part_of choice self.now }
    {
        match self.activity {
            Activity::Walk(Walk::Next) if self.is_stopped(choice) => Part::Put,
            Activity::Walk(_) => Part::Rows,
            Activity::Retry | Activity::Enter(Enter::LoadEpoch) | Activity::Rebalance(_) =>
                Part::Rebalance,
            _ => Part::Put,
        }
    }
}
