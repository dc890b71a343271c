//! The table at the start, and its passes.
//!
//! The words are those of the opening world, each at its slot. The view that the table is opened
//! with may act for all seats, and a pass for each is cut off it, one after the other.
ghost use Rattle.std.specs.Prelude.{◌≡◌, ℕ, ◌+◌, ◌<◌, [], IfOk, vec_len, slice_index_or};
ghost use Rattle.kw_world.specs.Opening.{IsOpening, opening_words};
ghost use Rattle.kw_world.specs.Sizes.{product};
ghost use Rattle.kw_table.specs.Passes.{IsFresh};
ghost use Rattle.kw_table.specs.Slots.{IsLaid};
ghost use Rattle.kw_table.specs.Views.{rest_view};

use crate::pass::{Pass, View};
use crate::rule::Deal;
use crate::shared::Shared;
use crate::slot::{slot, slots};
use atomic_table::{Seat, Table};
use kw_model::memory::Memory;
use kw_words::layout::Name;
use kw_words::link::Link;
use kw_words::state::State;
use kw_world::opening::Opening;
use std::alloc::Global;

/// The words of the world that a run begins with, as they lie in memory.
pub(crate) fn opening_words(alloc: Global, opening: Opening) -> Result<Vec<u64>, Memory>
    requires { IsOpening product opening }
    ensures { IfOk result (λ words. IsLaid opening.rows (opening_words product opening) words.items) }
{
    let rows = opening.rows;
    let head = Link {
        row: Some(0),
        marked: false,
    };
    let mut words = vec![in alloc; 0; slots(rows)]?;
    words[slot(rows, Name::Clock)] = opening.clock;
    words[slot(rows, Name::Epoch)] = opening.epoch;
    words[slot(rows, Name::Head)] = head.pack();
    words[slot(rows, Name::State(0))] = State::Normal.pack();
    Ok(words)
}

impl Shared {
    /// A table in which nothing has happened, and a pass for each of its seats, numbered from 0.
    ///
    /// There are 1 to `MOST_ROWS` rows and 1 to `SEATS` passes; the clock and the epoch are from 1
    /// to `SPENT`. The words and what the seats know are those of `World::open` with these numbers.
    /// All memory of the table is taken here, and the only error is the want of it.
    pub fn open(
        alloc: Global,
        rows: u32,
        passes: u32,
        clock: u64,
        epoch: u64,
    ) -> Result<(Shared, Vec<Pass>), Memory>
        requires { IsOpening product (record {
          rows = rows;
          seats = passes;
          clock = clock;
          epoch = epoch;
        }) }
        ensures opening { IfOk result (λ made. made.0.opening ≡ record {
          rows = rows;
          seats = passes;
          clock = clock;
          epoch = epoch;
        }) }
        ensures len { IfOk result (λ made. vec_len made.1 ≡ passes) }
        ensures each { IfOk result (λ made. (i : ℕ) (d : _) → i < vec_len made.1 →
            IsFresh made.0 i (slice_index_or made.1.items i d)) }
    {
        let opening = Opening {
            rows,
            seats: passes,
            clock,
            epoch,
        };
        let words = opening_words(alloc, opening)?;
        let (table, rest) = Table::of_words(alloc, words.as_slice(), &opening)?;
        let shared = Shared { table, opening };
        let passes = shared.passes(alloc, rest)?;
        Ok((shared, passes))
    }

    // A pass for each seat.
    fn passes(&self, alloc: Global, mut rest: Seat<(), View>) -> Result<Vec<Pass>, Memory>
        requires table { rest.table_id ≡ self.now.table.shared.table_id }
        requires rest { rest.me ≡ (rest_view self.now.opening 0, []) }
        ensures len { IfOk result (λ v. vec_len v ≡ self.now.opening.seats) }
        ensures each { IfOk result (λ v. (i : ℕ) (d : _) → i < vec_len v →
            IsFresh self.now i (slice_index_or v.items i d)) }
    {
        let mut passes = Vec::new(alloc);
        for number in 0..self.opening.seats {
            let pass = self.deal(&mut rest, number);
            passes.push(pass)?;
        }
        Ok(passes)
    }

    // Cuts off the first of the seats that have no pass yet.
    fn deal(&self, rest: &mut Seat<(), View>, number: u32) -> Pass
        requires table { rest.old.table_id ≡ self.now.table.shared.table_id }
        requires rest { rest.old.me ≡ (rest_view self.now.opening number, []) }
        requires some { number < self.now.opening.seats }
        ensures pass { IsFresh self.now number result }
        ensures rest { (rest.new.table_id ≡ rest.old.table_id)
            × (rest.new.me ≡ (rest_view self.now.opening (number + 1), [])) }
    {
        let seat = self.table.shared.split_seat::<Deal>(rest);
        Pass {
            number,
            seat,
            walked: 0,
        }
    }
}
