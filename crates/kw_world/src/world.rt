//! Worlds.
//!
//! A `World` owns the words and the locals, and lets the step crates read and write them one at a
//! time. It promises nothing of what they hold: that a world stays sane is a law over events, and a
//! condition of every step. So its setters set, and owe nothing else.
ghost use Rattle.std.specs.Prelude.{◌≡◌, ◌<◌, ◌≤◌, length, slice_index, slice_get, slice_set, Some, IfOk};
ghost use Rattle.std.specs.Borrow.{sem};
ghost use Rattle.kw_world.specs.Lending.{LendsLocal};
ghost use Rattle.kw_world.specs.Sizes.{product};
ghost use Rattle.kw_world.specs.Opening.{IsOpening, opened, opening_word};
ghost use Rattle.kw_world.specs.Sane.{IsSane};
ghost use Rattle.kw_world.specs.Step.{word};
ghost use Rattle.kw_words.specs.Layout.{IsWithin};
ghost use Rattle.kw_words.specs.declared.layout.Name.{Name};

use crate::local::Local;
use kw_model::memory::Memory;
use kw_words::layout::{Layout, Name};
use kw_words::link::Link;
use kw_words::sizes::{CELLS, SEATS};
use kw_words::state::State;
use std::alloc::Global;
use std::marker::Model;

/// The words that the seats share, and what each seat knows.
#[derive(Drop)]
pub struct World {
    rows: u32,
    words: Vec<u64>,
    locals: Vec<Local>,
}

impl Model for World {
    ghost use Rattle.kw_world.specs.WorldView.{WorldView};

    ghost Value = { WorldView };

    ghost view = { λ w. record { rows = w.rows; words = w.words.items; locals = w.locals.items } };
}

impl World {
    /// The world that a run begins with.
    ///
    /// There are 1 to `MOST_ROWS` rows and 1 to `SEATS` seats; the clock and the epoch are from 1
    /// to `SPENT`. Row 0 is normal, may hold every key and has no next row, the list begins with
    /// it, all other rows are free, and every seat is idle. All that the world holds is in range.
    pub fn open(
        alloc: Global,
        rows: u32,
        seats: u32,
        clock: u64,
        epoch: u64,
    ) -> Result<World, Memory>
        requires { IsOpening product (record {
          rows = rows;
          seats = seats;
          clock = clock;
          epoch =
              epoch;
        }) }
        ensures world { IfOk result
            (λ world. world ≡ opened product (record {
              rows = rows;
              seats = seats;
              clock = clock;
              epoch = epoch;
            })) }

        ensures sane { IfOk result (λ world. IsSane product world) }

        // the words by name
        ensures named { IfOk result (λ world. (name : Name) → IsWithin SEATS CELLS rows name →
            word product world name ≡ opening_word (record {
              rows = rows;
              seats = seats;
              clock =
                  clock;
              epoch = epoch;
            }) name) }
    {
        Self::built(alloc, rows, seats, clock, epoch)
    }

    // `open` without the clause on words by name, which is one goal there.
    fn built(alloc: Global, rows: u32, seats: u32, clock: u64, epoch: u64) -> Result<World, Memory>
        requires { IsOpening product (record {
          rows = rows;
          seats = seats;
          clock = clock;
          epoch =
              epoch;
        }) }
        ensures { IfOk result
            (λ world. world ≡ opened product (record {
              rows = rows;
              seats = seats;
              clock = clock;
              epoch = epoch;
            })) }
    {
        let head = Link {
            row: Some(0),
            marked: false,
        };
        let mut words = vec![in alloc; 0; Layout::<SEATS, CELLS>::words(rows)]?;
        words[Layout::<SEATS, CELLS>::place(rows, Name::Clock)] = clock;
        words[Layout::<SEATS, CELLS>::place(rows, Name::Epoch)] = epoch;
        words[Layout::<SEATS, CELLS>::place(rows, Name::Head)] = head.pack();
        words[Layout::<SEATS, CELLS>::place(rows, Name::State(0))] = State::Normal.pack();
        let mut locals = Vec::new(alloc);
        for _seat in 0..seats {
            locals.push(Local::idle(alloc))?;
        }
        Ok(World {
            rows,
            words,
            locals,
        })
    }

    /// A copy of this world.
    pub fn clone_world(&self) -> Result<World, Memory>
        ensures { IfOk result (λ world. world ≡ self.now) }
    {
        let words = self.words.clone()?;
        let locals = self.locals.clone()?;
        Ok(World {
            rows: self.rows,
            words,
            locals,
        })
    }

    /// How many rows there are.
    pub fn rows(&self) -> u32
        ensures { result ≡ self.now.rows }
    {
        self.rows
    }

    /// How many seats there are.
    pub fn seats(&self) -> u32
        requires { length self.now.locals ≤ SEATS }
        ensures { result ≡ length self.now.locals }
    {
        self.locals.len() as u32
    }

    /// The word at a place, below the number of words.
    pub fn word(&self, place: usize) -> u64
        requires { place < length self.now.words }
        ensures { result ≡ slice_index self.now.words place }
    {
        self.words[place]
    }

    /// Writes the word at a place, below the number of words.
    pub fn set_word(&mut self, place: usize, word: u64)
        requires { place < length self.old.words }
        ensures { self.new ≡ record self.old { words = slice_set self.old.words place word } }
    {
        self.words[place] = word;
    }

    /// What a seat knows.
    pub fn local(&self, seat: u32) -> &Local
        requires { seat < length self.now.locals }
        ensures { slice_get self.now.locals seat ≡ Some result.now }
    {
        &self.locals[seat as usize]
    }

    /// What a seat knows, to be changed. What is written there changes this seat alone.
    pub fn local_mut(&mut self, seat: u32) -> &mut Local
        requires { seat < length self.old.locals }
        ensures* writes_back { sem 𝓛 (LendsLocal self.entry seat result) }
        ensures value { slice_get self.old.locals seat ≡ Some result.now }
    {
        &mut self.locals[seat as usize]
    }
}
