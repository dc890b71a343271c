//! A sink into memory, with little room, some of whose writes fail.
ghost use Rattle.std.specs.Prelude.{◌≡◌, ◌^◌, ◌<◌, ◌≤◌, ◌||◌, ◌==◌, length, take, min, [], ◌++◌, IfOk, OnOk, OnErr, is_err};
ghost use Rattle.kw_io.specs.Counts.{next_count, counted};
ghost use Rattle.kw_model.specs.Counts.{CountRose};
ghost use Rattle.kw_io.specs.Fakes.{is_listed, free_room};

use crate::errors::Failed;
use crate::listed::contains_number;
use crate::writing::Sink;
use kw_model::memory::Memory;
use std::alloc::Global;
use std::marker::Model;

/// Room in memory for a number of bytes. Writes are numbered from 0, and those whose number is in
/// `fails` fail, as does each write once the room is used up.
///
/// Contracts see what was written, the room, how many writes were made, `fails`, and the count of
/// faults; the last and the number of writes stand still at 2^64 - 1.
#[derive(Debug, Drop)]
pub struct MemSink {
    bytes: Vec<u8>,
    room: usize,
    calls: u64,
    fails: Vec<u32>,
    faults: u64,
}

impl Model for MemSink {
    ghost use Rattle.std.specs.Prelude.{◌≤◌, length, vec_capacity};
    ghost use Rattle.kw_io.specs.Fakes.{SinkState};

    ghost Value = { SinkState };

    ghost view = { λ s. record {
      written = s.bytes.items;
      room = s.room;
      calls = s.calls;
      fails = s.fails.items;
      faults = s.faults;
    } };

    ghost invariant = { λ s. (length s.bytes.items ≤ s.room) × (s.room ≤ vec_capacity s.bytes) };
}

impl MemSink {
    /// An empty sink with room for this many bytes, whose writes with these numbers fail. All its
    /// memory is taken here.
    pub fn new(alloc: Global, room: u32, fails: Vec<u32>) -> Result<MemSink, Memory>
        ensures { IfOk result (λ sink. sink ≡
            record { written = []; room = room; calls = 0; fails = fails.items; faults = 0 }) }
    {
        let room = room as usize;
        let bytes = Vec::with_capacity(alloc, room)?;
        Ok(MemSink {
            bytes,
            room,
            calls: 0,
            fails,
            faults: 0,
        })
    }

    /// The bytes written so far.
    pub fn written(&self) -> &[u8]
        ensures { result.now ≡ self.now.written }
    {
        &self.bytes
    }
}

impl Sink for MemSink {
    ghost use Rattle.std.specs.Prelude.{Some};

    ghost written = { λ s. Some s.written };

    ghost faults = { λ s. s.faults };

    /// Fails exactly where no room is left or its number is listed, and is then counted. Every
    /// other write takes as many bytes as there is room for.
    fn write(&mut self, bytes: &[u8]) -> Result<usize, Failed>
        requires { 0 < length bytes.now }
        ensures some { IfOk result (λ n. 0 < n) }
        ensures bound { IfOk result (λ n. n ≤ length bytes.now) }
        ensures appended { IfOk result (λ n.
            self.new.written ≡ self.old.written ++ take n bytes.now) }
        ensures failed { OnErr result (CountRose self.old.faults self.new.faults) }
        ensures kept { OnErr result (self.new.written ≡ self.old.written) }
        ensures never_falls { self.old.faults ≤ self.new.faults }
        ensures count_fits { self.new.faults < 2 ^ 64 }

        // Which writes fail, how many bytes every other one takes, and what is counted.
        ensures full_or_listed { is_err result ≡
            ((free_room self.old == 0) || is_listed self.old.calls self.old.fails) }
        ensures taken { IfOk result (λ n. n ≡ min (length bytes.now) (free_room self.old)) }
        ensures room { self.new.room ≡ self.old.room }
        ensures calls { self.new.calls ≡ next_count self.old.calls }
        ensures fails { self.new.fails ≡ self.old.fails }
        ensures faults { self.new.faults ≡ counted (is_err result) self.old.faults }
    {
        let number = self.calls;
        self.calls = number.saturating_add(1);
        let free = self.room - self.bytes.len();
        if free == 0 || contains_number(&self.fails, number) {
            self.faults = self.faults.saturating_add(1);
            return Err(Failed);
        }
        let count = bytes.len().min(free);
        self.bytes.extend_from_slice(&bytes[..count]).unwrap();
        Ok(count)
    }
}
