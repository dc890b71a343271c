//! A sink into memory that never fails, however little room there is.
ghost use Rattle.std.specs.Prelude.{◌≡◌, ◌-◌, ◌^◌, ◌<◌, ◌≤◌, length, take, [], ◌++◌, IfOk, IsOk, OnErr, vec_capacity};
ghost use Rattle.kw_model.specs.Counts.{CountRose};

use crate::errors::Failed;
use crate::writing::Sink;
use std::marker::Model;

/// Takes every byte, and keeps the first ones, as many as there is room for. No write fails.
///
/// Contracts see the bytes that it has kept and its room. Since it keeps only some, it does not
/// tell what was written. Its count of faults is always 0, so a caller who is told of a fault only
/// where the count rose is never told of one.
#[derive(Debug, Drop)]
pub struct NeverSink {
    bytes: Vec<u8>,
    room: usize,
}

impl Model for NeverSink {
    ghost use Rattle.std.specs.Prelude.{◌≤◌, length, vec_capacity};
    ghost use Rattle.kw_io.specs.Fakes.{KeptState};

    ghost Value = { KeptState };

    ghost view = { λ s. record { kept = s.bytes.items; room = s.room } };

    ghost invariant = { λ s. (length s.bytes.items ≤ s.room) × (s.room ≤ vec_capacity s.bytes) };
}

impl NeverSink {
    /// A sink that has kept nothing, with as much room as this vector's capacity; what the vector
    /// held is dropped.
    pub fn new(room: Vec<u8>) -> NeverSink
        ensures { result ≡ record { kept = []; room = vec_capacity room } }
    {
        let mut bytes = room;
        bytes.clear();
        let room = bytes.capacity();
        NeverSink { bytes, room }
    }

    /// The bytes that were kept.
    pub fn kept(&self) -> &[u8]
        ensures { result.now ≡ self.now.kept }
    {
        &self.bytes
    }
}

impl Sink for NeverSink {
    ghost use Rattle.std.specs.Prelude.{None};

    ghost written = { λ _. None };

    ghost faults = { λ _. 0 };

    /// Takes all of the bytes, and keeps as many as there is room for.
    fn write(&mut self, bytes: &[u8]) -> Result<usize, Failed>
        requires { 0 < length bytes.now }
        ensures some { IfOk result (λ n. 0 < n) }
        ensures bound { IfOk result (λ n. n ≤ length bytes.now) }
        ensures failed { OnErr result (CountRose 0 0) }

        // No write fails, each takes all, and what is kept are the first bytes of all that came.
        ensures succeeds { IsOk result }
        ensures all { IfOk result (λ n. n ≡ length bytes.now) }
        ensures kept { self.new.kept ≡ self.old.kept
            ++ take (self.old.room - length self.old.kept) bytes.now }
        ensures room { self.new.room ≡ self.old.room }
    {
        let free = self.room - self.bytes.len();
        let count = bytes.len().min(free);
        self.bytes.extend_from_slice(&bytes[..count]).unwrap();
        Ok(bytes.len())
    }
}
