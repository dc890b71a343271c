//! A source over bytes in memory that never fails.
ghost use Rattle.std.specs.Prelude.{◌≡◌, ◌^◌, ◌<◌, ◌≤◌, length, take, min, [], ◌++◌, IfOk, IsOk, OnErr};
ghost use Rattle.kw_model.specs.Counts.{CountRose};

use crate::errors::Failed;
use crate::reading::Source;
use std::marker::Model;

/// Bytes in memory, read from the front. No read fails.
///
/// Contracts see it as the bytes that are left. Its count of faults is always 0, so a caller who
/// is told of a fault only where the count rose is never told of one.
#[derive(Debug, Drop)]
pub struct NeverSource {
    bytes: Vec<u8>,
    at: usize,
}

impl Model for NeverSource {
    ghost use Rattle.std.specs.Prelude.{ℕ, List, ◌≤◌, length, drop};

    ghost Value = { List ℕ };

    ghost view = { λ s. drop s.at s.bytes.items };

    ghost invariant = { λ s. s.at ≤ length s.bytes.items };
}

impl NeverSource {
    /// A source of these bytes.
    pub fn new(bytes: Vec<u8>) -> NeverSource
        ensures { result ≡ bytes.items }
    {
        NeverSource { bytes, at: 0 }
    }
}

impl Source for NeverSource {
    ghost use Rattle.std.specs.Prelude.{Some};

    ghost left = { λ bytes. Some bytes };

    ghost faults = { λ _. 0 };

    /// Gives as many of the bytes left as fit.
    fn read(&mut self, into: &mut [u8]) -> Result<usize, Failed>
        requires { 0 < length into.old }
        ensures bound { IfOk result (λ n. n ≤ length into.new) }
        ensures taken { IfOk result (λ n. self.old ≡ take n into.new ++ self.new) }
        ensures end { IfOk result (λ n. n ≡ 0 → self.new ≡ []) }
        ensures failed { OnErr result (CountRose 0 0) }
        ensures kept { OnErr result (self.new ≡ self.old) }

        // No read fails, and each gives what fits.
        ensures succeeds { IsOk result }
        ensures given { IfOk result (λ n. n ≡ min (length into.old) (length self.old)) }
    {
        let rest = &self.bytes[self.at..];
        let count = into.len().min(rest.len());
        into[..count].copy_from_slice(&rest[..count]);
        self.at += count;
        Ok(count)
    }
}
