//! Sources of bytes, and reading one to its end.
ghost use Rattle.std.specs.Prelude.{◌≡◌, ◌+◌, ◌^◌, ◌<◌, ◌≤◌, ℕ, List, Option, length, take, IfOk, OnOk, OnErr, IfSome, IsErrOf};
ghost use Rattle.std.specs.Io.KnownBytes.{Consumes, IsAtEnd, Keeps};
ghost use Rattle.kw_io.specs.Bytes.{ConsumesSome};
ghost use Rattle.kw_model.specs.Counts.{CountRose};

use crate::errors::{Failed, ReadError};
use std::alloc::Global;

/// How many bytes [`read_all`] asks for at a time.
pub const PIECE: usize = 4096;

/// What bytes are read from.
///
/// A contract sees `left`, the bytes left to read where the source tells them, and `faults`, how
/// many reads failed so far: a count that never falls and stands still at 2^64 - 1.
pub trait Source {
    ghost left: { Self → Option (List ℕ) };

    ghost faults: { Self → ℕ };

    /// Reads up to `into.len()` bytes into the front of `into`, which is not empty, and gives their
    /// number. 0 is the end of input. `Failed` comes only where a fault was counted, and takes no
    /// byte.
    fn read(&mut self, into: &mut [u8]) -> Result<usize, Failed>
        requires { 0 < length into.old }
        ensures bound { IfOk result (λ n. n ≤ length into.new) }
        ensures taken { IfOk result (λ n.
            Consumes (left self.old) (left self.new) (take n into.new)) }
        ensures end { IfOk result (λ n. n ≡ 0 → IsAtEnd (left self.new)) }
        ensures failed { OnErr result (CountRose (faults self.old) (faults self.new)) }
        ensures kept { OnErr result (Keeps (left self.old) (left self.new)) }
        ensures never_falls { faults self.old ≤ faults self.new }
        ensures count_fits { faults self.new < 2 ^ 64 };
}

/// Reads a source to its end, in pieces of [`PIECE`] bytes, and gives all that came: at most
/// `limit` bytes.
///
/// `Fault` comes only where the source counted a fault in this call. `Long` comes where more than
/// `limit` bytes came; reading then stops with the piece that passed the limit. After an error the
/// bytes read so far are lost.
pub fn read_all<S: Source>(alloc: Global, source: &mut S, limit: u32) -> Result<Vec<u8>, ReadError>
    // Success: all that was left came, it keeps to the limit, and nothing is left.
    ensures all { IfOk result (λ bytes. IfSome (S.left source.old) (λ left. bytes.items ≡ left)) }
    ensures limit { IfOk result (λ bytes. length bytes.items ≤ limit) }
    ensures end { OnOk result (IsAtEnd (S.left source.new)) }

    // Too long: more was left than the limit, and at most a piece beyond the limit was taken.
    ensures long { IsErrOf result ReadError.Long →
        IfSome (S.left source.old) (λ left. limit < length left) }
    ensures stops { IsErrOf result ReadError.Long → ((bytes : List ℕ) ×
        Consumes (S.left source.old) (S.left source.new) bytes ×
        (limit < length bytes) × (length bytes ≤ limit + PIECE)) }

    ensures fault { IsErrOf result ReadError.Fault →
        CountRose (S.faults source.old) (S.faults source.new) }
    ensures taken { OnErr result (ConsumesSome (S.left source.old) (S.left source.new)) }
    ensures never_falls { S.faults source.old ≤ S.faults source.new }
    ensures count_fits { S.faults source.new < 2 ^ 64 }
{
    let most = limit as usize;
    let mut bytes = Vec::new(alloc);
    let mut piece = [0u8; PIECE];
    loop {
        let count = source.read(&mut piece)?;
        if count == 0 {
            return Ok(bytes);
        }
        if count > most - bytes.len() {
            return Err(ReadError::Long);
        }
        bytes.extend_from_slice(&piece[..count])?;
    }
}
