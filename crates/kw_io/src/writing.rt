//! Sinks of bytes, and writing a whole text to one.
ghost use Rattle.std.specs.Prelude.{◌≡◌, ◌^◌, ◌<◌, ◌≤◌, ℕ, List, Option, length, take, IfOk, OnOk, OnErr};
ghost use Rattle.std.specs.Io.KnownBytes.{Appends, Keeps};
ghost use Rattle.kw_io.specs.Bytes.{AppendsPrefix};
ghost use Rattle.kw_model.specs.Counts.{CountRose};

use crate::errors::{Failed, WriteFault};

/// What bytes are written to.
///
/// A contract sees `written`, the bytes written so far where the sink tells them, and `faults`, how
/// many writes failed so far: a count that never falls and stands still at 2^64 - 1.
pub trait Sink {
    ghost written: { Self → Option (List ℕ) };

    ghost faults: { Self → ℕ };

    /// Writes the first bytes of `bytes`, which is not empty, and gives their number, which is
    /// never 0. `Failed` comes only where a fault was counted, and writes no byte.
    fn write(&mut self, bytes: &[u8]) -> Result<usize, Failed>
        requires { 0 < length bytes.now }
        ensures some { IfOk result (λ n. 0 < n) }
        ensures bound { IfOk result (λ n. n ≤ length bytes.now) }
        ensures appended { IfOk result (λ n.
            Appends (written self.old) (written self.new) (take n bytes.now)) }
        ensures failed { OnErr result (CountRose (faults self.old) (faults self.new)) }
        ensures kept { OnErr result (Keeps (written self.old) (written self.new)) }
        ensures never_falls { faults self.old ≤ faults self.new }
        ensures count_fits { faults self.new < 2 ^ 64 };
}

/// Writes all of `bytes`, in as many pieces as the sink wants. It takes no memory.
///
/// `WriteFault` comes only where the sink counted a fault in this call; a prefix of `bytes` was
/// then written.
pub fn write_all<K: Sink>(sink: &mut K, bytes: &[u8]) -> Result<(), WriteFault>
    ensures all { OnOk result (Appends (K.written sink.old) (K.written sink.new) bytes.now) }
    ensures prefix { OnErr result
        (AppendsPrefix (K.written sink.old) (K.written sink.new) bytes.now) }
    ensures fault { OnErr result (CountRose (K.faults sink.old) (K.faults sink.new)) }
    ensures never_falls { K.faults sink.old ≤ K.faults sink.new }
{
    let mut done = 0;
    while done < bytes.len() {
        let count = sink.write(&bytes[done..])?;
        done += count;
    }
    Ok(())
}
