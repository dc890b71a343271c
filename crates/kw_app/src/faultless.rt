//! A run on streams that never fail.
//!
//! That a read or a write failed is told only where the count of the source or of the sink rose.
//! Here both are known to stand still.
ghost use Rattle.std.specs.Prelude.{◌≢◌};

use crate::outcome::{Outcome, Status};
use crate::run::run;
use crate::working::Gate;
use kw_command::word::Word;
use kw_io::{NeverSink, NeverSource};
use std::alloc::Global;
use std::sync::Wait;
use std::thread::Threads;

/// Runs the command of these words on bytes in memory, and keeps as much of the text as the sink
/// has room for.
pub fn run_without_faults<R: Threads + Wait + Sync, G: Gate + Sync>(
    rt: &R,
    alloc: Global,
    words: &[Word],
    source: &mut NeverSource,
    sink: &mut NeverSink,
    gate: &G,
) -> Outcome
    ensures no_read_fault { result.status ≢ Status.ReadFault }
    ensures no_write_fault { result.status ≢ Status.WriteFault }
{
    run(rt, alloc, words, source, sink, gate)
}
