//! The two ends of a connection whose second line comes late: only once another connection has its
//! first reply.
ghost use Rattle.std.specs.Prelude.{◌≡◌};

use kw_io::{Failed, MemSink, Sink, Source};
use kw_model::memory::Memory;
use std::alloc::Global;
use std::sync::atomic::{AtomicBool, Ordering};
use std::thread;

/// How many turns a source waits before it fails.
const TURNS: u32 = 1_000_000;

/// Two lines, of which the second is given only once the flag is set. Contracts know nothing of
/// them.
#[derive(Drop)]
pub(crate) struct Held<'f> {
    lines: [&'static [u8]; 2],
    given: usize,
    flag: &'f AtomicBool,
    faults: u64,
}

impl<'f> Held<'f> {
    /// Each line fits a read of a session.
    pub(crate) fn new(lines: [&'static [u8]; 2], flag: &'f AtomicBool) -> Held<'f> {
        Held {
            lines,
            given: 0,
            flag,
            faults: 0,
        }
    }
}

/// Whether the flag was set in time.
fn is_set_in_time(flag: &AtomicBool) -> bool {
    for _ in 0..TURNS {
        if flag.load(Ordering::SeqCst) {
            return true;
        }
        thread::yield_now();
    }
    false
}

impl<'f> Source for Held<'f> {
    ghost use Rattle.std.specs.Prelude.{None};

    ghost left = { λ _. None };

    ghost faults = { λ s. s.faults };

    /// Fails, and is counted, where the second line is asked for and the flag is not set in time.
    fn read(&mut self, into: &mut [u8]) -> Result<usize, Failed> {
        let before = self.faults;
        if self.given == 1 && !is_set_in_time(self.flag) {
            self.faults = before.saturating_add(1);
            return Err(Failed);
        }
        if self.given >= self.lines.len() {
            return Ok(0);
        }
        let line = self.lines[self.given];
        let count = into.len().min(line.len());
        into[..count].copy_from_slice(&line[..count]);
        self.given += 1;
        Ok(count)
    }
}

/// A sink into memory that sets a flag at each write.
#[derive(Drop)]
pub(crate) struct Telling<'f> {
    pub(crate) sink: MemSink,
    flag: &'f AtomicBool,
}

impl<'f> Telling<'f> {
    /// With room for this many bytes.
    pub(crate) fn new(
        alloc: Global,
        room: u32,
        flag: &'f AtomicBool,
    ) -> Result<Telling<'f>, Memory> {
        let sink = MemSink::new(alloc, room, Vec::new(alloc))?;
        Ok(Telling { sink, flag })
    }
}

impl<'f> Sink for Telling<'f> {
    ghost use Rattle.std.specs.Prelude.{None};

    ghost written = { λ _. None };

    ghost faults = { λ s. s.sink.faults };

    fn write(&mut self, bytes: &[u8]) -> Result<usize, Failed> {
        let count = self.sink.write(bytes)?;
        self.flag.store(true, Ordering::SeqCst);
        Ok(count)
    }
}
