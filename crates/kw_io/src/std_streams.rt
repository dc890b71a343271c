//! The process's own streams: standard input, standard output and standard error.
//!
//! This is the trusted edge. Nothing is known of the bytes that these streams give or take; what is
//! proved is that a failure is counted and that nothing else is.
ghost use Rattle.std.specs.Prelude.{◌≡◌, ◌^◌, ◌<◌, ◌≤◌, length, IfOk, OnErr, is_err};
ghost use Rattle.std.specs.Io.KnownBytes.{ReadConsumes, WriteAppends};
ghost use Rattle.kw_io.specs.Counts.{counted};
ghost use Rattle.kw_model.specs.Counts.{CountRose};

use crate::errors::Failed;
use crate::reading::Source;
use crate::writing::Sink;
use std::io::{Read, Stderr, Stdin, Stdout, Write};
use std::marker::Model;

/// Standard input. Contracts see it as its count of faults, and know nothing of its bytes.
#[derive(Drop)]
pub struct StdSource {
    stdin: Stdin,
    faults: u64,
}

/// Standard output or standard error. Contracts see it as its count of faults, and know nothing of
/// its bytes.
#[derive(Drop)]
pub struct StdSink<W> {
    device: W,
    faults: u64,
}

impl Model for StdSource {
    ghost use Rattle.std.specs.Prelude.{ℕ};

    ghost Value = { ℕ };

    ghost view = { λ s. s.faults };
}

impl<W> Model for StdSink<W> {
    ghost use Rattle.std.specs.Prelude.{ℕ};

    ghost Value = { ℕ };

    ghost view = { λ s. s.faults };
}

impl StdSource {
    /// Standard input, with no fault counted. Each read is one read of the system's, with no buffer
    /// between.
    pub fn new(rt: &HostRuntime) -> StdSource
        ensures { result ≡ 0 }
    {
        StdSource {
            stdin: rt.stdin(),
            faults: 0,
        }
    }
}

impl StdSink<Stdout> {
    /// Standard output, with no fault counted. Each write is one write of the system's, with no
    /// buffer between.
    pub fn output(rt: &HostRuntime) -> StdSink<Stdout>
        ensures { result ≡ 0 }
    {
        StdSink {
            device: rt.stdout(),
            faults: 0,
        }
    }
}

impl StdSink<Stderr> {
    /// Standard error, with no fault counted. Each write is one write of the system's, with no
    /// buffer between.
    pub fn errors(rt: &HostRuntime) -> StdSink<Stderr>
        ensures { result ≡ 0 }
    {
        StdSink {
            device: rt.stderr(),
            faults: 0,
        }
    }
}

impl Source for StdSource {
    ghost use Rattle.std.specs.Prelude.{None};

    ghost left = { λ _. None };

    ghost faults = { λ count. count };

    /// One read of the system's. An error is counted, and nothing else is.
    fn read(&mut self, into: &mut [u8]) -> Result<usize, Failed>
        requires { 0 < length into.old }
        ensures bound { IfOk result (λ n. n ≤ length into.new) }
        ensures failed { OnErr result (CountRose self.old self.new) }
        ensures faults { self.new ≡ counted (is_err result) self.old }
        ensures never_falls { self.old ≤ self.new }
        ensures count_fits { self.new < 2 ^ 64 }
    {
        read_counted(&mut self.stdin, into, &mut self.faults)
    }
}

impl<W: Write> Sink for StdSink<W> {
    ghost use Rattle.std.specs.Prelude.{None};

    ghost written = { λ _. None };

    ghost faults = { λ count. count };

    /// One write of the system's. An error is counted, and so is a write that took no byte; nothing
    /// else is.
    fn write(&mut self, bytes: &[u8]) -> Result<usize, Failed>
        requires { 0 < length bytes.now }
        ensures some { IfOk result (λ n. 0 < n) }
        ensures bound { IfOk result (λ n. n ≤ length bytes.now) }
        ensures failed { OnErr result (CountRose self.old self.new) }
        ensures faults { self.new ≡ counted (is_err result) self.old }
        ensures never_falls { self.old ≤ self.new }
        ensures count_fits { self.new < 2 ^ 64 }
    {
        write_counted(&mut self.device, bytes, &mut self.faults)
    }
}

/// One read from a device. An error of the device is counted, and takes none of its bytes.
pub fn read_counted<R: Read>(
    device: &mut R,
    into: &mut [u8],
    faults: &mut u64,
) -> Result<usize, Failed>
    ensures bound { IfOk result (λ n. n ≤ length into.new) }
    ensures bytes { ReadConsumes (R.remaining device.old) (R.remaining device.new) result into.new }
    ensures faults { faults.new ≡ counted (is_err result) faults.old }
    ensures never_falls { faults.old ≤ faults.new }
    ensures count_fits { faults.new < 2 ^ 64 }
{
    let before = *faults;
    match device.read(into) {
        Ok(count) => Ok(count),
        Err(_) => {
            *faults = before.saturating_add(1);
            Err(Failed)
        }
    }
}

/// One write to a device, of bytes of which there is at least one. An error of the device is
/// counted, and so is a write that took no byte.
pub fn write_counted<W: Write>(
    device: &mut W,
    bytes: &[u8],
    faults: &mut u64,
) -> Result<usize, Failed>
    ensures some { IfOk result (λ n. 0 < n) }
    ensures bound { IfOk result (λ n. n ≤ length bytes.now) }
    ensures bytes { WriteAppends (W.contents device.old) (W.contents device.new) result bytes.now }
    ensures faults { faults.new ≡ counted (is_err result) faults.old }
    ensures never_falls { faults.old ≤ faults.new }
    ensures count_fits { faults.new < 2 ^ 64 }
{
    let before = *faults;
    match device.write(bytes) {
        Ok(count) if count > 0 => Ok(count),
        _ => {
            *faults = before.saturating_add(1);
            Err(Failed)
        }
    }
}
