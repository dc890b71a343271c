//! Connections over TCP.
//!
//! This is the trusted edge. Nothing is known of the bytes that a connection gives or takes; what
//! is proved is that a failure is counted, and that nothing else is. A client may be slow, silent
//! or gone: a read that waits too long and a write that waits too long are failures, so that no
//! client holds a seat for ever.
ghost use Rattle.std.specs.Prelude.{◌≡◌, ◌-◌, ◌^◌, ◌<◌, ◌≤◌, length, All, IfOk, OnErr, is_err, vec_len};
ghost use Rattle.kw_io.specs.Counts.{counted};
ghost use Rattle.kw_model.specs.Counts.{CountRose};
ghost use Rattle.kiwid.specs.Links.{IsNew};
ghost use Rattle.kiwid.specs.Tcp.{untold};

use crate::binding::{BindEnd, Binder};
use crate::links::{Link, Listener};
use kw_io::{Failed, PIECE, Sink, Source, read_counted, write_counted};
use std::alloc::Global;
use std::io;
use std::io::{ErrorKind, Read, Write};
use std::marker::Model;
use std::net::{Net, Shutdown, TcpListener, TcpStream};
use std::time::Duration;

/// The one address that is bound: that of the machine itself.
const ADDRESS: &str = "127.0.0.1";

/// How many seconds a read may wait.
const READ_SECONDS: u64 = 300;

/// How many seconds a write may wait.
const WRITE_SECONDS: u64 = 10;

/// How many milliseconds a read of a connection that is being closed may wait.
const CLOSING_MILLIS: u64 = 50;

/// How many pieces are read of a connection that is being closed.
const CLOSING_PIECES: u32 = 64;

/// How often a call that was cut short, or whose client is gone already, is tried again.
const MOST_TRIES: u32 = 1000;

/// A connection whose calls are tried again where a signal cut them short, as after a stop of the
/// process.
#[derive(Drop)]
struct Steady(TcpStream);

impl Read for Steady {
    fn read(&mut self, buf: &mut [u8]) -> io::Result<usize> {
        for _ in 0..MOST_TRIES {
            match self.0.read(buf) {
                Err(error) if error.kind() == ErrorKind::Interrupted => {}
                ended => return ended,
            }
        }
        Err(io::Error::from(ErrorKind::Interrupted))
    }
}

impl Write for Steady {
    fn write(&mut self, buf: &[u8]) -> io::Result<usize> {
        for _ in 0..MOST_TRIES {
            match self.0.write(buf) {
                Err(error) if error.kind() == ErrorKind::Interrupted => {}
                ended => return ended,
            }
        }
        Err(io::Error::from(ErrorKind::Interrupted))
    }

    fn flush(&mut self) -> io::Result<()> {
        Ok(())
    }
}

/// What comes from a client. Contracts see it as its count of faults.
#[derive(Drop)]
pub struct TcpInput {
    stream: Steady,
    faults: u64,
}

impl Model for TcpInput {
    ghost use Rattle.std.specs.Prelude.{ℕ};

    ghost Value = { ℕ };

    ghost view = { λ s. s.faults };
}

impl Source for TcpInput {
    ghost use Rattle.std.specs.Prelude.{None};

    ghost left = { λ _. None };

    ghost faults = { λ count. count };

    /// An error is counted, and nothing else is.
    fn read(&mut self, into: &mut [u8]) -> Result<usize, Failed>
        requires { 0 < length into.old }
        ensures bound { IfOk result (λ n. n ≤ length into.new) }
        ensures failed { OnErr result (CountRose self.old self.new) }
        ensures faults { self.new ≡ counted (is_err result) self.old }
        ensures never_falls { self.old ≤ self.new }
        ensures count_fits { self.new < 2 ^ 64 }
    {
        read_counted(&mut self.stream, into, &mut self.faults)
    }
}

/// What goes to a client. Contracts see it as its count of faults.
#[derive(Drop)]
pub struct TcpOutput {
    stream: Steady,
    faults: u64,
}

impl Model for TcpOutput {
    ghost use Rattle.std.specs.Prelude.{ℕ};

    ghost Value = { ℕ };

    ghost view = { λ s. s.faults };
}

impl Sink for TcpOutput {
    ghost use Rattle.std.specs.Prelude.{None};

    ghost written = { λ _. None };

    ghost faults = { λ count. count };

    /// An error is counted, and so is a write that took no byte; nothing else is.
    fn write(&mut self, bytes: &[u8]) -> Result<usize, Failed>
        requires { 0 < length bytes.now }
        ensures some { IfOk result (λ n. 0 < n) }
        ensures bound { IfOk result (λ n. n ≤ length bytes.now) }
        ensures failed { OnErr result (CountRose self.old self.new) }
        ensures faults { self.new ≡ counted (is_err result) self.old }
        ensures never_falls { self.old ≤ self.new }
        ensures count_fits { self.new < 2 ^ 64 }
    {
        write_counted(&mut self.stream, bytes, &mut self.faults)
    }
}

/// The connections of a bound port, as one seat accepts them. It tells no links; contracts see its
/// count of faults and how many links are out.
#[derive(Drop)]
pub struct TcpLinks {
    listener: TcpListener,
    out: u64,
    faults: u64,
}

impl Model for TcpLinks {
    ghost use Rattle.kiwid.specs.Tcp.{TcpState};

    ghost Value = { TcpState };

    ghost view = { λ s. record { faults = s.faults; out = s.out } };
}

impl TcpLinks {
    /// No connection was accepted yet.
    fn new(listener: TcpListener) -> TcpLinks
        ensures { result ≡ record { faults = 0; out = 0 } }
    {
        TcpLinks {
            listener,
            out: 0,
            faults: 0,
        }
    }
}

impl Listener for TcpLinks {
    type In = TcpInput;

    type Out = TcpOutput;

    ghost use Rattle.kiwid.specs.Tcp.{untold};

    ghost state = { λ s. untold s };

    /// Waits for a client. An error is counted, but for that of a client that is gone already: then
    /// the next one is accepted.
    fn accept(&mut self) -> Result<Link<TcpInput, TcpOutput>, Failed> {
        let before = self.faults;
        match (self.out.checked_add(1), next_ends(&self.listener)) {
            (Some(out), Ok((input, output))) => {
                self.out = out;
                Ok(Link {
                    input: TcpInput {
                        stream: Steady(input),
                        faults: 0,
                    },
                    output: TcpOutput {
                        stream: Steady(output),
                        faults: 0,
                    },
                })
            }
            _ => {
                self.faults = before.saturating_add(1);
                Err(Failed)
            }
        }
    }

    /// Tells the client that no more comes, reads on for a short while, and drops the connection.
    fn close(&mut self, link: Link<TcpInput, TcpOutput>)
        requires { 0 < self.old.out }
        ensures { self.new ≡ record { faults = self.old.faults; out = self.old.out - 1 } }
    {
        self.out -= 1;
        let Link { input, .. } = link;
        let TcpInput { stream, .. } = input;
        let Steady(mut stream) = stream;
        hang_up(&mut stream);
    }
}

/// The two ends of the next connection: the stream, and another handle of it.
fn next_ends(listener: &TcpListener) -> io::Result<(TcpStream, TcpStream)> {
    for _ in 0..MOST_TRIES {
        match accepted(listener) {
            Err(error) if is_of_a_client(error.kind()) => {}
            ended => return ended,
        }
    }
    Err(io::Error::from(ErrorKind::ConnectionAborted))
}

/// Whether the error is one of a client that is gone, or of a signal.
fn is_of_a_client(kind: ErrorKind) -> bool {
    matches!(
        kind,
        ErrorKind::ConnectionAborted
            | ErrorKind::ConnectionReset
            | ErrorKind::Interrupted
            | ErrorKind::NotConnected
    )
}

/// One connection, whose replies are sent at once, and whose reads and writes wait so long at most.
fn accepted(listener: &TcpListener) -> io::Result<(TcpStream, TcpStream)> {
    let (stream, _) = listener.accept()?;
    stream.set_nodelay(true)?;
    stream.set_read_timeout(Some(Duration::from_secs(READ_SECONDS)))?;
    stream.set_write_timeout(Some(Duration::from_secs(WRITE_SECONDS)))?;
    let other = stream.try_clone()?;
    Ok((stream, other))
}

/// Ends a connection so that the client gets what was written: where bytes of it were not read, the
/// system may else take back what it has not sent yet.
fn hang_up(stream: &mut TcpStream) {
    if stream.shutdown(Shutdown::Write).is_err() {
        return;
    }
    let wait = Duration::from_millis(CLOSING_MILLIS);
    if stream.set_read_timeout(Some(wait)).is_err() {
        return;
    }
    let mut piece = [0u8; PIECE];
    for _ in 0..CLOSING_PIECES {
        match stream.read(&mut piece) {
            Ok(count) if count > 0 => {}
            _ => return,
        }
    }
}

/// Binds ports of the machine itself. Contracts see its count of faults.
#[derive(Drop)]
pub struct TcpBinder<'r, R> {
    rt: &'r R,
    alloc: Global,
    faults: u64,
}

impl<'r, R> TcpBinder<'r, R> {
    /// Nothing is bound yet.
    pub fn new(rt: &'r R, alloc: Global) -> TcpBinder<'r, R>
        ensures { result.faults ≡ 0 }
    {
        TcpBinder {
            rt,
            alloc,
            faults: 0,
        }
    }
}

impl<'r, R: Net<Listener = TcpListener, Stream = TcpStream>> Binder for TcpBinder<'r, R> {
    type Bound = TcpLinks;

    ghost faults = { λ s. s.faults };

    /// An error of the system's is counted, and nothing else is.
    fn bind(&mut self, port: u16, seats: u32) -> Result<Vec<TcpLinks>, BindEnd> {
        let before = self.faults;
        let Ok(listener) = TcpListener::bind(self.rt, (ADDRESS, port)) else {
            self.faults = before.saturating_add(1);
            return Err(BindEnd::Failed);
        };
        let bound = shared(self.alloc, &listener, seats);
        if let Err(BindEnd::Failed) = bound {
            self.faults = before.saturating_add(1);
        }
        bound
    }
}

/// So many handles of a bound port.
fn shared(alloc: Global, listener: &TcpListener, seats: u32) -> Result<Vec<TcpLinks>, BindEnd>
    ensures len { IfOk result (λ bound. vec_len bound ≡ seats) }
    ensures new { IfOk result (λ bound. All (λ one. IsNew (untold one)) bound.items) }
{
    let mut bound = Vec::new(alloc);
    for _ in 0..seats {
        let Ok(own) = listener.try_clone() else {
            return Err(BindEnd::Failed);
        };
        if bound.push(TcpLinks::new(own)).is_err() {
            return Err(BindEnd::Memory);
        }
    }
    Ok(bound)
}
