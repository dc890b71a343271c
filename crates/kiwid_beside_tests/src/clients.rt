//! Clients over TCP, beside a run of the server in one process.
ghost use Rattle.std.specs.Prelude.{◌≤◌, length};
ghost use Rattle.kiwid_beside_tests.specs.declared.clients.TheConstants.{LONGEST};

use kiwid::server::{Status, kiwid_run};
use kiwid::session::SessionEnd;
use kiwid::tcp::TcpBinder;
use kw_command::word::Word;
use std::io::{Read, Write};
use std::net::{Net, Shutdown, TcpListener, TcpStream};
use std::test::Fail;
use std::time::{Clock, Duration};
use std::{io, thread};

/// How often a client tries to connect, and how many milliseconds it waits between.
const MOST_TRIES: u32 = 10_000;

const WAIT_MILLIS: u64 = 1;

/// A port that nobody listens at.
fn free_port<R: Net<Listener = TcpListener, Stream = TcpStream>>(rt: &R) -> io::Result<u16> {
    Ok(
        TcpListener::bind(rt, ("127.0.0.1", 0))?
            .local_addr()?
            .port(),
    )
}

/// A connection to the port, once the server listens.
fn connected<R: Net<Listener = TcpListener, Stream = TcpStream> + Clock>(
    rt: &R,
    port: u16,
) -> io::Result<TcpStream> {
    for _ in 0..MOST_TRIES {
        if let Ok(stream) = TcpStream::connect(rt, ("127.0.0.1", port)) {
            return Ok(stream);
        }
        thread::sleep(rt, Duration::from_millis(WAIT_MILLIS));
    }
    TcpStream::connect(rt, ("127.0.0.1", port))
}

/// The longest reply here.
const LONGEST: usize = 16;

/// Whether the reply to the line is this one.
fn is_replied(stream: &mut TcpStream, line: &[u8], reply: &[u8]) -> io::Result<bool>
    requires { length reply.now ≤ LONGEST }
{
    let mut given = [0u8; LONGEST];
    let given = &mut given[..reply.len()];
    stream.write_all(line)?;
    stream.read_exact(given)?;
    Ok(&*given == reply)
}

/// Whether two clients that are connected at once are answered from one map.
fn are_answered<R: Net<Listener = TcpListener, Stream = TcpStream> + Clock>(
    rt: &R,
    port: u16,
) -> io::Result<bool> {
    let mut one = connected(rt, port)?;
    let mut other = connected(rt, port)?;
    let put = is_replied(&mut one, b"put 5 50\n", b"ok\n")?;
    let got = is_replied(&mut other, b"get 5\n", b"50\n")?;
    let bad = is_replied(&mut other, b"wait\n", b"bad line 2\n")?;
    // a last line without its line feed is asked once no more comes
    one.write_all(b"sum 0 9")?;
    one.shutdown(Shutdown::Write)?;
    let last = is_replied(&mut one, b"", b"50\n")?;
    Ok(put && got && bad && last)
}

#[test]
fn two_clients_are_answered_from_one_map(rt: HostRuntime) -> Result<(), Fail> {
    let alloc = rt.alloc();
    let port = free_port(&rt)?;
    let port_text = format!(in alloc; "{port}")?;
    let mut words = Vec::new(alloc);
    for text in [port_text.as_str(), "2", "1"] {
        words.push(Word::new(String::from_str(alloc, text)?))?;
    }
    let mut binder = TcpBinder::new(&rt, alloc);
    let (end, answered) = thread::join(
        &rt,
        || kiwid_run(&rt, alloc, &words, &mut binder),
        || are_answered(&rt, port).unwrap_or(false),
    );
    assert!(rt; answered);
    assert_eq!(rt; end.status, Status::Done);
    assert_eq!(rt; end.served.len(), 2);
    for ended in [SessionEnd::Ended, SessionEnd::Bad(2)] {
        let some = end
            .served
            .iter()
            .any(|done| done.ends.list() == [ended].as_slice());
        assert!(rt; some);
    }
    Ok(())
}
