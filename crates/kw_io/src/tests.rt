//! What no clause says: that calls succeed with ample memory, that a fault in mid-stream is handed
//! on, and the errors' texts.
use crate::std_streams::{read_counted, write_counted};
use crate::{
    Failed, MemSink, MemSource, NeverSink, NeverSource, PIECE, ReadError, Sink, Source, WriteFault,
    read_all, write_all,
};
use std::alloc::{AllocError, Global};
use std::io;
use std::io::{ErrorKind, Read, Write};
use std::process::Abort;
use std::test::Fail;

/// Enough for every input here.
const AMPLE: u32 = 1000;

fn source(alloc: Global, text: &[u8], fails: &[u32]) -> Result<MemSource, AllocError> {
    Ok(MemSource::new(
        Vec::from_slice(alloc, text)?,
        Vec::from_slice(alloc, fails)?,
    ))
}

// expects these bytes of all that a source has left, or this error
fn expect_all(
    rt: &impl Abort,
    alloc: Global,
    source: &mut MemSource,
    limit: u32,
    want: Result<&[u8], ReadError>,
) {
    let read = read_all(alloc, source, limit);
    let found = match &read {
        Ok(bytes) => Ok(bytes.as_slice()),
        Err(error) => Err(*error),
    };
    assert_eq!(rt; found, want, "with a limit of {limit}");
}

#[test]
fn the_length_of_a_piece(rt: HostRuntime) {
    assert_eq!(rt; PIECE, 4096);
}

#[test]
fn a_failed_read_takes_nothing(rt: HostRuntime) -> Result<(), Fail> {
    let mut source = source(rt.alloc(), b"get 5\n", &[0, 2])?;
    expect_all(&rt, rt.alloc(), &mut source, AMPLE, Err(ReadError::Fault));
    let mut piece = [0u8; 4];
    let first = source.read(&mut piece);
    let given = piece;
    let second = source.read(&mut piece);
    assert_eq!(rt; (first, given, second), (Ok(4), *b"get ", Err(Failed)));
    expect_all(&rt, rt.alloc(), &mut source, AMPLE, Ok(b"5\n"));
    Ok(())
}

#[test]
fn a_fault_after_the_last_byte_is_a_fault(rt: HostRuntime) -> Result<(), Fail> {
    let mut source = source(rt.alloc(), b"get 5\n", &[1])?;
    expect_all(&rt, rt.alloc(), &mut source, AMPLE, Err(ReadError::Fault));
    expect_all(&rt, rt.alloc(), &mut source, AMPLE, Ok(b""));
    Ok(())
}

#[test]
fn the_limit_itself_is_not_too_long(rt: HostRuntime) -> Result<(), Fail> {
    let text = vec![in rt.alloc(); 7u8; 5000]?;
    for (text, limit, want) in [
        (text.as_slice(), 5000, Ok(text.as_slice())),
        (text.as_slice(), 4999, Err(ReadError::Long)),
        (b"", 0, Ok(b"")),
    ] {
        let mut source = source(rt.alloc(), text, &[])?;
        expect_all(&rt, rt.alloc(), &mut source, limit, want);
    }
    Ok(())
}

#[test]
fn a_full_sink_holds_a_prefix(rt: HostRuntime) -> Result<(), Fail> {
    let mut sink = MemSink::new(rt.alloc(), 4, Vec::new(rt.alloc()))?;
    let write = write_all(&mut sink, b"ok\n50\n50\n");
    assert_eq!(rt;
        (write, sink.written()),
        (Err(WriteFault), b"ok\n5".as_slice())
    );
    Ok(())
}

#[test]
fn a_failed_write_can_be_tried_again(rt: HostRuntime) -> Result<(), Fail> {
    let fails = Vec::from_slice(rt.alloc(), &[1u32])?;
    let mut sink = MemSink::new(rt.alloc(), 10, fails)?;
    write_all(&mut sink, b"ok\n")?;
    let failed = sink.write(b"50\n");
    write_all(&mut sink, b"50\n")?;
    assert_eq!(rt;
        (failed, sink.written()),
        (Err(Failed), b"ok\n50\n".as_slice())
    );
    Ok(())
}

#[test]
fn streams_that_never_fail_take_all_and_keep_what_fits(rt: HostRuntime) -> Result<(), Fail> {
    let mut source = NeverSource::new(Vec::from_slice(rt.alloc(), b"ok\n50\n50\n")?);
    let mut first = [0u8; 4];
    let count = source.read(&mut first);
    assert_eq!(rt; (count, first), (Ok(4), *b"ok\n5"));
    let rest = read_all(rt.alloc(), &mut source, AMPLE)?;
    let at_end = source.read(&mut first);
    assert_eq!(rt; (rest.as_slice(), at_end), (b"0\n50\n".as_slice(), Ok(0)));
    let mut room = Vec::with_capacity(rt.alloc(), 6)?;
    room.push(7u8)?;
    let mut sink = NeverSink::new(room);
    let long = b"ok\n50\n50\n";
    let written = [
        sink.write(&long[..4]),
        sink.write(&long[4..]),
        sink.write(long),
    ];
    assert_eq!(rt; written, [Ok(4), Ok(5), Ok(9)]);
    assert_eq!(rt; sink.kept(), b"ok\n50\n".as_slice());
    Ok(())
}

/// A device that fails at each read, and takes nothing at a write.
#[derive(Drop)]
struct Broken;

impl Read for Broken {
    fn read(&mut self, _into: &mut [u8]) -> io::Result<usize> {
        Err(io::Error::from(ErrorKind::BrokenPipe))
    }
}

impl Write for Broken {
    fn write(&mut self, _bytes: &[u8]) -> io::Result<usize> {
        Ok(0)
    }

    fn flush(&mut self) -> io::Result<()> {
        Ok(())
    }
}

#[test]
fn a_broken_device_is_counted(rt: HostRuntime) {
    let mut faults = u64::MAX - 2;
    let read = read_counted(&mut Broken, &mut [0u8; 4], &mut faults);
    let after_read = faults;
    let moved = [
        read,
        write_counted(&mut Broken, b"ok\n", &mut faults),
        write_counted(&mut Broken, b"ok\n", &mut faults),
    ];
    assert_eq!(rt;
        (moved, after_read, faults),
        ([Err(Failed); 3], u64::MAX - 1, u64::MAX)
    );
}

#[test]
fn a_sound_device_moves_bytes_and_counts_nothing(rt: HostRuntime) -> Result<(), Fail> {
    let mut faults = 7;
    let mut device = b"get 5\n".as_slice();
    let mut piece = [0u8; 4];
    let first = read_counted(&mut device, &mut piece, &mut faults);
    let given = piece;
    let mut written = Vec::new(rt.alloc());
    let moved = [
        first,
        read_counted(&mut device, &mut piece, &mut faults),
        read_counted(&mut device, &mut piece, &mut faults),
        write_counted(&mut written, b"ok\n", &mut faults),
    ];
    assert_eq!(rt; (moved, faults), ([Ok(4), Ok(2), Ok(0), Ok(3)], 7));
    assert_eq!(rt; (given, written.as_slice()), (*b"get ", b"ok\n".as_slice()));
    Ok(())
}

#[test]
fn errors_have_texts(rt: HostRuntime) -> Result<(), Fail> {
    let texts = format!(in rt.alloc();
        "{}, {}, {}, {}, {}",
        Failed,
        WriteFault,
        ReadError::Fault,
        ReadError::Long,
        ReadError::Memory
    )?;
    let wanted = "the stream failed, write fault, read fault, input too long, out of memory";
    assert_eq!(rt; texts.as_str(), wanted);
    Ok(())
}
