//! Streams that fail or fill up in their midst.
use crate::runs::{Faults, NO_FAULTS, ROOM, SMALL_REPLAY, expect_end, ran};
use kw_app::fault::write_fault;
use kw_app::faultless::run_without_faults;
use kw_app::outcome::{Outcome, Status};
use kw_app::working::NoGate;
use kw_command::word::Word;
use kw_io::{MemSink, NeverSink, NeverSource};
use std::alloc::Global;
use std::process::Abort;
use std::test::Fail;

const INPUT: &[u8] = b"put 5 50\nget 5\nsum 0 9\n";

/// The replies to its lines.
const REPLIES: &[u8] = b"ok\n50\n50\n";

/// Expects that this is what the run says on standard error.
fn expect_fault_line(
    rt: &impl Abort,
    alloc: Global,
    outcome: &Outcome,
    line: &[u8],
    case: usize,
) -> Result<(), Fail> {
    let mut sink = MemSink::new(alloc, ROOM, Vec::new(alloc))?;
    write_fault(outcome, &mut sink)?;
    assert_eq!(rt; sink.written(), line, "in case {case}");
    Ok(())
}

// A read that fails at once, one after the first piece, and one that is never made; a write that
// fails; and rooms of 0 to 9 bytes for a text of 9.
#[test]
fn a_fault_ends_the_run_with_its_status_and_a_prefix_of_the_text(
    rt: HostRuntime,
) -> Result<(), Fail> {
    let read_fault = (Status::ReadFault, 0, b"read fault\n".as_slice());
    let write_fault = b"write fault\n".as_slice();
    let done = (Status::Done, 9, b"".as_slice());
    let table: [(&[u32], &[u32], u32, (Status, usize, &[u8])); 14] = [
        (&[0], &[], ROOM, read_fault),
        (&[1], &[], ROOM, read_fault),
        (&[9], &[], ROOM, done),
        (&[], &[0], ROOM, (Status::WriteFault, 0, write_fault)),
        (&[], &[], 0, (Status::WriteFault, 0, write_fault)),
        (&[], &[], 1, (Status::WriteFault, 1, write_fault)),
        (&[], &[], 2, (Status::WriteFault, 2, write_fault)),
        (&[], &[], 3, (Status::WriteFault, 3, write_fault)),
        (&[], &[], 4, (Status::WriteFault, 4, write_fault)),
        (&[], &[], 5, (Status::WriteFault, 5, write_fault)),
        (&[], &[], 6, (Status::WriteFault, 6, write_fault)),
        (&[], &[], 7, (Status::WriteFault, 7, write_fault)),
        (&[], &[], 8, (Status::WriteFault, 8, write_fault)),
        (&[], &[], 9, done),
    ];
    for (case, (reads, writes, room, (status, count, line))) in table.into_iter().enumerate() {
        let faults = Faults {
            reads,
            writes,
            room,
        };
        let ended = ran(&rt, rt.alloc(), &SMALL_REPLAY, INPUT, faults)?;
        let text = REPLIES.get(..count).unwrap_or(REPLIES);
        expect_end(&rt, &ended, status, 0, text, case);
        let shown = matches!(status, Status::Done | Status::WriteFault);
        assert_eq!(rt; ended.outcome.front.is_some(), shown, "in case {case}");
        expect_fault_line(&rt, rt.alloc(), &ended.outcome, line, case)?;
    }
    Ok(())
}

// The keys are 100 to 123, and the value of each is the key less 90.
#[test]
fn workers_fill_a_sink_as_one_does(rt: HostRuntime) -> Result<(), Fail> {
    let mut input = String::new(rt.alloc());
    for key in 100..124_u32 {
        write!(input, "put {key} {}\n", key - 90)?;
    }
    input.push_str("wait\nsum 100 123\ncount 100 123\nlist 100 101\n")?;
    let words = ["replay", "--workers", "4", "--rows", "64"];
    let narrow = Faults {
        room: 10,
        ..NO_FAULTS
    };
    let cut = ran(&rt, rt.alloc(), &words, input.as_bytes(), narrow)?;
    expect_end(&rt, &cut, Status::WriteFault, 0, b"ok\nok\nok\no", 0);
    let whole = ran(&rt, rt.alloc(), &words, input.as_bytes(), NO_FAULTS)?;
    let mut text = String::new(rt.alloc());
    for _ in 0..24 {
        text.push_str("ok\n")?;
    }
    text.push_str("516\n24\n100=10 101=11\n")?;
    expect_end(&rt, &whole, Status::Done, 0, text.as_bytes(), 1);
    Ok(())
}

#[test]
fn streams_that_never_fail_end_a_run_with_all_done(rt: HostRuntime) -> Result<(), Fail> {
    let mut words = Vec::new(rt.alloc());
    for text in SMALL_REPLAY {
        words.push(Word::new(String::from_str(rt.alloc(), text)?))?;
    }
    let mut source = NeverSource::new(Vec::from_slice(rt.alloc(), INPUT)?);
    let mut sink = NeverSink::new(Vec::with_capacity(rt.alloc(), 4)?);
    let outcome = run_without_faults(&rt, rt.alloc(), &words, &mut source, &mut sink, &NoGate);
    assert_eq!(rt;
        (outcome.status, outcome.line, sink.kept()),
        (Status::Done, 0, b"ok\n5".as_slice())
    );
    Ok(())
}
