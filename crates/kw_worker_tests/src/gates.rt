//! What a gate is told before and after each line, by which two workers wait for each other, and in
//! which blocks they are beside each other where no gate may hold one up.
use crate::runs::{expect_replies, replayed};
use kw_app::working::Gate;
use std::sync::atomic::{AtomicU64, Ordering};
use std::test::Fail;
use std::thread;

// How many turns a worker waits for the other one.
const TURNS: u32 = 1_000_000;

// The worker 0 before line 1 and the other before line 2 wait here for each other.
#[derive(Drop)]
struct Meeting {
    other: u32,
    first: AtomicU64,
    second: AtomicU64,
    met: AtomicU64,
}

impl Meeting {
    // of the workers 0 and 1
    fn new() -> Meeting {
        Meeting::with(1)
    }

    fn with(other: u32) -> Meeting {
        Meeting {
            other,
            first: AtomicU64::new(0),
            second: AtomicU64::new(0),
            met: AtomicU64::new(0),
        }
    }

    fn wait(&self, own: &AtomicU64, other: &AtomicU64) {
        own.store(1, Ordering::SeqCst);
        for _ in 0..TURNS {
            if other.load(Ordering::SeqCst) == 1 {
                self.met.fetch_add(1, Ordering::SeqCst);
                return;
            }
            thread::yield_now();
        }
    }
}

impl Gate for Meeting {
    fn before(&self, worker: u32, line: u32) {
        if worker == 0 && line == 1 {
            self.wait(&self.first, &self.second);
        } else if worker == self.other && line == 2 {
            self.wait(&self.second, &self.first);
        }
    }

    fn after(&self, _worker: u32, _line: u32) {}
}

#[test]
fn workers_run_beside_each_other(rt: HostRuntime) -> Result<(), Fail> {
    let gate = Meeting::new();
    let input = b"put 0 1\nput 1 1\n";
    let ended = replayed(&rt, rt.alloc(), "2", input, &gate)?;
    expect_replies(&rt, &ended, b"ok\nok\n");
    assert_eq!(rt; gate.met.load(Ordering::SeqCst), 2);
    Ok(())
}

#[test]
fn workers_run_beside_each_other_past_others_without_lines(rt: HostRuntime) -> Result<(), Fail> {
    let gate = Meeting::with(3);
    let input = b"put 0 1\nput 3 1\nwait\nget 3\nwait\nget 1\n";
    let ended = replayed(&rt, rt.alloc(), "5", input, &gate)?;
    expect_replies(&rt, &ended, b"ok\nok\n1\nnone\n");
    assert_eq!(rt; gate.met.load(Ordering::SeqCst), 2);
    Ok(())
}

// Worker 0 is held up before line 1 until worker 1 has answered line 3, and worker 1 before line 2
// until worker 0 is held up.
#[derive(Drop)]
struct HoldUp {
    held: AtomicU64,
    answered: AtomicU64,
    ended: AtomicU64,
    given_up: AtomicU64,
}

impl HoldUp {
    fn new() -> HoldUp {
        HoldUp {
            held: AtomicU64::new(0),
            answered: AtomicU64::new(0),
            ended: AtomicU64::new(0),
            given_up: AtomicU64::new(0),
        }
    }

    fn wait(&self, other: &AtomicU64) {
        for _ in 0..TURNS {
            if other.load(Ordering::SeqCst) == 1 {
                return;
            }
            thread::yield_now();
        }
        self.given_up.fetch_add(1, Ordering::SeqCst);
    }
}

impl Gate for HoldUp {
    fn before(&self, worker: u32, line: u32) {
        match (worker, line) {
            (0, 1) => {
                self.held.store(1, Ordering::SeqCst);
                self.wait(&self.answered);
            }
            (1, 2) => self.wait(&self.held),
            _ => {}
        }
    }

    fn after(&self, worker: u32, line: u32) {
        match (worker, line) {
            (0, 1) => self.ended.store(1, Ordering::SeqCst),
            (1, 3) => self.answered.store(1, Ordering::SeqCst),
            _ => {}
        }
    }
}

#[test]
fn a_gate_is_told_before_a_line_is_asked_and_after_it_is_answered(
    rt: HostRuntime,
) -> Result<(), Fail> {
    let gate = HoldUp::new();
    let input = b"put 0 5\nget 1\nsum 0 9\n";
    let ended = replayed(&rt, rt.alloc(), "2", input, &gate)?;
    // The sum is asked while the put is still held up, so it sees nothing.
    expect_replies(&rt, &ended, b"ok\nnone\n0\n");
    assert_eq!(rt; gate.given_up.load(Ordering::SeqCst), 0);
    assert_eq!(rt; gate.ended.load(Ordering::SeqCst), 1);
    Ok(())
}

// Holds nobody up, but for what another gate does that it tells of each line.
#[derive(Drop)]
struct Unasked<G> {
    told: G,
}

impl<G: Gate> Gate for Unasked<G> {
    fn before(&self, worker: u32, line: u32) {
        self.told.before(worker, line);
    }

    fn after(&self, worker: u32, line: u32) {
        self.told.after(worker, line);
    }

    fn holds_up(&self) -> bool {
        false
    }
}

// The lines that were begun, as the digits of a number.
#[derive(Drop)]
struct Begun {
    lines: AtomicU64,
}

impl Gate for Begun {
    fn before(&self, _worker: u32, line: u32) {
        let begun = self.lines.load(Ordering::SeqCst);
        self.lines.store(
            begun.wrapping_mul(10).wrapping_add(u64::from(line)),
            Ordering::SeqCst,
        );
    }

    fn after(&self, _worker: u32, _line: u32) {}
}

// Worker 0 has the lines 1, 3 and 6, and worker 1 the lines 2, 4 and 7.
#[test]
fn few_lines_are_answered_by_one_worker_after_the_other(rt: HostRuntime) -> Result<(), Fail> {
    let gate = Unasked {
        told: Begun {
            lines: AtomicU64::new(0),
        },
    };
    let input = b"put 0 1\nput 1 2\nget 0\nget 1\nwait\nget 2\nget 3\n";
    let ended = replayed(&rt, rt.alloc(), "2", input, &gate)?;
    expect_replies(&rt, &ended, b"ok\nok\n1\n2\nnone\nnone\n");
    assert_eq!(rt; gate.told.lines.load(Ordering::SeqCst), 132467);
    Ok(())
}

// 128 lines of each of two workers, which wait for each other before lines 1 and 2
#[test]
fn workers_that_have_many_lines_run_beside_each_other(rt: HostRuntime) -> Result<(), Fail> {
    let gate = Unasked {
        told: Meeting::new(),
    };
    let mut input = Vec::new(rt.alloc());
    let mut printed = Vec::new(rt.alloc());
    for _ in 0..128 {
        input.extend_from_slice(b"put 0 1\nput 1 1\n")?;
        printed.extend_from_slice(b"ok\nok\n")?;
    }
    let ended = replayed(&rt, rt.alloc(), "2", &input, &gate)?;
    expect_replies(&rt, &ended, &printed);
    assert_eq!(rt; gate.told.met.load(Ordering::SeqCst), 2);
    Ok(())
}
