//! The calls that a seat is still to make.
//!
//! A line of a script may ask for a hundred thousand puts, so calls are kept in runs of the same
//! call: a queue has no more runs than the script has lines. Contracts see the calls alone.
ghost use Rattle.std.specs.Prelude.{◌≡◌, ◌≤◌, ◌∷◌, [], ◌++◌, ℕ, List, replicate, IfNone, IfSome, OnOk, OnErr};
ghost use Rattle.kw_line.specs.Line.{FitsCall};

use kw_model::call::Call;
use kw_model::memory::Memory;
use std::alloc::Global;
use std::collections::VecDeque;
use std::marker::Model;

/// The same call so many times.
#[derive(Clone, Copy, Debug, PartialEq, Eq)]
pub struct Run {
    /// The call.
    pub call: Call,
    /// How many times.
    pub count: u32,
}

/// Calls, in the order in which they are to be made.
#[derive(Drop)]
pub struct Queue {
    /// What is left of the run that comes first. It may be nothing.
    first: Run,
    /// The runs after it. None of them is empty.
    later: VecDeque<Run>,
}

impl Model for Queue {
    ghost use Rattle.std.specs.Prelude.{List, ◌++◌};
    ghost use Rattle.std.specs.List.{AllByRecursion};
    ghost use Rattle.kw_model.specs.declared.call.Call.{Call};
    ghost use Rattle.kw_line.specs.Line.{FitsCall};
    ghost use Rattle.kw_sim.specs.Queue.{run_calls, all_calls, IsRun};

    ghost Value = { List Call };

    ghost view = { λ q. run_calls q.first ++ all_calls q.later.items };

    ghost invariant = { λ q. FitsCall q.first.call × AllByRecursion IsRun q.later.items };
}

impl Queue {
    /// No calls. Takes no memory; later pushes take theirs from this allocator.
    pub fn new(alloc: Global) -> Queue
        ensures { result ≡ [] }
    {
        Queue {
            first: Run {
                call: Call::Get(0),
                count: 0,
            },
            later: VecDeque::new(alloc),
        }
    }

    /// Adds this call at the end, so many times: at least once. The numbers of the call are in
    /// range. Without memory the queue is as it was.
    pub fn push(&mut self, call: Call, count: u32) -> Result<(), Memory>
        requires some { 1 ≤ count }
        requires fits { FitsCall call }
        ensures ok { OnOk result (self.new ≡ self.old ++ replicate count call) }
        ensures err { OnErr result (self.new ≡ self.old) }
    {
        self.later.push_back(Run { call, count })?;
        Ok(())
    }

    /// Takes the first call away, if there is one.
    pub fn pop(&mut self) -> Option<Call>
        ensures none { IfNone result (self.old ≡ []) }
        ensures same { IfNone result (self.new ≡ []) }
        ensures first { IfSome result (λ call. self.old ≡ call ∷ self.new) }
        ensures fits { IfSome result (λ call. FitsCall call) }
    {
        if self.first.count > 0 {
            self.first.count -= 1;
            return Some(self.first.call);
        }
        let next = self.later.pop_front()?;
        self.first = Run {
            call: next.call,
            count: next.count - 1,
        };
        Some(next.call)
    }
}
