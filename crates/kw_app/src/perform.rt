//! What a command does: each command is looked at here, and nowhere else.
//!
//! Each that has an input reads it whole and gives its bytes to a function of its own; `gen` has
//! none.
ghost use Rattle.kw_command.specs.Words.{AreInRange};
ghost use Rattle.kw_app.specs.Ends.{Performs};

use crate::crew::Crew;
use crate::gen_command::summarized;
use crate::input::{InputError, read_input};
use crate::judging::judged;
use crate::printed::Printed;
use crate::replay::replay;
use crate::rolling::rolled;
use crate::simulating::simulated;
use crate::working::Gate;
use kw_command::command::Command;
use kw_io::Source;
use std::alloc::Global;
use std::sync::Wait;
use std::thread::Threads;

/// The text that the command prints: of all that is left of the source, or, for `gen`, of no input,
/// and then nothing is read.
///
/// `Bad` names the first line of the input that is not in the command's grammar, or line 0.
pub fn perform<R: Threads + Wait + Sync, S: Source, G: Gate + Sync>(
    rt: &R,
    alloc: Global,
    command: Command,
    source: &mut S,
    gate: &G,
) -> Result<Printed, InputError>
    requires { AreInRange command }
    ensures { Performs S.left S.faults command source.old source.new result }
{
    match command {
        Command::Replay { workers, rows } => {
            let crew = Crew {
                workers,
                rows,
                gate,
            };
            let bytes = read_input(alloc, source)?;
            replay(rt, alloc, &crew, bytes)
        }
        Command::Simulate { rows, recorded } => {
            let script = read_input(alloc, source)?;
            simulated(alloc, rows, recorded, &script)
        }
        Command::Judge => {
            let record = read_input(alloc, source)?;
            judged(alloc, &record)
        }
        Command::Gen {
            start,
            count,
            workers,
            rows,
        } => {
            let crew = Crew {
                workers,
                rows,
                gate,
            };
            Ok(summarized(rt, alloc, start, count, &crew)?)
        }
        Command::Rollup {
            bucket,
            workers,
            rows,
        } => {
            let crew = Crew {
                workers,
                rows,
                gate,
            };
            let bytes = read_input(alloc, source)?;
            rolled(rt, alloc, bucket, &crew, bytes)
        }
    }
}
