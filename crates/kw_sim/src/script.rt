//! A script as one call: bytes in, bytes out.
ghost use Rattle.std.specs.Prelude.{◌≡◌, ◌*◌, ◌≤◌, length, IfOk};
ghost use Rattle.kw_words.specs.declared.sizes.TheConstants.{MOST_ROWS};
ghost use Rattle.kw_line.specs.Line.{IfBad};
ghost use Rattle.kw_sim.specs.declared.parse.TheConstants.{MOST_LINES, MOST_STEPS};
ghost use Rattle.kw_sim.specs.Script.{IsFirstBadCommand};
ghost use Rattle.kw_sim.specs.Output.{IsOutputOf, IsStateOf};
ghost use Rattle.kw_sim.specs.Recorded.{IsRecordOf, IsUnrecorded};

use crate::command::Command;
use crate::parse::parse_script;
use crate::simulator::Simulator;
use kw_line::error::LineError;
use std::alloc::Global;

/// What a script prints, on a table of this many rows: 1 to `MOST_ROWS`.
///
/// `Bad` names the first line that is outside the grammar, or the first one after the most that a
/// script may have; nothing is run then.
pub fn run_script(alloc: Global, rows: u32, script: &[u8]) -> Result<Vec<u8>, LineError>
    requires some { 1 ≤ rows }
    requires few { rows ≤ MOST_ROWS }
    ensures output { IfOk result (λ bytes. IsOutputOf rows script.now bytes.items) }
    ensures bad { IfBad (IsFirstBadCommand rows script.now) result }
{
    let simulator = run_lines(alloc, rows, script)?;
    Ok(simulator.into_output(alloc)?)
}

/// The record of a script's run, on a table of this many rows: 1 to `MOST_ROWS`.
///
/// It has the calls that ended by their last positions, then the puts and deletes that go on and
/// were stamped by their seats, and the order of all these calls. `Bad` names the first line that
/// is outside the grammar, or the first one after the most that a script may have; nothing is run
/// then. `Bad` with line 0 says that there are more of these calls than a record may have.
pub fn record_script(alloc: Global, rows: u32, script: &[u8]) -> Result<Vec<u8>, LineError>
    requires some { 1 ≤ rows }
    requires few { rows ≤ MOST_ROWS }
    ensures output { IfOk result (λ bytes. IsRecordOf rows script.now bytes.items) }
    ensures bad { IfBad (IsUnrecorded rows script.now) result }
{
    let simulator = run_lines(alloc, rows, script)?;
    simulator
        .to_record(alloc)?
        .ok_or(LineError::Bad { line: 0 })
}

/// Runs all lines of a script.
fn run_lines(alloc: Global, rows: u32, script: &[u8]) -> Result<Simulator, LineError>
    requires some { 1 ≤ rows }
    requires few { rows ≤ MOST_ROWS }
    ensures state { IfOk result (λ simulator. IsStateOf rows script.now simulator) }
    ensures made { IfOk result (λ simulator. length simulator.trace.events ≤ MOST_LINES
        * MOST_STEPS) }
    ensures bad { IfBad (IsFirstBadCommand rows script.now) result }
{
    let commands = parse_script(alloc, rows, script)?;
    let mut simulator = Simulator::open(alloc, rows)?;
    for command in &commands {
        simulator.run(*command)?;
    }
    Ok(simulator)
}
