//! The command `simulate`: what a script prints, or the record of its calls.
ghost use Rattle.std.specs.Prelude.{◌≡◌, ◌≤◌, None, IfOk};
ghost use Rattle.kw_words.specs.declared.sizes.TheConstants.{MOST_ROWS};
ghost use Rattle.kw_app.specs.Inputs.{IfNamed};
ghost use Rattle.kw_app.specs.Simulating.{IsOutsideScript, IsSimulated};

use crate::input::InputError;
use crate::printed::{Ending, Printed};
use kw_sim::script::{record_script, run_script};
use std::alloc::Global;

/// The text that the script prints on a table of this many rows, 1 to `MOST_ROWS`; where
/// `recorded`, the record of its calls.
///
/// `Bad` names the first line that is outside the grammar of scripts; with line 0 it says that the
/// record would have too many calls.
pub fn simulated(
    alloc: Global,
    rows: u32,
    recorded: bool,
    script: &[u8],
) -> Result<Printed, InputError>
    requires some { 1 ≤ rows }
    requires few { rows ≤ MOST_ROWS }
    ensures text { IfOk result (λ printed. (printed.front ≡ None) × (printed.ending ≡ Ending.Done)
        × IsSimulated recorded rows script.now printed.text.items) }
    ensures bad { IfNamed (IsOutsideScript recorded rows script.now) result }
{
    let text = if recorded {
        record_script(alloc, rows, script)?
    } else {
        run_script(alloc, rows, script)?
    };
    Ok(Printed {
        text,
        ending: Ending::Done,
        front: None,
    })
}
