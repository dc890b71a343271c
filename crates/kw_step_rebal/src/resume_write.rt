//! What a seat knows after the events that write a new row: which word it writes next.
ghost use Rattle.std.specs.Prelude.{◌≡◌, ◌<◌, ◌≤◌, length};
ghost use Rattle.kw_words.specs.declared.sizes.TheConstants.{CELLS};
ghost use Rattle.kw_world.specs.Sane.{IsLocal};
ghost use Rattle.kw_world.specs.Sizes.{product};
ghost use Rattle.kw_world.specs.Transition.{outcome};
ghost use Rattle.kw_world.specs.WriteTransitions.{row_written, to_write_after, to_write_cell, to_write_entry};

use crate::infant::{infant_cells, next_at};
use crate::resume::to;
use crate::resume_seek::has_more;
use kw_words::sizes::{CELL_COUNT, SEAT_COUNT};
use kw_world::activity::Activity;
use kw_world::activity::rebalance::Rebalance;
use kw_world::activity::rebalance::replace::Replace;
use kw_world::activity::rebalance::write::Write;
use kw_world::event::StepDone;
use kw_world::local::Local;

// The seat goes on to the next new row, until all are written.
fn row_written(local: &mut Local) -> StepDone
    requires { local.old.rebalance.at ≤ length local.old.rebalance.taken }
    ensures { outcome local.new result ≡ row_written local.old }
{
    if has_more(local) {
        local.rebalance.at = next_at(local);
        to(local, Activity::Rebalance(Rebalance::Write(Write::Count)))
    } else {
        to(
            local,
            Activity::Rebalance(Rebalance::Replace(Replace::Start)),
        )
    }
}

/// The seat goes on to this cell: to its key, or to its version alone where the row has no cell for
/// it. After the last cell the row is written.
#[inline(always)]
pub fn to_write_cell(local: &mut Local, cell: u32) -> StepDone
    requires { IsLocal product local.old }
    ensures { outcome local.new result ≡ to_write_cell product cell local.old }
{
    if cell >= CELL_COUNT {
        row_written(local)
    } else if (cell as usize) < infant_cells(local).len() {
        to(
            local,
            Activity::Rebalance(Rebalance::Write(Write::Key(cell))),
        )
    } else {
        to(
            local,
            Activity::Rebalance(Rebalance::Write(Write::Version(cell))),
        )
    }
}

/// The seat goes on to the link after this cell, or to the next place where the row has no cell
/// here.
pub fn to_write_after(local: &mut Local, cell: u32) -> StepDone
    requires ranges { IsLocal product local.old }
    requires within { cell < CELLS }
    ensures { outcome local.new result ≡ to_write_after product cell local.old }
{
    if (cell as usize) < infant_cells(local).len() {
        to(
            local,
            Activity::Rebalance(Rebalance::Write(Write::After(cell))),
        )
    } else {
        to_write_cell(local, cell + 1)
    }
}

/// The seat goes on to the entry of this seat, or to the first cell after the last entry.
#[inline(always)]
pub fn to_write_entry(local: &mut Local, entry: u32) -> StepDone
    requires { IsLocal product local.old }
    ensures { outcome local.new result ≡ to_write_entry product entry local.old }
{
    if entry < SEAT_COUNT {
        to(
            local,
            Activity::Rebalance(Rebalance::Write(Write::Entry(entry))),
        )
    } else {
        to_write_cell(local, 0)
    }
}
