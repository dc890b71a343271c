//! One event of a world, on the acting call's own row.
ghost use Rattle.std.specs.Prelude.{◌≡◌, ◌<◌, ◌↔◌, length, IfOk, OnErr};
ghost use Rattle.kw_world.specs.Sizes.{product};
ghost use Rattle.kw_world.specs.Sane.{IsSane, CanStep, IsOfPart};
ghost use Rattle.kw_world.specs.declared.part.Part.{Part};
ghost use Rattle.kw_world.specs.Step.{stepped, step, IsSkipped};
ghost use Rattle.kw_world.specs.RowEnd.{MayEndRowAt};

use crate::operation::put_operation;
use crate::resume::put_resume;
use kw_model::memory::Memory;
use kw_words::layout::Layout;
use kw_words::sizes::{CELLS, SEATS};
use kw_world::event::{Event, StepDone};
use kw_world::world::World;

/// Makes one event of the world, which is any but one of a walk along the rows or of a rebalance.
///
/// `Skipped` comes exactly where the seat is idle and begins nothing. The world is as it was after
/// it, and without memory, which only the pairs of a scan take, at the end of a row.
#[tactic(auto, unfolding(kw_world::specs::Step::step))]
pub fn put_step(world: &mut World, event: Event) -> Result<StepDone, Memory>
    requires sane { IsSane product world.old }
    requires seat { event.seat < length world.old.locals }
    requires begin { CanStep world.old event }
    requires part { IsOfPart Part.Put world.old event }
    ensures ok { IfOk result (λ done. stepped world.new done ≡ step product world.old event) }
    ensures skipped { IfOk result (λ done. (done ≡ StepDone.Skipped) ↔ IsSkipped world.old event) }
    ensures skipped_world { IfOk result (λ done. done ≡ StepDone.Skipped → world.new ≡ world.old) }
    ensures err { OnErr result (world.new ≡ world.old) }
    ensures memory { OnErr result (MayEndRowAt world.old event.seat) }
{
    let local = world.local(event.seat);
    if local.activity.skips(event.choice) {
        return Ok(StepDone::Skipped);
    }
    let rows = world.rows();
    let choice = event.choice.offered(rows);
    let operation = put_operation(event.seat, local, choice);
    let place = Layout::<SEATS, CELLS>::place(rows, operation.name);
    let found = world.word(place);
    let word = operation.action.after(found);
    let told = operation.action.told(found);
    let done = put_resume(world.local_mut(event.seat), rows, choice, told)?;
    world.set_word(place, word);
    Ok(done)
}
