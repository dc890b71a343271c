//! One event of a world, of a rebalance.
ghost use Rattle.std.specs.Prelude.{◌≡◌, ◌≢◌, ◌<◌, ◌↔◌, length, IfOk, IsOkAnd};
ghost use Rattle.kw_world.specs.Sizes.{product};
ghost use Rattle.kw_world.specs.Sane.{IsSane, IsOfPart};
ghost use Rattle.kw_world.specs.declared.part.Part.{Part};
ghost use Rattle.kw_world.specs.Step.{stepped, step, IsSkipped};

use crate::operation::rebalance_operation;
use crate::resume::rebalance_resume;
use kw_model::memory::Memory;
use kw_words::layout::Layout;
use kw_words::sizes::{CELLS, SEATS};
use kw_world::event::{Event, StepDone};
use kw_world::world::World;

/// Makes one event of the world, which is one of a rebalance.
///
/// It takes no memory, and always answers Ok; the `Result` is that of the other steps. It never
/// answers `Skipped`, since a seat that rebalances is not idle.
#[tactic(auto, unfolding(kw_world::specs::Step::step))]
pub fn rebalance_step(world: &mut World, event: Event) -> Result<StepDone, Memory>
    requires sane { IsSane product world.old }
    requires seat { event.seat < length world.old.locals }
    requires part { IsOfPart Part.Rebalance world.old event }
    ensures ok { IsOkAnd result (λ done. stepped world.new done ≡ step product world.old event) }
    ensures skipped { IfOk result (λ done. (done ≡ StepDone.Skipped) ↔ IsSkipped world.old event) }
    ensures made { IsOkAnd result (λ done. done ≢ StepDone.Skipped) }
{
    let rows = world.rows();
    let local = world.local(event.seat);
    let choice = event.choice.offered(rows);
    let operation = rebalance_operation(event.seat, local, choice);
    let place = Layout::<SEATS, CELLS>::place(rows, operation.name);
    let found = world.word(place);
    let word = operation.action.after(found);
    let told = operation.action.told(found);
    let done = rebalance_resume(world.local_mut(event.seat), rows, choice, told);
    world.set_word(place, word);
    Ok(done)
}
