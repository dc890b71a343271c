//! What every event keeps of the attempts, the entries, the clock, and the calls and scans that
//! run.
//!
//! Nothing runs here: the function's clauses are the statements. `kw_reads` shows that the record
//! may note every event, and joins the groups.
ghost use Rattle.std.specs.Prelude.{◌≡◌, true};
ghost use Rattle.kw_world.specs.declared.event.Event.{Event};
ghost use Rattle.kw_world.specs.declared.opening.Opening.{Opening};
ghost use Rattle.kw_world.specs.Opening.{IsOpening};
ghost use Rattle.kw_world.specs.Sizes.{Sizes};
ghost use Rattle.kw_core.specs.Events.{may_step};
ghost use Rattle.kw_core.specs.Run.{Run, goes_on, start};
ghost use Rattle.kw_puts.specs.Below.{Below, MayTake};

/// Below the readers all holds where nothing happened, and an event that may come and that the
/// record may note keeps it: whose each cell is and what stands in it, what each entry says, the
/// clock over the log, the call of each busy seat, and each scan's word.
pub fn puts_laws()
    ensures opens { (z : Sizes) (o : Opening) → IsOpening z o → Below z (start z o) }
    ensures keeps { (z : Sizes) (o : Opening) (r : Run) (e : Event) → Below z r →
        may_step o r.world e ≡ true → MayTake z r e → Below z (goes_on z r e) }
{}
