//! What every valid list of events keeps: the whole invariant.
//!
//! Nothing runs here: the function's clauses are the statements. `kw_laws` draws from the invariant
//! what stands above needs.
ghost use Rattle.std.specs.Prelude.{◌≡◌, true, List};
ghost use Rattle.kw_world.specs.declared.event.Event.{Event};
ghost use Rattle.kw_world.specs.declared.opening.Opening.{Opening};
ghost use Rattle.kw_world.specs.Opening.{IsOpening};
ghost use Rattle.kw_world.specs.Sizes.{Sizes};
ghost use Rattle.kw_core.specs.Events.{is_valid, may_step};
ghost use Rattle.kw_core.specs.Run.{Run, history};
ghost use Rattle.kw_puts.specs.Below.{MayTake};
ghost use Rattle.kw_reads.specs.Inv.{Inv};

/// The record may note every event that may come, and every valid list of events from an opening
/// keeps the invariant: the groups below, what is due to each reader and what it has gathered, what
/// the rows have kept of the stamped puts, the pairs of scans, and what a get is going to answer.
pub fn reads_laws()
    ensures notes { (z : Sizes) (o : Opening) (r : Run) (e : Event) → Inv z r → may_step o r.world e
        ≡ true → MayTake z r e }
    ensures keeps { (z : Sizes) (o : Opening) (events : List Event) → IsOpening z o →
        is_valid z o events ≡ true → Inv z (history z o events) }
{}
