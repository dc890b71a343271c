//! What every valid list of events keeps of the rows and of where each seat is.
//!
//! Nothing runs here: the function's clause is the statement. `kw_laws` has the laws that follow
//! from it and from the record.
ghost use Rattle.std.specs.Prelude.{◌≡◌, true, List};
ghost use Rattle.kw_world.specs.declared.opening.Opening.{Opening};
ghost use Rattle.kw_world.specs.declared.event.Event.{Event};
ghost use Rattle.kw_world.specs.Opening.{IsOpening};
ghost use Rattle.kw_world.specs.Sizes.{Sizes};
ghost use Rattle.kw_core.specs.Events.{is_valid};
ghost use Rattle.kw_core.specs.Run.{history};
ghost use Rattle.kw_shape.specs.Shape.{Shape};

/// After every valid list of events from an opening the run has its shape: words and locals are in
/// range, counts and the clock have room for what is asked of them, the rows have the structure of
/// a list whose rows come and go, visits are on as the words say, and each seat is where its call
/// has it.
pub fn shape_laws()
    ensures { (z : Sizes) (o : Opening) (events : List Event) → IsOpening z o → is_valid z o events ≡ true → Shape z (history z o events) }
{}
