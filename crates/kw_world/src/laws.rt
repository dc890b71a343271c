//! Laws that every line of the table of events keeps.
//!
//! The functions here do nothing: each has a law as its contract, and the crates above cite it.
ghost use Rattle.std.specs.Prelude.{◌≡◌, ℕ};
ghost use Rattle.kw_world.specs.declared.activity.Activity.{Activity};
ghost use Rattle.kw_world.specs.declared.event.Choice.{Choice};
ghost use Rattle.kw_world.specs.declared.local.Local.{Local};
ghost use Rattle.kw_world.specs.Sizes.{Sizes};
ghost use Rattle.kw_world.specs.Table.{transition};
ghost use Rattle.kw_world.specs.Sane.{IsStore};

/// What follows from a store does not depend on the word that it overwrote.
pub fn stores_are_blind()
    ensures { (z : Sizes) (a : Activity) (seat : ℕ) (choice : Choice) (l : Local) (found other : ℕ)
        → IsStore (transition z a seat choice l).operation.action
        → (rows : ℕ) → (transition z a seat choice l).next rows found ≡ (transition z a seat choice l).next rows other }
{}
