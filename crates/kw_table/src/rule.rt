//! The rule of the table, what its steps tell, and how views are cut and joined.
//!
//! All of it is for the proofs: no function here runs. The rule itself is `specs/Rules.antt`.
use crate::pass::View;
use atomic_table::{Join, Play, Split, TableRule};
use kw_world::opening::Opening;
use std::marker::{Brand, PhantomData};

/// The rule: there is one valid list of events that every view's list begins, and the words are
/// those of the world after it.
pub struct Rules;

impl TableRule<(), View, Opening> for Rules {
    ghost use Rattle.kw_table.specs.Rules.{Rule};
    ghost use Rattle.kw_table.specs.Views.{rest_view};

    ghost holds = { Rule };

    ghost first = { λ o. rest_view o 0 };
}

/// The choice of a step, for the proof alone: what a step tells depends on it, and the table does
/// not see it.
pub(crate) trait Choosing {
    ghost use Rattle.kw_world.specs.declared.event.Choice.{Choice};

    ghost choice: { Choice };
}

// A call at `Brand` picks its own choice.
impl Choosing for Brand {
    ghost use Rattle.kw_world.specs.declared.event.Choice.TheVariants.{Go};

    ghost choice = { Go };
}

/// A step: one event, and what the seat is told of it.
pub(crate) struct Stepping<C> {
    choosing: PhantomData<C>,
}

impl<C: Choosing> Play<(), View> for Stepping<C> {
    ghost use Rattle.kw_table.specs.Views.{StepsFor};

    ghost then = { λ s m found n. StepsFor C.choice m found n };
}

/// A look, which makes no event: the seat sees all events so far.
pub(crate) struct Looking;

impl Play<(), View> for Looking {
    ghost use Rattle.kw_table.specs.Views.{LooksFor};

    ghost then = { λ s m found n. LooksFor m n };
}

/// A look after which the seat has seen just what it was told of.
pub(crate) struct Catching;

impl Play<(), View> for Catching {
    ghost use Rattle.kw_table.specs.Views.{CatchesFor};

    ghost then = { λ s m found n. CatchesFor m n };
}

/// Cuts off the first of the seats that a view may act for.
pub(crate) struct Deal;

impl Split<View> for Deal {
    ghost use Rattle.std.specs.Prelude.{◌+◌, ◌-◌};

    ghost left = { λ v. record v { number = v.number + 1; count = v.count - 1 } };

    ghost right = { λ v. record v { count = 1 } };
}

/// Cuts off a note, which has seen as much and acts for no seat.
pub(crate) struct Note;

impl Split<View> for Note {
    ghost use Rattle.kw_table.specs.Views.{note_of};

    ghost left = { λ v. v };

    ghost right = { note_of };
}

/// Is told of what a note has seen.
pub(crate) struct Hear;

impl Join<View> for Hear {
    ghost use Rattle.kw_table.specs.Views.{spent_view, told_of};

    ghost both = { λ v w. told_of v w.seen };

    ghost spent = { spent_view };
}
