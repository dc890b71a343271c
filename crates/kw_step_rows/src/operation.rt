//! Which operation a seat makes on its walk.
ghost use Rattle.std.specs.Prelude.{◌≡◌};
ghost use Rattle.kw_world.specs.Sizes.{product};
ghost use Rattle.kw_world.specs.Parts.{part_of};
ghost use Rattle.kw_world.specs.declared.part.Part.{Part};
ghost use Rattle.kw_world.specs.Step.{transition_of};

use kw_words::kind::Kind;
use kw_words::layout::Name;
use kw_world::activity::Activity;
use kw_world::activity::walk::Walk;
use kw_world::event::Choice;
use kw_world::local::Local;
use kw_world::operation::{Action, Operation};

/// The operation of the event that a seat makes with this choice.
#[tactic(auto, unfolding(kw_world::specs::Step::transition_of))]
pub fn rows_operation(seat: u32, local: &Local, choice: Choice) -> Operation
    requires { part_of choice local.now ≡ Part.Rows }
    ensures { result ≡ (transition_of product seat choice local.now).operation }
{
    match local.activity {
        Activity::Walk(Walk::Start) => match choice {
            Choice::Guess(row) => load(Kind::LoadState, Name::State(row)),
            _ => load(Kind::LoadHead, Name::Head),
        },
        Activity::Walk(Walk::First) => load(Kind::LoadHead, Name::Head),
        Activity::Walk(Walk::GuessedLeast) => load(Kind::LoadLeast, Name::Least(local.row)),
        Activity::Walk(Walk::Next) => load(Kind::LoadLink, Name::Next(local.row)),
        Activity::Walk(Walk::NextLeast) => load(Kind::LoadLeast, Name::Least(local.candidate)),
        _ => unreachable!(),
    }
}

// A load of a word.
fn load(kind: Kind, name: Name) -> Operation
    ensures { result ≡ record { kind = kind; name = name; action = Action.Load } }
{
    let action = Action::Load;
    Operation { kind, name, action }
}
