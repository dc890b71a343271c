//! Passes of a map that meet.
//!
//! Two passes that met have seen one list of events. So have all passes of a slice, where a first
//! one is told of what each other has seen, and then each other of what the first has. No event is
//! made, and no memory taken.
ghost use Rattle.std.specs.Prelude.{◌≡◌, All};
ghost use mathlib.Core.List.{IsPrefix};
ghost use Rattle.kw_table.specs.Passes.{IsPassOf, view};
ghost use Rattle.kw_table.specs.Views.{Meets};
ghost use Rattle.kw_map.specs.Meetings.{AtEach, Reaches, MeetsAt, front_seen};

use crate::pass::Pass;
use kw_table::{Pass as Seat, Shared};

/// All passes have then seen one list, which all old ones begin.
pub(crate) fn meet_all(shared: &Shared, passes: &mut [Pass])
    requires { All (IsPassOf shared.now) passes.old }
    ensures { AtEach (MeetsAt shared.now (front_seen passes.new)) passes.old passes.new }
{
    if let Some((front, others)) = passes.split_first_mut() {
        meet_each(shared, front, others);
    }
}

// The same, of one pass and others.
fn meet_each(shared: &Shared, front: &mut Pass, others: &mut [Pass])
    requires front { IsPassOf shared.now front.old }
    requires others { All (IsPassOf shared.now) others.old }
    ensures front { IsPassOf shared.now front.new × Meets (view front.old) (view front.new) }
    ensures others { AtEach (MeetsAt shared.now (view front.new).seen) others.old others.new }
{
    reach_each(shared, &mut front.seat, others);
    follow_each(shared, &mut front.seat, others);
}

// The first pass then has seen all that each other has.
fn reach_each(shared: &Shared, front: &mut Seat, others: &mut [Pass])
    requires front { IsPassOf shared.now front.old }
    requires others { All (IsPassOf shared.now) others.old }
    ensures front { IsPassOf shared.now front.new × Meets (view front.old) (view front.new) }
    ensures others { AtEach (Reaches shared.now front.new) others.old others.new }
{
    for pass in others.iter_mut() {
        shared.reach(&mut pass.seat, front);
    }
}

// Each other pass, which has seen no more than the first, then has seen just what that has.
fn follow_each(shared: &Shared, front: &mut Seat, others: &mut [Pass])
    requires front { IsPassOf shared.now front.old }
    requires others { All (λ p. IsPassOf shared.now p
        × IsPrefix (view p).seen (view front.old).seen) others.old }
    ensures front { IsPassOf shared.now front.new × (view front.new ≡ view front.old) }
    ensures others { AtEach (MeetsAt shared.now (view front.new).seen) others.old others.new }
{
    for pass in others.iter_mut() {
        shared.follow(front, &mut pass.seat);
    }
}
