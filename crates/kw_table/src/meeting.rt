//! Two passes see one list.
ghost use Rattle.std.specs.Prelude.{◌≡◌, []};
ghost use mathlib.Core.List.{IsPrefix};
ghost use Rattle.kw_table.specs.Passes.{view, IsPassOf};
ghost use Rattle.kw_table.specs.Views.{note_of, told_of, Looks, Meets};

use crate::pass::{Pass, View};
use crate::rule::{Catching, Hear, Looking, Note};
use crate::shared::Shared;
use atomic_table::Seat;

impl Shared {
    /// A note of what a pass has seen.
    fn note(&self, pass: &mut Pass) -> Seat<(), View>
        requires { IsPassOf self.now pass.old }
        ensures pass { IsPassOf self.now pass.new × (view pass.new ≡ view pass.old) }
        ensures note { (result.table_id ≡ self.now.table.shared.table_id)
            × (result.me ≡ (note_of (view pass.old), [])) }
    {
        self.table.shared.split_seat::<Note>(&mut pass.seat)
    }

    /// Tells a pass what a note has seen.
    fn tell(&self, pass: &mut Pass, note: Seat<(), View>)
        requires pass { IsPassOf self.now pass.old }
        requires note { (note.table_id ≡ self.now.table.shared.table_id) × (note.me.1 ≡ []) }
        ensures pass { IsPassOf self.now pass.new
            × (view pass.new ≡ told_of (view pass.old) note.me.0.seen) }
    {
        self.table.shared.join_seat::<Hear>(&mut pass.seat, note);
    }

    /// Sees all events so far.
    fn look(&self, pass: &mut Pass)
        requires { IsPassOf self.now pass.old }
        ensures pass { IsPassOf self.now pass.new × Looks (view pass.old) (view pass.new) }
    {
        self.table.shared.load::<Looking>(&mut pass.seat, 0);
    }

    /// Sees just what the pass was told of.
    fn catch_up(&self, pass: &mut Pass)
        requires pass { IsPassOf self.now pass.old }
        requires longer { IsPrefix (view pass.old).seen (view pass.old).told }
        ensures pass { IsPassOf self.now pass.new × Looks (view pass.old) (view pass.new) }
        ensures seen { (view pass.new).seen ≡ (view pass.old).told }
    {
        self.table.shared.load::<Catching>(&mut pass.seat, 0);
    }
}

impl Shared {
    /// The second pass then has seen all that the first has, and all that happened so far. Takes no
    /// memory.
    pub fn reach(&self, from: &mut Pass, to: &mut Pass)
        requires from { IsPassOf self.now from.old }
        requires to { IsPassOf self.now to.old }
        ensures from { IsPassOf self.now from.new × (view from.new ≡ view from.old) }
        ensures to { IsPassOf self.now to.new × Meets (view to.old) (view to.new) }
        ensures seen { IsPrefix (view from.new).seen (view to.new).seen }
    {
        let note = self.note(from);
        self.tell(to, note);
        self.look(to);
    }

    /// The second pass, which has seen no more than the first, then has seen just what the first
    /// has. Takes no memory.
    pub fn follow(&self, from: &mut Pass, to: &mut Pass)
        requires from { IsPassOf self.now from.old }
        requires to { IsPassOf self.now to.old }
        requires longer { IsPrefix (view to.old).seen (view from.old).seen }
        ensures from { IsPassOf self.now from.new × (view from.new ≡ view from.old) }
        ensures to { IsPassOf self.now to.new × Meets (view to.old) (view to.new) }
        ensures seen { (view to.new).seen ≡ (view from.new).seen }
    {
        let note = self.note(from);
        self.tell(to, note);
        self.catch_up(to);
    }
}

/// Both passes have then seen one list, which both old ones begin.
pub fn meet(shared: &Shared, a: &mut Pass, b: &mut Pass)
    requires one { IsPassOf shared.now a.old }
    requires other { IsPassOf shared.now b.old }
    ensures one { IsPassOf shared.now a.new × Meets (view a.old) (view a.new) }
    ensures other { IsPassOf shared.now b.new × Meets (view b.old) (view b.new) }
    ensures same { (view a.new).seen ≡ (view b.new).seen }
{
    shared.reach(a, b);
    shared.follow(b, a);
}
