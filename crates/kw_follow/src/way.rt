//! How far a get has come to its row, and the events by which it goes there and ends.
//!
//! Between calls a local knows nothing. All that a get learns up to the cells of its row is its
//! epoch and a few numbers of rows; so code that sees nothing else on its way keeps these in a
//! `Way`, which lies in registers, and leaves its local at rest: `on_way` says which local a way
//! stands for. Where anything else is seen, the way is written into the local, and the call goes on
//! by `go_along` and what else follows a local. The looks at the entries, and the links between
//! rows, are loaded by what `along` has for them, and cells by a `Cursor`.
ghost use Rattle.std.specs.Prelude.{◌≡◌, ◌<◌};
ghost use Rattle.kw_world.specs.Answers.{reply_of};
ghost use Rattle.kw_world.specs.Local.{resting};
ghost use Rattle.kw_table.specs.Passes.{IsPassOf, Makes};
ghost use Rattle.kw_follow.specs.Calling.{Closes, Opens};
ghost use Rattle.kw_follow.specs.Following.{Follows, GoesTo, activity_in, held};
ghost use Rattle.kw_follow.specs.Reaching.{Reaches};
ghost use Rattle.kw_follow.specs.Ways.{entering, on_way, starting};

use kw_model::call::Call;
use kw_table::{Pass, Shared, clear_pass, load_epoch, load_least, load_state, store_pass};
use kw_words::layout::Name;
use kw_words::plain::pack_pass;
use kw_world::activity::Activity;
use kw_world::activity::walk::Walk;
use kw_world::answer::Answer;
use kw_world::event::Choice;
use kw_world::local::Local;

/// What a get knows on its way to the cells of its row: the local's fields of these names.
#[derive(Clone, Copy, Debug, PartialEq, Eq)]
pub struct Way {
    /// The key of the get.
    pub key: u32,
    /// The epoch that it announces.
    pub epoch: u64,
    /// The row that its walk is on.
    pub row: u32,
    /// The least key that this row may hold.
    pub lower: u32,
    /// With how many cells this row was built, as far as the get knows.
    pub built: u32,
    /// The row whose least key the walk asks for.
    pub candidate: u32,
    /// The row after the one at which the walk ended; none where that was the last.
    pub next: Option<u32>,
    /// The least key that the next row may hold; 0 where there is no next row.
    pub upper: u32,
}

impl Way {
    /// Begins a get of an idle pass: it loads the epoch and announces it, and is to begin its walk.
    /// Takes no memory.
    #[inline(always)]
    pub fn enter(shared: &Shared, pass: &mut Pass, key: u32) -> Way
        requires table { IsPassOf shared.now pass.old }
        requires idle { activity_in pass.old ≡ Activity.Idle }
        ensures goes { GoesTo shared.now pass.old pass.new }
        ensures follows { Follows shared.now pass.new (on_way (Activity.Walk Walk.Start) result) }
        ensures key { result.key ≡ key }
        ensures opens { Opens pass.old pass.new (Call.Get key) }
    {
        let epoch = load_call_epoch(shared, pass, key);
        store_call_epoch(shared, pass, key, epoch);
        Way {
            key,
            epoch,
            row: 0,
            lower: 0,
            built: 0,
            candidate: 0,
            next: None,
            upper: 0,
        }
    }

    /// Writes the way into the local of a get, which is at rest, at this activity.
    #[inline(always)]
    pub fn write(self, local: &mut Local, activity: Activity)
        requires { local.old ≡ resting 0 }
        ensures { local.new ≡ on_way activity self }
    {
        local.activity = activity;
        local.call = Some(Call::Get(self.key));
        local.number = 1;
        local.epoch = self.epoch;
        local.want = self.key;
        local.row = self.row;
        local.lower = self.lower;
        local.built = self.built;
        local.candidate = self.candidate;
        local.next = self.next;
        local.upper = self.upper;
    }

    /// Begins the walk at this row: loads its state. The answer is what the event was told. Takes
    /// no memory.
    #[inline(always)]
    pub fn load_state(self, shared: &Shared, pass: &mut Pass, row: u32) -> u64
        requires follows { Follows shared.now pass.old (on_way (Activity.Walk Walk.Start) self) }
        requires in_range { row < shared.now.opening.rows }
        ensures { Makes shared.now pass.old (Choice.Guess row) result pass.new }
    {
        load_state(shared, pass, Choice::Guess(row), Name::State(row))
    }

    /// Loads the least key of the row at which the walk began. The answer is what the event was
    /// told. Takes no memory.
    #[inline(always)]
    pub fn load_least(self, shared: &Shared, pass: &mut Pass) -> u64
        requires { Follows shared.now pass.old (on_way (Activity.Walk Walk.GuessedLeast) self) }
        ensures { Makes shared.now pass.old Choice.Go result pass.new }
    {
        load_least(shared, pass, Name::Least(self.row))
    }
}

// Loads the epoch, by which a get begins.
#[inline(always)]
fn load_call_epoch(shared: &Shared, pass: &mut Pass, key: u32) -> u64
    requires table { IsPassOf shared.now pass.old }
    requires idle { activity_in pass.old ≡ Activity.Idle }
    ensures goes { GoesTo shared.now pass.old pass.new }
    ensures follows { Follows shared.now pass.new (entering key result) }
    ensures opens { Opens pass.old pass.new (Call.Get key) }
{
    load_epoch(shared, pass, Choice::Begin(Call::Get(key)), Name::Epoch)
}

// Stores the epoch that the seat announces.
#[inline(always)]
fn store_call_epoch(shared: &Shared, pass: &mut Pass, key: u32, epoch: u64)
    requires { Follows shared.now pass.old (entering key epoch) }
    ensures { Reaches shared.now pass.old pass.new (starting key epoch) }
{
    let word = Name::Pass(pass.number());
    store_pass(shared, pass, word, pack_pass(Some(epoch)));
}

/// Ends a call that is about to leave, and whose local was left at rest: its last event. The reply
/// is the one of the answer with which it leaves. Takes no memory.
#[inline(always)]
pub fn end_resting(shared: &Shared, pass: &mut Pass)
    requires { (l : Local) × (answer : Answer) × Follows shared.now pass.old l
        × (l.activity ≡ Activity.Leave answer) }
    ensures goes { GoesTo shared.now pass.old pass.new }
    ensures idle { activity_in pass.new ≡ Activity.Idle }
    ensures closes { (answer : Answer) → activity_in pass.old ≡ Activity.Leave answer →
        Closes pass.old pass.new (reply_of answer (held pass.old)) }
{
    let word = Name::Pass(pass.number());
    clear_pass(shared, pass, word, pack_pass(None));
}
