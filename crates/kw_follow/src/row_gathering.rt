//! The cells of a group, gathered along the list of one of its rows.
//!
//! A rebalance makes four events for each cell, as a reader does who gathers all. All that changes
//! between them is how far it has come and which cell it has at hand, the cells that it gathered,
//! and those that it need not remember any more. So code that goes along the list keeps the first
//! two in a `Cursor`, and leaves all else of its local where it was, the row at hand too, until the
//! list is at its end: `with_cursor` says which local the two stand for.
ghost use Rattle.std.specs.Prelude.{◌≡◌, IfNone, IfSome, ◌<◌, ◌≤◌, ◌+◌};
ghost use Rattle.kw_words.specs.Plain.{value_of_word};
ghost use Rattle.kw_words.specs.declared.sizes.TheConstants.{CELLS, MOST_CELLS};
ghost use Rattle.kw_follow.specs.BuildsOn.{IsHand, forgetting_mark, past_list, taking_at};
ghost use Rattle.kw_follow.specs.Cursors.{cell_at, reached};
ghost use Rattle.kw_follow.specs.Following.{Follows};
ghost use Rattle.kw_follow.specs.Reaching.{Advances};

use crate::cursor::Cursor;
use kw_cells::cell::Cell;
use kw_step_put::operation::link_name;
use kw_step_rebal::resume_take::take_from;
use kw_table::{Pass, Shared, load_after, load_key, load_value, load_version};
use kw_words::layout::Name;
use kw_words::plain::{unpack_cell_link, unpack_key};
use kw_words::sizes::CELL_COUNT;
use kw_world::activity::Activity;
use kw_world::activity::rebalance::Rebalance;
use kw_world::activity::rebalance::gather::Gather;
use kw_world::event::Choice;
use kw_world::group::place_in_group;
use kw_world::local::Local;

/// The row of the group that is at hand, and where the places of its cells begin.
#[derive(Clone, Copy, Debug, PartialEq, Eq)]
pub struct Hand {
    /// The row.
    pub row: u32,
    /// The place in the group of its first cell.
    pub base: u32,
}

impl Hand {
    /// The row that a seat with this local has at hand.
    #[inline(always)]
    pub fn of(local: &Local) -> Hand
        ensures { IsHand result local.now.rebalance }
    {
        Hand {
            row: local.rebalance.hand,
            base: place_in_group(&local.rebalance, 0),
        }
    }
}

/// Loads the link at which the cursor stands, and reaches the cell to which it leads: the answer is
/// the cursor there. None where the list is at its end; the local then has the cursor again, and
/// has gone on to a cell that it remembers and did not reach, to the list of the next row of the
/// group, or to the search for free rows. Takes no memory.
#[inline(always)]
pub fn reach_next(
    shared: &Shared,
    pass: &mut Pass,
    local: &mut Local,
    cursor: Cursor,
    hand: Hand,
) -> Option<Cursor>
    requires hand { IsHand hand local.old.rebalance }
    requires follows { Follows shared.now pass.old (taking_at Gather.Link cursor local.old) }
    ensures saw { IfSome result (λ saw. Advances shared.now pass.old pass.new
        (taking_at Gather.Key saw local.new)) }
    ensures hand { IfSome result (λ saw. IsHand hand local.new.rebalance) }
    ensures over { IfNone result (Advances shared.now pass.old pass.new local.new) }
    ensures left { IfNone result (local.new ≡ past_list cursor local.old) }
    ensures tidies { local.new.tidies ≡ local.old.tidies }
{
    let name = link_name(hand.row, cursor.link);
    let link = load_after(shared, pass, name);
    match unpack_cell_link(link) {
        Some(cell) => Some(reach(local, cursor, hand, cell)),
        None => {
            cursor.write(local, Activity::Rebalance(Rebalance::Gather(Gather::Link)));
            take_from(local, link);
            None
        }
    }
}

// The link led to this cell, which need not be remembered any more.
#[inline(always)]
fn reach(local: &mut Local, cursor: Cursor, hand: Hand, cell: u32) -> Cursor
    requires hand { IsHand hand local.old.rebalance }
    requires walked { cursor.walked ≤ CELLS }
    requires cell { cell < MOST_CELLS }
    ensures cursor { result ≡ reached cell cursor }
    ensures local { local.new ≡ forgetting_mark cell local.old }
    ensures hand { IsHand hand local.new.rebalance }
{
    local.rebalance.marks.forget(hand.base + cell);
    let mut next = cursor;
    next.place = cell;
    next.walked = (cursor.walked + 1).min(CELL_COUNT);
    next
}

/// Loads the key, the version and the value of the cell at hand, and gathers it. The answer is the
/// cursor at the link after it. Takes no memory.
#[inline(always)]
pub fn gather_cell(
    shared: &Shared,
    pass: &mut Pass,
    local: &mut Local,
    cursor: Cursor,
    hand: Hand,
) -> Cursor
    requires hand { IsHand hand local.old.rebalance }
    requires follows { Follows shared.now pass.old (taking_at Gather.Key cursor local.old) }
    ensures on { Advances shared.now pass.old pass.new (taking_at Gather.Link result local.new) }
    ensures hand { IsHand hand local.new.rebalance }
    ensures tidies { local.new.tidies ≡ local.old.tidies }
{
    let row = hand.row;
    let key_name = Name::Key(row, cursor.place);
    let key = load_key(shared, pass, Choice::Go, key_name);
    let keyed = cursor.with_key(unpack_key(key));
    let version_name = Name::Version(row, keyed.place);
    let version = load_version(shared, pass, version_name);
    let read = keyed.with_version(version);
    let value_name = Name::Value(row, read.place);
    let value = load_value(shared, pass, value_name);
    let cell = cell_of_group(hand, read, value);
    local.rebalance.gathered.gather(cell);
    read.past()
}

// The cell at hand, of which this value was told, with its place in the group.
#[inline(always)]
fn cell_of_group(hand: Hand, cursor: Cursor, found: u64) -> Cell
    requires within { hand.base ≤ CELLS }
    requires place { cursor.place < MOST_CELLS }
    ensures { result ≡ record (cell_at cursor (value_of_word found))
        { place = hand.base + cursor.place } }
{
    let mut cell = cursor.cell(found);
    cell.place = hand.base + cursor.place;
    cell
}
