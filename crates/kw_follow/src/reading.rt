//! The events of a reader at the cells that it remembers, each by its own step of the table, and
//! what follows from the words that it is told.
//!
//! A reader goes along the list of its row by a `Cursor`, as `cursor` says; what it remembers of
//! the entries and did not reach there it reads after it, by one event for the key of a cell and
//! one more for the value where the key is in the range of its call. The end of a row has no event
//! of its own: it follows the one that ends the walk, or reads the last remembered cell. There the
//! core keeps the pairs of a scan, which takes memory; code that follows a pass does not, so that
//! it passes the end by itself here. All else of an event is the core's.
ghost use Rattle.kw_words.specs.Plain.{key_of_word, value_of_word};
ghost use Rattle.kw_world.specs.ReadTransitions.{get_answered, left_over_key, row_read, row_scanned, to_left_over, gathering};
ghost use Rattle.kw_world.specs.Sizes.{product};
ghost use Rattle.kw_follow.specs.Cursors.{ReadsLeftOver};
ghost use Rattle.kw_follow.specs.Following.{CarriesOn, Follows};
ghost use Rattle.kw_follow.specs.Moving.{FollowsAt};
ghost use Rattle.kw_follow.specs.Within.{IsAtRemembered};

use kw_cells::in_order::first_fit;
use kw_model::call::Call;
use kw_step_put::reading::{gather, take_remembered};
use kw_table::{Pass, Shared, load_key, load_value};
use kw_words::layout::Name;
use kw_words::plain::unpack_key;
use kw_world::activity::Activity;
use kw_world::activity::read::Read;
use kw_world::activity::walk::Walk;
use kw_world::answer::Answer;
use kw_world::calls::{first_key, is_in_range};
use kw_world::event::Choice;
use kw_world::limits::NEWEST;
use kw_world::local::Local;

// Loads the key of a remembered cell that was not reached.
#[inline(always)]
fn load_left_over_key(shared: &Shared, pass: &mut Pass, local: &mut Local)
    requires { FollowsAt shared.now pass.old local.old (Activity.Read Read.LeftOverKey) }
    ensures { ReadsLeftOver shared.now pass.old local.old pass.new local.new }
{
    let key = Name::Key(local.row, local.place);
    let told = load_key(shared, pass, Choice::Go, key);
    left_key(local, told);
}

// Loads the value of that cell, which is gathered.
#[inline(always)]
fn load_left_over_value(shared: &Shared, pass: &mut Pass, local: &mut Local)
    requires { FollowsAt shared.now pass.old local.old (Activity.Read Read.LeftOverValue) }
    ensures { ReadsLeftOver shared.now pass.old local.old pass.new local.new }
{
    let value = Name::Value(local.row, local.place);
    let told = load_value(shared, pass, value);
    left_value(local, told);
}

/// Makes the next event of a reader that is at a cell which it remembers and did not reach in its
/// row's list, and passes the end of the row, which has no event of its own.
///
/// Takes no memory: the pairs of a scan are for the caller to take from `gathered`, and `reads`
/// says what they are.
#[inline(always)]
pub fn go_remembered(shared: &Shared, pass: &mut Pass, local: &mut Local)
    requires follows { Follows shared.now pass.old local.old }
    requires remembered { IsAtRemembered local.old.activity }
    ensures { ReadsLeftOver shared.now pass.old local.old pass.new local.new }
{
    match local.activity {
        Activity::Read(Read::LeftOverKey) => load_left_over_key(shared, pass, local),
        Activity::Read(Read::LeftOverValue) => load_left_over_value(shared, pass, local),
        _ => unreachable!(),
    }
}

// What follows from the events.

// It was told the key of a remembered cell.
fn left_key(local: &mut Local, found: u64)
    ensures { CarriesOn (left_over_key (key_of_word found)) local.old local.new }
{
    let key = unpack_key(found);
    if is_in_range(local.call, key) {
        local.place_key = key;
        local.activity = Activity::Read(Read::LeftOverValue);
    } else {
        go_to_left_over(local);
    }
}

// It was told the value of that cell.
fn left_value(local: &mut Local, found: u64)
    ensures { CarriesOn (λ l. to_left_over (gathering product (value_of_word found) l)) local.old local.new }
{
    gather(local, found);
    go_to_left_over(local);
}

/// The reader's walk along the list is over: it goes on to a cell that it remembers and did not
/// reach, or the row is read. Takes no memory.
pub fn go_to_left_over(local: &mut Local)
    ensures { CarriesOn to_left_over local.old local.new }
{
    if take_remembered(local) {
        local.activity = Activity::Read(Read::LeftOverKey);
    } else {
        end_row(local);
    }
}

// The row has been read to its end.
fn end_row(local: &mut Local)
    ensures { CarriesOn (λ l. row_read l.call l) local.old local.new }
{
    match local.call {
        Some(Call::Scan(_, upto)) => go_on(local, upto),
        _ => {
            let key = first_key(local.call);
            answer(local, key);
        }
    }
}

// A get has its answer: what the newest cell of its key shows.
fn answer(local: &mut Local, key: u32)
    ensures { CarriesOn (get_answered key) local.old local.new }
{
    let shown = match first_fit(local.gathered.as_slice(), key, NEWEST) {
        Some(cell) => cell.value,
        None => None,
    };
    local.forget_rows();
    local.activity = Activity::Leave(Answer::found(shown));
}

// A scan goes on with the next row, or is at its end, where there is none or its keys are all above
// the range.
fn go_on(local: &mut Local, upto: u32)
    ensures { CarriesOn (row_scanned upto) local.old local.new }
{
    local.has_read = true;
    match local.next {
        Some(row) if local.upper <= upto => {
            local.row = row;
            local.lower = local.upper;
            local.built = 0;
            local.want = local.upper;
            local.next = None;
            local.upper = 0;
            local.activity = Activity::Walk(Walk::Next);
        }
        _ => local.activity = Activity::EndScan(Answer::Pairs),
    }
}
