//! What a seat knows after the events of its search for free rows, and after it gave rows back.
ghost use Rattle.std.specs.Prelude.{◌≡◌, ◌==◌, ◌<◌, ◌≤◌, length};
ghost use Rattle.kw_words.specs.Plain.{pass_of_word};
ghost use Rattle.kw_words.specs.State.{state_of, state_word};
ghost use Rattle.kw_words.specs.declared.sizes.TheConstants.{SEATS};
ghost use Rattle.kw_words.specs.declared.state.State.{State};
ghost use Rattle.kw_world.specs.LeftTransitions.{to_leader};
ghost use Rattle.kw_world.specs.SeekTransitions.{gave_back, give_back, given_back, has_more, pass_seen, row_behind, seek_first_transition, seek_seen, seeking, take_row, to_pass, to_seek};
ghost use Rattle.kw_world.specs.Sizes.{product};
ghost use Rattle.kw_world.specs.Transition.{outcome};

use crate::infant::next_at;
use crate::resume::to;
use crate::resume_engage::{again, refuse, to_rebalance};
use kw_words::plain::unpack_pass;
use kw_words::sizes::SEAT_COUNT;
use kw_words::state::State;
use kw_world::activity::Activity;
use kw_world::activity::rebalance::Rebalance;
use kw_world::activity::rebalance::seek::Seek;
use kw_world::activity::rebalance::write::Write;
use kw_world::answer::Answer;
use kw_world::event::{Choice, StepDone};
use kw_world::local::Local;
use kw_world::rebalance::Afterwards;

// Whether another row was taken after the one at hand.
pub(crate) fn has_more(local: &Local) -> bool
    requires { local.now.rebalance.at ≤ length local.now.rebalance.taken }
    ensures { result ≡ has_more local.now }
{
    next_at(local) < local.rebalance.taken.as_slice().len()
}

// No taken row is left, and this follows.
fn given_back(local: &mut Local, afterwards: Afterwards) -> StepDone
    ensures { outcome local.new result ≡ given_back afterwards local.old }
{
    match afterwards {
        Afterwards::TryAgain => again(local),
        Afterwards::Refuse => refuse(local, Answer::NoRows),
        Afterwards::MoveLeft => move_left(local),
    }
}

// The seat rebalances the row at which its walk is from here on.
pub(crate) fn move_left(local: &mut Local) -> StepDone
    ensures { outcome local.new result ≡ to_leader local.old }
{
    local.row = local.rebalance.before.unwrap_or(0);
    local.lower = local.rebalance.least;
    to_rebalance(local)
}

// The taken rows are given back, one by one, and then this follows.
pub(crate) fn give_back(local: &mut Local, afterwards: Afterwards) -> StepDone
    ensures { outcome local.new result ≡ give_back afterwards local.old }
{
    if local.rebalance.taken.as_slice().is_empty() {
        return given_back(local, afterwards);
    }
    local.rebalance.at = 0;
    local.rebalance.afterwards = afterwards;
    to(local, Activity::Rebalance(Rebalance::Seek(Seek::GiveBack)))
}

// The seat has given a row back.
pub(crate) fn gave_back(local: &mut Local) -> StepDone
    requires { local.old.rebalance.at ≤ length local.old.rebalance.taken }
    ensures { outcome local.new result ≡ gave_back local.old }
{
    if has_more(local) {
        local.rebalance.at = next_at(local);
        return to(local, Activity::Rebalance(Rebalance::Seek(Seek::GiveBack)));
    }
    let afterwards = local.rebalance.afterwards;
    given_back(local, afterwards)
}

// The row after a row, round a table of so many.
fn row_behind(rows: u32, row: u32) -> u32
    ensures { result ≡ row_behind rows row }
{
    match row.checked_add(1) {
        Some(next) if next < rows => next,
        _ => 0,
    }
}

// The seat asks the next row, or gives up once it has asked all.
fn to_seek(local: &mut Local, rows: u32) -> StepDone
    ensures { outcome local.new result ≡ to_seek rows local.old }
{
    if local.rebalance.asked >= rows {
        return give_back(local, Afterwards::Refuse);
    }
    local.rebalance.sought = row_behind(rows, local.rebalance.sought);
    local.rebalance.asked += 1;
    to(local, Activity::Rebalance(Rebalance::Seek(Seek::Next)))
}

// The seat was told the state of the row that it asks.
pub(crate) fn seek(local: &mut Local, rows: u32, found: u64) -> StepDone
    ensures { outcome local.new result ≡ seek_seen rows (state_of found)
        (seeking local.old.rebalance.sought local.old) }
{
    match State::unpack(found) {
        Some(State::Free) => to(local, Activity::Rebalance(Rebalance::Seek(Seek::Take))),
        Some(State::Retired(number)) => {
            local.rebalance.number = number;
            to(local, Activity::Rebalance(Rebalance::Seek(Seek::Pass(0))))
        }
        _ => to_seek(local, rows),
    }
}

// The seat was told the state of the first row that it asks.
pub(crate) fn seek_first(local: &mut Local, rows: u32, choice: Choice, found: u64) -> StepDone
    ensures { outcome local.new result ≡
        (seek_first_transition choice local.old).next rows found }
{
    if let Choice::Guess(row) = choice {
        local.rebalance.sought = row;
    }
    seek(local, rows, found)
}

// The seat goes on to the visit of this seat, or frees the row once it has looked at all visits.
fn to_pass(local: &mut Local, seat: u32) -> StepDone
    ensures { outcome local.new result ≡ to_pass product seat local.old }
{
    if seat < SEAT_COUNT {
        return to(
            local,
            Activity::Rebalance(Rebalance::Seek(Seek::Pass(seat))),
        );
    }
    to(local, Activity::Rebalance(Rebalance::Seek(Seek::Reclaim)))
}

// The seat was told the epoch that this seat has announced, while it asks for a retired row.
pub(crate) fn pass(local: &mut Local, rows: u32, seat: u32, found: u64) -> StepDone
    requires { seat < SEATS }
    ensures { outcome local.new result ≡ pass_seen product seat rows (pass_of_word found)
        local.old }
{
    match unpack_pass(found) {
        Some(epoch) if epoch <= local.rebalance.number => to_seek(local, rows),
        _ => to_pass(local, seat + 1),
    }
}

// The seat has tried to take the row, and was told the state found.
pub(crate) fn take_row(local: &mut Local, rows: u32, found: u64) -> StepDone
    requires { length local.old.rebalance.taken < length local.old.rebalance.starts }
    ensures { outcome local.new result ≡ take_row rows (found == state_word State.Free) local.old }
{
    if found != State::Free.pack() {
        return to_seek(local, rows);
    }
    let wanted = local.rebalance.starts.as_slice().len();
    let row = local.rebalance.sought;
    local.rebalance.taken.push(row);
    if local.rebalance.taken.as_slice().len() < wanted {
        return to_seek(local, rows);
    }
    local.rebalance.at = 0;
    to(local, Activity::Rebalance(Rebalance::Write(Write::Count)))
}
