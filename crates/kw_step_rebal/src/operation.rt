//! Which operation a seat makes in its rebalance.
//!
//! The operation depends on what the seat knows and on its choice, and on no word.
//! `operation_write` has those that store what a new row holds.
ghost use Rattle.std.specs.Prelude.{◌≡◌, Some};
ghost use Rattle.kw_step_rebal.specs.Families.{IsBuilding, IsClaiming, IsFreezing, IsGathering, IsGoingLeft, IsLinking};
ghost use Rattle.kw_words.specs.Link.{link_word};
ghost use Rattle.kw_words.specs.Pend.{IsPend, pend_word};
ghost use Rattle.kw_words.specs.Scan.{scan_word};
ghost use Rattle.kw_words.specs.State.{IsState, state_word};
ghost use Rattle.kw_world.specs.ListTransitions.{link_name};
ghost use Rattle.kw_world.specs.Parts.{part_of};
ghost use Rattle.kw_world.specs.ReplaceTransitions.{first_infant, replaced_link};
ghost use Rattle.kw_world.specs.Sane.{IsLocal, IsVersion};
ghost use Rattle.kw_world.specs.Sizes.{product};
ghost use Rattle.kw_world.specs.Step.{transition_of};
ghost use Rattle.kw_world.specs.Transition.{row_or_first};
ghost use Rattle.kw_world.specs.WriteTransitions.{unmarked_link};
ghost use Rattle.kw_world.specs.declared.part.Part.{Part};

use crate::infant::infant;
use crate::operation_write::{
    write_after, write_count, write_first, write_key, write_least, write_link, write_value,
    write_version,
};
use kw_words::kind::Kind;
use kw_words::layout::Name;
use kw_words::pend::Pend;
use kw_words::plain::pack_pass;
use kw_words::scan::ScanWord;
use kw_words::sizes::{FROZEN_BIT, MARK_BIT};
use kw_words::state::State;
use kw_world::activity::Activity;
use kw_world::activity::enter::Enter;
use kw_world::activity::rebalance::Rebalance;
use kw_world::activity::rebalance::claim::Claim;
use kw_world::activity::rebalance::engage::Engage;
use kw_world::activity::rebalance::freeze::Freeze;
use kw_world::activity::rebalance::gather::Gather;
use kw_world::activity::rebalance::left::Left;
use kw_world::activity::rebalance::replace::Replace;
use kw_world::activity::rebalance::seek::Seek;
use kw_world::activity::rebalance::write::Write;
use kw_world::event::Choice;
use kw_world::local::Local;
use kw_world::operation::{Action, Operation};

/// The operation of the event that a seat makes with this choice.
#[tactic(auto, unfolding(kw_world::specs::Step::transition_of))]
pub fn rebalance_operation(seat: u32, local: &Local, choice: Choice) -> Operation
    requires ranges { IsLocal product local.now }
    requires part { part_of choice local.now ≡ Part.Rebalance }
    ensures { result ≡ (transition_of product seat choice local.now).operation }
{
    let row = local.row;
    match local.activity {
        Activity::Retry => store(Kind::ClearPass, Name::Pass(seat), pack_pass(None)),
        Activity::Enter(Enter::LoadEpoch) => load(Kind::LoadEpoch, Name::Epoch),
        Activity::Rebalance(Rebalance::Engage(Engage::Clock)) => load(Kind::LoadClock, Name::Clock),
        Activity::Rebalance(Rebalance::Engage(Engage::Epoch)) => load(Kind::LoadEpoch, Name::Epoch),
        Activity::Rebalance(Rebalance::Engage(Engage::State)) => load(
            Kind::LoadState,
            Name::State(row),
        ),
        Activity::Rebalance(Rebalance::Engage(Engage::Normal(owner))) => normalise(
            Name::State(row),
            owner,
        ),
        Activity::Rebalance(Rebalance::Engage(Engage::Lead)) => {
            let state = Name::State(row);
            change_state(Kind::Engage, state, State::Normal, State::Leader(0))
        }
        Activity::Rebalance(Rebalance::Engage(Engage::MarkLink(_))) => set_bits(
            Kind::MarkLink,
            Name::Next(row),
            MARK_BIT,
        ),
        Activity::Rebalance(Rebalance::Engage(Engage::Decide(count))) => {
            let state = Name::State(row);
            change_state(Kind::Decide, state, State::Leader(0), State::Leader(count))
        }
        Activity::Rebalance(Rebalance::Claim(_)) => claim_operation(seat, local, choice),
        Activity::Rebalance(Rebalance::Left(_)) => left_operation(seat, local, choice),
        Activity::Rebalance(Rebalance::Freeze(_)) => freeze_operation(seat, local, choice),
        Activity::Rebalance(Rebalance::Gather(_)) => gather_operation(seat, local, choice),
        _ => build_operation(seat, local, choice),
    }
}

// The operation of an event by which the row after the full one is taken along.
#[tactic(auto, unfolding(kw_world::specs::Step::transition_of))]
fn claim_operation(seat: u32, local: &Local, choice: Choice) -> Operation
    requires ranges { IsLocal product local.now }
    requires family { IsClaiming local.now.activity }
    ensures { result ≡ (transition_of product seat choice local.now).operation }
{
    let next = local.rebalance.after.unwrap_or(0);
    match local.activity {
        Activity::Rebalance(Rebalance::Claim(Claim::Count)) => load(
            Kind::LoadNextCount,
            Name::Count(next),
        ),
        Activity::Rebalance(Rebalance::Claim(Claim::Exchange)) => claim(
            Name::State(next),
            local.row,
        ),
        Activity::Rebalance(Rebalance::Claim(Claim::Normal(owner))) => normalise(
            Name::State(next),
            owner,
        ),
        Activity::Rebalance(Rebalance::Claim(Claim::MarkLink)) => set_bits(
            Kind::MarkLink,
            Name::Next(next),
            MARK_BIT,
        ),
        _ => unreachable!(),
    }
}

// The operation of an event by which the seat of a follower goes left.
#[tactic(auto, unfolding(kw_world::specs::Step::transition_of))]
fn left_operation(seat: u32, local: &Local, choice: Choice) -> Operation
    requires ranges { IsLocal product local.now }
    requires family { IsGoingLeft local.now.activity }
    ensures { result ≡ (transition_of product seat choice local.now).operation }
{
    match local.activity {
        Activity::Rebalance(Rebalance::Left(Left::Start)) => match choice {
            Choice::Guess(_) => load(Kind::LoadLeast, Name::Least(row_before(local))),
            _ => load(Kind::LoadHead, Name::Head),
        },
        Activity::Rebalance(Rebalance::Left(Left::Next)) => load(
            Kind::LoadLink,
            Name::Next(row_before(local)),
        ),
        Activity::Rebalance(Rebalance::Left(Left::NextLeast)) => load(
            Kind::LoadLeast,
            Name::Least(local.candidate),
        ),
        _ => unreachable!(),
    }
}

// The operation of an event by which the rows of the group are frozen, and the scans looked at.
#[tactic(auto, unfolding(kw_world::specs::Step::transition_of))]
fn freeze_operation(seat: u32, local: &Local, choice: Choice) -> Operation
    requires ranges { IsLocal product local.now }
    requires family { IsFreezing local.now.activity }
    ensures { result ≡ (transition_of product seat choice local.now).operation }
{
    let hand = local.rebalance.hand;
    match local.activity {
        Activity::Rebalance(Rebalance::Freeze(Freeze::Count)) => set_bits(
            Kind::FreezeCount,
            Name::Count(hand),
            FROZEN_BIT,
        ),
        Activity::Rebalance(Rebalance::Freeze(Freeze::Look(entry))) => load(
            Kind::LoadPend,
            Name::Pend(hand, entry),
        ),
        Activity::Rebalance(Rebalance::Freeze(Freeze::Entry(entry))) => freeze(
            Name::Pend(hand, entry),
            local.rebalance.entry,
        ),
        Activity::Rebalance(Rebalance::Freeze(Freeze::Scan(scan))) => load(
            Kind::LoadScan,
            Name::Scan(scan),
        ),
        Activity::Rebalance(Rebalance::Freeze(Freeze::Draw(_))) => add_one(
            Kind::HelpDraw,
            Name::Clock,
        ),
        Activity::Rebalance(Rebalance::Freeze(Freeze::Settle(scan))) => {
            settle(scan, local.rebalance.waiting, local.rebalance.drawn)
        }
        Activity::Rebalance(Rebalance::Freeze(Freeze::Pin(pin))) => load(
            Kind::LoadPin,
            Name::Pin(pin),
        ),
        _ => unreachable!(),
    }
}

// The operation of an event by which the cells of the group are gathered.
#[tactic(auto, unfolding(kw_world::specs::Step::transition_of))]
fn gather_operation(seat: u32, local: &Local, choice: Choice) -> Operation
    requires ranges { IsLocal product local.now }
    requires family { IsGathering local.now.activity }
    ensures { result ≡ (transition_of product seat choice local.now).operation }
{
    let hand = local.rebalance.hand;
    match local.activity {
        Activity::Rebalance(Rebalance::Gather(Gather::Link)) => load(
            Kind::LoadAfter,
            link_name(hand, local.link),
        ),
        Activity::Rebalance(Rebalance::Gather(Gather::Key)) => load(
            Kind::LoadKey,
            Name::Key(hand, local.place),
        ),
        Activity::Rebalance(Rebalance::Gather(Gather::Version)) => load(
            Kind::LoadVersion,
            Name::Version(hand, local.place),
        ),
        Activity::Rebalance(Rebalance::Gather(Gather::Value)) => load(
            Kind::LoadValue,
            Name::Value(hand, local.place),
        ),
        Activity::Rebalance(Rebalance::Gather(Gather::LeftOverKey)) => load(
            Kind::LoadKey,
            Name::Key(hand, local.place),
        ),
        Activity::Rebalance(Rebalance::Gather(Gather::LeftOverValue)) => load(
            Kind::LoadValue,
            Name::Value(hand, local.place),
        ),
        _ => unreachable!(),
    }
}

// The operation of an event by which new rows are sought, taken and written, or linked in place of
// the full row.
#[tactic(auto, unfolding(kw_world::specs::Step::transition_of))]
fn build_operation(seat: u32, local: &Local, choice: Choice) -> Operation
    requires ranges { IsLocal product local.now }
    requires family { IsBuilding local.now.activity }
    ensures { result ≡ (transition_of product seat choice local.now).operation }
{
    let new_row = infant(local);
    match local.activity {
        Activity::Rebalance(Rebalance::Seek(Seek::First)) => match choice {
            Choice::Guess(guess) => load(Kind::LoadState, Name::State(guess)),
            _ => load(Kind::LoadState, Name::State(local.rebalance.sought)),
        },
        Activity::Rebalance(Rebalance::Seek(Seek::Next)) => load(
            Kind::LoadState,
            Name::State(local.rebalance.sought),
        ),
        Activity::Rebalance(Rebalance::Seek(Seek::Pass(other))) => load(
            Kind::LoadPass,
            Name::Pass(other),
        ),
        Activity::Rebalance(Rebalance::Seek(Seek::Reclaim)) => {
            let state = Name::State(local.rebalance.sought);
            let retired = State::Retired(local.rebalance.number);
            change_state(Kind::Reclaim, state, retired, State::Free)
        }
        Activity::Rebalance(Rebalance::Seek(Seek::Take)) => take_row(
            Name::State(local.rebalance.sought),
            seat,
        ),
        Activity::Rebalance(Rebalance::Seek(Seek::GiveBack)) => store_state(
            Kind::GiveBack,
            new_row,
            State::Free,
        ),
        Activity::Rebalance(Rebalance::Write(Write::Count)) => write_count(local, new_row),
        Activity::Rebalance(Rebalance::Write(Write::Least)) => write_least(local, new_row),
        Activity::Rebalance(Rebalance::Write(Write::Next)) => write_link(local, new_row),
        Activity::Rebalance(Rebalance::Write(Write::First)) => write_first(local, new_row),
        Activity::Rebalance(Rebalance::Write(Write::Entry(entry))) => {
            let idle = Pend::Idle.pack();
            store(Kind::StoreInfant, Name::Pend(new_row, entry), idle)
        }
        Activity::Rebalance(Rebalance::Write(Write::Key(cell))) => write_key(local, new_row, cell),
        Activity::Rebalance(Rebalance::Write(Write::Value(cell))) => write_value(
            local, new_row, cell,
        ),
        Activity::Rebalance(Rebalance::Write(Write::Version(cell))) => write_version(
            local, new_row, cell,
        ),
        Activity::Rebalance(Rebalance::Write(Write::After(cell))) => write_after(
            local, new_row, cell,
        ),
        _ => link_operation(seat, local, choice),
    }
}

// The operation of an event by which the new rows are linked in place of the group, and its rows
// are retired.
#[tactic(auto, unfolding(kw_world::specs::Step::transition_of))]
fn link_operation(seat: u32, local: &Local, choice: Choice) -> Operation
    requires ranges { IsLocal product local.now }
    requires family { IsLinking local.now.activity }
    ensures { result ≡ (transition_of product seat choice local.now).operation }
{
    match local.activity {
        Activity::Rebalance(Rebalance::Replace(Replace::Start)) => match choice {
            Choice::Guess(guess) => load(Kind::LoadState, Name::State(guess)),
            _ => load(Kind::LoadHead, Name::Head),
        },
        Activity::Rebalance(Rebalance::Replace(Replace::GuessedLeast)) => load(
            Kind::LoadLeast,
            Name::Least(row_before(local)),
        ),
        Activity::Rebalance(Rebalance::Replace(Replace::First)) => load(Kind::LoadHead, Name::Head),
        Activity::Rebalance(Rebalance::Replace(Replace::Next)) => load(
            Kind::LoadLink,
            Name::Next(row_before(local)),
        ),
        Activity::Rebalance(Rebalance::Replace(Replace::NextLeast)) => load(
            Kind::LoadLeast,
            Name::Least(local.candidate),
        ),
        Activity::Rebalance(Rebalance::Replace(Replace::Exchange)) => replace(local),
        Activity::Rebalance(Rebalance::Replace(Replace::Normalise)) => normalise(
            Name::State(infant(local)),
            seat,
        ),
        Activity::Rebalance(Rebalance::Replace(Replace::Number)) => add_one(
            Kind::Number,
            Name::Epoch,
        ),
        Activity::Rebalance(Rebalance::Replace(Replace::Retire)) => {
            let retired = State::Retired(local.rebalance.number);
            store_state(Kind::StoreRetired, local.rebalance.hand, retired)
        }
        _ => unreachable!(),
    }
}

// A load of a word.
fn load(kind: Kind, name: Name) -> Operation
    ensures { result ≡ record { kind = kind; name = name; action = Action.Load } }
{
    let action = Action::Load;
    Operation { kind, name, action }
}

// A store into a word.
pub(crate) fn store(kind: Kind, name: Name, word: u64) -> Operation
    ensures { result ≡ record { kind = kind; name = name; action = Action.Store word } }
{
    let action = Action::Store(word);
    Operation { kind, name, action }
}

// An addition of one to a word.
fn add_one(kind: Kind, name: Name) -> Operation
    ensures { result ≡ record { kind = kind; name = name; action = Action.Add 1 } }
{
    let action = Action::Add(1);
    Operation { kind, name, action }
}

// A union of a word and these bits.
fn set_bits(kind: Kind, name: Name, bits: u64) -> Operation
    ensures { result ≡ record { kind = kind; name = name; action = Action.Or bits } }
{
    let action = Action::Or(bits);
    Operation { kind, name, action }
}

// The store of a row's state.
fn store_state(kind: Kind, row: u32, state: State) -> Operation
    requires { IsState state }
    ensures { result ≡ record {
      kind = kind;
      name = Name.State row;
      action = Action.Store
          (state_word state);
    } }
{
    let word = state.pack();
    store(kind, Name::State(row), word)
}

// The exchange of one state of a row for another.
fn change_state(kind: Kind, name: Name, from: State, into: State) -> Operation
    requires from { IsState from }
    requires into { IsState into }
    ensures { result ≡ record {
      kind = kind;
      name = name;
      action = Action.Exchange
          (state_word from) (state_word into);
    } }
{
    let from = from.pack();
    let into = into.pack();
    Operation {
        kind,
        name,
        action: Action::Exchange(from, into),
    }
}

// What the word of a row's state has for a follower, below the number of its leader.
const FOLLOWER: u64 = 4;

// The exchange that makes a normal row a follower of this row, whatever number that has.
fn claim(name: Name, leader: u32) -> Operation
    ensures { result ≡ record {
      kind = Kind.EngageNext;
      name = name;
      action = Action.Exchange
          (state_word State.Normal) (state_word (State.Follower leader));
    } }
{
    let normal = State::Normal.pack();
    Operation {
        kind: Kind::EngageNext,
        name,
        action: Action::Exchange(normal, FOLLOWER + STATE_UNIT * leader as u64),
    }
}

// What the word of a row's state has for an infant, below the number of its seat.
const INFANT: u64 = 1;

// What the number of a seat is multiplied by in the word of a row's state.
const STATE_UNIT: u64 = 8;

// The word for the state of an infant of a seat, whatever number the seat has.
fn infant_word(seat: u32) -> u64
    ensures { result ≡ state_word (State.Infant seat) }
{
    INFANT + STATE_UNIT * seat as u64
}

// The exchange that makes an infant of this seat normal.
fn normalise(name: Name, seat: u32) -> Operation
    ensures { result ≡ record {
      kind = Kind.Normalise;
      name = name;
      action = Action.Exchange
          (state_word (State.Infant seat)) (state_word State.Normal);
    } }
{
    let normal = State::Normal.pack();
    Operation {
        kind: Kind::Normalise,
        name,
        action: Action::Exchange(infant_word(seat), normal),
    }
}

// The exchange that makes a free row an infant of this seat.
fn take_row(name: Name, seat: u32) -> Operation
    ensures { result ≡ record {
      kind = Kind.TakeRow;
      name = name;
      action = Action.Exchange
          (state_word State.Free) (state_word (State.Infant seat));
    } }
{
    let free = State::Free.pack();
    Operation {
        kind: Kind::TakeRow,
        name,
        action: Action::Exchange(free, infant_word(seat)),
    }
}

// The exchange of an entry for a frozen one.
fn freeze(name: Name, entry: Pend) -> Operation
    requires { IsPend entry }
    ensures { result ≡ record {
      kind = Kind.FreezePend;
      name = name;
      action = Action.Exchange
          (pend_word entry) (pend_word Pend.Frozen);
    } }
{
    let found = entry.pack();
    let frozen = Pend::Frozen.pack();
    Operation {
        kind: Kind::FreezePend,
        name,
        action: Action::Exchange(found, frozen),
    }
}

// The exchange that gives the waiting scan of a seat its version.
fn settle(seat: u32, waiting: u64, drawn: u64) -> Operation
    requires waiting { IsVersion waiting }
    requires drawn { IsVersion drawn }
    ensures { result ≡ record {
      kind = Kind.HelpSettle;
      name = Name.Scan seat;
      action =
          Action.Exchange (scan_word (ScanWord.Waiting waiting)) (scan_word (ScanWord.Drawn drawn));
    } }
{
    let waiting = ScanWord::Waiting(waiting).pack();
    let drawn = ScanWord::Drawn(drawn).pack();
    Operation {
        kind: Kind::HelpSettle,
        name: Name::Scan(seat),
        action: Action::Exchange(waiting, drawn),
    }
}

// The word of a link between the cells of a row: that after a cell, or the row's first.
fn link_name(row: u32, link: Option<u32>) -> Name
    ensures { result ≡ link_name row link }
{
    match link {
        Some(cell) => Name::After(row, cell),
        None => Name::First(row),
    }
}

// The row at which the walk to the row before the full one is, and row 0 where it is at none.
fn row_before(local: &Local) -> u32
    ensures { result ≡ row_or_first local.now.rebalance.before }
{
    local.rebalance.before.unwrap_or(0)
}

// The link that leads to the full row: that after the row before it, or the one to the first row.
fn replaced_link(before: Option<u32>) -> Name
    ensures { result ≡ replaced_link before }
{
    match before {
        Some(row) => Name::Next(row),
        None => Name::Head,
    }
}

// The word for an unmarked link to this row, or to none, whatever number the row has.
pub(crate) fn link_to(row: Option<u32>) -> u64
    ensures { result ≡ link_word (unmarked_link row) }
{
    match row {
        Some(row) => row as u64 + 1,
        None => 0,
    }
}

// The exchange of the link to the full row for one to the first of the new rows.
fn replace(local: &Local) -> Operation
    ensures { result ≡ record {
      kind = Kind.Replace;
      name = replaced_link
          local.now.rebalance.before;
      action = Action.Exchange
          (link_word (unmarked_link (Some local.now.row)))
          (link_word (unmarked_link (Some (first_infant local.now))));
    } }
{
    let first = match local.rebalance.taken.as_slice().first() {
        Some(row) => *row,
        None => 0,
    };
    let old = link_to(Some(local.row));
    let new = link_to(Some(first));
    Operation {
        kind: Kind::Replace,
        name: replaced_link(local.rebalance.before),
        action: Action::Exchange(old, new),
    }
}
