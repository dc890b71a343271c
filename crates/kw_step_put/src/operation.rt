//! Which operation a seat makes.
//!
//! The operation depends on what the seat knows and on its choice, and on no word.
ghost use Rattle.std.specs.Prelude.{◌≡◌, ◌<◌, Some};
ghost use Rattle.kw_words.specs.Pend.{pend_word};
ghost use Rattle.kw_words.specs.Scan.{scan_word};
ghost use Rattle.kw_world.specs.Sizes.{product};
ghost use Rattle.kw_world.specs.Parts.{part_of};
ghost use Rattle.kw_world.specs.declared.part.Part.{Part};
ghost use Rattle.kw_words.specs.Plain.{cell_link_word};
ghost use Rattle.kw_world.specs.ListTransitions.{link_name, first_operation};
ghost use Rattle.kw_world.specs.Sane.{IsLocal, IsVersion, IsCellBelow};
ghost use Rattle.kw_world.specs.Step.{transition_of};
ghost use Rattle.kw_words.specs.declared.sizes.TheConstants.{CELLS};

use kw_words::kind::Kind;
use kw_words::layout::Name;
use kw_words::pend::Pend;
use kw_words::plain::{pack_cell_link, pack_key, pack_pass, pack_value, pack_version};
use kw_words::scan::ScanWord;
use kw_world::activity::Activity;
use kw_world::activity::draw::Draw;
use kw_world::activity::enter::Enter;
use kw_world::activity::insert::Insert;
use kw_world::activity::look::Look;
use kw_world::activity::put::Put;
use kw_world::activity::read::Read;
use kw_world::activity::walk::Walk;
use kw_world::calls::{first_key, put_value};
use kw_world::event::Choice;
use kw_world::local::Local;
use kw_world::operation::{Action, Operation};

/// The operation of the event that a seat makes with this choice.
#[tactic(auto, unfolding(kw_world::specs::Step::transition_of))]
pub fn put_operation(seat: u32, local: &Local, choice: Choice) -> Operation
    requires local { IsLocal product local.now }
    requires part { part_of choice local.now ≡ Part.Put }
    ensures { result ≡ (transition_of product seat choice local.now).operation }
{
    let row = local.row;
    let cell = local.cell;
    match local.activity {
        Activity::Idle => load(Kind::LoadEpoch, Name::Epoch),
        Activity::Enter(Enter::Announce) => {
            let pass = pack_pass(Some(local.epoch));
            store(Kind::StorePass, Name::Pass(seat), pass)
        }
        Activity::Draw(Draw::Clock) => load(Kind::LoadClock, Name::Clock),
        Activity::Draw(Draw::Wait) => {
            let waiting = ScanWord::Waiting(local.waiting).pack();
            store(Kind::StoreWaiting, Name::Scan(seat), waiting)
        }
        Activity::Draw(Draw::Version) => add_one(Kind::Draw, Name::Clock),
        Activity::Draw(Draw::Settle) => settle(seat, local.waiting, local.drawn),
        Activity::Draw(Draw::Pin) => {
            let pin = ScanWord::Drawn(local.version).pack();
            store(Kind::StorePin, Name::Pin(seat), pin)
        }
        Activity::Walk(Walk::Next) => clear_scan(seat),
        Activity::Look(Look::Entry(entry)) => load(Kind::LoadPend, Name::Pend(row, entry)),
        Activity::Look(Look::Key) => load(Kind::LoadKey, Name::Key(row, local.saw)),
        Activity::Look(Look::Clock) => load(Kind::LoadClock, Name::Clock),
        Activity::Look(Look::Help) => {
            let entry = Name::Pend(row, local.looked);
            stamp(Kind::HelpStamp, entry, local.saw, local.helping)
        }
        Activity::Read(Read::Start) | Activity::Insert(Insert::Start) => {
            first_operation(local, local.cell_guess(choice))
        }
        Activity::Read(Read::Link) => load(Kind::LoadAfter, link_name(row, local.link)),
        Activity::Read(Read::Key) => load(Kind::LoadKey, Name::Key(row, local.place)),
        Activity::Read(Read::Version) => load(Kind::LoadVersion, Name::Version(row, local.place)),
        Activity::Read(Read::Value) => load(Kind::LoadValue, Name::Value(row, local.place)),
        Activity::Read(Read::LeftOverKey) => load(Kind::LoadKey, Name::Key(row, local.place)),
        Activity::Read(Read::LeftOverValue) => load(Kind::LoadValue, Name::Value(row, local.place)),
        Activity::EndScan(_) => clear_scan(seat),
        Activity::ClearPin => {
            let quiet = ScanWord::Quiet.pack();
            store(Kind::ClearPin, Name::Pin(seat), quiet)
        }
        Activity::Put(Put::Count) => load(Kind::LoadCount, Name::Count(row)),
        Activity::Put(Put::Add) => add_one(Kind::AddCount, Name::Count(row)),
        Activity::Put(Put::Key) => {
            let key = pack_key(first_key(local.call));
            store(Kind::StoreKey, Name::Key(row, cell), key)
        }
        Activity::Put(Put::Value) => {
            let value = pack_value(put_value(local.call));
            store(Kind::StoreValue, Name::Value(row, cell), value)
        }
        Activity::Put(Put::Announce) => announce(Name::Pend(row, seat), cell),
        Activity::Put(Put::Clock) => load(Kind::LoadClock, Name::Clock),
        Activity::Put(Put::Stamp) => {
            let entry = Name::Pend(row, seat);
            stamp(Kind::Stamp, entry, cell, local.version)
        }
        Activity::Put(Put::Version) => {
            let version = pack_version(Some(local.version));
            store(Kind::StoreVersion, Name::Version(row, cell), version)
        }
        Activity::Insert(Insert::Link) => load(Kind::LoadAfter, link_name(row, local.link)),
        Activity::Insert(Insert::Key) => load(Kind::LoadKey, Name::Key(row, local.place)),
        Activity::Insert(Insert::Version) => load(
            Kind::LoadVersion,
            Name::Version(row, local.place),
        ),
        Activity::Insert(Insert::Set) => {
            let held = pack_cell_link(local.held);
            store(Kind::StoreAfter, Name::After(row, cell), held)
        }
        Activity::Insert(Insert::Exchange) => insert(link_name(row, local.link), local.held, cell),
        Activity::Put(Put::Clear) => {
            let idle = Pend::Idle.pack();
            store(Kind::ClearPend, Name::Pend(row, seat), idle)
        }
        Activity::Leave(_) => {
            let pass = pack_pass(None);
            store(Kind::ClearPass, Name::Pass(seat), pass)
        }
        _ => unreachable!(),
    }
}

// A load of a word.
fn load(kind: Kind, name: Name) -> Operation
    ensures { result ≡ record { kind = kind; name = name; action = Action.Load } }
{
    let action = Action::Load;
    Operation { kind, name, action }
}

// A store into a word.
fn store(kind: Kind, name: Name, word: u64) -> Operation
    ensures { result ≡ record { kind = kind; name = name; action = Action.Store word } }
{
    let action = Action::Store(word);
    Operation { kind, name, action }
}

// An addition of one to a word.
fn add_one(kind: Kind, name: Name) -> Operation
    ensures { result ≡ record { kind = kind; name = name; action = Action.Add 1 } }
{
    let action = Action::Add(1);
    Operation { kind, name, action }
}

// The exchange that gives a waiting scan its version.
fn settle(seat: u32, waiting: u64, drawn: u64) -> Operation
    requires waiting { IsVersion waiting }
    requires drawn { IsVersion drawn }
    ensures { result ≡ record {
      kind = Kind.Settle;
      name = Name.Scan seat;
      action = Action.Exchange
          (scan_word (ScanWord.Waiting waiting)) (scan_word (ScanWord.Drawn drawn));
    } }
{
    let waiting = ScanWord::Waiting(waiting).pack();
    let drawn = ScanWord::Drawn(drawn).pack();
    Operation {
        kind: Kind::Settle,
        name: Name::Scan(seat),
        action: Action::Exchange(waiting, drawn),
    }
}

// The store that ends a scan.
fn clear_scan(seat: u32) -> Operation
    ensures { result ≡ record {
      kind = Kind.ClearScan;
      name = Name.Scan seat;
      action = Action.Store
          (scan_word ScanWord.Quiet);
    } }
{
    let quiet = ScanWord::Quiet.pack();
    store(Kind::ClearScan, Name::Scan(seat), quiet)
}

// The exchange that announces a cell.
fn announce(name: Name, cell: u32) -> Operation
    requires { cell < CELLS }
    ensures { result ≡ record {
      kind = Kind.Announce;
      name = name;
      action = Action.Exchange
          (pend_word Pend.Idle) (pend_word (Pend.Pending cell));
    } }
{
    let idle = Pend::Idle.pack();
    let pending = Pend::Pending(cell).pack();
    Operation {
        kind: Kind::Announce,
        name,
        action: Action::Exchange(idle, pending),
    }
}

// The exchange that gives a pending cell its version.
fn stamp(kind: Kind, name: Name, cell: u32, version: u64) -> Operation
    requires cell { cell < CELLS }
    requires version { IsVersion version }
    ensures { result ≡ record {
      kind = kind;
      name = name;
      action = Action.Exchange
          (pend_word (Pend.Pending cell)) (pend_word (Pend.Stamped cell version));
    } }
{
    let pending = Pend::Pending(cell).pack();
    let stamped = Pend::Stamped(cell, version).pack();
    Operation {
        kind,
        name,
        action: Action::Exchange(pending, stamped),
    }
}

/// The word of a link between the cells of a row: that after a cell, or the row's first.
pub fn link_name(row: u32, link: Option<u32>) -> Name
    ensures { result ≡ link_name row link }
{
    match link {
        Some(cell) => Name::After(row, cell),
        None => Name::First(row),
    }
}

// The load with which a walk along a row's list begins: that of the guessed cell's key, or of the
// link at which the walk stands.
fn first_operation(local: &Local, guess: Option<u32>) -> Operation
    ensures { result ≡ first_operation guess local.now }
{
    match guess {
        Some(cell) => load(Kind::LoadKey, Name::Key(local.row, cell)),
        None => load(Kind::LoadAfter, link_name(local.row, local.link)),
    }
}

// The exchange that inserts a cell at a link, which held this.
fn insert(name: Name, held: Option<u32>, cell: u32) -> Operation
    requires held { IsCellBelow CELLS held }
    requires cell { cell < CELLS }
    ensures { result ≡ record {
      kind = Kind.Insert;
      name = name;
      action = Action.Exchange
          (cell_link_word held) (cell_link_word (Some cell));
    } }
{
    let held = pack_cell_link(held);
    let own = pack_cell_link(Some(cell));
    Operation {
        kind: Kind::Insert,
        name,
        action: Action::Exchange(held, own),
    }
}
