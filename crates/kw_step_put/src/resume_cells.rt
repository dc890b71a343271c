//! What a reader knows after its events along the row's list, and after the last of them.
//!
//! `reading` has what the events themselves tell. The end of a row's cells has no event of its own:
//! it follows from the event that ends the walk, or from that on the last remembered cell that was
//! not reached. A get has its answer then. A scan adds the pairs of the row to its own, the one
//! place of a step that takes memory, and goes on to the next row or ends.
ghost use Rattle.std.specs.Prelude.{◌≡◌, ◌+◌, ◌<◌, ◌≤◌, ◌++◌, true, length, remove, IfOk, IfSome, IfNone, OnOk, OnErr};
ghost use Rattle.kw_words.specs.Plain.{key_of_word, value_of_word, version_of_word, cell_of_link_word};
ghost use Rattle.kw_words.specs.declared.sizes.TheConstants.{CELLS};
ghost use Rattle.kw_cells.specs.Cells.{shown_at, pairs_of};
ghost use Rattle.kw_cells.specs.InOrder.{AreInOrder};
ghost use Rattle.kw_world.specs.Answers.{answer_found};
ghost use Rattle.kw_world.specs.Sizes.{product};
ghost use Rattle.kw_world.specs.Calls.{is_in_range, is_scan};
ghost use Rattle.kw_world.specs.Transition.{outcome, to, leave};
ghost use Rattle.kw_world.specs.ReadTransitions.{list_started, list_guessed, list_reached, list_key, list_version, list_past, left_over_key, to_left_over, row_read, row_scanned, scan_on, scan_ended, get_answered, gathering};

use crate::reading::{begin_behind, gather, go_by_cell, hold_version, reach, take_remembered};
use crate::resume::{leave, to};
use kw_cells::cell::Cell;
use kw_cells::in_order::{first_fit, next_in_order};
use kw_model::call::Call;
use kw_model::memory::Memory;
use kw_model::pair_list::PairList;
use kw_words::plain::{unpack_cell_link, unpack_key};
use kw_world::activity::Activity;
use kw_world::activity::read::Read;
use kw_world::activity::walk::Walk;
use kw_world::answer::Answer;
use kw_world::calls::{first_key, is_in_range, last_key};
use kw_world::event::StepDone;
use kw_world::limits::NEWEST;
use kw_world::local::Local;

// The seat was told the key of the guessed cell, or the link at which it stands.
pub(crate) fn list_start(
    local: &mut Local,
    guess: Option<u32>,
    found: u64,
) -> Result<StepDone, Memory>
    requires { local.old.walked ≤ CELLS }
    ensures ok { IfOk result (λ done. outcome local.new done
        ≡ list_started product local.old guess found) }
    ensures err { OnErr result (local.new ≡ local.old) }
    ensures scan { OnErr result (is_scan local.old.call ≡ true) }
{
    match guess {
        Some(cell) => Ok(list_guessed(local, cell, found)),
        None => list_from(local, found),
    }
}

// The seat was told the key of the guessed cell: it begins behind it, if the key is below its
// range.
fn list_guessed(local: &mut Local, cell: u32, found: u64) -> StepDone
    ensures { outcome local.new result ≡ list_guessed cell (key_of_word found) local.old }
{
    if unpack_key(found) < first_key(local.call) {
        begin_behind(local, cell);
    }
    to(local, Activity::Read(Read::Link))
}

// The seat was told the link at which it stands.
pub(crate) fn list_from(local: &mut Local, found: u64) -> Result<StepDone, Memory>
    requires { local.old.walked ≤ CELLS }
    ensures ok { IfOk result (λ done. outcome local.new done
        ≡ list_reached product (cell_of_link_word found) local.old) }
    ensures err { OnErr result (local.new ≡ local.old) }
    ensures scan { OnErr result (is_scan local.old.call ≡ true) }
{
    match unpack_cell_link(found) {
        Some(cell) => {
            reach(local, cell);
            Ok(to(local, Activity::Read(Read::Key)))
        }
        None => to_left_over(local),
    }
}

// The seat was told the key of the cell that it reached.
pub(crate) fn list_key(local: &mut Local, found: u64) -> Result<StepDone, Memory>
    ensures ok { IfOk result (λ done. outcome local.new done ≡ list_key (key_of_word found)
        local.old) }
    ensures err { OnErr result (local.new ≡ local.old) }
    ensures scan { OnErr result (is_scan local.old.call ≡ true) }
{
    let key = unpack_key(found);
    if key < first_key(local.call) {
        Ok(go_on_past(local))
    } else if key <= last_key(local.call) {
        local.place_key = key;
        Ok(to(local, Activity::Read(Read::Version)))
    } else {
        to_left_over(local)
    }
}

// The seat was told the version of that cell.
pub(crate) fn list_version(local: &mut Local, found: u64) -> StepDone
    ensures { outcome local.new result ≡ list_version (version_of_word found) local.old }
{
    hold_version(local, found);
    to(local, Activity::Read(Read::Value))
}

// The seat was told the value of that cell, and gathers it.
pub(crate) fn list_value(local: &mut Local, found: u64) -> StepDone
    ensures { outcome local.new result
        ≡ list_past (gathering product (value_of_word found) local.old) }
{
    gather(local, found);
    go_on_past(local)
}

// The walk goes by the cell that it reached.
fn go_on_past(local: &mut Local) -> StepDone
    ensures { outcome local.new result ≡ list_past local.old }
{
    go_by_cell(local);
    to(local, Activity::Read(Read::Link))
}

// The seat was told the key of a remembered cell.
pub(crate) fn left_over_key(local: &mut Local, found: u64) -> Result<StepDone, Memory>
    ensures ok { IfOk result (λ done. outcome local.new done ≡ left_over_key (key_of_word found)
        local.old) }
    ensures err { OnErr result (local.new ≡ local.old) }
    ensures scan { OnErr result (is_scan local.old.call ≡ true) }
{
    let key = unpack_key(found);
    if is_in_range(local.call, key) {
        local.place_key = key;
        Ok(to(local, Activity::Read(Read::LeftOverValue)))
    } else {
        to_left_over(local)
    }
}

// The seat was told the value of that cell, and gathers it.
pub(crate) fn left_over_value(local: &mut Local, found: u64) -> Result<StepDone, Memory>
    ensures ok { IfOk result (λ done. outcome local.new done
        ≡ to_left_over (gathering product (value_of_word found) local.old)) }
    ensures err { OnErr result (local.new ≡ local.old) }
    ensures scan { OnErr result (is_scan local.old.call ≡ true) }
{
    let put = gather(local, found);
    match to_left_over(local) {
        Ok(done) => Ok(done),
        Err(memory) => {
            take_back(local, put);
            Err(memory)
        }
    }
}

// The cell that was gathered at this place, if there is one, is not gathered any more.
fn take_back(local: &mut Local, put: Option<usize>)
    requires { IfSome put (λ at. at < length local.old.gathered) }
    ensures taken { IfSome put (λ at. local.new ≡ record local.old {
      gathered = remove
          local.old.gathered at;
    }) }
    ensures none { IfNone put (local.new ≡ local.old) }
{
    if let Some(at) = put {
        local.gathered.remove(at);
    }
}

// The seat goes on to a remembered cell that it did not reach, or the row is read.
fn to_left_over(local: &mut Local) -> Result<StepDone, Memory>
    ensures ok { IfOk result (λ done. outcome local.new done ≡ to_left_over local.old) }
    ensures err { OnErr result (local.new ≡ local.old) }
    ensures scan { OnErr result (is_scan local.old.call ≡ true) }
{
    if take_remembered(local) {
        return Ok(to(local, Activity::Read(Read::LeftOverKey)));
    }
    match local.call {
        Some(Call::Scan(_, upto)) => scan_row(local, upto),
        _ => {
            let key = first_key(local.call);
            Ok(answer(local, key))
        }
    }
}

// A get has read its row: what the newest cell of its key shows is the answer.
fn answer(local: &mut Local, key: u32) -> StepDone
    ensures { outcome local.new result ≡ get_answered key local.old }
{
    let shown = match first_fit(local.gathered.as_slice(), key, NEWEST) {
        Some(cell) => cell.value,
        None => None,
    };
    leave(local, Answer::found(shown))
}

// A scan has read a row: it adds the row's pairs, and goes on.
fn scan_row(local: &mut Local, upto: u32) -> Result<StepDone, Memory>
    ensures ok { IfOk result (λ done. outcome local.new done ≡ row_scanned upto local.old) }
    ensures err { OnErr result (local.new ≡ local.old) }
{
    let (want, version) = (local.want, local.version);
    add_pairs(
        &mut local.pairs,
        local.gathered.as_slice(),
        want,
        upto,
        version,
    )?;
    local.has_read = true;
    Ok(go_on(local, upto))
}

// A scan goes on with the next row, unless there is none or its keys are all above the range.
fn go_on(local: &mut Local, upto: u32) -> StepDone
    ensures { outcome local.new result ≡ scan_on local.old.next upto local.old }
{
    match local.next {
        Some(row) if local.upper <= upto => {
            local.row = row;
            local.lower = local.upper;
            local.built = 0;
            local.want = local.upper;
            local.next = None;
            local.upper = 0;
            to(local, Activity::Walk(Walk::Next))
        }
        _ => to(local, Activity::EndScan(Answer::Pairs)),
    }
}

// Adds the pairs that the cells, which are in order, show at this version in a range of keys, or
// none of them.
fn add_pairs(
    pairs: &mut PairList,
    cells: &[Cell],
    from: u32,
    upto: u32,
    version: u64,
) -> Result<(), Memory>
    requires { AreInOrder cells.now }
    ensures ok { OnOk result (pairs.new ≡ pairs.old ++ pairs_of cells.now from upto version) }
    ensures err { OnErr result (pairs.new ≡ pairs.old) }
{
    let len = pairs.pairs().len();
    let mut low = from;
    let mut at = 0;
    while let Some((key, value)) = next_in_order(cells, &mut at, low, upto, version) {
        if let Err(memory) = pairs.push(key, value) {
            pairs.truncate(len);
            return Err(memory);
        }
        if key == upto {
            return Ok(());
        }
        low = key + 1;
    }
    Ok(())
}
