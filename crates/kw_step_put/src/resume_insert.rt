//! What a put knows after its events along the row's list.
//!
//! Once the version stands in the cell, the put walks from link to link past every cell that stands
//! before its own, stores what the last link holds in its own one, and exchanges that link for one
//! to its cell. Where another put was there first, it begins its walk again.
ghost use Rattle.std.specs.Prelude.{◌≡◌, ◌==◌, ◌≤◌, unwrap_or};
ghost use Rattle.kw_words.specs.Plain.{key_of_word, version_of_word, cell_link_word, cell_of_link_word};
ghost use Rattle.kw_words.specs.declared.sizes.TheConstants.{CELLS};
ghost use Rattle.kw_world.specs.Sizes.{product};
ghost use Rattle.kw_world.specs.Sane.{IsCellBelow};
ghost use Rattle.kw_world.specs.Transition.{outcome, to};
ghost use Rattle.kw_world.specs.ListTransitions.{at_first, one_more, to_insert, insert_started, insert_guessed, insert_from, insert_past, insert_key, insert_version, insert_tried, is_newer};

use crate::reading::begin_behind;
use crate::resume::to;
use kw_words::plain::{pack_cell_link, unpack_cell_link, unpack_key, unpack_version};
use kw_words::sizes::CELL_COUNT;
use kw_world::activity::Activity;
use kw_world::activity::insert::Insert;
use kw_world::activity::put::Put;
use kw_world::calls::first_key;
use kw_world::event::StepDone;
use kw_world::local::Local;

// One more, and never more than there are cells.
pub(crate) fn one_more(count: u32) -> u32
    requires { count ≤ CELLS }
    ensures { result ≡ one_more product count }
{
    (count + 1).min(CELL_COUNT)
}

// The walk begins at the row's first link.
fn go_to_first(local: &mut Local)
    ensures { local.new ≡ at_first local.old }
{
    local.link = None;
    local.walked = 0;
}

/// The seat has stored the version of its cell, and begins to insert it.
pub fn start_insert(local: &mut Local) -> StepDone
    ensures { outcome local.new result ≡ to_insert local.old }
{
    go_to_first(local);
    local.lost = 0;
    to(local, Activity::Insert(Insert::Start))
}

/// The seat was told the key of the guessed cell, or the link at which it stands.
pub(crate) fn insert_start(local: &mut Local, guess: Option<u32>, found: u64) -> StepDone
    requires { local.old.walked ≤ CELLS }
    ensures { outcome local.new result ≡ insert_started product local.old guess found }
{
    match guess {
        Some(cell) => insert_guessed(local, cell, found),
        None => insert_from(local, found),
    }
}

/// The seat was told the key of the guessed cell: it begins behind it, if its own key is greater.
pub fn insert_guessed(local: &mut Local, cell: u32, found: u64) -> StepDone
    ensures { outcome local.new result ≡ insert_guessed cell (key_of_word found) local.old }
{
    if unpack_key(found) < first_key(local.call) {
        begin_behind(local, cell);
    }
    to(local, Activity::Insert(Insert::Link))
}

/// The seat was told the link at which it stands.
pub fn insert_from(local: &mut Local, found: u64) -> StepDone
    requires { local.old.walked ≤ CELLS }
    ensures { outcome local.new result ≡ insert_from product (cell_of_link_word found) local.old }
{
    match unpack_cell_link(found) {
        Some(cell) => {
            local.held = Some(cell);
            local.place = cell;
            local.walked = one_more(local.walked);
            to(local, Activity::Insert(Insert::Key))
        }
        None => {
            local.held = None;
            end_walk(local)
        }
    }
}

// The walk goes by the cell that it reached.
fn pass(local: &mut Local) -> StepDone
    ensures { outcome local.new result ≡ insert_past local.old }
{
    local.link = Some(local.place);
    to(local, Activity::Insert(Insert::Link))
}

// The own cell stands before what the link led to, and is to get the same link.
fn end_walk(local: &mut Local) -> StepDone
    ensures { outcome local.new result ≡ to (Activity.Insert Insert.Set) local.old }
{
    to(local, Activity::Insert(Insert::Set))
}

/// The seat was told the key of the cell that it reached.
pub fn insert_key(local: &mut Local, found: u64) -> StepDone
    ensures { outcome local.new result ≡ insert_key (key_of_word found) local.old }
{
    let key = unpack_key(found);
    let own = first_key(local.call);
    if key < own {
        pass(local)
    } else if key == own {
        to(local, Activity::Insert(Insert::Version))
    } else {
        end_walk(local)
    }
}

// Whether a cell of the own key, of this version and at this place, stands before the own cell.
fn is_newer(local: &Local, version: u64, place: u32) -> bool
    ensures { result ≡ is_newer version place local.now }
{
    local.version < version || version == local.version && local.cell < place
}

/// The seat was told the version of the cell that it reached, which has its own key.
pub fn insert_version(local: &mut Local, found: u64) -> StepDone
    ensures { outcome local.new result ≡ insert_version (version_of_word found) local.old }
{
    let version = unpack_version(found).unwrap_or(0);
    let place = local.place;
    if is_newer(local, version, place) {
        pass(local)
    } else {
        end_walk(local)
    }
}

/// The seat has tried to insert its cell, and was told the link found.
pub fn insert(local: &mut Local, found: u64) -> StepDone
    requires held { IsCellBelow CELLS local.old.held }
    requires lost { local.old.lost ≤ CELLS }
    ensures { outcome local.new result ≡ insert_tried product
        (found == cell_link_word local.old.held) local.old }
{
    if found == pack_cell_link(local.held) {
        to(local, Activity::Put(Put::Clear))
    } else {
        go_to_first(local);
        local.lost = one_more(local.lost);
        to(local, Activity::Insert(Insert::Start))
    }
}
