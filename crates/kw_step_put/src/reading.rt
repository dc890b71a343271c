//! What a reader learns from its events along a row's list, one function for each thing.
//!
//! None of these takes memory or changes what the seat does next: `resume_cells` puts the events
//! together from them, and so does the running map, which makes each event by itself.
ghost use Rattle.std.specs.Prelude.{◌≡◌, ◌≤◌, ◌<◌, true, false, length, remove, unwrap_or, IfSome, IfNone, None};
ghost use Rattle.kw_words.specs.Plain.{value_of_word, version_of_word};
ghost use Rattle.kw_words.specs.declared.sizes.TheConstants.{CELLS};
ghost use Rattle.kw_world.specs.declared.activity.Activity.{Activity};
ghost use Rattle.kw_world.specs.declared.activity.read.Read.{Read};
ghost use Rattle.kw_world.specs.Sizes.{product};
ghost use Rattle.kw_world.specs.Marks.{least_mark};
ghost use Rattle.kw_world.specs.ListTransitions.{behind_cell, past_cell};
ghost use Rattle.kw_world.specs.ReadTransitions.{reaching, gathering, to_left_over};

use crate::resume_insert::one_more;
use kw_cells::cell::Cell;
use kw_words::plain::{unpack_value, unpack_version};
use kw_world::local::Local;

/// The reader has reached this cell behind its link, and need not remember it any more.
#[inline(always)]
pub fn reach(local: &mut Local, cell: u32)
    requires { local.old.walked ≤ CELLS }
    ensures { local.new ≡ reaching product cell local.old }
{
    local.place = cell;
    local.walked = one_more(local.walked);
    local.remembered.forget(cell);
}

/// The walk begins behind this cell.
#[inline(always)]
pub fn begin_behind(local: &mut Local, cell: u32)
    ensures { local.new ≡ behind_cell cell local.old }
{
    local.link = Some(cell);
}

/// The walk stands at the link after the cell that it reached.
#[inline(always)]
pub fn go_by_cell(local: &mut Local)
    ensures { local.new ≡ past_cell local.old }
{
    local.link = Some(local.place);
}

/// The reader was told the version of the cell that it reached. A cell without one counts as one of
/// version 1; no list has such a cell.
#[inline(always)]
pub fn hold_version(local: &mut Local, found: u64)
    ensures { local.new ≡ record local.old { place_version = unwrap_or (version_of_word found) 1 } }
{
    local.place_version = unpack_version(found).unwrap_or(1);
}

/// The reader was told the value of the cell in hand, and gathers the cell. The answer is the place
/// at which it was put.
#[inline(always)]
pub fn gather(local: &mut Local, found: u64) -> Option<usize>
    ensures gathered { local.new ≡ gathering product (value_of_word found) local.old }
    ensures put { IfSome result (λ at. (at < length local.new.gathered)
        × (remove local.new.gathered at ≡ local.old.gathered)) }
    ensures kept { IfNone result (local.new ≡ local.old) }
{
    local.gathered.gather(Cell {
        key: local.place_key,
        place: local.place,
        version: local.place_version,
        value: unpack_value(found),
    })
}

/// Takes a remembered cell of the least place in hand, whose key is to be loaded next. Whether
/// there is one.
pub fn take_remembered(local: &mut Local) -> bool
    ensures taken { result ≡ true → record local.new { activity = (Activity.Read Read.LeftOverKey) }
        ≡ (to_left_over local.old).local }
    ensures same { result ≡ true → local.new.activity ≡ local.old.activity }
    ensures none { result ≡ false → (local.new ≡ local.old)
        × (least_mark local.old.remembered ≡ None) }
{
    match local.remembered.least() {
        Some(mark) => {
            local.place = mark.cell;
            local.place_version = mark.version;
            local.remembered.forget(mark.cell);
            true
        }
        None => false,
    }
}
