//! The rows of a scan whose pairs are handed on cell by cell.
//!
//! A row whose keys are all in the range is read without writing its cells down: each pair is
//! handed on when the first cell of its key that the scan's version may show is read, for the cells
//! of a key come by falling version. The first row of a scan and its last one, and one at whose
//! entries puts were met, are read as `scanning` says.
ghost use Rattle.std.specs.Prelude.{◌≡◌, ℕ, ◌≤◌, ◌<◌, [], OnOk, OnErr, is_ok, false, Some};
ghost use Rattle.kw_words.specs.Plain.{IsValue};
ghost use Rattle.kw_model.specs.Counts.{CountRose};
ghost use Rattle.kw_world.specs.Calls.{last_key};
ghost use Rattle.kw_live.specs.Streaming.{LeadsOn};
ghost use Rattle.kw_follow.specs.Following.{Follows, GoesTo};
ghost use Rattle.kw_map.specs.Gather.{IsBelow, StandsAsBefore, Takes};
ghost use Rattle.kw_map.specs.Handing.{HandsOn, more_of, next_low};

use crate::gather::{Gather, Stop};
use kw_cells::cell::Cell;
use kw_follow::Cursor;
use kw_live::{go_by_rows, leads_on, look_at_row, next_cell};
use kw_model::call::Call;
use kw_table::{Pass, Shared};
use kw_world::activity::Activity;
use kw_world::activity::look::Look;
use kw_world::activity::read::Read;
use kw_world::calls::first_key;
use kw_world::local::Local;

/// Hands on the pairs of the rows from the one at which a scan stands, as long as they lead on, and
/// looks at the entries of the first that does not.
///
/// The scan ends at `upto`. It then stands at the list of that row. Where the gatherer stops, that
/// is the row after the one in which it did. Takes no memory.
pub(crate) fn hand_rows<G: Gather>(
    shared: &Shared,
    pass: &mut Pass,
    local: &mut Local,
    upto: u32,
    into: &mut G,
) -> Result<(), Stop>
    requires follows { Follows shared.now pass.old local.old }
    requires stage { local.old.activity ≡ Activity.Look (Look.Entry 0) }
    requires scan { (from : ℕ) × (local.old.call ≡ Some (Call.Scan from upto)) }
    requires above { IsBelow (G.last into.old) local.old.want }
    ensures goes { GoesTo shared.now pass.old pass.new }
    ensures follows { Follows shared.now pass.new local.new }
    ensures activity { local.new.activity ≡ Activity.Read Read.Start }
    ensures hands { HandsOn G.last G.stands G.stops pass.old local.old into.old pass.new local.new into.new result }
{
    let first = first_key(local.call);
    let mut ended = Ok(());
    loop {
        look_at_row(shared, pass, local);
        if ended.is_err() || !leads_on(local, first, upto) {
            return ended;
        }
        ended = hand_row(shared, pass, local, into);
    }
}

/// Hands on the pairs of a row that leads on, while the scan goes along its list, and walks to the
/// next row.
///
/// Where the gatherer stops, the scan goes on to that row all the same: it can stop at the end of a
/// row alone. Takes no memory.
fn hand_row<G: Gather>(
    shared: &Shared,
    pass: &mut Pass,
    local: &mut Local,
    into: &mut G,
) -> Result<(), Stop>
    requires follows { Follows shared.now pass.old local.old }
    requires stage { local.old.activity ≡ Activity.Read Read.Start }
    requires leads { LeadsOn local.old }
    requires none { local.old.gathered ≡ [] }
    requires above { IsBelow (G.last into.old) local.old.want }
    ensures goes { GoesTo shared.now pass.old pass.new }
    ensures follows { Follows shared.now pass.new local.new }
    ensures activity { local.new.activity ≡ Activity.Look (Look.Entry 0) }
    ensures rises { local.old.want < local.new.want }
    ensures within { local.new.want ≤ last_key local.old.call }
    ensures hands { HandsOn G.last G.stands G.stops pass.old local.old into.old pass.new local.new into.new result }
{
    let version = local.version;
    let mut low = u64::from(local.want);
    let mut ended = Ok(());
    let mut cursor = Cursor::of(local);
    while let Some((cell, next)) = next_cell(shared, pass, local, cursor) {
        cursor = next;
        ended = hand_cell(into, &mut low, version, cell, ended);
    }
    go_by_rows(shared, pass, local);
    ended
}

/// Hands on the pair that a cell adds to those of the cells before it, where the gatherer has not
/// stopped.
///
/// All cells of keys below `low` are settled: the pair of such a key, if it has one, was handed on.
#[inline(always)]
fn hand_cell<G: Gather>(
    into: &mut G,
    low: &mut u64,
    version: u64,
    cell: Cell,
    ended: Result<(), Stop>,
) -> Result<(), Stop>
    requires value { IsValue cell.value }
    requires above { OnOk ended (IsBelow (G.last into.old) low.old) }
    ensures low { low.new ≡ next_low low.old version cell }
    ensures all { OnOk result (Takes G.last G.stands into.old (more_of low.old version cell) into.new) }
    ensures kept { OnErr result (StandsAsBefore G.last G.stands into.old into.new) }
    ensures stays { OnErr ended (is_ok result ≡ false) }
    ensures stopped { OnOk ended (OnErr result (CountRose (G.stops into.old) (G.stops into.new))) }
    ensures still { OnErr ended (G.stops into.new ≡ G.stops into.old) }
    ensures never_falls { G.stops into.old ≤ G.stops into.new }
{
    let key = u64::from(cell.key);
    if key < *low || cell.version > version {
        return ended;
    }
    *low = key + 1;
    match cell.value {
        Some(value) if ended.is_ok() => into.take(cell.key, value),
        _ => ended,
    }
}
