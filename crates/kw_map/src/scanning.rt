//! The rows of a scan, one after the other.
//!
//! A scan that has entered reads row after row, and hands on the pairs of each as soon as it has
//! them. The functions here take it from its entry to the point where it is about to leave, with
//! all its pairs or because the gatherer stopped.
ghost use Rattle.std.specs.Prelude.{◌≡◌, ℕ, true, Some, []};
ghost use Rattle.kw_core.specs.Stages.{is_walking};
ghost use Rattle.kw_follow.specs.Following.{Follows, held};
ghost use Rattle.kw_follow.specs.Reaching.{Reaches};
ghost use Rattle.kw_map.specs.Gather.{IsBelow};
ghost use Rattle.kw_map.specs.Scanning.{GathersRows, IsBetween, ReadsRows};

use crate::gather::{Gather, Stop, take_pairs};
use crate::handing::hand_rows;
use kw_core::stage::Stage;
use kw_live::{end_scan, locate, read_list, stop_scan};
use kw_model::call::Call;
use kw_table::{Pass, Shared};
use kw_world::activity::Activity;
use kw_world::answer::Answer;
use kw_world::local::Local;

/// Reads the rows of a scan that has entered, and hands its pairs on, until it has all of them or
/// the gatherer stops.
///
/// The scan ends at `upto`, and has no pairs yet; its walk to its first row begins at the guess, if
/// there is one. It is then about to leave with its pairs, all of which the gatherer took, or with
/// `Stopped`. Takes no memory.
pub(crate) fn gather_rows<G: Gather>(
    shared: &Shared,
    pass: &mut Pass,
    local: &mut Local,
    guess: Option<u32>,
    upto: u32,
    into: &mut G,
) -> Result<(), Stop>
    requires follows { Follows shared.now pass.old local.old }
    requires scan { (from : ℕ) × (local.old.call ≡ Some (Call.Scan from upto)) }
    requires between { IsBetween G.last into.old local.old }
    requires none { held pass.old ≡ [] }
    ensures on { Reaches shared.now pass.old pass.new local.new }
    ensures gathers { GathersRows G.last G.stands G.stops pass.old local.old into.old pass.new local.new into.new result }
{
    while Stage::of(&local.activity).is_walking() {
        if let Err(Stop) = gather_row(shared, pass, local, guess, upto, into) {
            stop_scan(shared, pass, local);
            return Err(Stop);
        }
    }
    end_scan(shared, pass, local);
    Ok(())
}

/// Reads the row of the key that a scan wants, and those behind it that can be read cell by cell,
/// and hands their pairs on.
///
/// The gatherer took no key from there on. The scan then walks on to the next row, with the least
/// key of that row as the wanted one, or is at its end.
fn gather_row<G: Gather>(
    shared: &Shared,
    pass: &mut Pass,
    local: &mut Local,
    guess: Option<u32>,
    upto: u32,
    into: &mut G,
) -> Result<(), Stop>
    requires follows { Follows shared.now pass.old local.old }
    requires scan { (from : ℕ) × (local.old.call ≡ Some (Call.Scan from upto)) }
    requires going { is_walking local.old.activity ≡ true }
    requires above { IsBelow (G.last into.old) local.old.want }
    ensures on { Reaches shared.now pass.old pass.new local.new }
    ensures call { local.new.call ≡ local.old.call }
    ensures reads { ReadsRows G.last G.stands G.stops upto pass.old local.old into.old pass.new local.new into.new result }
{
    locate(shared, pass, local, guess);
    let ended = hand_rows(shared, pass, local, upto, into);
    let low = local.want;
    read_list(shared, pass, local);
    ended?;
    take_pairs(into, &local.gathered, low, upto, local.version)
}
