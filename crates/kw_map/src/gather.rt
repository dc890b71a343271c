//! What takes the pairs of a scan, one after the other.
//!
//! A scan reads row after row and hands on each row's pairs as soon as it has them, so that it
//! needs no memory of its own and its caller keeps of them what it wants. `Gather` says what a scan
//! may rely on, and what its caller learns of the pairs in the end: implement it for whatever a
//! range is asked for. `take_pairs` hands over the pairs of one row; it must go by rising key, for
//! that is the condition of `take`.
ghost use Rattle.std.specs.Prelude.{ℕ, ◌≡◌, ◌^◌, ◌<◌, ◌≤◌, List, [], ◌∷◌, Option, All, OnOk, OnErr, Some, codes};
ghost use Rattle.kw_model.specs.Counts.{CountRose};
ghost use Rattle.kw_words.specs.declared.sizes.TheConstants.{VALUE_END};
ghost use Rattle.kw_words.specs.Plain.{IsValue};
ghost use Rattle.kw_cells.specs.Cells.{pairs_of};
ghost use Rattle.kw_map.specs.Gather.{IsBelow, StandsAsBefore, Takes, TakesPrefix};

use kw_cells::in_order::next_in_order;
use kw_words::sizes::CELLS;
use kw_world::gathered::Gathered;
use std::error::Error;
use std::fmt;

/// The gatherer takes no more pairs.
///
/// It has no further cause: the gatherer's count of stops is what tells that it happened.
#[derive(Clone, Copy, Debug, PartialEq, Eq)]
pub struct Stop;

impl fmt::Display for Stop {
    ghost output = { λ _. Some (codes "the gatherer stopped") };

    fn fmt<W: fmt::Write>(&self, f: &mut fmt::Formatter<W>) -> fmt::Result {
        write!(f, "the gatherer stopped")
    }
}

impl Error for Stop {}

/// What the pairs of a range are handed to, by strictly rising key.
///
/// A contract sees three meanings of a gatherer: `last`, the last key taken, or none; `stands`, the
/// lists of pairs for which it stands, as a relation; and `stops`, how often it stopped: a count
/// that never falls and stands still at 2^64 - 1.
///
/// A scan runs `take` for each pair while its pass is announced. Until it has returned, no row that
/// others replace meanwhile is used again, and puts may be refused for want of rows. So a `take`
/// should note what it is given and no more; what takes long is done after the scan.
pub trait Gather {
    ghost last: { Self → Option ℕ };

    ghost stands: { Self → List (ℕ × ℕ) → Type 0 };

    ghost stops: { Self → ℕ };

    /// Takes a pair. The key is above the last key taken, if there is one, and the value is below
    /// `VALUE_END`.
    ///
    /// Afterwards the gatherer stands for each list for which it stood before, with the pair at its
    /// end. `Stop` comes only where a stop was counted; the pair was then not taken, and the
    /// gatherer can be used again.
    fn take(&mut self, key: u32, value: u64) -> Result<(), Stop>
        requires above { IsBelow (last self.old) key }
        requires value { value < VALUE_END }
        ensures taken { OnOk result (Takes last stands self.old ((key, value) ∷ []) self.new) }
        ensures stopped { OnErr result (CountRose (stops self.old) (stops self.new)) }
        ensures kept { OnErr result (StandsAsBefore last stands self.old self.new) }
        ensures never_falls { stops self.old ≤ stops self.new }
        ensures count_fits { stops self.new < 2 ^ 64 };
}

/// Hands over the pairs that the cells show at this version in the range from `from` to `upto`,
/// both included, by rising key.
///
/// The cells stand in the order of a row's list, so that each is looked at once. The gatherer has
/// taken no key from `from` on, and the values of the cells are below `VALUE_END`. `Stop` comes
/// only where the gatherer stopped in this call; it has then taken the first of the pairs, up to
/// some one. Either way it can go on with a later range. Takes no memory.
pub fn take_pairs<G: Gather>(
    into: &mut G,
    cells: &Gathered<CELLS>,
    from: u32,
    upto: u32,
    version: u64,
) -> Result<(), Stop>
    requires above { IsBelow (G.last into.old) from }
    requires values { All (λ cell. IsValue cell.value) cells.now }
    ensures all { OnOk result
        (Takes G.last G.stands into.old (pairs_of cells.now from upto version) into.new) }
    ensures prefix { OnErr result
        (TakesPrefix G.last G.stands into.old (pairs_of cells.now from upto version) into.new) }
    ensures stopped { OnErr result (CountRose (G.stops into.old) (G.stops into.new)) }
    ensures never_falls { G.stops into.old ≤ G.stops into.new }

    // what a later range needs: each key that was taken lies in this one
    ensures later { (next : ℕ) → from ≤ next → upto < next → IsBelow (G.last into.new) next }
{
    let list = cells.as_slice();
    let mut low = from;
    let mut at = 0;
    while let Some((key, value)) = next_in_order(list, &mut at, low, upto, version) {
        into.take(key, value)?;
        if key == upto {
            return Ok(());
        }
        low = key + 1;
    }
    Ok(())
}
