//! The laws of the rows that are used.
//!
//! Nothing runs here: the functions' clauses are the statements.
ghost use Rattle.std.specs.Prelude.{◌≡◌, ◌≤◌, true, List, ℕ};
ghost use Rattle.kw_words.specs.declared.sizes.TheConstants.{MOST_NEW_ROWS};
ghost use Rattle.kw_world.specs.declared.event.Event.{Event};
ghost use Rattle.kw_world.specs.declared.opening.Opening.{Opening};
ghost use Rattle.kw_world.specs.Opening.{IsOpening};
ghost use Rattle.kw_world.specs.Sizes.{Sizes, product};
ghost use Rattle.kw_core.specs.Events.{is_valid};
ghost use Rattle.kw_core.specs.Run.{history};
ghost use Rattle.kw_full.specs.Shares.{IsUntidied};
ghost use Rattle.kw_counts.specs.Bank.{IsShare, all_updates};
ghost use Rattle.kw_counts.specs.Builds.{IsMostOfBuild};
ghost use Rattle.kw_counts.specs.Counts.{counts};
ghost use Rattle.kw_used.specs.Few.{HasEnough, HasEnoughNew, RefusesNone};
ghost use Rattle.kw_used.specs.Few.{update_price, update_share};
ghost use Rattle.kw_used.specs.Used.{HasNoneShort, HasRoom, IsPriceOf};
ghost use Rattle.kw_used.specs.Used.{KeepsFewBuilds, KeepsUsed, TidyingIsLate};

/// After every valid list of events from an opening, as long as no update was refused and none is
/// offered to tidy its row: of the builds of a seat that took a row since a row was replaced last,
/// at most one is for a row that had gone, and the others are no more than the rows that lead. And
/// the rows that were ever in use are the first one, and no more than the stamped updates paid for.
pub fn used_laws()
    ensures builds { (z : Sizes) (o : Opening) (events : List Event) (build : ℕ) → IsOpening z o →
        IsMostOfBuild z build → is_valid z o events ≡ true →
        KeepsFewBuilds z (history z o events) (counts z o events) }
    ensures rows { (z : Sizes) (o : Opening) (events : List Event) → IsOpening z o →
        is_valid z o events ≡ true →
        KeepsUsed z o (history z o events) (counts z o events) }
{}

/// As long as no update was refused and none is offered to tidy its row, no seat is about to refuse
/// its update for want of rows, where at this price the updates that were begun leave a row. And
/// none is offered to tidy its row as long as the updates are so few.
pub fn room_laws()
    ensures no_rows { (z : Sizes) (o : Opening) (events : List Event) (build share price : ℕ) →
        IsOpening z o → IsPriceOf z build share price →
        is_valid z o events ≡ true → HasRoom z o events price →
        HasNoneShort z (history z o events) }
    ensures untidied { (z : Sizes) (o : Opening) (events : List Event) (share : ℕ) →
        IsOpening z o → IsShare z share → 1 ≤ share →
        is_valid z o events ≡ true → TidyingIsLate z o share (all_updates z o events) →
        IsUntidied z (history z o events).world }
{}

/// Where the table has enough for the calls that were begun, no put and no delete was ever refused,
/// and no seat is about to refuse one for want of rows. At the product's sizes `update_price` rows
/// for each seat that acts pay for an update: a new table that has so many for those that were
/// begun, and some more, refuses none.
pub fn few_laws()
    ensures never { (z : Sizes) (o : Opening) (events : List Event) (build share price : ℕ) →
        IsOpening z o → IsPriceOf z build share price → is_valid z o events ≡ true →
        HasEnough z o events share price → RefusesNone (history z o events) }
    ensures pays { IsPriceOf product MOST_NEW_ROWS update_share update_price }
    ensures product { (o : Opening) (events : List Event) → IsOpening product o → o.clock ≡ 1 →
        o.epoch ≡ 1 → is_valid product o events ≡ true → HasEnoughNew o events →
        RefusesNone (history product o events) }
{}
