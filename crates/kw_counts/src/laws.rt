//! The laws of what is counted.
//!
//! Nothing runs here: the functions' clauses are the statements.
ghost use Rattle.std.specs.Prelude.{◌≡◌, true, List, ℕ};
ghost use Rattle.kw_world.specs.declared.event.Event.{Event};
ghost use Rattle.kw_world.specs.declared.opening.Opening.{Opening};
ghost use Rattle.kw_world.specs.Opening.{IsOpening};
ghost use Rattle.kw_world.specs.Sizes.{Sizes};
ghost use Rattle.kw_core.specs.Events.{is_valid, world};
ghost use Rattle.kw_core.specs.Run.{history};
ghost use Rattle.kw_counts.specs.Bank.{KeepsBank};
ghost use Rattle.kw_counts.specs.Builds.{KeepsBuilds};
ghost use Rattle.kw_counts.specs.Counts.{counts};
ghost use Rattle.kw_counts.specs.Draws.{KeepsDraws, KeepsScans};
ghost use Rattle.kw_counts.specs.Engagers.{KeepsEngagers};
ghost use Rattle.kw_counts.specs.Ever.{KeepsEver};
ghost use Rattle.kw_counts.specs.Links.{KeepsLinks};
ghost use Rattle.kw_counts.specs.NoRows.{KeepsNoRows};
ghost use Rattle.kw_counts.specs.Numbers.{KeepsNumbers};
ghost use Rattle.kw_counts.specs.Spent.{KeepsSpent};
ghost use Rattle.kw_counts.specs.Stamps.{KeepsStamps};
ghost use Rattle.kw_counts.specs.Walks.{KeepsWalks};

/// After every valid list of events from an opening: the clock is that of the opening and one for
/// each version that was drawn, a seat has drawn no more versions for the scans of a seat than
/// these waited, and each waited once at most. The epoch is that of the opening and one for each
/// number that was drawn, and with those that seats may still draw these are at most so many for
/// each exchange that replaced a row as a group has rows. A row that is not free was in use at the
/// opening, or was taken since, and stamps are counted of rows of the list alone. A seat whose walk
/// began since a row was replaced last names rows of the list alone on it, and where its build took
/// a row since then its walk began since then.
pub fn counts_laws()
    ensures draws { (z : Sizes) (o : Opening) (events : List Event) → IsOpening z o →
        is_valid z o events ≡ true → KeepsDraws z o (world z o events) (counts z o events).draws }
    ensures scans { (z : Sizes) (o : Opening) (events : List Event) → IsOpening z o →
        is_valid z o events ≡ true → KeepsScans z o events (counts z o events).draws }
    ensures numbers { (z : Sizes) (o : Opening) (events : List Event) → IsOpening z o →
        is_valid z o events ≡ true → KeepsNumbers z o (world z o events) (counts z o events) }
    ensures ever { (z : Sizes) (o : Opening) (events : List Event) → IsOpening z o →
        is_valid z o events ≡ true → KeepsEver z (world z o events) (counts z o events) }
    ensures stamps { (z : Sizes) (o : Opening) (events : List Event) → IsOpening z o →
        is_valid z o events ≡ true → KeepsStamps z (world z o events) (counts z o events) }
    ensures walks { (z : Sizes) (o : Opening) (events : List Event) → IsOpening z o →
        is_valid z o events ≡ true → KeepsWalks z (world z o events) (counts z o events) }
{}

/// After every valid list of events from an opening: a seat has taken no more rows for a build than
/// are enough for all cells of a group. The link that a seat is about to exchange leads to its row,
/// if that is in the list still; and where it gives its new rows back to try again, its row is in
/// the list no more.
pub fn build_laws()
    ensures rows { (z : Sizes) (o : Opening) (events : List Event) → IsOpening z o →
        is_valid z o events ≡ true → KeepsBuilds z (world z o events) }
    ensures links { (z : Sizes) (o : Opening) (events : List Event) → IsOpening z o →
        is_valid z o events ≡ true → KeepsLinks z (world z o events) }
{}

/// A call of a valid list from an opening is refused as spent only where so many scans were begun,
/// or so many rows were replaced, that these may have used up the versions or the numbers; a scan
/// only where so many scans were. It is refused for want of rows only where every row of the table
/// was in use at the opening, or was taken since.
pub fn refusal_laws()
    ensures spent { (z : Sizes) (o : Opening) (events : List Event) → IsOpening z o →
        is_valid z o events ≡ true →
        KeepsSpent z o events (counts z o events) (history z o events).history }
    ensures no_rows { (z : Sizes) (o : Opening) (events : List Event) → IsOpening z o →
        is_valid z o events ≡ true →
        KeepsNoRows o (counts z o events) (history z o events).history }
{}

/// After every valid list of events from an opening: each call that has a put is a put or a delete
/// that was begun, and is counted in the row where it was stamped, or is banked. As long as no put
/// that is done is offered to rebalance its row, each exchange that replaced a row was paid for by
/// so many of these as a row has cells, less those with which it is built and one for each seat;
/// and once a row leads so is the next one. As long as no put or delete was refused either, the
/// seat that made a row lead is still in the call that found it full, which has no put yet; so no
/// more rows lead than there are seats.
pub fn bank_laws()
    ensures bank { (z : Sizes) (o : Opening) (events : List Event) → IsOpening z o →
        is_valid z o events ≡ true →
        KeepsBank z o events (history z o events) (counts z o events) }
    ensures engagers { (z : Sizes) (o : Opening) (events : List Event) → IsOpening z o →
        is_valid z o events ≡ true →
        KeepsEngagers z (history z o events) (counts z o events) }
{}
