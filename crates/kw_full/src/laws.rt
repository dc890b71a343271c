//! The laws of full rows.
//!
//! Nothing runs here: the functions' clauses are the statements.
ghost use Rattle.std.specs.Prelude.{◌≡◌, true, List};
ghost use Rattle.kw_world.specs.declared.event.Event.{Event};
ghost use Rattle.kw_world.specs.declared.opening.Opening.{Opening};
ghost use Rattle.kw_world.specs.Opening.{IsOpening};
ghost use Rattle.kw_world.specs.Sizes.{Sizes};
ghost use Rattle.kw_core.specs.Events.{is_valid};
ghost use Rattle.kw_core.specs.Run.{history};
ghost use Rattle.kw_full.specs.Copies.{KeepsCopies};
ghost use Rattle.kw_full.specs.Frozen.{KeepsFrozen};
ghost use Rattle.kw_full.specs.Full.{KeepsFull};
ghost use Rattle.kw_full.specs.OverFrozen.{KeepsOver};
ghost use Rattle.kw_full.specs.Shares.{KeepsShares};

/// After every valid list of events from an opening: an entry is frozen in no row but one that
/// gives no more cells. A row that a seat is about to engage, and that nobody has engaged, is in
/// the list, holds the key of the seat's call, and has given all its cells, if the seat's put is
/// not done; one that is done, and tidies, has its stamped cell there. A seat that moves left,
/// since the row before its own one is to be replaced first, moves to a row with a marked link.
pub fn full_laws()
    ensures frozen { (z : Sizes) (o : Opening) (events : List Event) → IsOpening z o →
        is_valid z o events ≡ true → KeepsFrozen z (history z o events) }
    ensures full { (z : Sizes) (o : Opening) (events : List Event) → IsOpening z o →
        is_valid z o events ≡ true → KeepsFull z (history z o events) }
{}

/// After every valid list of events from an opening: the copies in a row are among so many first
/// cells as a row is built with. An attempt that no seat is at work on is stamped, or its row is
/// frozen, unless that was used again. As long as no put that is done is offered to rebalance its
/// row, a row of the list that leads has been given so many stamped attempts as it has cells, less
/// those with which a row is built, and one for each seat.
pub fn share_laws()
    ensures copies { (z : Sizes) (o : Opening) (events : List Event) → IsOpening z o →
        is_valid z o events ≡ true → KeepsCopies z (history z o events) }
    ensures over { (z : Sizes) (o : Opening) (events : List Event) → IsOpening z o →
        is_valid z o events ≡ true → KeepsOver z (history z o events) }
    ensures shares { (z : Sizes) (o : Opening) (events : List Event) → IsOpening z o →
        is_valid z o events ≡ true → KeepsShares z (history z o events) }
{}
