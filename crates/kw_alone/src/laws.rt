//! The laws of a seat that goes on alone.
//!
//! Nothing runs here: the functions' clauses are the statements.
ghost use Rattle.std.specs.Prelude.{ℕ, ◌≡◌, ◌<◌, ◌≤◌, ◌++◌, ◌∷◌, [], true, List, length};
ghost use Rattle.kw_world.specs.declared.activity.Activity.{Activity};
ghost use Rattle.kw_world.specs.declared.event.Choice.{Choice};
ghost use Rattle.kw_world.specs.declared.event.Event.{Event};
ghost use Rattle.kw_world.specs.declared.local.Local.{Local};
ghost use Rattle.kw_world.specs.declared.opening.Opening.{Opening};
ghost use Rattle.kw_world.specs.Opening.{IsOpening};
ghost use Rattle.kw_world.specs.Sizes.{Sizes, product};
ghost use Rattle.kw_world.specs.Step.{word};
ghost use Rattle.kw_core.specs.Events.{is_valid};
ghost use Rattle.kw_core.specs.Run.{Run};
ghost use Rattle.kw_core.specs.Words.{Words};
ghost use Rattle.kw_core.proofs.Happens.{Happens};
ghost use Rattle.kw_alone.specs.Alone.{EndsAt, FallsAfter, IsReadBy, MarksAt, TurnsAt, left_after};
ghost use Rattle.kw_alone.specs.Facts.{Facts};
ghost use Rattle.kw_alone.specs.Falls.{Falls, HasFew, Most, events_to_end, events_to_mark, most_rest, most_to_end, most_to_mark};
ghost use Rattle.kw_alone.specs.Marks.{AreOf};

/// Each event that happens is a mark, or its seat comes to the beginning of a walk, or the seat has
/// fewer events left than before. It never has more left than at the beginning of a walk, and twice
/// that is not much.
pub fn rest_laws()
    ensures falls { (z : Sizes) (r next : Run) (s : ℕ) (choice : Choice) (l after : Local)
        (a : Activity) → Happens z r next s choice l after a → Facts z r.world.rows
        (word z r.world) (word z next.world) a l after → Falls z r.world.rows (word z r.world)
        (word z next.world) a l after }
    ensures most { (z : Sizes) (rows : ℕ) (v : Words) (a : Activity) (l : Local) →
        HasFew z rows a l → Most z rows v a l }
    ensures few { (rows : ℕ) → 1 ≤ rows → events_to_mark product rows ≤ most_to_mark rows }
{}

/// So it is with each event of a valid list, and after each valid list, whatever the sizes of the
/// table. Where one seat makes all events from some world on, one of the first of them is a mark or
/// comes to the beginning of a walk: whatever the other seats know and left half done.
pub fn alone_laws()
    ensures falls { (z : Sizes) (o : Opening) (es : List Event) (e : Event) → IsOpening z o →
        is_valid z o (es ++ e ∷ []) ≡ true → FallsAfter z o es e }
    ensures most { (z : Sizes) (o : Opening) (es : List Event) (s : ℕ) → IsOpening z o →
        is_valid z o es ≡ true → s < o.seats → left_after z o s es ≤ most_rest z o.rows }
    ensures turns { (z : Sizes) (o : Opening) (s : ℕ) → IsOpening z o → (xs ys : List Event) →
        is_valid z o (xs ++ ys) ≡ true → AreOf s ys →
        most_rest z o.rows < length ys → (i : ℕ) × TurnsAt z o s xs ys i }
{}

/// From any world on a seat that makes all events has a mark among so many of them: it ends its
/// call, has replaced its row, or goes on to the row before, whatever the other seats know and left
/// half done. At the product's sizes that is no more than a number that grows as the square of the
/// seats and as the rows. A get or a scan has no mark but its end, so it ends.
pub fn mark_laws()
    ensures lasts { (z : Sizes) (o : Opening) (s : ℕ) → IsOpening z o → (xs ys : List Event) →
        is_valid z o (xs ++ ys) ≡ true → AreOf s ys → events_to_mark z o.rows ≤ length ys →
        (i : ℕ) × MarksAt z o s xs ys i }
    ensures marks { (o : Opening) (s : ℕ) → IsOpening product o → (xs ys : List Event) →
        is_valid product o (xs ++ ys) ≡ true → AreOf s ys → most_to_mark o.rows ≤ length ys →
        (i : ℕ) × MarksAt product o s xs ys i }
    ensures reads { (z : Sizes) (o : Opening) (s : ℕ) → IsOpening z o → (xs ys : List Event) →
        is_valid z o (xs ++ ys) ≡ true → AreOf s ys → IsReadBy z o s xs →
        events_to_mark z o.rows ≤ length ys → (i : ℕ) × EndsAt z o s xs ys i }
{}

/// And it ends its call, a put or a delete too: within so many events, whatever the other seats
/// know and left half done, where a new row has room for more cells than it is built with. At the
/// product's sizes that is no more than a number that grows as the square of the seats and as the
/// third power of the rows.
pub fn last_laws()
    ensures lasts { (z : Sizes) (o : Opening) (s : ℕ) → IsOpening z o → z.built < z.cells →
        (xs ys : List Event) → is_valid z o (xs ++ ys) ≡ true → AreOf s ys →
        events_to_end z o.rows ≤ length ys → (i : ℕ) × EndsAt z o s xs ys i }
    ensures few { (rows : ℕ) → 1 ≤ rows → events_to_end product rows ≤ most_to_end rows }
    ensures ends { (o : Opening) (s : ℕ) → IsOpening product o → (xs ys : List Event) →
        is_valid product o (xs ++ ys) ≡ true → AreOf s ys → most_to_end o.rows ≤ length ys →
        (i : ℕ) × EndsAt product o s xs ys i }
{}
