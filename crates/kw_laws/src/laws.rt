//! The laws of histories, and of all valid lists of events.
//!
//! Nothing runs here: the functions' clauses are the statements. Whoever folds a history along
//! shows at each event that the log may take it and that the change may happen there; then the laws
//! hold ever after.
ghost use Rattle.std.specs.Prelude.{◌≡◌, ◌<◌, ◌++◌, ◌∷◌, [], true, List, ℕ, length};
ghost use Rattle.kw_core.specs.History.{History};
ghost use Rattle.kw_core.specs.declared.history.Logged.{Logged};
ghost use Rattle.kw_core.specs.Step.{Keeps};
ghost use Rattle.kw_core.specs.declared.history.Change.{Change};
ghost use Rattle.kw_core.specs.Noted.{MayLog, MayNote, noted, nothing_yet};
ghost use Rattle.kw_world.specs.declared.opening.Opening.{Opening};
ghost use Rattle.kw_world.specs.declared.event.Event.{Event};
ghost use Rattle.kw_world.specs.declared.event.Choice.{Choice};
ghost use Rattle.kw_world.specs.Opening.{IsOpening};
ghost use Rattle.kw_world.specs.Sizes.{Sizes};
ghost use Rattle.kw_core.specs.Events.{is_valid, world, local_of, of_seat, event};
ghost use Rattle.kw_core.specs.Run.{history};
ghost use Rattle.kw_laws.specs.Causes.{AsksWhereItStands, HaveCauses};
ghost use Rattle.kw_laws.specs.Clocks.{AreRefusedBehindScans, RestsWithoutScans};
ghost use Rattle.kw_laws.specs.Laws.{KeepsLaws};
ghost use Rattle.kw_laws.specs.Live.{AreLive};
ghost use Rattle.kw_laws.specs.Mirror.{Mirrors};
ghost use Rattle.kw_laws.specs.MirrorLosses.{MirrorsLosses};
ghost use Rattle.kw_laws.specs.MirrorReads.{GetsRead, MirrorsReads};
ghost use Rattle.kw_laws.specs.Reach.{KeepsRows};
ghost use Rattle.kw_laws.specs.SeatCalls.{calls_seen, seen_after, KeepsTurns, AreApart, AreStill};

/// The empty history keeps the laws, and each event keeps them that may happen as it does.
pub fn history_laws()
    ensures start { Keeps nothing_yet }
    ensures step { (h : History) (e : Logged) → Keeps h → MayLog h e → (c : Change) →
        MayNote h e c → Keeps (noted h e c) }
{}

/// After every valid list of events from an opening the laws hold, whatever the sizes of the table.
/// A row at which a put, a delete or a get has arrived was in the list, as one who follows the
/// links from the first row sees it, after the seat began its visit; the row that a scan reads was
/// so after the draw whose version went into the scan's word, its own draw or that of a seat which
/// helped it, and after its own draw.
pub fn list_laws()
    ensures laws { (z : Sizes) (o : Opening) (events : List Event) → IsOpening z o →
        is_valid z o events ≡ true → KeepsLaws z (history z o events) }
    ensures world { (z : Sizes) (o : Opening) (events : List Event) → (history z o events).world
        ≡ world z o events }
    ensures live { (z : Sizes) (o : Opening) (events : List Event) → IsOpening z o →
        is_valid z o events ≡ true → AreLive z o events }
{}

/// The record of every valid list from an opening is what it claims to be: at each position that it
/// names stands the event that it says, and it leaves no such event out. A scan drew by its own
/// seat and settled for its version, and a get read the cell of the put whose value it answers, or
/// a copy of it. An attempt is lost just where a seat that rebalances froze its entry, which had
/// been pending since the attempt was announced.
pub fn mirror_laws()
    ensures events { (z : Sizes) (o : Opening) (events : List Event) → IsOpening z o →
        is_valid z o events ≡ true → Mirrors z o events (history z o events).history }
    ensures reads { (z : Sizes) (o : Opening) (events : List Event) → IsOpening z o →
        is_valid z o events ≡ true → MirrorsReads z o events (history z o events).history }
    ensures gets { (z : Sizes) (o : Opening) (events : List Event) → IsOpening z o →
        is_valid z o events ≡ true → GetsRead z o events (history z o events).history }
    ensures losses { (z : Sizes) (o : Opening) (events : List Event) → IsOpening z o →
        is_valid z o events ≡ true → MirrorsLosses z o events (history z o events).history }
{}

/// Each call of the record of a valid list from an opening that was refused has its cause among the
/// events of its seat after its first one and before its last. As spent it is refused where its
/// seat found the clock or the epoch at its bound. For want of rows it is refused as one search
/// asked for each row of the table, and found too few that were free. A retired row was gone by
/// only if a visit was on in which it may be named. So a seat has found already that is about to
/// leave for want of rows.
pub fn cause_laws()
    ensures causes { (z : Sizes) (o : Opening) (events : List Event) → IsOpening z o →
        is_valid z o events ≡ true → HaveCauses z o events (history z o events).history }
    ensures standing { (z : Sizes) (o : Opening) (events : List Event) → IsOpening z o →
        is_valid z o events ≡ true → AsksWhereItStands z o events }
{}

/// Versions are drawn for scans and pins alone: where no call of a valid list from an opening is
/// one, the clock is that of the opening. So the scan that loads the clock first finds it there,
/// and a scan is refused only where another one, or a pin, began before it ended, or where the
/// clock of the opening was at its bound.
pub fn clock_laws()
    ensures rests { (z : Sizes) (o : Opening) (events : List Event) → IsOpening z o →
        is_valid z o events ≡ true → RestsWithoutScans z o events (history z o events).history }
    ensures refused { (z : Sizes) (o : Opening) (events : List Event) → IsOpening z o →
        is_valid z o events ≡ true → AreRefusedBehindScans o (history z o events).history }
{}

/// No row is used again while a seat may read it. When a retired row is given free, each visit that
/// is on was announced after the number of the row was drawn, and no seat has come to the row in
/// such a visit, be it that it names the row no more. Each row that a seat has reached in a visit
/// that is on is not free, is not taken by another seat that has not linked it, and where it is
/// retired its number is not below the epoch of the visit. No event touches a word, other than the
/// state, of a row that its seat cannot reach.
pub fn reach_laws()
    ensures rows { (z : Sizes) (o : Opening) (events : List Event) → IsOpening z o →
        is_valid z o events ≡ true → KeepsRows z o events }
{}

/// The calls of one seat in a valid list from an opening. No event makes no call, and events of
/// other seats leave the seat's calls. An event of an idle seat begins a call, one of a seat that
/// leaves ends its last call, and any other leaves them. The calls do not overlap, and only the
/// last one may be without end, just where the seat is in a call. A longer list has the calls of a
/// shorter one, of which the last may have ended since.
pub fn seat_calls_laws()
    ensures none { (z : Sizes) (o : Opening) (s : ℕ) → calls_seen z o s [] ≡ [] }
    ensures still { (z : Sizes) (o : Opening) (s : ℕ) (xs ys : List Event) → IsOpening z o →
        is_valid z o (xs ++ ys) ≡ true → of_seat s ys ≡ [] → calls_seen z o s (xs ++ ys)
        ≡ calls_seen z o s xs }
    ensures own { (z : Sizes) (o : Opening) (s : ℕ) (xs : List Event) (choice : Choice) →
        IsOpening z o → is_valid z o (xs ++ event s choice ∷ []) ≡ true →
        calls_seen z o s (xs ++ event s choice ∷ [])
        ≡ seen_after (local_of (world z o xs) s).activity choice (local_of (world z o xs) s)
        (length xs) (calls_seen z o s xs) }
    ensures turns { (z : Sizes) (o : Opening) (s : ℕ) (events : List Event) → IsOpening z o →
        is_valid z o events ≡ true → s < o.seats →
        KeepsTurns (length events) (local_of (world z o events) s) (calls_seen z o s events) }
    ensures apart { (z : Sizes) (o : Opening) (s : ℕ) (events : List Event) → IsOpening z o →
        is_valid z o events ≡ true → s < o.seats →
        AreApart (length events) (calls_seen z o s events) }
    ensures lasts { (z : Sizes) (o : Opening) (s : ℕ) (xs ys : List Event) → IsOpening z o →
        is_valid z o (xs ++ ys) ≡ true →
        AreStill (calls_seen z o s xs) (calls_seen z o s (xs ++ ys)) }
{}
