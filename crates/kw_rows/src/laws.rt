//! The laws: nothing runs here, and the clauses are the statements.
ghost use Rattle.std.specs.Prelude.{◌≡◌, ◌≢◌, ℕ, Option, Some, suc, true, ◌∷◌};
ghost use Rattle.kw_rows.specs.Ledger.{Ledger, IsLive, IsFresh, IsHeld, Past};
ghost use Rattle.kw_rows.specs.RowState.{Leader, Follower, IsLeader, IsEngaged, IsDecided};
ghost use Rattle.kw_rows.specs.Rows.{Rows, Chain, Closed, Follows};
ghost use Rattle.kw_rows.specs.States.{States, Marks};
ghost use Rattle.kw_rows.specs.Group.{View, Marking, Opened, Claiming, MarkingNext, Alone, Pair, Following, Group, Named, Pairs};
ghost use Rattle.kw_rows.specs.Events.{Event, Holds, IsIn, rest_of};
ghost use Rattle.kw_rows.specs.Structure.{Structure};

/// An event leaves the live rows one list with rising least keys; what a seat may name leads to
/// what it may name; each row has a state and marks that go with what has become of it; rows that
/// share a key follow one another. What a seat knows of its group stays known while it may name the
/// rows of it, and it may name them until its visit ends.
pub fn row_laws()
    ensures chain { (w w2 : Rows) (g g2 : Ledger) (now : ℕ) → Structure w g now →
        Event w w2 g g2 now → Chain w2 g2 }
    ensures closed { (w w2 : Rows) (g g2 : Ledger) (now : ℕ) → Structure w g now →
        Event w w2 g g2 now → Closed w2 g2 }
    ensures states { (w w2 : Rows) (g g2 : Ledger) (now : ℕ) → Structure w g now →
        Event w w2 g g2 now → States w2 g2 }
    ensures marks { (w w2 : Rows) (g g2 : Ledger) (now : ℕ) → Structure w g now →
        Event w w2 g g2 now → (x : ℕ) → Marks w2 g2 x }
    ensures pairs { (w w2 : Rows) (g g2 : Ledger) (now : ℕ) → Structure w g now →
        Event w w2 g g2 now → (x : ℕ) → Pairs w2 g2 x }
    ensures follows { (w w2 : Rows) (g g2 : Ledger) (now : ℕ) → Structure w g now →
        Event w w2 g g2 now → Follows w2 g2 }
    ensures past { (w w2 : Rows) (g g2 : Ledger) (now : ℕ) → Structure w g now →
        Event w w2 g g2 now → Past g2 (suc now) }
    ensures fresh { (w w2 : Rows) (g g2 : Ledger) (now : ℕ) → Structure w g now →
        Event w w2 g g2 now → (t since x : ℕ) → g.visits t ≡ Some since → g2.visits t ≡ Some since →
        IsFresh g t x → IsFresh g2 t x }
    ensures group { (w w2 : Rows) (g g2 : Ledger) (now : ℕ) → Structure w g now →
        Event w w2 g g2 now → (t : ℕ) (view : View) → Named g t view → Group w g view →
        Group w2 g2 view }
{}

/// What a seat comes to know of its group, from what it knew and what it finds: of a row that
/// leads, of one whose link is marked, of the row after it, and of one that follows; and which
/// links it may mark and which rows it may freeze.
pub fn view_laws()
    ensures leads { (w : Rows) (g : Ledger) (now : ℕ) → Structure w g now → (r n : ℕ) → IsHeld g r →
        w.state r ≡ Leader n → Group w g (Marking r n) }
    ensures opens { (w : Rows) (g : Ledger) (r : ℕ) → Group w g (Marking r 0) → w.marked r ≡ true →
        Group w g (Opened r (w.next r)) }
    ensures alone { (w : Rows) (g : Ledger) (now : ℕ) → Structure w g now → (r : ℕ) →
        Group w g (Marking r 1) → w.marked r ≡ true → Group w g (Alone r (w.next r)) }
    ensures claims { (w : Rows) (g : Ledger) (now : ℕ) → Structure w g now → (r : ℕ) → IsHeld g r →
        Group w g (Marking r 2) → w.marked r ≡ true → (c : ℕ) × (w.next r ≡ Some c)
        × Group w g (Claiming r c) }
    ensures takes_along { (w : Rows) (g : Ledger) (now : ℕ) → Structure w g now → (r c : ℕ) →
        IsHeld g c → Group w g (Claiming r c) → w.state c ≡ Follower r →
        Group w g (MarkingNext r c) }
    ensures leaves { (w : Rows) (g : Ledger) (now : ℕ) → Structure w g now → (r c : ℕ) →
        Group w g (Claiming r c) → IsLeader (w.state c) → Group w g (Alone r (Some c)) }
    ensures pair { (w : Rows) (g : Ledger) (now : ℕ) → Structure w g now → (r c : ℕ) →
        Group w g (MarkingNext r c) → w.marked c ≡ true → Group w g (Pair r c (w.next c)) }
    ensures may_mark { (w : Rows) (g : Ledger) (now : ℕ) → Structure w g now → (r n : ℕ) →
        Group w g (Marking r n) → IsLive g r → IsEngaged (w.state r) }
    ensures may_mark_next { (w : Rows) (g : Ledger) (now : ℕ) → Structure w g now → (r c : ℕ) →
        Group w g (MarkingNext r c) → IsLive g c → IsEngaged (w.state c) }
    ensures may_freeze { (w : Rows) (g : Ledger) (now : ℕ) → Structure w g now →
        (r : ℕ) (c after : Option ℕ) → IsHeld g r → Holds w g r c after → (x : ℕ) →
        IsIn (r ∷ rest_of c) x → IsLive g x → (w.marked x ≡ true) × IsDecided (w.state x) }
    ensures follows { (w : Rows) (g : Ledger) (r p : ℕ) → w.state r ≡ Follower p →
        Group w g (Following r) }
    ensures leader_named { (w : Rows) (g : Ledger) (now : ℕ) → Structure w g now → (t r p : ℕ) →
        IsFresh g t r → w.state r ≡ Follower p → IsFresh g t p }
    ensures not_first { (w : Rows) (g : Ledger) (now : ℕ) → Structure w g now → (r : ℕ) →
        Group w g (Following r) → w.head ≢ Some r }
{}
