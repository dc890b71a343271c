//! The laws of what rows keep.
//!
//! Nothing runs here: the functions' clauses are the statements. A contract can quantify over tests
//! of numbers and not over sets, so each set is given by a test (`On`, `OnEach`), and the sets of a
//! law by one record of tests (`RowTests`, `Tests`); the lemmas behind the clauses take any sets.
ghost use Rattle.std.specs.Prelude.{◌≡◌, ◌<◌, ◌≤◌, ◌⊎◌, true, ℕ, Bool, Option};
ghost use Rattle.kw_kept.specs.Puts.{Put, On, OnEach, AreApart, Greatest, HasGreatest, Shows};
ghost use Rattle.kw_kept.specs.Kept.{RowTests, on_rows, Kept, Stamps, Rebuilds, Replaces};
ghost use Rattle.kw_kept.specs.Needed.{IsNeeded, Moves, Pins, IsCovered, IsLate, GoesBy, GoesByPin};
ghost use Rattle.kw_kept.specs.Readers.{Before, Front, GoesOn, Tests, on_sets, Reads, Knows};

/// A finite set of puts that were given their cells at different events has a greatest for each key
/// and version. Two greatest of one set are one. What a set shows goes from set to set, through one
/// that has a greatest.
pub fn greatest_laws()
    ensures found { (puts : ℕ → Put) (a : ℕ → Bool) (n k u : ℕ) → ((p : ℕ) → On a p → p < n) →
        AreApart puts (On a) → HasGreatest puts (On a) k u }
    ensures one { (puts : ℕ → Put) (a : ℕ → Bool) (k u : ℕ) (o q : Option ℕ) →
        Greatest puts (On a) k u o → Greatest puts (On a) k u q → o ≡ q }
    ensures through { (puts : ℕ → Put) (a b c : ℕ → Bool) (k u : ℕ) → HasGreatest puts (On b) k u →
        Shows puts (On a) (On b) k u → Shows puts (On b) (On c) k u → Shows puts (On a) (On c) k u }
{}

/// Rows that have kept what is needed still have after a stamp. At a version that shows the new put
/// its row shows what all stamped puts show, whatever it had kept before.
pub fn stamp_laws()
    ensures own { (puts later : ℕ → Put) (a b : RowTests) (row o u : ℕ) →
        Stamps puts later (on_rows a) (on_rows b) row o → (later o).version ≤ u →
        Shows later (OnEach b.in_row row) (On b.stamped) (later o).key u }
    ensures kept { (puts later : ℕ → Put) (a b : RowTests) (needed : ℕ → Bool) (row o : ℕ) →
        Stamps puts later (on_rows a) (on_rows b) row o → Kept puts (on_rows a) (On needed) →
        Kept later (on_rows b) (On needed) }
{}

/// A row that was built of another shows what that showed, at each version that is listed or at
/// least every version in it. So rows that have kept what is needed still have when some are
/// replaced.
pub fn replace_laws()
    ensures rebuilt { (puts : ℕ → Put) (old new stamped listed : ℕ → Bool) (k u most newest : ℕ) →
        Rebuilds puts (On old) (On new) (On listed) k most newest → most ≤ newest → On listed u
        ⊎ (most ≤ u) → Shows puts (On old) (On stamped) k u → Shows puts (On new) (On stamped) k u }
    ensures kept { (puts : ℕ → Put) (a b : RowTests) (needed listed : ℕ → Bool) (most newest : ℕ) →
        Replaces puts (on_rows a) (on_rows b) (On needed) (On listed) most newest →
        Kept puts (on_rows a) (On needed) → Kept puts (on_rows b) (On needed) }
{}

/// Of what is needed through scans: what a rebuild has listed covers what is needed through the
/// seats that it went by, whatever goes on meanwhile, and a scan that begins to wait late needs
/// none but late versions.
pub fn scan_laws()
    ensures covered { (clock later : ℕ) (waits after : ℕ → ℕ) (a b : ℕ → ℕ → Bool)
        (passed listed : ℕ → Bool) (most : ℕ) → Moves clock later waits after (OnEach a) (OnEach b)
        → most ≤ clock → IsCovered (OnEach a) (On passed) (On listed) most →
        IsCovered (OnEach b) (On passed) (On listed) most }
    ensures early { (waits : ℕ → ℕ) (a : ℕ → ℕ → Bool) (since most : ℕ) →
        ((i : ℕ) → waits i ≤ since) → IsLate since waits (OnEach a) most }
    ensures late { (clock later : ℕ) (waits after : ℕ → ℕ) (a b : ℕ → ℕ → Bool) (since most : ℕ) →
        Moves clock later waits after (OnEach a) (OnEach b) → most ≤ clock →
        IsLate since waits (OnEach a) most → IsLate since after (OnEach b) most }
    ensures goes_by { (waits : ℕ → ℕ) (a : ℕ → ℕ → Bool) (passed now listed more : ℕ → Bool)
        (since most s : ℕ) → GoesBy since waits (OnEach a) (On passed) (On now) (On listed)
        (On more) s → IsLate since waits (OnEach a) most →
        IsCovered (OnEach a) (On passed) (On listed) most →
        IsCovered (OnEach a) (On now) (On more) most }
{}

/// Of what is needed through pins: a version comes to a pin from the scan of the same seat alone.
/// So what is needed through the pins that a rebuild went by stays covered where it went by the
/// scans of their seats before. A pin that is gone by is covered with the others, and what is
/// listed for pins leaves covered what was.
pub fn pin_laws()
    ensures covered { (scans a b : ℕ → ℕ → Bool) (scanned passed listed : ℕ → Bool) (most : ℕ) →
        Pins (OnEach scans) (OnEach a) (OnEach b) → ((i : ℕ) → On passed i → On scanned i) →
        IsCovered (OnEach scans) (On scanned) (On listed) most →
        IsCovered (OnEach a) (On passed) (On listed) most →
        IsCovered (OnEach b) (On passed) (On listed) most }
    ensures goes_by { (a : ℕ → ℕ → Bool) (passed now listed more : ℕ → Bool) (most s : ℕ) →
        GoesByPin (OnEach a) (On passed) (On now) (On listed) (On more) s →
        IsCovered (OnEach a) (On passed) (On listed) most →
        IsCovered (OnEach a) (On now) (On more) most }
    ensures more { (a : ℕ → ℕ → Bool) (passed listed more : ℕ → Bool) (most : ℕ) →
        ((u : ℕ) → On listed u → On more u) → IsCovered (OnEach a) (On passed) (On listed) most →
        IsCovered (OnEach a) (On passed) (On more) most }
    ensures none { (a : ℕ → ℕ → Bool) (passed listed : ℕ → Bool) (most : ℕ) →
        ((i : ℕ) → On passed i → ⊥) → IsCovered (OnEach a) (On passed) (On listed) most }
{}

/// What is needed was needed before, so rows that have kept what was needed still have. When all
/// scans and all pins are gone by, what is listed covers all that is needed.
pub fn needed_laws()
    ensures shrinks { (clock later : ℕ) (waits after : ℕ → ℕ) (a b p q : ℕ → ℕ → Bool) (u : ℕ) →
        Moves clock later waits after (OnEach a) (OnEach b) →
        Pins (OnEach a) (OnEach p) (OnEach q) → IsNeeded later (OnEach b) (OnEach q) u →
        IsNeeded clock (OnEach a) (OnEach p) u }
    ensures kept { (puts : ℕ → Put) (a : RowTests) (before now : ℕ → Bool) →
        ((u : ℕ) → On now u → On before u) → Kept puts (on_rows a) (On before) →
        Kept puts (on_rows a) (On now) }
    ensures all { (clock : ℕ) (a p : ℕ → ℕ → Bool) (scanned passed listed : ℕ → Bool) (most u : ℕ) →
        most ≤ clock → ((i v : ℕ) → OnEach a i v → On scanned i) →
        ((i v : ℕ) → OnEach p i v → On passed i) →
        IsCovered (OnEach a) (On scanned) (On listed) most →
        IsCovered (OnEach p) (On passed) (On listed) most → IsNeeded clock (OnEach a) (OnEach p) u →
        On listed u ⊎ (most ≤ u) }
{}

/// Where a row shows what all stamped puts show, its cells stamped before a position that no stamp
/// has reached show what all puts stamped before it show; and that stays, whatever is stamped
/// later.
pub fn front_laws()
    ensures starts { (puts : ℕ → Put) (row stamped : ℕ → Bool) (a k u : ℕ) →
        ((p : ℕ) → On stamped p → (puts p).at < a) → ((p : ℕ) → On row p → On stamped p) →
        Shows puts (On row) (On stamped) k u → Front puts (On row) (On stamped) a k u }
    ensures stays { (puts later : ℕ → Put) (row next stamped now : ℕ → Bool) (a k u : ℕ) →
        GoesOn puts later (On row) (On next) (On stamped) (On now) a →
        Front puts (On row) (On stamped) a k u → Front later (On next) (On now) a k u }
{}

/// What a reader of a row knows at its end: it answers what a gap shows, and of the attempts that
/// were announced before it began each is lost, or stamped and not after that gap.
pub fn reader_laws()
    ensures { (puts : ℕ → Put) (a : Tests) (k v : ℕ) (best : Option ℕ) →
        Reads puts (on_sets a) k v best → Knows puts (on_sets a) k v best }
{}
