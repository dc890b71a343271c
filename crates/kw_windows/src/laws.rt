//! The laws of windows.
//!
//! Nothing runs here: the functions' clauses are the statements. `z` says how many rows, seats,
//! rows of a build and leaders there are at most.
ghost use Rattle.std.specs.Prelude.{◌≡◌, ◌≢◌, ◌⊎◌, ◌+◌, ◌*◌, ◌<◌, ◌≤◌, true, false, Bool, ℕ};
ghost use Rattle.kw_lists.specs.Counts.{count_below};
ghost use Rattle.kw_windows.specs.Sums.{sum_below};
ghost use Rattle.kw_windows.specs.Windows.{Windows, Limits, IsNew, taken};
ghost use Rattle.kw_windows.specs.Events.{Event};
ghost use Rattle.kw_windows.specs.Counted.{AreCounted, AreFew, most_of_seat, most_of_window};
ghost use Rattle.kw_windows.specs.Prices.{HavePaid, IsPrice};
ghost use Rattle.kw_windows.specs.Triples.{Triple, IsWithin, Falls, weight};
ghost use Rattle.kw_windows.specs.Ends.{HasEnd, FallsUntil, TripleFallsUntil, BeginsOnce};

/// No more numbers are picked out than there are names for them, and all but so few are where those
/// that are not have names. One more may be picked out where a test allows one more. Where not all
/// are there is one that is not, and where some are one that is.
pub fn count_laws()
    ensures named { (n m : ℕ) (f : ℕ → Bool) (name : ℕ → ℕ) → ((c : ℕ) → c < n → f c ≡ true →
        (t : ℕ) × (t < m) × (name t ≡ c)) → count_below n f ≤ m }
    ensures all_but_few { (n low m : ℕ) (f : ℕ → Bool) (name : ℕ → ℕ) → ((c : ℕ) → low ≤ c →
        c < n → (f c ≡ true) ⊎ ((t : ℕ) × (t < m) × (name t ≡ c))) → n ≤ low + m + count_below n f }
    ensures one_more { (n y : ℕ) (f g : ℕ → Bool) →
        ((c : ℕ) → g c ≡ true → (c ≡ y) ⊎ (f c ≡ true)) → count_below n g ≤ count_below n f + 1 }
    ensures left_out { (n : ℕ) (f : ℕ → Bool) → count_below n f < n →
        (c : ℕ) × (c < n) × (f c ≡ false) }
    ensures picked_out { (n : ℕ) (f : ℕ → Bool) → 1 ≤ count_below n f →
        (c : ℕ) × (c < n) × (f c ≡ true) }
{}

/// Where no number is above a bound their sum is at most so many times that. Greater numbers have a
/// greater sum, the same ones the same, and where one changes the sum changes by as much.
pub fn sum_laws()
    ensures most { (n : ℕ) (f : ℕ → ℕ) (c : ℕ) → ((t : ℕ) → t < n → f t ≤ c) →
        sum_below n f ≤ n * c }
    ensures grows { (n : ℕ) (f g : ℕ → ℕ) → ((t : ℕ) → t < n → f t ≤ g t) →
        sum_below n f ≤ sum_below n g }
    ensures same { (n : ℕ) (f g : ℕ → ℕ) → ((t : ℕ) → t < n → g t ≡ f t) →
        sum_below n g ≡ sum_below n f }
    ensures one_changed { (n t : ℕ) (f g : ℕ → ℕ) → t < n → ((u : ℕ) → u ≢ t → g u ≡ f u) →
        sum_below n g + f t ≡ sum_below n f + g t }
{}

/// From a new table on, every event leaves all counted: of the builds of one seat in one window at
/// most one was for a dead row, and the others are no more than the leaders. So no more rows are
/// taken in a window than its seats may take.
pub fn window_laws()
    ensures new { (z : Limits) (w : Windows) → IsNew w → AreCounted z w }
    ensures kept { (z : Limits) (w after : Windows) → AreFew z w → AreCounted z w →
        Event z w after → AreCounted z after }
    ensures lives { (z : Limits) (w : Windows) (t : ℕ) → AreCounted z w →
        (w.seats t).lives ≤ count_below z.rows w.leads }
    ensures deads { (z : Limits) (w : Windows) (t : ℕ) → AreCounted z w → (w.seats t).deads ≤ 1 }
    ensures seat { (z : Limits) (w : Windows) (t : ℕ) → AreFew z w → AreCounted z w →
        (w.seats t).taken ≤ most_of_seat z }
    ensures all { (z : Limits) (w : Windows) → AreFew z w → AreCounted z w →
        taken z w ≤ (w.wins + 1) * most_of_window z }
{}

/// The updates pay for the rows that are taken: no more are than this price for each update, for
/// each seat. So where fewer updates than that were made a row was never in use.
pub fn price_laws()
    ensures paid { (z : Limits) (w : Windows) (share price updates : ℕ) → AreFew z w →
        AreCounted z w → IsPrice z share price → HavePaid z w share updates →
        taken z w ≤ z.seats * (price * updates) }
    ensures left { (z : Limits) (w : Windows) (share price updates : ℕ) → AreFew z w →
        AreCounted z w → IsPrice z share price → HavePaid z w share updates →
        z.seats * (price * updates) + 1 < z.rows → (x : ℕ) × (x < z.rows) × (w.used x ≡ false) }
{}

/// A triple that falls weighs less than before, and where its numbers have bounds it weighs less
/// than these have room for.
pub fn triple_laws()
    ensures lighter { (moves rest : ℕ) (x y : Triple) → IsWithin moves rest y → Falls x y →
        weight moves rest y < weight moves rest x }
    ensures most { (wins moves rest : ℕ) (x : Triple) → x.wins ≤ wins → IsWithin moves rest x →
        weight moves rest x < (wins + 1) * (moves + 1) * (rest + 1) }
{}

/// A run in which a number falls until an end comes has an end, if it has more places than the
/// number was high, and one in which a triple falls, if it has more than the triple weighed. Where
/// the number falls but for one place, at which the run begins, it has one among twice as many.
pub fn end_laws()
    ensures number { (n : ℕ) (ends : ℕ → Bool) (f : ℕ → ℕ) → FallsUntil n ends f → f 0 < n →
        HasEnd n ends }
    ensures triple { (moves rest n : ℕ) (ends : ℕ → Bool) (f : ℕ → Triple) →
        TripleFallsUntil moves rest n ends f → weight moves rest (f 0) < n → HasEnd n ends }
    ensures begun { (most n : ℕ) (ends begins : ℕ → Bool) (f : ℕ → ℕ) →
        BeginsOnce most n ends begins f → 2 * most + 2 ≤ n → HasEnd n ends }
{}
