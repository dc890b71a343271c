//! Small cases, worked by hand.
ghost use Rattle.std.specs.Prelude.{◌≡◌, ◌+◌, ◌*◌, ◌<◌, ℕ, nat_lt};
ghost use Rattle.kw_lists.specs.Counts.{count_below};
ghost use Rattle.kw_windows.specs.Sums.{sum_below};
ghost use Rattle.kw_windows.specs.Windows.{Windows, Limits, IsNew, taken};
ghost use Rattle.kw_windows.specs.Events.{Event};
ghost use Rattle.kw_windows.specs.Counted.{most_of_window};
ghost use Rattle.kw_windows.specs.Prices.{IsPrice};
ghost use Rattle.kw_windows.specs.Triples.{Triple, weight};

// What the definitions come to in small cases that were worked by hand. A seat that comes to
// the full row 0, engages it, takes two rows and replaces it has taken two; a window has no
// more than 2 * (2 * 3) for two seats, two rows a build and two leaders; at a price of 4 a
// share of 2 pays for that and for one more build.
fn worked()
    ensures count { count_below 5 (λ c. nat_lt c 2) ≡ 2 }
    ensures sum { sum_below 4 (λ t. t * t) ≡ 14 }
    ensures weight { weight 2 5 (record { wins = 1; moves = 2; rest = 3 }) ≡ 33 }
    ensures window { most_of_window (record { rows = 9; seats = 2; build = 2; leaders = 2 })
        ≡ 12 }
    ensures price { IsPrice (record { rows = 9; seats = 2; build = 2; leaders = 2 }) 2 4 }
    ensures dear { IsPrice (record { rows = 9; seats = 2; build = 2; leaders = 2 }) 2 3 → ⊥ }
    ensures run { let z : Limits = record { rows = 4; seats = 1; build = 2; leaders = 1 } in
        (w : ℕ → Windows) × IsNew (w 0) × ((i : ℕ) → i < 5 → Event z (w i) (w (i + 1)))
        × (taken z (w 5) ≡ 2) × ((w 5).wins ≡ 1) }
{}

#[test]
fn small_cases_are_as_worked_by_hand() {
    worked();
}
