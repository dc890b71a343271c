//! The laws of the order of a history.
//!
//! Nothing runs here: the function's clauses are the statement. They stand on the laws of histories
//! alone, and say nothing of how events come about.
ghost use Rattle.std.specs.Prelude.{List, [], ℕ, ◌≡◌, ◌<◌, true, false, Some, Contains, length, map, slice_get};
ghost use Rattle.kw_model.specs.Legal.{IsLegal};
ghost use Rattle.kw_model.specs.LegalFor.{is_of_snapshots};
ghost use Rattle.kw_world.specs.declared.event.Event.{Event};
ghost use Rattle.kw_world.specs.declared.opening.Opening.{Opening};
ghost use Rattle.kw_world.specs.Opening.{IsOpening};
ghost use Rattle.kw_world.specs.Sizes.{Sizes};
ghost use Rattle.kw_core.specs.History.{History, called};
ghost use Rattle.kw_core.specs.Events.{is_valid};
ghost use Rattle.kw_core.specs.Run.{history};
ghost use Rattle.kw_laws.specs.SeatCalls.{CallSeen, calls_seen, seen};
ghost use Rattle.kw_core.specs.HistoryLaws.{HistoryLaws};
ghost use Rattle.kw_order.specs.Order.{IsOrder};
ghost use Rattle.kw_order.specs.Legal.{IsLegalOrder, call_of, reply_of};
ghost use Rattle.kw_order.specs.OrderLaws.{OrderLaws};
ghost use Rattle.kw_order.specs.SeatOrder.{IsTurn, AllEnded};

/// A history that keeps its laws has one order, and it is legal: the calls, asked one after the
/// other in this order of the empty map of one thread, each for its seat, have the replies that
/// they had. Where no call is of snapshots the map alone says so, whatever the seats. The order
/// keeps precedence, each call stands at a point inside itself, and each get and scan answers what
/// the updates before it wrote.
pub fn order_laws()
    ensures exists { (h : History) → HistoryLaws h → (xs : List ℕ) × IsOrder h xs }
    ensures one { (h : History) → HistoryLaws h → (xs ys : List ℕ) → IsOrder h xs → IsOrder h ys →
        xs ≡ ys }
    ensures laws { (h : History) → HistoryLaws h → (xs : List ℕ) → IsOrder h xs → OrderLaws h xs }
    ensures legal { (h : History) → HistoryLaws h → (xs : List ℕ) → IsOrder h xs →
        IsLegalOrder h xs }
    ensures alone { (h : History) (xs : List ℕ) → IsLegalOrder h xs → ((x : ℕ) → Contains xs x →
        is_of_snapshots (call_of h x) ≡ false) → IsLegal [] (map (call_of h) xs)
        (map (reply_of h) xs) }
{}

/// The numbers that the order has are those of the record, and each is a seat's k-th call for just
/// one seat and one k. What is seen of that call is what the record has of it. In a valid list from
/// an opening each call is one of the seats', the calls of one seat stand in the order in which it
/// made them, and where all calls have ended the order has each number.
pub fn seat_call_laws()
    ensures names { (z : Sizes) (o : Opening) (events : List Event) (s k : ℕ) (c : CallSeen) →
        slice_get (calls_seen z o s events) k ≡ Some c → (x : ℕ)
        × IsTurn (history z o events).history s k x × (seen (called (history z o events).history x)
        ≡ c) }
    ensures one { (h : History) (s k x y : ℕ) → IsTurn h s k x → IsTurn h s k y → x ≡ y }
    ensures shown { (z : Sizes) (o : Opening) (events : List Event) (s k x : ℕ) →
        IsTurn (history z o events).history s k x → slice_get (calls_seen z o s events) k
        ≡ Some (seen (called (history z o events).history x)) }
    ensures each { (z : Sizes) (o : Opening) (events : List Event) (x : ℕ) → IsOpening z o →
        is_valid z o events ≡ true → x < length (history z o events).history.calls → (s : ℕ)
        × (k : ℕ) × (s < o.seats) × IsTurn (history z o events).history s k x }
    ensures apart { (h : History) (s t j k x : ℕ) → IsTurn h s j x → IsTurn h t k x → (s ≡ t)
        × (j ≡ k) }
    ensures within { (h : History) (xs : List ℕ) (i x : ℕ) → IsOrder h xs →
        slice_get xs i ≡ Some x → x < length h.calls }
    ensures every { (z : Sizes) (o : Opening) (events : List Event) (xs : List ℕ) (x : ℕ) →
        IsOpening z o → is_valid z o events ≡ true → AllEnded z o events →
        IsOrder (history z o events).history xs → x < length (history z o events).history.calls →
        (i : ℕ) × (slice_get xs i ≡ Some x) }
    ensures turns { (z : Sizes) (o : Opening) (events : List Event) (xs : List ℕ)
        (s j k x y a b : ℕ) → IsOpening z o → is_valid z o events ≡ true →
        IsOrder (history z o events).history xs → s < o.seats → j < k →
        IsTurn (history z o events).history s j x → IsTurn (history z o events).history s k y →
        slice_get xs a ≡ Some x → slice_get xs b ≡ Some y → a < b }
{}
