//! The laws of linked cells.
//!
//! Nothing runs here: the functions' clauses are the statements. `n` is how many cells a row has.
ghost use Rattle.std.specs.Prelude.{◌≡◌, ◌≢◌, ◌⊎◌, ◌+◌, ◌<◌, ◌≤◌, true, false, Bool, Option, Some, None, ℕ};
ghost use Rattle.kw_words.specs.declared.layout.Name.{Name};
ghost use Rattle.kw_lists.specs.Rows.{Row, Stands, stands, IsBehind, IsOn, IsNext, Leads, IsList, IsSound, IsEmpty};
ghost use Rattle.kw_lists.specs.Changes.{MayInsert, IsAhead, SameCell, Agree, Leaves, stored, inserted, with_cell};
ghost use Rattle.kw_lists.specs.Words.{row_in, KeepsList, LinksIn};
ghost use Rattle.kw_lists.specs.Puts.{IsFrom, IsAt, IsSet, LeavesCell, LeavesOwn};
ghost use Rattle.kw_lists.specs.Walks.{IsGoneBy, IsWalking, IsReached};
ghost use Rattle.kw_lists.specs.Built.{IsBuilt};

/// The order of cells is strict and total, and the test says which of two cells stands before the
/// other.
pub fn order_laws()
    ensures trans { (r : Row) (a b c : ℕ) → Stands r a b → Stands r b c → Stands r a c }
    ensures apart { (r : Row) (a b : ℕ) → Stands r a b → Stands r b a → ⊥ }
    ensures one { (r : Row) (a b : ℕ) → (a ≡ b) ⊎ Stands r a b ⊎ Stands r b a }
    ensures yes { (r : Row) (c d : ℕ) → stands r c d ≡ true → Stands r c d }
    ensures no { (r : Row) (c d : ℕ) → stands r c d ≡ false → c ≢ d → Stands r d c }
{}

/// A cell that is linked in keeps the order of the list, and is the one cell more. A cell that is
/// not listed may get its link. A row that agrees with a list where it is listed is a list, and so
/// is a row of which nothing is listed.
pub fn insert_laws()
    ensures list { (r : Row) (at : Option ℕ) (c : ℕ) → IsList r → MayInsert r at c →
        IsList (inserted r at c) }
    ensures sound { (n : ℕ) (r : Row) (at : Option ℕ) (c : ℕ) → IsSound n r → MayInsert r at c →
        c < n → IsSound n (inserted r at c) }
    ensures added { (r : Row) (at : Option ℕ) (c : ℕ) → (inserted r at c).listed c ≡ true }
    ensures kept { (r : Row) (at : Option ℕ) (c d : ℕ) → r.listed d ≡ true →
        (inserted r at c).listed d ≡ true }
    ensures only { (r : Row) (at : Option ℕ) (c d : ℕ) → (inserted r at c).listed d ≡ true → (d ≡ c)
        ⊎ (r.listed d ≡ true) }
    ensures stored { (r : Row) (c : ℕ) (to : Option ℕ) → r.listed c ≡ false →
        Agree r (stored r c to) }
    ensures agrees { (r after : Row) → Agree r after → IsList r → IsList after }
    ensures agrees_sound { (n : ℕ) (r after : Row) → Agree r after → IsSound n r → IsSound n after }
    ensures empty { (n : ℕ) (r : Row) → IsEmpty r → IsSound n r }
{}

/// What events leave of a row: all that agrees is left, and so is all that was there where a cell
/// is linked in.
pub fn leave_laws()
    ensures agree { (n : ℕ) (r after : Row) → Agree r after → Leaves n r after }
    ensures insert { (n : ℕ) (r after : Row) (at : Option ℕ) (c : ℕ) → MayInsert r at c → c < n →
        Agree (inserted r at c) after → Leaves n r after }
    ensures trans { (n : ℕ) (r between after : Row) → Leaves n r between → Leaves n between after →
        Leaves n r after }
    ensures on { (n : ℕ) (r after : Row) (at : Option ℕ) → Leaves n r after → IsOn r at →
        IsOn after at }
    ensures behind { (n : ℕ) (r after : Row) (at : Option ℕ) (d : ℕ) → Leaves n r after →
        IsOn r at → SameCell r after d → IsBehind r at d → IsBehind after at d }
{}

/// Rows that are read off the words agree where the words of the list are what they were, and where
/// a link leads to one cell more.
pub fn word_laws()
    ensures keeps { (v w : Name → ℕ) (r : ℕ) (listed : ℕ → Bool) → KeepsList v w r listed →
        Agree (row_in v r listed) (row_in w r listed) }
    ensures links { (v w : Name → ℕ) (r : ℕ) (listed : ℕ → Bool) (at : Option ℕ) (c : ℕ) →
        LinksIn v w r listed at c → Agree (inserted (row_in v r listed) at c)
        (row_in w r (with_cell listed c)) }
{}

/// A put that walks to the place of its cell and links it in, while others do the same. Where its
/// exchange finds what it is to find, the cell may be linked in there; where it finds another word
/// the exchange is lost, and fewer are lost than there are cells.
pub fn put_laws()
    ensures begins { (n : ℕ) (r : Row) (own : ℕ) → r.listed own ≡ false → IsFrom n r own 0 None }
    ensures loads { (n : ℕ) (r : Row) (own lost : ℕ) (at : Option ℕ) → IsList r →
        IsFrom n r own lost at → IsAt n r own lost at (r.link at) }
    ensures goes_by { (n : ℕ) (r : Row) (own lost : ℕ) (at : Option ℕ) (c : ℕ) →
        IsAt n r own lost at (Some c) → Stands r c own → IsFrom n r own lost (Some c) }
    ensures stops { (n : ℕ) (r : Row) (own lost : ℕ) (at : Option ℕ) (c : ℕ) →
        IsAt n r own lost at (Some c) → (Stands r c own → ⊥) → IsAhead r own (Some c) }
    ensures inserts { (n : ℕ) (r : Row) (own lost : ℕ) (at held : Option ℕ) →
        IsSet n r own lost at held → r.link at ≡ held → MayInsert r at own }
    ensures loses { (n : ℕ) (r : Row) (own lost : ℕ) (at held : Option ℕ) →
        IsAt n r own lost at held → r.link at ≢ held → IsFrom n r own (lost + 1) None }
    ensures lost { (n : ℕ) (r : Row) (own lost : ℕ) (at : Option ℕ) → own < n →
        IsFrom n r own lost at → lost < n }
    ensures from_stays { (n : ℕ) (r after : Row) (own lost : ℕ) (at : Option ℕ) → Leaves n r after →
        LeavesCell r after own → IsFrom n r own lost at → IsFrom n after own lost at }
    ensures at_stays { (n : ℕ) (r after : Row) (own lost : ℕ) (at held : Option ℕ) →
        Leaves n r after → LeavesCell r after own → IsAt n r own lost at held →
        IsAt n after own lost at held }
    ensures ahead_stays { (n : ℕ) (r after : Row) (own : ℕ) (held : Option ℕ) → Leaves n r after →
        LeavesCell r after own → IsOn r held → IsAhead r own held → IsAhead after own held }
    ensures set_stays { (n : ℕ) (r after : Row) (own lost : ℕ) (at held : Option ℕ) →
        Leaves n r after → LeavesOwn r after own → IsSet n r own lost at held →
        IsSet n after own lost at held }
{}

/// A walk along the links reaches no cell twice, and so no more cells than there are; a put, whose
/// own cell is not listed, fewer.
pub fn walk_laws()
    ensures begins { (n : ℕ) (r : Row) → IsWalking n r None 0 }
    ensures goes_on { (n : ℕ) (r : Row) (at : Option ℕ) (walked c : ℕ) → c < n → r.listed c ≡ true →
        IsBehind r at c → IsWalking n r at walked → IsWalking n r (Some c) (walked + 1) }
    ensures stays { (n : ℕ) (r after : Row) (at : Option ℕ) (walked : ℕ) → Leaves n r after →
        IsWalking n r at walked → IsWalking n after at walked }
    ensures most { (n : ℕ) (r : Row) (at : Option ℕ) (walked : ℕ) → IsWalking n r at walked →
        walked ≤ n }
    ensures fewer { (n : ℕ) (r : Row) (at : Option ℕ) (walked own : ℕ) → own < n →
        r.listed own ≡ false → IsWalking n r at walked → walked < n }
    ensures once { (r : Row) (at : Option ℕ) (d : ℕ) → IsGoneBy r at d → IsBehind r at d → ⊥ }
    ensures gone_by { (r : Row) (at : Option ℕ) (c d : ℕ) → IsBehind r at c → IsGoneBy r at d →
        IsGoneBy r (Some c) d }
{}

/// What a reader reaches: a cell that is listed behind its link is the one that the link holds, or
/// stands behind that, so the reader will reach it; and at the first cell above its range, or at
/// the end of the list, it has reached all. The first cell of a key is the newest.
pub fn read_laws()
    ensures reaches { (r : Row) (at to : Option ℕ) (d : ℕ) → Leads r at to → r.listed d ≡ true →
        IsBehind r at d → (c : ℕ) × (to ≡ Some c) × ((d ≡ c) ⊎ Stands r c d) }
    ensures ends { (r : Row) (at to : Option ℕ) (d : ℕ) → Leads r at to → to ≡ None →
        r.listed d ≡ true → IsBehind r at d → ⊥ }
    ensures above { (r : Row) (c d upto : ℕ) → upto < r.key c → (d ≡ c) ⊎ Stands r c d →
        upto < r.key d }
    ensures newest { (r : Row) (at : Option ℕ) (c d : ℕ) → IsNext r at c → r.listed d ≡ true →
        IsBehind r at d → r.key d ≡ r.key c → r.version d ≤ r.version c }
{}

/// What is reached from the row's first link, going from link to link, is what is listed.
pub fn path_laws()
    ensures listed { (n : ℕ) (r : Row) (d : ℕ) → IsSound n r → r.listed d ≡ true → IsReached r d }
    ensures saw { (r : Row) (d : ℕ) → IsList r → IsReached r d → r.listed d ≡ true }
{}

/// A row that is written at once, from cells that rise by key and then by version, is a list where
/// the link of each cell leads to the place before its own if that has its key, and else to the
/// last place of the next key.
pub fn write_laws()
    ensures { (n : ℕ) (r : Row) → IsBuilt n r → IsList r }
{}
