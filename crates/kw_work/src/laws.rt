//! What follows of dealing and collecting.
//!
//! Nothing runs here: the functions' clauses are the statements. Whoever runs the workers needs
//! them to speak of an input's lines where the contracts of `deal` and `collect` speak of blocks
//! and parts.
ghost use Rattle.std.specs.Prelude.{ℕ, suc, ◌≡◌, ◌<◌, false, List, [], length, map, slice_get, Some, All, IsPermutation};
ghost use Rattle.std.specs.List.{flat_map, range_with_len, AllByRecursion};
ghost use Rattle.kw_model.specs.declared.call.Call.{Call};
ghost use Rattle.kw_model.specs.declared.call.Reply.{Reply};
ghost use Rattle.kw_model.specs.Map.{answers, between};
ghost use Rattle.kw_model.specs.Legal.{IsLegal, is_refusal, went, went_all};
ghost use Rattle.kw_line.specs.declared.item.Item.{Item};
ghost use Rattle.kw_line.specs.Line.{calls, forms, IsItem};
ghost use Rattle.kw_line.specs.Quiet.{blocks, quiet};
ghost use Rattle.kw_work.specs.declared.line.Line.{Line};
ghost use Rattle.kw_line.specs.declared.answer.Answer.{Answer};
ghost use Rattle.kw_work.specs.Dealing.{blocks_of, lines_of, part, IsLine};
ghost use Rattle.kw_work.specs.Collecting.{merge, no_answer};
ghost use Rattle.kw_work.specs.Lines.{all_parts, quiet_lines, IsItemOf, AreRising};
ghost use Rattle.kw_work.specs.LineOrder.{IsOrderOf, StandsBefore, IsLegalIn, joined, calls_of, map_in, accepted_above, greatest_key, KeepsKeys, KeepsWorkers, HaveForms, NoneRefused, QuietRight, QuietServed, NoItemRefused, QuietItemsAnswered, AreOfLines, StandsBeforeBy};

/// The lines are the items that make calls, in order. The blocks, one after another, are the lines,
/// cut where the waits stand, and a line is as quiet as its item. The lines of a worker in a block
/// rise. Each line of a block is dealt to one worker, and once.
pub fn dealing_laws()
    ensures items { (n : ℕ) (items : List Item) → All (IsItemOf n items) (lines_of n items) }
    ensures calls { (n : ℕ) (items : List Item) → map (λ l. l.call) (lines_of n items)
        ≡ calls items }
    ensures forms { (n : ℕ) (items : List Item) → map (λ l. l.form) (lines_of n items)
        ≡ forms items }
    ensures blocks { (n : ℕ) (items : List Item) → flat_map (λ block. block) (blocks_of n items)
        ≡ lines_of n items }
    ensures cut { (n : ℕ) (items : List Item) → map (λ block. map (λ l. l.form) block)
        (blocks_of n items) ≡ map forms (blocks items) }
    ensures quiet { (n : ℕ) (items : List Item) → flat_map quiet_lines (blocks_of n items)
        ≡ quiet items }
    ensures rising { (n workers worker : ℕ) (items : List Item) →
        All (λ block. AreRising (part workers worker block)) (blocks_of n items) }
    ensures once { (workers : ℕ) (lines : List Line) → 0 < workers →
        IsPermutation lines (all_parts workers lines) }
{}

/// Answers that are collected stand in the order of their lines: where each worker has for its
/// lines what a function gives of them, what is collected is what it gives of all lines. What is
/// dealt and then collected is as it was before. One worker has all lines of a block, and what it
/// answers is what is collected.
pub fn collecting_laws()
    ensures order { (workers : ℕ) (lines : List Line) (given : ℕ → List Answer) (answer : Line →
        Answer) → 0 < workers → ((worker : ℕ) → worker < workers → given worker
        ≡ map answer (part workers worker lines)) → merge workers given no_answer [] lines
        ≡ map answer lines }
    ensures back { (workers : ℕ) (lines : List Line) (none : Line) → 0 < workers →
        merge workers (λ worker. part workers worker lines) none [] lines ≡ lines }
    ensures one_part { (lines : List Line) → part 1 0 lines ≡ lines }
    ensures one { (lines : List Line) (given : ℕ → List Answer) →
        length (given 0) ≡ length lines → merge 1 given no_answer [] lines ≡ given 0 }
{}

/// Replies that are right in some order of the lines are, where the order keeps enough of the order
/// of the lines, those that the map gives when it is asked in line order. An order that keeps all
/// of it, as one worker's does, is the order of the lines, and where nothing is refused all replies
/// are the map's. An order that keeps the blocks and each worker's lines keeps the lines on each
/// key in their order, and then the replies to quiet lines are the map's, if no line that sets a
/// value or takes a key away was refused; a range line may be refused all the same.
pub fn quiet_laws()
    ensures whole { (n : ℕ) (xs : List ℕ) → IsOrderOf n xs →
        ((i j : ℕ) → i < j → StandsBefore xs i j) → xs ≡ range_with_len 0 n }
    ensures right { (cs : List Call) (rs : List Reply) (xs : List ℕ) → length cs ≡ length rs →
        IsOrderOf (length cs) xs → ((i j : ℕ) → i < j → StandsBefore xs i j) → IsLegalIn cs rs xs →
        IsLegal [] cs rs }
    ensures answered { (cs : List Call) (rs : List Reply) → All (λ r. is_refusal r ≡ false) rs →
        IsLegal [] cs rs → rs ≡ answers [] cs }
    ensures one_worker { (blocks : List (List Line)) (xs : List ℕ) →
        IsOrderOf (length (joined blocks)) xs → KeepsWorkers 1 blocks xs → (i j : ℕ) → i < j →
        StandsBefore xs i j }
    ensures keys { (workers : ℕ) (blocks : List (List Line)) (xs : List ℕ) →
        KeepsWorkers workers blocks xs → KeepsKeys blocks xs }
    ensures quiet { (blocks : List (List Line)) (rs : List Reply) (xs : List ℕ) →
        length rs ≡ length (joined blocks) → HaveForms (joined blocks) →
        IsOrderOf (length (joined blocks)) xs → KeepsKeys blocks xs →
        NoneRefused (joined blocks) rs → IsLegalIn (calls_of (joined blocks)) rs xs →
        QuietServed blocks rs }
    ensures items { (n : ℕ) (items : List Item) (rs : List Reply) (xs : List ℕ) →
        AllByRecursion IsItem items → length rs ≡ length (calls items) →
        IsOrderOf (length (calls items)) xs → KeepsKeys (blocks_of n items) xs →
        NoItemRefused items rs → IsLegalIn (calls items) rs xs → QuietItemsAnswered items rs }
{}

/// What was accepted, where updates may be refused too. A refusal leaves the map as it is. So in an
/// order that keeps the blocks and the lines on each key all lines leave the map that the accepted
/// ones leave in line order; and where the replies are right in it, each quiet line is answered of
/// the map of the accepted lines above it. What a range line of a block without updates was given
/// are that map's pairs, and where it asked for all keys they are the whole map. Of the map above
/// one line that above the next is made by the line's call, unless it was refused.
pub fn accepted_laws()
    ensures whole { (blocks : List (List Line)) (rs : List Reply) (xs : List ℕ) →
        length rs ≡ length (joined blocks) → IsOrderOf (length (joined blocks)) xs →
        KeepsKeys blocks xs → map_in (calls_of (joined blocks)) rs xs
        ≡ went_all [] (calls_of (joined blocks)) rs }
    ensures quiet { (blocks : List (List Line)) (rs : List Reply) (xs : List ℕ) →
        length rs ≡ length (joined blocks) → HaveForms (joined blocks) →
        IsOrderOf (length (joined blocks)) xs → KeepsKeys blocks xs →
        IsLegalIn (calls_of (joined blocks)) rs xs → QuietRight blocks rs }
    ensures step { (cs : List Call) (rs : List Reply) (i : ℕ) (c : Call) (r : Reply) →
        slice_get cs i ≡ Some c → slice_get rs i ≡ Some r → accepted_above cs rs (suc i)
        ≡ went (accepted_above cs rs i) c r }
    ensures all_keys { (lines : List Line) (rs : List Reply) (i : ℕ) → All IsLine lines →
        between 0 greatest_key (accepted_above (calls_of lines) rs i)
        ≡ accepted_above (calls_of lines) rs i }
{}

/// Calls that were made in some order, each of one line: by their lines this is an order of the
/// lines. It is legal where the order of the calls is, and a line stands before another where its
/// call does.
pub fn made_calls_laws()
    ensures order { (cs : List Call) (rs : List Reply) (call_of : ℕ → Call) (reply_of : ℕ →
        Reply) (line_of : ℕ → ℕ) (ys : List ℕ) → AreOfLines cs rs call_of reply_of line_of ys →
        IsOrderOf (length cs) (map line_of ys) }
    ensures legal { (cs : List Call) (rs : List Reply) (call_of : ℕ → Call) (reply_of : ℕ →
        Reply) (line_of : ℕ → ℕ) (ys : List ℕ) → AreOfLines cs rs call_of reply_of line_of ys →
        IsLegal [] (map call_of ys) (map reply_of ys) → IsLegalIn cs rs (map line_of ys) }
    ensures before { (line_of : ℕ → ℕ) (ys : List ℕ) (i j : ℕ) → StandsBeforeBy line_of ys i j →
        StandsBefore (map line_of ys) i j }
{}
