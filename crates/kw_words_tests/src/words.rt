//! Places and words against numbers that were computed apart from the crate of the words.
//!
//! The words, and what they stand for, are asked without the clauses of the functions that give
//! them: the tests need not know these, and else the proof of a test carries those of all its
//! calls.
ghost use Rattle.kw_words.specs.Link.{IsLink};
ghost use Rattle.kw_words.specs.Pend.{IsPend};
ghost use Rattle.kw_words.specs.Scan.{IsScan};
ghost use Rattle.kw_words.specs.State.{IsState};

use kw_words::count::Count;
use kw_words::kind::{KINDS, Kind};
use kw_words::layout::{Layout, Name};
use kw_words::link::Link;
use kw_words::pend::Pend;
use kw_words::plain;
use kw_words::scan::ScanWord;
use kw_words::sizes::{CELLS, NUMBER_END, SEATS, SPENT, VERSION_END};
use kw_words::state::State;

// The product's words are four and three for each seat, and of each of 64 rows five, one for each
// seat and four for each cell.
#[test]
fn tables_have_their_sizes(rt: HostRuntime) {
    let product = Layout::<SEATS, CELLS>::words(64);
    let sizes = [
        (Layout::<8, 64>::words(64), 17_244),
        (Layout::<16, 128>::words(64), 34_164),
        (Layout::<16, 128>::words(65_536), 34_930_740),
        (Layout::<1, 1>::words(1), 17),
        (product, 4 + 3 * SEATS + 64 * (5 + SEATS + 4 * CELLS)),
    ];
    for (size, wanted) in sizes {
        assert_eq!(rt; size, wanted);
    }
}

// 2^48, and twice that
#[test]
fn clocks_and_epochs_are_spent_at_their_bound(rt: HostRuntime) {
    let bounds = [SPENT, VERSION_END, NUMBER_END];
    assert_eq!(rt;
        bounds,
        [
            281_474_976_710_656,
            562_949_953_421_312,
            562_949_953_421_312
        ]
    );
}

// Before row 9 stand four words and three for each seat, and nine rows of five words, one for each
// seat and four for each cell. Of its own words five and one for each seat come before its cells.
#[test]
fn words_of_the_product_lie_in_place(rt: HostRuntime) {
    let row = 4 + 3 * SEATS + 9 * (5 + SEATS + 4 * CELLS);
    let cell = row + 5 + SEATS + 4 * 37;
    let places = [
        (Name::Clock, 0),
        (Name::Epoch, 1),
        (Name::Head, 2),
        (Name::Turn, 3),
        (Name::Pass(5), 4 + 5),
        (Name::Scan(5), 4 + SEATS + 5),
        (Name::Pin(5), 4 + 2 * SEATS + 5),
        (Name::State(9), row),
        (Name::Count(9), row + 1),
        (Name::Least(9), row + 2),
        (Name::Next(9), row + 3),
        (Name::First(9), row + 4),
        (Name::Pend(9, 5), row + 5 + 5),
        (Name::Key(9, 37), cell),
        (Name::Value(9, 37), cell + 1),
        (Name::Version(9, 37), cell + 2),
        (Name::After(9, 37), cell + 3),
    ];
    for (name, place) in places {
        assert_eq!(rt; Layout::<SEATS, CELLS>::place(64, name), place);
    }
}

#[test]
fn words_of_smaller_rows_lie_in_place(rt: HostRuntime) {
    let places = [
        (Name::Clock, 0),
        (Name::Epoch, 1),
        (Name::Head, 2),
        (Name::Turn, 3),
        (Name::Pass(5), 9),
        (Name::Scan(5), 17),
        (Name::Pin(5), 25),
        (Name::State(9), 2_449),
        (Name::Count(9), 2_450),
        (Name::Least(9), 2_451),
        (Name::Next(9), 2_452),
        (Name::First(9), 2_453),
        (Name::Pend(9, 5), 2_459),
        (Name::Key(9, 37), 2_610),
        (Name::Value(9, 37), 2_611),
        (Name::Version(9, 37), 2_612),
        (Name::After(9, 37), 2_613),
    ];
    for (name, place) in places {
        assert_eq!(rt; Layout::<8, 64>::place(64, name), place);
    }
}

#[test]
fn last_words_of_the_largest_table_lie_in_place(rt: HostRuntime) {
    let places = [
        (Name::Pin(15), 51),
        (Name::State(65_535), 34_930_207),
        (Name::Pend(65_535, 15), 34_930_227),
        (Name::After(65_535, 127), 34_930_739),
    ];
    for (name, place) in places {
        assert_eq!(rt; Layout::<16, 128>::place(65_536, name), place);
    }
}

fn entry_word(entry: Pend) -> u64
    requires { IsPend entry }
{
    entry.pack()
}

fn state_word(state: State) -> u64
    requires { IsState state }
{
    state.pack()
}

fn link_word(link: Link) -> u64
    requires { IsLink link }
{
    link.pack()
}

fn count_word(count: Count) -> u64 {
    count.pack()
}

fn scan_word(scan: ScanWord) -> u64
    requires { IsScan scan }
{
    scan.pack()
}

fn entry_of(word: u64) -> Option<Pend> {
    Pend::unpack(word)
}

fn state_of(word: u64) -> Option<State> {
    State::unpack(word)
}

fn link_of(word: u64) -> Option<Link> {
    Link::unpack(word)
}

fn count_of(word: u64) -> Option<Count> {
    Count::unpack(word)
}

fn scan_of(word: u64) -> Option<ScanWord> {
    ScanWord::unpack(word)
}

#[test]
fn entries_and_states_have_their_words(rt: HostRuntime) {
    let words = [
        (entry_word(Pend::Pending(5)), 21),
        (entry_word(Pend::Stamped(5, 9)), 294_934),
        (
            entry_word(Pend::Stamped(127, VERSION_END - 1)),
            18_446_744_073_709_519_358,
        ),
        (state_word(State::Infant(15)), 121),
        (state_word(State::Leader(2)), 19),
        (state_word(State::Follower(65_535)), 524_284),
        (
            state_word(State::Retired(NUMBER_END - 1)),
            4_503_599_627_370_493,
        ),
    ];
    for (word, wanted) in words {
        assert_eq!(rt; word, wanted);
    }
}

#[test]
fn links_counts_and_scans_have_their_words(rt: HostRuntime) {
    let last = Link {
        row: Some(65_535),
        marked: true,
    };
    let frozen = Count {
        given: 70,
        frozen: true,
    };
    let words = [
        (link_word(last), 4_295_032_832),
        (count_word(frozen), 4_294_967_366),
        (
            scan_word(ScanWord::Waiting(VERSION_END - 1)),
            2_251_799_813_685_245,
        ),
        (scan_word(ScanWord::Drawn(3)), 14),
    ];
    for (word, wanted) in words {
        assert_eq!(rt; word, wanted);
    }
}

#[test]
fn plain_values_have_their_words(rt: HostRuntime) {
    let words = [
        (plain::pack_value(Some(7)), 9_223_372_036_854_775_815),
        (plain::pack_value(None), 0),
        (plain::pack_cell_link(Some(127)), 128),
        (plain::pack_version(Some(3)), 3),
        (plain::pack_pass(None), 0),
        (plain::pack_key(4_294_967_295), 4_294_967_295),
    ];
    for (word, wanted) in words {
        assert_eq!(rt; word, wanted);
    }
}

#[test]
fn words_of_no_entry_are_refused(rt: HostRuntime) {
    for word in [2, 4, 7, 510, 513, 514, 32_771, 33_282, 1 << 63, u64::MAX] {
        assert_eq!(rt; entry_of(word), None, "entry {word}");
    }
}

#[test]
fn words_of_no_state_are_refused(rt: HostRuntime) {
    for word in [5, 6, 7, 8, 10, 27, 129, 524_292, 4_503_599_627_370_501] {
        assert_eq!(rt; state_of(word), None, "state {word}");
    }
}

#[test]
fn words_of_no_link_are_refused(rt: HostRuntime) {
    for word in [65_537, 4_294_967_295, 4_295_032_833, 8_589_934_592] {
        assert_eq!(rt; link_of(word), None, "link {word}");
    }
}

#[test]
fn words_of_no_count_are_refused(rt: HostRuntime) {
    for word in [8_589_934_592, u64::MAX] {
        assert_eq!(rt; count_of(word), None, "count {word}");
    }
}

#[test]
fn words_of_no_cell_are_refused(rt: HostRuntime) {
    for word in [129, 4_294_967_297, u64::MAX] {
        assert_eq!(rt; plain::unpack_cell_link(word), None, "cell {word}");
    }
}

#[test]
fn words_of_no_scan_are_refused(rt: HostRuntime) {
    for word in [
        1,
        2,
        3,
        4,
        7,
        8,
        2_251_799_813_685_249,
        2_251_799_813_685_250,
    ] {
        assert_eq!(rt; scan_of(word), None, "scan {word}");
    }
}

#[test]
fn entries_are_read_back(rt: HostRuntime) {
    let entries = [
        (294_934, Pend::Stamped(5, 9)),
        (0, Pend::Idle),
        (509, Pend::Pending(127)),
        (3, Pend::Frozen),
    ];
    for (word, entry) in entries {
        assert_eq!(rt; entry_of(word), Some(entry), "entry {word}");
    }
}

#[test]
fn states_are_read_back(rt: HostRuntime) {
    let states = [
        (0, State::Free),
        (121, State::Infant(15)),
        (2, State::Normal),
        (3, State::Leader(0)),
        (524_284, State::Follower(65_535)),
        (61, State::Retired(7)),
    ];
    for (word, state) in states {
        assert_eq!(rt; state_of(word), Some(state), "state {word}");
    }
}

#[test]
fn links_are_read_back(rt: HostRuntime) {
    let end = Link {
        row: None,
        marked: true,
    };
    let last = Link {
        row: Some(65_535),
        marked: false,
    };
    for (word, link) in [(4_294_967_296, end), (65_536, last)] {
        assert_eq!(rt; link_of(word), Some(link), "link {word}");
    }
}

#[test]
fn counts_are_read_back(rt: HostRuntime) {
    let frozen = Count {
        given: 4_294_967_295,
        frozen: true,
    };
    assert_eq!(rt; count_of(8_589_934_591), Some(frozen));
}

#[test]
fn scans_are_read_back(rt: HostRuntime) {
    let scans = [
        (0, ScanWord::Quiet),
        (14, ScanWord::Drawn(3)),
        (5, ScanWord::Waiting(1)),
    ];
    for (word, scan) in scans {
        assert_eq!(rt; scan_of(word), Some(scan), "scan {word}");
    }
}

#[test]
fn plain_words_are_read_back(rt: HostRuntime) {
    let numbers = [
        (plain::unpack_value(9_223_372_036_854_775_815), Some(7)),
        (plain::unpack_value(0), None),
        (plain::unpack_version(0), None),
        (plain::unpack_pass(3), Some(3)),
    ];
    for (number, wanted) in numbers {
        assert_eq!(rt; number, wanted);
    }
}

#[test]
fn links_to_cells_and_keys_are_read_back(rt: HostRuntime) {
    assert_eq!(rt;
        (
            plain::unpack_cell_link(128),
            plain::unpack_key(4_294_967_295)
        ),
        (Some(127), 4_294_967_295)
    );
}

// the word of a least key of 40, of a row that was built with three cells, is 3 * 2^32 + 40
#[test]
fn the_word_of_a_least_key_says_with_how_many_cells_the_row_was_built(rt: HostRuntime) {
    let word = 12_884_901_928;
    assert_eq!(rt;
        (
            plain::pack_least(40, 3),
            plain::unpack_key(word),
            plain::unpack_built(word)
        ),
        (word, 40, 3)
    );
}

#[test]
fn kinds_have_their_names(rt: HostRuntime) {
    let names = [
        (Kind::LoadEpoch.name(), "load_epoch"),
        (Kind::Engage.name(), "engage"),
        (Kind::EngageNext.name(), "engage_next"),
        (Kind::LoadAfter.name(), "load_after"),
        (Kind::StorePin.name(), "store_pin"),
        (Kind::LoadPin.name(), "load_pin"),
        (Kind::ClearPin.name(), "clear_pin"),
    ];
    for (name, wanted) in names {
        assert_eq!(rt; name, wanted);
    }
}

#[test]
fn kinds_are_numbered(rt: HostRuntime) {
    assert_eq!(rt; (KINDS.len(), Kind::ClearPin.place()), (50, 49));
}

#[test]
fn kinds_are_found_by_their_names(rt: HostRuntime) {
    let kinds = [
        ("store_after", Some(Kind::StoreAfter)),
        ("freeze_count", Some(Kind::FreezeCount)),
        ("store_pin", Some(Kind::StorePin)),
        ("load_pin", Some(Kind::LoadPin)),
        ("clear_pin", Some(Kind::ClearPin)),
        ("take_turn", None),
    ];
    for (name, kind) in kinds {
        assert_eq!(rt; Kind::named(name), kind, "{name}");
    }
}
