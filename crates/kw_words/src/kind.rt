//! The kinds of event.
//!
//! An event is one operation of a seat on one word of the table. Its kind says what the operation
//! is for. Scripts name the kinds as `KINDS` lists them, in the order in which they are declared
//! here.
ghost use Rattle.std.specs.Prelude.{◌≡◌, ◌↔◌, Some, length, slice_get, IsTrue};
ghost use Rattle.kw_words.specs.Kind.{name_of, index_in_kinds};
ghost use Rattle.kw_words.specs.declared.kind.Kind.{Kind};
ghost use Rattle.kw_words.specs.declared.kind.TheConstants.Kind.{ALL};

/// A kind of event.
#[derive(Clone, Copy, Debug, PartialEq, Eq)]
pub enum Kind {
    /// Loads the epoch, to announce it.
    LoadEpoch,
    /// Stores the epoch that the seat announces.
    StorePass,
    /// Stores that the seat announces no epoch.
    ClearPass,
    /// Loads the count of a row.
    LoadCount,
    /// Adds one to the count of a row, to get a cell.
    AddCount,
    /// Stores the key of a cell.
    StoreKey,
    /// Stores the value of a cell.
    StoreValue,
    /// Exchanges the seat's idle entry in a row for one with its cell.
    Announce,
    /// Loads the clock.
    LoadClock,
    /// Exchanges the seat's pending entry for one with a version.
    Stamp,
    /// Stores the version of a cell.
    StoreVersion,
    /// Stores that the seat's entry in a row is idle.
    ClearPend,
    /// Loads an entry of a row.
    LoadPend,
    /// Loads the key of a cell.
    LoadKey,
    /// Loads the value of a cell.
    LoadValue,
    /// Loads the version of a cell.
    LoadVersion,
    /// Exchanges another seat's pending entry for one with a version.
    HelpStamp,
    /// Stores the clock that the seat's scan loaded.
    StoreWaiting,
    /// Adds one to the clock, to draw a version for the seat's scan.
    Draw,
    /// Exchanges the seat's waiting scan for one with a version.
    Settle,
    /// Stores that the seat makes no scan.
    ClearScan,
    /// Loads the link to the first row.
    LoadHead,
    /// Loads a link between rows.
    LoadLink,
    /// Loads the least key of a row.
    LoadLeast,
    /// Loads the state of a row.
    LoadState,
    /// Exchanges the normal state of a full row for that of a leader.
    Engage,
    /// Sets the frozen bit in the count of a row.
    FreezeCount,
    /// Exchanges an entry of a row for a frozen one.
    FreezePend,
    /// Loads the scan of a seat.
    LoadScan,
    /// Adds one to the clock, to draw a version for another seat's scan.
    HelpDraw,
    /// Exchanges another seat's waiting scan for one with a version.
    HelpSettle,
    /// Exchanges the free state of a row for that of an infant of the seat.
    TakeRow,
    /// Stores a word of an infant row.
    StoreInfant,
    /// Exchanges the link to a row for one to the first row that replaces it.
    Replace,
    /// Exchanges the infant state of a row for the normal one.
    Normalise,
    /// Stores that a row is free again.
    GiveBack,
    /// Adds one to the epoch, to get the number of a retired row.
    Number,
    /// Stores that a row is retired, with its number.
    StoreRetired,
    /// Loads the epoch that a seat has announced.
    LoadPass,
    /// Exchanges the retired state of a row for the free one.
    Reclaim,
    /// Sets the mark in the link of a row.
    MarkLink,
    /// Loads the count of the row after a full one.
    LoadNextCount,
    /// Exchanges the state of a leader for one with the number of rows to replace.
    Decide,
    /// Exchanges the normal state of the row after a leader for that of its follower.
    EngageNext,
    /// Loads the link to the first listed cell of a row, or to the one after a cell.
    LoadAfter,
    /// Stores the link after a cell that is not listed yet.
    StoreAfter,
    /// Exchanges a link between the cells of a row for one to a cell that is listed so.
    Insert,
    /// Stores the version at which the seat pins the map.
    StorePin,
    /// Loads the pin of a seat.
    LoadPin,
    /// Stores that the seat pins nothing.
    ClearPin,
}

/// The names of the kinds, in the order of the enum.
pub const KINDS: &[&str] = &[
    "load_epoch",
    "store_pass",
    "clear_pass",
    "load_count",
    "add_count",
    "store_key",
    "store_value",
    "announce",
    "load_clock",
    "stamp",
    "store_version",
    "clear_pend",
    "load_pend",
    "load_key",
    "load_value",
    "load_version",
    "help_stamp",
    "store_waiting",
    "draw",
    "settle",
    "clear_scan",
    "load_head",
    "load_link",
    "load_min",
    "load_state",
    "engage",
    "freeze_count",
    "freeze_pend",
    "load_scan",
    "help_draw",
    "help_settle",
    "take_row",
    "store_infant",
    "replace",
    "normalise",
    "give_back",
    "number",
    "store_retired",
    "load_pass",
    "reclaim",
    "mark_link",
    "load_next_count",
    "decide",
    "engage_next",
    "load_after",
    "store_after",
    "insert",
    "store_pin",
    "load_pin",
    "clear_pin",
];

impl Kind {
    /// All kinds, in the order of `KINDS`.
    pub const ALL: [Kind; 50] = [
        Kind::LoadEpoch,
        Kind::StorePass,
        Kind::ClearPass,
        Kind::LoadCount,
        Kind::AddCount,
        Kind::StoreKey,
        Kind::StoreValue,
        Kind::Announce,
        Kind::LoadClock,
        Kind::Stamp,
        Kind::StoreVersion,
        Kind::ClearPend,
        Kind::LoadPend,
        Kind::LoadKey,
        Kind::LoadValue,
        Kind::LoadVersion,
        Kind::HelpStamp,
        Kind::StoreWaiting,
        Kind::Draw,
        Kind::Settle,
        Kind::ClearScan,
        Kind::LoadHead,
        Kind::LoadLink,
        Kind::LoadLeast,
        Kind::LoadState,
        Kind::Engage,
        Kind::FreezeCount,
        Kind::FreezePend,
        Kind::LoadScan,
        Kind::HelpDraw,
        Kind::HelpSettle,
        Kind::TakeRow,
        Kind::StoreInfant,
        Kind::Replace,
        Kind::Normalise,
        Kind::GiveBack,
        Kind::Number,
        Kind::StoreRetired,
        Kind::LoadPass,
        Kind::Reclaim,
        Kind::MarkLink,
        Kind::LoadNextCount,
        Kind::Decide,
        Kind::EngageNext,
        Kind::LoadAfter,
        Kind::StoreAfter,
        Kind::Insert,
        Kind::StorePin,
        Kind::LoadPin,
        Kind::ClearPin,
    ];

    /// The kind of this name, if there is one.
    pub fn named(name: &str) -> Option<Kind>
        ensures right { (kind : Kind) → result ≡ Some kind → name_of kind ≡ name.now }
        ensures every { (kind : Kind) → name_of kind ≡ name.now → result ≡ Some kind }
    {
        for kind in Self::ALL {
            if kind.has_name(name) {
                return Some(kind);
            }
        }
        None
    }

    // Whether this is the name of this kind.
    fn has_name(self, name: &str) -> bool
        ensures { IsTrue result ↔ (name_of self ≡ name.now) }
    {
        self.name() == name
    }

    /// The place of this kind in `KINDS` and in `ALL`, counted from 0. Both list each kind once.
    pub fn place(self) -> usize
        ensures place { result ≡ index_in_kinds self }
        ensures own { slice_get ALL result ≡ Some self }
        ensures named { slice_get KINDS.now result ≡ Some (record { now = name_of self }) }
        ensures many { length KINDS.now ≡ length ALL }
    {
        self as usize
    }

    /// The name of this kind in `KINDS`.
    pub fn name(self) -> &'static str
        ensures value { result.now ≡ name_of self }
        ensures listed { slice_get KINDS.now (index_in_kinds self)
            ≡ Some (record { now = name_of self }) }
    {
        KINDS[self as usize]
    }
}
