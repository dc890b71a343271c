//! A cursor along the list of a row, and the events by which a reader, or a put that inserts its
//! cell, goes on.
//!
//! A reader makes two events for each cell that it goes by and four for each that it gathers. All
//! that changes between them is how far it has come and which cell it has at hand. So code that
//! goes along a list keeps these in a `Cursor`, which lies in registers, and leaves all else of the
//! reader's local where it was: `with_cursor` says which local the two stand for. Once it has come
//! to the end of the list or to a key above its range, it writes the cursor back, and goes on by
//! `go_to_left_over`.
//!
//! A put goes along the list in the same way, to where its own cell stands, by two events for each
//! cell that it goes by. It goes on from there by `see_insert_link` or `see_insert_key`.
ghost use Rattle.std.specs.Prelude.{◌≡◌, ◌<◌, unwrap_or};
ghost use Rattle.kw_words.specs.Plain.{value_of_word, version_of_word};
ghost use Rattle.kw_words.specs.declared.sizes.TheConstants.{CELLS};
ghost use Rattle.kw_core.specs.Stages.{IsAtInsertLink, IsAtReadLink};
ghost use Rattle.kw_table.specs.Passes.{Makes};
ghost use Rattle.kw_follow.specs.Cursors.{ReadsWord, cell_at, first_of, gathering_at, holding, past, reached, with_cursor};
ghost use Rattle.kw_follow.specs.Following.{Follows};

use kw_cells::cell::Cell;
use kw_step_put::operation::link_name;
use kw_table::{Pass, Shared, load_after, load_key, load_value, load_version};
use kw_words::layout::Name;
use kw_words::plain::{unpack_value, unpack_version};
use kw_world::activity::Activity;
use kw_world::activity::insert::Insert;
use kw_world::activity::read::Read;
use kw_world::event::Choice;
use kw_world::local::Local;

/// How far a reader or a put has come along the list of its row, and the cell that it has at hand.
#[derive(Clone, Copy, Debug, PartialEq, Eq)]
pub struct Cursor {
    /// The row of the reader or the put, whose list it is. A rebalance goes along the list of the
    /// row at hand, which its local has.
    pub row: u32,
    /// The cell after whose link the walk goes on; none at the row's first link.
    pub link: Option<u32>,
    /// The cell at hand, which is the one that was reached last.
    pub place: u32,
    /// How many cells were reached, and never more than there are cells.
    pub walked: u32,
    /// The key of the cell at hand, where a reader has it in the range of its call.
    pub key: u32,
    /// The version of the cell at hand, once a reader has loaded it.
    pub version: u64,
}

impl Cursor {
    /// The cursor of a reader that stands at the first link of this row's list, and has reached no
    /// cell.
    #[inline(always)]
    pub fn first(row: u32) -> Cursor
        ensures { result ≡ first_of row }
    {
        Cursor {
            row,
            link: None,
            place: 0,
            walked: 0,
            key: 0,
            version: 1,
        }
    }

    /// The cursor of a reader or a put with this local.
    #[inline(always)]
    pub fn of(local: &Local) -> Cursor
        ensures { with_cursor local.now.activity result local.now ≡ local.now }
    {
        Cursor {
            row: local.row,
            link: local.link,
            place: local.place,
            walked: local.walked,
            key: local.place_key,
            version: local.place_version,
        }
    }

    /// Writes the cursor back into the local of a reader or a put that is at this activity.
    #[inline(always)]
    pub fn write(self, local: &mut Local, activity: Activity)
        ensures { local.new ≡ with_cursor activity self local.old }
    {
        local.activity = activity;
        local.row = self.row;
        local.link = self.link;
        local.place = self.place;
        local.walked = self.walked;
        local.place_key = self.key;
        local.place_version = self.version;
    }

    /// The link led to this cell. The walk has reached fewer cells than there are.
    #[inline(always)]
    pub fn reach(self, cell: u32) -> Cursor
        requires { self.walked < CELLS }
        ensures { result ≡ reached cell self }
    {
        let mut next = self;
        next.place = cell;
        next.walked = self.walked + 1;
        next
    }

    /// The link led a put to this cell, and the put holds what the link held. The walk has reached
    /// fewer cells than there are.
    #[inline(always)]
    pub fn reach_holding(self, local: &mut Local, cell: u32) -> Cursor
        requires { self.walked < CELLS }
        ensures cursor { result ≡ reached cell self }
        ensures local { local.new ≡ holding cell local.old }
    {
        local.held = Some(cell);
        let mut next = self;
        next.place = cell;
        next.walked = self.walked + 1;
        next
    }

    /// The cell at hand has this key.
    #[inline(always)]
    pub fn with_key(self, key: u32) -> Cursor
        ensures { result ≡ record self { key = key } }
    {
        let mut next = self;
        next.key = key;
        next
    }

    /// The reader was told the version of the cell at hand. A cell without one counts as one of
    /// version 1; no list has such a cell.
    #[inline(always)]
    pub fn with_version(self, found: u64) -> Cursor
        ensures { result ≡ record self { version = unwrap_or (version_of_word found) 1 } }
    {
        let mut next = self;
        next.version = unpack_version(found).unwrap_or(1);
        next
    }

    /// The walk goes on to the link after the cell at hand.
    #[inline(always)]
    pub fn past(self) -> Cursor
        ensures { result ≡ past self }
    {
        let mut next = self;
        next.link = Some(self.place);
        next
    }

    /// The cell at hand, of which a reader has loaded the key and the version and was told this
    /// value.
    #[inline(always)]
    pub fn cell(self, found: u64) -> Cell
        ensures { result ≡ cell_at self (value_of_word found) }
    {
        Cell {
            key: self.key,
            place: self.place,
            version: self.version,
            value: unpack_value(found),
        }
    }

    /// The reader was told the value of the cell at hand, which is gathered. Takes no memory.
    #[inline(always)]
    pub fn gather(self, local: &mut Local, found: u64)
        ensures { local.new ≡ gathering_at self (value_of_word found) local.old }
    {
        local.gathered.gather(self.cell(found));
    }

    /// Loads the key of this cell, one of those with which the row was built, for a reader that is
    /// to begin its walk behind it. The answer is what the event was told. Takes no memory.
    #[inline(always)]
    pub fn load_guessed_key(self, shared: &Shared, pass: &mut Pass, cell: u32) -> u64
        requires cell { cell < shared.now.opening.rows }
        requires follows { (l : Local) × Follows shared.now pass.old (with_cursor (Activity.Read Read.Start) self l) × (cell < l.built) }
        ensures { Makes shared.now pass.old (Choice.Guess cell) result pass.new }
    {
        let key = Name::Key(self.row, cell);
        load_key(shared, pass, Choice::Guess(cell), key)
    }

    /// The walk begins behind this cell.
    #[inline(always)]
    pub fn behind(self, cell: u32) -> Cursor
        ensures { result ≡ record self { link = Some cell } }
    {
        let mut next = self;
        next.link = Some(cell);
        next
    }

    /// Loads the link at which the reader stands. The answer is what the event was told. Takes no
    /// memory.
    #[inline(always)]
    pub fn load_cell_link(self, shared: &Shared, pass: &mut Pass) -> u64
        requires { (a : Activity) × (l : Local) × IsAtReadLink a × Follows shared.now pass.old (with_cursor a self l) }
        ensures { (a : Activity) (l : Local) → IsAtReadLink a → Follows shared.now pass.old (with_cursor a self l) →
            ReadsWord shared.now pass.old (with_cursor a self l) result pass.new }
    {
        let link = link_name(self.row, self.link);
        load_after(shared, pass, link)
    }

    /// Loads the key of the cell at hand. The answer is what the event was told. Takes no memory.
    #[inline(always)]
    pub fn load_key(self, shared: &Shared, pass: &mut Pass) -> u64
        requires { (l : Local) × Follows shared.now pass.old (with_cursor (Activity.Read Read.Key) self l) }
        ensures { (l : Local) → Follows shared.now pass.old (with_cursor (Activity.Read Read.Key) self l) →
            ReadsWord shared.now pass.old (with_cursor (Activity.Read Read.Key) self l) result pass.new }
    {
        let key = Name::Key(self.row, self.place);
        load_key(shared, pass, Choice::Go, key)
    }

    /// Loads the version of the cell at hand. The answer is what the event was told. Takes no
    /// memory.
    #[inline(always)]
    pub fn load_version(self, shared: &Shared, pass: &mut Pass) -> u64
        requires { (l : Local) × Follows shared.now pass.old (with_cursor (Activity.Read Read.Version) self l) }
        ensures { (l : Local) → Follows shared.now pass.old (with_cursor (Activity.Read Read.Version) self l) →
            ReadsWord shared.now pass.old (with_cursor (Activity.Read Read.Version) self l) result pass.new }
    {
        let version = Name::Version(self.row, self.place);
        load_version(shared, pass, version)
    }

    /// Loads the value of the cell at hand. The answer is what the event was told. Takes no memory.
    #[inline(always)]
    pub fn load_value(self, shared: &Shared, pass: &mut Pass) -> u64
        requires { (l : Local) × Follows shared.now pass.old (with_cursor (Activity.Read Read.Value) self l) }
        ensures { (l : Local) → Follows shared.now pass.old (with_cursor (Activity.Read Read.Value) self l) →
            ReadsWord shared.now pass.old (with_cursor (Activity.Read Read.Value) self l) result pass.new }
    {
        let value = Name::Value(self.row, self.place);
        load_value(shared, pass, value)
    }

    /// Loads the key of this cell, one of those with which the row was built, for a put that is to
    /// begin its walk behind it. The answer is what the event was told. Takes no memory.
    #[inline(always)]
    pub fn load_guessed_insert_key(self, shared: &Shared, pass: &mut Pass, cell: u32) -> u64
        requires cell { cell < shared.now.opening.rows }
        requires follows { (l : Local) × Follows shared.now pass.old (with_cursor (Activity.Insert Insert.Start) self l) × (cell < l.built) }
        ensures { Makes shared.now pass.old (Choice.Guess cell) result pass.new }
    {
        let key = Name::Key(self.row, cell);
        load_key(shared, pass, Choice::Guess(cell), key)
    }

    /// Loads the link at which a put stands. The answer is what the event was told. Takes no
    /// memory.
    #[inline(always)]
    pub fn load_insert_link(self, shared: &Shared, pass: &mut Pass) -> u64
        requires { (a : Activity) × (l : Local) × IsAtInsertLink a × Follows shared.now pass.old (with_cursor a self l) }
        ensures { Makes shared.now pass.old Choice.Go result pass.new }
    {
        let link = link_name(self.row, self.link);
        load_after(shared, pass, link)
    }

    /// Loads the key of the cell that a put has at hand. The answer is what the event was told.
    /// Takes no memory.
    #[inline(always)]
    pub fn load_insert_key(self, shared: &Shared, pass: &mut Pass) -> u64
        requires { (l : Local) × Follows shared.now pass.old (with_cursor (Activity.Insert Insert.Key) self l) }
        ensures { Makes shared.now pass.old Choice.Go result pass.new }
    {
        let key = Name::Key(self.row, self.place);
        load_key(shared, pass, Choice::Go, key)
    }
}
