//! The operations that store what a new row holds, one for each sort of word.
ghost use Rattle.std.specs.Prelude.{◌≡◌, length, slice_get};
ghost use Rattle.kw_cells.specs.Cells.{value_in};
ghost use Rattle.kw_words.specs.Count.{count_word};
ghost use Rattle.kw_words.specs.Link.{link_word};
ghost use Rattle.kw_words.specs.Plain.{cell_link_word, key_word, least_word, value_word, version_word};
ghost use Rattle.kw_world.specs.Sane.{IsLocal};
ghost use Rattle.kw_world.specs.Sizes.{product};
ghost use Rattle.kw_world.specs.WriteTransitions.{infant_cells, infant_count, infant_least, infant_link, first_listed, listed_after, key_in, version_in};

use crate::infant_words::{
    after_word, count_word, first_word, key_word, least_word, next_word, value_word, version_word,
};
use crate::operation::store;
use kw_words::kind::Kind;
use kw_words::layout::Name;
use kw_world::local::Local;
use kw_world::operation::{Action, Operation};

// Its count.
pub(crate) fn write_count(local: &Local, row: u32) -> Operation
    requires { IsLocal product local.now }
    ensures { result ≡ record {
      kind = Kind.StoreInfant;
      name = Name.Count row;
      action =
          Action.Store (count_word (infant_count local.now));
    } }
{
    store(Kind::StoreInfant, Name::Count(row), count_word(local))
}

// Its least key, and how many cells it is built with.
pub(crate) fn write_least(local: &Local, row: u32) -> Operation
    requires { IsLocal product local.now }
    ensures { result ≡ record {
      kind = Kind.StoreInfant;
      name = Name.Least row;
      action = Action.Store
          (least_word (infant_least local.now) (length (infant_cells local.now)));
    } }
{
    store(Kind::StoreInfant, Name::Least(row), least_word(local))
}

// The link after it.
pub(crate) fn write_link(local: &Local, row: u32) -> Operation
    requires { IsLocal product local.now }
    ensures { result ≡ record {
      kind = Kind.StoreInfant;
      name = Name.Next row;
      action = Action.Store
          (link_word (infant_link local.now));
    } }
{
    store(Kind::StoreInfant, Name::Next(row), next_word(local))
}

// The first link of its list.
pub(crate) fn write_first(local: &Local, row: u32) -> Operation
    requires { IsLocal product local.now }
    ensures { result ≡ record {
      kind = Kind.StoreInfant;
      name = Name.First row;
      action =
          Action.Store (cell_link_word (first_listed (infant_cells local.now)));
    } }
{
    store(Kind::StoreInfant, Name::First(row), first_word(local))
}

// The key of a cell of it.
pub(crate) fn write_key(local: &Local, row: u32, cell: u32) -> Operation
    requires { IsLocal product local.now }
    ensures { result ≡ record {
      kind = Kind.StoreInfant;
      name = Name.Key row cell;
      action =
          Action.Store (key_word (key_in (slice_get (infant_cells local.now) cell)));
    } }
{
    let key = key_word(local, cell);
    store(Kind::StoreInfant, Name::Key(row, cell), key)
}

// The value of a cell of it.
pub(crate) fn write_value(local: &Local, row: u32, cell: u32) -> Operation
    requires { IsLocal product local.now }
    ensures { result ≡ record {
      kind = Kind.StoreInfant;
      name = Name.Value row cell;
      action =
          Action.Store (value_word (value_in (slice_get (infant_cells local.now) cell)));
    } }
{
    let value = value_word(local, cell);
    store(Kind::StoreInfant, Name::Value(row, cell), value)
}

// The version of a cell of it, and none where the row has no cell for it.
pub(crate) fn write_version(local: &Local, row: u32, cell: u32) -> Operation
    requires { IsLocal product local.now }
    ensures { result ≡ record {
      kind = Kind.StoreInfant;
      name = Name.Version row cell;
      action =
          Action.Store (version_word (version_in (slice_get (infant_cells local.now) cell)));
    } }
{
    let version = version_word(local, cell);
    store(Kind::StoreInfant, Name::Version(row, cell), version)
}

// The link after a cell of it.
pub(crate) fn write_after(local: &Local, row: u32, cell: u32) -> Operation
    requires { IsLocal product local.now }
    ensures { result ≡ record {
      kind = Kind.StoreInfant;
      name = Name.After row cell;
      action =
          Action.Store (cell_link_word (listed_after (infant_cells local.now) cell));
    } }
{
    let behind = after_word(local, cell);
    store(Kind::StoreInfant, Name::After(row, cell), behind)
}
