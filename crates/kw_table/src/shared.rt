//! The words that threads share.
//!
//! The type stands alone here, since its facts may name nothing that names it.
ghost use Rattle.std.specs.Prelude.{◌≡◌};
ghost use Rattle.kw_world.specs.Opening.{IsOpening};
ghost use Rattle.kw_world.specs.Sizes.{product};
ghost use Rattle.kw_table.specs.Slots.{slots};

use crate::pass::View;
use crate::rule::Rules;
use atomic_table::Table;
use kw_world::opening::Opening;
use std::alloc::Global;

/// The words, which are those of the world after one valid list of events. Threads share it by `&`.
#[derive(Drop)]
pub struct Shared {
    pub(crate) table: Table<(), View, Opening, Rules, Global>,
    pub(crate) opening: Opening,
    ghost opens: { IsOpening product opening },
    ghost key_is: { table.shared.key ≡ opening },
    ghost words_are: { table.shared.table_id.words ≡ slots opening.rows },
}
