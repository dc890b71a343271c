//! What follows a call over the table that threads share: one event of it at a time.
//!
//! Code follows a seat with a `Local`, which is what the seat knows but for the number of its calls
//! and the pairs of a scan. The functions here make one event of a pass each, and bring the local
//! up to it by the core's `operation` and `resume`: `begin` a call's first one, `go` those in the
//! middle of it, `clear` the one at the end of a scan, and `end` the last one. `go_along` makes
//! those on the way to a row and at its entries, `go_guess` the first one of a way that begins at a
//! guessed row, `go_draw` those by which a scan gets its version, `go_put` those of a put at its
//! row, `Cursor` those of a reader along the list of its row and of a put that goes by cells there,
//! `go_remembered` those at the cells that a reader remembers and did not reach there, `go_build`,
//! `go_build_guess` and `go_finish` those that most rebalances have, and `go_anew` those by which a
//! call enters anew: each by its own step of the table. A rebalance asks the seats by `go_ask`,
//! gathers the row at hand by `reach_next` and `gather_cell`, asks rows by a `Search`, and writes a
//! new row by `write_row`, many events at once. A get that sees nothing on its way leaves its local
//! at rest and goes by a `Way`, which `end_resting` ends.
//!
//! `specs/Following.antt` says what it is to follow a pass and what it is that a pass went on,
//! `specs/Calling.antt` how the calls of a pass go on, and `specs/OwnEvents.antt` which events it
//! made. The crates that put stages of a call together from single events stand beside each other
//! on this one, and know the table by these contracts alone. Nothing here takes memory.
#![tactic(auto)]

mod along;
mod asking;
mod building;
mod cursor;
mod drawing;
mod engaging;
mod gathering;
mod going;
mod putting;
mod reading;
mod replacing;
mod row_gathering;
mod row_writing;
mod seeking;
mod way;

pub use along::{
    go_along, go_guess, go_guessed_least, load_entry, load_row_least, load_row_link, see_entry,
    see_row_least, see_row_link,
};
pub use asking::{asks_seat, go_ask};
pub use building::{go_build, go_build_guess};
pub use cursor::Cursor;
pub use drawing::go_draw;
pub use going::{begin, clear, end, go};
pub use putting::{go_put, see_insert_key, see_insert_link};
pub use reading::{go_remembered, go_to_left_over};
pub use replacing::{go_anew, go_finish};
pub use row_gathering::{Hand, gather_cell, reach_next};
pub use row_writing::write_row;
pub use seeking::{Search, is_in_use};
pub use way::{Way, end_resting};
