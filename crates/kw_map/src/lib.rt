//! The concurrent map, and what its scans hand their pairs to.
//!
//! `kiwi` has the map and its calls, `pass` what a caller has for these, and `meeting` how passes
//! come to have seen one list; `scanning` has the rows of a scan, one after the other, and
//! `handing` hands on the pairs of a row while it is read, where a next row is known to follow. All
//! are put together from the functions of `kw_live` and `kw_live_rebal`, by their contracts.
//! `gather` has the trait of whatever takes the pairs of a scan, and the walk that hands it the
//! pairs that some cells show; `gather_numbers` has the gatherers that keep one number, and
//! `gather_list` the one that keeps all pairs.
//!
//! Beside its table a map has an index (`kw_index`): each call asks it for a row to begin at, and a
//! rebalance that won tells it of the new rows. It makes walks short, and no reply depends on it.
//!
//! What a call says of the pass that made it stands in `specs/Kiwi.antt`, why a call was refused in
//! `specs/Refusals.antt`, what passes know that met in `specs/Meetings.antt`, what it is to take a
//! list of pairs in `specs/Gather.antt`, and for which lists a gatherer of a number stands in
//! `specs/GatherNumbers.antt`. `get`, `scan` and the meetings take no runtime, so their types say
//! that they return whatever others do; `put` and `delete` take the runtime with `Wait`. Only
//! `open` and the gatherer of all pairs take memory.
//!
//! # For a caller
//!
//! A crate that stands on `kw_map` needs no other of ours (`kw_example` is a whole program):
//!
//! ```text
//! let (kiwi, mut passes) = Kiwi::open(rt.alloc(), 64, 2)?; // 64 rows, two callers
//! // threads share `&kiwi`, and each takes one of the passes
//! kiwi.put(&rt, &mut pass, 1001, 250)?; // or a PutEnd: nothing has changed
//! let value = kiwi.get(&mut pass, 1001); // Some(250)
//! let mut sum = SumGather::new();
//! kiwi.scan(&mut pass, 1000, 1999, &mut sum)?;
//! let total = sum.total(); // of all values of the range, as they stood at one moment
//! ```
//!
//! Each call asks that its pass is one of this map and makes no call (`IsIdle`), and leaves it so;
//! `open` gives such passes. What each clause gives: `calls` or `answers`, that the call is the
//! pass's next one and has the reply that is told; `cause`, what was met where a call is refused;
//! `goes`, that the pass has seen at least what it had; and `ordered`, that all calls which the
//! pass has seen, its own and the others', have one order in which an ordered map of one thread
//! gives all their replies, and which keeps what came before what. Passes that `meet`, as after a
//! join, know of each other all that both have seen.
#![tactic(auto)]

pub mod gather;
pub mod gather_list;
pub mod gather_numbers;
mod handing;
pub mod kiwi;
mod meeting;
pub mod pass;
mod scanning;

pub use crate::gather::{Gather, Stop};
pub use crate::gather_list::ListGather;
pub use crate::gather_numbers::{CountGather, GreatestGather, LeastGather, SumGather};
pub use crate::kiwi::{Kiwi, PutEnd, ScanEnd};
pub use crate::pass::Pass;
