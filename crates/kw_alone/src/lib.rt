//! A seat that makes all further events by itself ends its call, whatever the others know and left
//! half done: within so many events it has a mark, by which it ends the call, has replaced a row,
//! or goes on to the row before; and only so many marks come before the end.
//!
//! Nothing runs here. Each of the two bounds has a measure in `specs`:
//!
//! - `Rest` has the one up to a mark: how many events a seat has left at most, by its activity,
//!   over the words and what it knows, with the prices of `Prices`. Each event lowers it, but for
//!   marks and the beginning of a walk (`Falls`). What that needs to know of a seat stands in
//!   `Facts`.
//! - `Wins` has the one up to the end of the call: how many rows the seat may yet replace, to how
//!   many it may yet move before that, and its rest. Of these three, in this order, each event
//!   lowers the first that it changes, once the seat has come to the beginning of a walk or to a
//!   mark. What is so from there on is `Steady`, with `Fair`, `Clean` and `Known`: the rows that
//!   the seat names are in the list.
//!
//! `laws` has the statements: `rest_laws` of the first measure, `alone_laws` and `mark_laws` of the
//! events up to a mark, and `last_laws` of those up to the end of the call.
#![tactic(auto)]

pub mod laws;
