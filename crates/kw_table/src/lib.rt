//! The words that threads share, changed by one event of the core at a time.
//!
//! A `Shared` is the table of atomic words under one rule: there is one valid list of events, the
//! words are those of the world after it, and what each caller has seen is a beginning of it. A
//! caller steps with a `Pass`, its seat. Of a pass the contracts see its number, the events that it
//! has seen, its own ones among them, what its seat knows after them, and the opening of the run.
//! All of it but the number is for the proofs alone and takes no time and no room.
//!
//! `opening` makes a table and its passes, `kinds` and `rebalance_kinds` have a step for each kind
//! of event that comes often and `steps` the one that takes any, and `meeting` lets passes see what
//! others have seen. `pass` and `shared` hold the two types, `numbers` what a caller may ask of
//! them, and `rule` the rule and what a step tells its caller. `warming` loads rows ahead of walks,
//! for speed alone, and `tidying` says whether a row may well be tidied. Each step is one atomic
//! operation on one word. Whoever stands above needs the contracts of these calls alone, and goes
//! on by the laws over valid lists of events.
#![tactic(auto)]

mod kinds;
mod meeting;
mod numbers;
mod opening;
mod pass;
mod rebalance_kinds;
mod rule;
mod shared;
pub mod slot;
mod steps;
mod tidying;
mod warming;

pub use kinds::{
    add_count, announce, clear_pass, clear_pend, clear_scan, draw, insert, load_after, load_clock,
    load_count, load_epoch, load_head, load_key, load_least, load_link, load_pend, load_state,
    load_value, load_version, settle, stamp, store_after, store_key, store_pass, store_value,
    store_version, store_waiting,
};
pub use meeting::meet;
pub use pass::{Pass, View};
pub use rebalance_kinds::{
    add_epoch, decide, engage, freeze_count, freeze_pend, load_pass, load_scan, mark_link,
    normalise, reclaim, replace, retire, store_infant, take_row,
};
pub use rule::Rules;
pub use shared::Shared;
pub use steps::make;
pub use warming::SMALLEST_COLD;
