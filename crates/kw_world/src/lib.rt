//! What one event of the map reads and writes, and which event is which.
//!
//! A world is all that there is at one moment: the words that the seats share, and what each seat
//! knows for itself. An event is one operation of one seat on one word. Which operation it is
//! depends on what the seat knows and on its choice alone, and what the seat knows afterwards
//! depends on what the operation told it. The table of events, in `specs/Table.antt`, says both for
//! each activity of a seat, and `specs/Step.antt` makes one event of a world from it: every crate
//! above, the steps of the core, the laws over all lists of events and the running map, speaks of
//! that one definition.
//!
//! `world` has the worlds, `local`, `activity` and `answer` what a seat knows and what it is about
//! to do and to answer, `marks` and `gathered` the lists that it keeps without taking memory,
//! `rebalance` and `rebuilt` what it knows of the rebalance that it makes, `group` the rows and
//! places of the group that it replaces, `event` the events, `operation` the operations on a word,
//! `opening` the numbers that a run begins with, `part` the parts of the table, `limits` the
//! numbers that no encoding names, and `laws` what every line of the table keeps to.
#![tactic(auto)]

pub mod activity;
pub mod answer;
pub mod calls;
pub mod event;
pub mod gathered;
pub mod group;
pub mod laws;
pub mod limits;
pub mod local;
pub mod marks;
pub mod opening;
pub mod operation;
pub mod part;
pub mod rebalance;
pub mod rebuilt;
pub mod world;
