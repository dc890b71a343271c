//! Cells of a row with their versions, which of them a rebuild of rows keeps, and a plain list of
//! versions.
//!
//! `cell` has the cell, the choice of the best cell of a key at a version, and the pairs that a
//! row's cells show at a version; `in_order` has the same of cells that stand in the order of a
//! row's list, each in one pass. The concurrent map reads its rows by these. `keep` chooses the
//! cells that go into new rows, `pack` says where those start, and `limits` how much both take and
//! give; `short_list` is a list that lies in place, of what a seat keeps. `plain` is a map of one
//! thread that keeps every entry it was given, and `plain_pairs` what its scans answer. What is
//! chosen stands in `specs/Cells.antt`, `specs/Kept.antt`, `specs/Cuts.antt` and
//! `specs/Plain.antt`, over the lists of pairs of `specs/Pairs.antt`.
#![tactic(auto)]

pub mod cell;
pub mod in_order;
pub mod keep;
pub mod limits;
pub mod pack;
pub mod plain;
pub mod plain_pairs;
pub mod short_list;
