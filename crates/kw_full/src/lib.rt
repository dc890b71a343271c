//! Which rows are rebalanced: the full ones.
//!
//! Nothing runs here. A rebalance costs new rows, so what updates cost in rows is bounded only
//! because a row is engaged once it has given all its cells, so that updates were stamped in it.
//! `laws` has that of every valid list of events, and that no entry is frozen before its row is,
//! its functions' clauses.
#![tactic(auto)]

pub mod laws;
