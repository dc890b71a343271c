//! Reading and printing by threads beside each other.
//!
//! `kw_line` reads and prints lines; this crate has several threads do it, each for a part of the
//! input or of the answers. `pieces` cuts an input into pieces of whole lines, `together` makes one
//! list of what the readers of pieces give, `joined` of two, and `beside` has the two calls that
//! start threads. Whoever reads or prints much relies on their clauses, which say what `kw_line`
//! says of one thread: that there are several is for speed alone.
#![tactic(auto)]

pub mod beside;
pub mod joined;
pub mod pieces;
pub mod together;
