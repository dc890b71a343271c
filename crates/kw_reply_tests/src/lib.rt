//! Tests of what is replied, by public calls: `replies` tests the map of one thread of `kw_model`,
//! and which replies are legal, and `answers` what `kw_line` prints of replies.
//!
//! What is expected was worked by hand. The tests stand in a crate of their own, since a crate that
//! has tests is proved twice, with them and without.
#![tactic(auto)]

#[cfg(test)]
mod answers;
#[cfg(test)]
mod replies;
