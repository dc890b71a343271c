//! The shared words of the map: where each of them lies, and what is written in it.
//!
//! The map keeps all that its threads share in one table of 64-bit words. `layout` gives each word
//! its place, `pend`, `state`, `link`, `count` and `scan` say how the words with a structure are
//! packed into a number and read back, `plain` does the same for the words that hold one number,
//! `kind` names the kinds of event that act on words, and `sizes` has the sizes and the limits.
//! Nothing here touches the table. Every crate above speaks of words by these names alone, so a
//! change of a place or of an encoding is a change here and nowhere else.
#![tactic(auto)]

pub mod count;
pub mod kind;
pub mod layout;
pub mod link;
pub mod pend;
pub mod plain;
pub mod scan;
pub mod sizes;
pub mod state;
