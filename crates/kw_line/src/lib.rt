//! Lines in, replies out: the items of an input's lines, and the text of their answers; and the one
//! error of all readers of lines.
#![tactic(auto)]

pub mod answer;
pub mod error;
pub mod item;
pub mod number;
pub mod parse;
pub mod print;
pub mod words;
