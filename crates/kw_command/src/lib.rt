//! The command line of the program `kiwi`: which lists of words are commands, and which command
//! each means.
//!
//! `word` has one word, seen as its bytes; `words` reads with `clap` what stands after a command's
//! own word; `command` reads that word, picks what its command takes of the rest, and has
//! [`command::command_of`], on whose contract all stands that the program says of its words. Which
//! lists are commands is said by `specs/Words.antt` in words of its own, apart from `clap`. The
//! crate knows nothing of maps: only `kw_app` relies on it, and a new command or option is made
//! here first.
#![tactic(auto)]

pub mod command;
pub mod word;
pub mod words;
