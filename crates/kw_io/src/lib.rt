//! Streams of bytes: what can be read from, what can be written to, and what reads or writes one
//! whole.
//!
//! [`Source`] and [`Sink`] are the traits. Each says what is known of its bytes, and keeps a count
//! of its faults, so that a caller's contract can say which bytes moved and that a fault was
//! reported only where one happened. [`MemSource`] and [`MemSink`] stand in memory and fail at the
//! calls that they are told, and [`NeverSource`] and [`NeverSink`] never fail, for tests and for
//! what is said of runs without faults; [`StdSource`] and [`StdSink`] are the process's own
//! streams, of whose bytes nothing is known. All of the program's input and output
//! goes through these traits, so code above this crate is generic in its source and its sink.
#![tactic(auto)]

pub mod errors;
mod listed;
pub mod mem_sink;
pub mod mem_source;
pub mod never_sink;
pub mod never_source;
pub mod reading;
pub mod std_streams;
pub mod writing;

pub use errors::{Failed, ReadError, WriteFault};
pub use mem_sink::MemSink;
pub use mem_source::MemSource;
pub use never_sink::NeverSink;
pub use never_source::NeverSource;
pub use reading::{PIECE, Source, read_all};
pub use std_streams::{StdSink, StdSource, read_counted, write_counted};
pub use writing::{Sink, write_all};

#[cfg(test)]
mod tests;
