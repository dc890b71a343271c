//! The map asked by connections: lines in, and a reply to each before the next one is asked.
//!
//! - `request` is what a line of a connection may ask, and its reader.
//! - `session` serves one connection: it reads a source in pieces, asks each line of the map with
//!   the connection's pass, and writes the reply. All that is promised of a connection is the
//!   contract of [`session::session`], whatever the cuts of the reads.
//! - `replies` makes the text of each reply and writes it whole.
//! - `links` hands out links, one after the other: a link is the two ends of a connection.
//! - `serving` runs seats beside each other, each of which serves the links of its listener.
//! - `binding` binds a port, which gives each seat a listener, and `tcp` does so over TCP.
//! - `words` reads the words of the command line, and `server` is the top call.
//!
//! A source and a sink are those of `kw_io`, so nothing here but `tcp` knows of a network. The
//! program `kiwid` is `kiwid_program`, which is `main` alone.
//!
//! The tests are in `kiwid_tests` (the server and its seats) and `kiwid_session_tests` (whole
//! sessions), since a crate with tests is proved twice.
#![tactic(auto)]

pub mod binding;
pub mod links;
mod replies;
pub mod request;
pub mod server;
pub mod serving;
pub mod session;
pub mod tcp;
pub mod words;
