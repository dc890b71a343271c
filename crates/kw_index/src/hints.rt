//! What one caller has for speed.
//!
//! A put, a get and a scan guess at which row to begin, by the caller's own entries; and a
//! rebalance publishes by them what it has replaced. It also searches for free rows, and begins in
//! the caller's own window. All memory is taken where the hints are made. No clause says what hints
//! hold, since no reply depends on it.
use crate::own::OwnEntries;
use crate::window::Window;
use kw_model::memory::Memory;
use std::alloc::Global;

/// What a caller guesses with and publishes an index with, and where it searches for free rows.
#[derive(Drop)]
pub struct Hints {
    /// The entries from which the caller guesses, and those that a rebalance of its own publishes.
    pub own: OwnEntries,
    /// Where the caller searches for free rows first.
    pub window: Window,
}

impl Hints {
    /// Hints of a map of this many rows, by which the caller searches from this row on. The only
    /// error is the want of memory.
    pub fn new(alloc: Global, rows: u32, first: u32) -> Result<Hints, Memory> {
        Ok(Hints {
            own: OwnEntries::new(alloc, rows)?,
            window: Window::new(rows, first),
        })
    }
}
