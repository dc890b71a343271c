//! A scan gets its version, and so does a pin, which keeps it.
//!
//! It says that it waits, draws a version from the clock, and settles for it or for one that
//! another seat drew for it. A pin then stores that version for as long as the map stays pinned.

/// A scan or a pin gets its version.
#[derive(Clone, Copy, Debug, PartialEq, Eq)]
pub enum Draw {
    /// Loads the clock for a scan or a pin.
    Clock,
    /// Stores that it waits with that clock.
    Wait,
    /// Draws a version for it.
    Version,
    /// Exchanges the waiting scan for one with a version.
    Settle,
    /// Stores that version as the one at which the seat pins the map.
    Pin,
}
