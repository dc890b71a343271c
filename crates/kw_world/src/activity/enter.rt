//! Beginning a visit.
//!
//! A call announces the epoch in which it begins, and again where it tries again.

/// Beginning a visit.
#[derive(Clone, Copy, Debug, PartialEq, Eq)]
pub enum Enter {
    /// Announces the epoch.
    Announce,
    /// Loads the epoch, to announce it again.
    LoadEpoch,
}
