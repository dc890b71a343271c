//! A source that gives its bytes in pieces of chosen sizes, as a network may.
use kw_io::{Failed, Source};

/// Bytes that are read from the front: at most `first` of them by the first read, and at most
/// `then` by each later one. Contracts know nothing of them.
#[derive(Drop)]
pub(crate) struct Pieces<'b> {
    pub(crate) bytes: &'b [u8],
    pub(crate) first: usize,
    pub(crate) then: usize,
}

impl<'b> Pieces<'b> {
    /// Bytes of which each read gives as many as fit.
    pub(crate) fn whole(bytes: &'b [u8]) -> Pieces<'b> {
        Pieces {
            bytes,
            first: bytes.len(),
            then: bytes.len(),
        }
    }
}

impl<'b> Source for Pieces<'b> {
    ghost use Rattle.std.specs.Prelude.{None};

    ghost left = { λ _. None };

    ghost faults = { λ _. 0 };

    /// Never fails.
    fn read(&mut self, into: &mut [u8]) -> Result<usize, Failed> {
        let count = into.len().min(self.first).min(self.bytes.len());
        into[..count].copy_from_slice(&self.bytes[..count]);
        self.bytes = &self.bytes[count..];
        self.first = self.then;
        Ok(count)
    }
}
