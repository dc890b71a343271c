//! What binds a port, and gives each seat a listener of its own on it.
//!
//! [`Binder`] is the trait, and [`MemBinder`] has its listeners in memory, for tests.
ghost use Rattle.std.specs.Prelude.{◌≡◌, ◌≢◌, ◌≤◌, ◌<◌, ◌^◌, [], length, All, IfOk, IsErrOf, OnErr, OnOk, is_err, vec_len};
ghost use Rattle.kw_io.specs.Counts.{counted};
ghost use Rattle.kw_model.specs.Counts.{CountRose};
ghost use Rattle.kiwid.specs.Links.{IsNew};
ghost use Rattle.kiwid.specs.MemLinks.{IsUnused};

use crate::links::{Listener, MemListener};
use kw_io::{Sink, Source};
use std::alloc::Global;
use std::marker::Model;
use std::mem;

/// Why no listeners were given.
#[derive(Clone, Copy, Debug, PartialEq, Eq)]
pub enum BindEnd {
    /// The port was not bound, or not for each seat.
    Failed,
    /// Memory was wanted and not found.
    Memory,
}

/// What binds a port.
///
/// A contract sees `faults`, how many tries to bind failed so far: a count that never falls and
/// stands still at 2^64 - 1.
pub trait Binder {
    type Bound: Listener + Send + Drop;

    ghost use Rattle.std.specs.Prelude.{ℕ};

    ghost faults: { Self → ℕ };

    /// Binds the port, and gives so many listeners on it, none of which has counted a fault or has
    /// a link out. `Failed` comes only where a fault was counted.
    fn bind(&mut self, port: u16, seats: u32) -> Result<Vec<Self::Bound>, BindEnd>
        ensures len { IfOk result (λ bound. vec_len bound ≡ seats) }
        ensures new { IfOk result (λ bound.
            All (λ listener. IsNew (Self.Bound.state listener)) bound.items) }
        ensures failed { IsErrOf result BindEnd.Failed →
            CountRose (faults self.old) (faults self.new) }
        ensures never_falls { faults self.old ≤ faults self.new }
        ensures count_fits { faults self.new < 2 ^ 64 };
}

/// Listeners over memory, which are given all at once, where they are as many as are asked for.
///
/// Contracts see the listeners that are left, and the count of faults, which stands still at
/// 2^64 - 1.
#[derive(Drop)]
pub struct MemBinder<I, O> {
    alloc: Global,
    listeners: Vec<MemListener<I, O>>,
    faults: u64,
}

impl<I, O> Model for MemBinder<I, O> {
    ghost use Rattle.std.specs.Prelude.{All};
    ghost use Rattle.kiwid.specs.MemLinks.{IsUnused, MemBound};

    ghost Value = { MemBound I O };

    ghost view = { λ s. record { listeners = s.listeners.items; faults = s.faults } };

    ghost invariant = { λ s. All IsUnused s.listeners.items };
}

impl<I: Drop, O: Drop> MemBinder<I, O> {
    /// A binder with these listeners, none of which has counted a fault or has a link out.
    pub fn new(alloc: Global, listeners: Vec<MemListener<I, O>>) -> MemBinder<I, O>
        requires { All IsUnused listeners.items }
        ensures { result ≡ record { listeners = listeners.items; faults = 0 } }
    {
        MemBinder {
            alloc,
            listeners,
            faults: 0,
        }
    }
}

impl<I: Source + Send + Drop, O: Sink + Send + Drop> Binder for MemBinder<I, O> {
    type Bound = MemListener<I, O>;

    ghost use Rattle.kiwid.specs.MemLinks.{mem_state};

    ghost faults = { λ s. s.faults };

    /// Fails exactly where there are not just as many listeners as are asked for; that is then
    /// counted, and all stay. Otherwise none is left.
    fn bind(&mut self, _port: u16, seats: u32) -> Result<Vec<MemListener<I, O>>, BindEnd>
        ensures len { IfOk result (λ bound. vec_len bound ≡ seats) }
        ensures new { IfOk result (λ bound. All (λ listener.
            IsNew (mem_state I.left I.faults O.written O.faults listener)) bound.items) }
        ensures failed { IsErrOf result BindEnd.Failed →
            CountRose self.old.faults self.new.faults }
        ensures never_falls { self.old.faults ≤ self.new.faults }
        ensures count_fits { self.new.faults < 2 ^ 64 }

        // Which listeners it gives, when it fails, which are left, and what is counted.
        ensures given { IfOk result (λ bound. bound.items ≡ self.old.listeners) }
        ensures other_many { OnErr result (length self.old.listeners ≢ seats) }
        ensures none_left { OnOk result (self.new.listeners ≡ []) }
        ensures kept { OnErr result (self.new.listeners ≡ self.old.listeners) }
        ensures faults { self.new.faults ≡ counted (is_err result) self.old.faults }
    {
        let before = self.faults;
        if self.listeners.len() != seats as usize {
            self.faults = before.saturating_add(1);
            return Err(BindEnd::Failed);
        }
        Ok(mem::replace(&mut self.listeners, Vec::new(self.alloc)))
    }
}
