//! Where connections come from: a listener hands out links, one after the other, and takes them
//! back.
//!
//! A link is the two ends of one connection. What is known of it stands in one plain record, so
//! that clauses can say of a whole list of links what became of each, whatever the types of their
//! ends: what its input has left and its output has written, where these tell that, and both counts
//! of faults. [`Listener`] is the trait, and [`MemListener`] has its links in memory, for tests.
ghost use Rattle.std.specs.Prelude.{◌≡◌, ◌^◌, ◌<◌, ◌≤◌, ◌+◌, ◌-◌, ◌++◌, ◌∷◌, [], IfOk, OnErr, is_err};
ghost use Rattle.kw_io.specs.Counts.{counted};
ghost use Rattle.kw_model.specs.Counts.{CountRose};
ghost use Rattle.kiwid.specs.Links.{HandsNone, HandsOut, TakesBack, link_state};

use kw_io::{Failed, Sink, Source};
use kw_model::memory::Memory;
use std::alloc::Global;
use std::collections::VecDeque;
use std::marker::Model;

/// One connection: what is read from it, and where the replies go.
#[derive(Drop)]
pub struct Link<I, O> {
    pub input: I,
    pub output: O,
}

/// What hands out links, one after the other, and takes back those that were served.
///
/// A seat serves its links in a thread of its own, so the ends of a link are [`Send`].
///
/// A contract sees its `state`: how many tries to hand one out failed so far, a count that never
/// falls and stands still at 2^64 - 1; how many links are out; and, where the listener tells them,
/// the links that are still to be handed out and those that were taken back, each in order.
pub trait Listener {
    type In: Source + Send + Drop;

    type Out: Sink + Send + Drop;

    ghost use Rattle.kiwid.specs.Links.{ListenerState};

    ghost state: { Self → ListenerState };

    /// Hands out the next link, for which it may wait. `Failed` comes only where a fault was
    /// counted, and leaves all else.
    fn accept(&mut self) -> Result<Link<Self::In, Self::Out>, Failed>
        ensures handed { IfOk result (λ link. HandsOut (state self.old) (state self.new)
            (link_state Self.In.left Self.In.faults Self.Out.written Self.Out.faults link)) }
        ensures failed { OnErr result (HandsNone (state self.old) (state self.new)) }
        ensures never_falls { (state self.old).faults ≤ (state self.new).faults }
        ensures count_fits { (state self.new).faults < 2 ^ 64 };

    /// Takes back a link, where one is out.
    fn close(&mut self, link: Link<Self::In, Self::Out>)
        requires { 0 < (state self.old).out }
        ensures { TakesBack (state self.old) (state self.new)
            (link_state Self.In.left Self.In.faults Self.Out.written Self.Out.faults link) };
}

/// Links in memory, which are handed out in their order, and then kept in the order in which they
/// were taken back.
///
/// Contracts see both lists, how many links are out, and the count of faults, which stands still at
/// 2^64 - 1.
#[derive(Drop)]
pub struct MemListener<I, O> {
    coming: VecDeque<Link<I, O>>,
    closed: Vec<Link<I, O>>,
    out: usize,
    faults: u64,
}

impl<I, O> Model for MemListener<I, O> {
    ghost use Rattle.std.specs.Prelude.{◌≤◌, ◌+◌, length, vec_capacity};
    ghost use Rattle.kiwid.specs.MemLinks.{MemLinks};

    ghost Value = { MemLinks I O };

    ghost view = { λ s. record {
      coming = s.coming.items;
      closed = s.closed.items;
      out = s.out;
      faults = s.faults;
    } };

    ghost invariant = { λ s.
        length s.coming.items + s.out + length s.closed.items ≤ vec_capacity s.closed };
}

impl<I: Drop, O: Drop> MemListener<I, O> {
    /// A listener with these links to hand out. The memory for those that are taken back is taken
    /// here.
    pub fn new(alloc: Global, links: Vec<Link<I, O>>) -> Result<MemListener<I, O>, Memory>
        ensures { IfOk result (λ made. made ≡
            record { coming = links.items; closed = []; out = 0; faults = 0 }) }
    {
        let closed = Vec::with_capacity(alloc, links.len())?;
        Ok(MemListener {
            coming: VecDeque::from(links),
            closed,
            out: 0,
            faults: 0,
        })
    }

    /// The links that were taken back so far, in that order.
    pub fn closed(&self) -> &[Link<I, O>]
        ensures { result.now ≡ self.now.closed }
    {
        &self.closed
    }
}

impl<I: Source + Send + Drop, O: Sink + Send + Drop> Listener for MemListener<I, O> {
    type In = I;

    type Out = O;

    ghost use Rattle.kiwid.specs.MemLinks.{mem_state};

    ghost state = { λ s. mem_state I.left I.faults O.written O.faults s };

    /// Fails exactly where no link is left to hand out, and is then counted.
    fn accept(&mut self) -> Result<Link<I, O>, Failed>
        ensures handed { IfOk result (λ link. self.old.coming ≡ link ∷ self.new.coming) }
        ensures out { IfOk result (λ link. self.new.out ≡ self.old.out + 1) }
        ensures failed { OnErr result ((self.old.coming ≡ []) × (self.new.coming ≡ [])
            × (self.new.out ≡ self.old.out)) }
        ensures closed { self.new.closed ≡ self.old.closed }
        ensures rose { OnErr result (CountRose self.old.faults self.new.faults) }
        ensures never_falls { self.old.faults ≤ self.new.faults }
        ensures count_fits { self.new.faults < 2 ^ 64 }
        ensures faults { self.new.faults ≡ counted (is_err result) self.old.faults }
    {
        let Some(link) = self.coming.pop_front() else {
            self.faults = self.faults.saturating_add(1);
            return Err(Failed);
        };
        self.out += 1;
        Ok(link)
    }

    /// Keeps the link behind those that were taken back before.
    fn close(&mut self, link: Link<I, O>)
        requires { 0 < self.old.out }
        ensures { self.new ≡ record {
          coming = self.old.coming;
          closed = self.old.closed ++ link ∷ [];
          out = self.old.out - 1;
          faults = self.old.faults;
        } }
    {
        self.out -= 1;
        self.closed.push(link).unwrap();
    }
}
