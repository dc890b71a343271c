//! The steps of the table, by what they do to the word.
//!
//! There is one function for each action, and each makes one atomic operation; `make` takes any
//! operation. The event's choice is in the proof alone, and comes to the table's step by a type
//! parameter, `Choosing`. Each also counts the links of rows that the pass loads.
ghost use Rattle.std.specs.Prelude.{◌≡◌, ℕ, ◌+◌, ◌-◌, ◌^◌, ◌<◌, min};
ghost use Rattle.kw_words.specs.Layout.{IsWithin};
ghost use Rattle.kw_words.specs.declared.sizes.TheConstants.{SEATS, CELLS};
ghost use Rattle.kw_table.specs.Passes.{Asks, Makes};
ghost use Rattle.kw_table.specs.Slots.{slot, slots};
ghost use Rattle.kw_table.specs.Walks.{walks_by};

use crate::pass::Pass;
use crate::rule::{Choosing, Stepping};
use crate::shared::Shared;
use crate::slot;
use kw_words::kind::Kind;
use kw_words::layout::Name;
use kw_world::event::Choice;
use kw_world::operation::{Action, Operation};
use std::marker::Brand;

// How many links of rows a pass has loaded after an operation of this kind, where it had loaded so
// many before.
#[inline(always)]
fn walked_after(walked: u64, kind: Kind) -> u64
    ensures { result ≡ min (2 ^ 64 - 1) (walked + walks_by kind) }
{
    match kind {
        Kind::LoadLink => walked.saturating_add(1),
        _ => walked,
    }
}

impl Shared {
    // Where the word lies.
    #[inline(always)]
    pub(crate) fn slot(&self, word: Name) -> usize
        requires { IsWithin SEATS CELLS self.now.opening.rows word }
        ensures slot { result ≡ slot self.now.opening.rows word }
        ensures below { result < slots self.now.opening.rows }
    {
        slot::slot(self.opening.rows, word)
    }

    // `load`, where the proof has the choice from `C`.
    #[inline(always)]
    fn load_as<C: Choosing>(&self, pass: &mut Pass, choice: Choice, operation: Operation) -> u64
        requires choice { C.choice ≡ choice }
        requires action { operation.action ≡ Action.Load }
        requires asked { Asks self.now pass.old choice operation }
        ensures { Makes self.now pass.old choice result pass.new }
    {
        let told = self
            .table
            .shared
            .load::<Stepping<C>>(&mut pass.seat, self.slot(operation.name));
        pass.walked = walked_after(pass.walked, operation.kind);
        told
    }

    /// Loads the word.
    #[inline(always)]
    pub(crate) fn load(&self, pass: &mut Pass, choice: Choice, operation: Operation) -> u64
        requires action { operation.action ≡ Action.Load }
        requires asked { Asks self.now pass.old choice operation }
        ensures { Makes self.now pass.old choice result pass.new }
    {
        self.load_as::<Brand>(pass, choice, operation)
    }

    // `store`, where the proof has the choice from `C`.
    #[inline(always)]
    fn store_as<C: Choosing>(
        &self,
        pass: &mut Pass,
        choice: Choice,
        operation: Operation,
        stored: u64,
    ) -> u64
        requires choice { C.choice ≡ choice }
        requires action { operation.action ≡ Action.Store stored }
        requires asked { Asks self.now pass.old choice operation }
        ensures { Makes self.now pass.old choice result pass.new }
    {
        self.table
            .shared
            .store::<Stepping<C>>(&mut pass.seat, self.slot(operation.name), stored);
        pass.walked = walked_after(pass.walked, operation.kind);
        0
    }

    /// Stores a word.
    #[inline(always)]
    pub(crate) fn store(
        &self,
        pass: &mut Pass,
        choice: Choice,
        operation: Operation,
        stored: u64,
    ) -> u64
        requires action { operation.action ≡ Action.Store stored }
        requires asked { Asks self.now pass.old choice operation }
        ensures { Makes self.now pass.old choice result pass.new }
    {
        self.store_as::<Brand>(pass, choice, operation, stored)
    }

    // `add`, where the proof has the choice from `C`.
    #[inline(always)]
    fn add_as<C: Choosing>(
        &self,
        pass: &mut Pass,
        choice: Choice,
        operation: Operation,
        number: u64,
    ) -> u64
        requires choice { C.choice ≡ choice }
        requires action { operation.action ≡ Action.Add number }
        requires asked { Asks self.now pass.old choice operation }
        ensures { Makes self.now pass.old choice result pass.new }
    {
        let told = self
            .table
            .shared
            .fetch_add::<Stepping<C>>(&mut pass.seat, self.slot(operation.name), number);
        pass.walked = walked_after(pass.walked, operation.kind);
        told
    }

    /// Adds a number to the word.
    #[inline(always)]
    pub(crate) fn add(
        &self,
        pass: &mut Pass,
        choice: Choice,
        operation: Operation,
        number: u64,
    ) -> u64
        requires action { operation.action ≡ Action.Add number }
        requires asked { Asks self.now pass.old choice operation }
        ensures { Makes self.now pass.old choice result pass.new }
    {
        self.add_as::<Brand>(pass, choice, operation, number)
    }

    // `unite`, where the proof has the choice from `C`.
    #[inline(always)]
    fn unite_as<C: Choosing>(
        &self,
        pass: &mut Pass,
        choice: Choice,
        operation: Operation,
        bits: u64,
    ) -> u64
        requires choice { C.choice ≡ choice }
        requires action { operation.action ≡ Action.Or bits }
        requires asked { Asks self.now pass.old choice operation }
        ensures { Makes self.now pass.old choice result pass.new }
    {
        let told = self
            .table
            .shared
            .fetch_or::<Stepping<C>>(&mut pass.seat, self.slot(operation.name), bits);
        pass.walked = walked_after(pass.walked, operation.kind);
        told
    }

    /// Sets bits in the word.
    #[inline(always)]
    pub(crate) fn unite(
        &self,
        pass: &mut Pass,
        choice: Choice,
        operation: Operation,
        bits: u64,
    ) -> u64
        requires action { operation.action ≡ Action.Or bits }
        requires asked { Asks self.now pass.old choice operation }
        ensures { Makes self.now pass.old choice result pass.new }
    {
        self.unite_as::<Brand>(pass, choice, operation, bits)
    }

    // `exchange`, where the proof has the choice from `C`.
    #[inline(always)]
    fn exchange_as<C: Choosing>(
        &self,
        pass: &mut Pass,
        choice: Choice,
        operation: Operation,
        expected: u64,
        stored: u64,
    ) -> u64
        requires choice { C.choice ≡ choice }
        requires action { operation.action ≡ Action.Exchange expected stored }
        requires asked { Asks self.now pass.old choice operation }
        ensures { Makes self.now pass.old choice result pass.new }
    {
        let told = self.table.shared.compare_exchange::<Stepping<C>>(
            &mut pass.seat,
            self.slot(operation.name),
            expected,
            stored,
        );
        pass.walked = walked_after(pass.walked, operation.kind);
        told
    }

    /// Exchanges the word for another, where it is the expected one.
    #[inline(always)]
    pub(crate) fn exchange(
        &self,
        pass: &mut Pass,
        choice: Choice,
        operation: Operation,
        expected: u64,
        stored: u64,
    ) -> u64
        requires action { operation.action ≡ Action.Exchange expected stored }
        requires asked { Asks self.now pass.old choice operation }
        ensures { Makes self.now pass.old choice result pass.new }
    {
        self.exchange_as::<Brand>(pass, choice, operation, expected, stored)
    }
}

/// Makes the next event of a pass, whichever it is: this operation, with this choice.
///
/// The operation is the one that the table of events has for what the pass's seat knows and for the
/// choice, as `kw_core`'s `operation` gives it; a guess at a row that the table does not have
/// counts as `Go` there. A call that begins has a value below `VALUE_END`. The answer is what the
/// operation tells the seat: the word that it found, and 0 for a store. Afterwards the pass has
/// seen all events up to and with this one, which is the only new one of its own. Takes no memory,
/// and is never refused.
pub fn make(shared: &Shared, pass: &mut Pass, choice: Choice, operation: Operation) -> u64
    requires { Asks shared.now pass.old choice operation }
    ensures { Makes shared.now pass.old choice result pass.new }
{
    match operation.action {
        Action::Load => shared.load(pass, choice, operation),
        Action::Store(stored) => shared.store(pass, choice, operation, stored),
        Action::Add(number) => shared.add(pass, choice, operation, number),
        Action::Or(bits) => shared.unite(pass, choice, operation, bits),
        Action::Exchange(expected, stored) => {
            shared.exchange(pass, choice, operation, expected, stored)
        }
    }
}
