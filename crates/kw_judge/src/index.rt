//! Names, looked up.
//!
//! An [`Index`] finds the place at which a name stands in a list; contracts see that list. It is a
//! tree over one number of each name, so a look-up takes time logarithmic in the number of names.
ghost use Rattle.std.specs.Prelude.{◌≡◌, Some, IfOk, MatchOption, MatchResult, Contains, slice_get};
ghost use Rattle.kw_judge.specs.Record.{IsName, Once};
ghost use Rattle.kw_judge.specs.Index.{key_of, AreNames};
ghost use Rattle.kw_judge.specs.Verdict.{IsFirst, AllHold, IsNew, StoodBefore};

use crate::record::Name;
use kw_model::memory::Memory;
use std::alloc::Global;
use std::collections::BTreeMap;
use std::marker::Model;

/// Above the number of every name.
const NUMBER_END: u64 = 4_294_967_296;

/// The places of the names of a list.
#[derive(Drop)]
pub struct Index<'a> {
    names: &'a [Name],
    places: BTreeMap<u64, usize>,
}

impl<'a> Model for Index<'a> {
    ghost use Rattle.std.specs.Prelude.{List};
    ghost use Rattle.kw_judge.specs.declared.record.Name.{Name};
    ghost use Rattle.kw_judge.specs.Index.{IsIndex};

    ghost Value = { List Name };

    ghost view = { λ index. index.names.now };

    ghost invariant = { λ index. IsIndex index.names.now index.places };
}

impl<'a> Index<'a> {
    /// The index of these names, none of which stands twice.
    pub fn new(alloc: Global, names: &'a [Name]) -> Result<Index<'a>, Memory>
        requires once { Once names.now }
        requires fits { AreNames names.now }
        ensures { IfOk result (λ index. index ≡ names.entry.now) }
    {
        let mut places = BTreeMap::new(alloc);
        for (place, name) in names.iter().enumerate() {
            places.insert(key_of(*name), place)?;
        }
        Ok(Index { names, places })
    }

    /// The index of these names, or the first of them that stands again.
    pub fn of_order(alloc: Global, names: &'a [Name]) -> Result<Result<Index<'a>, Name>, Memory>
        requires fits { AreNames names.now }
        ensures { IfOk result (λ answer. MatchResult answer
            (λ index. (index ≡ names.entry.now) × AllHold (IsNew names.entry.now) names.entry.now)
            (IsFirst (IsNew names.entry.now) (StoodBefore names.entry.now) names.entry.now)) }
    {
        let mut places = BTreeMap::new(alloc);
        for (place, name) in names.iter().enumerate() {
            if places.insert(key_of(*name), place)?.is_some() {
                return Ok(Err(*name));
            }
        }
        Ok(Ok(Index { names, places }))
    }

    /// The place of a name, if it is there.
    pub fn place(&self, name: Name) -> Option<usize>
        requires { IsName name }
        ensures { MatchOption result (Contains self.now name → ⊥) (λ place. slice_get self.now place
            ≡ Some name) }
    {
        self.places.get(&key_of(name)).copied()
    }
}

/// A number for each name: no other name has it.
pub fn key_of(name: Name) -> u64
    ensures { result ≡ key_of name }
{
    u64::from(name.seat) * NUMBER_END + u64::from(name.number)
}
