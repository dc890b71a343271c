//! What is handed to gatherers of the cells of a row.
ghost use Rattle.std.specs.Prelude.{◌≡◌, None, All};
ghost use Rattle.kw_words.specs.Plain.{IsValue};

use kw_cells::cell::Cell;
use kw_map::gather::take_pairs;
use kw_map::{CountGather, Gather, ListGather, Stop, SumGather};
use kw_words::sizes::CELLS;
use kw_world::gathered::Gathered;

/// The greatest value that a key may have.
const GREATEST_VALUE: u64 = 9223372036854775807;

/// Gathers one more cell, whose value is below `VALUE_END`.
fn add(row: &mut Gathered<CELLS>, key: u32, version: u64, place: u32, value: Option<u64>)
    requires value { IsValue value }
    requires values { All (λ cell. IsValue cell.value) row.old }
    ensures { All (λ cell. IsValue cell.value) row.new }
{
    row.gather(Cell {
        key,
        version,
        place,
        value,
    });
}

/// A row in which key 5 has two versions, 7 a tombstone over a value, and 9 a late version.
fn row() -> Gathered<CELLS>
    ensures { All (λ cell. IsValue cell.value) result }
{
    let mut row = Gathered::new();
    add(&mut row, 5, 2, 6, Some(52));
    add(&mut row, 7, 1, 1, Some(71));
    add(&mut row, 5, 1, 0, Some(51));
    add(&mut row, 9, 8, 3, Some(98));
    add(&mut row, 7, 3, 5, None);
    add(&mut row, 4294967295, 1, 2, Some(GREATEST_VALUE));
    row
}

#[test]
fn hands_over_what_the_version_shows(rt: HostRuntime) {
    let early = [(5, 52), (7, 71), (4294967295, GREATEST_VALUE)];
    let late = [(5, 52), (9, 98)];
    for (upto, version, wanted) in [
        (4294967295, 2, early.as_slice()),
        (4294967294, 8, late.as_slice()),
    ] {
        let mut list = ListGather::new(rt.alloc());
        let ended = take_pairs(&mut list, &row(), 0, upto, version);
        let pairs = list.finish();
        assert_eq!(rt;
            (ended, pairs.pairs()),
            (Ok(()), wanted),
            "at version {version}"
        );
    }
}

#[test]
fn hands_over_one_range_after_another(rt: HostRuntime) {
    let mut sum = SumGather::new();
    let low = (take_pairs(&mut sum, &row(), 0, 6, 2), sum.total());
    let high = (take_pairs(&mut sum, &row(), 7, 7, 2), sum.total());
    assert_eq!(rt; [low, high], [(Ok(()), 52), (Ok(()), 123)]);
}

#[test]
fn hands_over_nothing_of_an_empty_range(rt: HostRuntime) {
    let mut count = CountGather::new();
    let ended = take_pairs(&mut count, &row(), 9, 5, 8);
    assert_eq!(rt; (ended, count.total()), (Ok(()), 0));
}

/// A gatherer with room for some pairs, of which it keeps the last key alone. It may stand for any
/// list.
#[derive(Drop)]
pub(crate) struct Roomy {
    pub(crate) room: u32,
    pub(crate) last: Option<u32>,
    pub(crate) stops: u64,
}

impl Roomy {
    /// One that has taken no pair.
    pub(crate) fn new(room: u32) -> Roomy
        ensures { result ≡ record { room = room; last = None; stops = 0 } }
    {
        Roomy {
            room,
            last: None,
            stops: 0,
        }
    }
}

impl Gather for Roomy {
    ghost last = { λ s. s.last };

    ghost stands = { λ s list. Unit {0} };

    ghost stops = { λ s. s.stops };

    fn take(&mut self, key: u32, _value: u64) -> Result<(), Stop> {
        let stops = self.stops;
        if self.room == 0 {
            self.stops = stops.saturating_add(1);
            return Err(Stop);
        }
        self.room -= 1;
        self.last = Some(key);
        Ok(())
    }
}

#[test]
fn stops_where_the_gatherer_stops(rt: HostRuntime) {
    let mut roomy = Roomy::new(2);
    let ended = take_pairs(&mut roomy, &row(), 0, 4294967295, 2);
    assert_eq!(rt;
        (ended, roomy.room, roomy.last, roomy.stops),
        (Err(Stop), 0, Some(7), 1)
    );
    roomy.room = 1;
    assert_eq!(rt; roomy.take(8, 0), Ok(()));
}
