//! The stamped puts and deletes of a history, key by key in their order, and their points.
//!
//! A table is made once for a history, and then answers where a put has its point and where a get
//! that found nothing stands. Points never fall along the puts of a key: so a binary search finds
//! the last put that a get has reached.
ghost use Rattle.std.specs.Prelude.{ℕ, ◌≡◌, ◌+◌, ◌<◌, ◌≤◌, ◌⊎◌, Option, IfOk, length, get_or};
ghost use Rattle.kw_core.specs.HistoryLaws.{HistoryLaws, IsPut};
ghost use Rattle.kw_order.specs.Order.{IsPoint, Serves};
ghost use Rattle.kw_order.specs.Puts.{AreAllPuts, AreAllDeletes, HavePoints, HavePointsFrom, CanSplit, IsSplit, IsTable, HasGap, put_at};

use kw_core::history::History;
use kw_model::memory::Memory;
use std::alloc::Global;

/// A stamped put or delete. They are compared by key, and then as the puts of a key stand.
#[derive(Clone, Copy, Debug, PartialEq, Eq, PartialOrd, Ord)]
pub struct StampedPut {
    key: u32,
    version: u64,
    add: u64,
    place: usize,
}

/// The stamped puts and deletes in their order, and of these the deletes alone, with the point of
/// each by its place.
#[derive(Debug, Drop)]
pub struct PutTable {
    puts: Vec<StampedPut>,
    deletes: Vec<StampedPut>,
    points: Vec<u64>,
}

impl PutTable {
    /// The table of a history.
    pub fn new(alloc: Global, history: &History) -> Result<PutTable, Memory>
        requires { HistoryLaws history.now }
        ensures { IfOk result (IsTable history.now) }
    {
        let puts = sorted_puts(alloc, history)?;
        let deletes = deletes_of(alloc, history, &puts)?;
        let points = put_points(alloc, history, &puts)?;
        Ok(PutTable {
            puts,
            deletes,
            points,
        })
    }

    /// The point of a stamped put or delete.
    pub fn point(&self, history: &History, place: usize) -> u64
        requires table { IsTable history.now self.now }
        requires put { IsPut history.now place }
        ensures { IsPoint history.now place result }
    {
        self.points[place]
    }

    /// Where a get stands that began at `first` and found nothing of this key: behind the put of
    /// this place, whose point is after its first event. Where there is none, the get stands at its
    /// first event.
    pub fn gap(&self, history: &History, key: u32, first: u64) -> Option<usize>
        requires laws { HistoryLaws history.now }
        requires table { IsTable history.now self.now }
        requires serving { (o : Option ℕ) × Serves history.now key first o }
        ensures { HasGap history.now key first result }
    {
        let until = count_until(&self.puts, &self.points, key, first);
        if until == 0 {
            return None;
        }
        let last = self.puts[until - 1];
        if last.key != key || history.attempts()[last.place].value.is_none() {
            return None;
        }
        let later = count_until(&self.deletes, &self.points, key, first);
        match self.deletes.get(later) {
            Some(delete) => Some(delete.place),
            None => None,
        }
    }
}

/// The stamped puts and deletes in their order.
fn sorted_puts(alloc: Global, history: &History) -> Result<Vec<StampedPut>, Memory>
    requires { HistoryLaws history.now }
    ensures { IfOk result (λ puts. AreAllPuts history.now puts.items) }
{
    let mut puts = Vec::new(alloc);
    for (place, attempt) in history.attempts().iter().enumerate() {
        if attempt.is_stamped {
            puts.push(StampedPut {
                key: attempt.key,
                version: attempt.version,
                add: attempt.add,
                place,
            })?;
        }
    }
    puts.sort_unstable();
    Ok(puts)
}

/// The deletes among all puts, in the same order.
fn deletes_of(
    alloc: Global,
    history: &History,
    puts: &[StampedPut],
) -> Result<Vec<StampedPut>, Memory>
    requires { AreAllPuts history.now puts.now }
    ensures { IfOk result (λ deletes. AreAllDeletes history.now deletes.items) }
{
    let attempts = history.attempts();
    let mut deletes = Vec::new(alloc);
    for put in puts {
        if attempts[put.place].value.is_none() {
            deletes.push(*put)?;
        }
    }
    Ok(deletes)
}

/// The point of each put, by the put's place.
fn put_points(alloc: Global, history: &History, puts: &[StampedPut]) -> Result<Vec<u64>, Memory>
    requires laws { HistoryLaws history.now }
    requires puts { AreAllPuts history.now puts.now }
    ensures { IfOk result (λ points. HavePoints history.now points.items) }
{
    let mut points = vec![in alloc; 0u64; history.attempts().len()]?;
    for i in (0..puts.len()).rev() {
        let place = puts[i].place;
        points[place] = point_at(history, puts, &points, i);
    }
    Ok(points)
}

/// The point of the put at this place of the list, where those of all later ones are known: the
/// least clock load from it on, over the puts of its key and version.
fn point_at(history: &History, puts: &[StampedPut], points: &[u64], i: usize) -> u64
    requires laws { HistoryLaws history.now }
    requires puts { AreAllPuts history.now puts.now }
    requires later { HavePointsFrom history.now puts.now points.now (i + 1) }
    requires within { i < length puts.now }
    ensures { IsPoint history.now (put_at puts.now i).place result }
{
    let put = puts[i];
    let load = history.attempts()[put.place].load;
    if i + 1 == puts.len() {
        return load;
    }
    let next = puts[i + 1];
    if next.key == put.key && next.version == put.version {
        load.min(points[next.place])
    } else {
        load
    }
}

/// How many of the puts, from the first on, are of a lesser key, or of this key with a point that
/// is not after `at`.
fn count_until(puts: &[StampedPut], points: &[u64], key: u32, at: u64) -> usize
    requires { CanSplit puts.now points.now key at }
    ensures { IsSplit puts.now points.now key at result }
{
    let mut low = 0;
    let mut high = puts.len();
    while low < high {
        let middle = low + (high - low) / 2;
        let put = puts[middle];
        if put.key < key || put.key == key && points[put.place] <= at {
            low = middle + 1;
        } else {
            high = middle;
        }
    }
    low
}
