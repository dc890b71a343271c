//! The points of the calls of a history, and their order.
//!
//! The order is computed after the fact, from the whole history: no running call knows its point.
ghost use Rattle.std.specs.Prelude.{ℕ, ◌≡◌, ◌<◌, None, IfOk, IfSome, MatchOption, length, map};
ghost use Rattle.kw_core.specs.History.{called};
ghost use Rattle.kw_core.specs.HistoryLaws.{HistoryLaws, IsPut, EndsWith};
ghost use Rattle.kw_order.specs.Order.{HasRank, IsPlaced};
ghost use Rattle.kw_order.specs.Puts.{IsTable};
ghost use Rattle.kw_order.specs.Points.{ArePoints, AreNames, AreRanked, IsRankBehind, drawn_by, rank_at, rank_at_draw};

use crate::puts::PutTable;
use crate::rank::{Rank, RankedCall};
use kw_core::history::{CallLog, Drawn, History};
use kw_model::call::{Call, Reply};
use kw_model::memory::Memory;
use std::alloc::Global;

/// The name of a call: the seat's number-th call, counted from 1.
#[derive(Clone, Copy, Debug, PartialEq, Eq)]
pub struct CallName {
    pub seat: u32,
    pub number: u32,
}

/// A call, and the position at which it takes effect.
#[derive(Clone, Copy, Debug, PartialEq, Eq)]
pub struct Point {
    pub call: CallName,
    pub at: u64,
}

/// The calls that ended, and those whose put or delete was stamped, each with its point, in their
/// order.
pub fn points(alloc: Global, history: &History) -> Result<Vec<Point>, Memory>
    requires { HistoryLaws history.now }
    ensures { IfOk result (λ points. ArePoints history.now points.items) }
{
    let calls = history.calls();
    let mut points = Vec::new(alloc);
    for one in &ranked_calls(alloc, history)? {
        points.push(Point {
            call: name_of(&calls[one.call]),
            at: one.rank.at,
        })?;
    }
    Ok(points)
}

/// The names of these calls, in their order.
pub fn order(alloc: Global, history: &History) -> Result<Vec<CallName>, Memory>
    requires { HistoryLaws history.now }
    ensures { IfOk result (λ names. AreNames history.now names.items) }
{
    names_of(alloc, &points(alloc, history)?)
}

/// The names of the calls that have these points.
fn names_of(alloc: Global, points: &[Point]) -> Result<Vec<CallName>, Memory>
    ensures { IfOk result (λ names. names.items ≡ map (λ point. point.call) points.now) }
{
    Ok(points.iter().map(|point| point.call).collect(alloc)?)
}

/// The name of a call.
fn name_of(call: &CallLog) -> CallName
    ensures { result ≡ record { seat = call.now.seat; number = call.now.number } }
{
    CallName {
        seat: call.seat,
        number: call.number,
    }
}

/// The calls that have a place, with their ranks, in their order.
fn ranked_calls(alloc: Global, history: &History) -> Result<Vec<RankedCall>, Memory>
    requires { HistoryLaws history.now }
    ensures { IfOk result (λ ranked. AreRanked history.now ranked.items) }
{
    let table = PutTable::new(alloc, history)?;
    let mut ranked = Vec::new(alloc);
    for call in 0..history.calls().len() {
        if let Some(rank) = rank_of(history, &table, call) {
            ranked.push(RankedCall { rank, call })?;
        }
    }
    ranked.sort_unstable();
    Ok(ranked)
}

/// The rank of a call, if it has a place: it ended, or its put or delete was stamped.
fn rank_of(history: &History, table: &PutTable, place: usize) -> Option<Rank>
    requires laws { HistoryLaws history.now }
    requires table { IsTable history.now table.now }
    requires within { place < length history.now.calls }
    ensures { MatchOption result (IsPlaced history.now place → ⊥) (HasRank history.now place) }
{
    let call = &history.calls()[place];
    if let Some(put) = call.put {
        return Some(Rank {
            at: table.point(history, put),
            add: history.attempts()[put].add,
            tail: 0,
        });
    }
    match &call.end {
        None => None,
        Some(end) => Some(rank_of_ended(history, table, place, &end.reply)),
    }
}

/// The rank of a call that ended with this reply and has no put.
fn rank_of_ended(history: &History, table: &PutTable, place: usize, reply: &Reply) -> Rank
    requires laws { HistoryLaws history.now }
    requires table { IsTable history.now table.now }
    requires within { place < length history.now.calls }
    requires ended { (at : ℕ) × EndsWith history.now place
        (called history.now place).call at reply.now }
    requires no_put { (called history.now place).put ≡ None }
    ensures { HasRank history.now place result }
{
    let call = &history.calls()[place];
    let is_within = call.first < history.now();
    prove!(is_within);
    match reply {
        Reply::Value(_) => rank_behind(history, table, call.first, call.answer),
        Reply::Absent => match call.call {
            Call::Get(key) => {
                let gap = table.gap(history, key, call.first);
                rank_behind(history, table, call.first, gap)
            }
            _ => rank_at_first(call.first),
        },
        _ => rank_drawn(call.first, draw_of(call, reply)),
    }
}

/// Where a call takes effect that stands at its draw: a scan that gave pairs, and a pin that was
/// accepted.
fn draw_of(call: &CallLog, reply: &Reply) -> Option<Drawn>
    ensures { result ≡ drawn_by call.now.call reply.now call.now.draw }
{
    match (call.call, reply) {
        (Call::Scan(..), Reply::Pairs(_)) | (Call::Pin, Reply::Done) => call.draw,
        _ => None,
    }
}

/// The rank of a call that stands at this draw, if any, and else at its first event.
fn rank_drawn(first: u64, draw: Option<Drawn>) -> Rank
    requires { first < u64.MAX }
    ensures { result ≡ rank_at_draw first draw }
{
    match draw {
        Some(draw) => Rank {
            at: draw.at,
            add: 0,
            tail: first + 1,
        },
        None => rank_at_first(first),
    }
}

/// The rank of a call that stands at its first event.
fn rank_at_first(first: u64) -> Rank
    requires { first < u64.MAX }
    ensures { result ≡ rank_at first }
{
    Rank {
        at: first,
        add: 0,
        tail: first + 1,
    }
}

/// The rank of a get that stands behind this put, if any: at the later of its first event and the
/// put's point.
fn rank_behind(history: &History, table: &PutTable, first: u64, behind: Option<usize>) -> Rank
    requires table { IsTable history.now table.now }
    requires put { IfSome behind (IsPut history.now) }
    requires bound { first < u64.MAX }
    ensures { IsRankBehind history.now first behind result }
{
    match behind {
        Some(put) => {
            let at = table.point(history, put);
            if first < at {
                Rank {
                    at,
                    add: history.attempts()[put].add,
                    tail: first + 1,
                }
            } else {
                rank_at_first(first)
            }
        }
        None => rank_at_first(first),
    }
}
