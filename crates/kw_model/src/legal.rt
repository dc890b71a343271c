//! Which replies are those of the map.
//!
//! A list of calls, each of a seat, and a list of their replies are legal where a map that was
//! empty gives each reply in turn, or the reply is a refusal that the call may have, which leaves
//! all as it was. `is_legal` decides it by asking the map; whoever records calls and replies can be
//! judged by it.
ghost use Rattle.std.specs.Prelude.{◌≡◌, ◌↔◌, IsTrue, IfOk, OnOk, length};
ghost use Rattle.kw_model.specs.Legal.{may_refuse};
ghost use Rattle.kw_model.specs.LegalFor.{IsLegalFor, IsRightFor, state_went};
ghost use Rattle.kw_model.specs.Snapshots.{empty};

use crate::call::{Call, Reply};
use crate::map_state::MapState;
use crate::memory::Memory;
use std::alloc::Global;

/// Whether these replies to these calls are legal, beginning with the empty map.
///
/// The three lists have one length, and the seat and the reply in a place are those of the call
/// there. A map is kept while the calls are gone through, so any lists may want for memory.
pub fn is_legal(
    alloc: Global,
    seats: &[u32],
    calls: &[Call],
    replies: &[Reply],
) -> Result<bool, Memory>
    requires seats { length seats.now ≡ length calls.now }
    requires replies { length replies.now ≡ length calls.now }
    ensures { IfOk result (λ legal. IsTrue legal ↔ IsLegalFor empty seats.now calls.now
        replies.now) }
{
    let mut map = MapState::new(alloc);
    for (seat, (call, reply)) in seats.iter().zip(calls.iter().zip(replies)) {
        if !is_right(&mut map, *seat, call, reply)? {
            return Ok(false);
        }
    }
    Ok(true)
}

/// Whether the map gives the seat this reply to the call, or the call may be refused by it.
///
/// The map is asked unless the call was refused, and is then the map after the call.
pub fn is_right(map: &mut MapState, seat: u32, call: &Call, reply: &Reply) -> Result<bool, Memory>
    ensures right { IfOk result (λ right. IsTrue right ↔ IsRightFor map.old seat call.now
        reply.now) }
    ensures went { OnOk result (map.new ≡ state_went map.old seat call.now reply.now) }
{
    if may_refuse(call, reply) {
        return Ok(true);
    }
    Ok(map.apply(seat, call)? == *reply)
}

/// Whether the reply is a refusal that this call may have.
fn may_refuse(call: &Call, reply: &Reply) -> bool
    ensures { result ≡ may_refuse call.now reply.now }
{
    match (call, reply) {
        (Call::Put(..) | Call::Del(_), Reply::NoRows | Reply::Spent) => true,
        (Call::Scan(..), Reply::Spent | Reply::Stopped) => true,
        (Call::Pin, Reply::Spent) | (Call::ScanAt(..), Reply::Stopped) => true,
        _ => false,
    }
}
