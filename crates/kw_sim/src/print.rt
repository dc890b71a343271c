//! What is printed of a script.
//!
//! Calls, replies and the names of calls are printed by `kw_judge`, as records have them. Each
//! function here adds a line at the end of a `Vec` that grows; on an `Err` it may have left a part
//! of its text.
ghost use Rattle.std.specs.Prelude.{◌≡◌, ◌++◌, map, IfOk, OnOk};
ghost use Rattle.kw_sim.specs.Printed.{ended_line, done_text, missed_line, judged};

use kw_judge::print::{COLON, push_call, push_name, push_reply};
use kw_judge::record::Name;
use kw_line::words::{LINE_FEED, SPACE};
use kw_model::call::{Call, Reply};
use kw_model::memory::Memory;
use kw_order::points::CallName;
use kw_world::event::StepDone;
use std::alloc::Global;

/// Adds the line of a call that has ended.
fn push_ended(
    out: &mut Vec<u8>,
    seat: u32,
    number: u32,
    call: &Call,
    reply: &Reply,
) -> Result<(), Memory>
    ensures { OnOk result (out.new.items ≡ out.old.items ++ ended_line seat number call.now
        reply.now) }
{
    push_name(out, Name { seat, number })?;
    out.push(SPACE)?;
    push_call(out, call)?;
    out.extend_from_slice(&[COLON, SPACE])?;
    push_reply(out, reply)?;
    Ok(out.push(LINE_FEED)?)
}

/// Adds the line of a call that has ended with an event, if it has.
pub fn push_done(
    out: &mut Vec<u8>,
    seat: u32,
    number: u32,
    call: &Call,
    done: &StepDone,
) -> Result<(), Memory>
    ensures { OnOk result (out.new.items ≡ out.old.items
        ++ done_text seat number call.now done.now) }
{
    match done {
        StepDone::Ended(reply) => push_ended(out, seat, number, call, reply),
        StepDone::Moved | StepDone::Skipped => Ok(()),
    }
}

/// Adds the line that says that no event of the kind was made.
pub fn push_missed(out: &mut Vec<u8>) -> Result<(), Memory>
    ensures { OnOk result (out.new.items ≡ out.old.items ++ missed_line) }
{
    Ok(out.extend_from_slice(b"missed\n")?)
}

/// The names of calls, as a record has them.
pub fn judged(alloc: Global, names: &[CallName]) -> Result<Vec<Name>, Memory>
    ensures { IfOk result (λ judged_names. judged_names.items ≡ map judged names.now) }
{
    let judged = names.iter().map(|name| Name {
        seat: name.seat,
        number: name.number,
    });
    Ok(judged.collect(alloc)?)
}
