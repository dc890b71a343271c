//! A trace of one seat, event by event.
//!
//! How several seats bear on each other's order is shown by the scripts in tools/scripts, which
//! need no proof. The helpers have no `ensures`, so that their callers' goals do not carry the laws
//! of `push`, `points` and `order`; and the calls are made and judged in one of them, since each
//! `assert_eq!` that follows makes a test's proof much longer.
ghost use Rattle.std.specs.Prelude.{Some};
ghost use Rattle.kw_world.specs.Sane.{IsCall};

use kw_model::call::{Call, Reply};
use kw_model::memory::Memory;
use kw_order::points::{CallName, Point};
use kw_order::trace::{Trace, order, points};
use kw_world::event::{Choice, Event, StepDone};
use kw_world::limits::MOST_CALLS;
use std::alloc::Global;
use std::test::Fail;

// the event by which the seat begins this call
fn begin(trace: &mut Trace, call: Call) -> Result<StepDone, Fail>
    requires { IsCall (Some call) }
{
    if trace.opening().seats == 0 || trace.world().local(0).number >= MOST_CALLS {
        return Err("no more calls")?;
    }
    let choice = Choice::Begin(call);
    Ok(trace.push(Event { seat: 0, choice })?)
}

// the event by which the seat goes on
fn go(trace: &mut Trace) -> Result<StepDone, Fail> {
    if trace.opening().seats == 0 {
        return Err("no seat")?;
    }
    let choice = Choice::Go;
    Ok(trace.push(Event { seat: 0, choice })?)
}

// the seat begins this call and goes on to its end
fn whole(trace: &mut Trace, call: Call) -> Result<Reply, Fail>
    requires { IsCall (Some call) }
{
    begin(trace, call)?;
    finish(trace)
}

// the seat goes on, at most a hundred times, until its call has ended
fn finish(trace: &mut Trace) -> Result<Reply, Fail> {
    for _event in 0..100 {
        if let StepDone::Ended(reply) = go(trace)? {
            return Ok(reply);
        }
    }
    Err("not ended")?
}

// a trace of one row and one seat: an event that is skipped and not kept, a put, and a get that
// finds it
fn put_and_got(alloc: Global) -> Result<Trace, Fail> {
    let mut trace = Trace::open(alloc, 1, 1, 1, 1)?;
    if go(&mut trace)? != StepDone::Skipped {
        return Err("not skipped")?;
    }
    if trace.events().len() > 0 {
        return Err("a skipped event was kept")?;
    }
    if whole(&mut trace, Call::Put(5, 10))? != Reply::Done {
        return Err("not put")?;
    }
    if whole(&mut trace, Call::Get(5))? != Reply::Value(10) {
        return Err("not found")?;
    }
    Ok(trace)
}

// the names, without the laws that `order` says of them
fn names(alloc: Global, trace: &Trace) -> Result<Vec<CallName>, Memory> {
    order(alloc, trace)
}

// the points, without the laws that `points` says of them
fn places(alloc: Global, trace: &Trace) -> Result<Vec<Point>, Memory> {
    points(alloc, trace)
}

// A put alone loads the clock in its tenth event and ends in its 17th. The get behind it stands at
// its own first event.
#[test]
fn a_put_has_its_point_where_it_loads_the_clock(rt: HostRuntime) -> Result<(), Fail> {
    let trace = put_and_got(rt.alloc())?;
    let put = CallName { seat: 0, number: 1 };
    let get = CallName { seat: 0, number: 2 };
    let want = [put, get];
    assert_eq!(rt; names(rt.alloc(), &trace)?.as_slice(), want.as_slice());
    let want = [Point { call: put, at: 9 }, Point { call: get, at: 17 }];
    assert_eq!(rt; places(rt.alloc(), &trace)?.as_slice(), want.as_slice());
    Ok(())
}
