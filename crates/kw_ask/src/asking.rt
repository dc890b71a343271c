//! The call of one line.
//!
//! A line is asked by the call that it holds, and answered by its form. A range is gathered as its
//! form wants it, so that all forms but `list` take no memory.
ghost use Rattle.std.specs.Prelude.{◌≡◌, ◌<◌, IfOk, OnErr};
ghost use Rattle.kw_words.specs.declared.sizes.TheConstants.{VALUE_END};
ghost use Rattle.kw_model.specs.declared.call.Reply.TheVariants as reply;
ghost use Rattle.kw_line.specs.declared.answer.Answer.TheVariants as answer;
ghost use Rattle.kw_line.specs.declared.item.Form.TheVariants as form;
ghost use Rattle.kw_line.specs.Line.{FitsCall, IsCallOf};
ghost use Rattle.kw_follow.specs.Calling.{Calls};
ghost use Rattle.kw_follow.specs.Following.{GoesTo};
ghost use Rattle.kw_map.specs.Kiwi.{IsIdle};
ghost use Rattle.kw_ask.specs.Asking.{HasCause, LineAnswered};

use kw_line::answer::{Answer, number_or_nothing};
use kw_line::item::Form;
use kw_map::Pass;
use kw_map::gather_list::ListGather;
use kw_map::gather_numbers::{CountGather, GreatestGather, LeastGather, SumGather};
use kw_map::kiwi::{Kiwi, PutEnd, ScanEnd};
use kw_model::call::Call;
use kw_model::memory::Memory;
use std::alloc::Global;
use std::sync::Wait;

/// Makes this call, as a line of this form asks for it, and gives the line's answer.
///
/// The call is one of the form, and its numbers are in range. The pass is one of this map and idle,
/// as it is afterwards. `NoRows` comes only where the last search of this call asked for each row
/// of the map and took too few, and `Spent` only where a load of this call found the clock or the
/// epoch at `SPENT` or above. The only error is the want of memory, and it comes only at a line
/// that lists pairs; its call was made and has ended, and its reply is that it was stopped.
pub fn ask<R: Wait>(
    rt: &R,
    alloc: Global,
    kiwi: &Kiwi,
    pass: &mut Pass,
    call: Call,
    form: Form,
) -> Result<Answer, Memory>
    requires idle { IsIdle kiwi.now pass.old }
    requires line { IsCallOf form call × FitsCall call }
    ensures idle { IsIdle kiwi.now pass.new }
    ensures goes { GoesTo kiwi.now pass.old pass.new }
    ensures answers { IfOk result (λ answer. LineAnswered pass.old pass.new call form answer) }
    ensures cause { IfOk result (λ answer. HasCause pass.old pass.new call form answer) }
    ensures stopped { OnErr result (Calls pass.old pass.new call reply.Stopped) }
    ensures lists { OnErr result (form ≡ Form.List) }
{
    match call {
        Call::Put(key, value) => Ok(put(rt, kiwi, pass, key, value)),
        Call::Del(key) => Ok(delete(rt, kiwi, pass, key)),
        Call::Get(key) => Ok(get(kiwi, pass, key)),
        Call::Scan(from, upto) => match form {
            Form::Sum => Ok(sum(kiwi, pass, from, upto)),
            Form::Count => Ok(count(kiwi, pass, from, upto)),
            Form::Least => Ok(least(kiwi, pass, from, upto)),
            Form::Greatest => Ok(greatest(kiwi, pass, from, upto)),
            Form::List => list(alloc, kiwi, pass, from, upto),
            _ => unreachable!(),
        },
        Call::Pin | Call::ScanAt(..) | Call::Unpin => unreachable!(),
    }
}

fn put<R: Wait>(rt: &R, kiwi: &Kiwi, pass: &mut Pass, key: u32, value: u64) -> Answer
    requires idle { IsIdle kiwi.now pass.old }
    requires value { value < VALUE_END }
    ensures idle { IsIdle kiwi.now pass.new }
    ensures goes { GoesTo kiwi.now pass.old pass.new }
    ensures answers { LineAnswered pass.old pass.new (Call.Put key value) form.Put result }
{
    match kiwi.put(rt, pass, key, value) {
        Ok(()) => Answer::Done,
        Err(PutEnd::NoRows) => Answer::NoRows,
        Err(PutEnd::Spent) => Answer::Spent,
    }
}

fn delete<R: Wait>(rt: &R, kiwi: &Kiwi, pass: &mut Pass, key: u32) -> Answer
    requires { IsIdle kiwi.now pass.old }
    ensures idle { IsIdle kiwi.now pass.new }
    ensures goes { GoesTo kiwi.now pass.old pass.new }
    ensures answers { LineAnswered pass.old pass.new (Call.Del key) form.Del result }
{
    match kiwi.delete(rt, pass, key) {
        Ok(()) => Answer::Done,
        Err(PutEnd::NoRows) => Answer::NoRows,
        Err(PutEnd::Spent) => Answer::Spent,
    }
}

fn get(kiwi: &Kiwi, pass: &mut Pass, key: u32) -> Answer
    requires { IsIdle kiwi.now pass.old }
    ensures idle { IsIdle kiwi.now pass.new }
    ensures goes { GoesTo kiwi.now pass.old pass.new }
    ensures answers { LineAnswered pass.old pass.new (Call.Get key) form.Get result }
{
    match kiwi.get(pass, key) {
        Some(value) => number(value),
        None => Answer::Nothing,
    }
}

fn sum(kiwi: &Kiwi, pass: &mut Pass, from: u32, upto: u32) -> Answer
    requires { IsIdle kiwi.now pass.old }
    ensures idle { IsIdle kiwi.now pass.new }
    ensures goes { GoesTo kiwi.now pass.old pass.new }
    ensures answers { LineAnswered pass.old pass.new (Call.Scan from upto) form.Sum result }
{
    let mut into = SumGather::new();
    match kiwi.scan(pass, from, upto, &mut into) {
        Ok(()) => Answer::Number(into.total()),
        Err(ScanEnd::Spent) => Answer::Spent,
        Err(ScanEnd::Stopped) => unreachable!(),
    }
}

fn count(kiwi: &Kiwi, pass: &mut Pass, from: u32, upto: u32) -> Answer
    requires { IsIdle kiwi.now pass.old }
    ensures idle { IsIdle kiwi.now pass.new }
    ensures goes { GoesTo kiwi.now pass.old pass.new }
    ensures answers { LineAnswered pass.old pass.new (Call.Scan from upto) form.Count result }
{
    let mut into = CountGather::new();
    match kiwi.scan(pass, from, upto, &mut into) {
        Ok(()) => number(into.total()),
        Err(ScanEnd::Spent) => Answer::Spent,
        Err(ScanEnd::Stopped) => unreachable!(),
    }
}

fn least(kiwi: &Kiwi, pass: &mut Pass, from: u32, upto: u32) -> Answer
    requires { IsIdle kiwi.now pass.old }
    ensures idle { IsIdle kiwi.now pass.new }
    ensures goes { GoesTo kiwi.now pass.old pass.new }
    ensures answers { LineAnswered pass.old pass.new (Call.Scan from upto) form.Least result }
{
    let mut into = LeastGather::new();
    match kiwi.scan(pass, from, upto, &mut into) {
        Ok(()) => number_or_nothing(into.least()),
        Err(ScanEnd::Spent) => Answer::Spent,
        Err(ScanEnd::Stopped) => unreachable!(),
    }
}

fn greatest(kiwi: &Kiwi, pass: &mut Pass, from: u32, upto: u32) -> Answer
    requires { IsIdle kiwi.now pass.old }
    ensures idle { IsIdle kiwi.now pass.new }
    ensures goes { GoesTo kiwi.now pass.old pass.new }
    ensures answers { LineAnswered pass.old pass.new (Call.Scan from upto) form.Greatest result }
{
    let mut into = GreatestGather::new();
    match kiwi.scan(pass, from, upto, &mut into) {
        Ok(()) => number_or_nothing(into.greatest()),
        Err(ScanEnd::Spent) => Answer::Spent,
        Err(ScanEnd::Stopped) => unreachable!(),
    }
}

// the gatherer stops only where it wants memory
fn list(alloc: Global, kiwi: &Kiwi, pass: &mut Pass, from: u32, upto: u32) -> Result<Answer, Memory>
    requires { IsIdle kiwi.now pass.old }
    ensures idle { IsIdle kiwi.now pass.new }
    ensures goes { GoesTo kiwi.now pass.old pass.new }
    ensures answers { IfOk result (λ answer. LineAnswered pass.old pass.new
        (Call.Scan from upto) form.List answer) }
    ensures stopped { OnErr result (Calls pass.old pass.new (Call.Scan from upto) reply.Stopped) }
{
    let mut into = ListGather::new(alloc);
    match kiwi.scan(pass, from, upto, &mut into) {
        Ok(()) => Ok(Answer::Pairs(into.finish())),
        Err(ScanEnd::Spent) => Ok(Answer::Spent),
        Err(ScanEnd::Stopped) => Err(Memory),
    }
}

fn number(value: u64) -> Answer
    ensures { result ≡ answer.Number value }
{
    Answer::Number(u128::from(value))
}
