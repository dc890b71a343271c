//! Answers to lines: what they are, by the form of the line and the reply to its call, and how they
//! are printed.
ghost use Rattle.std.specs.Prelude.{IsTrue};
ghost use Rattle.kw_line.specs.Answered.{IsReplyOf, is_range};

use kw_line::answer::{Answer, answer_of};
use kw_line::item::Form;
use kw_line::number::push_number;
use kw_line::print::{print, push_answer, push_call, push_pairs};
use kw_line::words::SPACE;
use kw_model::call::{Call, Reply};
use kw_model::memory::Memory;
use kw_model::pair_list::PairList;
use std::alloc::Global;
use std::process::Abort;
use std::test::Fail;

/// The pairs 1=5, 2=3 and 3=9.
fn three_pairs(alloc: Global) -> Result<PairList, Memory> {
    Ok(PairList::from_vec(Vec::from_slice(alloc, &[(1, 5), (2, 3), (3, 9)])?))
}

/// Expects these answers of a range line over the three pairs and over none.
fn expect_of_pairs(
    rt: &impl Abort,
    alloc: Global,
    form: Form,
    of_three: Answer,
    of_none: Answer,
) -> Result<(), Memory>
    requires { IsTrue (is_range form) }
{
    let three = Reply::Pairs(three_pairs(alloc)?);
    let none = Reply::Pairs(PairList::new(alloc));
    assert_eq!(rt; answer_of(alloc, form, &three)?, of_three);
    assert_eq!(rt; answer_of(alloc, form, &none)?, of_none);
    Ok(())
}

#[test]
fn answers_a_range_by_its_form(rt: HostRuntime) -> Result<(), Fail> {
    let alloc = rt.alloc();
    let number = Answer::Number;
    expect_of_pairs(&rt, alloc, Form::Sum, number(17), number(0))?;
    expect_of_pairs(&rt, alloc, Form::Count, number(3), number(0))?;
    expect_of_pairs(&rt, alloc, Form::Least, number(3), Answer::Nothing)?;
    expect_of_pairs(&rt, alloc, Form::Greatest, number(9), Answer::Nothing)?;
    Ok(())
}

#[test]
fn answers_a_list_with_its_pairs(rt: HostRuntime) -> Result<(), Fail> {
    let some = Answer::Pairs(three_pairs(rt.alloc())?);
    let none = Answer::Pairs(PairList::new(rt.alloc()));
    Ok(expect_of_pairs(&rt, rt.alloc(), Form::List, some, none)?)
}

/// Expects this answer of a line of the form whose call had the reply.
fn expect_answer(
    rt: &impl Abort,
    alloc: Global,
    form: Form,
    reply: Reply,
    want: Answer,
) -> Result<(), Memory>
    requires { IsReplyOf form reply }
{
    assert_eq!(rt; answer_of(alloc, form, &reply)?, want, "to {reply:?}");
    Ok(())
}

#[test]
fn answers_one_key_and_refusals(rt: HostRuntime) -> Result<(), Fail> {
    let alloc = rt.alloc();
    expect_answer(&rt, alloc, Form::Put, Reply::Done, Answer::Done)?;
    expect_answer(&rt, alloc, Form::Del, Reply::Done, Answer::Done)?;
    let greatest = Answer::Number(18446744073709551615);
    expect_answer(&rt, alloc, Form::Get, Reply::Value(u64::MAX), greatest)?;
    expect_answer(&rt, alloc, Form::Get, Reply::Absent, Answer::Nothing)?;
    expect_answer(&rt, alloc, Form::Put, Reply::NoRows, Answer::NoRows)?;
    expect_answer(&rt, alloc, Form::List, Reply::Spent, Answer::Spent)?;
    Ok(())
}

/// What is printed of these answers.
fn printed(alloc: Global, answers: &[Answer]) -> Result<Vec<u8>, Memory> {
    print(alloc, answers)
}

#[test]
fn prints_each_answer(rt: HostRuntime) -> Result<(), Fail> {
    let pairs = Vec::from_slice(rt.alloc(), &[(0, 1), (65, 65), (4294967295, 0)])?;
    let answers = [
        Answer::Done,
        Answer::Number(18446744073709551614),
        Answer::Number(0),
        Answer::Nothing,
        Answer::Pairs(PairList::from_vec(pairs)),
        Answer::Pairs(PairList::new(rt.alloc())),
        Answer::NoRows,
        Answer::Spent,
    ];
    let want =
        b"ok\n18446744073709551614\n0\nnone\n0=1 65=65 4294967295=0\nempty\nno rows\nspent\n";
    assert_eq!(rt; printed(rt.alloc(), &answers)?.as_slice(), want.as_slice());
    Ok(())
}

/// A head, pairs and an answer with a space between, a number, and calls, each behind its word.
fn added(
    alloc: Global,
    head: &[u8],
    pairs: &PairList,
    answer: &Answer,
    calls: &[(&[u8], Call)],
) -> Result<Vec<u8>, Memory> {
    let mut out = Vec::from_slice(alloc, head)?;
    push_pairs(&mut out, pairs)?;
    out.push(SPACE)?;
    push_answer(&mut out, answer)?;
    push_number(&mut out, 7)?;
    for (word, call) in calls {
        push_call(&mut out, word, call)?;
    }
    Ok(out)
}

#[test]
fn adds_at_the_end(rt: HostRuntime) -> Result<(), Fail> {
    let mut pairs = PairList::new(rt.alloc());
    pairs.push(5, 10)?;
    let calls = [
        (b" put".as_slice(), Call::Put(5, 20)),
        (b" del".as_slice(), Call::Del(0)),
    ];
    let out = added(
        rt.alloc(),
        b"0.1 scan 0 9: ",
        &pairs,
        &Answer::Nothing,
        &calls,
    )?;
    assert_eq!(rt;
        out.as_slice(),
        b"0.1 scan 0 9: 5=10 none7 put 5 20 del 0".as_slice()
    );
    Ok(())
}
