//! What is printed for a reply, by the form of the line that asked for it.
ghost use Rattle.std.specs.Prelude.{◌≡◌, ℕ, IsTrue, IfOk, sum, length};
ghost use Rattle.kw_model.specs.Values.{least, greatest, values};
ghost use Rattle.kw_line.specs.Answered.{IsReplyOf, answer_for, answer_of_pairs, is_range, number_or_nothing};

use crate::item::Form;
use kw_model::call::Reply;
use kw_model::memory::Memory;
use kw_model::pair_list::PairList;
use std::alloc::Global;

/// What a line prints.
#[derive(Debug, Drop, PartialEq, Eq)]
pub enum Answer {
    Done,
    Number(u128),
    /// No value.
    Nothing,
    Pairs(PairList),
    /// The call was refused for want of rows.
    NoRows,
    /// The call was refused since the clock or the epoch is spent.
    Spent,
}

/// The answer to a line of this form whose call had this reply.
pub fn answer_of(alloc: Global, form: Form, reply: &Reply) -> Result<Answer, Memory>
    requires { IsReplyOf form reply.now }
    ensures { IfOk result (λ answer. answer ≡ answer_for form reply.now) }
{
    Ok(match reply {
        Reply::Done => Answer::Done,
        Reply::Value(value) => Answer::Number(u128::from(*value)),
        Reply::Absent => Answer::Nothing,
        Reply::Pairs(pairs) => answer_of_pairs(alloc, form, pairs)?,
        Reply::NoRows => Answer::NoRows,
        Reply::Spent => Answer::Spent,
        Reply::Stopped | Reply::Held | Reply::NotPinned => unreachable!(),
    })
}

/// What a line of this form says of the pairs in its range.
fn answer_of_pairs(alloc: Global, form: Form, pairs: &PairList) -> Result<Answer, Memory>
    requires { IsTrue (is_range form) }
    ensures { IfOk result (λ answer. answer ≡ answer_of_pairs form pairs.now) }
{
    let pairs = pairs.pairs();
    Ok(match form {
        Form::Sum => Answer::Number(sum_of_values(pairs)),
        Form::Count => Answer::Number(pairs.len() as u128),
        Form::Least => number_or_nothing(least_value(pairs)),
        Form::Greatest => number_or_nothing(greatest_value(pairs)),
        _ => Answer::Pairs(PairList::from_vec(Vec::from_slice(alloc, pairs)?)),
    })
}

/// The sum of the values of pairs.
fn sum_of_values(pairs: &[(u32, u64)]) -> u128
    ensures { result ≡ sum (values pairs.now) }
{
    pairs.iter().map(|pair| u128::from(pair.1)).sum()
}

/// The least value of pairs, where there are any.
fn least_value(pairs: &[(u32, u64)]) -> Option<u64>
    ensures { result ≡ least (values pairs.now) }
{
    pairs.iter().map(|pair| pair.1).reduce(u64::min)
}

/// The greatest value of pairs, where there are any.
fn greatest_value(pairs: &[(u32, u64)]) -> Option<u64>
    ensures { result ≡ greatest (values pairs.now) }
{
    pairs.iter().map(|pair| pair.1).reduce(u64::max)
}

/// The answer that is a value, or that there is none.
pub fn number_or_nothing(value: Option<u64>) -> Answer
    ensures { result ≡ number_or_nothing value }
{
    value.map_or(Answer::Nothing, |value| Answer::Number(u128::from(value)))
}
