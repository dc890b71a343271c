//! What a worker gets of an input, and what is collected, by hand.
ghost use Rattle.std.specs.Prelude.{◌≡◌, ◌<◌, ◌^◌, length, vec_len, IfOk};
ghost use Rattle.kw_work.specs.Dealing.{part};
ghost use Rattle.kw_work.specs.Collecting.{AnswersEach};

use crate::block::Block;
use crate::collect::collect;
use crate::deal::deal;
use crate::line::Line;
use kw_line::answer::Answer;
use kw_line::item::{Form, Item};
use kw_model::call::Call;
use std::alloc::Global;
use std::test::Fail;

// for each line, its own number as its answer
fn answer_lines(alloc: Global, lines: &[Line]) -> Result<Vec<Answer>, Fail>
    ensures { IfOk result (λ answers. length answers.items ≡ length lines.now) }
{
    let mut answers = Vec::new(alloc);
    for line in lines {
        answers.push(Answer::Number(u128::from(line.number)))?;
    }
    Ok(answers)
}

// the lines of one worker of a block
fn part_of(alloc: Global, block: &Block<'_>, worker: u32) -> Result<Vec<Line>, Fail>
    ensures { IfOk result (λ lines. lines.items ≡ part block.now.workers worker block.now.lines) }
{
    let workers = block.workers();
    let mut lines = Vec::new(alloc);
    for at in 0..block.len() {
        let line = block.line(at);
        if line.worker(workers) == worker {
            lines.push(line)?;
        }
    }
    Ok(lines)
}

// the answers of all workers of a block
fn answer_parts(alloc: Global, block: &Block<'_>) -> Result<Vec<Vec<Answer>>, Fail>
    ensures len { IfOk result (λ parts. vec_len parts ≡ block.now.workers) }
    ensures each { IfOk result (λ parts. AnswersEach block.now.workers block.now.lines
        parts.items) }
{
    let mut parts = Vec::new(alloc);
    for worker in 0..block.workers() {
        let lines = part_of(alloc, block, worker)?;
        parts.push(answer_lines(alloc, &lines)?)?;
    }
    Ok(parts)
}

// adds the numbers of each worker's lines, and then those that are collected
fn push_block(alloc: Global, text: &mut String, block: &Block<'_>) -> Result<(), Fail> {
    for worker in 0..block.workers() {
        for line in &part_of(alloc, block, worker)? {
            text.push_str(format!(in alloc; "{} ", line.number)?.as_str())?;
        }
        text.push_str("| ")?;
    }
    let parts = answer_parts(alloc, block)?;
    for answer in &collect(alloc, block, parts)? {
        if let Answer::Number(number) = answer {
            text.push_str(format!(in alloc; "{number} ")?.as_str())?;
        }
    }
    Ok(text.push_str("\n")?)
}

// the numbers of each worker's lines in each block, and then those that are collected
fn dealt_text(alloc: Global, items: &[Item], workers: u32) -> Result<String, Fail>
    requires workers { 0 < workers }
    requires few { length items.now < 2 ^ 32 }
{
    let mut text = String::new(alloc);
    for block in &deal(alloc, items, workers)? {
        push_block(alloc, &mut text, block)?;
    }
    Ok(text)
}

// puts of the keys 100 to 123, then a wait and three range lines
fn puts_and_ranges(alloc: Global) -> Result<Vec<Item>, Fail> {
    let mut items = Vec::new(alloc);
    for key in 100..124u32 {
        items.push(Item::Call(Call::Put(key, u64::from(key - 90)), Form::Put))?;
    }
    items.push(Item::Wait)?;
    items.push(Item::Call(Call::Scan(100, 123), Form::Sum))?;
    items.push(Item::Call(Call::Scan(100, 123), Form::Count))?;
    items.push(Item::Call(Call::Scan(100, 101), Form::List))?;
    Ok(items)
}

#[test]
fn deals_puts_by_key_and_ranges_by_line(rt: HostRuntime) -> Result<(), Fail> {
    let items = puts_and_ranges(rt.alloc())?;
    assert!(rt; items.len() == 28);
    let text = dealt_text(rt.alloc(), &items, 4)?;
    assert_eq!(rt;
        text.as_str(),
        "1 5 9 13 17 21 | 2 6 10 14 18 22 | 3 7 11 15 19 23 | 4 8 12 16 20 24 | 1 2 3 4 5 6 7 8 9 10 11 12 13 14 15 16 17 18 19 20 21 22 23 24 \n28 | | 26 | 27 | 26 27 28 \n"
    );
    Ok(())
}

#[test]
fn collects_lines_that_jump_between_workers(rt: HostRuntime) -> Result<(), Fail> {
    let items = [
        Item::Call(Call::Get(7), Form::Get),
        Item::Call(Call::Del(4), Form::Del),
        Item::Call(Call::Put(4294967295, 0), Form::Put),
        Item::Call(Call::Scan(0, 9), Form::List),
        Item::Call(Call::Scan(9, 0), Form::Least),
    ];
    let text = dealt_text(rt.alloc(), &items, 3)?;
    assert_eq!(rt; text.as_str(), "3 | 1 2 4 | 5 | 1 2 3 4 5 \n");
    let text = dealt_text(rt.alloc(), &items, 1)?;
    assert_eq!(rt; text.as_str(), "1 2 3 4 5 | 1 2 3 4 5 \n");
    Ok(())
}

#[test]
fn waits_make_empty_blocks(rt: HostRuntime) -> Result<(), Fail> {
    let call = Item::Call(Call::Get(0), Form::Get);
    let cases: [(&[Item], &str); 4] = [
        (&[], "| \n"),
        (&[Item::Wait, Item::Wait], "| \n| \n| \n"),
        (&[call, call, Item::Wait], "1 2 | 1 2 \n| \n"),
        (
            &[Item::Wait, call, Item::Wait, call],
            "| \n2 | 2 \n4 | 4 \n",
        ),
    ];
    for (items, want) in cases {
        assert!(rt; items.len() < 5);
        assert_eq!(rt; dealt_text(rt.alloc(), items, 1)?.as_str(), want);
    }
    for block in &deal(rt.alloc(), &[Item::Wait], 1)? {
        assert!(rt; block.is_empty());
    }
    Ok(())
}
