//! The tables of `rollup`, made of the answers to what was asked.
//!
//! The scan's pairs are the points above the first table, and each update below it that was not
//! refused changes them, in line order. The scan is never refused: no other call draws a version
//! before it.
ghost use Rattle.std.specs.Prelude.{◌≡◌, ◌+◌, ◌++◌, ◌<◌, ◌≤◌, ◌^◌, length, suc, true, if◌then◌else◌, IfOk, OnOk};
ghost use Rattle.std.specs.List.{count_by};
ghost use Rattle.kw_rollup.specs.Buckets.{buckets};
ghost use Rattle.kw_rollup.specs.Texts.{table_text};
ghost use Rattle.kw_app.specs.Asked.{updates_above};
ghost use Rattle.kw_app.specs.Running.{is_refused};
ghost use Rattle.kw_app.specs.Rolled.{StandsBelow};
ghost use Rattle.kw_app.specs.Tables.{AreWhole, accepted, changed, is_update, tables, updates};

use crate::asked::updates_above;
use kw_line::answer::Answer;
use kw_model::memory::Memory;
use kw_rollup::item::{MINUTES, RollItem};
use kw_rollup::rollup::Rollup;
use std::alloc::Global;

/// The tables among lines that were answered so. Where a line is a table, the scan was answered by
/// the points that the accepted updates above the first one leave.
pub fn tables(
    alloc: Global,
    width: u32,
    items: &[RollItem],
    answers: &[Answer],
) -> Result<Vec<u8>, Memory>
    requires some { 0 < width }
    requires most { width ≤ MINUTES }
    requires whole { updates_above items.now < length items.now → AreWhole items.now answers.now }
    ensures { IfOk result (λ text. text.items ≡ tables width items.now answers.now) }
{
    let first = updates_above(items);
    if first == items.len() {
        // no table, and so no scan
        return Ok(Vec::new(alloc));
    }
    match &answers[first] {
        Answer::Pairs(pairs) => {
            let rolling = Rolling {
                rollup: Rollup::from_pairs(alloc, width, pairs)?,
                refused: refused_in(&answers[..first]),
                next: first + 1,
                text: Vec::new(alloc),
            };
            rolled(rolling, first, items, answers)
        }
        _ => unreachable!(),
    }
}

/// How many of these answers are refusals.
fn refused_in(answers: &[Answer]) -> u64
    ensures count { result ≡ count_by is_refused answers.now }
    ensures within { result ≤ length answers.now }
{
    answers.iter().filter(|answer| is_refused(answer)).count() as u64
}

/// Whether the answer is a refusal.
fn is_refused(answer: &Answer) -> bool
    ensures { result ≡ is_refused answer.now }
{
    matches!(answer, Answer::NoRows | Answer::Spent)
}

/// The tables of all lines, where those above the first one were gone through.
fn rolled(
    rolling: Rolling,
    first: usize,
    items: &[RollItem],
    answers: &[Answer],
) -> Result<Vec<u8>, Memory>
    requires inside { first ≤ length items.now }
    requires many { length answers.now ≡ suc (length (updates items.now)) }
    requires stands { StandsBelow rolling.rollup.width items.now answers.now first rolling }
    ensures { IfOk result (λ text. text.items
        ≡ tables rolling.rollup.width items.now answers.now) }
{
    let mut rolling = rolling;
    for item in &items[first..] {
        rolling.go(*item, answers)?;
    }
    Ok(rolling.text)
}

/// What was printed at the lines so far, and what the lines below go on from.
#[derive(Drop)]
struct Rolling {
    rollup: Rollup,
    refused: u64,
    // the place of the answer to the next update
    next: usize,
    text: Vec<u8>,
}

impl Rolling {
    ghost use Rattle.kw_app.specs.Rolled.{GoesOn};

    /// Goes through a line: prints a table, or makes an update, unless that was refused.
    fn go(&mut self, item: RollItem, answers: &[Answer]) -> Result<(), Memory>
        requires next { is_update item ≡ true → self.old.next < length answers.now }
        requires few { self.old.refused + 1 < 2 ^ 64 }
        ensures goes { OnOk result (GoesOn item answers.now self.old self.new) }
    {
        match item {
            RollItem::Table => self.print(),
            _ => self.update(item, &answers[self.next]),
        }
    }

    /// Prints a table.
    fn print(&mut self) -> Result<(), Memory>
        ensures text { OnOk result (self.new.text.items ≡ self.old.text.items
            ++ table_text (buckets self.old.rollup.width self.old.rollup.pairs) self.old.refused) }
        ensures rollup { self.new.rollup ≡ self.old.rollup }
        ensures refused { self.new.refused ≡ self.old.refused }
        ensures next { self.new.next ≡ self.old.next }
    {
        let table = self.rollup.print(self.refused)?;
        Ok(self.text.extend_from_slice(&table)?)
    }

    /// Makes an update that was answered so, unless that is a refusal.
    fn update(&mut self, item: RollItem, answer: &Answer) -> Result<(), Memory>
        requires next { self.old.next + 1 < 2 ^ 63 }
        requires few { self.old.refused + 1 < 2 ^ 64 }
        ensures pairs { OnOk result (self.new.rollup.pairs
            ≡ accepted self.old.rollup.pairs item answer.now) }
        ensures width { self.new.rollup.width ≡ self.old.rollup.width }
        ensures refused { self.new.refused ≡ self.old.refused
            + (if is_refused answer.now then 1 else 0) }
        ensures next { self.new.next ≡ self.old.next + 1 }
        ensures text { self.new.text.items ≡ self.old.text.items }
    {
        self.next += 1;
        if is_refused(answer) {
            self.refused += 1;
            return Ok(());
        }
        change(&mut self.rollup, item)
    }
}

/// Makes an update.
fn change(rollup: &mut Rollup, item: RollItem) -> Result<(), Memory>
    ensures ok { OnOk result (rollup.new.pairs ≡ changed rollup.old.pairs item) }
    ensures width { rollup.new.width ≡ rollup.old.width }
{
    match item {
        RollItem::Put(key, value) => rollup.put(key, value),
        RollItem::Del(key) => {
            rollup.del(key);
            Ok(())
        }
        RollItem::Table => Ok(()),
    }
}
