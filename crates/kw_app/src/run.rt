//! The top call: words and an input in, a text and an outcome out.
//!
//! Everything the program promises is a clause of [`run`]. It is generic in the source and the
//! sink, so the same clauses hold of the process's streams, of whose bytes nothing is known, and of
//! streams in memory, whose bytes the clauses name.
ghost use Rattle.std.specs.Prelude.{◌≡◌, ◌⊎◌};
ghost use Rattle.kw_model.specs.Counts.{CountRose};
ghost use Rattle.kw_command.specs.declared.command.Command.{Command as AnyCommand};
ghost use Rattle.kw_command.specs.declared.command.Command.TheVariants.{Judge};
ghost use Rattle.kw_command.specs.Words.{Means};
ghost use Rattle.kw_app.specs.Completing.{AsksFew, HasDone};
ghost use Rattle.kw_app.specs.Ends.{AsksMap, ReadsInput, WritesPrinted, WritesText};

use crate::outcome::{Outcome, Status};
use crate::perform::perform;
use crate::printed::{Ending, Printed};
use crate::working::Gate;
use kw_command::command::command_of;
use kw_command::word::Word;
use kw_io::{Sink, Source, write_all};
use std::alloc::Global;
use std::sync::Wait;
use std::thread::Threads;

/// Runs the command of these words, and writes its text: of all that is left of the source where
/// the command has an input, and of no input, for which nothing is read, where it is `gen`.
///
/// Want of memory may end the run at any place before the first byte is written, and leaves the
/// sink as it was. A line that sets a value or takes a key away may come to wait for other workers,
/// so all that is said here is said of a run that ends.
pub fn run<R: Threads + Wait + Sync, S: Source, K: Sink, G: Gate + Sync>(
    rt: &R,
    alloc: Global,
    words: &[Word],
    source: &mut S,
    sink: &mut K,
    gate: &G,
) -> Outcome
    // The text of the command was written, whole or up to a fault: for `replay` the replies to the
    // lines in order, for `rollup` the tables among its lines, for `simulate` the output of the
    // script or the record of its calls, for `judge` the verdict on the record, for `gen` the
    // summary of the replies to the lines it made. The replies come from the concurrent map. The
    // pass in `front` shows the run, for any number of workers, and the replies are those of one
    // thread in an order of the lines that keeps what came before what, where a refusal changes
    // nothing. At every other status nothing was written.
    ensures writes { WritesText K.written K.faults (Means words.now) (S.left source.old)
        result sink.old sink.new }

    // Each status has its cause. Bad input is told, unless a read failed before or memory was
    // wanted.
    ensures reads { ReadsInput S.left S.faults (Means words.now) result source.old source.new }

    // Bad words are told before anything is read, unless memory was wanted.
    ensures bad_words { result.status ≡ Status.BadWords →
        (command : AnyCommand) → Means words.now command → ⊥ }
    ensures unread { result.status ≡ Status.BadWords → source.new ≡ source.old }
    ensures told_words { ((command : AnyCommand) → Means words.now command → ⊥) →
        (source.new ≡ source.old)
        × ((result.status ≡ Status.BadWords) ⊎ (result.status ≡ Status.OutOfMemory)) }

    // That a record is not good is said by `judge` alone, and that calls were refused by the
    // commands that ask the concurrent map.
    ensures not_legal { result.status ≡ Status.NotLegal → Means words.now Judge }
    ensures refused { result.status ≡ Status.Refused → (command : AnyCommand)
        × Means words.now command × AsksMap command }

    // Few enough updates are never refused: where the input is good and has few of them, and no
    // stream counted a fault, all is done, unless memory was wanted.
    ensures complete { (command : AnyCommand) → Means words.now command →
        AsksFew command (S.left source.old) →
        (CountRose (S.faults source.old) (S.faults source.new) → ⊥) →
        (CountRose (K.faults sink.old) (K.faults sink.new) → ⊥) → HasDone command result.status }
{
    match command_of(alloc, words) {
        Ok(Some(command)) => match perform(rt, alloc, command, source, gate) {
            Ok(printed) => written(printed, sink),
            Err(error) => Outcome::without_text(error),
        },
        Ok(None) => Outcome::of(Status::BadWords),
        Err(_) => Outcome::of(Status::OutOfMemory),
    }
}

/// Writes the text of a command, and says how that ended.
fn written<K: Sink>(printed: Printed, sink: &mut K) -> Outcome
    ensures { WritesPrinted K.written K.faults printed result sink.old sink.new }
{
    let Printed {
        text,
        ending,
        front,
    } = printed;
    let status = match (write_all(sink, &text), ending) {
        (Ok(()), Ending::Done) => Status::Done,
        (Ok(()), Ending::Refused) => Status::Refused,
        (Ok(()), Ending::NotLegal) => Status::NotLegal,
        (Err(_), _) => Status::WriteFault,
    };
    Outcome {
        status,
        line: 0,
        front,
    }
}
