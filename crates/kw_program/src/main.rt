//! The program `kiwi`: replays metric updates and prints the replies.
//!
//! This is `main` alone, the trusted edge: it gathers the words of the command line, hands the
//! process's streams to `kw_app::run`, says a fault on standard error, and ends with the outcome's
//! status. All that is promised of the program stands on the contract of `run`.
#![tactic(auto)]

use kw_app::fault::write_fault;
use kw_app::outcome::{Outcome, Status};
use kw_app::run::run;
use kw_app::working::NoGate;
use kw_command::word::Word;
use kw_io::{StdSink, StdSource};
use std::process::ExitCode;
use std::{env, io};

fn main(rt: HostRuntime) -> ExitCode {
    let outcome = match given_words(&rt) {
        Ok(words) => {
            let mut source = StdSource::new(&rt);
            let mut sink = StdSink::output(&rt);
            run(&rt, rt.alloc(), &words, &mut source, &mut sink, &NoGate)
        }
        Err(status) => Outcome::of(status),
    };
    // A fault of standard error can be told nowhere.
    let _ = write_fault(&outcome, &mut StdSink::errors(&rt));
    ExitCode::from(outcome.status.code())
}

/// The words of the command line after the program's name. A word that is not text is a bad word.
fn given_words(rt: &HostRuntime) -> Result<Vec<Word>, Status> {
    let arguments = env::args(rt).map_err(|error| match error.kind() {
        io::ErrorKind::OutOfMemory => Status::OutOfMemory,
        _ => Status::BadWords,
    })?;
    let mut words = Vec::new(rt.alloc());
    for argument in arguments.skip(1) {
        if words.push(Word::new(argument)).is_err() {
            return Err(Status::OutOfMemory);
        }
    }
    Ok(words)
}
