//! The program `kiwid`: answers the lines of TCP connections.
//!
//! This is `main` alone, the trusted edge: it gathers the words of the command line, makes what
//! binds a port, calls `kiwid::server::kiwid_run`, and ends with its status. It prints nothing. All
//! that is promised of the program stands on the contract of `kiwid_run`.
#![tactic(auto)]

use kiwid::server::{Status, kiwid_run};
use kiwid::tcp::TcpBinder;
use kw_command::word::Word;
use std::process::ExitCode;
use std::{env, io};

fn main(rt: HostRuntime) -> ExitCode {
    let status = match given_words(&rt) {
        Ok(words) => {
            let mut binder = TcpBinder::new(&rt, rt.alloc());
            kiwid_run(&rt, rt.alloc(), &words, &mut binder).status
        }
        Err(status) => status,
    };
    ExitCode::from(status.code())
}

/// The words of the command line after the program's name. A word that is not text is a bad word.
fn given_words(rt: &HostRuntime) -> Result<Vec<Word>, Status> {
    let arguments = env::args(rt).map_err(|error| match error.kind() {
        io::ErrorKind::OutOfMemory => Status::OutOfMemory,
        _ => Status::BadWords,
    })?;
    let mut words = Vec::new(rt.alloc());
    for argument in arguments.skip(1) {
        if words.push(Word::new(argument)).is_err() {
            return Err(Status::OutOfMemory);
        }
    }
    Ok(words)
}
