//! What the program does: the words of a command and an input in, a text and an outcome out.
//!
//! All that is promised of the program is the contract of [`run::run`]; the program itself is
//! `main` alone, in `kw_program`. The modules below `run`:
//!
//! - `kw_command`, a crate of its own, reads the words of the command line.
//! - `perform` looks at the command, `input` reads its input whole.
//! - `replay` makes the text of the replies to an input's lines, `simulating` that of a script, and
//!   `judging` that of a verdict; `gen_command`, `generate` and `summary` the summary of the
//!   replies to generated lines; `rolling`, `asked` and `tables` the tables of metric points.
//!   `printed` is what they make, and `crew` has who answers lines.
//! - `running`, `rounds`, `sharing` and `working` run lines on the concurrent map: all blocks, one
//!   block, its passes, one worker; `kw_ask`, a crate of its own, asks one line. Block after block,
//!   each worker answers the lines that are dealt to it, in a thread of its own where they are
//!   worth one; then all passes meet, so that all have seen one list of events, and the next block
//!   begins. That workers run beside each other is no clause, and that a put ends is none: tests
//!   show it.
//! - `outcome` and `fault` say how a run ended, and `faultless` that a run on streams that never
//!   fail is never told of a fault.
//!
//! The tests are in `kw_app_tests` (whole runs) and `kw_worker_tests` (the workers of a run, and
//! the lines of `gen`), since a crate with tests is proved twice.
#![tactic(auto)]

mod asked;
mod crew;
pub mod fault;
pub mod faultless;
mod gen_command;
pub mod generate;
mod input;
mod judging;
pub mod outcome;
mod perform;
mod printed;
mod replay;
mod rolling;
mod rounds;
pub mod run;
mod running;
mod sharing;
mod simulating;
mod summary;
mod tables;
pub mod working;
