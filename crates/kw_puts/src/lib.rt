//! What holds of the attempts, their cells and entries, of the clock over the log, and of the calls
//! and scans that run: the second layer of the laws, below the readers.
//!
//! Nothing runs here. `laws` has the statement; `specs/Puts.antt` and `specs/Positions.antt` say
//! what holds, `specs/Below.antt` what a lemma of this layer may use of the run before the event.
//! An event of the record is a premise here: that the record may note it is shown above, with the
//! replies.
#![tactic(auto)]

pub mod laws;
