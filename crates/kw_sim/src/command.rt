//! What a line of a script asks for.
//!
//! A [`Command`] stands for each line of a script. `specs/Script.antt` gives the one text of each
//! command and the range of its numbers.
use kw_model::call::Call;
use kw_words::kind::Kind;

/// A line of a script. Seats are counted from 0, and are below `SEATS`.
#[derive(Clone, Copy, Debug, PartialEq, Eq)]
pub enum Command {
    /// `call S put K V`, `call S del K`, `call S get K` or `call S scan A B`: this seat is to make
    /// this call, after those that it is to make already. Keys are below 2^32, values below 2^63.
    Call(u32, Call),
    /// `puts S N K V`: this seat is to put this value at this key so many times.
    Puts {
        /// The seat.
        seat: u32,
        /// How many times, from 1 to `MOST_STEPS`.
        count: u32,
        /// The key.
        key: u32,
        /// The value, below 2^63.
        value: u64,
    },
    /// `go S N`: this seat makes so many steps.
    Go {
        /// The seat.
        seat: u32,
        /// How many steps, from 1 to `MOST_STEPS`.
        count: u32,
    },
    /// `until S KIND`: this seat makes steps until it has made one of this kind.
    Until {
        /// The seat.
        seat: u32,
        /// The kind, by its name in `KINDS`.
        kind: Kind,
    },
    /// `guess S R`: this seat makes one event with a guess at this row.
    Guess {
        /// The seat.
        seat: u32,
        /// The row, below the number of rows.
        row: u32,
    },
    /// `stop S`: this seat makes one event with the choice to stop.
    Stop {
        /// The seat.
        seat: u32,
    },
}
