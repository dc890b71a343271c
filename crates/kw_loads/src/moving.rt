//! Keys that come and go: which of them a map is asked for, and in which order.
//!
//! A load is a row of turns. In a turn a key is put, and one that was put long before is deleted;
//! of random keys some turns put, and the ones after them delete. Threads that share a load take
//! its turns by turns.
ghost use Rattle.std.specs.Prelude.{◌≤◌};
ghost use Rattle.kw_words.specs.declared.sizes.TheConstants.{MOST_ROWS};

use crate::map_load::mixed;

// How many series of minutes there are, and where the keys of a series begin behind those of the
// one before. A thread of four has keys of each minute, since neither is divided by four.
const SERIES: u32 = 50;

const SERIES_KEYS: u32 = 1_048_577;

// Keys in disorder come in stretches of so many, each by steps of so many, which have no divisor
// in common. Four divide the stretch, and leave one of a step, so that each thread of four deletes
// the keys that it put.
const STRETCH: u32 = 400;

const STRIDE: u32 = 149;

// So many random keys are put, and then all of them deleted.
const RANDOM: u32 = 10_000;

/// Which keys come and go.
#[derive(Clone, Copy, Debug, PartialEq, Eq)]
pub enum Moving {
    /// Each key is one above the one before, and the last 1,000 stay.
    Window,
    /// Series of minutes, a minute of each after the one before; the last 60 of each stay.
    Series,
    /// Rising keys in disorder, of which the greatest stay, 500 or some more.
    Disorder,
    /// Keys anywhere: so many are put, and all of them deleted again.
    Random,
}

/// What is asked for in a turn.
#[derive(Clone, Copy, Debug, PartialEq, Eq)]
pub struct Turn {
    /// The key that is put.
    pub put: Option<u32>,
    /// The key that is then deleted.
    pub deleted: Option<u32>,
}

impl Moving {
    /// How many rows the map has.
    pub fn rows(self) -> u32
        ensures some { 1 ≤ result }
        ensures most { result ≤ MOST_ROWS }
    {
        match self {
            Moving::Window => 1_024,
            Moving::Series => 512,
            Moving::Disorder => 256,
            Moving::Random => 2_048,
        }
    }

    /// The words that name it in a figure.
    pub fn words(self) -> &'static str {
        match self {
            Moving::Window => "window",
            Moving::Series => "series",
            Moving::Disorder => "disorder",
            Moving::Random => "anywhere",
        }
    }

    /// In how many turns so many keys are put.
    pub fn turns(self, puts: u32) -> u32 {
        match self {
            Moving::Random => puts.saturating_mul(2),
            _ => puts,
        }
    }

    /// What is asked for in the turn with this number.
    pub fn turn(self, number: u32) -> Turn {
        match self {
            Moving::Window => Turn {
                put: Some(number),
                deleted: number.checked_sub(1_000),
            },
            Moving::Series => Turn {
                put: Some(minute_key(number)),
                deleted: match number.checked_sub(SERIES * 60) {
                    Some(old) => Some(minute_key(old)),
                    None => None,
                },
            },
            Moving::Disorder => Turn {
                put: Some(disordered(number)),
                deleted: number.checked_sub(500),
            },
            Moving::Random => random_turn(number),
        }
    }
}

// The key of a series that comes with this number: one of each series, and then of the next minute.
fn minute_key(number: u32) -> u32 {
    (number % SERIES)
        .wrapping_mul(SERIES_KEYS)
        .wrapping_add(number / SERIES)
}

// The key that comes with this number: each stretch has its keys, each once.
fn disordered(number: u32) -> u32 {
    (number - number % STRETCH).wrapping_add(number % STRETCH * STRIDE % STRETCH)
}

// As many turns put as then delete the same keys, and each time they are others.
fn random_turn(number: u32) -> Turn {
    let round = number / (2 * RANDOM) * RANDOM;
    let place = number % (2 * RANDOM);
    if place < RANDOM {
        Turn {
            put: Some(mixed(round.wrapping_add(place))),
            deleted: None,
        }
    } else {
        Turn {
            put: None,
            deleted: Some(mixed(round.wrapping_add(place - RANDOM))),
        }
    }
}
