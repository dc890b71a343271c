//! The state of a row.
//!
//! A row is free, then the infant of the seat that builds it, then normal. A rebalance engages it
//! as a leader or as a follower and replaces it, and it is retired until no call can still read it.
ghost use Rattle.std.specs.Prelude.{◌≡◌, Some};
ghost use Rattle.kw_words.specs.State.{IsState, state_word, state_of};
ghost use Rattle.kw_words.specs.declared.state.State.{State};

use crate::sizes::{MOST_GROUP, MOST_ROWS, MOST_SEATS, NUMBER_END};

/// The state of a row.
#[derive(Clone, Copy, Debug, PartialEq, Eq)]
pub enum State {
    /// Nobody uses the row.
    Free,
    /// This seat, below `MOST_SEATS`, took the row and builds it.
    Infant(u32),
    /// The row holds a part of the map.
    Normal,
    /// The row leads a rebalance of this many rows, at most `MOST_GROUP`; 0 where that is not
    /// decided yet.
    Leader(u32),
    /// The row goes along in the rebalance of this row, below `MOST_ROWS`.
    Follower(u32),
    /// The row was replaced, and has this number, from 1 to below `NUMBER_END`.
    Retired(u64),
}

impl State {
    /// The word for this state.
    #[tactic(auto, unfolding(crate::specs::State::state_of))]
    pub fn pack(self) -> u64
        requires { IsState self }
        ensures value { result ≡ state_word self }
        ensures back { state_of result ≡ Some self }
    {
        match self {
            State::Free => 0,
            State::Infant(seat) => 1 + 8 * seat as u64,
            State::Normal => 2,
            State::Leader(count) => 3 + 8 * count as u64,
            State::Follower(leader) => 4 + 8 * leader as u64,
            State::Retired(number) => 5 + 8 * number,
        }
    }

    /// The state that a word stands for, or none where it stands for no state in range.
    #[tactic(auto, unfolding(crate::specs::State::state_of))]
    pub fn unpack(word: u64) -> Option<State>
        ensures value { result ≡ state_of word }
        // So a word that no state in range packs to gives none.
        ensures right { (state : State) → result ≡ Some state → IsState state
            × (state_word state ≡ word) }
        ensures every { (state : State) → IsState state → state_word state ≡ word →
            result ≡ Some state }
    {
        let number = word / 8;
        if word == 0 {
            Some(State::Free)
        } else if word == 2 {
            Some(State::Normal)
        } else if word % 8 == 1 && number < MOST_SEATS as u64 {
            Some(State::Infant(number as u32))
        } else if word % 8 == 3 && number <= MOST_GROUP as u64 {
            Some(State::Leader(number as u32))
        } else if word % 8 == 4 && number < MOST_ROWS as u64 {
            Some(State::Follower(number as u32))
        } else if word % 8 == 5 && number > 0 && number < NUMBER_END {
            Some(State::Retired(number))
        } else {
            None
        }
    }
}
