//! The words of the command line: a port, how many seats, and how many connections each serves.
ghost use Rattle.std.specs.Prelude.{◌≡◌};
ghost use Rattle.std.specs.List.{list_all};
ghost use Rattle.std.specs.Char.{is_ascii_digit};
ghost use Rattle.kw_command.specs.Words.{number_in};
ghost use Rattle.kiwid.specs.Words.{asked_by};

use kw_command::word::Word;
use kw_command::words::MOST_DIGITS;
use kw_words::sizes::SEAT_COUNT;

/// The greatest port.
pub const MOST_PORT: u32 = 65_535;

/// The most seats that may be asked for.
pub const MOST_SEATS: u32 = SEAT_COUNT;

/// The most connections that each seat may be asked to serve.
pub const MOST_SESSIONS: u32 = 1_000_000;

/// What the words ask for.
#[derive(Clone, Copy, Debug, PartialEq, Eq)]
pub struct Asked {
    /// From 1 to [`MOST_PORT`].
    pub port: u32,
    /// From 1 to [`MOST_SEATS`].
    pub seats: u32,
    /// From 1 to [`MOST_SESSIONS`].
    pub sessions: u32,
}

/// What the words ask for, or none where they are bad: they are three numbers in range, each of one
/// digit to ten, of which the first may be 0.
pub fn read_words(words: &[Word]) -> Option<Asked>
    ensures { result ≡ asked_by words.now }
{
    let [port, seats, sessions] = words else {
        return None;
    };
    let port = number_in(port, MOST_PORT)?;
    let seats = number_in(seats, MOST_SEATS)?;
    let sessions = number_in(sessions, MOST_SESSIONS)?;
    Some(Asked {
        port,
        seats,
        sessions,
    })
}

/// The number that a word of digits writes, where it is from 1 to `most`.
fn number_in(word: &Word, most: u32) -> Option<u32>
    ensures { result ≡ number_in 1 most word.now }
{
    let text = word.text();
    if text.len() > MOST_DIGITS || !are_digits(text.as_bytes()) {
        return None;
    }
    let number = text.parse::<u32>().ok()?;
    if number < 1 || most < number {
        return None;
    }
    Some(number)
}

/// Whether each byte is a digit.
fn are_digits(bytes: &[u8]) -> bool
    ensures { result ≡ list_all is_ascii_digit bytes.now }
{
    bytes.iter().all(|byte| byte.is_ascii_digit())
}
