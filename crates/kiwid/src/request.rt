//! What a line of a connection asks for.
ghost use Rattle.std.specs.Prelude.{◌≡◌, MatchOption};
ghost use Rattle.kiwid.specs.Requests.{IsRequest, IsRequestLine, request_text};

use kw_line::item::{Form, Item};
use kw_line::parse::parse_line;
use kw_model::call::Call;

/// How many bytes a line has at most, without the byte that ends it.
pub const MOST_BYTES: usize = 64;

/// How many lines a session serves at most.
pub const MOST_LINES: u32 = 1_000_000;

/// What a line asks for.
#[derive(Clone, Copy, Debug, PartialEq, Eq)]
pub enum Request {
    /// A call of the map, and the form in which its answer is printed. The call is one of that
    /// form.
    Plain(Call, Form),
}

/// The request whose text the line is, or none.
///
/// A line of any length may be one. It takes no memory.
pub fn read_request(line: &[u8]) -> Option<Request>
    ensures { MatchOption result
        (IsRequestLine line.now → ⊥)
        (λ request. IsRequest request × (line.now ≡ request_text request)) }
{
    match parse_line(line)? {
        Item::Call(call, form) => Some(Request::Plain(call, form)),
        Item::Wait => None,
    }
}
