//! What a line asks for.
//!
//! The types of this crate that its callers hold: an [`Item`] for each line of an input, and the
//! [`Form`] in which its answer is printed. `specs/Line.antt` gives the one text of each item.
use kw_model::call::Call;

/// What a line asks of the map, and so how its answer is printed.
#[derive(Clone, Copy, Debug, PartialEq, Eq)]
pub enum Form {
    /// `put K V`: sets the value of a key.
    Put,
    /// `del K`: takes a key away.
    Del,
    /// `get K`: the value of a key.
    Get,
    /// `sum A B`: the sum of the values from key A to key B.
    Sum,
    /// `count A B`: how many keys there are from A to B.
    Count,
    /// `least A B`: the least value from key A to key B.
    Least,
    /// `greatest A B`: the greatest value from key A to key B.
    Greatest,
    /// `list A B`: the pairs from key A to key B.
    List,
}

/// A line of an input.
#[derive(Clone, Copy, Debug, PartialEq, Eq)]
pub enum Item {
    /// A call of the map, and the form of its line. The call is one of that form.
    Call(Call, Form),
    /// `wait`: all lines before it are answered before a line after it is begun.
    Wait,
}
