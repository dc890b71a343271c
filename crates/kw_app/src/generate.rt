//! The lines that the generator makes.
//!
//! A [`Generator`] is a number that each draw replaces by the next of a fixed sequence, so the same
//! start gives the same lines everywhere. `specs/Generated.antt` says what a draw gives and which
//! line three draws make. The last ones are a wait and four lines on all keys, which the summary of
//! a run prints.
ghost use Rattle.std.specs.Prelude.{◌≡◌, ◌<◌, ◌%◌, ◌^◌, ◌++◌, IfOk};
ghost use Rattle.std.specs.List.{AllByRecursion};
ghost use Rattle.kw_line.specs.Line.{IsItem};
ghost use Rattle.kw_app.specs.Generated.{drawn, generated, last_lines, line_after, next};

use kw_line::item::{Form, Item};
use kw_model::call::Call;
use kw_model::memory::Memory;
use std::alloc::Global;

/// What a draw multiplies the generator's number by.
pub const MULTIPLIER: u64 = 1_103_515_245;

/// What a draw adds.
pub const INCREMENT: u64 = 12_345;

/// The generator's number is below this.
pub const MODULUS: u64 = 1 << 31;

/// A draw gives the number divided by this.
pub const DRAW_UNIT: u64 = 65_536;

/// The keys of generated lines are below this.
pub const KEYS: u64 = 4_096;

/// The kinds of generated lines are below this.
pub const KINDS: u64 = 8;

/// The kinds below this are puts, this one is a delete, and those above are gets.
pub const DELETE_KIND: u64 = 5;

/// The lines after the generated ones: all of them are answered first, and then all keys are asked
/// for.
const LAST_LINES: [Item; 5] = [
    Item::Wait,
    Item::Call(Call::Scan(0, u32::MAX), Form::Count),
    Item::Call(Call::Scan(0, u32::MAX), Form::Sum),
    Item::Call(Call::Scan(0, u32::MAX), Form::Least),
    Item::Call(Call::Scan(0, u32::MAX), Form::Greatest),
];

/// What the next draws give: a number below [`MODULUS`].
#[derive(Clone, Copy, Debug, PartialEq, Eq)]
pub struct Generator {
    number: u64,
    ghost below: { number < 2 ^ 31 },
}

impl Generator {
    /// The generator that begins with this number.
    pub fn new(start: u32) -> Generator
        ensures { result.number ≡ start % MODULUS }
    {
        Generator {
            number: u64::from(start) % MODULUS,
        }
    }

    /// The next draw, which is below 32,768.
    fn draw(&mut self) -> u64
        ensures number { self.new.number ≡ next self.old.number }
        ensures drawn { result ≡ drawn self.new.number }
        ensures below { result < 2 ^ 15 }
    {
        self.number = (MULTIPLIER * self.number + INCREMENT) % MODULUS;
        self.number / DRAW_UNIT
    }

    /// The line of the next three draws.
    fn line(&mut self) -> Item
        ensures line { result ≡ line_after self.old.number }
        ensures number { self.new.number ≡ next (next (next self.old.number)) }
    {
        let kind = self.draw() % KINDS;
        let key = (self.draw() % KEYS) as u32;
        let value = self.draw();
        if kind < DELETE_KIND {
            Item::Call(Call::Put(key, value), Form::Put)
        } else if kind == DELETE_KIND {
            Item::Call(Call::Del(key), Form::Del)
        } else {
            Item::Call(Call::Get(key), Form::Get)
        }
    }
}

/// The lines that are made from this number on: as many as `count` says, and the last five.
pub fn generate(alloc: Global, start: u32, count: u32) -> Result<Vec<Item>, Memory>
    ensures lines { IfOk result (λ lines. lines.items ≡ generated start count) }
    ensures items { IfOk result (λ lines. AllByRecursion IsItem lines.items) }
{
    let mut generator = Generator::new(start);
    let mut lines = Vec::new(alloc);
    for _ in 0..count {
        lines.push(generator.line())?;
    }
    lines.extend_from_slice(&LAST_LINES)?;
    Ok(lines)
}
