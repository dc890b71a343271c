//! One worker's replies, beside those of the plain list, which is proved to answer as a map of one
//! thread does and is asked in line order.
use crate::runs::{expect_replies, replayed};
use kw_app::generate::generate;
use kw_app::working::NoGate;
use kw_cells::plain::Plain;
use kw_line::item::Item;
use kw_line::parse::MOST_BYTES;
use kw_model::call::Call;
use std::test::Fail;

/// An input, and the text of the replies to it.
#[derive(Drop)]
struct Lines {
    input: String,
    text: String,
}

impl Lines {
    /// Adds the line of a generated item, and its reply. After a key was taken away stands a line
    /// that sums what is around it.
    fn push(&mut self, plain: &mut Plain, item: &Item) -> Result<(), Fail> {
        match *item {
            Item::Wait => self.input.push_str("wait\n")?,
            Item::Call(Call::Put(key, value), _) => {
                plain.put(key, Some(value))?;
                write!(self.input, "put {key} {value}\n")?;
                self.text.push_str("ok\n")?;
            }
            Item::Call(Call::Del(key), _) => {
                plain.put(key, None)?;
                write!(self.input, "del {key}\n")?;
                self.text.push_str("ok\n")?;
                self.push_sum(plain, key, key.saturating_add(99))?;
            }
            Item::Call(Call::Get(key), _) => {
                write!(self.input, "get {key}\n")?;
                match plain.get(key) {
                    Some(value) => write!(self.text, "{value}\n")?,
                    None => self.text.push_str("none\n")?,
                }
            }
            Item::Call(Call::Scan(from, upto), _) => self.push_list(plain, from, upto)?,
            // no line makes these
            Item::Call(Call::Pin | Call::ScanAt(..) | Call::Unpin, _) => {}
        }
        Ok(())
    }

    fn push_sum(&mut self, plain: &mut Plain, from: u32, upto: u32) -> Result<(), Fail> {
        let mut sum = 0_u64;
        for (_, value) in plain.scan(from, upto)?.pairs() {
            sum = sum.saturating_add(*value);
        }
        write!(self.input, "sum {from} {upto}\n")?;
        write!(self.text, "{sum}\n")?;
        Ok(())
    }

    /// Some pairs are in the range.
    fn push_list(&mut self, plain: &mut Plain, from: u32, upto: u32) -> Result<(), Fail> {
        write!(self.input, "list {from} {upto}\n")?;
        let mut space = "";
        for (key, value) in plain.scan(from, upto)?.pairs() {
            write!(self.text, "{space}{key}={value}")?;
            space = " ";
        }
        self.text.push_str("\n")?;
        Ok(())
    }
}

// Many rows are split and compacted on the way.
#[test]
fn one_worker_replies_as_the_plain_list_does(rt: HostRuntime) -> Result<(), Fail> {
    let mut lines = Lines {
        input: String::new(rt.alloc()),
        text: String::new(rt.alloc()),
    };
    let mut plain = Plain::new(rt.alloc());
    for item in &generate(rt.alloc(), 1, 8000)? {
        lines.push(&mut plain, item)?;
    }
    let input = lines.input.as_bytes();
    assert!(rt; input.len() <= MOST_BYTES);
    let ended = replayed(&rt, rt.alloc(), "1", input, &NoGate)?;
    expect_replies(&rt, &ended, lines.text.as_bytes());
    assert!(rt; ended.outcome.front.is_some());
    Ok(())
}
