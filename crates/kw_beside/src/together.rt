//! The items of an input's pieces, put together.
ghost use Rattle.std.specs.Prelude.{ℕ, ◌≡◌, ◌<◌, ◌^◌, List, length, IfOk};
ghost use Rattle.kw_line.specs.Line.{AreLinesOf, IsFirstBadLine, IfBad};
ghost use Rattle.kw_beside.specs.Pieces.{AreReadOf};

use crate::joined::joined;
use kw_line::error::LineError;
use kw_line::item::Item;
use std::alloc::Global;

/// The items of all pieces, one after the other, where each part is what a reader gave for a piece.
/// The first bad line of the first piece that has one is the input's, and it is counted from the
/// input's first line on. The items of the first piece are not copied.
pub fn together(
    alloc: Global,
    parts: Vec<Result<Vec<Item>, LineError>>,
) -> Result<Vec<Item>, LineError>
    requires { (bytes : List ℕ) × AreReadOf bytes parts.items × (length bytes < 2 ^ 32) }
    ensures items { (bytes : List ℕ) → AreReadOf bytes parts.items → IfOk result
        (λ items. AreLinesOf bytes items.items) }
    ensures bad { (bytes : List ℕ) → AreReadOf bytes parts.items → IfBad (IsFirstBadLine bytes) result }
{
    let mut all = Vec::new(alloc);
    for part in parts {
        match part {
            Ok(items) => all = joined(all, items)?,
            Err(LineError::Bad { line }) => {
                let before = all.len() as u32;
                return Err(LineError::Bad {
                    line: before + line,
                });
            }
            Err(LineError::Memory) => return Err(LineError::Memory),
        }
    }
    Ok(all)
}

#[cfg(test)]
mod tests {
    use super::*;
    use kw_line::item::Form;
    use kw_line::parse::parse;
    use kw_model::call::Call;
    use std::test::Fail;

    #[test]
    fn the_items_stand_in_the_order_of_the_pieces(rt: HostRuntime) -> Result<(), Fail> {
        let alloc = rt.alloc();
        let mut parts = Vec::new(alloc);
        parts.push(parse(alloc, b"get 1\nwait\n"))?;
        parts.push(parse(alloc, b"get 2\n"))?;
        let want = [
            Item::Call(Call::Get(1), Form::Get),
            Item::Wait,
            Item::Call(Call::Get(2), Form::Get),
        ];
        assert_eq!(rt; together(alloc, parts)?.as_slice(), want.as_slice());
        Ok(())
    }

    #[test]
    fn a_bad_line_is_counted_behind_the_pieces_before_it(rt: HostRuntime) -> Result<(), Fail> {
        let alloc = rt.alloc();
        let mut parts = Vec::new(alloc);
        parts.push(parse(alloc, b"get 1\nwait\n"))?;
        parts.push(parse(alloc, b"get 2\nget\nput\n"))?;
        assert_eq!(rt; together(alloc, parts), Err(LineError::Bad { line: 4 }));
        Ok(())
    }

    #[test]
    fn want_of_memory_is_passed_on(rt: HostRuntime) -> Result<(), Fail> {
        let alloc = rt.alloc();
        let mut parts = Vec::new(alloc);
        parts.push(parse(alloc, b"get 1\nwait\n"))?;
        parts.push(Err(LineError::Memory))?;
        assert_eq!(rt; together(alloc, parts), Err(LineError::Memory));
        Ok(())
    }
}
