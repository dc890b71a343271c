//! From lines to items.
//!
//! A line is read word by word, and it is the text of an item exactly where all its words are read.
//! No byte is read more than a few times, so the whole takes time linear in the bytes.
ghost use Rattle.std.specs.Prelude.{◌≡◌, ◌≢◌, ◌≤◌, ◌++◌, ◌∷◌, [], ℕ, List, map, length, decimal, MatchOption, IfOk, vec_len};
ghost use Rattle.kw_model.specs.declared.call.Call.{Call as AnyCall};
ghost use Rattle.kw_line.specs.declared.item.Form.{Form as AnyForm};
ghost use Rattle.kw_line.specs.declared.item.Item.{Item as AnyItem};
ghost use Rattle.kw_line.specs.Line.{IsCallOf, FitsCall, IsItem, IsText, AreLinesOf, IsFirstBadLine, IfBad, arguments, form_word, item_text};

use crate::error::LineError;
use crate::item::{Form, Item};
use crate::words::{Lines, Words, is_same};
use kw_model::call::Call;
use std::alloc::Global;

/// How many bytes an input may have.
pub const MOST_BYTES: usize = 16_777_216;

/// How many bytes the shortest line has, `wait`, with the byte that ends it.
const FEWEST_BYTES: usize = 5;

/// The items of an input's lines, one for each line.
pub fn parse(alloc: Global, bytes: &[u8]) -> Result<Vec<Item>, LineError>
    requires { length bytes.now ≤ MOST_BYTES }
    ensures items { IfOk result (λ items. AreLinesOf bytes.now items.items) }
    ensures few { IfOk result (λ items. vec_len items ≤ length bytes.now) }
    ensures bad { IfBad (IsFirstBadLine bytes.now) result }
{
    // room for as many as there can be: an input that has more lines than these is a bad one
    let mut items = Vec::with_capacity(alloc, bytes.len() / FEWEST_BYTES + 1)?;
    for line in Lines::new(bytes) {
        let Some(item) = parse_line(line) else {
            let line = items.len() as u32 + 1;
            return Err(LineError::Bad { line });
        };
        items.push(item)?;
    }
    Ok(items)
}

/// The item whose text the line is, or none.
pub fn parse_line(line: &[u8]) -> Option<Item>
    ensures { MatchOption result
        (IsText line.now → ⊥)
        (λ item. IsItem item × (line.now ≡ item_text item)) }
{
    let mut words = Words::new(line);
    let word = words.next()?;
    if is_same(word, b"wait") {
        return words.is_empty().then_some(Item::Wait);
    }
    let form = form(word)?;
    let call = call(form, &mut words)?;
    words.is_empty().then_some(Item::Call(call, form))
}

/// The form of a line that begins with this word, or none.
pub fn form(word: &[u8]) -> Option<Form>
    ensures { MatchOption result
        ((form : AnyForm) → word.now ≢ form_word form)
        (λ form. word.now ≡ form_word form) }
{
    if is_same(word, b"put") {
        Some(Form::Put)
    } else if is_same(word, b"del") {
        Some(Form::Del)
    } else if is_same(word, b"get") {
        Some(Form::Get)
    } else if is_same(word, b"sum") {
        Some(Form::Sum)
    } else if is_same(word, b"count") {
        Some(Form::Count)
    } else if is_same(word, b"least") {
        Some(Form::Least)
    } else if is_same(word, b"greatest") {
        Some(Form::Greatest)
    } else if is_same(word, b"list") {
        Some(Form::List)
    } else {
        None
    }
}

/// The call of this form whose numbers are the next words, or none.
fn call(form: Form, words: &mut Words) -> Option<Call>
    ensures { MatchOption result
        ((call : AnyCall) (rest : List (List ℕ)) → IsCallOf form call → FitsCall call
        → words.old ≢ map decimal (arguments call) ++ rest)
        (λ call. IsCallOf form call × FitsCall call
        × (words.old ≡ map decimal (arguments call) ++ words.new)) }
{
    match form {
        Form::Put => {
            let key = words.key()?;
            Some(Call::Put(key, words.value()?))
        }
        Form::Del => Some(Call::Del(words.key()?)),
        Form::Get => Some(Call::Get(words.key()?)),
        Form::Sum | Form::Count | Form::Least | Form::Greatest | Form::List => {
            let from = words.key()?;
            Some(Call::Scan(from, words.key()?))
        }
    }
}
