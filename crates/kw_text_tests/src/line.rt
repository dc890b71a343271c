//! Lines and the words that they are cut into, and items that are read from them.
use kw_line::error::LineError;
use kw_line::item::{Form, Item};
use kw_line::parse::{MOST_BYTES, parse};
use kw_line::words::{LINE_FEED, Lines, MOST_VALUE, SPACE, Words};
use kw_model::call::Call;
use std::alloc::Global;
use std::process::Abort;
use std::test::Fail;

// 2^63 - 1, a space, and a line feed
#[test]
fn the_greatest_value_and_the_marks_of_lines(rt: HostRuntime) {
    assert_eq!(rt;
        (MOST_VALUE, SPACE, LINE_FEED),
        (9_223_372_036_854_775_807, 32, 10)
    );
}

/// Expects that a text has these lines.
fn expect_lines(rt: &impl Abort, text: &[u8], lines: &[&[u8]]) {
    let mut found = Lines::new(text);
    for line in lines {
        assert_eq!(rt; found.next(), Some(*line));
    }
    assert_eq!(rt; found.next(), None);
}

/// Expects that the words of a line are `go`, an empty one, 7, `x`, which is no key, and an empty
/// one.
fn expect_words(rt: &impl Abort, line: &[u8]) {
    let mut words = Words::new(line);
    let front = (words.next(), words.next(), words.number(), words.key());
    let back = (words.is_empty(), words.next(), words.is_empty());
    assert_eq!(rt;
        (front, back),
        (
            (Some(b"go".as_slice()), Some(b"".as_slice()), Some(7), None),
            (false, Some(b"".as_slice()), true)
        )
    );
}

#[test]
fn cuts_at_each_mark(rt: HostRuntime) {
    let lines = [b"a b\r".as_slice(), b"".as_slice(), b"c".as_slice()];
    expect_lines(&rt, b"a b\r\n\nc", &lines);
    expect_words(&rt, b"go  7 x ");
}

// 16 MiB
#[test]
fn the_most_bytes_of_an_input(rt: HostRuntime) {
    assert_eq!(rt; MOST_BYTES, 16_777_216);
}

/// A line of each form.
const EACH_FORM: &str = "put 4294967295 9223372036854775807\ndel 0\nget 7\nsum 1 2\nwait\n\
    count 0 4294967295\nleast 1 2\ngreatest 1 2\nlist 3 2";

/// What these lines say.
const ITEM_OF_EACH_FORM: [Item; 9] = [
    Item::Call(Call::Put(4294967295, 9223372036854775807), Form::Put),
    Item::Call(Call::Del(0), Form::Del),
    Item::Call(Call::Get(7), Form::Get),
    Item::Call(Call::Scan(1, 2), Form::Sum),
    Item::Wait,
    Item::Call(Call::Scan(0, 4294967295), Form::Count),
    Item::Call(Call::Scan(1, 2), Form::Least),
    Item::Call(Call::Scan(1, 2), Form::Greatest),
    Item::Call(Call::Scan(3, 2), Form::List),
];

/// Expects that the lines of a text say this.
fn expect_items(
    rt: &impl Abort,
    alloc: Global,
    text: &str,
    want: &[Item],
) -> Result<(), LineError> {
    assert!(rt; text.len() <= MOST_BYTES);
    let items = parse(alloc, text.as_bytes())?;
    assert_eq!(rt; items.as_slice(), want);
    Ok(())
}

#[test]
fn reads_each_form(rt: HostRuntime) -> Result<(), Fail> {
    expect_items(&rt, rt.alloc(), EACH_FORM, &ITEM_OF_EACH_FORM)?;
    expect_items(&rt, rt.alloc(), "", &[])?;
    Ok(())
}

/// Texts, and the first bad line of each.
const BAD_LINES: [(&str, u32); 22] = [
    ("put 1 1\nput 3", 2),
    ("\n", 1),
    ("get 1\n\nget 2\n", 2),
    ("get 1\nget 2\n\n", 3),
    ("wait\nget 1 \nget\n", 2),
    (" get 1\n", 1),
    ("get  1\n", 1),
    ("get\t1\n", 1),
    ("put 01 1\n", 1),
    ("put 1 +1\n", 1),
    ("put -1 1\n", 1),
    ("get 4294967296\n", 1),
    ("put 1\n", 1),
    ("put 1 2 3\n", 1),
    ("put 1 9223372036854775808\n", 1),
    ("get 18446744073709551616\n", 1),
    ("sum 1\n", 1),
    ("GET 1\n", 1),
    ("gets 1\n", 1),
    ("wait 1\n", 1),
    ("get 1\r\n", 1),
    ("get é\n", 1),
];

/// Expects that this is the first bad line of a text.
fn expect_bad(rt: &impl Abort, alloc: Global, text: &[u8], line: u32) {
    assert!(rt; text.len() <= MOST_BYTES);
    assert_eq!(rt;
        parse(alloc, text),
        Err(LineError::Bad { line }),
        "in {text:?}"
    );
}

#[test]
fn names_the_first_bad_line(rt: HostRuntime) {
    for (text, line) in BAD_LINES {
        expect_bad(&rt, rt.alloc(), text.as_bytes(), line);
    }
    expect_bad(&rt, rt.alloc(), b"get \xff\n", 1);
}
