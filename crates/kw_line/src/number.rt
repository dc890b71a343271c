//! Numbers as they stand in lines: decimal digits, without a sign and without a leading zero.
//!
//! Every reader and writer of numbers in a line goes through here, so that each number has one
//! text.
ghost use Rattle.std.specs.Prelude.{◌≡◌, ◌≢◌, ◌<◌, ◌≤◌, ◌+◌, ◌-◌, ◌*◌, ◌^◌, ◌++◌, ◌⊎◌, ℕ, IsTrue, false, decimal, length, slice_index, take, IfSome, MatchOption, OnOk, OnErr};
ghost use Rattle.std.specs.Str.Parse.{AllDigits, digits_value};

use itoa::Buffer;
use kw_model::memory::Memory;
use std::str;

/// How many digits a number may have so that it surely fits: there are greater ones of 20 digits.
const FITTING_DIGITS: usize = 19;

/// The number whose decimal text the bytes begin with, and what stands behind that text.
///
/// None where no such text is found, and also where the digits may be too many to fit. Each digit
/// is looked at once, so this is the quick way; where it finds none, [`number`] decides.
pub(crate) fn split_number(bytes: &[u8]) -> Option<(u64, &[u8])>
    ensures { IfSome result (λ parts. (parts.0 < 2 ^ 64)
        × (bytes.now ≡ decimal parts.0 ++ parts.1.now)) }
{
    let most = bytes.len().min(FITTING_DIGITS);
    let (value, count) = leading_digits(&bytes[..most]);
    if !is_plain(bytes, count) {
        return None;
    }
    Some((value, &bytes[count..]))
}

/// Whether so many digits in front are the text of a number: there are some, and a zero stands in
/// front of no other.
fn is_plain(bytes: &[u8], count: usize) -> bool
    ensures { IsTrue result → (0 < count) × (slice_index bytes.now 0 ≡ 48 → count ≡ 1) }
{
    match bytes {
        [b'0', ..] => count == 1,
        _ => 0 < count,
    }
}

/// The value of the digits that the bytes begin with, and how many they are.
///
/// Each round looks at two bytes, so that counting the rounds costs a digit half as much.
fn leading_digits(bytes: &[u8]) -> (u64, usize)
    requires { length bytes.now ≤ FITTING_DIGITS }
    ensures within { result.1 ≤ length bytes.now }
    ensures digits { AllDigits 10 (take result.1 bytes.now) }
    ensures value { result.0 ≡ digits_value 10 (take result.1 bytes.now) }
    ensures fits { result.0 < 2 ^ 64 }
{
    let mut value = 0;
    for pair in 0..bytes.len() / 2 {
        let at = 2 * pair;
        let Some(one_more) = with_digit(value, bytes[at]) else {
            return (value, at);
        };
        let Some(two_more) = with_digit(one_more, bytes[at + 1]) else {
            return (one_more, at + 1);
        };
        value = two_more;
    }
    let paired = bytes.len() / 2 * 2;
    if paired == bytes.len() {
        return (value, paired);
    }
    match with_digit(value, bytes[paired]) {
        Some(one_more) => (one_more, paired + 1),
        None => (value, paired),
    }
}

/// The number whose digits are those of this one and, behind them, this byte; or none where the
/// byte is no digit.
fn with_digit(number: u64, byte: u8) -> Option<u64>
    requires { number * 10 + 9 < 2 ^ 64 }
    ensures { IfSome result (λ more. (48 ≤ byte) × (byte ≤ 57)
        × (more ≡ number * 10 + (byte - 48))) }
{
    // one subtraction serves both bounds: below the digits it wraps to a great number
    let digit = u64::from(byte).wrapping_sub(u64::from(b'0'));
    if 9 < digit {
        return None;
    }
    Some(number * 10 + digit)
}

/// The number whose decimal text the bytes are, or none.
pub fn number(bytes: &[u8]) -> Option<u64>
    ensures { MatchOption result
        ((n : ℕ) → n < 2 ^ 64 → bytes.now ≢ decimal n)
        (λ n. (n < 2 ^ 64) × (bytes.now ≡ decimal n)) }
{
    if !may_be_number(bytes) {
        return None;
    }
    str::from_utf8(bytes).ok()?.parse().ok()
}

/// Whether the bytes have neither the plus sign nor the leading zero that `parse` would let pass.
fn may_be_number(bytes: &[u8]) -> bool
    ensures plain { IsTrue result → (slice_index bytes.now 0 ≢ 43)
        × (slice_index bytes.now 0 ≡ 48 → length bytes.now ≡ 1) }
    ensures other { result ≡ false → (slice_index bytes.now 0 ≡ 43)
        ⊎ ((slice_index bytes.now 0 ≡ 48) × (1 < length bytes.now)) }
{
    !matches!(bytes, [b'+', ..] | [b'0', _, ..])
}

/// Adds the decimal text of a number at the end.
pub fn push_number(out: &mut Vec<u8>, number: u128) -> Result<(), Memory>
    ensures ok { OnOk result (out.new.items ≡ out.old.items ++ decimal number) }
    ensures err { OnErr result (out.new.items ≡ out.old.items) }
{
    out.extend_from_slice(Buffer::new().format(number).as_bytes())?;
    Ok(())
}
