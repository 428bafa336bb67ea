//! Numbers at the front of a text.

ghost use Rattle.std.specs.Prelude.{◌≡◌, ◌^◌, ◌<◌, ◌≤◌, [], IfSome, neg_ℤ, pos, length, false, true};
ghost use Rattle.sentry_json.specs.Digits.{AreFirst, AreInteger};
ghost use Rattle.sentry_json.specs.Spelled.{Spells};
ghost use Rattle.sentry_json.specs.declared.tape.token.Token.TheVariants as token;

use crate::tape::float::{Float, parse_float};
use crate::tape::rest::Rest;
use crate::tape::token::Token;
use json::is_number;

// The number of so many digits always fits 64 bits.
const ALWAYS: usize = 19;

// Returns the number of the first digits and their count; `None` if there are none, or if a zero
// leads.
#[inline(always)]
fn integer(bytes: &[u8], number: u64, len: usize) -> Option<(u64, usize)>
    requires { AreFirst bytes.now number len }
    ensures { IfSome result (λ x. AreInteger bytes.now x.0 x.1) }
{
    if len == 0 || (len > 1 && bytes[0] == b'0') {
        return None;
    }
    Some((number, len))
}

/// Reads an integer without a sign from the front of a text: the integer, and its count of digits.
///
/// `None` if no digit stands there, if a zero leads others, or if there are more than 19 digits.
#[inline(always)]
pub fn leading_integer(bytes: &[u8]) -> Option<(u64, usize)>
    ensures { IfSome result (λ x. AreInteger bytes.now x.0 x.1) }
{
    let mut number = 0;
    let mut len = 0;
    while len < bytes.len() && bytes[len].is_ascii_digit() {
        if len == ALWAYS {
            return None;
        }
        number = number * 10 + u64::from(bytes[len] - b'0');
        len += 1;
    }
    integer(bytes, number, len)
}

// As `leading_integer`, of more digits, as long as 64 bits hold their number: asked at each digit.
fn many_digits(bytes: &[u8]) -> Option<(u64, usize)>
    ensures { IfSome result (λ x. AreInteger bytes.now x.0 x.1) }
{
    let mut number = 0_u64;
    let mut len = 0;
    while len < bytes.len() && bytes[len].is_ascii_digit() {
        number = number
            .checked_mul(10)?
            .checked_add(u64::from(bytes[len] - b'0'))?;
        len += 1;
    }
    integer(bytes, number, len)
}

// Splits off an integer without a sign, of this number and so many digits.
#[inline(always)]
fn split_digits<'a>(text: Rest<'a>, number: u64, len: usize) -> Option<(u64, Rest<'a>)>
    requires { AreInteger text.text.now number len }
    ensures spelled { IfSome result (λ x.
        Spells false text.entry.text.now x.1.text.now (token.Whole x.0) [] 0) }
    ensures shorter { IfSome result (λ x. length x.1.text.now < length text.entry.text.now) }
{
    let (_, rest) = text.split(len)?;
    Some((number, rest))
}

// Splits off an integer without a sign, of at most `ALWAYS` digits.
#[inline(always)]
pub(crate) fn split_whole<'a>(text: Rest<'a>) -> Option<(u64, Rest<'a>)>
    ensures spelled { IfSome result (λ x.
        Spells false text.entry.text.now x.1.text.now (token.Whole x.0) [] 0) }
    ensures shorter { IfSome result (λ x. length x.1.text.now < length text.entry.text.now) }
{
    let (number, len) = leading_integer(text.bytes())?;
    split_digits(text, number, len)
}

// As `split_whole`, of more digits, which few integers have.
#[cold]
#[inline(never)]
pub(crate) fn split_many<'a>(text: Rest<'a>) -> Option<(u64, Rest<'a>)>
    ensures spelled { IfSome result (λ x.
        Spells false text.entry.text.now x.1.text.now (token.Whole x.0) [] 0) }
    ensures shorter { IfSome result (λ x. length x.1.text.now < length text.entry.text.now) }
{
    let (number, len) = many_digits(text.bytes())?;
    split_digits(text, number, len)
}

// Puts a minus before a size; `None` for zero, and if 64 bits don't hold the number.
fn negative(size: u64) -> Option<i64>
    ensures value { IfSome result (λ z. z ≡ neg_ℤ (pos size)) }
    ensures sized { IfSome result (λ z. (0 < size) × (size ≤ 2 ^ 63)) }
{
    if size == 0 || size > 1 << 63 {
        return None;
    }
    if size == 1 << 63 {
        return Some(i64::MIN);
    }
    Some(-(size as i64))
}

// Splits off an integer with a minus; not zero, which is a float.
#[cold]
#[inline(never)]
pub(crate) fn split_negative<'a>(text: Rest<'a>) -> Option<(Token<'a>, Rest<'a>)>
    ensures spelled { IfSome result (λ x. Spells false text.entry.text.now x.1.text.now x.0 [] 0) }
    ensures shorter { IfSome result (λ x. length x.1.text.now < length text.entry.text.now) }
{
    let behind = text.after(b'-')?;
    let (size, len) = many_digits(behind.bytes())?;
    let number = negative(size)?;
    let (_, rest) = behind.split(len)?;
    Some((Token::Negative(number), rest))
}

// Returns how many bytes that numbers may have stand at the front; `None` if they are few digits alone,
// or none. Whether they are a number is for the JSON crate to say.
#[inline(always)]
fn float_len(bytes: &[u8]) -> Option<usize>
    ensures { IfSome result (λ len. 0 < len) }
{
    let mut len = 0;
    let mut whole = true;
    while len < bytes.len()
        && matches!(bytes[len], b'0'..=b'9' | b'-' | b'+' | b'.' | b'e' | b'E')
    {
        whole = whole && bytes[len].is_ascii_digit();
        len += 1;
    }
    if len == 0 || (whole && len <= ALWAYS) {
        return None;
    }
    Some(len)
}

// Splits off a float.
#[cold]
#[inline(never)]
pub(crate) fn split_float<'a>(text: Rest<'a>) -> Option<(Float, Rest<'a>)>
    ensures spelled { IfSome result (λ x.
        Spells true text.entry.text.now x.1.text.now (token.Float x.0) [] 0) }
    ensures shorter { IfSome result (λ x. length x.1.text.now < length text.entry.text.now) }
{
    let len = float_len(text.bytes())?;
    let (front, rest) = text.split(len)?;
    if !is_number(front) {
        return None;
    }
    Some((parse_float(front)?, rest))
}
