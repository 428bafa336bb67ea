//! Item headers as most clients write them: members are strings of ASCII without escapes and whole
//! numbers, and no white space stands between them.

ghost use Rattle.std.specs.Prelude.{◌≡◌, ◌++◌, ◌∷◌, IfSome, List, Some, true, ℕ, codes, option_map};
ghost use Rattle.std.specs.Str.{IsAscii, bytes_eq};
ghost use Rattle.json.specs.Print.{quoted};
ghost use Rattle.sentry_json.specs.Balanced.{IsBalanced};
ghost use Rattle.sentry_json.specs.PlainTexts.{is_plain_text};
ghost use Rattle.sentry_forward.specs.AnyHeader.{any_header};
ghost use Rattle.sentry_forward.specs.FlatMembers.{AddsMember, BeginsScalar};
ghost use Rattle.sentry_forward.specs.HeaderView.{any_view};

use crate::header::AnyHeader;
use crate::run::run_len;
use sentry_json::leading_integer;
use std::borrow::CowStr;
use std::str;

// Returns what follows a byte at the front; `None` if another stands there.
#[inline(always)]
fn after_byte(bytes: &[u8], byte: u8) -> Option<&[u8]>
    ensures { IfSome result (λ rest. bytes.now ≡ byte ∷ rest.now) }
{
    let (first, rest) = bytes.split_first()?;
    if *first == byte { Some(rest) } else { None }
}

// Splits off a string of ASCII without escapes: its content, and what follows its closing quote.
#[inline(always)]
fn split_string(bytes: &[u8]) -> Option<(&[u8], &[u8])>
    ensures text { IfSome result (λ x. bytes.now ≡ quoted x.0.now ++ x.1.now) }
    ensures plain { IfSome result (λ x. is_plain_text x.0.now ≡ true) }
    ensures ascii { IfSome result (λ x. IsAscii x.0.now) }
{
    let inside = after_byte(bytes, b'"')?;
    let (run, stop) = inside.split_at(run_len(inside));
    let rest = after_byte(stop, b'"')?;
    Some((run, rest))
}

// Returns ASCII as a text.
#[inline(always)]
fn as_text(bytes: &[u8]) -> &str
    requires { IsAscii bytes.now }
    ensures { result.now ≡ bytes.now }
{
    unsafe { str::from_utf8_unchecked(bytes) }
}

// Splits off a string of ASCII without escapes or a whole number: returns what follows it.
#[inline(always)]
fn after_scalar(bytes: &[u8]) -> Option<&[u8]>
    ensures { IfSome result (λ rest. BeginsScalar bytes.now rest.now) }
{
    if let Some((_, rest)) = split_string(bytes) {
        return Some(rest);
    }
    let (_, len) = leading_integer(bytes)?;
    Some(&bytes[len..])
}

#[inline(always)]
fn is_type(key: &[u8]) -> bool
    ensures { result ≡ bytes_eq key.now (codes "type") }
{
    matches!(key, [b't', b'y', b'p', b'e'])
}

// Whether these are the letters of `length` behind its first two.
#[inline(always)]
fn ends_length(letters: &[u8]) -> bool
    ensures { result ≡ bytes_eq letters.now (codes "ngth") }
{
    matches!(letters, [b'n', b'g', b't', b'h'])
}

#[inline(always)]
fn is_length(key: &[u8]) -> bool
    ensures { result ≡ bytes_eq key.now (codes "length") }
{
    let Some((b'l', rest)) = key.split_first() else {
        return false;
    };
    let Some((b'e', letters)) = rest.split_first() else {
        return false;
    };
    ends_length(letters)
}

// Splits off a member. Returns the type and the length, of this member if it is one of them, and
// what follows.
#[inline(always)]
fn split_member<'a>(
    bytes: &'a [u8],
    word: Option<&'a str>,
    length: Option<u64>,
) -> Option<(Option<&'a str>, Option<u64>, &'a [u8])>
    ensures { IfSome result (λ x. AddsMember bytes.now x.2.now
        (option_map (λ w. w.now) word.entry) (option_map (λ w. w.now) x.0) length x.1) }
{
    let (key, behind) = split_string(bytes)?;
    let value = after_byte(behind, b':')?;
    if is_type(key) {
        let (name, rest) = split_string(value)?;
        return Some((Some(as_text(name)), length, rest));
    }
    if is_length(key) {
        let (number, len) = leading_integer(value)?;
        return Some((word, Some(number), &value[len..]));
    }
    let rest = after_scalar(value)?;
    Some((word, length, rest))
}

/// Splits a header off the front of a body: what it says, and what follows it. `None` if no such
/// header stands there; there may be another.
#[inline(always)]
pub(crate) fn split_flat<'a>(body: &'a [u8]) -> Option<(AnyHeader<'a>, &'a [u8])>
    ensures { IfSome result (λ x. (header : List ℕ) × (body.now ≡ header ++ x.1.now)
        × IsBalanced header × (any_header header ≡ Some (any_view x.0))) }
{
    let mut left = after_byte(body, b'{')?;
    let mut word = None;
    let mut length = None;
    loop {
        let (name, number, rest) = split_member(left, word, length)?;
        word = name;
        length = number;
        let Some(next) = after_byte(rest, b',') else {
            let after = after_byte(rest, b'}')?;
            let word = CowStr::Borrowed(word?);
            return Some((AnyHeader { word, length }, after));
        };
        left = next;
    }
}
