//! Strings with escapes.

ghost use Rattle.std.specs.Prelude.{◌≡◌, ◌<◌, IfSome, length, string_bytes};
ghost use Rattle.std.specs.Char.{digit_value, encode_utf8};
ghost use Rattle.json.specs.Lex.{in_escape, in_string};
ghost use Rattle.json.specs.Text.{after_backslash, after_u, short_escape};
ghost use Rattle.sentry_json.specs.Escaped.{IsUnit, StandsFor};
ghost use Rattle.sentry_json.specs.Spelled.{IsQuoted};

use crate::tape::requests::Requests;
use crate::tape::rest::Rest;

// As many bytes are reserved for a string with escapes.
const USUAL: usize = 128;

// The value of a hex digit; `None` for other bytes.
fn hex_digit(byte: u8) -> Option<u32>
    ensures { IfSome result (λ digit. (digit ≡ digit_value byte) × (digit < 16)) }
{
    char::from(byte).to_digit(16)
}

// Splits off four hex digits.
fn split_unit<'a>(text: Rest<'a>) -> Option<(u32, Rest<'a>)>
    ensures unit { IfSome result (λ x. IsUnit text.entry.text.now x.0 x.1.text.now) }
    ensures shorter { IfSome result (λ x. length x.1.text.now < length text.entry.text.now) }
{
    let (digits, rest) = text.split(4)?;
    let digits = digits.as_bytes();
    let a = hex_digit(digits[0])?;
    let b = hex_digit(digits[1])?;
    let c = hex_digit(digits[2])?;
    let d = hex_digit(digits[3])?;
    Some((a * 4096 + b * 256 + c * 16 + d, rest))
}

// Splits off what follows `\u`.
fn split_unicode<'a>(text: Rest<'a>) -> Option<(char, Rest<'a>)>
    ensures escape { IfSome result (λ x.
        StandsFor after_u in_string text.entry.text.now (encode_utf8 x.0) x.1.text.now) }
    ensures shorter { IfSome result (λ x. length x.1.text.now < length text.entry.text.now) }
{
    let (unit, rest) = split_unit(text)?;
    if unit < 0xd800 || unit >= 0xdc00 {
        return Some((char::from_u32(unit)?, rest));
    }
    let (low, rest) = split_unit(rest.after(b'\\')?.after(b'u')?)?;
    if low < 0xdc00 || low >= 0xe000 {
        return None;
    }
    let character = char::from_u32(0x10000 + (unit - 0xd800) * 1024 + (low - 0xdc00))?;
    Some((character, rest))
}

// The byte that a backslash and another byte stand for.
#[tactic(auto, unfolding(json::specs::Text::short_escape))]
fn short(byte: u8) -> Option<u8>
    ensures value { result ≡ short_escape byte }
    ensures ascii { IfSome result (λ x. x < 128) }
{
    match byte {
        b'"' | b'\\' | b'/' => Some(byte),
        b'b' => Some(8),
        b'f' => Some(12),
        b'n' => Some(b'\n'),
        b'r' => Some(b'\r'),
        b't' => Some(b'\t'),
        _ => None,
    }
}

// Splits off what follows a backslash.
fn split_escape<'a>(text: Rest<'a>) -> Option<(char, Rest<'a>)>
    ensures escape { IfSome result (λ x.
        StandsFor after_backslash in_escape text.entry.text.now (encode_utf8 x.0) x.1.text.now) }
    ensures shorter { IfSome result (λ x. length x.1.text.now < length text.entry.text.now) }
{
    let byte = *text.bytes().first()?;
    let rest = text.after(byte)?;
    if byte == b'u' {
        return split_unicode(rest);
    }
    Some((char::from(short(byte)?), rest))
}

// Splits off the rest of a string behind its opening quote, and the closing one.
#[inline(never)]
pub(crate) fn split_escaped<'a>(
    requests: &mut Requests,
    inside: Rest<'a>,
) -> Option<(String, Rest<'a>)>
    ensures quoted { IfSome result (λ x.
        IsQuoted inside.entry.text.now (string_bytes x.0) x.1.text.now) }
    ensures shorter { IfSome result (λ x. length x.1.text.now < length inside.entry.text.now) }
{
    let Ok(mut content) = String::with_capacity(requests.alloc, USUAL) else {
        return requests.refuse();
    };
    let mut rest = inside;
    loop {
        if let Some(escape) = rest.after(b'\\') {
            let (character, after) = split_escape(escape)?;
            let Ok(()) = content.push(character) else {
                return requests.refuse();
            };
            rest = after;
            continue;
        }
        let (run, stop) = rest.split_run();
        let Ok(()) = content.push_str(run) else {
            return requests.refuse();
        };
        if let Some(after) = stop.after(b'"') {
            return Some((content, after));
        }
        if run.is_empty() {
            return None;
        }
        rest = stop;
    }
}
