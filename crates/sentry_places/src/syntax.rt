//! Where a text stops being JSON.

ghost use Rattle.std.specs.Prelude.{◌≡◌};
ghost use Rattle.sentry_places.specs.Words.{expected_word};

use crate::scan::{byte_at, space_end};
use std::alloc::{AllocError, Global};
use std::str;

/// What a text that isn't JSON lacks at the byte where it breaks.
#[derive(Clone, Copy, Debug, PartialEq, Eq)]
pub enum Expected {
    /// A value.
    Value,
    /// A key, in quotes.
    Key,
    /// The colon behind a key.
    Colon,
    /// A comma, or the bracket that ends the array or object.
    CommaOrEnd,
    /// The end of the text.
    End,
    /// The rest of `true`, `false` or `null`.
    Literal,
    /// A digit of a number.
    Digit,
    /// The quote that ends a string.
    Quote,
    /// An escape in place of a control character.
    EscapedControl,
    /// A character that may follow a backslash.
    Escape,
    /// Half of a surrogate pair.
    Surrogate,
    /// UTF-8.
    Utf8,
    /// At most 127 brackets that are open.
    LessNesting,
}

impl Expected {
    /// Returns what is expected, in words.
    pub fn as_str(&self) -> &'static str
        ensures { result.now ≡ expected_word self.now }
    {
        match self {
            Expected::Value => "a value",
            Expected::Key => "a key in quotes",
            Expected::Colon => "a colon",
            Expected::CommaOrEnd => "a comma or the closing bracket",
            Expected::End => "the end",
            Expected::Literal => "true, false or null",
            Expected::Digit => "a digit",
            Expected::Quote => "a closing quote",
            Expected::EscapedControl => "an escape in place of a control character",
            Expected::Escape => "an escape",
            Expected::Surrogate => "the other half of a surrogate pair",
            Expected::Utf8 => "UTF-8",
            Expected::LessNesting => "at most 127 open brackets",
        }
    }
}

/// The byte at which a text stops being JSON, and what is expected there.
#[derive(Clone, Copy, Debug, PartialEq, Eq)]
pub struct Break {
    /// Offset of the byte; the length of the text if the text ends too early.
    pub at: usize,
    /// What is expected there.
    pub expected: Expected,
}

// How many brackets may be open.
const MAX_OPEN: usize = 127;

// What may come next.
#[derive(Clone, Copy, PartialEq, Eq)]
enum Next {
    Value,
    ValueOrEnd,
    Key,
    KeyOrEnd,
    Colon,
    CommaOrEnd,
}

fn broken(at: usize, expected: Expected) -> Result<usize, Break> {
    Err(Break { at, expected })
}

fn is_hex(byte: u8) -> bool {
    matches!(byte, b'0'..=b'9' | b'a'..=b'f' | b'A'..=b'F')
}

// Returns the index behind four hexadecimal digits.
fn hex_end(text: &[u8], at: usize) -> Result<usize, Break> {
    for k in 0..4usize {
        let i = at.saturating_add(k);
        if !is_hex(byte_at(text, i)) {
            return broken(i, Expected::Escape);
        }
    }
    Ok(at.saturating_add(4))
}

// Whether the four digits are those of a surrogate, the second of a pair or the first.
fn is_surrogate(text: &[u8], digits: usize, second: bool) -> bool {
    let nibble = byte_at(text, digits.saturating_add(1));
    let is_second = matches!(nibble, b'c'..=b'f' | b'C'..=b'F');
    matches!(byte_at(text, digits), b'd' | b'D')
        && matches!(nibble, b'8'..=b'9' | b'a'..=b'f' | b'A'..=b'F')
        && is_second == second
}

// Returns the index behind the escape whose backslash stands at `at`.
fn escape_end(text: &[u8], at: usize) -> Result<usize, Break> {
    let letter = at.saturating_add(1);
    match byte_at(text, letter) {
        b'"' | b'\\' | b'/' | b'b' | b'f' | b'n' | b'r' | b't' => Ok(at.saturating_add(2)),
        b'u' => {
            let digits = at.saturating_add(2);
            let end = hex_end(text, digits)?;
            if is_surrogate(text, digits, true) {
                return broken(at, Expected::Surrogate);
            }
            if !is_surrogate(text, digits, false) {
                return Ok(end);
            }
            let other = end.saturating_add(2);
            if byte_at(text, end) != b'\\' || byte_at(text, end.saturating_add(1)) != b'u' {
                return broken(end, Expected::Surrogate);
            }
            let end_of_pair = hex_end(text, other)?;
            if !is_surrogate(text, other, true) {
                return broken(end, Expected::Surrogate);
            }
            Ok(end_of_pair)
        }
        _ => broken(letter, Expected::Escape),
    }
}

// Returns the index behind the string whose opening quote stands at `at`.
fn string_end(text: &[u8], at: usize) -> Result<usize, Break> {
    let mut i = at.saturating_add(1);
    for _ in 0..text.len() {
        if i >= text.len() {
            break;
        }
        match byte_at(text, i) {
            b'"' => return Ok(i.saturating_add(1)),
            b'\\' => i = escape_end(text, i)?,
            byte => {
                if byte < 32 {
                    return broken(i, Expected::EscapedControl);
                }
                i = i.saturating_add(1);
            }
        }
    }
    broken(i, Expected::Quote)
}

// Returns the index behind the digits that stand at `at`, of which there has to be one.
fn digits_end(text: &[u8], at: usize) -> Result<usize, Break> {
    if !byte_at(text, at).is_ascii_digit() {
        return broken(at, Expected::Digit);
    }
    let mut i = at;
    for _ in 0..text.len() {
        if !byte_at(text, i).is_ascii_digit() {
            break;
        }
        i = i.saturating_add(1);
    }
    Ok(i)
}

// Returns the index behind the number that stands at `at`.
fn number_end(text: &[u8], at: usize) -> Result<usize, Break> {
    let mut i = at;
    if byte_at(text, i) == b'-' {
        i = i.saturating_add(1);
    }
    // A zero stands alone before the fraction.
    i = if byte_at(text, i) == b'0' {
        i.saturating_add(1)
    } else {
        digits_end(text, i)?
    };
    if byte_at(text, i) == b'.' {
        i = digits_end(text, i.saturating_add(1))?;
    }
    if matches!(byte_at(text, i), b'e' | b'E') {
        i = i.saturating_add(1);
        if matches!(byte_at(text, i), b'+' | b'-') {
            i = i.saturating_add(1);
        }
        i = digits_end(text, i)?;
    }
    Ok(i)
}

// Returns the index behind a literal that stands at `at`.
fn literal_end(text: &[u8], at: usize, literal: &[u8]) -> Result<usize, Break> {
    for k in 0..literal.len() {
        let i = at.saturating_add(k);
        if byte_at(text, i) != literal[k] {
            return broken(i, Expected::Literal);
        }
    }
    Ok(at.saturating_add(literal.len()))
}

// Returns the index behind the scalar that stands at `at`.
fn scalar_end(text: &[u8], at: usize) -> Result<usize, Break> {
    match byte_at(text, at) {
        b'"' => string_end(text, at),
        b't' => literal_end(text, at, b"true"),
        b'f' => literal_end(text, at, b"false"),
        b'n' => literal_end(text, at, b"null"),
        b'-' | b'0'..=b'9' => number_end(text, at),
        _ => broken(at, Expected::Value),
    }
}

// A walk over a text: the brackets that close what is open, and what may come next.
#[derive(Drop)]
struct Walk {
    closers: Vec<u8>,
    next: Next,
}

impl Walk {
    // Opens an array or object. Returns whether no more may be open than are.
    fn opens(&mut self, closer: u8, next: Next) -> Result<bool, AllocError> {
        self.closers.push(closer)?;
        self.next = next;
        Ok(self.closers.len() <= MAX_OPEN)
    }

    // Ends the innermost array or object, if this is its bracket.
    fn ends(&mut self, byte: u8) -> bool {
        let Some(closer) = self.closers.last() else {
            return false;
        };
        if *closer != byte {
            return false;
        }
        self.closers.pop();
        self.next = Next::CommaOrEnd;
        true
    }

    // Takes a value at `at`, or its opening bracket.
    fn value(&mut self, text: &[u8], at: usize) -> Result<Result<usize, Break>, AllocError> {
        let (closer, next) = match byte_at(text, at) {
            b'{' => (b'}', Next::KeyOrEnd),
            b'[' => (b']', Next::ValueOrEnd),
            _ => {
                self.next = Next::CommaOrEnd;
                return Ok(scalar_end(text, at));
            }
        };
        if !self.opens(closer, next)? {
            return Ok(broken(at, Expected::LessNesting));
        }
        Ok(Ok(at.saturating_add(1)))
    }

    // Takes a comma, or the bracket that ends the innermost array or object.
    fn comma_or_end(&mut self, byte: u8, at: usize) -> Result<usize, Break> {
        if self.closers.is_empty() {
            return broken(at, Expected::End);
        }
        if byte == b',' {
            self.next = match self.closers.last() {
                Some(b'}') => Next::Key,
                _ => Next::Value,
            };
        } else if !self.ends(byte) {
            return broken(at, Expected::CommaOrEnd);
        }
        Ok(at.saturating_add(1))
    }

    // Takes what stands at `at`, which is no white space.
    fn step(&mut self, text: &[u8], at: usize) -> Result<Result<usize, Break>, AllocError> {
        let byte = byte_at(text, at);
        let may_end = matches!(self.next, Next::ValueOrEnd | Next::KeyOrEnd);
        if may_end && self.ends(byte) {
            return Ok(Ok(at.saturating_add(1)));
        }
        match self.next {
            Next::Value | Next::ValueOrEnd => self.value(text, at),
            Next::Key | Next::KeyOrEnd => {
                if byte != b'"' {
                    return Ok(broken(at, Expected::Key));
                }
                self.next = Next::Colon;
                Ok(string_end(text, at))
            }
            Next::Colon => {
                if byte != b':' {
                    return Ok(broken(at, Expected::Colon));
                }
                self.next = Next::Value;
                Ok(Ok(at.saturating_add(1)))
            }
            Next::CommaOrEnd => Ok(self.comma_or_end(byte, at)),
        }
    }
}

/// Returns where a text stops being one JSON text; `None` if it doesn't.
///
/// # Errors
///
/// `AllocError` if an allocation fails.
pub fn broken_at(alloc: Global, text: &[u8]) -> Result<Option<Break>, AllocError> {
    if let Err(error) = str::from_utf8(text) {
        return Ok(Some(Break {
            at: error.valid_up_to(),
            expected: Expected::Utf8,
        }));
    }
    let mut walk = Walk {
        closers: Vec::new(alloc),
        next: Next::Value,
    };
    let mut i = 0;
    for _ in 0..=text.len() {
        i = space_end(text, i);
        if i >= text.len() && walk.next == Next::CommaOrEnd && walk.closers.is_empty() {
            return Ok(None);
        }
        match walk.step(text, i)? {
            Ok(end) => i = end,
            Err(found) => return Ok(Some(found)),
        }
    }
    Ok(None)
}
