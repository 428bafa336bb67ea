//! What is left of a line.

ghost use Rattle.std.specs.Prelude.{◌≡◌, ◌<◌, ◌≤◌, ◌++◌, ◌∷◌, ℕ, IfSome, IsUtf8, List, true, length, take};
ghost use Rattle.sentry_json.specs.PlainTexts.{is_plain_text};
ghost use Rattle.sentry_json.specs.Spelled.{IsBehind, IsQuoted, IsSpaced};

use crate::tape::run::run_len;
use std::str;

// Shorter lines, as item headers are, are mostly ASCII, which takes less to see.
const SHORT: usize = 64;

/// What is left of a line, as a text. It is cut without asking again where a character ends: that
/// it ends there is proved.
#[derive(Clone, Copy)]
pub(crate) struct Rest<'a> {
    pub(crate) text: &'a str,
}

impl<'a> Rest<'a> {
    /// Returns the whole line; `None` if it isn't UTF-8.
    pub fn new(line: &'a [u8]) -> Option<Rest<'a>>
        ensures text { IfSome result (λ rest. rest.text.now ≡ line.now) }
        ensures utf8 { IfSome result (λ rest. IsUtf8 line.now) }
    {
        if line.len() < SHORT && line.is_ascii() {
            // SAFETY: ASCII is UTF-8.
            let text = unsafe { str::from_utf8_unchecked(line) };
            return Some(Rest { text });
        }
        let text = simdutf8::basic::from_utf8(line).ok()?;
        Some(Rest { text })
    }

    /// Returns the bytes.
    #[inline(always)]
    pub fn bytes(&self) -> &'a [u8]
        ensures { result.now ≡ self.now.text.now }
    {
        self.text.as_bytes()
    }

    /// Returns what follows a byte of ASCII at the front; `None` if another byte stands there.
    #[inline(always)]
    pub fn after(&self, byte: u8) -> Option<Rest<'a>>
        ensures { IfSome result (λ rest. self.now.text.now ≡ byte ∷ rest.text.now) }
    {
        let (first, rest) = self.text.as_bytes().split_first()?;
        if *first != byte || !byte.is_ascii() {
            return None;
        }
        // SAFETY: what follows a character of a text is a text.
        let text = unsafe { str::from_utf8_unchecked(rest) };
        Some(Rest { text })
    }

    /// Returns what follows the white space at the front.
    #[inline(always)]
    pub fn skip_space(&self) -> Rest<'a>
        ensures spaced { IsSpaced self.now.text.now result.text.now }
        ensures within { length result.text.now ≤ length self.now.text.now }
    {
        match self.after_space() {
            Some(rest) => rest.skip_spaces(),
            None => *self,
        }
    }

    // As `skip_space`, not inlined: clients write few lines with white space.
    #[inline(never)]
    fn skip_spaces(&self) -> Rest<'a>
        ensures spaced { IsSpaced self.now.text.now result.text.now }
        ensures within { length result.text.now ≤ length self.now.text.now }
    {
        let mut rest = *self;
        while let Some(next) = rest.after_space() {
            rest = next;
        }
        rest
    }

    /// Returns what follows a byte of ASCII that white space may stand before; `None` if another
    /// byte stands there.
    #[inline(always)]
    pub fn after_spaced(&self, byte: u8) -> Option<Rest<'a>>
        ensures follows { IfSome result (λ rest. IsBehind byte self.now.text.now rest.text.now) }
        ensures shorter { IfSome result (λ rest.
            length rest.text.now < length self.now.text.now) }
    {
        match self.after(byte) {
            Some(rest) => Some(rest),
            None => self.skip_space().after(byte),
        }
    }

    /// Returns what follows a byte of white space at the front; `None` if another stands there.
    #[inline(always)]
    pub fn after_space(&self) -> Option<Rest<'a>>
        ensures spaced { IfSome result (λ rest. IsSpaced self.now.text.now rest.text.now) }
        ensures shorter { IfSome result (λ rest.
            length rest.text.now < length self.now.text.now) }
    {
        match self.bytes().first()? {
            b' ' => self.after(b' '),
            b'\n' => self.after(b'\n'),
            b'\r' => self.after(b'\r'),
            b'\t' => self.after(b'\t'),
            _ => None,
        }
    }

    /// Splits off the first `len` bytes; `None` if a character doesn't end there.
    #[inline(always)]
    pub fn split(&self, len: usize) -> Option<(&'a str, Rest<'a>)>
        ensures parts { IfSome result (λ x. self.now.text.now ≡ x.0.now ++ x.1.text.now) }
        ensures len { IfSome result (λ x. length x.0.now ≡ len) }
        ensures front { IfSome result (λ x. x.0.now ≡ take len self.now.text.now) }
    {
        let (front, text) = self.text.split_at_checked(len)?;
        Some((front, Rest { text }))
    }

    /// Splits off what stands before the first quote, backslash or control byte.
    #[inline(always)]
    pub fn split_run(&self) -> (&'a str, Rest<'a>)
        ensures parts { self.now.text.now ≡ result.0.now ++ result.1.text.now }
        ensures plain { is_plain_text result.0.now ≡ true }
    {
        let bytes = self.text.as_bytes();
        let (run, rest) = bytes.split_at(run_len(bytes));
        // SAFETY: a run ends with the text, or before a byte of ASCII.
        let (run, text) = unsafe {
            (
                str::from_utf8_unchecked(run),
                str::from_utf8_unchecked(rest),
            )
        };
        (run, Rest { text })
    }

    /// Splits off a string without escapes, whose quotes are left out; `None` if none stands there.
    #[inline(always)]
    pub fn split_plain(&self) -> Option<(&'a str, Rest<'a>)>
        ensures quoted { IfSome result (λ x. (inside : List ℕ)
            × (self.now.text.now ≡ 34 ∷ inside) × IsQuoted inside x.0.now x.1.text.now) }
        ensures shorter { IfSome result (λ x. length x.1.text.now < length self.now.text.now) }
    {
        let (text, stop) = self.after(b'"')?.split_run();
        let rest = stop.after(b'"')?;
        Some((text, rest))
    }

    /// Returns what follows a word at the front; `None` if another stands there.
    #[inline]
    pub fn after_word(&self, word: &str) -> Option<Rest<'a>>
        ensures { IfSome result (λ rest. self.now.text.now ≡ word.now ++ rest.text.now) }
    {
        let (front, rest) = self.split(word.len())?;
        (front == word).then_some(rest)
    }
}
