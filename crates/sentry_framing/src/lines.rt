//! Lines and white space.
ghost use Rattle.std.specs.Prelude.{◌≡◌, ◌++◌, ◌∷◌, [], List, ℕ, IfOk, IfErr, false};
ghost use Rattle.sentry_json.specs.Line.{HasNoNewline};
ghost use Rattle.sentry_framing.specs.Framing.{IsBlank, EndsLine, GoesOn, is_space};

use crate::error::EnvelopeError;
use memchr::memchr;

fn is_space(byte: u8) -> bool
    ensures { result ≡ is_space byte }
{
    matches!(byte, b' ' | b'\t' | b'\n' | b'\r')
}

/// Returns the bytes after the white space at the front.
pub fn skip_space(bytes: &[u8]) -> &[u8]
    ensures skipped { (space : List ℕ) × IsBlank space × (bytes.now ≡ space ++ result.now) }
    ensures all { (b : ℕ) (more : List ℕ) → result.now ≡ b ∷ more → is_space b ≡ false }
{
    for (i, byte) in bytes.iter().enumerate() {
        if !is_space(*byte) {
            return &bytes[i..];
        }
    }
    &[]
}

// Splits the bytes at the first line feed, which the second part begins with, or at the end.
pub(crate) fn split_line(bytes: &[u8]) -> (&[u8], &[u8])
    ensures parts { bytes.now ≡ result.0.now ++ result.1.now }
    ensures line { HasNoNewline result.0.now }
    ensures ends { (next : List ℕ) × EndsLine result.1.now next }
{
    bytes.split_at(memchr(b'\n', bytes).unwrap_or(bytes.len()))
}

// Returns the bytes after the line feed at the front; none at the end. `MissingNewline` if the
// first byte isn't a line feed.
pub(crate) fn end_line(bytes: &[u8]) -> Result<&[u8], EnvelopeError>
    ensures found { IfOk result (λ next. EndsLine bytes.now next.now) }
    ensures missing { IfErr result (λ e. (e ≡ EnvelopeError.MissingNewline) × GoesOn bytes.now) }
{
    match bytes.split_first() {
        None => Ok(bytes),
        Some((b'\n', next)) => Ok(next),
        Some(_) => Err(EnvelopeError::MissingNewline),
    }
}
