//! Decimal texts: an optional sign, digits with an optional point, and an optional exponent of one
//! to three digits. Values are exact in billionths; smaller parts are truncated.

ghost use Rattle.std.specs.Prelude.{◌≡◌, ◌+◌, ◌*◌, ◌^◌, ◌<◌, ◌≤◌, ◌++◌, ◌&&◌, nat_lt, min, length, IfSome, Some};
ghost use Rattle.std.specs.Str.Parse.{AllDigits, digits_value};
ghost use Rattle.sentry_moments.specs.Decimal.{ReadsDecimal, billionths as billionths_of, decimal_text};
ghost use Rattle.sentry_moments.specs.DecimalScan as spec;
ghost use Rattle.sentry_moments.specs.Digits.{front_digits, after_digits};

use crate::digits::split_digits;
use crate::fraction::Fraction;
use std::fmt;
use thiserror::Error;

/// An error of parsing a decimal text.
#[derive(Debug, Drop, Error)]
pub enum DecimalError {
    /// The text isn't an optional sign, digits with an optional point, and an optional exponent of
    /// one to three digits.
    #[error("InvalidText")]
    InvalidText,
    /// The value is below 0, or too large for the type.
    #[error("OutOfRange")]
    OutOfRange,
}

// Values saturate at this bound; no reader accepts a value this high.
pub(crate) const LIMIT: u128 = 1_000_000_000_000_000_000_000_000_000_000;

// Appends a digit, saturating at `LIMIT`.
fn with_digit(value: u128, digit: u8) -> u128
    requires value_in { value ≤ LIMIT }
    requires digit_in { digit < 10 }
    ensures value { result ≡ min (value * 10 + digit) LIMIT }
    ensures bound { result ≤ LIMIT }
{
    (value * 10 + u128::from(digit)).min(LIMIT)
}

// Appends digits, saturating at `LIMIT`.
fn with_digits(value: u128, digits: &[u8]) -> u128
    requires value_in { value ≤ LIMIT }
    requires are_digits { AllDigits 10 digits.now }
    ensures value { result ≡
        min (value * 10 ^ length digits.now + digits_value 10 digits.now) LIMIT }
    ensures bound { result ≤ LIMIT }
{
    let mut sum = value;
    for digit in digits {
        sum = with_digit(sum, digit - b'0');
    }
    sum
}

// Appends `count` zeros, saturating at `LIMIT`.
fn with_zeros(value: u128, count: usize) -> u128
    requires value_in { value ≤ LIMIT }
    ensures value { result ≡ min (value * 10 ^ count) LIMIT }
    ensures bound { result ≤ LIMIT }
{
    let mut product = value;
    for _ in 0..count {
        product = with_digit(product, 0);
    }
    product
}

// Returns the digits around a point times a power of ten, in billionths: truncated, and saturating
// at `LIMIT`. The exponent is negative if `down` is set.
fn billionths(whole: &[u8], fraction: &[u8], down: bool, exponent: u16) -> u128
    requires whole_digits { AllDigits 10 whole.now }
    requires fraction_digits { AllDigits 10 fraction.now }
    requires exponent_in { exponent < 1000 }
    ensures { result ≡
        min (billionths_of (digits_value 10 (whole.now ++ fraction.now))
        (length fraction.now) down exponent) LIMIT }
{
    let places = whole.len() + 9;
    let shift = usize::from(exponent);
    let kept = if down {
        places.saturating_sub(shift)
    } else {
        places + shift
    };
    let whole_kept = whole.len().min(kept);
    let fraction_kept = fraction.len().min(kept - whole_kept);
    let value = with_digits(0, &whole[..whole_kept]);
    let value = with_digits(value, &fraction[..fraction_kept]);
    with_zeros(value, kept - whole_kept - fraction_kept)
}

// Whether the text begins with `-`.
#[tactic(auto, unfolding(crate::specs::DecimalScan::is_minus))]
fn is_minus(text: &[u8]) -> bool
    ensures { result ≡ spec.is_minus text.now }
{
    matches!(text, [b'-', ..])
}

// Skips a leading `+` or `-`.
#[tactic(auto, unfolding(crate::specs::DecimalScan::unsigned))]
fn skip_sign(text: &[u8]) -> &[u8]
    ensures { result.now ≡ spec.unsigned text.now }
{
    match text {
        [b'+' | b'-', rest @ ..] => rest,
        _ => text,
    }
}

// Returns the digits after a leading point, and the rest. Without a leading point: no digits, and
// the whole text.
#[tactic(auto, unfolding(crate::specs::DecimalScan::places, crate::specs::DecimalScan::after_places))]
fn split_places(text: &[u8]) -> (&[u8], &[u8])
    ensures front { result.0.now ≡ spec.places text.now }
    ensures rest { result.1.now ≡ spec.after_places text.now }
    ensures are_digits { AllDigits 10 result.0.now }
{
    match text {
        [b'.', rest @ ..] => split_digits(rest),
        _ => (&[], text),
    }
}

// Parses a text of one to three digits.
#[tactic(auto, unfolding(crate::specs::DecimalScan::short_number))]
fn short_number(text: &[u8]) -> Option<u16>
    ensures value { result ≡ spec.short_number text.now }
    ensures bound { IfSome result (λ x. x < 1000) }
{
    let (digits, rest) = split_digits(text);
    if digits.is_empty() || digits.len() > 3 || !rest.is_empty() {
        return None;
    }
    Some(with_digits(0, digits) as u16)
}

// Parses an exponent up to the end of the text: whether it is negative, and its absolute value. An
// empty text is the exponent 0.
#[tactic(auto, unfolding(crate::specs::DecimalScan::exponent))]
fn exponent(text: &[u8]) -> Option<(bool, u16)>
    ensures value { result ≡ spec.exponent text.now }
    ensures bound { IfSome result (λ p. p.1 < 1000) }
{
    match text {
        [] => Some((false, 0)),
        [b'E' | b'e', rest @ ..] => Some((is_minus(rest), short_number(skip_sign(rest))?)),
        _ => None,
    }
}

// Skips the sign; returns the digits before the point, the digits after the point, and the rest.
fn split(text: &[u8]) -> (&[u8], &[u8], &[u8])
    ensures whole { result.0.now ≡ front_digits (spec.unsigned text.now) }
    ensures fraction { result.1.now ≡ spec.places (after_digits (spec.unsigned text.now)) }
    ensures rest { result.2.now ≡ spec.after_places (after_digits (spec.unsigned text.now)) }
    ensures whole_digits { AllDigits 10 result.0.now }
    ensures fraction_digits { AllDigits 10 result.1.now }
{
    let (whole, rest) = split_digits(skip_sign(text));
    let (fraction, rest) = split_places(rest);
    (whole, fraction, rest)
}

// Whether the number is negative; `-0` isn't.
fn is_below_zero(negative: bool, whole: &[u8], fraction: &[u8]) -> bool
    requires whole_digits { AllDigits 10 whole.now }
    requires fraction_digits { AllDigits 10 fraction.now }
    ensures { result ≡ (negative && nat_lt 0 (digits_value 10 (whole.now ++ fraction.now))) }
{
    negative && (with_digits(0, whole) > 0 || with_digits(0, fraction) > 0)
}

// Parses a decimal text to billionths, truncated. `InvalidText` if the text is no decimal;
// `OutOfRange` if the value is below 0, or is `limit` billionths or more.
pub(crate) fn read(text: &str, limit: u128) -> Result<u128, DecimalError>
    requires { limit ≤ LIMIT }
    ensures { ReadsDecimal limit text.now result }
{
    let bytes = text.as_bytes();
    let (whole, fraction, rest) = split(bytes);
    if whole.len() + fraction.len() == 0 {
        return Err(DecimalError::InvalidText);
    }
    let Some((down, exponent)) = exponent(rest) else {
        return Err(DecimalError::InvalidText);
    };
    if is_below_zero(is_minus(bytes), whole, fraction) {
        return Err(DecimalError::OutOfRange);
    }
    let value = billionths(whole, fraction, down, exponent);
    if value < limit {
        Ok(value)
    } else {
        Err(DecimalError::OutOfRange)
    }
}

/// A decimal of at most nine places, printed without trailing zeros: `1`, `1.5`, `0.00000021`.
///
/// The seconds of moments and sample rates are printed in this form.
#[derive(Clone, Copy, Debug, PartialEq, Eq)]
pub struct Decimal {
    /// Whole units.
    pub whole: u64,
    /// Billionths of a unit; below 10^9.
    pub billionths: u32,
    pub ghost small: { billionths < 10 ^ 9 },
}

impl fmt::Display for Decimal {
    ghost output = { λ d. Some (decimal_text d.whole d.billionths) };

    fn fmt<W: fmt::Write>(&self, f: &mut fmt::Formatter<W>) -> fmt::Result {
        let (whole, fraction) = (
            self.whole,
            Fraction {
                billionths: self.billionths,
            },
        );
        write!(f, "{whole}{fraction}")
    }
}
