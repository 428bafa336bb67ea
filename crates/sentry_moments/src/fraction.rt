//! Decimal fractions of at most nine places, printed without trailing zeros.

ghost use Rattle.std.specs.Prelude.{◌≡◌, ◌≤◌, ◌<◌, ◌^◌, ◌∷◌, ◌+◌, length, take, Some};
ghost use Rattle.sentry_moments.specs.Characters.{full_stop};
ghost use Rattle.sentry_moments.specs.Digits.{digits, digits_without_closing_zeros, fraction_text};

use crate::digits::last_digit;
use std::{fmt, str};

// A fraction in billionths, printed as a point and places without trailing zeros; 0 prints nothing.
#[derive(Drop)]
pub(crate) struct Fraction {
    pub(crate) billionths: u32,
    pub ghost small: { billionths < 10 ^ 9 },
}

// Returns three, six or nine places, the fewest that hold all that are not 0, as a number, and
// their count: clocks mostly tell milliseconds or microseconds.
fn in_thousands(billionths: u32) -> (u32, usize)
    requires some { 0 < billionths }
    requires small { billionths < 10 ^ 9 }
    ensures same { digits_without_closing_zeros result.1 result.0
        ≡ digits_without_closing_zeros 9 billionths }
    ensures some { 0 < result.0 }
    ensures small { result.0 < 10 ^ result.1 }
    ensures within { result.1 ≤ 9 }
{
    if billionths % 1_000 != 0 {
        return (billionths, 9);
    }
    let millionths = billionths / 1_000;
    if millionths % 1_000 != 0 {
        return (millionths, 6);
    }
    (millionths / 1_000, 3)
}

// Returns the places without trailing zeros, as a number, and their count.
fn without_closing_zeros(billionths: u32) -> (u32, usize)
    requires some { 0 < billionths }
    requires small { billionths < 10 ^ 9 }
    ensures same { digits result.1 result.0 ≡ digits_without_closing_zeros 9 billionths }
    ensures within { result.1 ≤ 9 }
{
    let (mut number, mut places) = in_thousands(billionths);
    while number % 10 == 0 {
        number /= 10;
        places -= 1;
    }
    (number, places)
}

// Returns how many places there are without trailing zeros.
#[tactic(auto, using(crate::proofs::Places::cut_length))]
pub(crate) fn places(billionths: u32) -> usize
    requires some { 0 < billionths }
    requires small { billionths < 10 ^ 9 }
    ensures value { result ≡ length (digits_without_closing_zeros 9 billionths) }
    ensures within { result ≤ 9 }
{
    let (_, places) = without_closing_zeros(billionths);
    places
}

// Returns a point and the last `places` digits of a number; what follows them means nothing.
fn point_and_digits(number: u32, places: usize) -> [u8; 10]
    requires { places ≤ 9 }
    ensures { take (1 + places) result ≡ full_stop ∷ digits places number }
{
    let mut text = [b'.'; 10];
    let mut rest = number;
    let mut left = places;
    while left > 0 {
        text[left] = last_digit(rest);
        rest /= 10;
        left -= 1;
    }
    text
}

impl fmt::Display for Fraction {
    ghost output = { λ f. Some (fraction_text f.billionths) };

    fn fmt<W: fmt::Write>(&self, f: &mut fmt::Formatter<W>) -> fmt::Result {
        if self.billionths == 0 {
            return Ok(());
        }
        let (number, places) = without_closing_zeros(self.billionths);
        let text = point_and_digits(number, places);
        f.write_str(str::from_utf8(&text[..1 + places]).map_err(|_| fmt::Error)?)
    }
}
