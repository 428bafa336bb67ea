//! The random value (`sample_rand`) that sampling decisions of a trace are made with.

ghost use Rattle.std.specs.Prelude.{◌≡◌, ◌^◌, ◌<◌, ◌↔◌, IsOk, IfOk, IfErr, Some};
ghost use Rattle.sentry_moments.specs.SampleRand.{millionths as millionths_of, sample_rand_text};

use crate::decimal::{self, DecimalError};
use sentry_tables::spelled::print_into;
use sentry_tables::{AsText, Formed, Room, Spelled, TreeError, Way};
use std::alloc::{AllocError, Global};
use std::fmt;
use std::str::FromStr;
use thiserror::Error;

/// The random value (`sample_rand`) of a trace, drawn once when the trace begins: from 0 to below
/// 1, in billionths.
///
/// Printed with six decimal places, rounded half to even, and at most `0.999999`.
///
/// <https://develop.sentry.dev/sdk/telemetry/traces/#propagated-random-value>
#[derive(Clone, Copy, Debug, PartialEq)]
pub struct SampleRand {
    billionths: u64,
    pub ghost below_one: { billionths < 10 ^ 9 },
}

/// An error of making a [`SampleRand`].
#[derive(Debug, Drop, Error)]
pub enum InvalidSampleRandError {
    /// The text is no decimal.
    #[error("failed to parse f64")]
    InvalidFloat,
    /// The value is below 0, or 1 or more.
    #[error("sample rand value out of admissible interval [0.0, 1.0)")]
    OutOfRange,
}

impl From<DecimalError> for InvalidSampleRandError {
    ghost use Rattle.sentry_moments.specs.SampleRandReading.{sample_rand_error};

    ghost from_gives = { λ error e. e ≡ sample_rand_error error };

    /// Converts `InvalidText` to `InvalidFloat`, and `OutOfRange` to `OutOfRange`.
    fn from(error: DecimalError) -> InvalidSampleRandError {
        match error {
            DecimalError::InvalidText => InvalidSampleRandError::InvalidFloat,
            DecimalError::OutOfRange => InvalidSampleRandError::OutOfRange,
        }
    }
}

impl SampleRand {
    /// Returns the value of a number of billionths.
    ///
    /// # Errors
    ///
    /// `OutOfRange` if `billionths` is 10^9 or more.
    pub fn from_billionths(billionths: u64) -> Result<SampleRand, InvalidSampleRandError>
        ensures exactly { IsOk result ↔ (billionths < 10 ^ 9) }
        ensures same { IfOk result (λ r. r.billionths ≡ billionths) }
        ensures err { IfErr result (λ e. e ≡ InvalidSampleRandError.OutOfRange) }
    {
        if billionths < 1_000_000_000 {
            Ok(SampleRand { billionths })
        } else {
            Err(InvalidSampleRandError::OutOfRange)
        }
    }

    /// Returns the value in billionths; below 10^9.
    pub fn billionths(&self) -> u64
        ensures { result ≡ self.now.billionths }
    {
        self.billionths
    }
}

impl FromStr for SampleRand {
    type Err = InvalidSampleRandError;

    ghost use Rattle.sentry_moments.specs.SampleRandReading.{ReadsSampleRand};

    ghost from_str_gives = { λ text r. ReadsSampleRand text r };

    /// Parses a decimal text: an optional sign, digits with an optional point, and an optional
    /// exponent of one to three digits. Places past the ninth are truncated. Doesn't allocate.
    ///
    /// # Errors
    ///
    /// - `InvalidFloat` if the text is no decimal of this form.
    /// - `OutOfRange` if the value is below 0 before truncation, or is 1 or more.
    fn from_str(text: &str) -> Result<SampleRand, InvalidSampleRandError> {
        let billionths = decimal::read(text, 1_000_000_000)?;
        Ok(SampleRand {
            billionths: billionths as u64,
        })
    }
}

// Rounds to millionths, half to even, and to at most 999_999.
fn millionths(billionths: u64) -> u64
    requires { billionths < 10 ^ 9 }
    ensures value { result ≡ millionths_of billionths }
    ensures bound { result < 10 ^ 6 }
{
    let (whole, part) = (billionths / 1_000, billionths % 1_000);
    let up = part > 500 || part == 500 && whole % 2 == 1;
    (whole + u64::from(up)).min(999_999)
}

#[tactic(auto, using(crate::proofs::Padding::padded_digits))]
impl fmt::Display for SampleRand {
    ghost output = { λ r. Some (sample_rand_text r.billionths) };

    fn fmt<W: fmt::Write>(&self, f: &mut fmt::Formatter<W>) -> fmt::Result {
        let millionths = millionths(self.billionths);
        write!(f, "0.{millionths:06}")
    }
}

impl Formed for SampleRand {
    type Form = AsText;
}

impl Spelled for SampleRand {
    ghost use Rattle.sentry_moments.specs.SamplingTexts.{sample_rand_cell, sample_rand_spelling};

    ghost spelling = { sample_rand_spelling };

    ghost cell_of = { sample_rand_cell };

    #[tactic(auto, using(crate::proofs::SamplingSpellings::not_sample_rand))]
    fn of_text(_alloc: Global, text: &str) -> Result<SampleRand, TreeError> {
        text.parse().map_err(|_| TreeError::Misfit)
    }

    #[tactic(auto, using(crate::proofs::Lengths::sample_rand_fits))]
    fn text<'a>(&'a self, room: &'a mut Room) -> Result<&'a str, AllocError> {
        print_into(self, room)
    }

    #[tactic(auto, using(sentry_tables::proofs::Ways::made_same, sentry_tables::proofs::Ways::made_normal))]
    fn respell(&self, way: Way) -> Result<SampleRand, AllocError> {
        match way {
            Way::Same => Ok(*self),
            Way::Normal(_) => Ok(SampleRand {
                billionths: 1_000 * millionths(self.billionths),
            }),
        }
    }

    fn hold(&self) {}
}
