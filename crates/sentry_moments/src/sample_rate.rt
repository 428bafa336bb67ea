//! The rate (`sample_rate`) at which traces are sampled.

ghost use Rattle.std.specs.Prelude.{◌/◌, ◌%◌, ◌^◌, Some};
ghost use Rattle.sentry_moments.specs.Decimal.{decimal_text};
ghost use Rattle.sentry_moments.specs.SampleRate.{ReadsSampleRate};

use crate::decimal::{self, Decimal, DecimalError};
use sentry_tables::spelled::print_into;
use sentry_tables::{AsText, Formed, Room, Spelled, TreeError, Way};
use std::alloc::{AllocError, Global};
use std::fmt;
use std::str::FromStr;

/// A sample rate in billionths, printed as in dynamic sampling contexts: `1`, `0.00000021`.
///
/// The whole range of `u64` is parsed and printed, also rates above 1.
#[derive(Clone, Copy, Debug, PartialEq, Eq)]
pub struct SampleRate(pub u64);

impl FromStr for SampleRate {
    type Err = DecimalError;

    ghost from_str_gives = { λ text r. ReadsSampleRate text r };

    /// Parses a decimal text: an optional sign, digits with an optional point, and an optional
    /// exponent of one to three digits. Places past the ninth are truncated. Doesn't allocate.
    ///
    /// # Errors
    ///
    /// - `InvalidText` if the text is no decimal of this form.
    /// - `OutOfRange` if the value is below 0 before truncation, or is 2^64 billionths or more.
    fn from_str(text: &str) -> Result<SampleRate, DecimalError> {
        let billionths = decimal::read(text, 1 << 64)?;
        Ok(SampleRate(billionths as u64))
    }
}

impl fmt::Display for SampleRate {
    ghost output = { λ r. Some (decimal_text (r.0 / 10 ^ 9) (r.0 % 10 ^ 9)) };

    fn fmt<W: fmt::Write>(&self, f: &mut fmt::Formatter<W>) -> fmt::Result {
        let rate = Decimal {
            whole: self.0 / 1_000_000_000,
            billionths: (self.0 % 1_000_000_000) as u32,
        };
        write!(f, "{rate}")
    }
}

impl Formed for SampleRate {
    type Form = AsText;
}

impl Spelled for SampleRate {
    ghost use Rattle.sentry_moments.specs.SamplingTexts.{sample_rate_cell, sample_rate_spelling};

    ghost spelling = { sample_rate_spelling };

    ghost cell_of = { sample_rate_cell };

    #[tactic(auto, using(crate::proofs::SamplingSpellings::not_sample_rate))]
    fn of_text(_alloc: Global, text: &str) -> Result<SampleRate, TreeError> {
        text.parse().map_err(|_| TreeError::Misfit)
    }

    #[tactic(auto, using(crate::proofs::Lengths::rate_fits))]
    fn text<'a>(&'a self, room: &'a mut Room) -> Result<&'a str, AllocError> {
        let _billionths = self.0;
        print_into(self, room)
    }

    #[tactic(auto, using(sentry_tables::proofs::Ways::unchanged))]
    fn respell(&self, _way: Way) -> Result<SampleRate, AllocError> {
        Ok(*self)
    }

    fn hold(&self) {
        let _billionths = self.0;
    }
}
