//! Whole numbers as texts.

ghost use Rattle.std.specs.Prelude.{◌≡◌, ◌≤◌};
ghost use Rattle.std.specs.Result.{result_ok};
ghost use Rattle.sentry_text.specs.Number.{number_of};

use thiserror::Error;

/// The error of a text that is not a whole number in the expected form, or has more than 64 bits.
#[derive(Debug, Drop, Error)]
#[error("ParseNumberError")]
pub struct ParseNumberError;

/// Parses a whole number in base `base`, with an optional `+` before the digits.
///
/// # Errors
///
/// `ParseNumberError` if the text is no such number or the number has more than 64 bits.
#[tactic(auto, using(crate::proofs::NumberTexts::numeral_read, crate::proofs::NumberTexts::not_numeral))]
pub fn parse_number(text: &str, base: u32) -> Result<u64, ParseNumberError>
    requires low { 2 ≤ base }
    requires high { base ≤ 16 }
    ensures { result_ok result ≡ number_of base text.now }
{
    u64::from_str_radix(text, base).map_err(|_| ParseNumberError)
}
