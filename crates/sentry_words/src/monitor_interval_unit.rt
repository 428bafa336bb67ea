//! Units of monitors' intervals.

ghost use Rattle.std.specs.Prelude.{◌≡◌};
ghost use Rattle.std.specs.Result.{result_ok};
ghost use Rattle.sentry_words.specs.MonitorIntervalUnit.{interval_unit_word, interval_unit_of};

use crate::parse_word_error::ParseWordError;
use sentry_tables::Word;
use std::str::FromStr;

/// Unit of a monitor's interval schedule.
///
/// <https://develop.sentry.dev/sdk/telemetry/check-ins/>
#[derive(Clone, Copy, Debug, PartialEq)]
pub enum MonitorIntervalUnit {
    /// Year: `year`.
    Year,
    /// Month: `month`.
    Month,
    /// Week: `week`.
    Week,
    /// Day: `day`.
    Day,
    /// Hour: `hour`.
    Hour,
    /// Minute: `minute`.
    Minute,
}

impl MonitorIntervalUnit {
    /// Returns the word in payloads, such as `hour`.
    pub fn as_str(&self) -> &'static str
        ensures { result.now ≡ interval_unit_word self.now }
    {
        match self {
            MonitorIntervalUnit::Year => "year",
            MonitorIntervalUnit::Month => "month",
            MonitorIntervalUnit::Week => "week",
            MonitorIntervalUnit::Day => "day",
            MonitorIntervalUnit::Hour => "hour",
            MonitorIntervalUnit::Minute => "minute",
        }
    }
}

impl FromStr for MonitorIntervalUnit {
    type Err = ParseWordError;

    ghost from_str_gives = { λ text r. result_ok r ≡ interval_unit_of text };

    /// Parses an interval unit.
    ///
    /// # Errors
    ///
    /// `ParseWordError` if the text is not a known unit, in lower case.
    fn from_str(text: &str) -> Result<MonitorIntervalUnit, ParseWordError> {
        match text {
            "year" => Ok(MonitorIntervalUnit::Year),
            "month" => Ok(MonitorIntervalUnit::Month),
            "week" => Ok(MonitorIntervalUnit::Week),
            "day" => Ok(MonitorIntervalUnit::Day),
            "hour" => Ok(MonitorIntervalUnit::Hour),
            "minute" => Ok(MonitorIntervalUnit::Minute),
            _ => Err(ParseWordError),
        }
    }
}

impl Word for MonitorIntervalUnit {
    ghost word = { interval_unit_word };

    ghost of_word = { interval_unit_of };

    fn word(&self) -> &'static str {
        self.as_str()
    }

    fn of_word(text: &str) -> Option<MonitorIntervalUnit> {
        text.parse().ok()
    }

    ghost copies = { λ value copy same. same };
}
