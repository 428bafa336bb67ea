//! Types of metrics.

ghost use Rattle.std.specs.Prelude.{◌≡◌};
ghost use Rattle.std.specs.Result.{result_ok};
ghost use Rattle.sentry_words.specs.MetricType.{metric_type_word, metric_type_of};

use crate::parse_word_error::ParseWordError;
use sentry_tables::Word;
use std::str::FromStr;

/// Type of a metric.
///
/// <https://develop.sentry.dev/sdk/telemetry/metrics/>
#[derive(Clone, Copy, Debug, PartialEq)]
pub enum MetricType {
    /// Count of occurrences: `counter`.
    Counter,
    /// Value that rises and falls: `gauge`.
    Gauge,
    /// Statistical distribution of values: `distribution`.
    Distribution,
}

impl MetricType {
    /// Returns the word in payloads, such as `counter`.
    pub fn as_str(&self) -> &'static str
        ensures { result.now ≡ metric_type_word self.now }
    {
        match self {
            MetricType::Counter => "counter",
            MetricType::Gauge => "gauge",
            MetricType::Distribution => "distribution",
        }
    }
}

impl FromStr for MetricType {
    type Err = ParseWordError;

    ghost from_str_gives = { λ text r. result_ok r ≡ metric_type_of text };

    /// Parses a metric type.
    ///
    /// # Errors
    ///
    /// `ParseWordError` if the text is not a known type, in lower case.
    fn from_str(text: &str) -> Result<MetricType, ParseWordError> {
        match text {
            "counter" => Ok(MetricType::Counter),
            "gauge" => Ok(MetricType::Gauge),
            "distribution" => Ok(MetricType::Distribution),
            _ => Err(ParseWordError),
        }
    }
}

impl Word for MetricType {
    ghost word = { metric_type_word };

    ghost of_word = { metric_type_of };

    fn word(&self) -> &'static str {
        self.as_str()
    }

    fn of_word(text: &str) -> Option<MetricType> {
        text.parse().ok()
    }

    ghost copies = { λ value copy same. same };
}
