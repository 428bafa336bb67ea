//! Severity levels of logs.

ghost use Rattle.std.specs.Prelude.{◌≡◌};
ghost use Rattle.std.specs.Result.{result_ok};
ghost use Rattle.sentry_words.specs.LogLevel.{log_level_word, log_level_of};

use crate::parse_word_error::ParseWordError;
use sentry_tables::Word;
use std::str::FromStr;

/// Severity of a log.
///
/// <https://develop.sentry.dev/sdk/telemetry/logs/#log-severity-level>
#[derive(Clone, Copy, Debug, PartialEq)]
pub enum LogLevel {
    /// Fine-grained tracing: `trace`.
    Trace,
    /// Debugging: `debug`.
    Debug,
    /// Information: `info`.
    Info,
    /// Warning: `warn`.
    Warn,
    /// Error: `error`.
    Error,
    /// Fatal error, usually a crash: `fatal`.
    Fatal,
}

impl LogLevel {
    /// Returns the word in payloads, such as `info`.
    pub fn as_str(&self) -> &'static str
        ensures { result.now ≡ log_level_word self.now }
    {
        match self {
            LogLevel::Trace => "trace",
            LogLevel::Debug => "debug",
            LogLevel::Info => "info",
            LogLevel::Warn => "warn",
            LogLevel::Error => "error",
            LogLevel::Fatal => "fatal",
        }
    }
}

impl FromStr for LogLevel {
    type Err = ParseWordError;

    ghost from_str_gives = { λ text r. result_ok r ≡ log_level_of text };

    /// Parses a log level.
    ///
    /// # Errors
    ///
    /// `ParseWordError` if the text is not a known level, in lower case.
    fn from_str(text: &str) -> Result<LogLevel, ParseWordError> {
        match text {
            "trace" => Ok(LogLevel::Trace),
            "debug" => Ok(LogLevel::Debug),
            "info" => Ok(LogLevel::Info),
            "warn" => Ok(LogLevel::Warn),
            "error" => Ok(LogLevel::Error),
            "fatal" => Ok(LogLevel::Fatal),
            _ => Err(ParseWordError),
        }
    }
}

impl Word for LogLevel {
    ghost word = { log_level_word };

    ghost of_word = { log_level_of };

    fn word(&self) -> &'static str {
        self.as_str()
    }

    fn of_word(text: &str) -> Option<LogLevel> {
        text.parse().ok()
    }

    ghost copies = { λ value copy same. same };
}
