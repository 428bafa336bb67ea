//! Severity levels of events and breadcrumbs.

ghost use Rattle.std.specs.Prelude.{◌≡◌, ◌↔◌, IsTrue, Some};
ghost use Rattle.std.specs.Result.{result_ok};
ghost use Rattle.sentry_words.specs.Level.{level_word, level_of};

use sentry_tables::Word;
use std::fmt;
use std::str::FromStr;
use thiserror::Error;

/// Severity of an event or a breadcrumb.
///
/// The default is [`Level::Info`], also of a breadcrumb; an event's `level` defaults to `error`.
/// `info` is also read from `log`.
///
/// <https://develop.sentry.dev/sdk/data-model/event-payloads/#optional-attributes>
#[derive(Clone, Copy, Debug, Default, PartialEq, Eq, PartialOrd, Ord, Hash)]
pub enum Level {
    /// Debugging: `debug`.
    Debug,
    /// Information: `info`.
    #[default]
    Info,
    /// Warning: `warning`.
    Warning,
    /// Error: `error`.
    Error,
    /// Fatal error, usually a crash: `fatal`.
    Fatal,
}

/// Not a known level.
#[derive(Debug, Drop, Error)]
#[error("invalid level")]
pub struct ParseLevelError;

impl Level {
    /// Returns the word in payloads, such as `info`.
    pub fn as_str(&self) -> &'static str
        ensures { result.now ≡ level_word self.now }
    {
        match self {
            Level::Debug => "debug",
            Level::Info => "info",
            Level::Warning => "warning",
            Level::Error => "error",
            Level::Fatal => "fatal",
        }
    }

    /// Returns true if the level is [`Level::Debug`].
    pub fn is_debug(&self) -> bool
        ensures { IsTrue result ↔ (self.now ≡ Level.Debug) }
    {
        *self == Level::Debug
    }

    /// Returns true if the level is [`Level::Info`].
    pub fn is_info(&self) -> bool
        ensures { IsTrue result ↔ (self.now ≡ Level.Info) }
    {
        *self == Level::Info
    }

    /// Returns true if the level is [`Level::Warning`].
    pub fn is_warning(&self) -> bool
        ensures { IsTrue result ↔ (self.now ≡ Level.Warning) }
    {
        *self == Level::Warning
    }

    /// Returns true if the level is [`Level::Error`].
    pub fn is_error(&self) -> bool
        ensures { IsTrue result ↔ (self.now ≡ Level.Error) }
    {
        *self == Level::Error
    }

    /// Returns true if the level is [`Level::Fatal`].
    pub fn is_fatal(&self) -> bool
        ensures { IsTrue result ↔ (self.now ≡ Level.Fatal) }
    {
        *self == Level::Fatal
    }
}

impl fmt::Display for Level {
    ghost output = { λ v. Some (level_word v) };

    fn fmt<W: fmt::Write>(&self, f: &mut fmt::Formatter<W>) -> fmt::Result {
        f.write_str(self.as_str())
    }
}

impl FromStr for Level {
    type Err = ParseLevelError;

    ghost from_str_gives = { λ text r. result_ok r ≡ level_of text };

    /// Parses a level.
    ///
    /// # Errors
    ///
    /// `ParseLevelError` if the text is not a known level or `log`, in lower case.
    fn from_str(text: &str) -> Result<Level, ParseLevelError> {
        match text {
            "debug" => Ok(Level::Debug),
            "info" | "log" => Ok(Level::Info),
            "warning" => Ok(Level::Warning),
            "error" => Ok(Level::Error),
            "fatal" => Ok(Level::Fatal),
            _ => Err(ParseLevelError),
        }
    }
}

impl Word for Level {
    ghost word = { level_word };

    ghost of_word = { level_of };

    fn word(&self) -> &'static str {
        self.as_str()
    }

    fn of_word(text: &str) -> Option<Level> {
        text.parse().ok()
    }

    ghost copies = { λ value copy same. same };
}
