//! Orientations of a device's screen.

ghost use Rattle.std.specs.Prelude.{◌≡◌};
ghost use Rattle.std.specs.Result.{result_ok};
ghost use Rattle.sentry_words.specs.Orientation.{orientation_word, orientation_of};

use crate::parse_word_error::ParseWordError;
use sentry_tables::Word;
use std::str::FromStr;

/// Screen orientation of a device.
///
/// <https://develop.sentry.dev/sdk/data-model/event-payloads/contexts/#device-context>
#[derive(Clone, Debug, Drop, PartialEq, Eq, Hash)]
pub enum Orientation {
    /// Portrait: `portrait`.
    Portrait,
    /// Landscape: `landscape`.
    Landscape,
}

impl Orientation {
    /// Returns the word in payloads, such as `portrait`.
    pub fn as_str(&self) -> &'static str
        ensures { result.now ≡ orientation_word self.now }
    {
        match self {
            Orientation::Portrait => "portrait",
            Orientation::Landscape => "landscape",
        }
    }
}

impl FromStr for Orientation {
    type Err = ParseWordError;

    ghost from_str_gives = { λ text r. result_ok r ≡ orientation_of text };

    /// Parses an orientation.
    ///
    /// # Errors
    ///
    /// `ParseWordError` if the text is not a known orientation, in lower case.
    fn from_str(text: &str) -> Result<Orientation, ParseWordError> {
        match text {
            "portrait" => Ok(Orientation::Portrait),
            "landscape" => Ok(Orientation::Landscape),
            _ => Err(ParseWordError),
        }
    }
}

impl Word for Orientation {
    ghost word = { orientation_word };

    ghost of_word = { orientation_of };

    fn word(&self) -> &'static str {
        self.as_str()
    }

    fn of_word(text: &str) -> Option<Orientation> {
        text.parse().ok()
    }

    ghost copies = { λ value copy same. same };
}
