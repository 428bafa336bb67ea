//! Statuses of release-health sessions.

ghost use Rattle.std.specs.Prelude.{◌≡◌, Some};
ghost use Rattle.std.specs.Result.{result_ok};
ghost use Rattle.sentry_words.specs.SessionStatus.{session_status_word, session_status_of};

use sentry_tables::Word;
use std::fmt;
use std::str::FromStr;
use thiserror::Error;

/// Status of a session; defaults to [`SessionStatus::Ok`].
///
/// <https://develop.sentry.dev/sdk/telemetry/sessions/>
#[derive(Clone, Copy, Debug, Default, PartialEq, Eq, PartialOrd, Ord, Hash)]
pub enum SessionStatus {
    /// In progress: `ok`.
    #[default]
    Ok,
    /// Ended normally: `exited`.
    Exited,
    /// Ended in a crash: `crashed`.
    Crashed,
    /// Ended abnormally, without a crash: `abnormal`.
    Abnormal,
}

/// Not a known session status.
#[derive(Debug, Drop, Error)]
#[error("invalid session status")]
pub struct ParseSessionStatusError;

impl SessionStatus {
    /// Returns the word in payloads, such as `exited`.
    pub fn as_str(&self) -> &'static str
        ensures { result.now ≡ session_status_word self.now }
    {
        match self {
            SessionStatus::Ok => "ok",
            SessionStatus::Exited => "exited",
            SessionStatus::Crashed => "crashed",
            SessionStatus::Abnormal => "abnormal",
        }
    }
}

impl fmt::Display for SessionStatus {
    ghost output = { λ v. Some (session_status_word v) };

    fn fmt<W: fmt::Write>(&self, f: &mut fmt::Formatter<W>) -> fmt::Result {
        f.write_str(self.as_str())
    }
}

impl FromStr for SessionStatus {
    type Err = ParseSessionStatusError;

    ghost from_str_gives = { λ text r. result_ok r ≡ session_status_of text };

    /// Parses a session status.
    ///
    /// # Errors
    ///
    /// `ParseSessionStatusError` if the text is not a known status, in lower case.
    fn from_str(text: &str) -> Result<SessionStatus, ParseSessionStatusError> {
        match text {
            "ok" => Ok(SessionStatus::Ok),
            "exited" => Ok(SessionStatus::Exited),
            "crashed" => Ok(SessionStatus::Crashed),
            "abnormal" => Ok(SessionStatus::Abnormal),
            _ => Err(ParseSessionStatusError),
        }
    }
}

impl Word for SessionStatus {
    ghost word = { session_status_word };

    ghost of_word = { session_status_of };

    fn word(&self) -> &'static str {
        self.as_str()
    }

    fn of_word(text: &str) -> Option<SessionStatus> {
        text.parse().ok()
    }

    ghost copies = { λ value copy same. same };
}
