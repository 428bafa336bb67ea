//! Statuses of monitor check-ins.

ghost use Rattle.std.specs.Prelude.{◌≡◌, Some};
ghost use Rattle.sentry_words.specs.MonitorCheckInStatus.{check_in_status_word, check_in_status_of};

use sentry_tables::Word;

/// Status of a monitor check-in.
///
/// <https://develop.sentry.dev/sdk/telemetry/check-ins/>
#[derive(Clone, Copy, Debug, PartialEq)]
pub enum MonitorCheckInStatus {
    /// Success: `ok`.
    Ok,
    /// Failure: `error`.
    Error,
    /// In progress: `in_progress`.
    InProgress,
    /// Missed check-in: `missed`.
    Missed,
    /// Any other status: `unknown`.
    Unknown,
}

impl MonitorCheckInStatus {
    /// Returns the word in payloads, such as `in_progress`.
    pub fn as_str(&self) -> &'static str
        ensures { result.now ≡ check_in_status_word self.now }
    {
        match self {
            MonitorCheckInStatus::Ok => "ok",
            MonitorCheckInStatus::Error => "error",
            MonitorCheckInStatus::InProgress => "in_progress",
            MonitorCheckInStatus::Missed => "missed",
            MonitorCheckInStatus::Unknown => "unknown",
        }
    }

    /// Parses a status; [`MonitorCheckInStatus::Unknown`] if the text is not a known one.
    pub fn from_word(word: &str) -> MonitorCheckInStatus
        ensures { result ≡ check_in_status_of word.now }
    {
        match word {
            "ok" => MonitorCheckInStatus::Ok,
            "error" => MonitorCheckInStatus::Error,
            "in_progress" => MonitorCheckInStatus::InProgress,
            "missed" => MonitorCheckInStatus::Missed,
            _ => MonitorCheckInStatus::Unknown,
        }
    }
}

impl Word for MonitorCheckInStatus {
    ghost word = { check_in_status_word };

    ghost of_word = { λ text. Some (check_in_status_of text) };

    fn word(&self) -> &'static str {
        self.as_str()
    }

    fn of_word(text: &str) -> Option<MonitorCheckInStatus> {
        Some(MonitorCheckInStatus::from_word(text))
    }

    ghost copies = { λ value copy same. same };
}
