//! Discard reasons of client reports.

ghost use Rattle.std.specs.Prelude.{◌≡◌};
ghost use Rattle.sentry_reports.specs.Categories.{reasons, reason_in_place, reason_index, reason_of, reason_word};

use sentry_tables::Word;
use sentry_words::IndexedEnum;

/// A discard reason: why data was lost.
///
/// The words are those of client reports:
/// <https://develop.sentry.dev/sdk/telemetry/client-reports/>.
#[derive(Clone, Copy, Debug, PartialEq, Eq, Hash)]
pub enum Reason {
    /// Rejected by Sentry: `send_error`.
    SendError,
    /// Internal error of the SDK: `internal_sdk_error`.
    InternalSdkError,
    /// Sentry not reached: `network_error`.
    NetworkError,
    /// Rate-limited by Sentry: `ratelimit_backoff`.
    RatelimitBackoff,
    /// Queue full: `queue_overflow`.
    QueueOverflow,
    /// Buffer full: `buffer_overflow`.
    BufferOverflow,
    /// Dropped by an event processor: `event_processor`.
    EventProcessor,
    /// Dropped by the program's `before_send` filter: `before_send`.
    BeforeSend,
    /// Dropped by sampling: `sample_rate`.
    SampleRate,
}

impl Reason {
    /// Returns the word in client reports, such as `send_error`.
    pub fn as_str(&self) -> &'static str
        ensures { result.now ≡ reason_word self.now }
    {
        match self {
            Reason::SendError => "send_error",
            Reason::InternalSdkError => "internal_sdk_error",
            Reason::NetworkError => "network_error",
            Reason::RatelimitBackoff => "ratelimit_backoff",
            Reason::QueueOverflow => "queue_overflow",
            Reason::BufferOverflow => "buffer_overflow",
            Reason::EventProcessor => "event_processor",
            Reason::BeforeSend => "before_send",
            Reason::SampleRate => "sample_rate",
        }
    }
}

impl IndexedEnum for Reason {
    ghost variants = { reasons };

    ghost index_of = { reason_index };

    const VARIANTS: &'static [Reason] = &[
        Reason::SendError,
        Reason::InternalSdkError,
        Reason::NetworkError,
        Reason::RatelimitBackoff,
        Reason::QueueOverflow,
        Reason::BufferOverflow,
        Reason::EventProcessor,
        Reason::BeforeSend,
        Reason::SampleRate,
    ];

    fn as_index(&self) -> usize {
        *self as usize
    }

    ghost in_place = { reason_in_place };
}

impl Word for Reason {
    ghost word = { reason_word };

    ghost of_word = { reason_of };

    fn word(&self) -> &'static str {
        self.as_str()
    }

    fn of_word(text: &str) -> Option<Reason> {
        match text {
            "send_error" => Some(Reason::SendError),
            "internal_sdk_error" => Some(Reason::InternalSdkError),
            "network_error" => Some(Reason::NetworkError),
            "ratelimit_backoff" => Some(Reason::RatelimitBackoff),
            "queue_overflow" => Some(Reason::QueueOverflow),
            "buffer_overflow" => Some(Reason::BufferOverflow),
            "event_processor" => Some(Reason::EventProcessor),
            "before_send" => Some(Reason::BeforeSend),
            "sample_rate" => Some(Reason::SampleRate),
            _ => None,
        }
    }

    ghost copies = { λ value copy same. same };
}
