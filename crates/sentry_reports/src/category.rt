//! Data categories of client reports.

ghost use Rattle.std.specs.Prelude.{◌≡◌};
ghost use Rattle.sentry_reports.specs.Categories.{categories, category_in_place, category_index, category_of, category_word};

use sentry_tables::Word;
use sentry_words::IndexedEnum;

/// A data category: the type of data that a client report counts as lost.
///
/// The words are those of client reports:
/// <https://develop.sentry.dev/sdk/expected-features/rate-limiting/#definitions>.
#[derive(Clone, Copy, Debug, PartialEq, Eq, Hash)]
pub enum Category {
    /// Error events: `error`.
    Error,
    /// Sessions: `session`.
    Session,
    /// Transactions: `transaction`.
    Transaction,
    /// Spans: `span`.
    Span,
    /// Attachments, in bytes: `attachment`.
    Attachment,
    /// Monitor check-ins: `monitor`.
    Monitor,
    /// Logs: `log_item`.
    LogItem,
    /// Logs, in bytes: `log_byte`.
    LogByte,
    /// Metrics: `trace_metric`.
    TraceMetric,
    /// Metrics, in bytes: `trace_metric_byte`.
    TraceMetricByte,
    /// User reports: `feedback`.
    Feedback,
    /// Replay recordings: `replay`.
    Replay,
}

impl Category {
    /// Returns the word in client reports, such as `error`.
    pub fn as_str(&self) -> &'static str
        ensures { result.now ≡ category_word self.now }
    {
        match self {
            Category::Error => "error",
            Category::Session => "session",
            Category::Transaction => "transaction",
            Category::Span => "span",
            Category::Attachment => "attachment",
            Category::Monitor => "monitor",
            Category::LogItem => "log_item",
            Category::LogByte => "log_byte",
            Category::TraceMetric => "trace_metric",
            Category::TraceMetricByte => "trace_metric_byte",
            Category::Feedback => "feedback",
            Category::Replay => "replay",
        }
    }
}

impl IndexedEnum for Category {
    ghost variants = { categories };

    ghost index_of = { category_index };

    const VARIANTS: &'static [Category] = &[
        Category::Error,
        Category::Session,
        Category::Transaction,
        Category::Span,
        Category::Attachment,
        Category::Monitor,
        Category::LogItem,
        Category::LogByte,
        Category::TraceMetric,
        Category::TraceMetricByte,
        Category::Feedback,
        Category::Replay,
    ];

    fn as_index(&self) -> usize {
        *self as usize
    }

    ghost in_place = { category_in_place };
}

impl Word for Category {
    ghost word = { category_word };

    ghost of_word = { category_of };

    fn word(&self) -> &'static str {
        self.as_str()
    }

    fn of_word(text: &str) -> Option<Category> {
        match text {
            "error" => Some(Category::Error),
            "session" => Some(Category::Session),
            "transaction" => Some(Category::Transaction),
            "span" => Some(Category::Span),
            "attachment" => Some(Category::Attachment),
            "monitor" => Some(Category::Monitor),
            "log_item" => Some(Category::LogItem),
            "log_byte" => Some(Category::LogByte),
            "trace_metric" => Some(Category::TraceMetric),
            "trace_metric_byte" => Some(Category::TraceMetricByte),
            "feedback" => Some(Category::Feedback),
            "replay" => Some(Category::Replay),
            _ => None,
        }
    }

    ghost copies = { λ value copy same. same };
}
