//! Statuses of spans.

ghost use Rattle.std.specs.Prelude.{◌≡◌, Some};
ghost use Rattle.std.specs.Result.{result_ok};
ghost use Rattle.sentry_words.specs.SpanStatus.{span_status_word, span_status_of};

use sentry_tables::Word;
use std::fmt;
use std::str::FromStr;
use thiserror::Error;

/// Status of a span: the outcome of its operation.
///
/// <https://develop.sentry.dev/sdk/data-model/event-payloads/span/>
#[derive(Clone, Copy, Debug, PartialEq, Eq, Hash)]
pub enum SpanStatus {
    /// Success: `ok`.
    Ok,
    /// Deadline exceeded: `deadline_exceeded`.
    DeadlineExceeded,
    /// Missing or invalid credentials: `unauthenticated`.
    Unauthenticated,
    /// Caller without permission: `permission_denied`.
    PermissionDenied,
    /// Entity not found: `not_found`.
    NotFound,
    /// Exhausted resource, such as a quota: `resource_exhausted`.
    ResourceExhausted,
    /// Invalid argument: `invalid_argument`.
    InvalidArgument,
    /// Operation not implemented: `unimplemented`.
    Unimplemented,
    /// Service unavailable: `unavailable`.
    Unavailable,
    /// Internal error: `internal_error`.
    InternalError,
    /// Unknown error: `unknown_error`.
    UnknownError,
    /// Cancelled operation: `cancelled`.
    Cancelled,
    /// Entity exists already: `already_exists`.
    AlreadyExists,
    /// System not in the required state: `failed_precondition`.
    FailedPrecondition,
    /// Aborted operation: `aborted`.
    Aborted,
    /// Operation past the valid range: `out_of_range`.
    OutOfRange,
    /// Data loss or corruption: `data_loss`.
    DataLoss,
}

/// Not a known span status.
#[derive(Debug, Drop, Error)]
#[error("invalid status")]
pub struct ParseStatusError;

impl SpanStatus {
    /// Returns the word in payloads, such as `not_found`.
    pub fn as_str(&self) -> &'static str
        ensures { result.now ≡ span_status_word self.now }
    {
        match self {
            SpanStatus::Ok => "ok",
            SpanStatus::DeadlineExceeded => "deadline_exceeded",
            SpanStatus::Unauthenticated => "unauthenticated",
            SpanStatus::PermissionDenied => "permission_denied",
            SpanStatus::NotFound => "not_found",
            SpanStatus::ResourceExhausted => "resource_exhausted",
            SpanStatus::InvalidArgument => "invalid_argument",
            SpanStatus::Unimplemented => "unimplemented",
            SpanStatus::Unavailable => "unavailable",
            SpanStatus::InternalError => "internal_error",
            SpanStatus::UnknownError => "unknown_error",
            SpanStatus::Cancelled => "cancelled",
            SpanStatus::AlreadyExists => "already_exists",
            SpanStatus::FailedPrecondition => "failed_precondition",
            SpanStatus::Aborted => "aborted",
            SpanStatus::OutOfRange => "out_of_range",
            SpanStatus::DataLoss => "data_loss",
        }
    }
}

impl fmt::Display for SpanStatus {
    ghost output = { λ v. Some (span_status_word v) };

    fn fmt<W: fmt::Write>(&self, f: &mut fmt::Formatter<W>) -> fmt::Result {
        f.write_str(self.as_str())
    }
}

impl FromStr for SpanStatus {
    type Err = ParseStatusError;

    ghost from_str_gives = { λ text r. result_ok r ≡ span_status_of text };

    /// Parses a span status.
    ///
    /// # Errors
    ///
    /// `ParseStatusError` if the text is not a known status, in lower case.
    fn from_str(text: &str) -> Result<SpanStatus, ParseStatusError> {
        match text {
            "ok" => Ok(SpanStatus::Ok),
            "deadline_exceeded" => Ok(SpanStatus::DeadlineExceeded),
            "unauthenticated" => Ok(SpanStatus::Unauthenticated),
            "permission_denied" => Ok(SpanStatus::PermissionDenied),
            "not_found" => Ok(SpanStatus::NotFound),
            "resource_exhausted" => Ok(SpanStatus::ResourceExhausted),
            "invalid_argument" => Ok(SpanStatus::InvalidArgument),
            "unimplemented" => Ok(SpanStatus::Unimplemented),
            "unavailable" => Ok(SpanStatus::Unavailable),
            "internal_error" => Ok(SpanStatus::InternalError),
            "unknown_error" => Ok(SpanStatus::UnknownError),
            "cancelled" => Ok(SpanStatus::Cancelled),
            "already_exists" => Ok(SpanStatus::AlreadyExists),
            "failed_precondition" => Ok(SpanStatus::FailedPrecondition),
            "aborted" => Ok(SpanStatus::Aborted),
            "out_of_range" => Ok(SpanStatus::OutOfRange),
            "data_loss" => Ok(SpanStatus::DataLoss),
            _ => Err(ParseStatusError),
        }
    }
}

impl Word for SpanStatus {
    ghost word = { span_status_word };

    ghost of_word = { span_status_of };

    fn word(&self) -> &'static str {
        self.as_str()
    }

    fn of_word(text: &str) -> Option<SpanStatus> {
        text.parse().ok()
    }

    ghost copies = { λ value copy same. same };
}
