//! Structured logs.
#![tactic(auto, unfolding(crate::specs::Logs::log_fields))]

ghost use Rattle.sentry_records.specs.Logs.{log_fields, log_in_order};

use crate::log_attribute::LogAttribute;
use crate::stand_in::epoch;
use sentry_identifiers::TraceId;
use sentry_moments::{Moment, Seconds};
use sentry_rows::{AsTable, Copier, CopyTable, ReadTable, Sink, Source, Table};
use sentry_tables::{Formed, Member};
use sentry_text::LogSeverityNumber;
use sentry_words::LogLevel;
use serde_json::Map;
use std::alloc::AllocError;

/// A structured log: a message with searchable attributes.
///
/// <https://develop.sentry.dev/sdk/telemetry/logs/>
#[derive(Debug, Drop, PartialEq)]
pub struct Log {
    /// Severity level; required.
    pub level: LogLevel,
    /// Log message; required.
    pub body: String,
    /// Id of the trace that the log belongs to.
    pub trace_id: Option<TraceId>,
    /// Time of the log: RFC 3339 or whole seconds since 1970; required. Written as RFC 3339
    /// only if fractional.
    pub timestamp: Moment,
    /// Severity as a number from 1 to 24.
    pub severity_number: Option<LogSeverityNumber>,
    /// Searchable attributes, by name; empty by default.
    pub attributes: Map<String, LogAttribute>,
}

impl Log {
    ghost use Rattle.std.specs.Prelude.{◌≡◌, IfOk};
    ghost use Rattle.sentry_records.specs.Logs.{log_cell};

    /// Clones the log. `AllocError` if an allocation fails.
    pub fn clone(&self) -> Result<Log, AllocError>
        ensures { IfOk result (λ copy. log_cell copy ≡ log_cell self.now) }
    {
        self.copy()
    }
}

impl Formed for Log {
    type Form = AsTable;
}

impl Table for Log {
    ghost lines = { log_fields };

    fn rows<S: Sink>(&self, to: &mut S) {
        to.map("attributes", &self.attributes);
        to.required("body", &self.body);
        to.required("level", &self.level);
        to.optional("severity_number", &self.severity_number);
        to.required_as::<Seconds, Moment>("timestamp", &self.timestamp);
        to.optional("trace_id", &self.trace_id);
    }

    ghost ordered = { log_in_order };
}

impl ReadTable for Log {
    fn read<S: Source>(from: &mut S) -> Log {
        Log {
            attributes: from.map("attributes"),
            body: from.text("body"),
            level: from.required("level", LogLevel::Trace),
            severity_number: from.optional("severity_number"),
            timestamp: from.required_as::<Seconds, Moment>("timestamp", epoch()),
            trace_id: from.optional("trace_id"),
        }
    }
}

impl CopyTable for Log {
    fn copy_rows(&self, copies: &mut Copier) -> Result<Log, AllocError> {
        Ok(Log {
            attributes: copies.map(&self.attributes)?,
            body: copies.text(&self.body),
            level: copies.plain(&self.level),
            severity_number: copies.optional(&self.severity_number),
            timestamp: copies.plain_as::<Seconds, Moment>(&self.timestamp),
            trace_id: copies.optional(&self.trace_id),
        })
    }
}
