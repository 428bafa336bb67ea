//! Log entries: messages with parameters.
#![tactic(auto, unfolding(crate::specs::LogEntries::entry_fields))]

ghost use Rattle.sentry_frames.specs.LogEntries.{entry_fields, entry_in_order};

use sentry_rows::{AsTable, Copier, CopyTable, ReadTable, Sink, Source, Table};
use sentry_tables::{Formed, Member};
use serde_json::Value;
use std::alloc::{AllocError, Global};

/// A log entry: a message with parameters.
///
/// Unlike the `message` of an event, a log entry keeps the message and its parameters apart.
///
/// <https://develop.sentry.dev/sdk/data-model/event-payloads/message/>
#[derive(Debug, Drop, PartialEq)]
pub struct LogEntry {
    /// Message, with `%s` in place of each parameter; required.
    pub message: String,
    /// Positional parameters of the message, in order.
    pub params: Vec<Value>,
}

impl LogEntry {
    ghost use Rattle.std.specs.Prelude.{◌≡◌, IfOk};
    ghost use Rattle.sentry_tables.specs.Defaults.{IsDefault};
    ghost use Rattle.sentry_frames.specs.LogEntries.{entry_cell};

    /// Creates a log entry with an empty message and no parameters.
    #[tactic(auto, unfolding(crate::specs::LogEntries::entry_fields))]
    pub fn default_in(alloc: Global) -> LogEntry
        ensures { IsDefault entry_fields result }
    {
        LogEntry {
            message: String::new(alloc),
            params: Vec::new(alloc),
        }
    }

    /// Clones the log entry. `AllocError` if an allocation fails.
    pub fn clone(&self) -> Result<LogEntry, AllocError>
        ensures { IfOk result (λ copy. entry_cell copy ≡ entry_cell self.now) }
    {
        self.copy()
    }
}

impl Formed for LogEntry {
    type Form = AsTable;
}

impl Table for LogEntry {
    ghost lines = { entry_fields };

    fn rows<S: Sink>(&self, to: &mut S) {
        to.required("message", &self.message);
        to.list("params", &self.params);
    }

    ghost ordered = { entry_in_order };
}

impl ReadTable for LogEntry {
    fn read<S: Source>(from: &mut S) -> LogEntry {
        LogEntry {
            message: from.text("message"),
            params: from.list("params"),
        }
    }
}

impl CopyTable for LogEntry {
    fn copy_rows(&self, copies: &mut Copier) -> Result<LogEntry, AllocError> {
        Ok(LogEntry {
            message: copies.text(&self.message),
            params: copies.list(&self.params),
        })
    }
}
