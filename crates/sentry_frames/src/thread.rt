//! Threads of the program.
#![tactic(auto, unfolding(crate::specs::Threads::thread_fields))]

ghost use Rattle.sentry_frames.specs.Threads.{thread_fields, thread_in_order};

use crate::stacktrace::Stacktrace;
use crate::thread_id::ThreadId;
use sentry_rows::{AsTable, Copier, CopyTable, ReadTable, Sink, Source, Table};
use sentry_tables::{Formed, Member};
use std::alloc::{AllocError, Global};

/// A thread of the program.
///
/// <https://develop.sentry.dev/sdk/data-model/event-payloads/threads/>
#[derive(Debug, Drop, PartialEq)]
pub struct Thread {
    /// Thread id, usually a number.
    pub id: Option<ThreadId>,
    /// Thread name.
    pub name: Option<String>,
    /// Stack trace of the thread.
    pub stacktrace: Option<Stacktrace>,
    /// Stack trace as captured, before processing.
    pub raw_stacktrace: Option<Stacktrace>,
    /// Whether the thread crashed; defaults to `false`.
    pub crashed: bool,
    /// Whether the thread was running when the event was created; defaults to `false`.
    pub current: bool,
}

impl Thread {
    ghost use Rattle.std.specs.Prelude.{◌≡◌, IfOk};
    ghost use Rattle.sentry_tables.specs.Defaults.{IsDefault};
    ghost use Rattle.sentry_frames.specs.Threads.{thread_cell};

    /// Creates a thread with no fields set.
    #[tactic(auto, unfolding(crate::specs::Threads::thread_fields))]
    pub fn default_in(_alloc: Global) -> Thread
        ensures { IsDefault thread_fields result }
    {
        Thread {
            id: None,
            name: None,
            stacktrace: None,
            raw_stacktrace: None,
            crashed: false,
            current: false,
        }
    }

    /// Clones the thread. `AllocError` if an allocation fails.
    pub fn clone(&self) -> Result<Thread, AllocError>
        ensures { IfOk result (λ copy. thread_cell copy ≡ thread_cell self.now) }
    {
        self.copy()
    }
}

impl Formed for Thread {
    type Form = AsTable;
}

impl Table for Thread {
    ghost lines = { thread_fields };

    fn rows<S: Sink>(&self, to: &mut S) {
        to.unless("crashed", &self.crashed, &false);
        to.unless("current", &self.current, &false);
        to.optional("id", &self.id);
        to.optional("name", &self.name);
        to.optional("raw_stacktrace", &self.raw_stacktrace);
        to.optional("stacktrace", &self.stacktrace);
    }

    ghost ordered = { thread_in_order };
}

impl ReadTable for Thread {
    fn read<S: Source>(from: &mut S) -> Thread {
        Thread {
            crashed: from.or("crashed", false),
            current: from.or("current", false),
            id: from.optional("id"),
            name: from.optional("name"),
            raw_stacktrace: from.optional("raw_stacktrace"),
            stacktrace: from.optional("stacktrace"),
        }
    }
}

impl CopyTable for Thread {
    fn copy_rows(&self, copies: &mut Copier) -> Result<Thread, AllocError> {
        Ok(Thread {
            crashed: copies.plain(&self.crashed),
            current: copies.plain(&self.current),
            id: copies.optional(&self.id),
            name: copies.optional(&self.name),
            raw_stacktrace: copies.optional(&self.raw_stacktrace),
            stacktrace: copies.optional(&self.stacktrace),
        })
    }
}
