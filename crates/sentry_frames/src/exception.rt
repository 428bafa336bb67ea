//! Exceptions and errors of the program.
#![tactic(auto, unfolding(crate::specs::Exceptions::exception_fields))]

ghost use Rattle.sentry_frames.specs.Exceptions.{exception_fields, exception_in_order};

use crate::mechanism::Mechanism;
use crate::stacktrace::Stacktrace;
use crate::thread_id::ThreadId;
use sentry_rows::{AsTable, Copier, CopyTable, ReadTable, Sink, Source, Table};
use sentry_tables::{Formed, Member};
use std::alloc::{AllocError, Global};

/// An exception or error of the program.
///
/// <https://develop.sentry.dev/sdk/data-model/event-payloads/exception/>
#[derive(Debug, Drop, PartialEq)]
pub struct Exception {
    /// Exception type, such as `ValueError` (member `type`); required.
    pub ty: String,
    /// Exception value: the error message.
    pub value: Option<String>,
    /// Module or package of the exception type.
    pub module: Option<String>,
    /// Stack trace of the exception.
    pub stacktrace: Option<Stacktrace>,
    /// Stack trace as captured, before processing.
    pub raw_stacktrace: Option<Stacktrace>,
    /// Id of the thread that the exception refers to.
    pub thread_id: Option<ThreadId>,
    /// Mechanism that created the exception.
    pub mechanism: Option<Mechanism>,
}

impl Exception {
    ghost use Rattle.std.specs.Prelude.{◌≡◌, IfOk};
    ghost use Rattle.sentry_tables.specs.Defaults.{IsDefault};
    ghost use Rattle.sentry_frames.specs.Exceptions.{exception_cell};

    /// Creates an exception with an empty type and no other fields set.
    #[tactic(auto, unfolding(crate::specs::Exceptions::exception_fields))]
    pub fn default_in(alloc: Global) -> Exception
        ensures { IsDefault exception_fields result }
    {
        Exception {
            ty: String::new(alloc),
            value: None,
            module: None,
            stacktrace: None,
            raw_stacktrace: None,
            thread_id: None,
            mechanism: None,
        }
    }

    /// Clones the exception. `AllocError` if an allocation fails.
    pub fn clone(&self) -> Result<Exception, AllocError>
        ensures { IfOk result (λ copy. exception_cell copy ≡ exception_cell self.now) }
    {
        self.copy()
    }
}

impl Formed for Exception {
    type Form = AsTable;
}

impl Table for Exception {
    ghost lines = { exception_fields };

    fn rows<S: Sink>(&self, to: &mut S) {
        to.optional("mechanism", &self.mechanism);
        to.optional("module", &self.module);
        to.optional("raw_stacktrace", &self.raw_stacktrace);
        to.optional("stacktrace", &self.stacktrace);
        to.optional("thread_id", &self.thread_id);
        to.required("type", &self.ty);
        to.optional("value", &self.value);
    }

    ghost ordered = { exception_in_order };
}

impl ReadTable for Exception {
    fn read<S: Source>(from: &mut S) -> Exception {
        Exception {
            mechanism: from.optional("mechanism"),
            module: from.optional("module"),
            raw_stacktrace: from.optional("raw_stacktrace"),
            stacktrace: from.optional("stacktrace"),
            thread_id: from.optional("thread_id"),
            ty: from.text("type"),
            value: from.optional("value"),
        }
    }
}

impl CopyTable for Exception {
    fn copy_rows(&self, copies: &mut Copier) -> Result<Exception, AllocError> {
        Ok(Exception {
            mechanism: copies.optional(&self.mechanism),
            module: copies.optional(&self.module),
            raw_stacktrace: copies.optional(&self.raw_stacktrace),
            stacktrace: copies.optional(&self.stacktrace),
            thread_id: copies.optional(&self.thread_id),
            ty: copies.text(&self.ty),
            value: copies.optional(&self.value),
        })
    }
}
