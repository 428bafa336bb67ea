//! Stack traces.
#![tactic(auto, unfolding(crate::specs::Frames::stacktrace_fields))]

ghost use Rattle.sentry_frames.specs.Frames.{stacktrace_fields, stacktrace_in_order};

use crate::frame::Frame;
use sentry_rows::{AsTable, Copier, CopyTable, ReadTable, Sink, Source, Table};
use sentry_tables::{Formed, Member};
use sentry_text::RegVal;
use serde_json::Map;
use std::alloc::{AllocError, Global};

/// The stack trace of a thread: its calls in progress, oldest first.
///
/// <https://develop.sentry.dev/sdk/data-model/event-payloads/stacktrace/>
#[derive(Debug, Drop, PartialEq)]
pub struct Stacktrace {
    /// Stack frames, from caller to callee; written even if empty.
    pub frames: Vec<Frame>,
    /// Range of omitted frames, as a JSON array of two numbers: the first omitted frame and the
    /// first frame after the range.
    pub frames_omitted: Option<(u64, u64)>,
    /// Register values, by register name.
    pub registers: Map<String, RegVal>,
}

impl Stacktrace {
    ghost use Rattle.std.specs.Prelude.{◌≡◌, IfOk, IfSome, None, [], ◌↔◌, reverse};
    ghost use Rattle.sentry_tables.specs.Defaults.{IsDefault};
    ghost use Rattle.sentry_frames.specs.Frames.{stacktrace_cell};

    /// Creates a stack trace without frames or registers.
    #[tactic(auto, unfolding(crate::specs::Frames::stacktrace_fields))]
    pub fn default_in(alloc: Global) -> Stacktrace
        ensures { IsDefault stacktrace_fields result }
    {
        Stacktrace {
            frames: Vec::new(alloc),
            frames_omitted: None,
            registers: Map::new(alloc),
        }
    }

    /// Creates a stack trace from frames in reverse order: from callee to caller.
    ///
    /// Returns `None` if `frames` is empty. The trace has no registers and no omitted frames.
    pub fn from_frames_reversed(mut frames: Vec<Frame>) -> Option<Stacktrace>
        ensures none { result ≡ None ↔ (frames.items ≡ []) }
        ensures frames { IfSome result (λ trace. trace.frames.items ≡ reverse frames.items) }
        ensures omitted { IfSome result (λ trace. trace.frames_omitted ≡ None) }
        ensures registers { IfSome result (λ trace. trace.registers.entries ≡ []) }
    {
        if frames.is_empty() {
            return None;
        }
        frames.reverse();
        let registers = Map::new(*frames.allocator());
        Some(Stacktrace {
            frames,
            frames_omitted: None,
            registers,
        })
    }

    /// Clones the stack trace. `AllocError` if an allocation fails.
    pub fn clone(&self) -> Result<Stacktrace, AllocError>
        ensures { IfOk result (λ copy. stacktrace_cell copy ≡ stacktrace_cell self.now) }
    {
        self.copy()
    }
}

impl Formed for Stacktrace {
    type Form = AsTable;
}

impl Table for Stacktrace {
    ghost lines = { stacktrace_fields };

    fn rows<S: Sink>(&self, to: &mut S) {
        to.written_list("frames", &self.frames);
        to.optional("frames_omitted", &self.frames_omitted);
        to.map("registers", &self.registers);
    }

    ghost ordered = { stacktrace_in_order };
}

impl ReadTable for Stacktrace {
    fn read<S: Source>(from: &mut S) -> Stacktrace {
        Stacktrace {
            frames: from.written_list("frames"),
            frames_omitted: from.optional("frames_omitted"),
            registers: from.map("registers"),
        }
    }
}

impl CopyTable for Stacktrace {
    fn copy_rows(&self, copies: &mut Copier) -> Result<Stacktrace, AllocError> {
        Ok(Stacktrace {
            frames: copies.list(&self.frames),
            frames_omitted: copies.optional(&self.frames_omitted),
            registers: copies.map(&self.registers)?,
        })
    }
}
