//! Replay recordings.

use sentry_tables::Way;
use std::alloc::{AllocError, Global};

/// A replay recording: opaque bytes.
///
/// <https://develop.sentry.dev/sdk/data-model/envelope-items/#replay-recording>
#[derive(Debug, Drop, PartialEq)]
pub struct ReplayRecording {
    /// Contents of the recording.
    pub buffer: Vec<u8>,
}

impl ReplayRecording {
    ghost use Rattle.std.specs.Prelude.{◌≡◌, [], IfOk};

    /// Creates a recording of no bytes.
    pub fn default_in(alloc: Global) -> ReplayRecording
        ensures { result.buffer.items ≡ [] }
    {
        ReplayRecording {
            buffer: Vec::new(alloc),
        }
    }

    // A recording is its own normal form, so both ways give a copy.
    pub(crate) fn remake(&self, _way: Way) -> Result<ReplayRecording, AllocError>
        ensures { IfOk result (λ recording. recording.buffer.items ≡ self.now.buffer.items) }
    {
        Ok(ReplayRecording {
            buffer: self.buffer.clone()?,
        })
    }

    /// Clones the recording. `AllocError` if an allocation fails.
    pub fn clone(&self) -> Result<ReplayRecording, AllocError>
        ensures { IfOk result (λ recording. recording.buffer.items ≡ self.now.buffer.items) }
    {
        self.remake(Way::Same)
    }

    /// Returns the normal form, which is a copy. `AllocError` if an allocation fails.
    pub fn normalized(&self) -> Result<ReplayRecording, AllocError>
        ensures { IfOk result (λ recording. recording.buffer.items ≡ self.now.buffer.items) }
    {
        self.remake(Way::Normal(*self.buffer.allocator()))
    }
}
