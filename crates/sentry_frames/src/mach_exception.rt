//! Mach exceptions: exceptions of the Mach kernel.
#![tactic(auto, unfolding(crate::specs::Causes::mach_fields))]

ghost use Rattle.sentry_frames.specs.Causes.{mach_fields, mach_in_order};

use sentry_rows::{AsTable, Copier, CopyTable, ReadTable, Sink, Source, Table};
use sentry_tables::{Formed, Member};
use std::alloc::{AllocError, Global};

/// An exception of the Mach kernel.
///
/// <https://develop.sentry.dev/sdk/data-model/event-payloads/exception/#mach-exception>
#[derive(Debug, Drop, PartialEq, Eq)]
pub struct MachException {
    /// Exception type, as a number; required.
    pub exception: i32,
    /// Exception code; required.
    pub code: u64,
    /// Exception subcode; required.
    pub subcode: u64,
    /// Name of the exception, such as `EXC_BAD_ACCESS`.
    pub name: Option<String>,
}

impl MachException {
    ghost use Rattle.std.specs.Prelude.{◌≡◌, IfOk};
    ghost use Rattle.sentry_tables.specs.Defaults.{IsDefault};
    ghost use Rattle.sentry_frames.specs.Causes.{mach_cell};

    /// Creates a Mach exception with type, code and subcode 0 and no name.
    #[tactic(auto, unfolding(crate::specs::Causes::mach_fields))]
    pub fn default_in(_alloc: Global) -> MachException
        ensures { IsDefault mach_fields result }
    {
        MachException {
            exception: 0,
            code: 0,
            subcode: 0,
            name: None,
        }
    }

    /// Clones the exception. `AllocError` if an allocation fails.
    pub fn clone(&self) -> Result<MachException, AllocError>
        ensures { IfOk result (λ copy. mach_cell copy ≡ mach_cell self.now) }
    {
        self.copy()
    }
}

impl Formed for MachException {
    type Form = AsTable;
}

impl Table for MachException {
    ghost lines = { mach_fields };

    fn rows<S: Sink>(&self, to: &mut S) {
        to.required("code", &self.code);
        to.required("exception", &self.exception);
        to.optional("name", &self.name);
        to.required("subcode", &self.subcode);
    }

    ghost ordered = { mach_in_order };
}

impl ReadTable for MachException {
    fn read<S: Source>(from: &mut S) -> MachException {
        MachException {
            code: from.required("code", 0),
            exception: from.required("exception", 0),
            name: from.optional("name"),
            subcode: from.required("subcode", 0),
        }
    }
}

impl CopyTable for MachException {
    fn copy_rows(&self, copies: &mut Copier) -> Result<MachException, AllocError> {
        Ok(MachException {
            code: copies.plain(&self.code),
            exception: copies.plain(&self.exception),
            name: copies.optional(&self.name),
            subcode: copies.plain(&self.subcode),
        })
    }
}
