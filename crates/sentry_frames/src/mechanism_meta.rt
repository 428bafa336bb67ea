//! Meta information of exception mechanisms.
#![tactic(auto, unfolding(crate::specs::Mechanisms::mechanism_meta_fields))]

ghost use Rattle.sentry_frames.specs.Mechanisms.{mechanism_meta_fields, meta_in_order, no_meta};

use crate::c_error::CError;
use crate::mach_exception::MachException;
use crate::posix_signal::PosixSignal;
use sentry_rows::{AsTable, Copier, CopyTable, DefaultedTable, ReadTable, Sink, Source, Table};
use sentry_tables::{Formed, Member};
use std::alloc::{AllocError, Global};

/// Operating system or runtime information about the cause of an exception.
///
/// <https://develop.sentry.dev/sdk/data-model/event-payloads/exception/#meta-information>
#[derive(Debug, Drop, PartialEq)]
pub struct MechanismMeta {
    /// C error (`errno`).
    pub errno: Option<CError>,
    /// POSIX signal.
    pub signal: Option<PosixSignal>,
    /// Mach exception.
    pub mach_exception: Option<MachException>,
}

impl MechanismMeta {
    ghost use Rattle.std.specs.Prelude.{◌≡◌, IfOk};
    ghost use Rattle.sentry_tables.specs.Defaults.{IsDefault};
    ghost use Rattle.sentry_frames.specs.Mechanisms.{mechanism_meta_cell};

    /// Creates meta information with no fields set.
    #[tactic(auto, unfolding(crate::specs::Mechanisms::mechanism_meta_fields))]
    pub fn default_in(_alloc: Global) -> MechanismMeta
        ensures rows { IsDefault mechanism_meta_fields result }
        ensures empty { mechanism_meta_cell result ≡ no_meta }
    {
        MechanismMeta {
            errno: None,
            signal: None,
            mach_exception: None,
        }
    }

    /// Clones the meta information. `AllocError` if an allocation fails.
    pub fn clone(&self) -> Result<MechanismMeta, AllocError>
        ensures { IfOk result (λ copy. mechanism_meta_cell copy ≡ mechanism_meta_cell self.now) }
    {
        self.copy()
    }
}

impl Formed for MechanismMeta {
    type Form = AsTable;
}

impl Table for MechanismMeta {
    ghost lines = { mechanism_meta_fields };

    fn rows<S: Sink>(&self, to: &mut S) {
        to.optional("errno", &self.errno);
        to.optional("mach_exception", &self.mach_exception);
        to.optional("signal", &self.signal);
    }

    ghost ordered = { meta_in_order };
}

impl ReadTable for MechanismMeta {
    fn read<S: Source>(from: &mut S) -> MechanismMeta {
        MechanismMeta {
            errno: from.optional("errno"),
            mach_exception: from.optional("mach_exception"),
            signal: from.optional("signal"),
        }
    }
}

impl CopyTable for MechanismMeta {
    fn copy_rows(&self, copies: &mut Copier) -> Result<MechanismMeta, AllocError> {
        Ok(MechanismMeta {
            errno: copies.optional(&self.errno),
            mach_exception: copies.optional(&self.mach_exception),
            signal: copies.optional(&self.signal),
        })
    }
}

// A mechanism omits the member `meta` if no field is set.
impl DefaultedTable for MechanismMeta {
    ghost usual = { no_meta };

    fn is_usual(&self) -> bool {
        self.errno.is_none() && self.signal.is_none() && self.mach_exception.is_none()
    }
}
