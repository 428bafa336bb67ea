//! POSIX signals.
#![tactic(auto, unfolding(crate::specs::Causes::signal_fields))]

ghost use Rattle.sentry_frames.specs.Causes.{signal_fields, signal_in_order};

use sentry_rows::{AsTable, Copier, CopyTable, ReadTable, Sink, Source, Table};
use sentry_tables::{Formed, Member};
use std::alloc::{AllocError, Global};

/// A POSIX signal.
///
/// <https://develop.sentry.dev/sdk/data-model/event-payloads/exception/#signal>
#[derive(Debug, Drop, PartialEq, Eq)]
pub struct PosixSignal {
    /// Signal number; required.
    pub number: i32,
    /// Signal code, on Apple systems.
    pub code: Option<i32>,
    /// Name of the signal, such as `SIGSEGV`.
    pub name: Option<String>,
    /// Name of the signal code, such as `SEGV_MAPERR`.
    pub code_name: Option<String>,
}

impl PosixSignal {
    ghost use Rattle.std.specs.Prelude.{◌≡◌, IfOk};
    ghost use Rattle.sentry_tables.specs.Defaults.{IsDefault};
    ghost use Rattle.sentry_frames.specs.Causes.{signal_cell};

    /// Creates a signal with the number 0 and no code or names.
    #[tactic(auto, unfolding(crate::specs::Causes::signal_fields))]
    pub fn default_in(_alloc: Global) -> PosixSignal
        ensures { IsDefault signal_fields result }
    {
        PosixSignal {
            number: 0,
            code: None,
            name: None,
            code_name: None,
        }
    }

    /// Clones the signal. `AllocError` if an allocation fails.
    pub fn clone(&self) -> Result<PosixSignal, AllocError>
        ensures { IfOk result (λ copy. signal_cell copy ≡ signal_cell self.now) }
    {
        self.copy()
    }
}

impl Formed for PosixSignal {
    type Form = AsTable;
}

impl From<i32> for PosixSignal {
    ghost use Rattle.std.specs.Prelude.{◌≡◌, None};

    ghost from_gives = { λ n s. (s.number ≡ n) × (s.code ≡ None) × (s.name ≡ None) ×
        (s.code_name ≡ None) };

    fn from(number: i32) -> PosixSignal {
        PosixSignal {
            number,
            code: None,
            name: None,
            code_name: None,
        }
    }
}

/// Converts a signal number and a signal code.
impl From<(i32, i32)> for PosixSignal {
    ghost use Rattle.std.specs.Prelude.{◌≡◌, Some, None};

    ghost from_gives = { λ p s. (s.number ≡ p.0) × (s.code ≡ Some p.1) × (s.name ≡ None) ×
        (s.code_name ≡ None) };

    fn from(pair: (i32, i32)) -> PosixSignal {
        let (number, code) = pair;
        PosixSignal {
            number,
            code: Some(code),
            name: None,
            code_name: None,
        }
    }
}

impl From<PosixSignal> for i32 {
    ghost use Rattle.std.specs.Prelude.{◌≡◌};

    ghost from_gives = { λ s n. n ≡ s.number };

    fn from(signal: PosixSignal) -> i32 {
        signal.number
    }
}

impl Table for PosixSignal {
    ghost lines = { signal_fields };

    fn rows<S: Sink>(&self, to: &mut S) {
        to.optional("code", &self.code);
        to.optional("code_name", &self.code_name);
        to.optional("name", &self.name);
        to.required("number", &self.number);
    }

    ghost ordered = { signal_in_order };
}

impl ReadTable for PosixSignal {
    fn read<S: Source>(from: &mut S) -> PosixSignal {
        PosixSignal {
            code: from.optional("code"),
            code_name: from.optional("code_name"),
            name: from.optional("name"),
            number: from.required("number", 0),
        }
    }
}

impl CopyTable for PosixSignal {
    fn copy_rows(&self, copies: &mut Copier) -> Result<PosixSignal, AllocError> {
        Ok(PosixSignal {
            code: copies.optional(&self.code),
            code_name: copies.optional(&self.code_name),
            name: copies.optional(&self.name),
            number: copies.plain(&self.number),
        })
    }
}
