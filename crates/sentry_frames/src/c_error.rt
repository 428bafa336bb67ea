//! C errors: values of `errno`.
#![tactic(auto, unfolding(crate::specs::Causes::c_error_fields))]

ghost use Rattle.sentry_frames.specs.Causes.{c_error_fields, c_error_in_order};

use sentry_rows::{AsTable, Copier, CopyTable, ReadTable, Sink, Source, Table};
use sentry_tables::{Formed, Member};
use std::alloc::{AllocError, Global};

/// An error of the C library: a value of `errno`.
///
/// <https://develop.sentry.dev/sdk/data-model/event-payloads/exception/#c-error>
#[derive(Debug, Drop, PartialEq, Eq)]
pub struct CError {
    /// Error code of ISO C99 or POSIX; required.
    pub number: i32,
    /// Name of the error code, such as `ENOENT`.
    pub name: Option<String>,
}

impl CError {
    ghost use Rattle.std.specs.Prelude.{◌≡◌, IfOk};
    ghost use Rattle.sentry_tables.specs.Defaults.{IsDefault};
    ghost use Rattle.sentry_frames.specs.Causes.{c_error_cell};

    /// Creates a C error with the number 0 and no name.
    #[tactic(auto, unfolding(crate::specs::Causes::c_error_fields))]
    pub fn default_in(_alloc: Global) -> CError
        ensures { IsDefault c_error_fields result }
    {
        CError {
            number: 0,
            name: None,
        }
    }

    /// Clones the error. `AllocError` if an allocation fails.
    pub fn clone(&self) -> Result<CError, AllocError>
        ensures { IfOk result (λ copy. c_error_cell copy ≡ c_error_cell self.now) }
    {
        self.copy()
    }
}

impl Formed for CError {
    type Form = AsTable;
}

impl From<i32> for CError {
    ghost use Rattle.std.specs.Prelude.{◌≡◌, None};

    ghost from_gives = { λ n e. (e.number ≡ n) × (e.name ≡ None) };

    fn from(number: i32) -> CError {
        CError { number, name: None }
    }
}

impl From<CError> for i32 {
    ghost use Rattle.std.specs.Prelude.{◌≡◌};

    ghost from_gives = { λ e n. n ≡ e.number };

    fn from(error: CError) -> i32 {
        error.number
    }
}

impl Table for CError {
    ghost lines = { c_error_fields };

    fn rows<S: Sink>(&self, to: &mut S) {
        to.optional("name", &self.name);
        to.required("number", &self.number);
    }

    ghost ordered = { c_error_in_order };
}

impl ReadTable for CError {
    fn read<S: Source>(from: &mut S) -> CError {
        CError {
            name: from.optional("name"),
            number: from.required("number", 0),
        }
    }
}

impl CopyTable for CError {
    fn copy_rows(&self, copies: &mut Copier) -> Result<CError, AllocError> {
        Ok(CError {
            name: copies.optional(&self.name),
            number: copies.plain(&self.number),
        })
    }
}
