//! The error of reading values from JSON.

ghost use Rattle.std.specs.Prelude.{◌≡◌};

use std::alloc::{AllocError, AllocFailed};
use thiserror::Error;

/// Error of reading a value from a JSON tree or a line of JSON.
#[derive(Clone, Copy, Debug, PartialEq, Eq, Error)]
pub enum TreeError {
    /// The tree is not a value of the type, or [`read_tree`](crate::read_tree) rejects the line.
    #[error("Misfit")]
    Misfit,
    /// An allocation failed, or a URL would take 4 GB.
    #[error("out of memory")]
    Memory,
}

impl From<AllocError> for TreeError {
    ghost use Rattle.sentry_tables.specs.declared.error.TreeError.TheVariants.{Memory};

    ghost from_gives = { λ _ e. e ≡ Memory };

    fn from(_e: AllocError) -> TreeError {
        TreeError::Memory
    }
}

impl<T: Drop> From<AllocFailed<T>> for TreeError {
    ghost use Rattle.sentry_tables.specs.declared.error.TreeError.TheVariants.{Memory};

    ghost from_gives = { λ _ e. e ≡ Memory };

    fn from(_e: AllocFailed<T>) -> TreeError {
        TreeError::Memory
    }
}
