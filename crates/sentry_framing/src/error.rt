//! The error of reading an envelope.
use std::alloc::{AllocError, AllocFailed};
use thiserror::Error;

/// The error of reading an envelope.
///
/// The messages are those of Sentry's own crate `sentry-types`.
#[derive(Debug, Drop, Error)]
pub enum EnvelopeError {
    /// Only white space is left where an item is expected, fewer bytes are left than an item header
    /// states, or a file can't be read.
    #[error("unexpected end of file")]
    UnexpectedEof,
    /// Never returned: an empty header line is an `InvalidHeader`.
    #[error("missing envelope header")]
    MissingHeader,
    /// Never returned: bytes that are no item header are an `InvalidItemHeader`.
    #[error("missing item header")]
    MissingItemHeader,
    /// An item header, or a payload of a stated length, is followed by anything but a line feed or
    /// the end.
    #[error("missing newline after header or payload")]
    MissingNewline,
    /// The first line isn't one JSON object without floats that reads as envelope headers.
    #[error("invalid envelope header")]
    InvalidHeader,
    /// An item doesn't begin with a JSON object without floats that reads as an item header.
    #[error("invalid item header")]
    InvalidItemHeader,
    /// A payload isn't one JSON text without floats that reads as its item type.
    #[error("invalid item payload")]
    InvalidItemPayload,
    /// An allocation failed, or a URL would take 4 GB; the bytes may be an envelope.
    #[error("out of memory")]
    OutOfMemory,
}

impl From<AllocError> for EnvelopeError {
    ghost use Rattle.std.specs.Prelude.{◌≡◌};
    ghost use Rattle.sentry_framing.specs.declared.error.EnvelopeError.TheVariants.{OutOfMemory};

    ghost from_gives = { λ _ e. e ≡ OutOfMemory };

    fn from(_error: AllocError) -> EnvelopeError {
        EnvelopeError::OutOfMemory
    }
}

impl<T: Drop> From<AllocFailed<T>> for EnvelopeError {
    ghost use Rattle.std.specs.Prelude.{◌≡◌};
    ghost use Rattle.sentry_framing.specs.declared.error.EnvelopeError.TheVariants.{OutOfMemory};

    ghost from_gives = { λ _ e. e ≡ OutOfMemory };

    fn from(_error: AllocFailed<T>) -> EnvelopeError {
        EnvelopeError::OutOfMemory
    }
}
