//! The error of forwarding by rules.
use sentry_framing::EnvelopeError;
use std::alloc::AllocError;
use thiserror::Error;

/// The error of forwarding by rules.
#[derive(Debug, Drop, Error)]
pub enum ForwardError {
    /// The envelope has more items than the rules allow.
    #[error("TooManyItems")]
    TooManyItems,
    /// The bytes can't be framed, or an allocation failed.
    #[error("{0}")]
    Envelope(EnvelopeError),
}

impl From<EnvelopeError> for ForwardError {
    ghost use Rattle.std.specs.Prelude.{◌≡◌};
    ghost use Rattle.sentry_forward.specs.declared.error.ForwardError.TheVariants.{Envelope};

    ghost from_gives = { λ error e. e ≡ Envelope error };

    fn from(error: EnvelopeError) -> ForwardError {
        ForwardError::Envelope(error)
    }
}

impl From<AllocError> for ForwardError {
    ghost use Rattle.std.specs.Prelude.{◌≡◌};
    ghost use Rattle.sentry_framing.specs.declared.error.EnvelopeError.TheVariants.{OutOfMemory};
    ghost use Rattle.sentry_forward.specs.declared.error.ForwardError.TheVariants.{Envelope};

    ghost from_gives = { λ _ e. e ≡ Envelope OutOfMemory };

    fn from(_error: AllocError) -> ForwardError {
        ForwardError::Envelope(EnvelopeError::OutOfMemory)
    }
}
