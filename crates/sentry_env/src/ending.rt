//! How the program ends: exit statuses and messages.

ghost use Rattle.std.specs.Prelude.{◌≡◌};
ghost use Rattle.sentry_env.specs.Ending.{ending_of, usage_ending, run_error_of, refusal_of};

use crate::read_all::ReadError;
use sentry_framing::sending::SendFailed;
use sentry_types::protocol::v7::EnvelopeError;
use std::alloc::AllocError;

/// The message for a usage error.
pub const USAGE: &str = "usage: sentry_env [-k] [-f PATH] KIND..";

/// How a run succeeded.
#[derive(Clone, Copy)]
pub enum Outcome {
    /// An envelope was written.
    Written,
    /// No item is left; only the table of losses was written.
    NothingLeft,
}

/// Why a run failed.
#[derive(Drop)]
pub enum RunError {
    /// The input is no envelope.
    Refused(EnvelopeError),
    /// A read failed.
    Read,
    /// An allocation failed.
    Memory,
    /// A write failed.
    Write,
}

impl From<ReadError> for RunError {
    ghost from_gives = { λ error result. result ≡ run_error_of error };

    fn from(error: ReadError) -> RunError {
        match error {
            ReadError::Read => RunError::Read,
            ReadError::Memory => RunError::Memory,
        }
    }
}

impl From<EnvelopeError> for RunError {
    ghost from_gives = { λ error result. result ≡ refusal_of error };

    fn from(error: EnvelopeError) -> RunError {
        match error {
            EnvelopeError::OutOfMemory => RunError::Memory,
            fault => RunError::Refused(fault),
        }
    }
}

impl From<AllocError> for RunError {
    ghost use Rattle.sentry_env.specs.declared.ending.RunError.TheVariants.{Memory};

    ghost from_gives = { λ _ result. result ≡ Memory };

    fn from(_: AllocError) -> RunError {
        RunError::Memory
    }
}

impl From<SendFailed> for RunError {
    ghost use Rattle.sentry_env.specs.declared.ending.RunError.TheVariants.{Write};

    ghost from_gives = { λ _ result. result ≡ Write };

    fn from(_: SendFailed) -> RunError {
        RunError::Write
    }
}

/// Returns the exit status and the message for standard error, which is empty if there is none.
/// Doesn't allocate.
pub fn ending(answer: &Result<Outcome, RunError>) -> (u8, &'static str)
    ensures status { result.0 ≡ (ending_of answer.now).status }
    ensures line { result.1.now ≡ (ending_of answer.now).line }
{
    match answer {
        Ok(Outcome::Written) => (0, ""),
        Ok(Outcome::NothingLeft) => (1, ""),
        Err(RunError::Refused(EnvelopeError::UnexpectedEof) | RunError::Read) => {
            (2, "sentry_env: unexpected end of file")
        }
        Err(RunError::Refused(EnvelopeError::MissingHeader)) => {
            (2, "sentry_env: missing envelope header")
        }
        Err(RunError::Refused(EnvelopeError::MissingItemHeader)) => {
            (2, "sentry_env: missing item header")
        }
        Err(RunError::Refused(EnvelopeError::MissingNewline)) => {
            (2, "sentry_env: missing newline after header or payload")
        }
        Err(RunError::Refused(EnvelopeError::InvalidHeader)) => {
            (2, "sentry_env: invalid envelope header")
        }
        Err(RunError::Refused(EnvelopeError::InvalidItemHeader)) => {
            (2, "sentry_env: invalid item header")
        }
        Err(RunError::Refused(EnvelopeError::InvalidItemPayload)) => {
            (2, "sentry_env: invalid item payload")
        }
        Err(RunError::Refused(EnvelopeError::OutOfMemory) | RunError::Memory) => {
            (4, "sentry_env: out of memory")
        }
        Err(RunError::Write) => (4, "sentry_env: write failed"),
    }
}

/// Returns the exit status and the message for a usage error. Doesn't allocate.
pub fn usage() -> (u8, &'static str)
    ensures status { result.0 ≡ usage_ending.status }
    ensures line { result.1.now ≡ usage_ending.line }
{
    (3, USAGE)
}
