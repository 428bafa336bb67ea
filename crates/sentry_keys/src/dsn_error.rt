//! Errors of parsing a DSN.

ghost use Rattle.std.specs.Prelude.{◌≡◌};
ghost use Rattle.sentry_keys.specs.declared.dsn_error.ParseDsnError.TheVariants.{InvalidProjectId, Memory};

use sentry_text::ParseProjectIdError;
use std::alloc::AllocError;
use thiserror::Error;

/// An error of parsing a [`Dsn`](crate::Dsn).
#[derive(Debug, Drop, Error)]
pub enum ParseDsnError {
    /// The text is no URL, or the URL has no host.
    #[error("no valid url provided")]
    InvalidUrl,
    /// The URL's scheme is neither `http` nor `https`.
    #[error("no valid scheme")]
    InvalidScheme,
    /// The URL has no user name, which is the public key.
    #[error("username is empty")]
    NoUsername,
    /// The URL's path is `/`.
    #[error("empty path")]
    NoProjectId,
    /// The URL's path has no project id.
    #[error("invalid project id")]
    InvalidProjectId(ParseProjectIdError),
    /// An allocation failed, or the URL would take 4 GB.
    #[error("out of memory")]
    Memory,
}

impl From<ParseProjectIdError> for ParseDsnError {
    ghost from_gives = { λ p e. e ≡ InvalidProjectId p };

    fn from(error: ParseProjectIdError) -> ParseDsnError {
        ParseDsnError::InvalidProjectId(error)
    }
}

impl From<AllocError> for ParseDsnError {
    ghost from_gives = { λ _ e. e ≡ Memory };

    fn from(_error: AllocError) -> ParseDsnError {
        ParseDsnError::Memory
    }
}
