//! The error of writing an envelope.
use thiserror::Error;

/// The error of writing an envelope.
#[derive(Debug, Drop, Error)]
pub enum EnvelopeWriteError {
    /// The envelope is structured and isn't plain: a JSON value in the envelope holds a float, or
    /// an additional member has the key of a field or, in a context, `type`. Nothing was written.
    #[error("NotPlain")]
    NotPlain,
    /// An allocation failed; nothing was written.
    #[error("out of memory")]
    Memory,
    /// A write failed; only a proper prefix of the text was written, possibly none of it.
    #[error("Io")]
    Io,
}
