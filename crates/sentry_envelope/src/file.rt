//! Reading of files.
ghost use Rattle.std.specs.Prelude.{◌≡◌, ◌⊎◌, IfErr};

use sentry_framing::EnvelopeError;
use std::fs;
use std::io::ErrorKind;
use std::rt::Files;

// Reads a file. `UnexpectedEof` stands for every failure but a failed allocation.
pub(crate) fn read_file<F: Files + AllocGlobal>(
    rt: &F,
    path: &str,
) -> Result<Vec<u8>, EnvelopeError>
    ensures { IfErr result (λ x. (x ≡ EnvelopeError.UnexpectedEof) ⊎
        (x ≡ EnvelopeError.OutOfMemory)) }
{
    match fs::read(rt, path) {
        Ok(bytes) => Ok(bytes),
        Err(error) if error.kind() == ErrorKind::OutOfMemory => Err(EnvelopeError::OutOfMemory),
        Err(_) => Err(EnvelopeError::UnexpectedEof),
    }
}
