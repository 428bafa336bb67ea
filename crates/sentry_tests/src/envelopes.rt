//! Envelopes: what builders make, their memory, their files, and writers that fail.

mod files;
mod headers;
mod long;
pub(crate) mod memory;
mod writing;

use rand_pcg::Pcg32;
use sentry_types::protocol::v7::{Envelope, EnvelopeError, Moment};
use std::alloc::Global;

/// The envelope that bytes spell at second 0.
pub(crate) fn read(alloc: Global, bytes: &[u8]) -> Result<Envelope, EnvelopeError> {
    let now = Moment::new(0, 0).unwrap();
    Envelope::from_slice(alloc, bytes, now, &mut Pcg32::new(42, 54))
}

/// Whether an envelope is written as this text.
fn is_written(alloc: Global, envelope: &Envelope, text: &str) -> bool {
    let mut out = Vec::new(alloc);
    envelope.to_writer(alloc, &mut out).is_ok() && out.as_slice() == text.as_bytes()
}

/// Whether an envelope was made, and is written as this text.
pub(crate) fn is_text<E: Drop>(alloc: Global, made: Result<Envelope, E>, text: &str) -> bool {
    match made {
        Ok(envelope) => {
            let written = is_written(alloc, &envelope, text);
            drop(envelope);
            written
        }
        Err(_) => false,
    }
}
