//! Envelopes in files.

use super::is_text;
use crate::wanted::wanted;
use rand_pcg::Pcg32;
use sentry_types::protocol::v7::EnvelopeError::UnexpectedEof;
use sentry_types::protocol::v7::{Envelope, EnvelopeError, Moment};
use std::fs;
use std::test::Fail;

/// The envelope of a file, read at second 0.
fn envelope_in(rt: &HostRuntime, path: &str) -> Result<Envelope, EnvelopeError> {
    let now = Moment::new(0, 0).unwrap();
    Envelope::from_path(rt, path, now, &mut Pcg32::new(42, 54))
}

/// Whether this is how reading ends where a file is missing.
fn is_missing<T: Drop>(read: Result<T, EnvelopeError>) -> bool {
    matches!(read, Err(UnexpectedEof))
}

const TEXT: &str = "{}\n{\"type\":\"replay_recording\"}\na";

const REWRITTEN: &str = "{}\n{\"length\":1,\"type\":\"replay_recording\"}\na\n";

/// A file's envelope is read, its raw envelope is the file's text.
#[test]
fn files(rt: HostRuntime) -> Result<(), Fail> {
    let path = "an_envelope";
    fs::write(&rt, path, TEXT)?;
    wanted(
        is_text(rt.alloc(), envelope_in(&rt, path), REWRITTEN)
            && is_text(rt.alloc(), Envelope::from_path_raw(&rt, path), TEXT),
    )?;
    fs::remove_file(&rt, path)?;
    wanted(is_missing(envelope_in(&rt, path)) && is_missing(Envelope::from_path_raw(&rt, path)))
}
