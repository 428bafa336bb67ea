//! A spool: it keeps envelopes in files, finds doubles, and reads files that were cut off.

use crate::envelopes::read;
use crate::wanted::{is_done, wanted};
use sentry_types::protocol::v7::{Envelope, EnvelopeWriteError, Frames};
use std::alloc::Global;
use std::fs;
use std::test::Fail;

/// Stores an envelope as a file.
fn store(rt: &HostRuntime, path: &str, envelope: &Envelope) -> Result<(), Fail> {
    let text = envelope.to_vec(rt.alloc())?;
    fs::write(rt, path, &text)?;
    Ok(())
}

/// Returns the text of an envelope's normal form. Two plain, readable envelopes have the same
/// normal form exactly if these texts are the same.
fn normal_text(alloc: Global, envelope: &Envelope) -> Result<Vec<u8>, EnvelopeWriteError> {
    match envelope.normalized() {
        Ok(normal) => normal.to_vec(alloc),
        Err(_) => Err(EnvelopeWriteError::Memory),
    }
}

/// Returns how many of the bytes are the header line and items that were written whole: each ends
/// in a line feed, behind its header and behind its payload.
fn whole_len(alloc: Global, bytes: &[u8]) -> usize {
    let mut frames = Frames::new(bytes);
    let mut whole = bytes.len().saturating_sub(frames.rest().len());
    for _ in 0..bytes.len() {
        let Some(Ok(frame)) = frames.next_frame(alloc) else {
            break;
        };
        let end = bytes.len().saturating_sub(frames.rest().len());
        let texts = frame.header.len().saturating_add(frame.payload.len());
        if end.saturating_sub(whole) < texts.saturating_add(2) {
            break;
        }
        whole = end;
    }
    whole
}

const STORED: &str = "{}\n{\"length\":3,\"type\":\"replay_recording\"}\nabc\n";

/// The text of the normal form of the envelope that bytes spell.
fn normal_text_of(alloc: Global, bytes: &[u8]) -> Result<Vec<u8>, Fail> {
    let envelope = read(alloc, bytes)?;
    let text = normal_text(alloc, &envelope);
    drop(envelope);
    Ok(text?)
}

#[test]
fn doubles_are_found(rt: HostRuntime) -> Result<(), Fail> {
    let alloc = rt.alloc();
    let spelled = b"{ }\n{\"type\": \"replay_recording\"}\nabc";
    let envelope = read(alloc, spelled)?;
    let kept = store(&rt, "stored", &envelope);
    drop(envelope);
    kept?;
    let stored = fs::read(&rt, "stored")?;
    wanted(
        stored.as_slice() == STORED.as_bytes()
            && normal_text_of(alloc, spelled)? == normal_text_of(alloc, &stored)?,
    )
}

#[test]
fn a_cut_file_has_whole_items(rt: HostRuntime) -> Result<(), Fail> {
    let alloc = rt.alloc();
    let cut = "{}\n{\"length\":3,\"type\":\"replay_recording\"}\nabc\n{\"length\":9,\"type\":\"a";
    wanted(!is_done(read(alloc, cut.as_bytes())))?;
    let whole = whole_len(alloc, cut.as_bytes());
    let prefix = cut.as_bytes().get(..whole).unwrap_or(&[]);
    wanted(prefix == STORED.as_bytes())?;
    let logs = "{}\n{\"type\":\"log\"}\n{\"items\":[";
    wanted(
        whole_len(alloc, logs.as_bytes()) == 3
            && whole_len(alloc, b"{}\n{\"type\":\"log\"}\n") == 3,
    )
}
