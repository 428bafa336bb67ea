//! Writers that fail.

use super::read;
use crate::wanted::{holds, wanted};
use crate::writers::Full;
use sentry_types::protocol::v7::{CountedWriter, Envelope, EnvelopeWriteError};
use std::alloc::{AllocError, Global};
use std::test::Fail;

/// An envelope as it is written: an event, an attachment of no bytes, and a replay recording.
const TEXT: &str = concat!(
    "{\"event_id\":\"9ec79c33-ec99-42ab-8353-589fcb2e04dc\"}\n",
    "{\"length\":61,\"type\":\"event\"}\n",
    "{\"event_id\":\"22d00b3fd1b14b5d8d2049d138cd8a9c\",\"timestamp\":1}\n",
    "{\"attachment_type\":\"event.attachment\",\"content_type\":\"application/octet-stream\",",
    "\"filename\":\"\",\"length\":0,\"type\":\"attachment\"}\n\n",
    "{\"length\":3,\"type\":\"replay_recording\"}\nabc\n"
);

/// Whether writing ends as it should, with room for the whole text or without.
fn ends(answer: Result<(), EnvelopeWriteError>, whole: bool) -> bool {
    match answer {
        Ok(()) => whole,
        Err(EnvelopeWriteError::Io) => !whole,
        Err(_) => false,
    }
}

/// Whether a writer with so much room, which takes so many bytes at a time, gets that much of the
/// text; by a writer that counts failures too, which counts one where the room is too small.
fn is_cut(
    alloc: Global,
    envelope: &Envelope,
    text: &[u8],
    room: usize,
    at_once: usize,
    by_error: bool,
) -> bool {
    let (whole, length) = (room >= text.len(), room.min(text.len()));
    let mut out = Full::new(alloc, room, at_once, by_error);
    let mut counted = CountedWriter::new(Full::new(alloc, room, at_once, by_error));
    ends(envelope.to_writer(alloc, &mut out), whole)
        && ends(envelope.write_counted(alloc, &mut counted), whole)
        && counted.failures() == if whole { 0 } else { 1 }
        && out.holds(text, length)
        && counted.into_inner().holds(text, length)
}

/// Whether the text is cut wherever the room ends, and isn't where there is more.
fn is_cut_anywhere(alloc: Global, envelope: &Envelope) -> bool {
    let text = TEXT.as_bytes();
    for room in 0..text.len() {
        if !is_cut(alloc, envelope, text, room, 1, false)
            || !is_cut(alloc, envelope, text, room, 1, true)
        {
            return false;
        }
    }
    is_cut(alloc, envelope, text, text.len(), 1, true)
        && is_cut(alloc, envelope, text, usize::MAX, 1, false)
}

/// What stands before, between and behind a large file and a large recording.
const BEFORE: &str = concat!(
    "{}\n{\"attachment_type\":\"event.attachment\",",
    "\"content_type\":\"application/octet-stream\",\"filename\":\"a\",\"length\":65536,",
    "\"type\":\"attachment\"}\n"
);

const BETWEEN: &str = "\n{\"length\":65537,\"type\":\"replay_recording\"}\n";

const BEHIND: &str = "\n{\"length\":3,\"type\":\"replay_recording\"}\nabc\n";

/// An envelope as it is written, with a large file and a large recording.
fn large_text(alloc: Global) -> Result<Vec<u8>, AllocError> {
    let mut text = Vec::new(alloc);
    text.extend_from_slice(BEFORE.as_bytes())?;
    text.resize(BEFORE.len() + 65_536, b'f')?;
    text.extend_from_slice(BETWEEN.as_bytes())?;
    text.resize(BEFORE.len() + 65_536 + BETWEEN.len() + 65_537, b'r')?;
    text.extend_from_slice(BEHIND.as_bytes())?;
    Ok(text)
}

/// Whether the text of an envelope with large parts is cut where the room ends: before them, at
/// their ends and inside.
fn is_cut_at_parts(alloc: Global, envelope: &Envelope) -> bool {
    let Ok(text) = large_text(alloc) else {
        return false;
    };
    let file = BEFORE.len();
    let recording = file + 65_536 + BETWEEN.len();
    let end = recording + 65_537 + BEHIND.len();
    for room in [
        0,
        file - 1,
        file,
        file + 1,
        file + 65_535,
        file + 65_536,
        recording,
        recording + 65_537,
        end - 1,
        end,
        end + 1,
    ] {
        if !is_cut(alloc, envelope, &text, room, 4096, room % 2 == 0) {
            return false;
        }
    }
    true
}

#[test]
fn a_failed_write_ends_it(rt: HostRuntime) -> Result<(), Fail> {
    let alloc = rt.alloc();
    wanted(holds(alloc, read(alloc, TEXT.as_bytes()), is_cut_anywhere))
}

/// Whether an envelope with large parts is one vector of its text.
fn is_whole(alloc: Global, envelope: &Envelope) -> bool {
    match (envelope.to_vec(alloc), large_text(alloc)) {
        (Ok(written), Ok(text)) => written == text,
        _ => false,
    }
}

#[test]
fn large_parts_stand_in_one_vector(rt: HostRuntime) -> Result<(), Fail> {
    let alloc = rt.alloc();
    let text = large_text(alloc)?;
    wanted(holds(alloc, read(alloc, &text), is_whole))
}

#[test]
fn large_parts_are_sent_in_order(rt: HostRuntime) -> Result<(), Fail> {
    let alloc = rt.alloc();
    let text = large_text(alloc)?;
    wanted(holds(alloc, read(alloc, &text), is_cut_at_parts))
}
