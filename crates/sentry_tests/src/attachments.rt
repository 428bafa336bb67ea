//! Attachments, recordings and containers by themselves: clones and normal forms, and writers that
//! fail.

use crate::wanted::{holds, is_same, wanted};
use crate::writers::Full;
use sentry_types::protocol::v7::{
    Attachment, AttachmentWriteError, ItemContainer, Log, ReplayRecording,
};
use std::alloc::{AllocError, Global};
use std::test::Fail;

const HELLO: &[u8] =
    b"{\"attachment_type\":\"event.attachment\",\"content_type\":\"application/octet-stream\",\"filename\":\"\",\"length\":10,\"type\":\"attachment\"}\nhelloworld";

/// An attachment of these bytes.
pub(crate) fn attachment(alloc: Global, bytes: &[u8]) -> Result<Attachment, AllocError> {
    let buffer = bytes.to_vec(alloc)?;
    Ok(Attachment {
        buffer,
        filename: String::new(alloc),
        content_type: None,
        ty: None,
    })
}

/// Whether a writer with so much room, which takes so many bytes at once, gets that much of the
/// text, and the answer is `Io` where the room is too small.
fn is_cut(
    alloc: Global,
    attachment: &Attachment,
    room: usize,
    at_once: usize,
    by_error: bool,
) -> bool {
    let mut out = Full::new(alloc, room, at_once, by_error);
    let ended = match attachment.to_writer(alloc, &mut out) {
        Ok(()) => room == HELLO.len(),
        Err(AttachmentWriteError::Io) => room < HELLO.len(),
        Err(_) => false,
    };
    ended && out.holds(HELLO, room)
}

/// Whether a writer, however many bytes it takes at once, gets as much of the text as it has room
/// for.
fn is_written(alloc: Global, attachment: &Attachment) -> bool {
    for at_once in [1, 7, 1000] {
        for room in 0..HELLO.len() + 1 {
            if !is_cut(alloc, attachment, room, at_once, false)
                || !is_cut(alloc, attachment, room, at_once, true)
            {
                return false;
            }
        }
    }
    true
}

#[test]
fn a_failed_write_ends_an_attachment(rt: HostRuntime) -> Result<(), Fail> {
    let alloc = rt.alloc();
    wanted(holds(alloc, attachment(alloc, b"helloworld"), is_written))
}

/// Whether a recording of one byte is its clone and its normal form.
fn is_steady(recording: &ReplayRecording) -> bool {
    is_same(recording.clone(), recording)
        && is_same(recording.normalized(), recording)
        && recording.buffer.as_slice() == [1].as_slice()
}

#[test]
fn recordings(rt: HostRuntime) -> Result<(), Fail> {
    let mut recording = ReplayRecording::default_in(rt.alloc());
    recording.buffer = [1].to_vec(rt.alloc())?;
    wanted(is_steady(&recording))
}

/// A container without logs.
fn no_logs(alloc: Global) -> Result<ItemContainer, AllocError> {
    Ok(ItemContainer::from(Vec::<Log>::new(alloc)))
}

/// Whether a container of logs is empty, and is its clone.
fn is_empty(_alloc: Global, logs: &ItemContainer) -> bool {
    is_same(logs.clone(), logs) && logs.is_empty() && logs.ty() == "log"
}

#[test]
fn containers(rt: HostRuntime) -> Result<(), Fail> {
    wanted(holds(rt.alloc(), no_logs(rt.alloc()), is_empty))
}
