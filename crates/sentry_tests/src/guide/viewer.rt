//! A viewer: it lists what an envelope holds and loses, and says where a damaged one fails.

use crate::envelopes::read;
use crate::wanted::wanted;
use sentry_types::protocol::v7::client_report::LossSource;
use sentry_types::protocol::v7::{Envelope, EnvelopeError, EnvelopeItem, Frames};
use std::alloc::{AllocError, Global};
use std::fmt::Write;
use std::test::Fail;

/// Appends a line for an item: its type, and what is lost with it.
fn push_item(lines: &mut String, item: &EnvelopeItem) -> Result<(), AllocError> {
    lines.push_str(match item.kind() {
        Some(kind) => kind.as_str(),
        None => "raw",
    })?;
    for loss in item.losses() {
        lines.push_str(" -")?;
        lines.push_str(loss.category.as_str())?;
    }
    lines.push_str("\n")
}

/// Returns a line for each item of an envelope.
fn list(alloc: Global, envelope: &Envelope) -> Result<String, AllocError> {
    let mut lines = String::new(alloc);
    for item in envelope.items() {
        push_item(&mut lines, item)?;
    }
    Ok(lines)
}

/// Returns where the framing of an envelope fails: how many bytes stand before the frame that is at
/// fault, and the error.
fn fault(alloc: Global, bytes: &[u8]) -> Option<(usize, EnvelopeError)> {
    let mut frames = Frames::new(bytes);
    for _ in 0..bytes.len() {
        let at = bytes.len().saturating_sub(frames.rest().len());
        if let Err(error) = frames.next_frame(alloc)? {
            return Some((at, error));
        }
    }
    None
}

#[test]
fn items_are_listed(rt: HostRuntime) -> Result<(), Fail> {
    let bytes = b"{}\n{\"type\":\"attachment\"}\nabc\n{\"type\":\"replay_recording\"}\n";
    let text = "attachment -attachment\nreplay_recording -replay\n";
    let envelope = read(rt.alloc(), bytes)?;
    let lines = list(rt.alloc(), &envelope);
    drop(envelope);
    wanted(lines?.as_str() == text)
}

#[test]
fn a_fault_is_found(rt: HostRuntime) -> Result<(), Fail> {
    let damaged =
        b"{}\n{\"type\":\"replay_recording\"}\nabc\n{\"type\":\"replay_recording\",\"length\":9}\nabc";
    let found = fault(rt.alloc(), damaged);
    wanted(matches!(found, Some((35, EnvelopeError::UnexpectedEof))))
}
