//! Frames of any item type: the items that they read as, what is lost with them, and what is left
//! of an envelope without some, whose losses a ledger records.

use crate::asked::said_of;
use crate::bytes::said_bytes;
use crate::envelopes::{said_envelope, said_losses};
use crate::ledger::{begun, said_held};
use crate::said::{as_tree, list, refused, text};
use rand_pcg::Pcg32;
use sentry_types::protocol::v7::client_report::{
    ForwardFailed, Ledger, LossSlice, Reason, forward_recorded, frame_losses,
};
use sentry_types::protocol::v7::{
    AnyFrame, AnyFrames, Envelope, EnvelopeItem, ForwardRules, Moment, Value, read_item,
};
use std::alloc::{AllocError, Global};

// The text of an envelope of an item.
fn said_item(alloc: Global, item: EnvelopeItem) -> Result<Value, AllocError> {
    match Envelope::from_item(alloc, item) {
        Ok(envelope) => {
            let told = said_envelope(alloc, &envelope);
            drop(envelope);
            told
        }
        Err(refused) => {
            drop(refused);
            Err(AllocError)
        }
    }
}

// What a frame reads as at second 0, or why it reads as nothing.
fn said_typed(alloc: Global, frame: &AnyFrame<'_>, ids: &mut Pcg32) -> Result<Value, AllocError> {
    let now = Moment::new(0, 0).unwrap();
    match read_item(alloc, frame.header, frame.payload, now, ids) {
        Ok(item) => said_item(alloc, item),
        Err(error) => refused(alloc, &error),
    }
}

// What is said of each frame, up to a refusal.
fn of_each<F: FnMut(&AnyFrame<'_>) -> Result<Value, AllocError>>(
    alloc: Global,
    bytes: &[u8],
    mut say: F,
) -> Result<Value, AllocError>
    requires { F.IsAlwaysCallable say }
{
    let mut frames = match AnyFrames::new(alloc, bytes) {
        Ok(frames) => frames,
        Err(error) => return refused(alloc, &error),
    };
    let mut told = Vec::new(alloc);
    for _ in 0..bytes.len() {
        match frames.next_frame(alloc) {
            Some(Ok(frame)) => told.push(say(&frame)?)?,
            Some(Err(error)) => told.push(refused(alloc, &error)?)?,
            None => break,
        }
    }
    Ok(Value::from(told))
}

/// What each frame reads as, written as an envelope of its item, or why it reads as nothing; up to
/// a refusal.
pub fn of_typed(alloc: Global, bytes: &[u8]) -> Result<Value, AllocError> {
    let mut ids = Pcg32::new(42, 54);
    of_each(
        alloc,
        bytes,
        |frame: &AnyFrame<'_>| said_typed(alloc, frame, &mut ids),
    )
}

fn said_frame_losses(alloc: Global, frame: &AnyFrame<'_>) -> Result<Value, AllocError> {
    let losses = frame_losses(alloc, frame)?;
    said_losses(alloc, &LossSlice(losses.as_slice()))
}

/// What is lost with each frame, up to a refusal.
pub fn of_frame_losses(alloc: Global, bytes: &[u8]) -> Result<Value, AllocError> {
    of_each(
        alloc,
        bytes,
        |frame: &AnyFrame<'_>| said_frame_losses(alloc, frame),
    )
}

fn is_among(words: &str, word: &str) -> bool {
    words.split(' ').any(|other| other == word)
}

// What is left of an envelope without the frames of some types, how many of their losses a ledger
// refuses, and what it holds afterwards.
fn said_forwarded(
    alloc: Global,
    bytes: &[u8],
    words: &str,
    reason: Reason,
    ledger: &mut Ledger,
) -> Result<Value, AllocError> {
    let rules = ForwardRules::new();
    let mut keeps = |frame: &AnyFrame<'_>| !is_among(words, frame.word.as_str());
    match forward_recorded(alloc, bytes, rules, &mut keeps, reason, ledger) {
        Ok((forwarded, refused)) => {
            let left = said_bytes(alloc, forwarded.to_vec(alloc)?.as_slice());
            list(alloc, [left, as_tree(refused), said_held(alloc, ledger)])
        }
        Err(ForwardFailed::Refused(error)) => refused(alloc, &error),
        Err(ForwardFailed::Unrecorded(_)) => Err(AllocError),
    }
}

/// What is left of the envelope in bytes without the frames of some types, how many of their losses
/// are refused, and what is held afterwards. The first word is the reason; steps may stand after
/// `; `, and come first.
pub fn of_forwarded(alloc: Global, words: &str, bytes: &[u8]) -> Result<Value, AllocError> {
    match begun(alloc, words)? {
        Some((mut ledger, reason, words)) => {
            said_forwarded(alloc, bytes, words, reason, &mut ledger)
        }
        None => text(alloc, "no steps"),
    }
}
