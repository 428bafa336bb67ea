//! Frames of any item type, and envelopes that are forwarded by a list of answers.

use crate::bytes::said_bytes;
use crate::said::{as_tree, list, maybe, refused, text};
use sentry_types::protocol::v7::{
    AnyFrame, AnyFrames, ForwardError, ForwardRules, Forwarded, Value, forward_by,
};
use std::alloc::{AllocError, Global};

// The type of a frame, its length and its known type or null, its header and payload, and the
// offsets of the item, its header and its payload.
fn said_frame(alloc: Global, frame: &AnyFrame<'_>) -> Result<Value, AllocError> {
    let length = match frame.length {
        Some(length) => Value::from(length),
        None => Value::Null,
    };
    let kind = match frame.kind() {
        Some(kind) => Some(kind.as_str()),
        None => None,
    };
    let offsets = list(
        alloc,
        [
            as_tree(frame.start as u64),
            as_tree(frame.header_start as u64),
            as_tree(frame.payload_start as u64),
        ],
    );
    list(
        alloc,
        [
            text(alloc, frame.word.as_str()),
            Ok(length),
            maybe(alloc, kind),
            said_bytes(alloc, frame.header),
            said_bytes(alloc, frame.payload),
            offsets,
        ],
    )
}

/// The header line of bytes, and each frame of any item type, up to a refusal.
pub fn of_any_frames(alloc: Global, bytes: &[u8]) -> Result<Value, AllocError> {
    let mut frames = match AnyFrames::new(alloc, bytes) {
        Ok(frames) => frames,
        Err(error) => return refused(alloc, &error),
    };
    let mut told = Vec::new(alloc);
    told.push(said_bytes(alloc, frames.header_line())?)?;
    for _ in 0..bytes.len() {
        let Some(next) = frames.next_frame(alloc) else {
            break;
        };
        told.push(match next {
            Ok(frame) => said_frame(alloc, &frame)?,
            Err(error) => refused(alloc, &error)?,
        })?;
    }
    Ok(Value::from(told))
}

// The rules that words in front of the answers name: `-a` for attachments that follow, and `-m` and
// a number of items.
fn rules_of(words: &str) -> (ForwardRules, &str) {
    let mut rules = ForwardRules::new();
    let mut left = words;
    if let Some(rest) = left.strip_prefix("-a ") {
        rules.attachments_follow = true;
        left = rest;
    }
    if let Some(rest) = left.strip_prefix("-m ") {
        let (number, rest) = rest.split_once(' ').unwrap_or((rest, ""));
        if let Ok(most) = number.parse::<usize>() {
            rules.max_items = most;
        }
        left = rest;
    }
    (rules, left)
}

// The types of frames.
fn said_words(alloc: Global, frames: &[AnyFrame<'_>]) -> Result<Value, AllocError> {
    let mut told = Vec::new(alloc);
    for frame in frames {
        told.push(text(alloc, frame.word.as_str())?)?;
    }
    Ok(Value::from(told))
}

// What is left, which is written as it is given as a vector; the types of what goes; and whether an
// item is left.
fn said_forwarded(
    alloc: Global,
    forwarded: &Forwarded<'_>,
    asked: Vec<Value>,
) -> Result<Value, AllocError> {
    let bytes = forwarded.to_vec(alloc)?;
    let mut written = Vec::new(alloc);
    if forwarded.to_writer(&mut written).is_err() {
        drop(bytes);
        drop(asked);
        return Err(AllocError);
    }
    if written.as_slice() != bytes.as_slice() {
        drop(bytes);
        drop(asked);
        return text(alloc, "two texts");
    }
    list(
        alloc,
        [
            said_bytes(alloc, &bytes),
            said_words(alloc, &forwarded.dropped),
            as_tree(asked),
            as_tree(forwarded.nonempty_parts().is_some()),
        ],
    )
}

/// What is left of an envelope by some answers, the types of the frames that go, and those that are
/// asked about.
pub fn of_forward(alloc: Global, words: &str, bytes: &[u8]) -> Result<Value, AllocError> {
    let (rules, answers) = rules_of(words);
    let mut left = answers.as_bytes();
    let mut asked = Vec::new(alloc);
    let mut failed = false;
    let mut filter = |frame: &AnyFrame<'_>| -> bool {
        match text(alloc, frame.word.as_str()) {
            Ok(word) => if asked.push(word).is_err() {
                failed = true;
            },
            Err(_) => failed = true,
        }
        match left.split_first() {
            Some((answer, rest)) => {
                left = rest;
                *answer == b'y'
            }
            None => false,
        }
    };
    let forwarded = forward_by(alloc, bytes, rules, &mut filter);
    if failed {
        return Err(AllocError);
    }
    match forwarded {
        Ok(forwarded) => said_forwarded(alloc, &forwarded, asked),
        Err(ForwardError::Envelope(error)) => refused(alloc, &error),
        Err(error) => refused(alloc, &error),
    }
}
