//! Answers to bytes.

use crate::asked::said_of;
use crate::built::{begun, of_built};
use crate::envelopes::{
    of_envelope, of_frames, of_rewritten, read, said_containers, said_losses, said_raw,
};
use crate::filters::{of_answers, of_filter};
use crate::form::{of_apart, of_flat, of_tape};
use crate::forwarding::{of_any_frames, of_forward};
use crate::ledger::of_recorded;
use crate::mending::{of_explain, of_mend};
use crate::said::{as_tree, list, text};
use crate::trees::of_tree;
use crate::typed::{of_forwarded, of_frame_losses, of_typed};
use sentry_types::protocol::v7::Value;
use std::alloc::{AllocError, Global};
use std::str;

/// The bytes that are given in hex.
pub fn decoded(alloc: Global, given: &str) -> Result<Option<Vec<u8>>, AllocError> {
    match hex::decode(alloc, given.as_bytes()) {
        Ok(bytes) => Ok(Some(bytes)),
        Err(_) => Ok(None),
    }
}

/// Bytes as a text, or where they are none, `hex` and the digits in a list.
pub fn said_bytes(alloc: Global, bytes: &[u8]) -> Result<Value, AllocError> {
    match str::from_utf8(bytes) {
        Ok(found) => text(alloc, found),
        Err(_) => {
            let digits = hex::encode(alloc, bytes)?;
            list(alloc, [text(alloc, "hex"), as_tree(digits)])
        }
    }
}

/// The answer to a name and bytes, where the name asks about bytes.
pub fn of_bytes(alloc: Global, name: &str, bytes: &[u8]) -> Option<Result<Value, AllocError>> {
    if let Some(name) = name.strip_prefix("tree ") {
        return of_tree(alloc, name, bytes);
    }
    if let Some(words) = name.strip_prefix("filter ") {
        return Some(of_filter(alloc, words, bytes));
    }
    if let Some(words) = name.strip_prefix("recorded ") {
        return Some(of_recorded(alloc, words, bytes));
    }
    if let Some(words) = name.strip_prefix("forwarded ") {
        return Some(of_forwarded(alloc, words, bytes));
    }
    if let Some(words) = name.strip_prefix("asked ") {
        return Some(of_answers(alloc, words, bytes));
    }
    if let Some(words) = name.strip_prefix("forward ") {
        return Some(of_forward(alloc, words, bytes));
    }
    if let Some(words) = name.strip_prefix("mend ") {
        return Some(of_mend(alloc, words, bytes));
    }
    if let Some(words) = name.strip_prefix("built ") {
        return Some(of_built(alloc, words, bytes));
    }
    Some(match name {
        "tape" => of_tape(alloc, bytes),
        "flat" => of_flat(alloc, bytes),
        "apart" => of_apart(alloc, bytes),
        "raw" => said_of(alloc, begun(alloc, "raw", bytes), said_raw),
        "envelope" => of_envelope(alloc, bytes),
        "rewritten" => of_rewritten(alloc, bytes),
        "explain" => of_explain(alloc, bytes),
        "frames" => of_frames(alloc, bytes),
        "any_frames" => of_any_frames(alloc, bytes),
        "containers" => said_of(alloc, read(alloc, bytes), said_containers),
        "losses" => said_of(alloc, read(alloc, bytes), said_losses),
        "typed" => of_typed(alloc, bytes),
        "frame losses" => of_frame_losses(alloc, bytes),
        _ => return None,
    })
}
