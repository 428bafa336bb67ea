//! Bytes with what all notes but one put at their places.

ghost use Rattle.std.specs.Prelude.{◌≡◌, ◌≤◌, ◌<◌, length, IfOk, IfSome};
ghost use Rattle.sentry_places.specs.Needed.{without};
ghost use Rattle.sentry_places.specs.Spliced.{spliced};

use crate::note::Note;
use crate::splicing::{push_rest, push_spliced};
use std::alloc::{AllocError, Global};

/// Returns the bytes from an index on, with what all notes but one put there; `None` if the notes
/// aren't in order.
///
/// # Errors
///
/// `AllocError` if an allocation fails.
pub fn splice_without(
    alloc: Global,
    bytes: &[u8],
    start: usize,
    notes: &[Note],
    k: usize,
) -> Result<Option<Vec<u8>>, AllocError>
    requires start { start ≤ length bytes.now }
    requires k { k < length notes.now }
    ensures { IfOk result (λ o. IfSome o (λ text.
        text.items ≡ spliced start (without k notes.now) bytes.now)) }
{
    let mut text = Vec::with_capacity(alloc, bytes.len() - start)?;
    let Some(at) = push_spliced(&mut text, bytes, start, &notes[..k])? else {
        return Ok(None);
    };
    if !push_rest(&mut text, bytes, at, &notes[k + 1..])? {
        return Ok(None);
    }
    Ok(Some(text))
}
