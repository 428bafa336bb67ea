//! Bytes with what notes put at their places.

ghost use Rattle.std.specs.Prelude.{◌≡◌, ◌≤◌, ◌++◌, List, length, IfOk, IfSome, IsTrue};
ghost use Rattle.sentry_places.specs.declared.note.Note.{Note as Notes};
ghost use Rattle.sentry_places.specs.Spliced.{AreInOrder, spliced};

use crate::note::Note;
use std::alloc::AllocError;

/// Appends the bytes from an index up to the last note, with what the notes put there. Returns the
/// index behind that note; `None` if the notes aren't in order.
///
/// # Errors
///
/// `AllocError` if an allocation fails.
pub fn push_spliced(
    text: &mut Vec<u8>,
    bytes: &[u8],
    from: usize,
    notes: &[Note],
) -> Result<Option<usize>, AllocError>
    requires { from ≤ length bytes.now }
    ensures within { IfOk result (λ o. IfSome o (λ end. end ≤ length bytes.now)) }
    ensures in_order { IfOk result (λ o. IfSome o (λ end. (more : List Notes) →
        AreInOrder end more bytes.now → AreInOrder from (notes.now ++ more) bytes.now)) }
    ensures text { IfOk result (λ o. IfSome o (λ end. (more : List Notes) →
        text.new.items ++ spliced end more bytes.now ≡
        text.old.items ++ spliced from (notes.now ++ more) bytes.now)) }
{
    let mut at = from;
    let mut left = notes;
    while let Some((note, rest)) = left.split_first() {
        if note.start < at || note.end < note.start || bytes.len() < note.end {
            return Ok(None);
        }
        text.extend_from_slice(&bytes[at..note.start])?;
        text.extend_from_slice(&note.instead)?;
        at = note.end;
        left = rest;
    }
    Ok(Some(at))
}

/// Appends the bytes from an index on, with what the notes put there. Returns whether the notes
/// are in order.
///
/// # Errors
///
/// `AllocError` if an allocation fails.
pub fn push_rest(
    text: &mut Vec<u8>,
    bytes: &[u8],
    from: usize,
    notes: &[Note],
) -> Result<bool, AllocError>
    requires { from ≤ length bytes.now }
    ensures in_order { IfOk result (λ b. IsTrue b → AreInOrder from notes.now bytes.now) }
    ensures text { IfOk result (λ b. IsTrue b →
        text.new.items ≡ text.old.items ++ spliced from notes.now bytes.now) }
{
    let mut at = from;
    let mut left = notes;
    while let Some((note, rest)) = left.split_first() {
        if note.start < at || note.end < note.start || bytes.len() < note.end {
            return Ok(false);
        }
        text.extend_from_slice(&bytes[at..note.start])?;
        text.extend_from_slice(&note.instead)?;
        at = note.end;
        left = rest;
    }
    text.extend_from_slice(&bytes[at..])?;
    Ok(true)
}
