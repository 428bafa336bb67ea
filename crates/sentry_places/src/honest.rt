//! Tests whether notes say what they put.

ghost use Rattle.std.specs.Prelude.{◌≡◌, ◌∷◌, ◌++◌, List, ℕ, All, IsTrue, IfOk, IfSome, OnOk};
ghost use Rattle.sentry_places.specs.Honest.{IsEmptyList, IsHonest, empty_member, last_key, quoted, quoted_byte};

use crate::note::{Note, Repair};
use std::alloc::{AllocError, Global};

/// Times of numbers of seconds.
pub trait Times {
    // the text is the time of the number, as a JSON string
    ghost is_time: { List ℕ → List ℕ → Type 0 };

    /// Returns the time of a number of seconds, as a JSON string; `None` if there is none.
    ///
    /// # Errors
    ///
    /// `AllocError` if an allocation fails.
    fn time_of(alloc: Global, number: &[u8]) -> Result<Option<Vec<u8>>, AllocError>
        ensures { IfOk result (λ o. IfSome o (λ text. is_time number.now text.items)) };
}

// Appends what stands for a byte of JSON in a string.
fn push_quoted(text: &mut Vec<u8>, byte: u8) -> Result<(), AllocError>
    ensures { OnOk result (text.new.items ≡ text.old.items ++ quoted_byte byte) }
{
    if byte == b'"' || byte == b'\\' {
        text.push(b'\\')?;
        text.push(byte)?;
    } else if byte == b'\t' || byte == b'\n' || byte == b'\r' {
        text.push(b' ')?;
    } else {
        text.push(byte)?;
    }
    Ok(())
}

/// Returns JSON as a string of the same characters.
///
/// # Errors
///
/// `AllocError` if an allocation fails.
pub fn quoted(alloc: Global, json: &[u8]) -> Result<Vec<u8>, AllocError>
    ensures { IfOk result (λ text. text.items ≡ quoted json.now) }
{
    let mut text = Vec::with_capacity(alloc, 16)?;
    text.push(b'"')?;
    let mut left = json;
    while let Some((byte, rest)) = left.split_first() {
        push_quoted(&mut text, *byte)?;
        left = rest;
    }
    text.push(b'"')?;
    Ok(text)
}

// Returns the last key of a path.
fn last_key(alloc: Global, path: &[u8]) -> Result<Vec<u8>, AllocError>
    ensures { IfOk result (λ key. key.items ≡ last_key path.now) }
{
    let mut key = Vec::with_capacity(alloc, 16)?;
    let mut left = path;
    while let Some((byte, rest)) = left.split_first() {
        if *byte == b'.' {
            key.clear();
        } else {
            key.push(*byte)?;
        }
        left = rest;
    }
    Ok(key)
}

// Returns the member of the last key of a path with an empty array.
fn empty_member(alloc: Global, path: &[u8]) -> Result<Vec<u8>, AllocError>
    ensures { IfOk result (λ text. text.items ≡ empty_member (last_key path.now)) }
{
    let key = last_key(alloc, path)?;
    let mut text = Vec::with_capacity(alloc, 16)?;
    text.push(b'"')?;
    text.extend_from_slice(&key)?;
    text.extend_from_slice(b"\":[]")?;
    Ok(text)
}

// Returns whether these bytes are an empty array, or a member of the path's last key with one.
fn is_empty_list(alloc: Global, path: &[u8], instead: &[u8]) -> Result<bool, AllocError>
    ensures { IfOk result (λ b. IsTrue b → IsEmptyList path.now instead.now) }
{
    if instead == b"[]".as_slice() {
        return Ok(true);
    }
    let member = empty_member(alloc, path)?;
    if instead == member.as_slice() {
        return Ok(true);
    }
    let Some((b',', rest)) = instead.split_first() else {
        return Ok(false);
    };
    Ok(rest == member.as_slice())
}

fn is_honest<T: Times>(alloc: Global, bytes: &[u8], note: &Note) -> Result<bool, AllocError>
    ensures { IfOk result (λ honest. IsTrue honest → IsHonest T.is_time bytes.now note.now) }
{
    if note.end < note.start || bytes.len() < note.end {
        return Ok(false);
    }
    let stood = &bytes[note.start..note.end];
    match note.repair {
        Repair::AsMoment => match T::time_of(alloc, stood)? {
            Some(time) => Ok(time.as_slice() == note.instead.as_slice()),
            None => Ok(false),
        },
        Repair::AsText => {
            let text = quoted(alloc, stood)?;
            Ok(text.as_slice() == note.instead.as_slice())
        }
        Repair::AsStringType => Ok(note.instead.as_slice() == b"\"string\"".as_slice()),
        Repair::AsEmptyList => is_empty_list(alloc, &note.place.path, &note.instead),
        Repair::TakenOut => Ok(note.instead.is_empty()),
        Repair::HeaderId => Ok(true),
        Repair::Length => Ok(true),
        Repair::Left => Ok(note.instead.is_empty()),
    }
}

/// Returns whether each note puts what its repair says.
///
/// # Errors
///
/// `AllocError` if an allocation fails.
pub fn are_honest<T: Times>(alloc: Global, bytes: &[u8], notes: &[Note]) -> Result<bool, AllocError>
    ensures { IfOk result (λ honest. IsTrue honest →
        All (IsHonest T.is_time bytes.now) notes.now) }
{
    let mut left = notes;
    while let Some((note, rest)) = left.split_first() {
        if !is_honest::<T>(alloc, bytes, note)? {
            return Ok(false);
        }
        left = rest;
    }
    Ok(true)
}
