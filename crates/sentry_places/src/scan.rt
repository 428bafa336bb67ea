//! Members and items of JSON text, by their places.
//!
//! Nothing is judged here: where the text isn't JSON, any places may come out.

use crate::note::Found;
use std::alloc::{AllocError, Global};

/// A member of an object, or an item of an array.
#[derive(Clone, Copy, Debug)]
pub struct Part {
    /// Where the key begins; where the value begins in an array.
    pub begin: usize,
    /// Where the value begins.
    pub start: usize,
    /// Behind the value.
    pub end: usize,
}

/// Returns the byte at an index; 0 behind the end.
pub fn byte_at(text: &[u8], at: usize) -> u8 {
    if at < text.len() { text[at] } else { 0 }
}

/// Returns the bytes from `start` to `end`; none if there is no such range.
pub fn cut(text: &[u8], start: usize, end: usize) -> &[u8] {
    if start <= end && end <= text.len() {
        &text[start..end]
    } else {
        &[]
    }
}

/// Returns the index of the first byte from `at` on that is no white space.
pub fn space_end(text: &[u8], at: usize) -> usize {
    let mut i = at;
    while i < text.len() && matches!(text[i], b' ' | b'\t' | b'\n' | b'\r') {
        i += 1;
    }
    i
}

// Returns the index behind the string whose opening quote stands at `at`.
fn string_end(text: &[u8], at: usize) -> usize {
    let mut escaped = false;
    let mut i = at.saturating_add(1);
    while i < text.len() {
        let byte = text[i];
        i += 1;
        if escaped {
            escaped = false;
        } else if byte == b'"' {
            return i;
        } else {
            escaped = byte == b'\\';
        }
    }
    i
}

// Returns the index behind the array or object whose bracket stands at `at`.
fn bracket_end(text: &[u8], at: usize) -> usize {
    let mut depth = 0usize;
    let mut i = at;
    for _ in 0..text.len() {
        match byte_at(text, i) {
            b'"' => i = string_end(text, i),
            b'{' | b'[' => {
                depth = depth.saturating_add(1);
                i = i.saturating_add(1);
            }
            b'}' | b']' => {
                i = i.saturating_add(1);
                if depth <= 1 {
                    return i;
                }
                depth -= 1;
            }
            _ => i = i.saturating_add(1),
        }
    }
    i
}

// Returns the index behind the number or the word that stands at `at`.
fn word_end(text: &[u8], at: usize) -> usize {
    let mut i = at;
    while i < text.len()
        && !matches!(
            text[i],
            b',' | b':' | b'}' | b']' | b' ' | b'\t' | b'\n' | b'\r'
        )
    {
        i += 1;
    }
    i
}

/// Returns the index behind the value that stands at `at`.
pub fn value_end(text: &[u8], at: usize) -> usize {
    match byte_at(text, at) {
        b'"' => string_end(text, at),
        b'{' | b'[' => bracket_end(text, at),
        _ => word_end(text, at),
    }
}

/// Returns the members or items of the object or array that stands at `at`.
pub fn parts(alloc: Global, text: &[u8], at: usize) -> Result<Vec<Part>, AllocError> {
    let mut list = Vec::new(alloc);
    let keyed = byte_at(text, at) == b'{';
    let mut begin = space_end(text, at.saturating_add(1));
    for _ in 0..text.len() {
        if matches!(byte_at(text, begin), b'}' | b']' | 0) {
            break;
        }
        let mut start = begin;
        if keyed {
            let colon = space_end(text, string_end(text, begin));
            start = space_end(text, colon.saturating_add(1));
        }
        let end = value_end(text, start);
        list.push(Part { begin, start, end })?;
        let comma = space_end(text, end);
        if byte_at(text, comma) != b',' {
            break;
        }
        begin = space_end(text, comma.saturating_add(1));
    }
    Ok(list)
}

/// Returns the key of a member, with its quotes.
pub fn key_of<'a>(text: &'a [u8], part: &Part) -> &'a [u8] {
    cut(text, part.begin, string_end(text, part.begin))
}

/// Returns the value of a member or an item.
pub fn value_of<'a>(text: &'a [u8], part: &Part) -> &'a [u8] {
    cut(text, part.start, part.end)
}

// Returns the value of a hexadecimal digit; 16 of any other byte.
fn digit(byte: u8) -> u8 {
    match byte {
        b'0'..=b'9' => byte - b'0',
        b'a'..=b'f' => byte - b'a' + 10,
        b'A'..=b'F' => byte - b'A' + 10,
        _ => 16,
    }
}

// Returns the character that stands at an index of a key, and the index behind it: an escape by its
// number stands for a character of ASCII.
fn character(key: &[u8], at: usize) -> (u8, usize) {
    let behind = at.saturating_add(6);
    if cut(key, at, at.saturating_add(4)) == b"\\u00".as_slice() {
        let high = digit(byte_at(key, at.saturating_add(4)));
        let low = digit(byte_at(key, at.saturating_add(5)));
        if high < 8 && low < 16 {
            return (high * 16 + low, behind);
        }
    }
    (byte_at(key, at), at.saturating_add(1))
}

/// Returns whether a key, with its quotes, is that of a word in quotes, however it is escaped.
pub fn is_key(key: &[u8], word: &[u8]) -> bool {
    let mut at = 0;
    for byte in word {
        let (found, behind) = character(key, at);
        if found != *byte {
            return false;
        }
        at = behind;
    }
    at == key.len()
}

/// Returns the first member of a key, which is given with its quotes.
pub fn member_at(text: &[u8], parts: &[Part], key: &[u8]) -> Option<Part> {
    for part in parts {
        if is_key(key_of(text, part), key) {
            return Some(*part);
        }
    }
    None
}

/// Returns what a value is.
pub fn found(value: &[u8]) -> Found {
    match byte_at(value, 0) {
        b'n' => Found::Null,
        b't' | b'f' => Found::Boolean,
        b'"' => Found::Text,
        b'[' => Found::Array,
        b'{' => Found::Object,
        _ => {
            if value.iter().any(|b| matches!(*b, b'.' | b'e' | b'E')) {
                Found::Decimal
            } else {
                Found::Integer
            }
        }
    }
}
