//! Item headers, and the lengths that they state.
ghost use Rattle.std.specs.Prelude.{◌≡◌, ◌≢◌, ◌⊎◌, None, IfOk, IfErr, OnOk, ◌++◌, length};
ghost use Rattle.sentry_framing.specs.View.{frame_of};
ghost use Rattle.sentry_making.specs.Making.{IsItem, lacks_length, made_header, with_length};

use sentry_forward::header::read_any_header;
use sentry_framing::frames::split_header;
use sentry_framing::{EnvelopeError, ItemFrame};
use sentry_json::Node;
use serde_json::Value;
use std::alloc::{AllocError, Global};

// Whether no member of a JSON object has the key `length`. The header was parsed before, so only an
// allocation can fail.
fn lacks_length(alloc: Global, header: &[u8]) -> Result<bool, AllocError>
    ensures { IfOk result (λ lacks. lacks ≡ lacks_length header.now) }
{
    match Value::from_slice(alloc, header) {
        Ok(tree) => Ok(Node::get(&&tree, "length").is_none()),
        Err(_) => Err(AllocError),
    }
}

// Checks the header of an item. Returns whether it has to be told the length.
fn check_header(alloc: Global, item: &ItemFrame<'_>) -> Result<bool, EnvelopeError>
    ensures item { OnOk result (IsItem (frame_of item.now)) }
    ensures lacks { IfOk result (λ lacks. lacks ≡ lacks_length item.now.header.now) }
    ensures fault { IfErr result (λ e. e ≢ EnvelopeError.OutOfMemory
        → (e ≡ EnvelopeError.InvalidItemHeader) × (¬ IsItem (frame_of item.now))) }
{
    let Ok((piece, _)) = split_header(item.header) else {
        return Err(EnvelopeError::InvalidItemHeader);
    };
    if piece.len() != item.header.len() {
        return Err(EnvelopeError::InvalidItemHeader);
    }
    let fields = read_any_header(alloc, item.header)?;
    match fields.length {
        Some(stated) if stated == item.payload.len() as u64 => Ok(false),
        Some(_) => Err(EnvelopeError::InvalidItemHeader),
        None if lacks_length(alloc, item.header)? => Ok(true),
        None => Err(EnvelopeError::InvalidItemHeader),
    }
}

// Appends a header with a member `length` in front of the others.
fn push_with_length(text: &mut Vec<u8>, header: &[u8], len: usize) -> Result<(), AllocError>
    ensures { OnOk result (text.new.items ≡ text.old.items ++ with_length len header.now) }
{
    let mut digits = itoa::Buffer::new();
    text.extend_from_slice(b"{\"length\":")?;
    text.extend_from_slice(digits.format(len as u64).as_bytes())?;
    text.push(b',')?;
    text.extend_from_slice(header.get(1..).unwrap_or(&[]))
}

/// Appends the header of an item as it is made: with the length of the payload.
///
/// # Errors
///
/// - `InvalidItemHeader` if the header isn't one JSON object with a string `type`, or has a `length`
///   that isn't the payload's.
/// - `OutOfMemory` if an allocation fails.
pub(crate) fn push_header(
    alloc: Global,
    text: &mut Vec<u8>,
    item: &ItemFrame<'_>,
) -> Result<(), EnvelopeError>
    ensures ok { OnOk result (text.new.items ≡ text.old.items ++ made_header (frame_of item.now)) }
    ensures item { OnOk result (IsItem (frame_of item.now)) }
    ensures fault { IfErr result (λ e. e ≢ EnvelopeError.OutOfMemory
        → (e ≡ EnvelopeError.InvalidItemHeader) × (¬ IsItem (frame_of item.now))) }
{
    if check_header(alloc, item)? {
        push_with_length(text, item.header, item.payload.len())?;
    } else {
        text.extend_from_slice(item.header)?;
    }
    Ok(())
}
