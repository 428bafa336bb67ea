//! The text of item headers.
ghost use Rattle.std.specs.Prelude.{◌≡◌, ℕ, List, ◌++◌, OnOk, codes, decimal};
ghost use Rattle.json.specs.Print.{escape};
ghost use Rattle.sentry_items.specs.Attached.{attachment_header, short_header};
ghost use Rattle.sentry_items.specs.Containers.{counted_header, counting_header};
ghost use Rattle.sentry_items.specs.HeaderText.{header_text, types_text};
ghost use Rattle.sentry_items.specs.View.{attachment_view};

use crate::attachment::{Attachment, USUAL_CONTENT_TYPE, USUAL_TYPE};
use crate::container::ItemContainer;
use crate::escaped::write_escaped;
use std::alloc::AllocError;

// The front of the usual attachment's header, up to the file name.
const USUAL_TYPES: &[u8] =
    b"{\"attachment_type\":\"event.attachment\",\"content_type\":\"application/octet-stream\",\"filename\":\"";

/// Appends an item header with two members: `length`, the size of `payload` in bytes, and `type`,
/// which is `word`.
///
/// # Errors
///
/// `AllocError` if an allocation fails; a part of the header may have been appended.
pub fn write_short_header(word: &str, payload: &[u8], out: &mut Vec<u8>) -> Result<(), AllocError>
    ensures ok { OnOk result (out.new.items ≡ out.old.items ++
        header_text (short_header word.now payload.now)) }
    ensures kept { (part : List ℕ) × (out.new.items ≡ out.old.items ++ part) }
{
    put_number(b"{\"length\":", payload.len(), out)?;
    put_text(b",\"type\":\"", word, out)?;
    out.extend_from_slice(b"\"}")
}

/// Appends the item header of a container: its media type, how many values it holds, and its type.
///
/// # Errors
///
/// `AllocError` if an allocation fails; a part of the header may have been appended.
pub fn write_container_header(
    container: &ItemContainer,
    out: &mut Vec<u8>,
) -> Result<(), AllocError>
    ensures ok { OnOk result (out.new.items ≡ out.old.items ++
        header_text (counted_header container.now)) }
    ensures kept { (part : List ℕ) × (out.new.items ≡ out.old.items ++ part) }
{
    write_counted_header(
        container.content_type(),
        container.len(),
        container.ty(),
        out,
    )
}

/// Appends the item header of a container: a media type, how many values it holds, and its type.
///
/// # Errors
///
/// `AllocError` if an allocation fails; a part of the header may have been appended.
pub fn write_counted_header(
    content_type: &str,
    count: usize,
    ty: &str,
    out: &mut Vec<u8>,
) -> Result<(), AllocError>
    ensures ok { OnOk result (out.new.items ≡ out.old.items ++
        header_text (counting_header ty.now content_type.now count)) }
    ensures kept { (part : List ℕ) × (out.new.items ≡ out.old.items ++ part) }
{
    put_text(b"{\"content_type\":\"", content_type, out)?;
    put_number(b"\",\"item_count\":", count, out)?;
    put_text(b",\"type\":\"", ty, out)?;
    out.extend_from_slice(b"\"}")
}

/// Appends the item header of an attachment.
///
/// # Errors
///
/// `AllocError` if an allocation fails; a part of the header may have been appended.
pub fn write_attachment_header(attachment: &Attachment, out: &mut Vec<u8>) -> Result<(), AllocError>
    ensures ok { OnOk result (out.new.items ≡ out.old.items ++
        header_text (attachment_header (codes "attachment") (attachment_view attachment.now))) }
    ensures kept { (part : List ℕ) × (out.new.items ≡ out.old.items ++ part) }
{
    write_attached_header(attachment, &attachment.buffer, out)
}

/// Appends the item header of an attachment with these contents, in place of its own.
///
/// # Errors
///
/// `AllocError` if an allocation fails; a part of the header may have been appended.
pub fn write_attached_header(
    attachment: &Attachment,
    contents: &[u8],
    out: &mut Vec<u8>,
) -> Result<(), AllocError>
    ensures ok { OnOk result (out.new.items ≡ out.old.items ++
        header_text (attachment_header (codes "attachment")
        (record (attachment_view attachment.now) { buffer = contents.now }))) }
    ensures kept { (part : List ℕ) × (out.new.items ≡ out.old.items ++ part) }
{
    put_types(
        attachment.written_type(),
        attachment.written_content_type(),
        out,
    )?;
    write_escaped(attachment.filename.as_bytes(), out)?;
    put_number(b"\",\"length\":", contents.len(), out)?;
    out.extend_from_slice(b",\"type\":\"attachment\"}")
}

// Appends the front of an attachment's header, up to the file name. The usual types are appended at
// once.
fn put_types(ty: &str, content_type: &str, out: &mut Vec<u8>) -> Result<(), AllocError>
    ensures ok { OnOk result (out.new.items ≡ out.old.items ++ types_text ty.now content_type.now) }
    ensures kept { (part : List ℕ) × (out.new.items ≡ out.old.items ++ part) }
{
    if ty == USUAL_TYPE && content_type == USUAL_CONTENT_TYPE {
        return out.extend_from_slice(USUAL_TYPES);
    }
    put_text(b"{\"attachment_type\":\"", ty, out)?;
    put_text(b"\",\"content_type\":\"", content_type, out)?;
    out.extend_from_slice(b"\",\"filename\":\"")
}

// Appends what stands before a text, and the text with its escapes.
#[inline(always)]
fn put_text(before: &[u8], text: &str, out: &mut Vec<u8>) -> Result<(), AllocError>
    ensures ok { OnOk result (out.new.items ≡ out.old.items ++ (before.now ++ escape text.now)) }
    ensures kept { (part : List ℕ) × (out.new.items ≡ out.old.items ++ part) }
{
    out.extend_from_slice(before)?;
    write_escaped(text.as_bytes(), out)
}

// Appends what stands before a number, and the number.
#[inline(always)]
fn put_number(before: &[u8], number: usize, out: &mut Vec<u8>) -> Result<(), AllocError>
    ensures ok { OnOk result (out.new.items ≡ out.old.items ++ (before.now ++ decimal number)) }
    ensures kept { (part : List ℕ) × (out.new.items ≡ out.old.items ++ part) }
{
    let mut digits = itoa::Buffer::new();
    out.extend_from_slice(before)?;
    out.extend_from_slice(digits.format(number as u64).as_bytes())
}
