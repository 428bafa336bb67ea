//! Attachments: files that are sent in an envelope.

ghost use Rattle.std.specs.Prelude.{◌≡◌, ◌++◌, IfOk, OnOk};
ghost use Rattle.sentry_items.specs.View.{attachment_view};

use crate::attachment_type::AttachmentType;
use crate::header::write_attachment_header;
use sentry_framing::sending::send_both;
use sentry_tables::{Member, Way};
use std::alloc::{AllocError, Global};
use std::fmt;
use std::io::Write;
use thiserror::Error;

/// A file sent in an envelope, such as a log or a minidump.
///
/// <https://develop.sentry.dev/sdk/data-model/envelope-items/#attachment>
#[derive(Drop, PartialEq)]
pub struct Attachment {
    /// Contents of the file.
    pub buffer: Vec<u8>,
    /// File name.
    pub filename: String,
    /// Media type; `None` is written as `application/octet-stream`.
    pub content_type: Option<String>,
    /// Attachment type; `None` is written as `event.attachment`.
    pub ty: Option<AttachmentType>,
}

// The initial capacity of a header line in bytes: enough for default types and a short file name.
const USUAL_HEADER: usize = 192;

// The attachment type that is written for `ty: None`.
pub(crate) const USUAL_TYPE: &str = "event.attachment";

// The media type that is written for `content_type: None`.
pub(crate) const USUAL_CONTENT_TYPE: &str = "application/octet-stream";

/// The error of [`Attachment::to_writer`].
#[derive(Debug, Drop, Error)]
pub enum AttachmentWriteError {
    /// An allocation failed; nothing was written.
    #[error("out of memory")]
    Memory,
    /// A write failed; only a proper prefix of the item was written, possibly none of it.
    #[error("Io")]
    Io,
}

impl Attachment {
    ghost use Rattle.std.specs.Prelude.{[], None, IsTrue, option_map, string_bytes};
    ghost use Rattle.std.specs.Io.KnownBytes.{Appends, Keeps};
    ghost use Rattle.sentry_framing.specs.Sending.{AppendsFront};
    ghost use Rattle.sentry_items.specs.Attached.{attached_type, attached_content_type, attachment_text, attached_norm, IsAttachedStored, IsTypeOption, IsUtf8Option};
    ghost use Rattle.sentry_items.specs.AttachmentWords.{attachment_type_text};
    ghost use Rattle.sentry_items.specs.Made.{attached_made};
    ghost use Rattle.sentry_items.specs.View.{attachment_type_cell};

    /// Creates an attachment of no bytes, with an empty file name and without types.
    pub fn default_in(alloc: Global) -> Attachment
        ensures { attachment_view result ≡
            record { buffer = []; filename = []; content_type = None; ty = None } }
    {
        Attachment {
            buffer: Vec::new(alloc),
            filename: String::new(alloc),
            content_type: None,
            ty: None,
        }
    }

    // Copies the attachment, or makes its normal form.
    pub(crate) fn remake(&self, way: Way) -> Result<Attachment, AllocError>
        ensures { IfOk result (λ attachment.
            attachment_view attachment ≡ attached_made way (attachment_view self.now)) }
    {
        Ok(Attachment {
            buffer: copy_bytes(&self.buffer)?,
            filename: self.filename.clone()?,
            content_type: self.remake_content_type(way)?,
            ty: self.remake_type(way)?,
        })
    }

    #[tactic(auto, using(crate::proofs::Made::no_media_type, crate::proofs::Made::usual_media_type))]
    fn remake_content_type(&self, way: Way) -> Result<Option<String>, AllocError>
        ensures { IfOk result (λ text.
            option_map string_bytes text ≡
            (attached_made way (attachment_view self.now)).content_type) }
    {
        match &self.content_type {
            Some(text) => Ok(Some(text.clone()?)),
            None => match way {
                Way::Same => Ok(None),
                Way::Normal(_) => {
                    let alloc = *self.buffer.allocator();
                    Ok(Some(String::from_str(alloc, USUAL_CONTENT_TYPE)?))
                }
            },
        }
    }

    #[tactic(auto, using(crate::proofs::Made::no_type, crate::proofs::Made::usual_type))]
    fn remake_type(&self, way: Way) -> Result<Option<AttachmentType>, AllocError>
        ensures { IfOk result (λ ty.
            option_map attachment_type_cell ty ≡
            (attached_made way (attachment_view self.now)).ty) }
    {
        match &self.ty {
            Some(ty) => Ok(Some(ty.remake(way)?)),
            None => match way {
                Way::Same => Ok(None),
                Way::Normal(_) => Ok(Some(AttachmentType::Attachment)),
            },
        }
    }

    /// Clones the attachment. `AllocError` if an allocation fails.
    #[tactic(auto, unfolding(crate::specs::Made::attached_made))]
    pub fn clone(&self) -> Result<Attachment, AllocError>
        ensures { IfOk result (λ attachment.
            attachment_view attachment ≡ attachment_view self.now) }
    {
        self.remake(Way::Same)
    }

    /// Returns the normal form: absent types are filled with their defaults, and a custom type
    /// whose text is a known word becomes the known type. `AllocError` if an allocation fails.
    #[tactic(auto, unfolding(crate::specs::Made::attached_made))]
    pub fn normalized(&self) -> Result<Attachment, AllocError>
        ensures { IfOk result (λ attachment.
            attachment_view attachment ≡ attached_norm (attachment_view self.now)) }
    {
        self.remake(Way::Normal(*self.buffer.allocator()))
    }

    /// Returns whether the attachment can be written: always true, as its strings are UTF-8.
    pub fn is_plain(&self) -> bool
        ensures always { IsTrue result }
        ensures stored { IsAttachedStored (attachment_view self.now) }
    {
        // The calls are made for their contracts, which prove the clause `stored`.
        let _filename = self.filename.as_str();
        let _content_type = self.written_content_type();
        let _ty = self.written_type();
        true
    }

    pub(crate) fn written_type(&self) -> &str
        ensures text { result.now ≡
            attachment_type_text (attached_type (attachment_view self.now)) }
        ensures stored { IsTypeOption (attachment_view self.now).ty }
    {
        match &self.ty {
            Some(ty) => ty.as_str(),
            None => USUAL_TYPE,
        }
    }

    pub(crate) fn written_content_type(&self) -> &str
        ensures text { result.now ≡ attached_content_type (attachment_view self.now) }
        ensures stored { IsUtf8Option (attachment_view self.now).content_type }
    {
        match &self.content_type {
            Some(text) => text.as_str(),
            None => USUAL_CONTENT_TYPE,
        }
    }

    // Returns the item header with a line feed at the end.
    fn header_line(&self, alloc: Global) -> Result<Vec<u8>, AllocError>
        ensures { IfOk result (λ line.
            line.items ++ self.now.buffer.items ≡ attachment_text (attachment_view self.now)) }
    {
        let mut line = Vec::with_capacity(alloc, USUAL_HEADER)?;
        write_attachment_header(self, &mut line)?;
        line.push(b'\n')?;
        Ok(line)
    }

    /// Writes the attachment as a single item: its header, a line feed, and its bytes.
    ///
    /// # Errors
    ///
    /// - `Memory` if an allocation fails; nothing was written.
    /// - `Io` if a write fails, is interrupted, or accepts 0 bytes; only a proper prefix of the
    ///   item was written, possibly none of it.
    pub fn to_writer<W: Write>(
        &self,
        alloc: Global,
        writer: &mut W,
    ) -> Result<(), AttachmentWriteError>
        ensures whole { OnOk result (Appends (W.contents writer.old) (W.contents writer.new)
            (attachment_text (attachment_view self.now))) }
        ensures memory { result ≡ Err AttachmentWriteError.Memory →
            Keeps (W.contents writer.old) (W.contents writer.new) }
        ensures io { result ≡ Err AttachmentWriteError.Io →
            AppendsFront (W.contents writer.old) (W.contents writer.new)
            (attachment_text (attachment_view self.now)) }
    {
        let line = self
            .header_line(alloc)
            .map_err(|_| AttachmentWriteError::Memory)?;
        send_both(&line, &self.buffer, writer).map_err(|_| AttachmentWriteError::Io)
    }
}

fn copy_bytes(bytes: &Vec<u8>) -> Result<Vec<u8>, AllocError>
    ensures { IfOk result (λ copy. copy.items ≡ bytes.now.items) }
{
    bytes.clone()
}

impl fmt::Debug for Attachment {
    /// Formats the attachment, with the length of `buffer` in place of its bytes.
    fn fmt<W: fmt::Write>(&self, f: &mut fmt::Formatter<W>) -> fmt::Result {
        f.debug_struct("Attachment")
            .field("buffer", &self.buffer.len())
            .field("filename", &self.filename)
            .field("content_type", &self.content_type)
            .field("type", &self.ty)
            .finish()
    }
}
