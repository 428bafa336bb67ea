//! The item frames of an envelope, borrowed from its bytes.
ghost use Rattle.std.specs.Prelude.{◌≡◌, ◌≢◌, ◌↔◌, ◌<◌, [], ℕ, List, IfOk, IfErr, IfSome, IsNone, None, Some, length};
ghost use Rattle.sentry_framing.specs.Framing.{CutsPayload, IsFault, IsFirstFrame, IsLineAndBody, Opens, Reading};
ghost use Rattle.sentry_framing.specs.ItemHeader.{read_header, stated_length};
ghost use Rattle.sentry_framing.specs.ItemWords.{item_words};
ghost use Rattle.sentry_framing.specs.HeaderView.{header_view};
ghost use Rattle.sentry_framing.specs.View.{frame_of};

use crate::error::EnvelopeError;
use crate::header::{ItemHeader, read_fields};
use crate::lines::{end_line, skip_space, split_line};
use crate::piece::piece_len;
use crate::short::split_short;
use bumpalo::Bump;
use sentry_tables::LineReader;
use std::alloc::Global;
use std::marker::Model;

/// An item frame: the bytes of an item header and of its payload.
#[derive(Clone, Copy, Debug)]
pub struct ItemFrame<'a> {
    /// Bytes of the item header, from its `{` to its `}`.
    pub header: &'a [u8],
    /// Bytes of the payload, without the line feeds around it.
    pub payload: &'a [u8],
}

/// A reader of the item frames of an envelope.
///
/// An envelope is a header line, and items of a header, a line feed and a payload:
/// <https://develop.sentry.dev/sdk/data-model/envelopes/>. Headers and payloads are borrowed, not
/// copied.
#[derive(Drop)]
pub struct Frames<'a> {
    header_line: &'a [u8],
    rest: &'a [u8],
}

impl<'a> Model for Frames<'a> {
    ghost use Rattle.sentry_framing.specs.Unread.{Unread};

    ghost Value = { Unread };

    ghost view = { λ f. record { header_line = f.header_line.now; rest = f.rest.now } };
}

impl<'a> Frames<'a> {
    /// Creates a reader of the frames of an envelope. The header line isn't parsed.
    pub fn new(bytes: &'a [u8]) -> Frames<'a>
        ensures { IsLineAndBody bytes.now result.header_line result.rest }
    {
        let (header_line, after) = split_line(bytes);
        Frames {
            header_line,
            rest: end_line(after).unwrap_or(after),
        }
    }

    /// Returns the header line: the bytes before the first line feed, or all bytes if there is
    /// none.
    pub fn header_line(&self) -> &'a [u8]
        ensures { result.now ≡ self.now.header_line }
    {
        self.header_line
    }

    /// Returns the bytes that are still to be read.
    pub fn rest(&self) -> &'a [u8]
        ensures { result.now ≡ self.now.rest }
    {
        self.rest
    }

    /// Returns the next frame; `None` if no bytes are left. The payload isn't parsed.
    ///
    /// # Errors
    ///
    /// The first check of the bytes left that fails:
    ///
    /// - `UnexpectedEof` if only white space is left, or fewer bytes than the item header states.
    /// - `InvalidItemHeader` if no item header follows the white space. An item header is a `{`,
    ///   balanced content and its `}` that form one JSON object without floats, with a known
    ///   `type`, and with `length`, a whole number below 2^64, and strings `content_type`,
    ///   `filename` and `attachment_type`, each of which may be absent or null.
    /// - `MissingNewline` if an item header, or a payload of a stated length, is followed by
    ///   anything but a line feed or the end.
    ///
    /// After one of these errors no bytes are left.
    ///
    /// `OutOfMemory` if an allocation fails; `self` is unchanged, and the call can be repeated.
    pub fn next_frame(&mut self, alloc: Global) -> Option<Result<ItemFrame<'a>, EnvelopeError>>
        ensures header_line { self.new.header_line ≡ self.old.header_line }
        ensures none { IsNone result ↔ (self.old.rest ≡ []) }
        ensures none_left { IsNone result → self.new.rest ≡ [] }
        ensures frame { IfSome result (λ answer. IfOk answer (λ item.
            IsFirstFrame (stated_length item_words) self.old.rest (frame_of item) self.new.rest)) }
        ensures fault { IfSome result (λ answer. IfErr answer (λ e. e ≢ EnvelopeError.OutOfMemory
            → IsFault (stated_length item_words) self.old.rest e)) }
        ensures ended { IfSome result (λ answer. IfErr answer (λ e. e ≢ EnvelopeError.OutOfMemory
            → self.new.rest ≡ [])) }
        ensures memory { result ≡ Some (Err EnvelopeError.OutOfMemory) → self.new ≡ self.old }
    {
        match self.next_item(alloc) {
            None => None,
            Some(Ok((frame, _header))) => Some(Ok(frame)),
            Some(Err(error)) => Some(Err(error)),
        }
    }

    /// Returns the next frame with its parsed item header; `None` if no bytes are left.
    ///
    /// # Errors
    ///
    /// The errors of [`Frames::next_frame`], with the same effect on `self`.
    #[inline(never)]
    pub fn next_item(
        &mut self,
        alloc: Global,
    ) -> Option<Result<(ItemFrame<'a>, ItemHeader), EnvelopeError>>
        ensures header_line { self.new.header_line ≡ self.old.header_line }
        ensures none { IsNone result ↔ (self.old.rest ≡ []) }
        ensures none_left { IsNone result → self.new.rest ≡ [] }
        ensures frame { IfSome result (λ answer. IfOk answer (λ item.
            IsFirstFrame (stated_length item_words) self.old.rest (frame_of item.0)
            self.new.rest)) }
        ensures header { IfSome result (λ answer. IfOk answer (λ item.
            read_header item_words item.0.header.now ≡ Some (header_view item.1))) }
        ensures fault { IfSome result (λ answer. IfErr answer (λ e. e ≢ EnvelopeError.OutOfMemory
            → IsFault (stated_length item_words) self.old.rest e)) }
        ensures ended { IfSome result (λ answer. IfErr answer (λ e. e ≢ EnvelopeError.OutOfMemory
            → self.new.rest ≡ [])) }
        ensures memory { result ≡ Some (Err EnvelopeError.OutOfMemory) → self.new ≡ self.old }
    {
        let mut header = ItemHeader::new();
        let texts = Bump::new(alloc);
        match next_item_into(self, &mut LineReader::new(alloc, &texts), &mut header) {
            None => None,
            Some(Ok(frame)) => Some(Ok((frame, header))),
            Some(Err(error)) => Some(Err(error)),
        }
    }
}

/// Returns the next frame, and parses its item header into `header`; `None` if no bytes are left.
/// `lines` reads the headers.
///
/// # Errors
///
/// The errors of [`Frames::next_frame`], with the same effect on `frames`; some fields of `header`
/// may be set.
pub fn next_item_into<'l, 'a: 'l>(
    frames: &mut Frames<'a>,
    lines: &mut LineReader<'l>,
    header: &mut ItemHeader,
) -> Option<Result<ItemFrame<'a>, EnvelopeError>>
    ensures header_line { frames.new.header_line ≡ frames.old.header_line }
    ensures none { IsNone result ↔ (frames.old.rest ≡ []) }
    ensures none_left { IsNone result → frames.new.rest ≡ [] }
    ensures frame { IfSome result (λ answer. IfOk answer (λ item.
        IsFirstFrame (stated_length item_words) frames.old.rest (frame_of item) frames.new.rest)) }
    ensures header { IfSome result (λ answer. IfOk answer (λ item.
        read_header item_words item.header.now ≡ Some (header_view header.new))) }
    ensures fault { IfSome result (λ answer. IfErr answer (λ e. e ≢ EnvelopeError.OutOfMemory
        → IsFault (stated_length item_words) frames.old.rest e)) }
    ensures ended { IfSome result (λ answer. IfErr answer (λ e. e ≢ EnvelopeError.OutOfMemory
        → frames.new.rest ≡ [])) }
    ensures memory { result ≡ Some (Err EnvelopeError.OutOfMemory) → frames.new ≡ frames.old }
{
    if frames.rest.is_empty() {
        return None;
    }
    match first_item(lines, frames.rest, header) {
        Ok((frame, rest)) => {
            frames.rest = rest;
            Some(Ok(frame))
        }
        Err(EnvelopeError::OutOfMemory) => Some(Err(EnvelopeError::OutOfMemory)),
        Err(error) => {
            frames.rest = &[];
            Some(Err(error))
        }
    }
}

// Splits off the payload: the stated number of bytes, or the rest of the line.
fn split_payload(stated: Option<u64>, bytes: &[u8]) -> Result<(&[u8], &[u8]), EnvelopeError>
    ensures found { IfOk result (λ x. CutsPayload stated bytes.now x.0.now x.1.now) }
    ensures short { IfErr result (λ e. (e ≡ EnvelopeError.UnexpectedEof)
        × ((len : ℕ) × (stated ≡ Some len) × (length bytes.now < len))) }
{
    match stated {
        Some(len) => bytes
            .split_at_checked(len as usize)
            .ok_or(EnvelopeError::UnexpectedEof),
        None => Ok(split_line(bytes)),
    }
}

/// Splits off the balanced piece after the white space at the front.
///
/// # Errors
///
/// - `UnexpectedEof` if only white space is left.
/// - `InvalidItemHeader` if no balanced piece follows the white space.
pub fn split_header(body: &[u8]) -> Result<(&[u8], &[u8]), EnvelopeError>
    ensures found { IfOk result (λ x. Opens body.now x.0.now x.1.now) }
    ensures fault { IfErr result (λ e. (reads : Reading) → IsFault reads body.now e) }
{
    let at_header = skip_space(body);
    if at_header.is_empty() {
        return Err(EnvelopeError::UnexpectedEof);
    }
    match piece_len(at_header) {
        Some(len) => Ok(at_header.split_at(len)),
        None => Err(EnvelopeError::InvalidItemHeader),
    }
}

// Splits off the header, and parses it into `fields`.
#[inline(always)]
fn take_header<'l, 'a: 'l>(
    lines: &mut LineReader<'l>,
    body: &'a [u8],
    fields: &mut ItemHeader,
) -> Result<(&'a [u8], &'a [u8]), EnvelopeError>
    ensures found { IfOk result (λ x. Opens body.now x.0.now x.1.now) }
    ensures header { IfOk result (λ x.
        read_header item_words x.0.now ≡ Some (header_view fields.new)) }
    ensures fault { IfErr result (λ e. e ≢ EnvelopeError.OutOfMemory
        → IsFault (stated_length item_words) body.now e) }
{
    if let Some((kind, length, after)) = split_short(body) {
        fields.set_short(kind, length);
        return Ok((&body[..body.len() - after.len()], after));
    }
    let (header, after) = split_header(body)?;
    // The frame is returned, and lives longer than what reads its header.
    let line: &'l [u8] = header;
    read_fields(lines, line, fields)?;
    Ok((header, after))
}

// Returns the first frame and the bytes after the frame, and parses the item header into `fields`.
fn first_item<'l, 'a: 'l>(
    lines: &mut LineReader<'l>,
    body: &'a [u8],
    fields: &mut ItemHeader,
) -> Result<(ItemFrame<'a>, &'a [u8]), EnvelopeError>
    ensures frame { IfOk result (λ x.
        IsFirstFrame (stated_length item_words) body.now (frame_of x.0) x.1.now) }
    ensures header { IfOk result (λ x.
        read_header item_words x.0.header.now ≡ Some (header_view fields.new)) }
    ensures fault { IfErr result (λ e. e ≢ EnvelopeError.OutOfMemory
        → IsFault (stated_length item_words) body.now e) }
{
    let (header, after) = take_header(lines, body, fields)?;
    let (frame, rest) = end_frame(header, after, fields.length)?;
    Ok((frame, rest))
}

/// Splits the payload of a header off the bytes behind the header, and returns the frame and the
/// bytes after the frame. `stated` is the length that the header states.
///
/// # Errors
///
/// - `UnexpectedEof` if fewer bytes are left than stated.
/// - `MissingNewline` if the header, or a payload of a stated length, is followed by anything but a
///   line feed or the end.
#[inline(always)]
pub fn end_frame<'a>(
    header: &'a [u8],
    after: &'a [u8],
    stated: Option<u64>,
) -> Result<(ItemFrame<'a>, &'a [u8]), EnvelopeError>
    ensures header { IfOk result (λ x. x.0.header.now ≡ header.now) }
    ensures frame { IfOk result (λ x. (reads : Reading) (body : List ℕ) →
        Opens body header.now after.now → reads header.now ≡ Some stated →
        IsFirstFrame reads body (frame_of x.0) x.1.now) }
    ensures fault { IfErr result (λ e. (reads : Reading) (body : List ℕ) →
        Opens body header.now after.now → reads header.now ≡ Some stated →
        IsFault reads body e) }
{
    let left = end_line(after)?;
    let (payload, tail) = split_payload(stated, left)?;
    let rest = end_line(tail)?;
    Ok((ItemFrame { header, payload }, rest))
}
