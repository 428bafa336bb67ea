//! The item frames of an envelope, of any item type.
ghost use Rattle.std.specs.Prelude.{◌≡◌, ◌≢◌, ◌↔◌, ◌⊎◌, ◌++◌, ◌-◌, ◌≤◌, [], Some, None, List, ℕ, IfOk, IfErr, IfSome, IsNone, true, false, drop, length};
ghost use Rattle.sentry_framing.specs.Framing.{IsFault, IsFirstFrame, IsLineAndBody, Opens};
ghost use Rattle.sentry_forward.specs.AnyHeader.{any_header, any_reading, is_object_line};
ghost use Rattle.sentry_forward.specs.HeaderView.{any_view};
ghost use Rattle.sentry_forward.specs.View.{any_frame, says, IsPlaced};

use crate::flat::split_flat;
use crate::header::{AnyHeader, check_header_line, read_any_header};
use sentry_framing::frames::{end_frame, split_header};
use sentry_framing::{EnvelopeError, Frames, ItemKind};
use std::alloc::Global;
use std::borrow::CowStr;
use std::marker::Model;

/// An item frame of any item type.
#[derive(Drop)]
pub struct AnyFrame<'a> {
    /// Bytes of the item header, from its `{` to its `}`.
    pub header: &'a [u8],
    /// Bytes of the payload, without the line feeds around it.
    pub payload: &'a [u8],
    /// Item type (`type`), unescaped.
    pub word: CowStr<'a, Global>,
    /// Payload size that the item header states, in bytes.
    pub length: Option<u64>,
    /// All bytes of the item: its frame, the white space in front, and the line feeds.
    pub bytes: &'a [u8],
    /// Offset of the item in the bytes of the envelope.
    pub start: usize,
    /// Offset of the item header in the bytes of the envelope.
    pub header_start: usize,
    /// Offset of the payload in the bytes of the envelope.
    pub payload_start: usize,
}

impl<'a> AnyFrame<'a> {
    ghost use Rattle.std.specs.Prelude.{◌≡◌};
    ghost use Rattle.sentry_framing.specs.ItemWords.{kind_of_word};
    ghost use Rattle.sentry_forward.specs.View.{is_attachment, is_main, word_of};

    /// Returns the item type; `None` for an unknown word.
    pub fn kind(&self) -> Option<ItemKind>
        ensures { result ≡ kind_of_word (word_of self.now) }
    {
        ItemKind::from_word(self.word.as_str())
    }

    // Whether this is an event or a transaction, which attachments belong to.
    pub(crate) fn is_main(&self) -> bool
        ensures { result ≡ is_main self.now }
    {
        match self.kind() {
            Some(ItemKind::Event) => true,
            Some(ItemKind::Transaction) => true,
            _ => false,
        }
    }

    pub(crate) fn is_attachment(&self) -> bool
        ensures { result ≡ is_attachment self.now }
    {
        match self.kind() {
            Some(ItemKind::Attachment) => true,
            _ => false,
        }
    }
}

/// A reader of the item frames of an envelope, of any item type.
///
/// Payloads are not parsed, and of item headers only `type` and `length` are read. Headers and
/// payloads are borrowed, not copied.
#[derive(Drop)]
pub struct AnyFrames<'a> {
    bytes: &'a [u8],
    header_line: &'a [u8],
    at: usize,
}

impl<'a> Model for AnyFrames<'a> {
    ghost use Rattle.std.specs.Prelude.{◌≤◌, drop, length};
    ghost use Rattle.sentry_forward.specs.Places.{Progress};

    ghost Value = { Progress };

    ghost view = { λ f. record {
      bytes = f.bytes.now;
      header_line = f.header_line.now;
      offset = f.at;
      rest = drop f.at f.bytes.now;
    } };

    ghost invariant = { λ f. f.at ≤ length f.bytes.now };
}

impl<'a> AnyFrames<'a> {
    /// Creates a reader of the frames of an envelope. The header line has to be one JSON object.
    ///
    /// # Errors
    ///
    /// - `InvalidHeader` if the header line isn't one JSON object.
    /// - `OutOfMemory` if an allocation fails.
    pub fn new(alloc: Global, bytes: &'a [u8]) -> Result<AnyFrames<'a>, EnvelopeError>
        ensures bytes { IfOk result (λ f. f.bytes ≡ bytes.now) }
        ensures parts { IfOk result (λ f. IsLineAndBody bytes.now f.header_line f.rest) }
        ensures object { IfOk result (λ f. is_object_line f.header_line ≡ true) }
        ensures err { IfErr result (λ e. (e ≡ EnvelopeError.OutOfMemory)
            ⊎ ((e ≡ EnvelopeError.InvalidHeader) × ((line : List ℕ) × (body : List ℕ)
            × IsLineAndBody bytes.now line body × (is_object_line line ≡ false)))) }
    {
        let frames = Frames::new(bytes);
        let header_line = frames.header_line();
        check_header_line(alloc, header_line)?;
        Ok(AnyFrames {
            bytes,
            header_line,
            at: bytes.len() - frames.rest().len(),
        })
    }

    /// Returns the header line.
    pub fn header_line(&self) -> &'a [u8]
        ensures { result.now ≡ self.now.header_line }
    {
        self.header_line
    }

    /// Returns the bytes that are still to be read.
    pub fn rest(&self) -> &'a [u8]
        ensures { result.now ≡ self.now.rest }
    {
        &self.bytes[self.at..]
    }

    /// Returns the next frame; `None` if no bytes are left.
    ///
    /// # Errors
    ///
    /// The first check of the bytes left that fails:
    ///
    /// - `UnexpectedEof` if only white space is left, or fewer bytes than the item header states.
    /// - `InvalidItemHeader` if no item header follows the white space. An item header is a `{`,
    ///   balanced content and its `}` that form one JSON object with a string `type`, and with
    ///   `length`, a whole number below 2^64, which may be absent or null.
    /// - `MissingNewline` if an item header, or a payload of a stated length, is followed by
    ///   anything but a line feed or the end.
    ///
    /// After one of these errors no bytes are left.
    ///
    /// `OutOfMemory` if an allocation fails; `self` is unchanged, and the call can be repeated.
    pub fn next_frame(&mut self, alloc: Global) -> Option<Result<AnyFrame<'a>, EnvelopeError>>
        ensures bytes { self.new.bytes ≡ self.old.bytes }
        ensures header_line { self.new.header_line ≡ self.old.header_line }
        ensures none { IsNone result ↔ (self.old.rest ≡ []) }
        ensures none_left { IsNone result → self.new.rest ≡ [] }
        ensures frame { IfSome result (λ answer. IfOk answer (λ item.
            IsFirstFrame any_reading self.old.rest (any_frame item) self.new.rest)) }
        ensures whole { IfSome result (λ answer. IfOk answer (λ item.
            self.old.rest ≡ item.bytes.now ++ self.new.rest)) }
        ensures header { IfSome result (λ answer. IfOk answer (λ item.
            any_header item.header.now ≡ Some (says item))) }
        ensures placed { IfSome result (λ answer. IfOk answer (IsPlaced self.old.bytes)) }
        ensures fault { IfSome result (λ answer. IfErr answer (λ e. e ≢ EnvelopeError.OutOfMemory
            → IsFault any_reading self.old.rest e)) }
        ensures ended { IfSome result (λ answer. IfErr answer (λ e. e ≢ EnvelopeError.OutOfMemory
            → self.new.rest ≡ [])) }
        ensures memory { result ≡ Some (Err EnvelopeError.OutOfMemory) → self.new ≡ self.old }
    {
        if self.rest().is_empty() {
            return None;
        }
        match first_frame(alloc, self.bytes, self.at, self.rest()) {
            Ok((frame, next)) => {
                self.at = next;
                Some(Ok(frame))
            }
            Err(EnvelopeError::OutOfMemory) => Some(Err(EnvelopeError::OutOfMemory)),
            Err(error) => {
                self.at = self.bytes.len();
                Some(Err(error))
            }
        }
    }
}

// Splits off the item header, and parses it.
#[inline(always)]
fn take_header<'a>(
    alloc: Global,
    body: &'a [u8],
) -> Result<(&'a [u8], AnyHeader<'a>, &'a [u8]), EnvelopeError>
    ensures found { IfOk result (λ x. Opens body.now x.0.now x.2.now) }
    ensures header { IfOk result (λ x. any_header x.0.now ≡ Some (any_view x.1)) }
    ensures fault { IfErr result (λ e. e ≢ EnvelopeError.OutOfMemory
        → IsFault any_reading body.now e) }
{
    if let Some((fields, after)) = split_flat(body) {
        let header = &body[..body.len() - after.len()];
        return Ok((header, fields, after));
    }
    let (header, after) = split_header(body)?;
    let fields = read_any_header(alloc, header)?;
    Ok((header, fields, after))
}

// Returns the frame of the item at the front of a body, which is the bytes from an offset on, and
// the offset of what follows the frame.
fn first_frame<'a>(
    alloc: Global,
    bytes: &'a [u8],
    start: usize,
    body: &'a [u8],
) -> Result<(AnyFrame<'a>, usize), EnvelopeError>
    requires within { start ≤ length bytes.now }
    requires body { body.now ≡ drop start bytes.now }
    ensures within { IfOk result (λ x. x.1 ≤ length bytes.now) }
    ensures frame { IfOk result (λ x.
        IsFirstFrame any_reading body.now (any_frame x.0) (drop x.1 bytes.now)) }
    ensures whole { IfOk result (λ x. body.now ≡ x.0.bytes.now ++ drop x.1 bytes.now) }
    ensures header { IfOk result (λ x. any_header x.0.header.now ≡ Some (says x.0)) }
    ensures placed { IfOk result (λ x. IsPlaced bytes.now x.0) }
    ensures fault { IfErr result (λ e. e ≢ EnvelopeError.OutOfMemory
        → IsFault any_reading body.now e) }
{
    let (header, fields, after) = take_header(alloc, body)?;
    let (frame, rest) = end_frame(header, after, fields.length)?;
    let next = bytes.len() - rest.len();
    let frame = AnyFrame {
        header: frame.header,
        payload: frame.payload,
        word: fields.word,
        length: fields.length,
        bytes: &body[..body.len() - rest.len()],
        start,
        header_start: bytes.len() - after.len() - header.len(),
        // The payload stands behind a line feed, or at the end.
        payload_start: bytes.len() - after.len().saturating_sub(1),
    };
    Ok((frame, next))
}
