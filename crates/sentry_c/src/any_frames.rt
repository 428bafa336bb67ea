//! The items of an envelope of any type, as places in its bytes.

ghost use Rattle.std.specs.Prelude.{◌≡◌, ◌≢◌, ◌⊎◌, ◌++◌, [], ℕ, List, Some, IfErr, IfNone, IfOk, IfSome, length};
ghost use Rattle.sentry_framing.specs.Framing.{IsFault, IsFirstFrame};
ghost use Rattle.sentry_framing.specs.ItemWords.{kind_of_word};
ghost use Rattle.sentry_framing.specs.View.{frame_of};
ghost use Rattle.sentry_framing.specs.declared.error.EnvelopeError.{EnvelopeError as Refusal};
ghost use Rattle.sentry_framing.specs.declared.error.EnvelopeError.TheVariants as refusals;
ghost use Rattle.sentry_forward.specs.AnyHeader.{any_header, any_reading};
ghost use Rattle.sentry_forward.specs.HeaderView.{any_view};
ghost use Rattle.sentry_c.specs.AnyFrames.{FindsItem, IsItemFault, IsItemPlaced, IsNextWord, ItemsFrom, kind_number};
ghost use Rattle.sentry_c.specs.Frames.{MayBegin};
ghost use Rattle.sentry_c.specs.Output.{IsTooLong, Puts};
ghost use Rattle.sentry_c.specs.Places.{EndsWith};
ghost use Rattle.sentry_c.specs.Statuses.{refusal_status};

use crate::frames::{number_of, placed};
use crate::output::deliver;
use crate::status::{INVALID_ARGUMENT, NO_ROOM, NOTHING_LEFT, OK, status_of_envelope_error};
use sentry_forward::header::{AnyHeader, read_any_header};
use sentry_framing::frames::{end_frame, split_header};
use sentry_types::protocol::v7::{AnyFrames, EnvelopeError, ItemFrame, ItemKind};
use std::alloc::Global;

/// The number of an item type that [`ItemKind`] doesn't have.
pub const ITEM_UNKNOWN: u32 = u32::MAX;

/// An item of any type: places of the item, its header and its payload in the bytes, and its type.
#[derive(Clone, Copy)]
#[repr(C)]
pub struct CurdmesaAnyFrame {
    /// Offset of the item: of the white space in front of its header.
    pub item_offset: u64,
    /// Length of the item, with the line feeds.
    pub item_length: u64,
    /// Offset of the item header's `{`.
    pub header_offset: u64,
    /// Length of the item header.
    pub header_length: u64,
    /// Offset of the payload.
    pub payload_offset: u64,
    /// Length of the payload.
    pub payload_length: u64,
    /// Number of the item type: its place in `ItemKind::ALL`, or [`ITEM_UNKNOWN`].
    pub kind: u32,
}

fn number_of_word(word: &str) -> u32
    ensures { result ≡ kind_number (kind_of_word word.now) }
{
    match ItemKind::from_word(word) {
        Some(kind) => number_of(kind),
        None => ITEM_UNKNOWN,
    }
}

// Returns the bytes from an offset on, at 0 those behind the header line; `None` if no item can
// begin there.
fn body_from(alloc: Global, bytes: &[u8], offset: usize) -> Result<Option<&[u8]>, EnvelopeError>
    ensures body { IfOk result (λ found. IfSome found (λ body.
        ItemsFrom bytes.now offset body.now)) }
    ensures may { IfOk result (λ found. IfSome found (λ body. MayBegin bytes.now offset)) }
    ensures none { IfOk result (λ found. IfNone found (¬ MayBegin bytes.now offset)) }
    ensures start { IfErr result (λ e. offset ≡ 0) }
    ensures fault { IfErr result (λ e. e ≢ EnvelopeError.OutOfMemory →
        IsItemFault bytes.now offset e) }
{
    if offset == 0 {
        let frames = AnyFrames::new(alloc, bytes)?;
        return Ok(Some(frames.rest()));
    }
    if offset > bytes.len() || offset < bytes.len() && bytes[offset - 1] != b'\n' {
        return Ok(None);
    }
    Ok(Some(&bytes[offset..]))
}

// Returns the first frame of a body, what its header says, and the bytes after the frame.
fn first_any<'a>(
    alloc: Global,
    body: &'a [u8],
) -> Result<(ItemFrame<'a>, AnyHeader<'a>, &'a [u8]), EnvelopeError>
    ensures frame { IfOk result (λ x. IsFirstFrame any_reading body.now (frame_of x.0) x.2.now) }
    ensures header { IfOk result (λ x. any_header x.0.header.now ≡ Some (any_view x.1)) }
    ensures fault { IfErr result (λ e. e ≢ EnvelopeError.OutOfMemory
        → IsFault any_reading body.now e) }
{
    let (header, after) = split_header(body)?;
    let fields = read_any_header(alloc, header)?;
    let (frame, rest) = end_frame(header, after, fields.length)?;
    Ok((frame, fields, rest))
}

// Returns the places of the first frame of a body, with which the bytes end, and of its item, which
// `rest` follows.
fn placed_item(
    bytes: &[u8],
    body: &[u8],
    rest: &[u8],
    item: &ItemFrame<'_>,
    kind: u32,
) -> CurdmesaAnyFrame
    requires ends { EndsWith bytes.now body.now }
    requires first { IsFirstFrame any_reading body.now (frame_of item.now) rest.now }
    ensures placed { (whole : List ℕ) × (body.now ≡ whole ++ rest.now) ×
        IsItemPlaced bytes.now result whole (frame_of item.now) }
    ensures kind { result.kind ≡ kind }
{
    let frame = placed(bytes, body, item, kind);
    CurdmesaAnyFrame {
        item_offset: (bytes.len() - body.len()) as u64,
        item_length: (body.len() - rest.len()) as u64,
        header_offset: frame.header_offset,
        header_length: frame.header_length,
        payload_offset: frame.payload_offset,
        payload_length: frame.payload_length,
        kind,
    }
}

/// Finds the next item of an envelope, of any type, and writes the word of its type to `out`.
///
/// `offset` is 0 at first, which checks and skips the header line, and then what the last call has
/// set. Payloads aren't parsed, and of item headers only `type` and `length` are read.
///
/// # Returns
///
/// - `OK` if `frame` was set and the word written; `needed` is its length, and `offset` is where
///   the next item begins.
/// - `NO_ROOM` if the word is longer than `out`; `needed` is its length.
/// - `NOTHING_LEFT` after the last item.
/// - `INVALID_ARGUMENT` if `offset` isn't 0, isn't the number of bytes, and isn't directly behind a
///   line feed.
/// - The status of the error of `AnyFrames::new` if the header line is refused, and of
///   `AnyFrames::next_frame` if the item is; `OUT_OF_MEMORY`, which is one of them, if an
///   allocation fails.
#[unsafe(no_mangle)]
pub extern "C" fn curdmesa_any_frames_next(
    alloc: Global,
    bytes: &[u8],
    offset: &mut u64,
    frame: &mut CurdmesaAnyFrame,
    out: &mut [u8],
    needed: &mut u64,
) -> i32
    ensures found { result ≡ OK →
        Puts (FindsItem bytes.now offset.old frame.new offset.new) out.old out.new needed.new }
    ensures no_room { result ≡ NO_ROOM →
        IsTooLong (IsNextWord bytes.now offset.old) out.old needed.new }
    ensures nothing { result ≡ NOTHING_LEFT → ItemsFrom bytes.now offset.old [] }
    ensures fault { (x : Refusal) → result ≡ refusal_status x → x ≢ refusals.OutOfMemory →
        IsItemFault bytes.now offset.old x }
    ensures argument { result ≡ INVALID_ARGUMENT → ¬ MayBegin bytes.now offset.old }
    ensures may { result ≢ INVALID_ARGUMENT → MayBegin bytes.now offset.old }
    ensures offset_unchanged { result ≢ OK → offset.new ≡ offset.old }
    ensures frame_unchanged { result ≢ OK → frame.new ≡ frame.old }
    ensures unchanged { result ≢ OK → out.new ≡ out.old }
    ensures no_text { result ≢ OK → result ≢ NO_ROOM → needed.new ≡ 0 }
    ensures answers { (result ≡ OK) ⊎ ((result ≡ NO_ROOM) ⊎ ((result ≡ NOTHING_LEFT) ⊎
        ((result ≡ INVALID_ARGUMENT) ⊎ ((x : Refusal) × (result ≡ refusal_status x))))) }
{
    *needed = 0;
    let body = match body_from(alloc, bytes, *offset as usize) {
        Ok(Some(body)) => body,
        Ok(None) => return INVALID_ARGUMENT,
        Err(error) => return status_of_envelope_error(&error),
    };
    if body.is_empty() {
        return NOTHING_LEFT;
    }
    let (item, fields, rest) = match first_any(alloc, body) {
        Ok(found) => found,
        Err(error) => return status_of_envelope_error(&error),
    };
    let word = fields.word.as_str();
    if !deliver(word.as_bytes(), out, needed) {
        return NO_ROOM;
    }
    *frame = placed_item(bytes, body, rest, &item, number_of_word(word));
    *offset = (bytes.len() - rest.len()) as u64;
    OK
}
