//! The items of an envelope, as places in its bytes.

ghost use Rattle.std.specs.Prelude.{◌≡◌, ◌≢◌, ◌⊎◌, ◌+◌, ◌<◌, ◌≤◌, [], ℕ, List, IfNone, IfSome, length, min};
ghost use Rattle.sentry_framing.specs.Framing.{IsFault, IsFirstFrame, Reading};
ghost use Rattle.sentry_framing.specs.ItemHeader.{stated_length};
ghost use Rattle.sentry_framing.specs.ItemWords.{item_words, kind_place};
ghost use Rattle.sentry_framing.specs.View.{frame_of};
ghost use Rattle.sentry_framing.specs.declared.error.EnvelopeError.{EnvelopeError as Refusal};
ghost use Rattle.sentry_framing.specs.declared.error.EnvelopeError.TheVariants as refusals;
ghost use Rattle.sentry_c.specs.Frames.{BodyFrom, FindsFrame, IsPlaced, MayBegin};
ghost use Rattle.sentry_c.specs.Places.{EndsWith};
ghost use Rattle.sentry_c.specs.Statuses.{refusal_status};

use crate::status::{INVALID_ARGUMENT, NOTHING_LEFT, OK, status_of_envelope_error};
use sentry_framing::lines::skip_space;
use sentry_types::protocol::v7::{Frames, ItemFrame, ItemKind};
use std::alloc::Global;

/// An item of an envelope: places of its header and its payload in the bytes, and its type.
#[derive(Clone, Copy)]
#[repr(C)]
pub struct CurdmesaFrame {
    /// Offset of the item header's `{`.
    pub header_offset: u64,
    /// Length of the item header.
    pub header_length: u64,
    /// Offset of the payload.
    pub payload_offset: u64,
    /// Length of the payload.
    pub payload_length: u64,
    /// Number of the item type: its place in `ItemKind::ALL`.
    pub kind: u32,
}

// Returns the number of an item type: its place in `ItemKind::ALL`.
pub(crate) fn number_of(kind: ItemKind) -> u32
    ensures place { result ≡ kind_place kind }
    ensures few { result < 32 }
{
    kind as u32
}

// Returns a reader of the items from an offset on; `None` if no item can begin there. Past the
// header line an item follows a line feed: from that line feed on, `Frames` finds an empty header
// line before the items.
fn frames_from(bytes: &[u8], offset: usize) -> Option<Frames<'_>>
    ensures body { IfSome result (λ frames. BodyFrom bytes.now offset frames.rest) }
    ensures may { IfSome result (λ frames. MayBegin bytes.now offset) }
    ensures none { IfNone result (¬ MayBegin bytes.now offset) }
{
    if offset == 0 {
        return Some(Frames::new(bytes));
    }
    if offset == bytes.len() {
        return Some(Frames::new(&[]));
    }
    if offset > bytes.len() || bytes[offset - 1] != b'\n' {
        return None;
    }
    Some(Frames::new(&bytes[offset - 1..]))
}

// Returns where the payload begins: after the line feed that ends the header's line, if any.
fn payload_offset(bytes: &[u8], header_end: usize) -> usize
    requires { header_end ≤ length bytes.now }
    ensures { result ≡ min (header_end + 1) (length bytes.now) }
{
    if header_end < bytes.len() {
        header_end + 1
    } else {
        header_end
    }
}

// Returns the places of the first frame of a body, with which the bytes end.
pub(crate) fn placed(bytes: &[u8], body: &[u8], item: &ItemFrame<'_>, kind: u32) -> CurdmesaFrame
    requires ends { EndsWith bytes.now body.now }
    requires first { (reads : Reading) × (rest : List ℕ) ×
        IsFirstFrame reads body.now (frame_of item.now) rest }
    ensures placed { IsPlaced bytes.now result (frame_of item.now) }
    ensures kind { result.kind ≡ kind }
{
    let front = skip_space(body);
    let header_offset = bytes.len() - front.len();
    let header_end = header_offset + item.header.len();
    CurdmesaFrame {
        header_offset: header_offset as u64,
        header_length: item.header.len() as u64,
        payload_offset: payload_offset(bytes, header_end) as u64,
        payload_length: item.payload.len() as u64,
        kind,
    }
}

/// Finds the next item of an envelope.
///
/// `offset` is 0 at first, which skips the header line, and then what the last call has set. The
/// header line and payloads aren't parsed.
///
/// # Returns
///
/// - `OK` if `frame` was set; `offset` is where the next item begins.
/// - `NOTHING_LEFT` after the last item.
/// - `INVALID_ARGUMENT` if `offset` isn't 0, isn't the number of bytes, and isn't directly behind a
///   line feed.
/// - The status of the error of `Frames::next_item` if the item is
///   refused; `OUT_OF_MEMORY`, which is one of them, if an allocation fails.
#[unsafe(no_mangle)]
pub extern "C" fn curdmesa_frames_next(
    alloc: Global,
    bytes: &[u8],
    offset: &mut u64,
    frame: &mut CurdmesaFrame,
) -> i32
    ensures found { result ≡ OK → FindsFrame bytes.now offset.old frame.new offset.new }
    ensures nothing { result ≡ NOTHING_LEFT → BodyFrom bytes.now offset.old [] }
    ensures fault { (x : Refusal) → result ≡ refusal_status x → x ≢ refusals.OutOfMemory →
        ((body : List ℕ) × BodyFrom bytes.now offset.old body × IsFault
        (stated_length item_words) body x) }
    ensures argument { result ≡ INVALID_ARGUMENT → ¬ MayBegin bytes.now offset.old }
    ensures may { result ≢ INVALID_ARGUMENT → MayBegin bytes.now offset.old }
    ensures offset_unchanged { result ≢ OK → offset.new ≡ offset.old }
    ensures frame_unchanged { result ≢ OK → frame.new ≡ frame.old }
    ensures answers { (result ≡ OK) ⊎ ((result ≡ NOTHING_LEFT) ⊎ ((result ≡ INVALID_ARGUMENT)
        ⊎ ((x : Refusal) × (result ≡ refusal_status x)))) }
{
    let Some(mut frames) = frames_from(bytes, *offset as usize) else {
        return INVALID_ARGUMENT;
    };
    let body = frames.rest();
    match frames.next_item(alloc) {
        Some(Ok((item, header))) => {
            *frame = placed(bytes, body, &item, number_of(header.kind));
            *offset = (bytes.len() - frames.rest().len()) as u64;
            OK
        }
        Some(Err(error)) => status_of_envelope_error(&error),
        None => NOTHING_LEFT,
    }
}
