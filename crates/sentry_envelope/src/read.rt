//! Reading of envelope items.

ghost use Rattle.std.specs.Prelude.{◌≡◌, ◌≢◌, ◌∷◌, ◌++◌, IfOk, IfErr, OnOk, [], Some, map};
ghost use Rattle.sentry_items.specs.View.{attachment_view};
ghost use Rattle.sentry_envelope.specs.Envelope.{attached_by, ItemShows, ItemsStand};
ghost use Rattle.sentry_envelope.specs.EnvelopeFault.{BodyIsAtFault, IsItemFault};
ghost use Rattle.sentry_envelope.specs.EnvelopeView.{item_view, AreStoredAndPlain};
ghost use Rattle.sentry_envelope.specs.ItemAdded.{IsAdded, IsNotAdded};
ghost use Rattle.sentry_framing.specs.HeaderView.{header_view};
ghost use Rattle.sentry_framing.specs.ItemHeader.{read_header};
ghost use Rattle.sentry_framing.specs.ItemWords.{item_words};
ghost use Rattle.sentry_moments.specs.Moments.{moment_cell};
ghost use Rattle.sentry_envelope.specs.SentryProfile.{profile};
ghost use Rattle.sentry_framing.specs.View.{frame_of};

use crate::payload::add_json_item;
use bumpalo::Bump;
use rand_core::Rng;
use sentry_framing::frames::next_item_into;
use sentry_framing::{EnvelopeError, Frames, ItemFrame, ItemHeader, ItemKind, read_item_header};
use sentry_items::{Attachment, AttachmentType, EnvelopeItem, ReplayRecording};
use sentry_moments::Moment;
use sentry_tables::LineReader;
use std::alloc::{AllocError, Global};

/// Reads the item of a frame, as [`Envelope::from_slice`] reads the items of an envelope.
///
/// The item is plain ([`EnvelopeItem::is_plain`]). The moment `now` fills absent timestamps, and
/// `ids` absent ids. The `length` of the item header is not compared with the payload: a frame's
/// payload has it.
///
/// # Errors
///
/// The first check of the frame that fails, in this order:
///
/// - `InvalidItemHeader` if `header` isn't an item header, as [`read_item_header`] says.
/// - `InvalidItemPayload` if `payload` isn't read as its item type.
///
/// `OutOfMemory` if an allocation fails, or if a URL would take 4 GB.
///
/// [`Envelope::from_slice`]: crate::Envelope::from_slice
#[inline(never)]
pub fn read_item<R: Rng>(
    alloc: Global,
    header: &[u8],
    payload: &[u8],
    now: Moment,
    ids: &mut R,
) -> Result<EnvelopeItem, EnvelopeError>
    ensures shown { IfOk result (λ item. ItemShows profile (moment_cell now)
        (record { header = header.now; payload = payload.now }) (item_view item)) }
    ensures stored { IfOk result (λ item. AreStoredAndPlain (item_view item ∷ [])) }
    ensures fault { IfErr result (λ x. x ≢ EnvelopeError.OutOfMemory →
        IsItemFault profile (record { header = header.now; payload = payload.now }) x) }
{
    let mut fields = read_item_header(alloc, header)?;
    let texts = Bump::new(alloc);
    let mut lines = LineReader::new(alloc, &texts);
    let mut items = Vec::with_capacity(alloc, 1)?;
    let frame = ItemFrame { header, payload };
    add_item(&mut lines, &frame, &mut fields, now, ids, &mut items)?;
    Ok(items.pop().unwrap())
}

pub(crate) fn read_items<'l, 'a: 'l, R: Rng>(
    lines: &mut LineReader<'l>,
    frames: &mut Frames<'a>,
    now: Moment,
    ids: &mut R,
) -> Result<Vec<EnvelopeItem>, EnvelopeError>
    ensures ok { IfOk result (λ items.
        ItemsStand profile (moment_cell now) frames.old.rest (map item_view items.items) []) }
    ensures err { IfErr result (λ e. e ≢ EnvelopeError.OutOfMemory →
        BodyIsAtFault profile frames.old.rest e) }
{
    // Most envelopes have one item, and few bytes are asked for more cheaply than room for four.
    let mut items = Vec::with_capacity(lines.alloc(), 1)?;
    let mut header = ItemHeader::new();
    while let Some(answer) = next_item_into(frames, lines, &mut header) {
        let frame: ItemFrame<'l> = answer?;
        add_item(lines, &frame, &mut header, now, ids, &mut items)?;
    }
    Ok(items)
}

// Appends the item of a frame. Strings are moved out of `header`.
//
// An item is large, and each stack slot that may hold one is cleared on entry to a function. Each
// type of payload is therefore read, and its item appended, by a function of its own, and a small
// item doesn't pay for the slots of the others.
pub(crate) fn add_item<'a, R: Rng>(
    lines: &mut LineReader<'a>,
    frame: &ItemFrame<'a>,
    header: &mut ItemHeader,
    now: Moment,
    ids: &mut R,
    items: &mut Vec<EnvelopeItem>,
) -> Result<(), EnvelopeError>
    requires { read_header item_words (frame_of frame.now).header ≡ Some (header_view header.old) }
    ensures ok { OnOk result
        (IsAdded (moment_cell now) (frame_of frame.now) items.old.items items.new.items) }
    ensures err { IfErr result (IsNotAdded (frame_of frame.now)) }
{
    match header.kind {
        ItemKind::Attachment => add_attachment(lines.alloc(), frame.payload, header, items),
        ItemKind::ReplayRecording => add_recording(lines.alloc(), frame.payload, items),
        kind => add_json_item(lines, frame, kind, now, ids, items),
    }
}

// Appends an attachment. Its strings are moved out of `header`.
#[inline(never)]
fn add_attachment(
    alloc: Global,
    payload: &[u8],
    header: &mut ItemHeader,
    items: &mut Vec<EnvelopeItem>,
) -> Result<(), EnvelopeError>
    ensures ok { OnOk result ((a : Attachment) ×
        (attachment_view a ≡ attached_by (header_view header.old) payload.now)
        × (items.new.items ≡ items.old.items ++ EnvelopeItem.Attachment a ∷ [])) }
    ensures err { IfErr result (λ e. e ≡ EnvelopeError.OutOfMemory) }
{
    let attachment = attachment(alloc, payload, header)?;
    items.push(EnvelopeItem::Attachment(attachment))?;
    Ok(())
}

#[inline(never)]
fn add_recording(
    alloc: Global,
    payload: &[u8],
    items: &mut Vec<EnvelopeItem>,
) -> Result<(), EnvelopeError>
    ensures ok { OnOk result ((x : ReplayRecording) × (x.buffer.items ≡ payload.now)
        × (items.new.items ≡ items.old.items ++ EnvelopeItem.ReplayRecording x ∷ [])) }
    ensures err { IfErr result (λ e. e ≡ EnvelopeError.OutOfMemory) }
{
    let recording = replay_recording(alloc, payload)?;
    items.push(EnvelopeItem::ReplayRecording(recording))?;
    Ok(())
}

// Makes an attachment. Its strings are moved out of `header`.
pub(crate) fn attachment(
    alloc: Global,
    payload: &[u8],
    header: &mut ItemHeader,
) -> Result<Attachment, AllocError>
    ensures { IfOk result (λ a.
        attachment_view a ≡ attached_by (header_view header.old) payload.now) }
{
    Ok(Attachment {
        buffer: copy_of(alloc, payload)?,
        filename: header.filename.take().unwrap_or(String::new(alloc)),
        content_type: header.content_type.take(),
        ty: match &header.attachment_type {
            Some(text) => Some(AttachmentType::from_text(alloc, text)?),
            None => None,
        },
    })
}

fn replay_recording(alloc: Global, payload: &[u8]) -> Result<ReplayRecording, AllocError>
    ensures { IfOk result (λ recording. recording.buffer.items ≡ payload.now) }
{
    Ok(ReplayRecording {
        buffer: copy_of(alloc, payload)?,
    })
}

// Returns a copy of a payload. It is copied as one block; `to_vec` would copy it value by value.
fn copy_of(alloc: Global, payload: &[u8]) -> Result<Vec<u8>, AllocError>
    ensures { IfOk result (λ copy. copy.items ≡ payload.now) }
{
    let mut copy = Vec::with_capacity(alloc, payload.len())?;
    copy.extend_from_slice(payload)?;
    Ok(copy)
}
