//! The text of a structured envelope.

ghost use Rattle.std.specs.Prelude.{◌≡◌, ◌≤◌, ◌∷◌, ◌++◌, [], IfOk, OnOk, map};
ghost use Rattle.serde_json.specs.Written.{compact_text};
ghost use Rattle.sentry_tables.specs.Written.{tree};
ghost use Rattle.sentry_framing.specs.Framing.{with_line};
ghost use Rattle.sentry_items.specs.Payload.{AppendsPayload};
ghost use Rattle.sentry_items.specs.View.{item_held};
ghost use Rattle.sentry_envelope.specs.Envelope.{envelope_text, frame_text, frame_of_item};
ghost use Rattle.sentry_envelope.specs.EnvelopeView.{item_view, AreStoredAndPlain, IsStoredAndPlain};
ghost use Rattle.sentry_envelope.specs.HeaderFields.{header_kind, headers_cell};
ghost use Rattle.sentry_envelope.specs.ItemText.{AppendsValue};
ghost use Rattle.sentry_envelope.specs.SentryProfile.{profile};
ghost use Rattle.sentry_items.specs.Texts.{bytes_of};

use crate::headers::EnvelopeHeaders;
use sentry_items::EnvelopeItem;
use sentry_items::header::{write_attachment_header, write_container_header, write_short_header};
use sentry_items::item::write_payload;
use sentry_items::text::Text;
use sentry_tables::write_text;
use std::alloc::{AllocError, Global};

// Room for a small text: a buffer that has it needn't grow step by step.
const ROOM: usize = 512;

// Room for a text that is seldom small.
const LARGE_ROOM: usize = 4096;

pub(crate) fn write_envelope<'e>(
    alloc: Global,
    headers: &EnvelopeHeaders,
    items: &'e [EnvelopeItem],
) -> Result<Text<'e>, AllocError>
    ensures { IfOk result (λ text. IsStoredAndPlain header_kind (headers_cell headers.now) ×
        AreStoredAndPlain (map item_view items.now)
        → bytes_of text ≡
        envelope_text profile
        (record { header = headers_cell headers.now; items = map item_view items.now })) }
{
    let mut out = Vec::with_capacity(alloc, first_room(items))?;
    write_headers(headers, &mut out)?;
    out.push(b'\n')?;
    let mut text = Text::new(alloc, out);
    let mut payload = Vec::new(alloc);
    for item in items {
        write_item(item, &mut payload, &mut text)?;
    }
    Ok(text)
}

pub(crate) fn write_headers(headers: &EnvelopeHeaders, out: &mut Vec<u8>) -> Result<(), AllocError>
    ensures { OnOk result (IsStoredAndPlain header_kind (headers_cell headers.now)
        → out.new.items ≡ out.old.items ++
        compact_text (tree header_kind (headers_cell headers.now))) }
{
    write_text(headers, out)
}

// Appends the header and payload of an item, each with a line feed; nothing for `Raw`.
//
// A JSON payload is built in the buffer `payload`, since its length is written before it, and a
// JSON writer clears memory ahead of what it writes.
fn write_item<'e>(
    item: &'e EnvelopeItem,
    payload: &mut Vec<u8>,
    text: &mut Text<'e>,
) -> Result<(), AllocError>
    ensures { OnOk result (AreStoredAndPlain (item_view item.now ∷ []) →
        bytes_of text.new ≡ bytes_of text.old ++
        frame_text (frame_of_item profile (item_view item.now)) []) }
{
    match item {
        EnvelopeItem::Attachment(attachment) => {
            write_attachment_header(attachment, &mut text.end)?;
            end_frame(&attachment.buffer, text)
        }
        EnvelopeItem::ReplayRecording(recording) => {
            write_short_header("replay_recording", &recording.buffer, &mut text.end)?;
            end_frame(&recording.buffer, text)
        }
        EnvelopeItem::ItemContainer(container) => {
            build_payload(item, payload)?;
            write_container_header(container, &mut text.end)?;
            take_frame(payload, text)
        }
        _ => write_value(item, payload, text),
    }
}

// Builds a payload in place of the one before.
fn build_payload(item: &EnvelopeItem, payload: &mut Vec<u8>) -> Result<(), AllocError>
    ensures { OnOk result (AppendsPayload (item_held item.now) [] payload.new.items) }
{
    payload.clear();
    payload.reserve(room(item))?;
    write_payload(item, payload)
}

// Returns the room that is made for a payload before it is built.
fn room(item: &EnvelopeItem) -> usize
    ensures { result ≤ LARGE_ROOM }
{
    match item {
        EnvelopeItem::Event(_) | EnvelopeItem::Transaction(_) => LARGE_ROOM,
        EnvelopeItem::ItemContainer(_) => LARGE_ROOM,
        _ => ROOM,
    }
}

// Returns the room that is made for the whole text before it is built: that of its first item.
fn first_room(items: &[EnvelopeItem]) -> usize
    ensures { result ≤ LARGE_ROOM }
{
    match items.first() {
        Some(item) => room(item),
        None => ROOM,
    }
}

// Appends the header and payload of an item whose payload is one JSON text, each with a line feed;
// nothing for `Raw`.
fn write_value(
    item: &EnvelopeItem,
    payload: &mut Vec<u8>,
    text: &mut Text<'_>,
) -> Result<(), AllocError>
    ensures { OnOk result
        (AppendsValue (item_held item.now) (bytes_of text.old) (bytes_of text.new)) }
{
    let Some(kind) = item.kind() else {
        return Ok(());
    };
    build_payload(item, payload)?;
    write_short_header(kind.as_str(), payload, &mut text.end)?;
    take_frame(payload, text)
}

// Ends the line of a header, and appends a payload with a line feed. The payload's bytes are moved
// if they are many.
pub(crate) fn take_frame(payload: &mut Vec<u8>, text: &mut Text<'_>) -> Result<(), AllocError>
    ensures { OnOk result (bytes_of text.new ≡ bytes_of text.old ++
        with_line [] (with_line payload.old.items [])) }
{
    text.end.push(b'\n')?;
    text.take(payload)?;
    text.end.push(b'\n')?;
    Ok(())
}

// The same; the payload is lent if it is large.
pub(crate) fn end_frame<'e>(payload: &'e [u8], text: &mut Text<'e>) -> Result<(), AllocError>
    ensures { OnOk result (bytes_of text.new ≡ bytes_of text.old ++
        with_line [] (with_line payload.now [])) }
{
    text.end.push(b'\n')?;
    text.lend(payload)?;
    text.end.push(b'\n')?;
    Ok(())
}
