//! Making envelopes.
ghost use Rattle.std.specs.Prelude.{◌≡◌, ◌≢◌, ◌⊎◌, [], ◌++◌, Err, IfOk, IfErr, OnOk, ℕ, List, map};
ghost use Rattle.std.specs.List.{All};
ghost use Rattle.sentry_framing.specs.Framing.{Frame, IsAtFault, IsFirstFrame, IsLineAndBody, Reading};
ghost use Rattle.sentry_framing.specs.View.{frame_of};
ghost use Rattle.sentry_json.specs.Line.{newline};
ghost use Rattle.sentry_forward.specs.AnyHeader.{any_reading};
ghost use Rattle.sentry_forward.specs.View.{IsRefused, any_frame};
ghost use Rattle.sentry_making.specs.Making.{Due, GoesOn, IsAppended, IsEnvelopeOf, IsHeaderLine, IsItem, envelope_text, item_text, made};

use crate::header::push_header;
use memchr::memchr;
use sentry_forward::header::check_header_line;
use sentry_forward::{AnyFrame, AnyFrames};
use sentry_framing::lines::skip_space;
use sentry_framing::{EnvelopeError, ItemFrame};
use std::alloc::Global;

// Appends an item as it is made: its header, which states the length, and its payload, each in a
// line.
fn push_item(alloc: Global, text: &mut Vec<u8>, item: &ItemFrame<'_>) -> Result<(), EnvelopeError>
    ensures ok { OnOk result (text.new.items ≡ text.old.items ++ item_text (frame_of item.now)) }
    ensures item { OnOk result (IsItem (frame_of item.now)) }
    ensures fault { IfErr result (λ e. e ≢ EnvelopeError.OutOfMemory
        → (e ≡ EnvelopeError.InvalidItemHeader) × (¬ IsItem (frame_of item.now))) }
{
    push_header(alloc, text, item)?;
    text.push(b'\n')?;
    text.extend_from_slice(item.payload)?;
    text.push(b'\n')?;
    Ok(())
}

// Checks that a header line is one JSON object in one line.
fn check_line(alloc: Global, line: &[u8]) -> Result<(), EnvelopeError>
    ensures ok { OnOk result (IsHeaderLine line.now) }
    ensures fault { IfErr result (λ e. e ≢ EnvelopeError.OutOfMemory
        → (e ≡ EnvelopeError.InvalidHeader) × (¬ IsHeaderLine line.now)) }
{
    if memchr(b'\n', line).is_some() {
        return Err(EnvelopeError::InvalidHeader);
    }
    check_header_line(alloc, line)
}

/// Makes an envelope of a header line and items. The header line and the payloads are written byte
/// for byte; an item header that doesn't state the length of its payload is made to, by a first
/// member `length`.
///
/// # Errors
///
/// - `InvalidHeader` if the header line isn't one JSON object in one line.
/// - `InvalidItemHeader` if an item header isn't one JSON object with a string `type`, without white
///   space around it, or has a `length` that isn't the payload's.
/// - `OutOfMemory` if an allocation fails.
pub fn make_envelope(
    alloc: Global,
    header: &[u8],
    items: &[ItemFrame<'_>],
) -> Result<Vec<u8>, EnvelopeError>
    ensures text { IfOk result (λ text.
        text.items ≡ envelope_text header.now (map frame_of items.now)) }
    ensures frames { IfOk result (λ text.
        IsEnvelopeOf header.now (map made (map frame_of items.now)) text.items) }
    ensures line { OnOk result (IsHeaderLine header.now) }
    ensures items { OnOk result (All IsItem (map frame_of items.now)) }
    ensures header_fault { result ≡ Err EnvelopeError.InvalidHeader → ¬ IsHeaderLine header.now }
    ensures item_fault { result ≡ Err EnvelopeError.InvalidItemHeader →
        ¬ All IsItem (map frame_of items.now) }
    ensures faults { IfErr result (λ e. (e ≡ EnvelopeError.OutOfMemory)
        ⊎ ((e ≡ EnvelopeError.InvalidHeader) ⊎ (e ≡ EnvelopeError.InvalidItemHeader))) }
{
    check_line(alloc, header)?;
    let mut text = Vec::from_slice(alloc, header)?;
    text.push(b'\n')?;
    for item in items {
        push_item(alloc, &mut text, item)?;
    }
    Ok(text)
}

// Returns the line feeds that have to follow the last frame of an envelope for another to follow.
// `body` is what the frame was read from.
fn feeds_behind(body: &[u8], frame: &AnyFrame<'_>) -> &'static [u8]
    requires { (rest : List ℕ) × ((reads : Reading)
        × IsFirstFrame reads body.now (any_frame frame.now) rest) }
    ensures more { (reads : Reading) → IsFirstFrame reads body.now (any_frame frame.now) [] →
        (text : List ℕ) →
        IsFirstFrame reads (body.now ++ (result.now ++ text)) (any_frame frame.now) text }
    ensures feeds { All (λ b. b ≡ newline) result.now }
{
    let left = skip_space(body).len();
    if left == frame.header.len() {
        b"\n\n"
    } else if left - frame.header.len() == frame.payload.len() + 1 {
        b"\n"
    } else {
        b""
    }
}

// Returns the line feeds that have to follow the header line of an envelope for an item to follow.
#[tactic(auto, using(crate::proofs::Behind::bare, crate::proofs::Behind::ended))]
fn feeds_behind_line(line: &[u8], bytes: &[u8]) -> &'static [u8]
    ensures { (body : List ℕ) → IsLineAndBody bytes.now line.now body →
        Due bytes.now line.now body body result.now }
{
    if line.len() == bytes.len() {
        b"\n"
    } else {
        b""
    }
}

// Reads all frames. Returns the line feeds that have to follow them for another item to follow, and
// those given if there is none.
fn feeds_behind_all<'a>(
    alloc: Global,
    reader: &mut AnyFrames<'a>,
    given: &'static [u8],
) -> Result<&'static [u8], EnvelopeError>
    ensures due { IfOk result (λ feeds. (bytes line : List ℕ) →
        IsLineAndBody bytes line reader.old.rest →
        Due bytes line reader.old.rest reader.old.rest given.now →
        Due bytes line reader.old.rest [] feeds.now) }
    ensures fault { IfErr result (λ e. e ≢ EnvelopeError.OutOfMemory
        → IsAtFault any_reading reader.old.rest e) }
{
    let mut feeds = given;
    let mut body = reader.rest();
    while let Some(next) = reader.next_frame(alloc) {
        let frame = next?;
        feeds = feeds_behind(body, &frame);
        body = reader.rest();
    }
    Ok(feeds)
}

// Returns the line feeds that have to follow an envelope for another item to follow.
fn feeds_due(alloc: Global, bytes: &[u8]) -> Result<&'static [u8], EnvelopeError>
    ensures ok { IfOk result (λ feeds. (line : List ℕ) × ((frames : List Frame)
        × GoesOn bytes.now line frames feeds.now)) }
    ensures fault { IfErr result (λ e. e ≢ EnvelopeError.OutOfMemory → IsRefused bytes.now e) }
{
    let mut reader = AnyFrames::new(alloc, bytes)?;
    let first = feeds_behind_line(reader.header_line(), bytes);
    let feeds = feeds_behind_all(alloc, &mut reader, first)?;
    Ok(feeds)
}

/// Appends an item to an envelope: returns the envelope's bytes, then line feeds as far as the next
/// item needs them, and the item as [`make_envelope`] makes it.
///
/// # Errors
///
/// The errors of [`AnyFrames`], for the first frame of the envelope that has one, and then:
///
/// - `InvalidItemHeader` if the item header isn't one JSON object with a string `type`, without white
///   space around it, or has a `length` that isn't the payload's.
/// - `OutOfMemory` if an allocation fails.
pub fn append_item(
    alloc: Global,
    bytes: &[u8],
    item: &ItemFrame<'_>,
) -> Result<Vec<u8>, EnvelopeError>
    ensures appended { IfOk result (λ text. IsAppended bytes.now (frame_of item.now) text.items) }
    ensures refused { IfErr result (λ e. e ≢ EnvelopeError.OutOfMemory → IsRefused bytes.now e
        ⊎ ((e ≡ EnvelopeError.InvalidItemHeader) × (¬ IsItem (frame_of item.now)))) }
{
    let feeds = feeds_due(alloc, bytes)?;
    let mut text = Vec::from_slice(alloc, bytes)?;
    text.extend_from_slice(feeds)?;
    push_item(alloc, &mut text, item)?;
    Ok(text)
}
