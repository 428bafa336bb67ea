//! The header's event id as that of an event without one.

ghost use Rattle.std.specs.Prelude.{◌≡◌, ◌++◌, ◌∷◌, [], IfOk, IfSome, IsTrue};
ghost use Rattle.std.specs.List.{All};
ghost use Rattle.sentry_envelope.specs.EnvelopeView.{event_id_of};
ghost use Rattle.sentry_moments.specs.Moments.{moment_cell};
ghost use Rattle.sentry_places.specs.declared.note.Repair.TheVariants.{HeaderId};
ghost use Rattle.sentry_mending.specs.HeaderIds.{GivesId, IsIdMember, StatesId, id_member};

use crate::items::{Framed, copied};
use crate::reading::not_memory;
use rand_core::Rng;
use sentry_envelope::Envelope;
use sentry_framing::{EnvelopeError, Frames, ItemKind};
use sentry_moments::Moment;
use sentry_places::scan::{byte_at, cut, found, member_at, parts, space_end, value_of};
use sentry_places::{Found, Note, Place, Repair, Wanted};
use std::alloc::{AllocError, Global};
use uuid::Uuid;

// Returns the event id in the header of an envelope.
fn id_of(envelope: &Envelope) -> Option<Uuid>
    ensures { result ≡ event_id_of envelope.now }
{
    match envelope.uuid() {
        Some(id) => Some(*id),
        None => None,
    }
}

/// Returns the event id that the header line states; `None` if it states none or is refused.
#[tactic(auto, using(crate::proofs::Given::id_stated))]
pub(crate) fn header_id<R: Rng>(
    alloc: Global,
    bytes: &[u8],
    now: Moment,
    ids: &mut R,
) -> Result<Option<Uuid>, AllocError>
    ensures { IfOk result (λ o. IfSome o (StatesId (moment_cell now) bytes.now)) }
{
    let frames = Frames::new(bytes);
    let line = frames.header_line();
    match Envelope::from_slice(alloc, line, now, ids) {
        Ok(envelope) => Ok(id_of(&envelope)),
        Err(error) => {
            not_memory(&error)?;
            Ok(None)
        }
    }
}

// Returns the member of an id.
fn id_text(alloc: Global, id: Uuid) -> Result<Vec<u8>, AllocError>
    ensures { IfOk result (λ text. text.items ≡ id_member id) }
{
    let mut text = Vec::with_capacity(alloc, 48)?;
    text.extend_from_slice(b"\"event_id\":\"")?;
    text.extend_from_slice(id.simple().encode_lower(&mut [0; 32]).as_bytes())?;
    text.push(b'"')?;
    Ok(text)
}

// Returns whether a note puts the member of an id, with or without a comma behind it.
fn puts_id(alloc: Global, note: &Note, id: Uuid) -> Result<bool, AllocError>
    ensures { IfOk result (λ b. IsTrue b →
        (note.now.repair ≡ HeaderId) × IsIdMember id note.now.instead.items) }
{
    if note.repair != Repair::HeaderId {
        return Ok(false);
    }
    let mut text = id_text(alloc, id)?;
    if note.instead.as_slice() == text.as_slice() {
        return Ok(true);
    }
    text.push(b',')?;
    Ok(note.instead.as_slice() == text.as_slice())
}

/// Returns whether each note puts the header's id; if it has none, whether there are none.
#[tactic(auto, using(crate::proofs::Given::id_given))]
pub(crate) fn give_id(
    alloc: Global,
    bytes: &[u8],
    notes: &[Note],
    id: Option<Uuid>,
    now: Moment,
) -> Result<bool, AllocError>
    requires { IfSome id (StatesId (moment_cell now) bytes.now) }
    ensures { IfOk result (λ b. IsTrue b → All (GivesId (moment_cell now) bytes.now) notes.now) }
{
    let Some(id) = id else {
        return Ok(notes.is_empty());
    };
    let mut left = notes;
    while let Some((note, rest)) = left.split_first() {
        if !puts_id(alloc, note, id)? {
            return Ok(false);
        }
        left = rest;
    }
    Ok(true)
}

// Returns the range of the payload in which an id is put, and whether a comma comes behind it;
// `None` if the payload has an id or is no object. `text` is the payload as its other notes leave
// it.
fn id_place(
    alloc: Global,
    bytes: &[u8],
    framed: Framed,
    text: &[u8],
) -> Result<Option<(usize, usize, bool)>, AllocError> {
    let payload = cut(bytes, 0, framed.payload_end);
    let open = space_end(payload, framed.payload_start);
    if byte_at(payload, open) != b'{' {
        return Ok(None);
    }
    let list = parts(alloc, payload, open)?;
    match member_at(payload, &list, b"\"event_id\"") {
        // A null is replaced, since of two members the last one counts.
        Some(part) => {
            let is_null = found(value_of(payload, &part)) == Found::Null;
            Ok(is_null.then_some((part.begin, part.end, false)))
        }
        None => {
            let at = open.saturating_add(1);
            let inside = space_end(text, space_end(text, 0).saturating_add(1));
            Ok(Some((at, at, byte_at(text, inside) != b'}')))
        }
    }
}

/// Returns the note that puts the header's id into an event or a transaction without one.
pub(crate) fn id_notes(
    alloc: Global,
    bytes: &[u8],
    framed: Framed,
    kind: Option<ItemKind>,
    id: Option<Uuid>,
    text: &[u8],
) -> Result<Vec<Note>, AllocError> {
    let mut notes = Vec::new(alloc);
    let Some(id) = id else {
        return Ok(notes);
    };
    if kind != Some(ItemKind::Event) && kind != Some(ItemKind::Transaction) {
        return Ok(notes);
    }
    let Some((start, end, comma)) = id_place(alloc, bytes, framed, text)? else {
        return Ok(notes);
    };
    let mut instead = id_text(alloc, id)?;
    if comma {
        instead.push(b',')?;
    }
    notes.push(Note {
        place: Place {
            path: copied(alloc, b"event_id")?,
            found: if start == end {
                Found::Absent
            } else {
                Found::Null
            },
            wanted: Wanted::Uuid,
            value: Vec::new(alloc),
            start,
            end,
        },
        repair: Repair::HeaderId,
        because: None,
        start,
        end,
        instead,
    })?;
    Ok(notes)
}
