//! Items of an envelope, one by one, and why they are refused.

ghost use Rattle.std.specs.Prelude.{◌≡◌, IfOk, IfSome, slice_range};
ghost use Rattle.sentry_envelope.specs.SentryProfile.{profile};
ghost use Rattle.sentry_mending.specs.Alone.{Fails, alone};

use crate::fault::Cause;
use crate::reading::{Reader, Role, fault_alone};
use rand_core::Rng;
use sentry_forward::{AnyFrame, AnyFrames};
use sentry_framing::{EnvelopeError, ItemKind};
use sentry_moments::Moment;
use sentry_places::scan::{cut, member_at, parts, space_end, value_end};
use sentry_places::{Found, Place, Searched, Wanted, broken_at, find_faults};
use std::alloc::{AllocError, Global};

/// Where the header and the payload of an item stand in the envelope.
#[derive(Clone, Copy)]
pub(crate) struct Framed {
    pub header_start: usize,
    pub header_end: usize,
    pub payload_start: usize,
    pub payload_end: usize,
}

/// An item of an envelope; if its framing is at fault, all bytes from there on.
#[derive(Drop)]
pub(crate) struct Spot {
    pub item: usize,
    pub start: usize,
    pub end: usize,
    pub word: Vec<u8>,
    pub kind: Option<ItemKind>,
    pub framed: Option<Framed>,
}

/// Copies bytes.
pub(crate) fn copied(alloc: Global, bytes: &[u8]) -> Result<Vec<u8>, AllocError>
    ensures { IfOk result (λ all. all.items ≡ bytes.now) }
{
    let mut all = Vec::with_capacity(alloc, bytes.len())?;
    all.extend_from_slice(bytes)?;
    Ok(all)
}

/// Returns the same error.
pub(crate) fn same(error: &EnvelopeError) -> EnvelopeError
    ensures { result ≡ error.now }
{
    match error {
        EnvelopeError::UnexpectedEof => EnvelopeError::UnexpectedEof,
        EnvelopeError::MissingHeader => EnvelopeError::MissingHeader,
        EnvelopeError::MissingItemHeader => EnvelopeError::MissingItemHeader,
        EnvelopeError::MissingNewline => EnvelopeError::MissingNewline,
        EnvelopeError::InvalidHeader => EnvelopeError::InvalidHeader,
        EnvelopeError::InvalidItemHeader => EnvelopeError::InvalidItemHeader,
        EnvelopeError::InvalidItemPayload => EnvelopeError::InvalidItemPayload,
        EnvelopeError::OutOfMemory => EnvelopeError::OutOfMemory,
    }
}

fn spot_of(alloc: Global, frame: &AnyFrame<'_>, item: usize) -> Result<Spot, AllocError> {
    let word = copied(alloc, frame.word.as_str().as_bytes())?;
    Ok(Spot {
        item,
        start: frame.start,
        end: frame.start.saturating_add(frame.bytes.len()),
        word,
        kind: frame.kind(),
        framed: Some(Framed {
            header_start: frame.header_start,
            header_end: frame.header_start.saturating_add(frame.header.len()),
            payload_start: frame.payload_start,
            payload_end: frame.payload_start.saturating_add(frame.payload.len()),
        }),
    })
}

/// Returns the next item; `None` if no bytes are left.
pub(crate) fn next_spot(
    alloc: Global,
    bytes: &[u8],
    frames: &mut AnyFrames<'_>,
    item: usize,
) -> Result<Option<Spot>, AllocError> {
    let start = bytes.len().saturating_sub(frames.rest().len());
    match frames.next_frame(alloc) {
        None => Ok(None),
        Some(Ok(frame)) => Ok(Some(spot_of(alloc, &frame, item)?)),
        Some(Err(EnvelopeError::OutOfMemory)) => Err(AllocError),
        Some(Err(_)) => Ok(Some(Spot {
            item,
            start,
            end: bytes.len(),
            word: Vec::new(alloc),
            kind: None,
            framed: None,
        })),
    }
}

// Returns where a part of the envelope stops being JSON, if it does.
fn broken_in(
    alloc: Global,
    bytes: &[u8],
    start: usize,
    end: usize,
) -> Result<Option<Cause>, AllocError> {
    Ok(match broken_at(alloc, cut(bytes, start, end))? {
        Some(mut found) => {
            found.at = found.at.saturating_add(start);
            Some(Cause::Syntax(found))
        }
        None => None,
    })
}

fn place_cause(place: Option<Place>) -> Cause {
    match place {
        Some(place) => Cause::Place(place),
        None => Cause::Whole,
    }
}

// Returns the places that don't fit, at most so many, in a text of the envelope of some role.
fn causes_in<R: Rng>(
    alloc: Global,
    bytes: &[u8],
    role: Role<'_>,
    range: (usize, usize),
    most: usize,
    now: Moment,
    ids: &mut R,
) -> Result<Vec<Cause>, AllocError> {
    let (start, end) = range;
    let mut causes = Vec::new(alloc);
    if let Some(cause) = broken_in(alloc, bytes, start, end)? {
        causes.push(cause)?;
        return Ok(causes);
    }
    let reader = Reader {
        alloc,
        role,
        now,
        ids,
    };
    let Searched { notes, stuck } = find_faults(alloc, reader, bytes, start, None, most)?;
    let rest = place_cause(stuck);
    for note in notes {
        causes.push(Cause::Place(note.place))?;
    }
    if causes.is_empty() {
        causes.push(rest)?;
    }
    Ok(causes)
}

/// Returns the places of the header line that don't fit, at most so many.
pub(crate) fn line_causes<R: Rng>(
    alloc: Global,
    bytes: &[u8],
    end: usize,
    most: usize,
    now: Moment,
    ids: &mut R,
) -> Result<Vec<Cause>, AllocError> {
    causes_in(alloc, bytes, Role::HeaderLine, (0, end), most, now, ids)
}

// Returns the place of an unknown item type.
fn type_cause(alloc: Global, bytes: &[u8], framed: Framed) -> Result<Cause, AllocError> {
    let list = parts(alloc, bytes, framed.header_start)?;
    let (start, end) = match member_at(bytes, &list, b"\"type\"") {
        Some(part) => (part.start, part.end),
        None => (framed.header_start, framed.header_end),
    };
    Ok(Cause::Place(Place {
        path: copied(alloc, b"type")?,
        found: Found::Text,
        wanted: Wanted::Word,
        value: Vec::new(alloc),
        start,
        end,
    }))
}

/// Returns the places of an item that don't fit, at most so many; one for the whole if no place is
/// found.
pub(crate) fn item_causes<R: Rng>(
    alloc: Global,
    bytes: &[u8],
    spot: &Spot,
    error: &EnvelopeError,
    most: usize,
    now: Moment,
    ids: &mut R,
) -> Result<Vec<Cause>, AllocError> {
    let mut causes = Vec::new(alloc);
    let Some(framed) = spot.framed else {
        let start = space_end(bytes, spot.start);
        let broken = match error {
            EnvelopeError::InvalidItemHeader => {
                broken_in(alloc, bytes, start, value_end(bytes, start))?
            }
            _ => None,
        };
        causes.push(broken.unwrap_or(Cause::Whole))?;
        return Ok(causes);
    };
    if spot.kind.is_none() {
        causes.push(type_cause(alloc, bytes, framed)?)?;
        return Ok(causes);
    }
    let (role, start, end) = match error {
        EnvelopeError::InvalidItemHeader => {
            (Role::ItemHeader, framed.header_start, framed.header_end)
        }
        EnvelopeError::InvalidItemPayload => (
            Role::Payload(&spot.word),
            framed.payload_start,
            framed.payload_end,
        ),
        _ => {
            causes.push(Cause::Whole)?;
            return Ok(causes);
        }
    };
    causes_in(alloc, bytes, role, (start, end), most, now, ids)
}

/// Returns the first check of an item alone that fails; `None` if it reads.
pub(crate) fn spot_error<R: Rng>(
    alloc: Global,
    bytes: &[u8],
    spot: &Spot,
    now: Moment,
    ids: &mut R,
) -> Result<Option<EnvelopeError>, AllocError>
    ensures { IfOk result (λ o. IfSome o
        (Fails profile (alone (slice_range bytes.now spot.now.start spot.now.end)))) }
{
    if spot.end < spot.start || bytes.len() < spot.end {
        return Ok(None);
    }
    let found = fault_alone(alloc, &bytes[spot.start..spot.end], now, ids)?;
    Ok(found)
}
