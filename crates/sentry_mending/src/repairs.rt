//! Repairs of an item, and whether they may stand.

ghost use Rattle.std.specs.Prelude.{◌≡◌, ◌≤◌, ◌++◌, [], IfOk, IfSome, IsTrue, false, length, take};
ghost use Rattle.std.specs.Fmt.{decimal};
ghost use Rattle.std.specs.List.{All};
ghost use Rattle.sentry_envelope.specs.SentryProfile.{profile};
ghost use Rattle.sentry_moments.specs.Moments.{moment_cell};
ghost use Rattle.sentry_mending.specs.Alone.{RefusesPayload};
ghost use Rattle.sentry_mending.specs.HeaderIds.{GivesId, StatesId};
ghost use Rattle.sentry_mending.specs.MendedItems.{StatesLength};
ghost use Rattle.sentry_mending.specs.Times.{IsTimeOf};
ghost use Rattle.sentry_places.specs.Honest.{IsHonest};
ghost use Rattle.sentry_places.specs.Needed.{AreNeeded};
ghost use Rattle.sentry_places.specs.Spliced.{spliced};
ghost use Rattle.sentry_places.specs.declared.note.Repair.TheVariants.{Length};

use crate::header_ids::{give_id, id_notes};
use crate::items::{Framed, Spot, copied};
use crate::mending::MendRules;
use crate::reading::{Reader, Role, fault_alone, refuses_payload};
use crate::times::Rfc3339Times;
use rand_core::Rng;
use sentry_framing::ItemKind;
use sentry_moments::Moment;
use sentry_places::scan::{cut, member_at, parts};
use sentry_places::{
    Found, Note, Place, Repair, Repairs, Searched, Wanted, are_honest, broken_at, find_faults,
    push_rest, push_spliced, splice_without,
};
use std::alloc::{AllocError, Global};
use uuid::Uuid;

/// Repairs of an item that reads with them.
#[derive(Drop)]
pub(crate) struct Repaired {
    pub frame: Vec<Note>,
    pub id: Vec<Note>,
    pub payload: Vec<Note>,
}

// Returns whether each note is needed: with any one undone, the payload is refused.
fn are_needed<R: Rng>(
    alloc: Global,
    bytes: &[u8],
    start: usize,
    notes: &[Note],
    word: &[u8],
    now: Moment,
    ids: &mut R,
) -> Result<bool, AllocError>
    ensures { IfOk result (λ b. IsTrue b →
        AreNeeded (RefusesPayload profile word.now) start bytes.now notes.now) }
{
    if start > bytes.len() {
        return Ok(false);
    }
    for k in 0..notes.len() {
        let Some(text) = splice_without(alloc, bytes, start, notes, k)? else {
            return Ok(false);
        };
        if !refuses_payload(alloc, word, &text, now, ids)? {
            return Ok(false);
        }
    }
    Ok(true)
}

// Drops notes that aren't needed while the others stand.
fn prune<R: Rng>(
    alloc: Global,
    bytes: &[u8],
    start: usize,
    notes: &mut Vec<Note>,
    word: &[u8],
    now: Moment,
    ids: &mut R,
) -> Result<(), AllocError> {
    if start > bytes.len() {
        return Ok(());
    }
    let mut k = 0;
    for _ in 0..notes.len() {
        if k >= notes.len() {
            break;
        }
        let Some(text) = splice_without(alloc, bytes, start, notes, k)? else {
            break;
        };
        if refuses_payload(alloc, word, &text, now, ids)? {
            k += 1;
        } else {
            drop(notes.remove(k));
        }
    }
    Ok(())
}

// Returns the payload as its notes leave it; `None` if they aren't in order. The bytes end with it.
fn payload_text(
    alloc: Global,
    bytes: &[u8],
    start: usize,
    id: &[Note],
    notes: &[Note],
) -> Result<Option<Vec<u8>>, AllocError>
    ensures { IfOk result (λ o. IfSome o (λ text.
        text.items ≡ spliced start (id.now ++ notes.now) bytes.now)) }
{
    if start > bytes.len() {
        return Ok(None);
    }
    let mut text = Vec::with_capacity(alloc, bytes.len() - start)?;
    let Some(at) = push_spliced(&mut text, bytes, start, id)? else {
        return Ok(None);
    };
    if !push_rest(&mut text, bytes, at, notes)? {
        return Ok(None);
    }
    Ok(Some(text))
}

// Returns whether a note is on `length` and puts this text.
fn puts_length(note: &Note, length: &str) -> bool
    ensures { IsTrue result →
        (note.now.repair ≡ Length) × (note.now.instead.items ≡ length.now) }
{
    note.repair == Repair::Length && note.instead.as_slice() == length.as_bytes()
}

// Returns whether each note is on `length` and puts that of these bytes.
fn state_length(alloc: Global, notes: &[Note], payload: &[u8]) -> Result<bool, AllocError>
    ensures { IfOk result (λ b. IsTrue b → All (StatesLength payload.now) notes.now) }
{
    let len = payload.len();
    let length = format!(in alloc; "{len}")?;
    let mut left = notes;
    while let Some((note, rest)) = left.split_first() {
        if !puts_length(note, length.as_str()) {
            return Ok(false);
        }
        left = rest;
    }
    Ok(true)
}

// Returns the note on the length in an item header, if one is stated and changes.
fn length_notes(
    alloc: Global,
    bytes: &[u8],
    framed: Framed,
    len: usize,
) -> Result<Vec<Note>, AllocError> {
    let mut found = Vec::new(alloc);
    let list = parts(alloc, bytes, framed.header_start)?;
    let Some(part) = member_at(bytes, &list, b"\"length\"") else {
        return Ok(found);
    };
    let length = format!(in alloc; "{len}")?;
    let stated = cut(bytes, part.start, part.end);
    if stated == length.as_str().as_bytes() || stated == b"null".as_slice() {
        return Ok(found);
    }
    found.push(Note {
        place: Place {
            path: copied(alloc, b"length")?,
            found: Found::Integer,
            wanted: Wanted::Integer,
            value: copied(alloc, stated)?,
            start: part.start,
            end: part.end,
        },
        repair: Repair::Length,
        because: None,
        start: part.start,
        end: part.end,
        instead: copied(alloc, length.as_str().as_bytes())?,
    })?;
    Ok(found)
}

// Returns whether an item alone reads with these notes.
fn reads_with<R: Rng>(
    alloc: Global,
    bytes: &[u8],
    spot: &Spot,
    repaired: &Repaired,
    now: Moment,
    ids: &mut R,
) -> Result<bool, AllocError> {
    if spot.end > bytes.len() || spot.start > spot.end {
        return Ok(false);
    }
    let item = &bytes[..spot.end];
    let mut text = Vec::with_capacity(alloc, spot.end.saturating_sub(spot.start))?;
    let Some(middle) = push_spliced(&mut text, item, spot.start, &repaired.frame)? else {
        return Ok(false);
    };
    let Some(at) = push_spliced(&mut text, item, middle, &repaired.id)? else {
        return Ok(false);
    };
    if !push_rest(&mut text, item, at, &repaired.payload)? {
        return Ok(false);
    }
    let found = fault_alone(alloc, &text, now, ids)?;
    Ok(found.is_none())
}

/// Returns whether notes put what they say.
pub(crate) fn are_true(
    alloc: Global,
    bytes: &[u8],
    framed: Framed,
    repaired: &Repaired,
    rules: MendRules,
    id: Option<Uuid>,
    now: Moment,
) -> Result<bool, AllocError>
    requires { IfSome id (StatesId (moment_cell now) bytes.now) }
    ensures honest_frame { IfOk result (λ b. IsTrue b →
        All (IsHonest IsTimeOf bytes.now) repaired.now.frame.items) }
    ensures honest_payload { IfOk result (λ b. IsTrue b →
        All (IsHonest IsTimeOf bytes.now) repaired.now.payload.items) }
    ensures given { IfOk result (λ b. IsTrue b →
        All (GivesId (moment_cell now) bytes.now) repaired.now.id.items) }
    ensures not_asked { IfOk result (λ b. IsTrue b →
        rules.header_event_id ≡ false → repaired.now.id.items ≡ []) }
    ensures lengths { IfOk result (λ b. IsTrue b → All (StatesLength (spliced framed.payload_start
        (repaired.now.id.items ++ repaired.now.payload.items) (take framed.payload_end bytes.now)))
        repaired.now.frame.items) }
{
    if framed.payload_end > bytes.len() {
        return Ok(false);
    }
    if !rules.header_event_id && !repaired.id.is_empty() {
        return Ok(false);
    }
    if !give_id(alloc, bytes, &repaired.id, id, now)? {
        return Ok(false);
    }
    if !are_honest::<Rfc3339Times>(alloc, bytes, &repaired.frame)? {
        return Ok(false);
    }
    if !are_honest::<Rfc3339Times>(alloc, bytes, &repaired.payload)? {
        return Ok(false);
    }
    let payload = payload_text(
        alloc,
        &bytes[..framed.payload_end],
        framed.payload_start,
        &repaired.id,
        &repaired.payload,
    )?;
    match payload {
        Some(text) => {
            let stated = state_length(alloc, &repaired.frame, &text)?;
            Ok(stated)
        }
        None => Ok(false),
    }
}

// Returns whether each note is needed, or there are more than are tested.
fn may_be_needed<R: Rng>(
    alloc: Global,
    bytes: &[u8],
    start: usize,
    notes: &[Note],
    most: usize,
    word: &[u8],
    now: Moment,
    ids: &mut R,
) -> Result<bool, AllocError>
    ensures { IfOk result (λ b. IsTrue b → length notes.now ≤ most →
        AreNeeded (RefusesPayload profile word.now) start bytes.now notes.now) }
{
    if notes.len() > most {
        return Ok(true);
    }
    let needed = are_needed(alloc, bytes, start, notes, word, now, ids)?;
    Ok(needed)
}

// Whether a payload of this type is searched.
fn is_searched(kind: Option<ItemKind>) -> bool {
    match kind {
        None => false,
        Some(ItemKind::Attachment) => false,
        Some(ItemKind::ReplayRecording) => false,
        Some(_) => true,
    }
}

// Returns the repairs of a payload with the id that it gets, and the length in the item header, if
// the item reads with them.
fn with_frame<R: Rng>(
    alloc: Global,
    bytes: &[u8],
    spot: &Spot,
    framed: Framed,
    id: Vec<Note>,
    payload: Vec<Note>,
    now: Moment,
    ids: &mut R,
) -> Result<Option<Repaired>, AllocError>
    ensures { IfOk result (λ o. IfSome o (λ r. r.payload.items ≡ payload.items)) }
{
    let part = cut(bytes, 0, framed.payload_end);
    let Some(text) = payload_text(alloc, part, framed.payload_start, &id, &payload)? else {
        return Ok(None);
    };
    let frame = length_notes(alloc, bytes, framed, text.len())?;
    let repaired = Repaired { frame, id, payload };
    let reads = reads_with(alloc, bytes, spot, &repaired, now, ids)?;
    Ok(if reads { Some(repaired) } else { None })
}

/// Returns what gives an item the header's id, if the item reads with it.
pub(crate) fn try_id<R: Rng>(
    alloc: Global,
    bytes: &[u8],
    spot: &Spot,
    framed: Framed,
    id: Option<Uuid>,
    now: Moment,
    ids: &mut R,
) -> Result<Option<Repaired>, AllocError> {
    let text = cut(bytes, framed.payload_start, framed.payload_end);
    let notes = id_notes(alloc, bytes, framed, spot.kind, id, text)?;
    if notes.is_empty() {
        return Ok(None);
    }
    with_frame(alloc, bytes, spot, framed, notes, Vec::new(alloc), now, ids)
}

// Returns the note that gives an item the header's id, beside these notes on its payload, if the
// item reads with all.
fn id_beside<R: Rng>(
    alloc: Global,
    bytes: &[u8],
    spot: &Spot,
    framed: Framed,
    payload: &[Note],
    id: Option<Uuid>,
    now: Moment,
    ids: &mut R,
) -> Result<Vec<Note>, AllocError> {
    if id.is_none() {
        return Ok(Vec::new(alloc));
    }
    let part = cut(bytes, 0, framed.payload_end);
    let start = framed.payload_start;
    let Some(text) = payload_text(alloc, part, start, &[], payload)? else {
        return Ok(Vec::new(alloc));
    };
    let notes = id_notes(alloc, bytes, framed, spot.kind, id, &text)?;
    let Some(text) = payload_text(alloc, part, start, &notes, payload)? else {
        return Ok(Vec::new(alloc));
    };
    let refused = refuses_payload(alloc, &spot.word, &text, now, ids)?;
    Ok(if refused { Vec::new(alloc) } else { notes })
}

// Returns notes of which each is needed, if they are few enough to be tested: those that aren't are
// dropped. `None` if that doesn't lead there.
fn needed_notes<R: Rng>(
    alloc: Global,
    bytes: &[u8],
    start: usize,
    notes: Vec<Note>,
    most: usize,
    word: &[u8],
    now: Moment,
    ids: &mut R,
) -> Result<Option<Vec<Note>>, AllocError>
    ensures { IfOk result (λ o. IfSome o (λ notes. length notes.items ≤ most →
        AreNeeded (RefusesPayload profile word.now) start bytes.now notes.items)) }
{
    let mut notes = notes;
    if !may_be_needed(alloc, bytes, start, &notes, most, word, now, ids)? {
        prune(alloc, bytes, start, &mut notes, word, now, ids)?;
        if !may_be_needed(alloc, bytes, start, &notes, most, word, now, ids)? {
            return Ok(None);
        }
    }
    Ok(Some(notes))
}

// Searches a payload of JSON for places to repair.
fn search_payload<R: Rng>(
    alloc: Global,
    bytes: &[u8],
    spot: &Spot,
    framed: Framed,
    rules: MendRules,
    now: Moment,
    ids: &mut R,
) -> Result<Searched, AllocError> {
    let text = cut(bytes, framed.payload_start, framed.payload_end);
    let is_searched = rules.repairs != Repairs::Strict && is_searched(spot.kind);
    // What isn't JSON has no values to repair.
    if !is_searched || broken_at(alloc, text)?.is_some() {
        return Ok(Searched {
            notes: Vec::new(alloc),
            stuck: None,
        });
    }
    let reader = Reader {
        alloc,
        role: Role::Payload(&spot.word),
        now,
        ids,
    };
    let start = framed.payload_start;
    find_faults(
        alloc,
        reader,
        bytes,
        start,
        Some(rules.repairs),
        rules.max_notes,
    )
}

/// Looks for repairs with which an item reads, or else for a place that can't be repaired.
pub(crate) fn try_repairs<R: Rng>(
    alloc: Global,
    bytes: &[u8],
    spot: &Spot,
    framed: Framed,
    rules: MendRules,
    id: Option<Uuid>,
    now: Moment,
    ids: &mut R,
) -> Result<(Option<Repaired>, Option<Place>), AllocError>
    ensures { IfOk result (λ tried. IfSome tried.0 (λ r.
        length r.payload.items ≤ rules.max_tested → AreNeeded (RefusesPayload profile
        spot.now.word.items) framed.payload_start (take framed.payload_end bytes.now)
        r.payload.items)) }
{
    if framed.payload_end > bytes.len() {
        return Ok((None, None));
    }
    let payload = &bytes[..framed.payload_end];
    let searched = search_payload(alloc, bytes, spot, framed, rules, now, ids)?;
    let Searched { notes, stuck } = searched;
    if notes.is_empty() {
        return Ok((None, stuck));
    }
    let start = framed.payload_start;
    let most = rules.max_tested;
    let word = &spot.word;
    let Some(notes) = needed_notes(alloc, payload, start, notes, most, word, now, ids)? else {
        return Ok((None, stuck));
    };
    let id = id_beside(alloc, bytes, spot, framed, &notes, id, now, ids)?;
    let repaired = with_frame(alloc, bytes, spot, framed, id, notes, now, ids)?;
    Ok((repaired, stuck))
}
