//! Reads an envelope of which some items don't fit.

ghost use Rattle.std.specs.Prelude.{◌≡◌, ◌≢◌, ◌≤◌, ◌↔◌, [], None, Some, IfErr, IfOk, IfSome, IsSomeAnd, IsTrue, OnOk, List, ℕ, false, length, slice_range, take};
ghost use Rattle.std.specs.List.{All};
ghost use Rattle.sentry_envelope.specs.Envelope.{Spells};
ghost use Rattle.sentry_envelope.specs.EnvelopeView.{structured};
ghost use Rattle.sentry_envelope.specs.SentryProfile.{profile};
ghost use Rattle.sentry_moments.specs.Moments.{moment_cell};
ghost use Rattle.sentry_mending.specs.Alone.{Fails, RefusesPayload, alone};
ghost use Rattle.sentry_mending.specs.HeaderIds.{StatesId};
ghost use Rattle.sentry_mending.specs.MendedItems.{IsLeftFirst, IsMended, LeavesOut, all_notes};
ghost use Rattle.sentry_mending.specs.Times.{IsTimeOf};
ghost use Rattle.sentry_mending.specs.declared.fault.Fault.{Fault as Faults};
ghost use Rattle.sentry_places.specs.Honest.{IsHonest};
ghost use Rattle.sentry_places.specs.Needed.{AreNeeded};
ghost use Rattle.sentry_places.specs.Spliced.{AreInOrder, spliced};

use crate::fault::{Cause, Fault};
use crate::header_ids::header_id;
use crate::items::{Framed, Spot, copied, item_causes, next_spot, same, spot_error};
use crate::reading::not_memory;
use crate::repairs::{Repaired, are_true, try_id, try_repairs};
use rand_core::Rng;
use sentry_envelope::Envelope;
use sentry_forward::AnyFrames;
use sentry_framing::EnvelopeError;
use sentry_moments::Moment;
use sentry_places::{Found, Note, Place, Repair, Repairs, Wanted, push_spliced};
use std::alloc::{AllocError, Global};
use uuid::Uuid;

/// What mending may do.
#[derive(Clone, Copy, Debug)]
pub struct MendRules {
    /// Repairs that are allowed.
    pub repairs: Repairs,
    /// Most notes on the payload of one item; an item that needs more is left.
    pub max_notes: usize,
    /// Most notes on a payload of which each is tested to be needed, by a reading of the payload
    /// without the note.
    pub max_tested: usize,
    /// Whether an event or a transaction without an event id gets that of the envelope's header.
    pub header_event_id: bool,
}

impl MendRules {
    /// Repairs that lose nothing but form, at most 10,000 an item, and up to 32 tested; no ids of
    /// the header.
    pub fn new() -> MendRules
        ensures repairs { result.repairs ≡ Repairs.Form }
        ensures max_notes { result.max_notes ≡ 10000 }
        ensures max_tested { result.max_tested ≡ 32 }
        ensures header_event_id { result.header_event_id ≡ false }
    {
        MendRules {
            repairs: Repairs::Form,
            max_notes: 10_000,
            max_tested: 32,
            header_event_id: false,
        }
    }
}

/// An item that was changed: repaired, left out, or given the header's event id.
#[derive(Debug, Drop)]
pub struct MendedItem {
    /// Index of the item.
    pub item: usize,
    /// Why the item is refused as it stands; `None` if it reads, and only got the header's id.
    pub fault: Option<Fault>,
    /// The note on `length` in the item header if it changed, or the note that the item is left.
    pub frame: Vec<Note>,
    /// The note that the payload got the header's event id, if it did.
    pub id: Vec<Note>,
    /// Notes on the payload, in order; none if the item is left.
    pub payload: Vec<Note>,
    /// First byte of the payload in the envelope.
    pub payload_start: usize,
    /// Byte behind the payload.
    pub payload_end: usize,
}

impl MendedItem {
    /// Returns whether the item is left out of the envelope.
    pub fn is_left(&self) -> bool
        ensures { IsTrue result ↔ IsLeftFirst self.now.frame.items }
    {
        match self.frame.first() {
            Some(note) => note.repair == Repair::Left,
            None => false,
        }
    }
}

/// An envelope, and what was changed so that its bytes read.
#[derive(Drop)]
pub struct Mended {
    /// The envelope, of all items that read, as they stand or repaired.
    pub envelope: Envelope,
    /// The first check that fails as the bytes stand; `None` if they read.
    pub error: Option<EnvelopeError>,
    /// The items that were changed, in order: those that are refused as they stand, and those that
    /// got the header's event id.
    pub items: Vec<MendedItem>,
}

/// Why an envelope can't be mended.
#[derive(Debug, Drop)]
pub struct Refusal {
    /// The first check that fails as the bytes stand, or that an allocation failed.
    pub error: EnvelopeError,
}

impl From<AllocError> for Refusal {
    ghost use Rattle.std.specs.Prelude.{◌≡◌};
    ghost use Rattle.sentry_framing.specs.declared.error.EnvelopeError.TheVariants.{OutOfMemory};

    ghost from_gives = { λ _ r. r.error ≡ OutOfMemory };

    fn from(_error: AllocError) -> Refusal {
        Refusal {
            error: EnvelopeError::OutOfMemory,
        }
    }
}

// The note that an item is left out.
fn left_notes(alloc: Global, spot: &Spot) -> Result<Vec<Note>, AllocError>
    ensures honest { IfOk result (λ notes. (bytes : List ℕ) →
        All (IsHonest IsTimeOf bytes) notes.items) }
    ensures leaves { IfOk result (λ notes. (fault : Faults) → fault.start ≡ spot.now.start →
        fault.end ≡ spot.now.end → LeavesOut fault notes.items) }
{
    let mut notes = Vec::with_capacity(alloc, 1)?;
    notes.push(Note {
        place: Place {
            path: Vec::new(alloc),
            found: Found::Object,
            wanted: Wanted::Other,
            value: Vec::new(alloc),
            start: spot.start,
            end: spot.end,
        },
        repair: Repair::Left,
        because: None,
        start: spot.start,
        end: spot.end,
        instead: Vec::new(alloc),
    })?;
    Ok(notes)
}

// Returns what an item that is left is refused for.
fn left_cause<R: Rng>(
    alloc: Global,
    bytes: &[u8],
    spot: &Spot,
    error: &EnvelopeError,
    stuck: Option<Place>,
    now: Moment,
    ids: &mut R,
) -> Result<Cause, AllocError> {
    if let Some(place) = stuck {
        return Ok(Cause::Place(place));
    }
    let mut causes = item_causes(alloc, bytes, spot, error, 1, now, ids)?;
    Ok(causes.pop().unwrap_or(Cause::Whole))
}

// Returns the fault of an item.
fn item_fault(
    alloc: Global,
    spot: &Spot,
    error: EnvelopeError,
    cause: Cause,
) -> Result<Fault, AllocError>
    ensures { IfOk result (λ f. (f.error ≡ error) × (f.item ≡ Some spot.now.item)
        × (f.start ≡ spot.now.start) × (f.end ≡ spot.now.end)
        × (f.word.items ≡ spot.now.word.items)) }
{
    let word = copied(alloc, &spot.word)?;
    Ok(Fault {
        error,
        item: Some(spot.item),
        word,
        start: spot.start,
        end: spot.end,
        cause,
    })
}

// Leaves an item out that is refused for this check.
fn leave_item<R: Rng>(
    alloc: Global,
    bytes: &[u8],
    spot: &Spot,
    error: &EnvelopeError,
    stuck: Option<Place>,
    rules: MendRules,
    stands: &Option<EnvelopeError>,
    now: Moment,
    ids: &mut R,
) -> Result<MendedItem, AllocError>
    requires refused { stands.now ≢ None }
    requires fails { Fails profile (alone (slice_range bytes.now spot.now.start spot.now.end))
        error.now }
    ensures { IfOk result (IsMended profile (moment_cell now) rules bytes.now stands.now) }
{
    let cause = left_cause(alloc, bytes, spot, error, stuck, now, ids)?;
    let frame = left_notes(alloc, spot)?;
    let fault = item_fault(alloc, spot, same(error), cause)?;
    Ok(MendedItem {
        item: spot.item,
        fault: Some(fault),
        frame,
        id: Vec::new(alloc),
        payload: Vec::new(alloc),
        payload_start: spot.end,
        payload_end: spot.end,
    })
}

// Repairs an item that is refused for this check. If that isn't possible, returns a place that can't
// be repaired, if there is one.
fn repair_item<R: Rng>(
    alloc: Global,
    bytes: &[u8],
    spot: &Spot,
    framed: Framed,
    error: &EnvelopeError,
    rules: MendRules,
    id: Option<Uuid>,
    stands: &Option<EnvelopeError>,
    now: Moment,
    ids: &mut R,
) -> Result<(Option<MendedItem>, Option<Place>), AllocError>
    requires stated { IfSome id (StatesId (moment_cell now) bytes.now) }
    requires refused { stands.now ≢ None }
    requires fails { Fails profile (alone (slice_range bytes.now spot.now.start spot.now.end))
        error.now }
    ensures { IfOk result (λ tried. IfSome tried.0
        (IsMended profile (moment_cell now) rules bytes.now stands.now)) }
{
    let (repaired, stuck) = try_repairs(alloc, bytes, spot, framed, rules, id, now, ids)?;
    let Some(repaired) = repaired else {
        return Ok((None, stuck));
    };
    if !are_true(alloc, bytes, framed, &repaired, rules, id, now)? {
        return Ok((None, stuck));
    }
    let fault = item_fault(alloc, spot, same(error), Cause::Whole)?;
    let item = MendedItem {
        item: spot.item,
        fault: Some(fault),
        frame: repaired.frame,
        id: repaired.id,
        payload: repaired.payload,
        payload_start: framed.payload_start,
        payload_end: framed.payload_end,
    };
    Ok((Some(item), None))
}

// Gives an item that reads the header's id, if it is an event or a transaction without one.
fn identify_item<R: Rng>(
    alloc: Global,
    bytes: &[u8],
    spot: &Spot,
    rules: MendRules,
    id: Option<Uuid>,
    stands: &Option<EnvelopeError>,
    now: Moment,
    ids: &mut R,
) -> Result<Option<MendedItem>, AllocError>
    requires { IfSome id (StatesId (moment_cell now) bytes.now) }
    ensures { IfOk result (λ o. IfSome o
        (IsMended profile (moment_cell now) rules bytes.now stands.now)) }
{
    let Some(framed) = spot.framed else {
        return Ok(None);
    };
    let Some(repaired) = try_id(alloc, bytes, spot, framed, id, now, ids)? else {
        return Ok(None);
    };
    if !are_true(alloc, bytes, framed, &repaired, rules, id, now)? {
        return Ok(None);
    }
    if !repaired.payload.is_empty() {
        return Ok(None);
    }
    Ok(Some(MendedItem {
        item: spot.item,
        fault: None,
        frame: repaired.frame,
        id: repaired.id,
        payload: repaired.payload,
        payload_start: framed.payload_start,
        payload_end: framed.payload_end,
    }))
}

// Repairs an item that is refused for this check, or leaves it out; always if its framing is at
// fault.
fn mend_refused_item<R: Rng>(
    alloc: Global,
    bytes: &[u8],
    spot: &Spot,
    error: &EnvelopeError,
    rules: MendRules,
    id: Option<Uuid>,
    stands: &Option<EnvelopeError>,
    now: Moment,
    ids: &mut R,
) -> Result<MendedItem, AllocError>
    requires stated { IfSome id (StatesId (moment_cell now) bytes.now) }
    requires refused { stands.now ≢ None }
    requires fails { Fails profile (alone (slice_range bytes.now spot.now.start spot.now.end))
        error.now }
    ensures { IfOk result (IsMended profile (moment_cell now) rules bytes.now stands.now) }
{
    let mut stuck = None;
    if let Some(framed) = spot.framed {
        let (made, place) = repair_item(
            alloc, bytes, spot, framed, error, rules, id, stands, now, ids,
        )?;
        if let Some(item) = made {
            return Ok(item);
        }
        stuck = place;
    }
    let left = leave_item(alloc, bytes, spot, error, stuck, rules, stands, now, ids)?;
    Ok(left)
}

// Repairs an item that is refused, or leaves it out, and gives one that reads the header's id;
// `None` if it stays as it is. `stands` is the first check of all bytes that fails.
fn mend_item<R: Rng>(
    alloc: Global,
    bytes: &[u8],
    spot: &Spot,
    rules: MendRules,
    id: Option<Uuid>,
    stands: &Option<EnvelopeError>,
    now: Moment,
    ids: &mut R,
) -> Result<Option<MendedItem>, AllocError>
    requires { IfSome id (StatesId (moment_cell now) bytes.now) }
    ensures { IfOk result (λ o. IfSome o
        (IsMended profile (moment_cell now) rules bytes.now stands.now)) }
{
    if stands.is_some()
        && let Some(error) = spot_error(alloc, bytes, spot, now, ids)?
    {
        let item = mend_refused_item(alloc, bytes, spot, &error, rules, id, stands, now, ids)?;
        return Ok(Some(item));
    }
    let made = identify_item(alloc, bytes, spot, rules, id, stands, now, ids)?;
    Ok(made)
}

// Appends the item, if it is changed.
fn push_mended<R: Rng>(
    alloc: Global,
    bytes: &[u8],
    spot: &Spot,
    rules: MendRules,
    id: Option<Uuid>,
    stands: &Option<EnvelopeError>,
    now: Moment,
    ids: &mut R,
    items: &mut Vec<MendedItem>,
) -> Result<(), AllocError>
    requires stated { IfSome id (StatesId (moment_cell now) bytes.now) }
    requires mended { All (IsMended profile (moment_cell now) rules bytes.now stands.now)
        items.old.items }
    ensures { OnOk result (All (IsMended profile (moment_cell now) rules bytes.now stands.now)
        items.new.items) }
{
    let Some(mended) = mend_item(alloc, bytes, spot, rules, id, stands, now, ids)? else {
        return Ok(());
    };
    items.push(mended)?;
    Ok(())
}

// Returns the id that items without one get.
fn given_id<R: Rng>(
    alloc: Global,
    bytes: &[u8],
    rules: MendRules,
    now: Moment,
    ids: &mut R,
) -> Result<Option<Uuid>, AllocError>
    ensures { IfOk result (λ o. IfSome o (StatesId (moment_cell now) bytes.now)) }
{
    if !rules.header_event_id {
        return Ok(None);
    }
    let id = header_id(alloc, bytes, now, ids)?;
    Ok(id)
}

// Changes all items that are refused, or that get the header's id.
fn mend_items<R: Rng>(
    alloc: Global,
    bytes: &[u8],
    rules: MendRules,
    stands: &Option<EnvelopeError>,
    now: Moment,
    ids: &mut R,
) -> Result<Vec<MendedItem>, AllocError>
    ensures { IfOk result (λ items. All
        (IsMended profile (moment_cell now) rules bytes.now stands.now) items.items) }
{
    let id = given_id(alloc, bytes, rules, now, ids)?;
    let mut items = Vec::new(alloc);
    if stands.is_none() && id.is_none() {
        return Ok(items);
    }
    let mut frames = match AnyFrames::new(alloc, bytes) {
        Ok(frames) => frames,
        Err(EnvelopeError::OutOfMemory) => return Err(AllocError),
        Err(_) => return Ok(items),
    };
    for item in 0..bytes.len() {
        let Some(spot) = next_spot(alloc, bytes, &mut frames, item)? else {
            break;
        };
        push_mended(alloc, bytes, &spot, rules, id, stands, now, ids, &mut items)?;
    }
    Ok(items)
}

// Returns the bytes with what the notes of these items put there; `None` if they aren't in order.
fn splice_items(
    alloc: Global,
    bytes: &[u8],
    items: &[MendedItem],
) -> Result<Option<Vec<u8>>, AllocError>
    ensures in_order { IfOk result (λ o. IfSome o (λ _.
        AreInOrder 0 (all_notes items.now) bytes.now)) }
    ensures text { IfOk result (λ o. IfSome o (λ text.
        text.items ≡ spliced 0 (all_notes items.now) bytes.now)) }
{
    let mut text = Vec::with_capacity(alloc, bytes.len())?;
    let mut at = 0;
    let mut left = items;
    while let Some((item, rest)) = left.split_first() {
        let Some(start) = push_spliced(&mut text, bytes, at, &item.frame)? else {
            return Ok(None);
        };
        let Some(middle) = push_spliced(&mut text, bytes, start, &item.id)? else {
            return Ok(None);
        };
        let Some(end) = push_spliced(&mut text, bytes, middle, &item.payload)? else {
            return Ok(None);
        };
        at = end;
        left = rest;
    }
    text.extend_from_slice(&bytes[at..])?;
    Ok(Some(text))
}

// Reads the bytes with what the notes of these items put there; `None` if they don't read.
fn reread<R: Rng>(
    alloc: Global,
    bytes: &[u8],
    items: &[MendedItem],
    now: Moment,
    ids: &mut R,
) -> Result<Option<Envelope>, AllocError>
    ensures in_order { IfOk result (λ o. IfSome o (λ _.
        AreInOrder 0 (all_notes items.now) bytes.now)) }
    ensures spelled { IfOk result (λ o. IfSome o (λ e. IsSomeAnd (structured e)
        (Spells profile (spliced 0 (all_notes items.now) bytes.now) (moment_cell now)))) }
{
    let Some(text) = splice_items(alloc, bytes, items)? else {
        return Ok(None);
    };
    match Envelope::from_slice(alloc, &text, now, ids) {
        Ok(envelope) => Ok(Some(envelope)),
        Err(error) => {
            not_memory(&error)?;
            Ok(None)
        }
    }
}

// Mends an envelope of which this is the first check that fails.
fn mend_refused<R: Rng>(
    alloc: Global,
    bytes: &[u8],
    error: EnvelopeError,
    now: Moment,
    ids: &mut R,
    rules: MendRules,
) -> Result<Mended, Refusal>
    requires { Fails profile bytes.now error }
    ensures in_order { IfOk result (λ m. AreInOrder 0 (all_notes m.items.items) bytes.now) }
    ensures spelled { IfOk result (λ m. IsSomeAnd (structured m.envelope) (Spells profile
        (spliced 0 (all_notes m.items.items) bytes.now) (moment_cell now))) }
    ensures mended { IfOk result (λ m.
        All (IsMended profile (moment_cell now) rules bytes.now m.error) m.items.items) }
    ensures error { IfOk result (λ m. m.error ≡ Some error) }
    ensures refused { IfErr result (λ x. x.error ≢ EnvelopeError.OutOfMemory →
        Fails profile bytes.now x.error) }
{
    if matches!(error, EnvelopeError::InvalidHeader) {
        return Err(Refusal { error });
    }
    let stands = Some(error);
    let items = mend_items(alloc, bytes, rules, &stands, now, ids)?;
    let Some(error) = stands else {
        unreachable!();
    };
    match reread(alloc, bytes, &items, now, ids)? {
        Some(envelope) => Ok(Mended {
            envelope,
            error: Some(error),
            items,
        }),
        None => Err(Refusal { error }),
    }
}

// Gives the items of an envelope that reads the header's id, where they have none.
fn mend_standing<R: Rng>(
    alloc: Global,
    bytes: &[u8],
    envelope: Envelope,
    now: Moment,
    ids: &mut R,
    rules: MendRules,
) -> Result<Mended, AllocError>
    requires { IsSomeAnd (structured envelope) (Spells profile bytes.now (moment_cell now)) }
    ensures in_order { IfOk result (λ m. AreInOrder 0 (all_notes m.items.items) bytes.now) }
    ensures spelled { IfOk result (λ m. IsSomeAnd (structured m.envelope) (Spells profile
        (spliced 0 (all_notes m.items.items) bytes.now) (moment_cell now))) }
    ensures mended { IfOk result (λ m.
        All (IsMended profile (moment_cell now) rules bytes.now m.error) m.items.items) }
    ensures error { IfOk result (λ m. m.error ≡ None) }
{
    let items = mend_items(alloc, bytes, rules, &None, now, ids)?;
    if !items.is_empty()
        && let Some(envelope) = reread(alloc, bytes, &items, now, ids)?
    {
        return Ok(Mended {
            envelope,
            error: None,
            items,
        });
    }
    Ok(Mended {
        envelope,
        error: None,
        items: Vec::new(alloc),
    })
}

/// Parses an envelope, item by item: where an item is refused, the least is changed that lets it
/// read, and an item that can't be repaired is left out.
///
/// An envelope that reads as it stands is that of `Envelope::from_slice`, with no notes; with
/// `header_event_id` its events and transactions without an event id get the header's.
///
/// # Errors
///
/// - The error of `Envelope::from_slice` if the header line is refused.
/// - `OutOfMemory` if an allocation fails.
pub fn mend<R: Rng>(
    alloc: Global,
    bytes: &[u8],
    now: Moment,
    ids: &mut R,
    rules: MendRules,
) -> Result<Mended, Refusal>
    ensures in_order { IfOk result (λ m. AreInOrder 0 (all_notes m.items.items) bytes.now) }
    ensures spelled { IfOk result (λ m. IsSomeAnd (structured m.envelope) (Spells profile
        (spliced 0 (all_notes m.items.items) bytes.now) (moment_cell now))) }
    ensures mended { IfOk result (λ m.
        All (IsMended profile (moment_cell now) rules bytes.now m.error) m.items.items) }
    ensures as_it_stands { IfOk result (λ m. m.error ≡ None → rules.header_event_id ≡ false →
        m.items.items ≡ []) }
    ensures fails { IfOk result (λ m. IfSome m.error (Fails profile bytes.now)) }
    ensures refused { IfErr result (λ x. x.error ≢ EnvelopeError.OutOfMemory →
        Fails profile bytes.now x.error) }
{
    match Envelope::from_slice(alloc, bytes, now, ids) {
        Ok(envelope) => {
            if rules.header_event_id {
                let mended = mend_standing(alloc, bytes, envelope, now, ids, rules)?;
                return Ok(mended);
            }
            Ok(Mended {
                envelope,
                error: None,
                items: Vec::new(alloc),
            })
        }
        Err(error) => {
            not_memory(&error)?;
            mend_refused(alloc, bytes, error, now, ids, rules)
        }
    }
}
