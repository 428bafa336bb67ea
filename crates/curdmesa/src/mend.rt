//! The command `mend`.

ghost use Rattle.std.specs.Prelude.{◌≡◌, ◌≢◌, IfErr, IfOk};
ghost use Rattle.sentry_moments.specs.Moments.{moment_cell};
ghost use Rattle.sentry_envelope.specs.EnvelopeView.{text_of};
ghost use Rattle.sentry_envelope.specs.SentryProfile.{profile};
ghost use Rattle.sentry_mending.specs.Alone.{Fails};
ghost use Rattle.curdmesa.specs.Texts.{IsMendedText};

use rand_core::Rng;
use sentry_envelope::{Envelope, EnvelopeError};
use sentry_mending::{Fault, MendRules, MendedItem, Note, Place, Refusal, Repair, Repairs, mend};
use sentry_moments::Moment;
use sentry_show::faults::{where_text, why_text};
use sentry_show::screen::push_visible;
use std::alloc::{AllocError, Global};
use std::str;

/// The text of an envelope, and what was changed so that it reads.
#[derive(Drop)]
pub struct MendedText {
    /// The text.
    pub text: Vec<u8>,
    /// A line for each change.
    pub notes: String,
}

/// Returns the rules: whether what doesn't fit is taken out, and not only the form of values changes;
/// whether events and transactions without an id get the header's.
pub fn rules(all: bool, header_id: bool) -> MendRules {
    let mut rules = MendRules::new();
    if all {
        rules.repairs = Repairs::All;
    }
    rules.header_event_id = header_id;
    rules
}

// Returns the line for an item that is left out.
fn left_line(alloc: Global, fault: &Fault) -> Result<String, AllocError> {
    let place = where_text(alloc, fault)?;
    let why = why_text(alloc, fault)?;
    format!(in alloc; "left out: {place}: {why}")
}

// Returns what is done at a place.
fn done_text(alloc: Global, note: &Note) -> Result<String, AllocError> {
    match note.repair {
        Repair::Length => {
            let length = str::from_utf8(&note.instead).unwrap_or("?");
            format!(in alloc; "to {length}")
        }
        Repair::HeaderId => String::from_str(alloc, "to the header's event id"),
        other => String::from_str(alloc, other.as_str()),
    }
}

// What stands at a place: a number or a boolean, or the JSON type of another value.
fn found_text(place: &Place) -> &str {
    match str::from_utf8(&place.value) {
        Ok(value) if !value.is_empty() => value,
        _ => place.found.as_str(),
    }
}

// Returns where the item of a change stands, up to its type; without the type if it reads as it
// stands.
fn item_text(alloc: Global, item: &MendedItem) -> Result<String, AllocError> {
    let number = item.item.saturating_add(1);
    match &item.fault {
        Some(fault) => {
            let word = str::from_utf8(&fault.word).unwrap_or("?");
            format!(in alloc; "item {number}, {word}")
        }
        None => format!(in alloc; "item {number}"),
    }
}

// Returns the line for a change.
fn change_line(alloc: Global, item: &MendedItem, note: &Note) -> Result<String, AllocError> {
    let place = item_text(alloc, item)?;
    let at = note.start;
    let mut line = format!(in alloc; "changed: {place}, at byte {at}: ")?;
    let path = str::from_utf8(&note.place.path).unwrap_or("?");
    if !path.is_empty() {
        write!(line, "{path}: ")?;
    }
    let found = found_text(&note.place);
    let done = done_text(alloc, note)?;
    write!(line, "{found} {done}")?;
    Ok(line)
}

// Appends a line for a change of an item.
fn push_note(
    alloc: Global,
    notes: &mut String,
    item: &MendedItem,
    note: &Note,
) -> Result<(), AllocError> {
    let line = match &item.fault {
        Some(fault) if note.repair == Repair::Left => left_line(alloc, fault)?,
        _ => change_line(alloc, item, note)?,
    };
    push_visible(notes, &line)?;
    notes.push('\n')?;
    Ok(())
}

// Returns the lines for all changes.
fn lines(alloc: Global, items: &[MendedItem]) -> Result<String, AllocError> {
    let mut notes = String::new(alloc);
    for item in items {
        for note in &item.frame {
            push_note(alloc, &mut notes, item, note)?;
        }
        for note in &item.id {
            push_note(alloc, &mut notes, item, note)?;
        }
        for note in &item.payload {
            push_note(alloc, &mut notes, item, note)?;
        }
    }
    Ok(notes)
}

// Returns the text of an envelope that was parsed. It is plain, so only an allocation can fail.
fn text_of(alloc: Global, envelope: &Envelope) -> Result<Vec<u8>, AllocError>
    ensures { IfOk result (λ text. text.items ≡ text_of envelope.now) }
{
    envelope.to_vec(alloc).map_err(|_| AllocError)
}

/// Parses the items that read, repaired where need be, and returns their envelope's text. The moment
/// `now` fills absent timestamps, and `ids` absent ids.
///
/// # Errors
///
/// Those of [`mend`].
#[tactic(auto, using(crate::proofs::TextLemmas::mended_text))]
pub fn mend_text<R: Rng>(
    alloc: Global,
    bytes: &[u8],
    now: Moment,
    ids: &mut R,
    rules: MendRules,
) -> Result<MendedText, Refusal>
    ensures mended { IfOk result (λ m. IsMendedText bytes.now (moment_cell now) m.text.items) }
    ensures refused { IfErr result (λ x. x.error ≢ EnvelopeError.OutOfMemory →
        Fails profile bytes.now x.error) }
{
    let mended = mend(alloc, bytes, now, ids, rules)?;
    let text = text_of(alloc, &mended.envelope)?;
    let notes = lines(alloc, &mended.items)?;
    Ok(MendedText { text, notes })
}
