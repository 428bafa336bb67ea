//! Mending envelopes of which some items don't fit.

ghost use Rattle.std.specs.Prelude.{◌≡◌, ◌≢◌, ◌⊎◌, ◌∷◌, [], ◌≤◌, IfErr, IfOk, IsNone, OnOk};
ghost use Rattle.sentry_framing.specs.declared.error.EnvelopeError.{EnvelopeError as Refusal};
ghost use Rattle.sentry_framing.specs.declared.error.EnvelopeError.TheVariants as refusals;
ghost use Rattle.sentry_tables.specs.Cell.{moment};
ghost use Rattle.sentry_moments.specs.Moments.{moment_cell};
ghost use Rattle.sentry_moments.specs.Rfc3339.{IsMomentTime};
ghost use Rattle.sentry_envelope.specs.SentryProfile.{profile};
ghost use Rattle.sentry_mending.specs.Alone.{Fails};
ghost use Rattle.sentry_c.specs.Mending.{AddsNotes, IsMendedAs, IsMendedText, IsSomeMendedText, TellsNote, error_of, mended_status, noted, notes_of, repair_number, word_of};
ghost use Rattle.sentry_c.specs.Misfits.{IsGrown};
ghost use Rattle.sentry_c.specs.Output.{IsTooLong, Puts};
ghost use Rattle.sentry_c.specs.Statuses.{refusal_status};

use crate::envelope::text_of;
use crate::misfit::{CurdmesaMisfit, push_place, push_text};
use crate::output::deliver;
use crate::status::{INVALID_ARGUMENT, NO_MOMENT, NO_ROOM, OK, status_of_envelope_error};
use crate::texts::CurdmesaPlace;
use rand_core::SeedableRng;
use rand_pcg::Pcg32;
use sentry_types::protocol::v7::{
    EnvelopeError, MendRules, MendedItem, Moment, Note, Repair, Repairs, mend,
};
use std::alloc::{AllocError, Global};
use std::str;

/// Most notes on the payload of one item; an item that needs more is left out.
const MAX_NOTES: usize = 10_000;

/// Most notes on a payload of which each is tested to be needed.
const MAX_TESTED: usize = 32;

/// A change of an envelope: some bytes, and what stands there instead. Texts are places in what is
/// written.
#[derive(Clone, Copy)]
#[repr(C)]
pub struct CurdmesaNote {
    /// Index of the item.
    pub item: u64,
    /// First byte that is replaced.
    pub start: u64,
    /// Byte behind the last that is replaced.
    pub end: u64,
    /// The value that was repaired.
    pub misfit: CurdmesaMisfit,
    /// Bytes that stand there instead.
    pub instead: CurdmesaPlace,
    /// Item type.
    pub word: CurdmesaPlace,
    /// The note in a line.
    pub message: CurdmesaPlace,
    /// Status of the first check of the item that fails.
    pub error: i32,
    /// Number of the repair.
    pub repair: u32,
}

/// Returns the number of a repair: its place among the variants.
pub fn number_of_repair(repair: Repair) -> u32
    ensures { result ≡ repair_number repair }
{
    match repair {
        Repair::AsMoment => 0,
        Repair::AsText => 1,
        Repair::AsStringType => 2,
        Repair::AsEmptyList => 3,
        Repair::TakenOut => 4,
        Repair::HeaderId => 5,
        Repair::Length => 6,
        Repair::Left => 7,
    }
}

// Returns the repairs that a number allows.
fn repairs_of(number: u32) -> Option<Repairs>
    ensures { IsNone result → 3 ≤ number }
{
    match number {
        0 => Some(Repairs::Strict),
        1 => Some(Repairs::Form),
        2 => Some(Repairs::All),
        _ => None,
    }
}

fn word_of(item: &MendedItem) -> &[u8]
    ensures { result.now ≡ word_of item.now }
{
    match &item.fault {
        Some(fault) => &fault.word,
        None => &[],
    }
}

fn error_of(item: &MendedItem) -> i32
    ensures { result ≡ error_of item.now }
{
    match &item.fault {
        Some(fault) => status_of_envelope_error(&fault.error),
        None => OK,
    }
}

// Returns a note in a line: of an item that is left out, why.
fn line_of(alloc: Global, item: &MendedItem, note: &Note) -> Result<String, AllocError> {
    if let (Repair::Left, Some(fault)) = (note.repair, &item.fault) {
        return fault.to_string(alloc);
    }
    let index = item.item;
    let word = str::from_utf8(word_of(item)).unwrap_or("?");
    let path = str::from_utf8(&note.place.path).unwrap_or("?");
    let found = note.place.found.as_str();
    let repair = note.repair.as_str();
    let (start, end) = (note.start, note.end);
    format!(in alloc; "item {index} `{word}`: `{path}` at bytes {start}..{end}: {found}: {repair}")
}

// Returns the row of a note, and appends its texts.
fn row_of(
    alloc: Global,
    item: &MendedItem,
    note: &Note,
    texts: &mut Vec<u8>,
) -> Result<CurdmesaNote, AllocError>
    ensures grown { IfOk result (λ row. IsGrown texts.old.items texts.new.items) }
    ensures tells { IfOk result (λ row. TellsNote texts.new.items row (item.now, note.now)) }
{
    let line = line_of(alloc, item, note)?;
    let message = push_text(texts, line.as_str().as_bytes())?;
    let word = push_text(texts, word_of(item))?;
    let instead = push_text(texts, &note.instead)?;
    let misfit = push_place(texts, &note.place)?;
    Ok(CurdmesaNote {
        item: item.item as u64,
        start: note.start as u64,
        end: note.end as u64,
        misfit,
        instead,
        word,
        message,
        error: error_of(item),
        repair: number_of_repair(note.repair),
    })
}

// Rows of notes, the number of all notes, and the texts in which the rows' places are.
#[derive(Drop)]
struct Notes {
    rows: Vec<CurdmesaNote>,
    count: u64,
    texts: Vec<u8>,
}

// Counts a note, and appends its row unless there are `most`.
fn push_note(
    alloc: Global,
    item: &MendedItem,
    note: &Note,
    most: usize,
    notes: &mut Notes,
) -> Result<(), AllocError>
    ensures { OnOk result (AddsNotes most notes.old notes.new ((item.now, note.now) ∷ [])) }
{
    notes.count = notes.count.saturating_add(1);
    if notes.rows.len() < most {
        let row = row_of(alloc, item, note, &mut notes.texts)?;
        notes.rows.push(row)?;
    }
    Ok(())
}

// Counts notes on an item, and appends their rows.
fn push_notes(
    alloc: Global,
    item: &MendedItem,
    list: &[Note],
    most: usize,
    notes: &mut Notes,
) -> Result<(), AllocError>
    ensures { OnOk result (AddsNotes most notes.old notes.new (notes_of item.now list.now)) }
{
    let mut left = list;
    while let Some((note, rest)) = left.split_first() {
        push_note(alloc, item, note, most, notes)?;
        left = rest;
    }
    Ok(())
}

// Counts the notes on items, and appends their rows.
fn push_items(
    alloc: Global,
    items: &[MendedItem],
    most: usize,
    notes: &mut Notes,
) -> Result<(), AllocError>
    ensures { OnOk result (AddsNotes most notes.old notes.new (noted items.now)) }
{
    let mut left = items;
    while let Some((item, rest)) = left.split_first() {
        push_notes(alloc, item, &item.frame, most, notes)?;
        push_notes(alloc, item, &item.id, most, notes)?;
        push_notes(alloc, item, &item.payload, most, notes)?;
        left = rest;
    }
    Ok(())
}

// An envelope that was mended: the length of its text, at the front of the texts, the first check
// that failed, and its notes.
#[derive(Drop)]
struct Text {
    len: u64,
    error: i32,
    notes: Notes,
}

// Returns the status of the first check that fails.
fn status_of_mended(error: &Option<EnvelopeError>) -> i32
    ensures { result ≡ mended_status error.now }
{
    match error {
        Some(error) => status_of_envelope_error(error),
        None => OK,
    }
}

// Mends an envelope, with rows of at most so many notes.
fn mend_with_rows(
    alloc: Global,
    bytes: &[u8],
    now: Moment,
    seed: u64,
    rules: MendRules,
    most: usize,
) -> Result<Text, EnvelopeError>
    ensures mended { IfOk result (IsMendedAs bytes.now (moment_cell now) rules most) }
    ensures fault { IfErr result (λ x. x ≢ EnvelopeError.OutOfMemory → Fails profile bytes.now x) }
{
    let mut ids = Pcg32::seed_from_u64(seed);
    let mended = match mend(alloc, bytes, now, &mut ids, rules) {
        Ok(mended) => mended,
        Err(refusal) => return Err(refusal.error),
    };
    let texts = text_of(alloc, &mended.envelope)?;
    let len = texts.len() as u64;
    let mut notes = Notes {
        rows: Vec::new(alloc),
        count: 0,
        texts,
    };
    push_items(alloc, &mended.items, most, &mut notes)?;
    Ok(Text {
        len,
        error: status_of_mended(&mended.error),
        notes,
    })
}

/// Parses an envelope item by item: where an item is refused, the least is changed that lets it
/// read, and an item that can't be repaired is left out. Writes the normal form of what reads to
/// `out`, behind it the texts of the notes, and to `notes` as many notes as there is room for.
///
/// # Returns
///
/// - `OK` if the texts were written: the normal form has `envelope_len` bytes; `count` is the
///   number of all notes, and `error` the status of `curdmesa_envelope_check`, `OK` if the bytes are
///   an envelope as they stand.
/// - `NO_ROOM` if the texts are longer than `out`; `needed` is their length, and `envelope_len`,
///   `count` and `error` are set.
/// - `NO_MOMENT` if the seconds and nanoseconds are no moment.
/// - `INVALID_ARGUMENT` if `repairs` is 3 or more.
/// - The status of the error of `mend` if the header line is refused; `OUT_OF_MEMORY`, which is one
///   of them, if an allocation fails.
#[unsafe(no_mangle)]
pub extern "C" fn curdmesa_envelope_mend(
    alloc: Global,
    bytes: &[u8],
    now_secs: u64,
    now_nanos: u32,
    seed: u64,
    repairs: u32,
    header_event_id: bool,
    notes: &mut [CurdmesaNote],
    count: &mut u64,
    error: &mut i32,
    envelope_len: &mut u64,
    out: &mut [u8],
    needed: &mut u64,
) -> i32
    ensures written { result ≡ OK → Puts (IsMendedText bytes.now (moment now_secs now_nanos)
        header_event_id envelope_len.new error.new count.new notes.old notes.new)
        out.old out.new needed.new }
    ensures no_room { result ≡ NO_ROOM →
        IsTooLong (IsSomeMendedText bytes.now (moment now_secs now_nanos)
        header_event_id envelope_len.new error.new count.new notes.old) out.old needed.new }
    ensures fault { (x : Refusal) → result ≡ refusal_status x → x ≢ refusals.OutOfMemory →
        Fails profile bytes.now x }
    ensures no_moment { result ≡ NO_MOMENT → ¬ IsMomentTime now_secs now_nanos }
    ensures argument { result ≡ INVALID_ARGUMENT → 3 ≤ repairs }
    ensures unchanged { result ≢ OK → out.new ≡ out.old }
    ensures notes_unchanged { result ≢ OK → notes.new ≡ notes.old }
    ensures count_unchanged { result ≢ OK → result ≢ NO_ROOM → count.new ≡ count.old }
    ensures error_unchanged { result ≢ OK → result ≢ NO_ROOM → error.new ≡ error.old }
    ensures len_unchanged { result ≢ OK → result ≢ NO_ROOM → envelope_len.new ≡ envelope_len.old }
    ensures no_text { result ≢ OK → result ≢ NO_ROOM → needed.new ≡ 0 }
    ensures answers { (result ≡ OK) ⊎ ((result ≡ NO_ROOM) ⊎ ((result ≡ NO_MOMENT) ⊎
        ((result ≡ INVALID_ARGUMENT) ⊎ ((x : Refusal) × (result ≡ refusal_status x))))) }
{
    *needed = 0;
    let Some(now) = Moment::new(now_secs, now_nanos) else {
        return NO_MOMENT;
    };
    let Some(repairs) = repairs_of(repairs) else {
        return INVALID_ARGUMENT;
    };
    let rules = MendRules {
        repairs,
        max_notes: MAX_NOTES,
        max_tested: MAX_TESTED,
        header_event_id,
    };
    let text = match mend_with_rows(alloc, bytes, now, seed, rules, notes.len()) {
        Ok(text) => text,
        Err(error) => return status_of_envelope_error(&error),
    };
    *count = text.notes.count;
    *error = text.error;
    *envelope_len = text.len;
    if !deliver(&text.notes.texts, out, needed) {
        return NO_ROOM;
    }
    notes[..text.notes.rows.len()].copy_from_slice(&text.notes.rows);
    OK
}
