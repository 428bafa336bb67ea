//! Faults of envelopes, and envelopes that are mended.

use crate::bytes::said_bytes;
use crate::envelopes::said_envelope;
use crate::said::{as_tree, list, refused, shown, text};
use rand_pcg::Pcg32;
use sentry_types::protocol::v7::{
    Explanation, Fault, MendRules, Mended, MendedItem, Moment, Note, Repairs, Value, explain, mend,
};
use std::alloc::{AllocError, Global};

// A fault as a line, and as an object.
fn said_fault(alloc: Global, fault: &Fault) -> Result<Value, AllocError> {
    list(alloc, [shown(alloc, fault), fault.to_tree(alloc)])
}

fn said_explanation(alloc: Global, told: &Explanation) -> Result<Value, AllocError> {
    let mut faults = Vec::new(alloc);
    for fault in &told.faults {
        faults.push(said_fault(alloc, fault)?)?;
    }
    list(alloc, [refused(alloc, &told.error), as_tree(faults)])
}

/// Why bytes are no envelope at second 0: the first check that fails, and each fault; null if they
/// are one.
pub fn of_explain(alloc: Global, bytes: &[u8]) -> Result<Value, AllocError> {
    let now = Moment::new(0, 0).unwrap();
    match explain(alloc, bytes, now, &mut Pcg32::new(42, 54))? {
        Some(told) => said_explanation(alloc, &told),
        None => Ok(Value::Null),
    }
}

// The bytes of a change, what stands there instead, its path, and what was done.
fn said_note(alloc: Global, note: &Note) -> Result<Value, AllocError> {
    let fields = [
        as_tree(note.start as u64),
        as_tree(note.end as u64),
        said_bytes(alloc, &note.instead),
        said_bytes(alloc, &note.place.path),
        text(alloc, note.repair.as_str()),
    ];
    list(alloc, fields)
}

fn said_notes(alloc: Global, notes: &[Note]) -> Result<Value, AllocError> {
    let mut told = Vec::new(alloc);
    for note in notes {
        told.push(said_note(alloc, note)?)?;
    }
    Ok(Value::from(told))
}

// Why an item is refused, or null; whether it is left out; the notes on its header, that of the
// header's event id, and those on its payload.
fn said_mended_item(alloc: Global, item: &MendedItem) -> Result<Value, AllocError> {
    let fault = match &item.fault {
        Some(fault) => shown(alloc, fault),
        None => Ok(Value::Null),
    };
    let fields = [
        fault,
        as_tree(item.is_left()),
        said_notes(alloc, &item.frame),
        said_notes(alloc, &item.id),
        said_notes(alloc, &item.payload),
    ];
    list(alloc, fields)
}

fn said_mended(alloc: Global, mended: &Mended) -> Result<Value, AllocError> {
    let mut items = Vec::new(alloc);
    for item in &mended.items {
        items.push(said_mended_item(alloc, item)?)?;
    }
    let error = match &mended.error {
        Some(error) => shown(alloc, error),
        None => Ok(Value::Null),
    };
    let fields = [
        said_envelope(alloc, &mended.envelope),
        error,
        as_tree(items),
    ];
    list(alloc, fields)
}

// The rules that words name: the repairs, `-n` and a number of notes, and `-i` for the header's
// event id.
fn rules_of(words: &str) -> MendRules {
    let mut rules = MendRules::new();
    let mut left = words;
    if let Some(rest) = left.strip_prefix("-n ") {
        let (number, rest) = rest.split_once(' ').unwrap_or((rest, ""));
        if let Ok(most) = number.parse::<usize>() {
            rules.max_notes = most;
        }
        left = rest;
    }
    if let Some(rest) = left.strip_prefix("-i ") {
        rules.header_event_id = true;
        left = rest;
    }
    rules.repairs = match left {
        "strict" => Repairs::Strict,
        "all" => Repairs::All,
        _ => Repairs::Form,
    };
    rules
}

/// The text of an envelope that is mended by some rules at second 0, the first check that fails as
/// the bytes stand, and the items that are refused as they stand; or why it can't be mended.
pub fn of_mend(alloc: Global, words: &str, bytes: &[u8]) -> Result<Value, AllocError> {
    let now = Moment::new(0, 0).unwrap();
    let rules = rules_of(words);
    match mend(alloc, bytes, now, &mut Pcg32::new(42, 54), rules) {
        Ok(mended) => said_mended(alloc, &mended),
        Err(refusal) => refused(alloc, &refusal.error),
    }
}
