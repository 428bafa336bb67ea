//! Faults as texts.

use crate::screen::{COLUMNS, Page, Tone, fits};
use sentry_mending::{Cause, Explanation, Fault, Place};
use std::alloc::{AllocError, Global};
use std::str;

// Most faults that a page shows.
const FAULTS: usize = 20;

// The byte that a fault names: where the value stands, where JSON breaks, or where the item begins.
fn byte_of(fault: &Fault) -> usize {
    match &fault.cause {
        Cause::Whole => fault.start,
        Cause::Syntax(found) => found.at,
        Cause::Place(place) => place.start,
    }
}

// The keys and indices that lead to the value that a fault names; empty if they aren't known.
fn path_of(fault: &Fault) -> &str {
    match &fault.cause {
        Cause::Place(place) => str::from_utf8(&place.path).unwrap_or(""),
        _ => "",
    }
}

// Returns which item a fault is of, and at which byte: `item 2, event, at byte 568`.
fn item_text(alloc: Global, fault: &Fault) -> Result<String, AllocError> {
    let at = byte_of(fault);
    let Some(item) = fault.item else {
        return format!(in alloc; "header line, at byte {at}");
    };
    let number = item.saturating_add(1);
    let word = str::from_utf8(&fault.word).unwrap_or("");
    if word.is_empty() {
        return format!(in alloc; "item {number}, at byte {at}");
    }
    format!(in alloc; "item {number}, {word}, at byte {at}")
}

/// Returns where a fault stands: `item 2, event, at byte 568: exception.values[0].type`.
/// `AllocError` if an allocation fails.
pub fn where_text(alloc: Global, fault: &Fault) -> Result<String, AllocError> {
    let item = item_text(alloc, fault)?;
    let path = path_of(fault);
    if path.is_empty() {
        return Ok(item);
    }
    format!(in alloc; "{item}: {path}")
}

fn misfit_text(alloc: Global, place: &Place) -> Result<String, AllocError> {
    let value = str::from_utf8(&place.value).unwrap_or("");
    let wanted = place.wanted.as_str();
    let found = place.found.as_str();
    let space = if value.is_empty() { "" } else { " " };
    format!(in alloc; "wanted {wanted}, found {found}{space}{value}")
}

/// Returns what doesn't fit: `wanted a string, found object`. `AllocError` if an allocation fails.
pub fn why_text(alloc: Global, fault: &Fault) -> Result<String, AllocError> {
    match &fault.cause {
        Cause::Whole => {
            let error = &fault.error;
            format!(in alloc; "{error}")
        }
        Cause::Syntax(found) => {
            let expected = found.expected.as_str();
            format!(in alloc; "no JSON: expected {expected}")
        }
        Cause::Place(place) => misfit_text(alloc, place),
    }
}

// Appends a fault: where and why, in two lines if one is too short for both.
fn push_fault(alloc: Global, page: &mut Page, fault: &Fault) -> Result<(), AllocError> {
    let place = where_text(alloc, fault)?;
    let why = why_text(alloc, fault)?;
    let line = format!(in alloc; "refused: {place}: {why}")?;
    if fits(&line, COLUMNS) {
        return page.line(Tone::Bad, &line);
    }
    page.line(Tone::Bad, &format!(in alloc; "refused: {place}")?)?;
    page.line(Tone::Plain, &format!(in alloc; "  {why}")?)
}

/// Appends why an envelope is refused: its faults, or the first check that fails.
///
/// # Errors
///
/// `AllocError` if an allocation fails.
pub fn push_faults(
    alloc: Global,
    page: &mut Page,
    explanation: &Explanation,
) -> Result<(), AllocError> {
    if explanation.faults.is_empty() {
        let error = &explanation.error;
        return page.line(Tone::Bad, &format!(in alloc; "refused: {error}")?);
    }
    for (index, fault) in explanation.faults.iter().enumerate() {
        if index == FAULTS {
            let more = explanation.faults.len().saturating_sub(FAULTS);
            return page.line(Tone::Bad, &format!(in alloc; "and {more} more")?);
        }
        push_fault(alloc, page, fault)?;
    }
    Ok(())
}
