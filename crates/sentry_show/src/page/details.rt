//! What events and transactions tell.

use super::waterfall::push_waterfall;
use super::{push_fields, push_heading};
use crate::fields::{event_fields, transaction_fields};
use crate::screen::{Page, Tone};
use crate::survey::{Row, read_frame};
use sentry_event::{Event, Transaction};
use sentry_framing::ItemKind;
use sentry_items::EnvelopeItem;
use sentry_parts::{Exception, Frame, Stacktrace};
use std::alloc::{AllocError, Global};

// Most frames of a stack trace that are shown.
const FRAMES: usize = 8;

// Appends a stack frame: its function and place.
fn push_frame(alloc: Global, page: &mut Page, frame: &Frame) -> Result<(), AllocError> {
    let mut line = String::from_str(alloc, "    ")?;
    line.push_str(frame.function.as_deref().unwrap_or("?"))?;
    if let Some(file) = &frame.filename {
        line.push_str("  ")?;
        line.push_str(file)?;
    }
    if let Some(number) = frame.lineno {
        write!(line, ":{number}")?;
    }
    page.line(Tone::Plain, &line)
}

// Appends the last frames of a stack trace, the innermost first.
fn push_stack(alloc: Global, page: &mut Page, stack: &Stacktrace) -> Result<(), AllocError> {
    let mut shown = 0usize;
    for frame in stack.frames.iter().rev() {
        if shown == FRAMES {
            let more = stack.frames.len().saturating_sub(FRAMES);
            return page.line(Tone::Plain, &format!(in alloc; "    and {more} more")?);
        }
        push_frame(alloc, page, frame)?;
        shown = shown.saturating_add(1);
    }
    Ok(())
}

fn push_exception(alloc: Global, page: &mut Page, exception: &Exception) -> Result<(), AllocError> {
    let name = &exception.ty;
    let value = exception.value.as_deref().unwrap_or("");
    let colon = if value.is_empty() { "" } else { ": " };
    page.line(Tone::Bad, &format!(in alloc; "  {name}{colon}{value}")?)?;
    match &exception.stacktrace {
        Some(stack) => push_stack(alloc, page, stack),
        None => Ok(()),
    }
}

fn push_event(
    alloc: Global,
    page: &mut Page,
    number: usize,
    event: &Event<'_>,
) -> Result<(), AllocError> {
    push_heading(page, &format!(in alloc; "item {number}, event")?)?;
    push_fields(alloc, page, &event_fields(alloc, event)?)?;
    for exception in &event.exception.values {
        push_exception(alloc, page, exception)?;
    }
    Ok(())
}

fn push_transaction(
    alloc: Global,
    page: &mut Page,
    number: usize,
    transaction: &Transaction<'_>,
) -> Result<(), AllocError> {
    push_heading(page, &format!(in alloc; "item {number}, transaction")?)?;
    push_fields(alloc, page, &transaction_fields(alloc, transaction)?)?;
    push_waterfall(alloc, page, transaction)
}

fn push_item(
    alloc: Global,
    page: &mut Page,
    number: usize,
    item: &EnvelopeItem,
) -> Result<(), AllocError> {
    match item {
        EnvelopeItem::Event(event) => push_event(alloc, page, number, event.as_ref()),
        EnvelopeItem::Transaction(transaction) => {
            push_transaction(alloc, page, number, transaction.as_ref())
        }
        _ => Ok(()),
    }
}

// Appends what the item of a row tells, if it is an event or a transaction.
fn push_row(
    alloc: Global,
    page: &mut Page,
    number: usize,
    row: &Row<'_>,
) -> Result<(), AllocError> {
    if !tells(row) {
        return Ok(());
    }
    match read_frame(alloc, &row.frame)? {
        Some(item) => push_item(alloc, page, number, &item),
        None => Ok(()),
    }
}

// Whether a row is of an accepted event or transaction.
fn tells(row: &Row<'_>) -> bool {
    match row.frame.kind() {
        Some(ItemKind::Event) => row.accepted,
        Some(ItemKind::Transaction) => row.accepted,
        _ => false,
    }
}

/// Appends what events and transactions tell.
pub fn push_details(alloc: Global, page: &mut Page, rows: &[Row<'_>]) -> Result<(), AllocError> {
    for (index, row) in rows.iter().enumerate() {
        push_row(alloc, page, index.saturating_add(1), row)?;
    }
    Ok(())
}
