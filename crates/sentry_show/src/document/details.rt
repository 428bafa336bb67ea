//! What events and transactions tell, as members of the document.

use super::members::{write_fields, write_optional};
use crate::fields::{event_fields, transaction_fields};
use crate::spans::{by_start, span_time, transaction_time};
use crate::survey::{Row, read_frame};
use sentry_event::{Event, Span, Transaction};
use sentry_framing::ItemKind;
use sentry_items::EnvelopeItem;
use sentry_json::Writer;
use sentry_moments::Moment;
use sentry_parts::{Exception, Frame};
use std::alloc::{AllocError, Global};

fn write_frame(out: &mut Writer, frame: &Frame) -> Result<(), AllocError> {
    out.begin_object()?;
    if let Some(function) = &frame.function {
        out.key("function")?;
        out.string(function)?;
    }
    if let Some(file) = &frame.filename {
        out.key("filename")?;
        out.string(file)?;
    }
    if let Some(number) = frame.lineno {
        out.key("lineno")?;
        out.u64(number)?;
    }
    out.end_object()
}

fn write_frames(out: &mut Writer, frames: &[Frame]) -> Result<(), AllocError> {
    out.key("frames")?;
    out.begin_array()?;
    for frame in frames {
        write_frame(out, frame)?;
    }
    out.end_array()
}

fn write_exception(out: &mut Writer, exception: &Exception) -> Result<(), AllocError> {
    out.begin_object()?;
    out.key("type")?;
    out.string(&exception.ty)?;
    if let Some(value) = &exception.value {
        out.key("value")?;
        out.string(value)?;
    }
    if let Some(stack) = &exception.stacktrace {
        write_frames(out, &stack.frames)?;
    }
    out.end_object()
}

fn write_event(
    alloc: Global,
    out: &mut Writer,
    index: usize,
    event: &Event<'_>,
) -> Result<(), AllocError> {
    out.begin_object()?;
    out.key("item")?;
    out.u64(index as u64)?;
    write_fields(out, &event_fields(alloc, event)?)?;
    out.key("exceptions")?;
    out.begin_array()?;
    for exception in &event.exception.values {
        write_exception(out, exception)?;
    }
    out.end_array()?;
    out.end_object()
}

fn write_span(
    alloc: Global,
    out: &mut Writer,
    start: Moment,
    span: &Span,
) -> Result<(), AllocError> {
    let id = span.span_id;
    let time = span_time(start, span);
    out.begin_object()?;
    out.key("span_id")?;
    out.string(&format!(in alloc; "{id}")?)?;
    out.key("parent_span_id")?;
    match span.parent_span_id {
        Some(parent) => out.string(&format!(in alloc; "{parent}")?)?,
        None => out.null()?,
    }
    write_optional(out, "op", span.op.as_deref())?;
    write_optional(out, "description", span.description.as_deref())?;
    out.key("offset")?;
    out.u64(time.offset)?;
    out.key("nanos")?;
    out.u64(time.nanos)?;
    out.end_object()
}

fn write_transaction(
    alloc: Global,
    out: &mut Writer,
    index: usize,
    transaction: &Transaction<'_>,
) -> Result<(), AllocError> {
    out.begin_object()?;
    out.key("item")?;
    out.u64(index as u64)?;
    write_fields(out, &transaction_fields(alloc, transaction)?)?;
    out.key("nanos")?;
    out.u64(transaction_time(transaction).nanos)?;
    out.key("spans")?;
    out.begin_array()?;
    for span in by_start(alloc, &transaction.spans)? {
        write_span(alloc, out, transaction.start_timestamp, span)?;
    }
    out.end_array()?;
    out.end_object()
}

// Writes the item of a row, if it is an accepted event.
fn write_row_event(
    alloc: Global,
    out: &mut Writer,
    index: usize,
    row: &Row<'_>,
) -> Result<(), AllocError> {
    if !matches!(row.frame.kind(), Some(ItemKind::Event)) {
        return Ok(());
    }
    match read_frame(alloc, &row.frame)? {
        Some(EnvelopeItem::Event(event)) => write_event(alloc, out, index, event.as_ref()),
        _ => Ok(()),
    }
}

// Writes the item of a row, if it is an accepted transaction.
fn write_row_transaction(
    alloc: Global,
    out: &mut Writer,
    index: usize,
    row: &Row<'_>,
) -> Result<(), AllocError> {
    if !matches!(row.frame.kind(), Some(ItemKind::Transaction)) {
        return Ok(());
    }
    match read_frame(alloc, &row.frame)? {
        Some(EnvelopeItem::Transaction(transaction)) => {
            write_transaction(alloc, out, index, transaction.as_ref())
        }
        _ => Ok(()),
    }
}

// Writes the member `events`.
pub(super) fn write_events(
    alloc: Global,
    out: &mut Writer,
    rows: &[Row<'_>],
) -> Result<(), AllocError> {
    out.key("events")?;
    out.begin_array()?;
    for (index, row) in rows.iter().enumerate() {
        write_row_event(alloc, out, index, row)?;
    }
    out.end_array()
}

// Writes the member `transactions`.
pub(super) fn write_transactions(
    alloc: Global,
    out: &mut Writer,
    rows: &[Row<'_>],
) -> Result<(), AllocError> {
    out.key("transactions")?;
    out.begin_array()?;
    for (index, row) in rows.iter().enumerate() {
        write_row_transaction(alloc, out, index, row)?;
    }
    out.end_array()
}
