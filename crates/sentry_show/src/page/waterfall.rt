//! The spans of a transaction, as a waterfall.

use crate::numbers::time_text;
use crate::screen::{Page, Tone, push_cell};
use crate::spans::{Interval, by_start, level_of, span_time, transaction_time};
use sentry_event::{Span, Transaction};
use std::alloc::{AllocError, Global};

// Most spans that are shown.
const SPANS: usize = 60;

// Columns of a name, and of a bar.
const NAME: usize = 36;

const BAR: u64 = 28;

// The column of a bar in which a time stands; the one behind it for all that is later.
fn column_of(nanos: u64, total: u64) -> u64 {
    let width = (total / BAR).max(1);
    (nanos / width).min(BAR)
}

// Appends a row: a name, a bar from the start to the end, and the time between.
fn push_row(
    alloc: Global,
    page: &mut Page,
    name: &str,
    total: u64,
    time: Interval,
) -> Result<(), AllocError> {
    let first = column_of(time.offset, total);
    let last = column_of(time.offset.saturating_add(time.nanos), total);
    let mut row = String::from_str(alloc, "  ")?;
    push_cell(&mut row, name, NAME)?;
    row.push(' ')?;
    for column in 0..BAR {
        let inside = column == first || (first < column && column < last);
        row.push(if inside { '█' } else { ' ' })?;
    }
    let took = time_text(alloc, time.nanos)?;
    write!(row, " {took:>10}")?;
    page.line(Tone::Plain, &row)
}

// The name of a span: its operation and its description, indented by its level.
fn name_of(alloc: Global, level: usize, span: &Span) -> Result<String, AllocError> {
    let mut name = String::new(alloc);
    for _ in 0..level {
        name.push_str("  ")?;
    }
    if let Some(op) = &span.op {
        name.push_str(op)?;
        name.push_str("  ")?;
    }
    if let Some(description) = &span.description {
        name.push_str(description)?;
    } else if span.op.is_none() {
        let id = span.span_id;
        write!(name, "{id}")?;
    }
    Ok(name)
}

fn push_span(
    alloc: Global,
    page: &mut Page,
    transaction: &Transaction<'_>,
    span: &Span,
) -> Result<(), AllocError> {
    let total = transaction_time(transaction).nanos;
    let level = level_of(&transaction.spans, span);
    let name = name_of(alloc, level, span)?;
    let time = span_time(transaction.start_timestamp, span);
    push_row(alloc, page, &name, total, time)
}

/// Appends a transaction and its spans, by their start.
pub fn push_waterfall(
    alloc: Global,
    page: &mut Page,
    transaction: &Transaction<'_>,
) -> Result<(), AllocError> {
    let time = transaction_time(transaction);
    let name = transaction.name.as_deref().unwrap_or("");
    push_row(alloc, page, name, time.nanos, time)?;
    let mut shown = 0usize;
    for span in by_start(alloc, &transaction.spans)? {
        if shown == SPANS {
            let more = transaction.spans.len().saturating_sub(SPANS);
            return page.line(Tone::Plain, &format!(in alloc; "  and {more} more")?);
        }
        push_span(alloc, page, transaction, span)?;
        shown = shown.saturating_add(1);
    }
    Ok(())
}
