//! The table of items.

use super::push_heading;
use crate::numbers::grouped;
use crate::screen::{Page, Tone, push_cell};
use crate::survey::{Row, Survey};
use std::alloc::{AllocError, Global};

// Columns of an item type.
const TYPE: usize = 18;

fn verdict_word(row: &Row<'_>) -> &'static str {
    if row.accepted {
        return "accepted";
    }
    match row.frame.kind() {
        Some(_) => "refused",
        None => "unknown type",
    }
}

// Appends the row of an item.
fn push_row(
    alloc: Global,
    page: &mut Page,
    number: usize,
    row: &Row<'_>,
) -> Result<(), AllocError> {
    let header = grouped(alloc, row.frame.header_start as u64)?;
    let payload = grouped(alloc, row.frame.payload_start as u64)?;
    let bytes = grouped(alloc, row.frame.payload.len() as u64)?;
    let verdict = verdict_word(row);
    let mut line = format!(in alloc; "{number:>4}  ")?;
    push_cell(&mut line, row.frame.word.as_str(), TYPE)?;
    write!(line, "{header:>12}{payload:>12}{bytes:>12}  {verdict}")?;
    let tone = if row.accepted { Tone::Plain } else { Tone::Bad };
    page.line(tone, &line)
}

// Appends the row of the bytes behind the last item, if there are any.
fn push_unread(alloc: Global, page: &mut Page, survey: &Survey<'_>) -> Result<(), AllocError> {
    let end = survey.end();
    let left = survey.bytes.len().saturating_sub(end);
    if left == 0 {
        return Ok(());
    }
    let start = grouped(alloc, end as u64)?;
    let bytes = grouped(alloc, left as u64)?;
    let mut line = String::from_str(alloc, "   ?  ")?;
    push_cell(&mut line, "", TYPE)?;
    write!(line, "{start:>12}{bytes:>24}  not read")?;
    page.line(Tone::Bad, &line)
}

/// Appends the table of items.
pub fn push_items(alloc: Global, page: &mut Page, survey: &Survey<'_>) -> Result<(), AllocError> {
    if survey.body == survey.bytes.len() {
        return Ok(());
    }
    push_heading(
        page,
        "item  type                 header at  payload at       bytes  verdict",
    )?;
    for (index, row) in survey.rows.iter().enumerate() {
        push_row(alloc, page, index.saturating_add(1), row)?;
    }
    push_unread(alloc, page, survey)
}
