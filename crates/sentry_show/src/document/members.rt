//! The members of the document behind the items.

use super::details::{write_events, write_transactions};
use crate::fields::{Field, header_fields};
use crate::losses::{losses_of_rows, sum_of};
use crate::survey::{Row, Survey};
use sentry_json::Writer;
use sentry_mending::{Explanation, Fault};
use sentry_reports::Category;
use sentry_tables::{Codec, Own};
use sentry_words::IndexedEnum;
use serde_json::Value;
use std::alloc::{AllocError, Global};

// Writes members that are texts.
pub(super) fn write_fields(out: &mut Writer, fields: &[Field]) -> Result<(), AllocError> {
    for field in fields {
        out.key(field.name)?;
        out.string(&field.value)?;
    }
    Ok(())
}

// Writes a text, or null.
pub(super) fn write_optional(
    out: &mut Writer,
    name: &str,
    text: Option<&str>,
) -> Result<(), AllocError> {
    out.key(name)?;
    match text {
        Some(text) => out.string(text),
        None => out.null(),
    }
}

fn write_fault(alloc: Global, out: &mut Writer, fault: &Fault) -> Result<(), AllocError> {
    let tree = fault.to_tree(alloc)?;
    <Own as Codec<Value>>::write(&tree, out)
}

// Writes why the envelope is refused: the first check that fails, and the faults.
fn write_refusal(
    alloc: Global,
    out: &mut Writer,
    explanation: &Explanation,
) -> Result<(), AllocError> {
    out.key("error")?;
    let error = &explanation.error;
    out.string(&format!(in alloc; "{error}")?)?;
    out.key("faults")?;
    out.begin_array()?;
    for fault in &explanation.faults {
        write_fault(alloc, out, fault)?;
    }
    out.end_array()
}

fn write_verdict(
    alloc: Global,
    out: &mut Writer,
    explanation: &Option<Explanation>,
) -> Result<(), AllocError> {
    match explanation {
        Some(explanation) => write_refusal(alloc, out, explanation),
        None => {
            out.key("error")?;
            out.null()?;
            out.key("faults")?;
            out.begin_array()?;
            out.end_array()
        }
    }
}

// Writes where what isn't read begins, or null.
fn write_unread(out: &mut Writer, survey: &Survey<'_>) -> Result<(), AllocError> {
    out.key("unread")?;
    let end = survey.end();
    if end < survey.bytes.len() {
        out.u64(end as u64)
    } else {
        out.null()
    }
}

fn write_header(alloc: Global, out: &mut Writer, survey: &Survey<'_>) -> Result<(), AllocError> {
    out.key("header_length")?;
    out.u64(survey.body as u64)?;
    out.key("header")?;
    out.begin_object()?;
    write_fields(out, &header_fields(alloc, survey.header_line)?)?;
    out.end_object()
}

fn write_losses(alloc: Global, out: &mut Writer, rows: &[Row<'_>]) -> Result<(), AllocError> {
    let sums = losses_of_rows(alloc, rows)?;
    out.key("losses")?;
    out.begin_object()?;
    for category in Category::VARIANTS {
        let sum = sum_of(&sums, *category);
        if sum > 0 {
            out.key(category.as_str())?;
            out.u64(sum)?;
        }
    }
    out.end_object()
}

fn write_members(alloc: Global, out: &mut Writer, survey: &Survey<'_>) -> Result<(), AllocError> {
    write_unread(out, survey)?;
    write_verdict(alloc, out, &survey.explanation)?;
    write_header(alloc, out, survey)?;
    write_losses(alloc, out, &survey.rows)?;
    write_events(alloc, out, &survey.rows)?;
    write_transactions(alloc, out, &survey.rows)
}

/// Returns the members and the brace behind them. `AllocError` if an allocation fails.
pub fn members_text(alloc: Global, survey: &Survey<'_>) -> Result<Vec<u8>, AllocError> {
    let mut out = Writer::new(Vec::new(alloc));
    write_members(alloc, &mut out, survey)?;
    out.end_object()?;
    Ok(out.into_inner())
}
