//! The page that shows an envelope.

ghost use Rattle.std.specs.Prelude.{◌≡◌, ◌↔◌, IfOk, IsTrue};
ghost use Rattle.sentry_show.specs.Screen.{IsPage};
ghost use Rattle.sentry_show.specs.Verdicts.{IsAccepted};

mod details;
mod layout;
mod losses;
mod table;
mod waterfall;

use crate::faults::push_faults;
use crate::fields::{Field, header_fields};
use crate::numbers::grouped;
use crate::screen::{COLUMNS, Page, Tone};
use crate::survey::{Shown, Survey};
use std::alloc::{AllocError, Global};

fn push_verdict(alloc: Global, page: &mut Page, survey: &Survey<'_>) -> Result<(), AllocError> {
    match &survey.explanation {
        None => {
            let bytes = grouped(alloc, survey.bytes.len() as u64)?;
            let items = survey.rows.len();
            let noun = if items == 1 { "item" } else { "items" };
            let text = format!(in alloc; "accepted: {bytes} bytes, {items} {noun}")?;
            page.line(Tone::Good, &text)
        }
        Some(explanation) => push_faults(alloc, page, explanation),
    }
}

// Appends lines of names and texts.
fn push_fields(alloc: Global, page: &mut Page, fields: &[Field]) -> Result<(), AllocError> {
    for field in fields {
        let name = field.name;
        let value = &field.value;
        page.line(Tone::Plain, &format!(in alloc; "  {name:<12}  {value}")?)?;
    }
    Ok(())
}

// Appends the fields of the header line, if there are any.
fn push_header(alloc: Global, page: &mut Page, header_line: &[u8]) -> Result<(), AllocError> {
    let fields = header_fields(alloc, header_line)?;
    if fields.is_empty() {
        return Ok(());
    }
    push_heading(page, "header")?;
    push_fields(alloc, page, &fields)
}

// Appends an empty line and a heading.
fn push_heading(page: &mut Page, text: &str) -> Result<(), AllocError> {
    page.line(Tone::Plain, "")?;
    page.line(Tone::Heading, text)
}

/// Shows an envelope for a terminal: the verdict and the faults, the header, a bar of the layout,
/// the items, what is lost if all are dropped, and what events and transactions tell. Lines take at
/// most 80 columns.
///
/// # Errors
///
/// `AllocError` if an allocation fails, or if a URL would take 4 GB.
pub fn show_text(alloc: Global, bytes: &[u8], colors: bool) -> Result<Shown, AllocError>
    ensures accepted { IfOk result (λ s. IsTrue s.accepted ↔ IsAccepted bytes.now) }
    ensures page { IfOk result (λ s. IsPage colors COLUMNS s.text.items) }
{
    let survey = Survey::new(alloc, bytes)?;
    let accepted = survey.is_accepted();
    let mut page = Page::new(alloc);
    push_verdict(alloc, &mut page, &survey)?;
    push_header(alloc, &mut page, survey.header_line)?;
    layout::push_layout(alloc, &mut page, &survey)?;
    table::push_items(alloc, &mut page, &survey)?;
    losses::push_losses(alloc, &mut page, &survey.rows)?;
    details::push_details(alloc, &mut page, &survey.rows)?;
    let text = page.render(alloc, colors, COLUMNS)?;
    Ok(Shown { text, accepted })
}
