//! Lines that tell whether an envelope is accepted, and if not, each of its faults.

ghost use Rattle.std.specs.Prelude.{◌↔◌, IfOk, IsTrue, false};
ghost use Rattle.sentry_show.specs.Screen.{IsPage};
ghost use Rattle.sentry_show.specs.Verdicts.{IsAccepted};

use crate::faults::{where_text, why_text};
use crate::screen::{Page, Tone};
use crate::survey::{Shown, refusal};
use sentry_mending::{Explanation, Fault};
use std::alloc::{AllocError, Global};

fn push_fault(alloc: Global, page: &mut Page, name: &str, fault: &Fault) -> Result<(), AllocError> {
    let place = where_text(alloc, fault)?;
    let why = why_text(alloc, fault)?;
    let line = format!(in alloc; "{name}: refused: {place}: {why}")?;
    page.line(Tone::Plain, &line)
}

fn push_refusal(
    alloc: Global,
    page: &mut Page,
    name: &str,
    explanation: &Explanation,
) -> Result<(), AllocError> {
    if explanation.faults.is_empty() {
        let error = &explanation.error;
        let line = format!(in alloc; "{name}: refused: {error}")?;
        return page.line(Tone::Plain, &line);
    }
    for fault in &explanation.faults {
        push_fault(alloc, page, name, fault)?;
    }
    Ok(())
}

/// Checks an envelope: a line that begins with its name says that it is accepted, or a line for each
/// fault what is refused, where and why.
///
/// # Errors
///
/// `AllocError` if an allocation fails, or if a URL would take 4 GB.
pub fn check(alloc: Global, name: &str, bytes: &[u8]) -> Result<Shown, AllocError>
    ensures accepted { IfOk result (λ s. IsTrue s.accepted ↔ IsAccepted bytes.now) }
    ensures page { IfOk result (λ s. IsPage false usize.MAX s.text.items) }
{
    let explanation = refusal(alloc, bytes)?;
    let accepted = explanation.is_none();
    let mut page = Page::new(alloc);
    match &explanation {
        None => page.line(Tone::Plain, &format!(in alloc; "{name}: accepted")?)?,
        Some(explanation) => push_refusal(alloc, &mut page, name, explanation)?,
    }
    let text = page.render(alloc, false, usize::MAX)?;
    Ok(Shown { text, accepted })
}
