//! What would be lost.

use super::push_heading;
use crate::losses::{losses_of_rows, sum_of};
use crate::numbers::grouped;
use crate::screen::{Page, Tone};
use crate::survey::Row;
use sentry_reports::Category;
use sentry_words::IndexedEnum;
use std::alloc::{AllocError, Global};

/// Appends what is lost if all items are dropped, by data category.
pub fn push_losses(alloc: Global, page: &mut Page, rows: &[Row<'_>]) -> Result<(), AllocError> {
    if rows.is_empty() {
        return Ok(());
    }
    let sums = losses_of_rows(alloc, rows)?;
    push_heading(page, "lost if all items are dropped")?;
    let mut nothing = true;
    for category in Category::VARIANTS {
        let sum = sum_of(&sums, *category);
        if sum > 0 {
            let name = category.as_str();
            let sum = grouped(alloc, sum)?;
            page.line(Tone::Plain, &format!(in alloc; "  {name:<18}{sum:>14}")?)?;
            nothing = false;
        }
    }
    if nothing {
        return page.line(Tone::Plain, "  nothing that is counted");
    }
    Ok(())
}
