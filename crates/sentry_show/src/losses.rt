//! What is lost if all items of an envelope are dropped.

use crate::survey::Row;
use sentry_ledger::frame_losses;
use sentry_ledger::loss_sums::LossSums;
use sentry_reports::{Category, Reason};
use sentry_words::IndexedEnum;
use std::alloc::{AllocError, Global};

/// Returns the sums of what is lost with all items. `AllocError` if an allocation fails.
pub fn losses_of_rows(alloc: Global, rows: &[Row<'_>]) -> Result<LossSums, AllocError> {
    let mut sums = LossSums::new();
    for row in rows {
        for loss in &frame_losses(alloc, &row.frame)? {
            sums.add(*loss);
        }
    }
    Ok(sums)
}

/// Returns the sum of a category: all reasons, and without one.
pub fn sum_of(sums: &LossSums, category: Category) -> u64 {
    let mut sum = sums.sum(category, None);
    for reason in Reason::VARIANTS {
        sum = sum.saturating_add(sums.sum(category, Some(*reason)));
    }
    sum
}
