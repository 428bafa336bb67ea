//! The ledger of losses that are not reported yet.

use crate::held_row::{holds_nothing, report_items};
use sentry_moments::Moment;
use sentry_reports::kept_sums::{PAIRS, pair_place};
use sentry_reports::{Category, ItemLoss, Reason, Report};
use std::alloc::{AllocError, Global};
use thiserror::Error;

/// The error of [`Ledger::record`], with the loss: the sum would exceed 2^64-1.
#[derive(Clone, Copy, Debug, Error)]
#[error("LedgerFull")]
pub struct LedgerFull(pub ItemLoss);

/// Losses that are not reported yet: for each category and reason, a quantity of at most 2^64-1.
///
/// A ledger is a value of fixed size, and allocates only in [`Ledger::flush`].
#[derive(Debug, Drop)]
pub struct Ledger {
    row: [u64; PAIRS],
}

impl Ledger {
    ghost use Rattle.std.specs.Prelude.{◌≡◌, ◌↔◌, ◌∷◌, [], IfErr, IfOk, IfSome, IsTrue, OnErr};
    ghost use Rattle.sentry_reports.specs.ReportSums.{report_sum};
    ghost use Rattle.sentry_reports.specs.declared.category.Category.{Category as Categories};
    ghost use Rattle.sentry_reports.specs.declared.reason.Reason.{Reason as Reasons};
    ghost use Rattle.sentry_ledger.specs.Held.{quantity_held, HoldsNothing};
    ghost use Rattle.sentry_ledger.specs.Histories.{Holds, IsAnswered, entry_of_flush, entry_of_record};

    /// Creates an empty ledger.
    pub fn new() -> Ledger
        ensures { HoldsNothing (quantity_held result) }
    {
        Ledger { row: [0; PAIRS] }
    }

    /// Returns the quantity of a category that was lost for a reason and is not reported yet.
    pub fn held(&self, category: Category, reason: Reason) -> u64
        ensures { result ≡ quantity_held self.now category reason }
    {
        self.row[pair_place(category, reason)]
    }

    /// Returns whether the ledger holds no loss.
    pub fn is_empty(&self) -> bool
        ensures { IsTrue result ↔ HoldsNothing (quantity_held self.now) }
    {
        holds_nothing(&self.row)
    }

    /// Records a loss under its own reason, or under `reason` if the loss has none.
    ///
    /// # Errors
    ///
    /// [`LedgerFull`] with the loss, exactly if the quantity held for that category and reason plus
    /// the loss's own exceeds 2^64-1; `self` is unchanged.
    pub fn record(&mut self, loss: ItemLoss, reason: Reason) -> Result<(), LedgerFull>
        ensures answered { IsAnswered (quantity_held self.old)
            (entry_of_record loss reason result) }
        ensures held { Holds self.new (quantity_held self.old)
            (entry_of_record loss reason result ∷ []) }
        ensures full { IfErr result (λ full. (full.0 ≡ loss) × (self.new ≡ self.old)) }
    {
        let place = pair_place(loss.category, loss.reason.unwrap_or(reason));
        match self.row[place].checked_add(loss.quantity) {
            Some(sum) => {
                self.row[place] = sum;
                Ok(())
            }
            None => Err(LedgerFull(loss)),
        }
    }

    /// Moves all losses into a client report of the moment `now`; returns `None` if the ledger is
    /// empty.
    ///
    /// The report has one item for each category and reason with a quantity above 0, sorted by
    /// category and then by reason, in the order of their `VARIANTS`. Afterwards the ledger is
    /// empty, and the losses are only in the report: if a report can't be sent, record its losses
    /// again.
    ///
    /// # Errors
    ///
    /// `AllocError` if an allocation fails; `self` is unchanged.
    pub fn flush(&mut self, alloc: Global, now: Moment) -> Result<Option<Report>, AllocError>
        ensures answered { IsAnswered (quantity_held self.old) (entry_of_flush now result) }
        ensures held { Holds self.new (quantity_held self.old) (entry_of_flush now result ∷ []) }
        ensures sums { IfOk result (λ given. IfSome given (λ made.
            (category : Categories) (reason : Reasons) →
            report_sum category reason made.items ≡ quantity_held self.old category reason)) }
        ensures refused { OnErr result (self.new ≡ self.old) }
    {
        if holds_nothing(&self.row) {
            return Ok(None);
        }
        let items = report_items(alloc, &self.row)?;
        self.row = [0; PAIRS];
        Ok(Some(Report::new(now, items)))
    }
}

/// The default ledger is empty.
impl Default for Ledger {
    ghost use Rattle.sentry_ledger.specs.Held.{quantity_held, HoldsNothing};

    ghost is_default = { λ ledger. HoldsNothing (quantity_held ledger) };

    fn default() -> Ledger {
        Ledger::new()
    }
}
