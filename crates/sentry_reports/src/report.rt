//! Client reports.

ghost use Rattle.sentry_reports.specs.Reports.{report_fields, report_in_order};

use crate::category::Category;
use crate::item::Item;
use crate::kept_sums::{PAIRS, pair_place};
use crate::reason::Reason;
use crate::report_rows::ReportRows;
use rand_core::Rng;
use sentry_moments::Moment;
use sentry_rows::{AsTable, Copier, CopyTable, ReadTableAt, Sink, Source, Table};
use sentry_tables::{Formed, Member};
use std::alloc::AllocError;
use std::fmt;
use std::marker::Model;

/// A client report: items for discarded events, in the order given, and the time of the report.
///
/// A report also keeps the sum of the quantities for each category and reason, saturating at
/// 2^64-1. Two reports are equal exactly if their timestamps and all their sums are.
///
/// When a report is read, an absent `timestamp` is the caller's `now`.
///
/// <https://develop.sentry.dev/sdk/telemetry/client-reports/>
#[derive(Drop)]
pub struct Report {
    pub(crate) rows: ReportRows,
    pub(crate) sums: [u64; PAIRS],
}

impl Model for Report {
    ghost use Rattle.sentry_reports.specs.Reported.{Reported};
    ghost use Rattle.sentry_reports.specs.ReportSums.{KeepsSums};

    ghost Value = { Reported };

    ghost view = { λ r. r.rows };

    ghost invariant = { λ r. KeepsSums r.sums r.rows.items };
}

impl Report {
    ghost use Rattle.std.specs.Prelude.{◌≡◌, nat_eq, IfOk};
    ghost use Rattle.std.specs.Cmp.Lexicographic.{pointwise};
    ghost use Rattle.sentry_reports.specs.ReportSums.{report_sum, all_sums};
    ghost use Rattle.sentry_reports.specs.Reports.{report_cell};

    /// Creates a report at `now` with the items as given, unmerged and in order. Doesn't allocate.
    pub fn new(now: Moment, discarded_events: Vec<Item>) -> Report
        ensures timestamp { result.timestamp ≡ now }
        ensures items { result.items ≡ discarded_events.items }
    {
        ReportRows::new(now, discarded_events).report()
    }

    /// Returns the items, in order.
    pub fn discarded_events(&self) -> &[Item]
        ensures { result.now ≡ self.now.items }
    {
        self.rows.discarded_events()
    }

    /// Returns the quantity lost in a category for a reason: the sum over the items, saturating at
    /// 2^64-1. Doesn't allocate.
    pub fn sum(&self, category: Category, reason: Reason) -> u64
        ensures { result ≡ report_sum category reason self.now.items }
    {
        self.sums[pair_place(category, reason)]
    }

    #[tactic(auto, using(crate::proofs::ReportSums::same_verdict))]
    fn has_sums_of(&self, other: &Report) -> bool
        ensures { result ≡ pointwise nat_eq (all_sums self.now.items) (all_sums other.now.items) }
    {
        self.sums == other.sums
    }

    /// Clones the report. `AllocError` if an allocation fails.
    pub fn clone(&self) -> Result<Report, AllocError>
        ensures { IfOk result (λ copy. report_cell copy ≡ report_cell self.now) }
    {
        self.copy()
    }
}

impl fmt::Debug for Report {
    /// Formats the timestamp and the items, without the sums.
    fn fmt<W: fmt::Write>(&self, f: &mut fmt::Formatter<W>) -> fmt::Result {
        f.debug_struct("Report")
            .field("timestamp", &self.rows.timestamp)
            .field("discarded_events", &self.rows.discarded_events)
            .finish()
    }
}

impl PartialEq for Report {
    ghost use Rattle.std.specs.Prelude.{nat_eq};
    ghost use Rattle.std.proofs.Common.{rules};
    ghost use Rattle.std.specs.Cmp.Lexicographic.{pointwise};
    ghost use Rattle.std.specs.Cmp.Rules.{comparing};
    ghost use Rattle.std.specs.Ordering.{on, eq_of_both};
    ghost use Rattle.sentry_reports.specs.ReportSums.{all_sums};

    ghost eq = { eq_of_both (on (λ r. r.timestamp) ⟦<Moment as PartialEq>⟧.eq) (on (λ r.
        all_sums r.items) (pointwise nat_eq)) };

    ghost laws = { Prim.search (comparing, rules) };

    fn eq(&self, other: &Report) -> bool {
        self.rows.timestamp == other.rows.timestamp && self.has_sums_of(other)
    }
}

impl Formed for Report {
    type Form = AsTable;
}

impl Table for Report {
    ghost lines = { report_fields };

    fn rows<S: Sink>(&self, to: &mut S) {
        self.rows.rows(to);
    }

    ghost ordered = { report_in_order };
}

impl ReadTableAt for Report {
    fn read<S: Source, R: Rng>(from: &mut S, now: Moment, ids: &mut R) -> Report {
        ReportRows::read(from, now, ids).report()
    }
}

impl CopyTable for Report {
    fn copy_rows(&self, copies: &mut Copier) -> Result<Report, AllocError> {
        Ok(self.rows.copy_rows(copies)?.report())
    }
}
