//! The rows of client reports.
#![tactic(auto, unfolding(crate::specs::Reports::report_fields))]

ghost use Rattle.std.specs.Prelude.{◌≡◌};
ghost use Rattle.sentry_reports.specs.Reports.{report_fields, report_in_order};

use crate::item::Item;
use crate::kept_sums::sums_of;
use crate::report::Report;
use rand_core::Rng;
use sentry_moments::{Moment, Seconds};
use sentry_rows::{AsTable, Copier, CopyTable, ReadTableAt, Sink, Source, Table};
use sentry_tables::Formed;
use std::alloc::AllocError;
use std::marker::Model;

/// A client report without its sums, as it is read and written.
///
/// A [`Report`] is large, since it keeps its sums: it is made of its rows where it stays.
#[derive(Drop)]
pub struct ReportRows {
    pub(crate) timestamp: Moment,
    pub(crate) discarded_events: Vec<Item>,
}

impl Model for ReportRows {
    ghost use Rattle.sentry_reports.specs.Reported.{Reported};

    ghost Value = { Reported };

    ghost view = { λ r. record { timestamp = r.timestamp; items = r.discarded_events.items } };
}

impl ReportRows {
    pub(crate) fn new(timestamp: Moment, discarded_events: Vec<Item>) -> ReportRows
        ensures timestamp { result.timestamp ≡ timestamp }
        ensures items { result.items ≡ discarded_events.items }
    {
        ReportRows {
            timestamp,
            discarded_events,
        }
    }

    pub(crate) fn discarded_events(&self) -> &[Item]
        ensures { result.now ≡ self.now.items }
    {
        &self.discarded_events
    }

    /// Returns the report with these rows. Doesn't allocate.
    #[inline]
    pub fn report(self) -> Report
        ensures { result ≡ self }
    {
        let sums = sums_of(&self.discarded_events);
        Report { rows: self, sums }
    }
}

impl Formed for ReportRows {
    type Form = AsTable;
}

impl Table for ReportRows {
    ghost lines = { report_fields };

    fn rows<S: Sink>(&self, to: &mut S) {
        to.required("discarded_events", &self.discarded_events);
        to.at_once_as::<Seconds, Moment>("timestamp", &self.timestamp);
    }

    ghost ordered = { report_in_order };
}

impl ReadTableAt for ReportRows {
    fn read<S: Source, R: Rng>(from: &mut S, now: Moment, _ids: &mut R) -> ReportRows {
        let discarded_events = from.required("discarded_events", Vec::new(from.alloc()));
        let timestamp = from.at_once_as::<Seconds>("timestamp", now);
        ReportRows::new(timestamp, discarded_events)
    }
}

impl CopyTable for ReportRows {
    fn copy_rows(&self, copies: &mut Copier) -> Result<ReportRows, AllocError> {
        let discarded_events = copies.list(&self.discarded_events);
        let timestamp = copies.plain_as::<Seconds, Moment>(&self.timestamp);
        Ok(ReportRows::new(timestamp, discarded_events))
    }
}
