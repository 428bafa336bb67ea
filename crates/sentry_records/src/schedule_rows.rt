//! Rows of the cases of monitor schedules.
#![tactic(auto, unfolding(crate::specs::Monitors::crontab_fields, crate::specs::Monitors::interval_fields, crate::specs::Monitors::lent_fields))]

ghost use Rattle.sentry_records.specs.Monitors.{crontab_fields, crontab_in_order, interval_fields, interval_in_order, lent_fields, lent_in_order};

use sentry_rows::{AsTable, Copier, CopyTable, ReadTable, Sink, Source, Table};
use sentry_tables::Formed;
use sentry_words::MonitorIntervalUnit;
use std::alloc::AllocError;

// Rows of a `crontab` schedule.
#[derive(Drop)]
pub(crate) struct CrontabRows {
    pub value: String,
}

impl Formed for CrontabRows {
    type Form = AsTable;
}

impl Table for CrontabRows {
    ghost lines = { crontab_fields };

    fn rows<S: Sink>(&self, to: &mut S) {
        to.required("value", &self.value);
    }

    ghost ordered = { crontab_in_order };
}

impl ReadTable for CrontabRows {
    fn read<S: Source>(from: &mut S) -> CrontabRows {
        CrontabRows {
            value: from.text("value"),
        }
    }
}

impl CopyTable for CrontabRows {
    fn copy_rows(&self, copies: &mut Copier) -> Result<CrontabRows, AllocError> {
        Ok(CrontabRows {
            value: copies.text(&self.value),
        })
    }
}

// Rows of an `interval` schedule.
#[derive(Drop)]
pub(crate) struct IntervalRows {
    pub value: u64,
    pub unit: MonitorIntervalUnit,
}

impl Formed for IntervalRows {
    type Form = AsTable;
}

impl Table for IntervalRows {
    ghost lines = { interval_fields };

    fn rows<S: Sink>(&self, to: &mut S) {
        to.required("unit", &self.unit);
        to.required("value", &self.value);
    }

    ghost ordered = { interval_in_order };
}

impl ReadTable for IntervalRows {
    fn read<S: Source>(from: &mut S) -> IntervalRows {
        IntervalRows {
            unit: from.required("unit", MonitorIntervalUnit::Minute),
            value: from.required("value", 0),
        }
    }
}

impl CopyTable for IntervalRows {
    fn copy_rows(&self, copies: &mut Copier) -> Result<IntervalRows, AllocError> {
        Ok(IntervalRows {
            unit: copies.plain(&self.unit),
            value: copies.plain(&self.value),
        })
    }
}

// Rows of a `crontab` schedule that borrows its expression, for writing.
#[derive(Drop)]
pub(crate) struct LentCrontab<'s> {
    pub value: &'s String,
}

impl<'s> Table for LentCrontab<'s> {
    ghost lines = { lent_fields };

    fn rows<S: Sink>(&self, to: &mut S) {
        to.required("value", self.value);
    }

    ghost ordered = { lent_in_order };
}
