//! Monitor configurations.
#![tactic(auto, unfolding(crate::specs::Monitors::config_fields))]

ghost use Rattle.sentry_records.specs.Monitors.{config_fields, config_in_order};

use crate::monitor_schedule::MonitorSchedule;
use sentry_rows::{AsTable, Copier, CopyTable, ReadTable, Sink, Source, Table};
use sentry_tables::{Formed, Member};
use std::alloc::AllocError;

/// A monitor configuration, which a check-in may set (upsert).
///
/// <https://develop.sentry.dev/sdk/telemetry/check-ins/#monitor-upsert-support>
#[derive(Debug, Drop, PartialEq)]
pub struct MonitorConfig {
    /// Schedule of the expected check-ins; required.
    pub schedule: MonitorSchedule,
    /// Minutes after the expected time until a check-in counts as missed.
    pub checkin_margin: Option<u64>,
    /// Minutes that a check-in may be in progress before counting as failed.
    pub max_runtime: Option<u64>,
    /// Time zone of the schedule, such as `Europe/Vienna`.
    pub timezone: Option<String>,
    /// Number of consecutive failed check-ins before an issue is created.
    pub failure_issue_threshold: Option<u64>,
    /// Number of consecutive successful check-ins before an issue is resolved.
    pub recovery_threshold: Option<u64>,
}

impl MonitorConfig {
    ghost use Rattle.std.specs.Prelude.{◌≡◌, IfOk};
    ghost use Rattle.sentry_records.specs.Monitors.{config_cell};

    /// Clones the configuration. `AllocError` if an allocation fails.
    pub fn clone(&self) -> Result<MonitorConfig, AllocError>
        ensures { IfOk result (λ copy. config_cell copy ≡ config_cell self.now) }
    {
        self.copy()
    }
}

impl Formed for MonitorConfig {
    type Form = AsTable;
}

impl Table for MonitorConfig {
    ghost lines = { config_fields };

    fn rows<S: Sink>(&self, to: &mut S) {
        to.optional("checkin_margin", &self.checkin_margin);
        to.optional("failure_issue_threshold", &self.failure_issue_threshold);
        to.optional("max_runtime", &self.max_runtime);
        to.optional("recovery_threshold", &self.recovery_threshold);
        to.required("schedule", &self.schedule);
        to.optional("timezone", &self.timezone);
    }

    ghost ordered = { config_in_order };
}

impl ReadTable for MonitorConfig {
    fn read<S: Source>(from: &mut S) -> MonitorConfig {
        MonitorConfig {
            checkin_margin: from.optional("checkin_margin"),
            failure_issue_threshold: from.optional("failure_issue_threshold"),
            max_runtime: from.optional("max_runtime"),
            recovery_threshold: from.optional("recovery_threshold"),
            schedule: from.required("schedule", MonitorSchedule::blank()),
            timezone: from.optional("timezone"),
        }
    }
}

impl CopyTable for MonitorConfig {
    fn copy_rows(&self, copies: &mut Copier) -> Result<MonitorConfig, AllocError> {
        Ok(MonitorConfig {
            checkin_margin: copies.optional(&self.checkin_margin),
            failure_issue_threshold: copies.optional(&self.failure_issue_threshold),
            max_runtime: copies.optional(&self.max_runtime),
            recovery_threshold: copies.optional(&self.recovery_threshold),
            schedule: copies.of(&self.schedule)?,
            timezone: copies.optional(&self.timezone),
        })
    }
}
