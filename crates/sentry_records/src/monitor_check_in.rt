//! Monitor check-ins.
#![tactic(auto, unfolding(crate::specs::Monitors::check_in_fields))]

ghost use Rattle.sentry_records.specs.Monitors.{check_in_fields, check_in_in_order};

use crate::monitor_config::MonitorConfig;
use sentry_identifiers::Simple;
use sentry_rows::{AsTable, Copier, CopyTable, ReadTable, Sink, Source, Table};
use sentry_tables::{Formed, Member};
use sentry_words::MonitorCheckInStatus;
use std::alloc::AllocError;
use uuid::Uuid;

/// A monitor check-in: a running job, or how the job ended.
///
/// <https://develop.sentry.dev/sdk/telemetry/check-ins/>
#[derive(Debug, Drop, PartialEq)]
pub struct MonitorCheckIn {
    /// Check-in id; required.
    pub check_in_id: Uuid,
    /// Slug of the monitor; required.
    pub monitor_slug: String,
    /// Status of the job; required. A string that is no known status reads as `unknown`.
    pub status: MonitorCheckInStatus,
    /// Environment, such as `production`.
    pub environment: Option<String>,
    /// Duration of the job in seconds.
    pub duration: Option<u64>,
    /// Monitor configuration that the check-in sets (upsert).
    pub monitor_config: Option<MonitorConfig>,
}

impl MonitorCheckIn {
    ghost use Rattle.std.specs.Prelude.{◌≡◌, IfOk};
    ghost use Rattle.sentry_records.specs.Monitors.{check_in_cell};

    /// Clones the check-in. `AllocError` if an allocation fails.
    pub fn clone(&self) -> Result<MonitorCheckIn, AllocError>
        ensures { IfOk result (λ copy. check_in_cell copy ≡ check_in_cell self.now) }
    {
        self.copy()
    }
}

impl Formed for MonitorCheckIn {
    type Form = AsTable;
}

impl Table for MonitorCheckIn {
    ghost lines = { check_in_fields };

    fn rows<S: Sink>(&self, to: &mut S) {
        to.required_as::<Simple, Uuid>("check_in_id", &self.check_in_id);
        to.optional("duration", &self.duration);
        to.optional("environment", &self.environment);
        to.optional("monitor_config", &self.monitor_config);
        to.required("monitor_slug", &self.monitor_slug);
        to.required("status", &self.status);
    }

    ghost ordered = { check_in_in_order };
}

impl ReadTable for MonitorCheckIn {
    fn read<S: Source>(from: &mut S) -> MonitorCheckIn {
        MonitorCheckIn {
            check_in_id: from.required_as::<Simple, Uuid>("check_in_id", Uuid::nil()),
            duration: from.optional("duration"),
            environment: from.optional("environment"),
            monitor_config: from.optional("monitor_config"),
            monitor_slug: from.text("monitor_slug"),
            status: from.required("status", MonitorCheckInStatus::Unknown),
        }
    }
}

impl CopyTable for MonitorCheckIn {
    fn copy_rows(&self, copies: &mut Copier) -> Result<MonitorCheckIn, AllocError> {
        Ok(MonitorCheckIn {
            check_in_id: copies.plain_as::<Simple, Uuid>(&self.check_in_id),
            duration: copies.optional(&self.duration),
            environment: copies.optional(&self.environment),
            monitor_config: copies.optional(&self.monitor_config),
            monitor_slug: copies.text(&self.monitor_slug),
            status: copies.plain(&self.status),
        })
    }
}
