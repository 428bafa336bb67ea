//! Monitor schedules.

ghost use Rattle.std.specs.Prelude.{◌≡◌, IfOk, IfErr, refl};
ghost use Rattle.sentry_records.specs.Monitors.{schedule_cases, schedule_cell};

use crate::schedule_rows::{CrontabRows, IntervalRows, LentCrontab};
use sentry_json::Node;
use sentry_rows::{AsCase, CaseSink, Cased, ReadCased};
use sentry_tables::{Formed, FromTree, Member, TreeError, Way};
use sentry_text::{CrontabParseError, validate};
use sentry_words::MonitorIntervalUnit;
use std::alloc::{AllocError, Global};
use thiserror::Error;

/// A monitor schedule: when check-ins are expected. The member `type` names the variant.
///
/// An object without `type`, or with any other `type`, is rejected.
///
/// <https://develop.sentry.dev/sdk/telemetry/check-ins/#monitor-upsert-support>
#[derive(Debug, Drop, PartialEq)]
pub enum MonitorSchedule {
    /// Crontab schedule: `crontab`.
    Crontab {
        /// Crontab expression; checked by [`MonitorSchedule::from_crontab`], not when read.
        value: String,
    },
    /// Interval since the previous check-in: `interval`.
    Interval {
        /// Length of the interval in units.
        value: u64,
        /// Unit of the interval.
        unit: MonitorIntervalUnit,
    },
}

/// The error of [`MonitorSchedule::from_crontab`].
#[derive(Debug, Drop, Error)]
pub enum ScheduleError {
    /// Not a valid crontab schedule.
    #[error("Invalid")]
    Invalid(CrontabParseError),
    /// An allocation failed.
    #[error("out of memory")]
    Memory,
}

impl From<AllocError> for ScheduleError {
    ghost use Rattle.sentry_records.specs.declared.monitor_schedule.ScheduleError.TheVariants.{Memory};

    ghost from_gives = { λ error e. e ≡ Memory };

    /// Returns `Memory`.
    fn from(_error: AllocError) -> ScheduleError {
        ScheduleError::Memory
    }
}

impl MonitorSchedule {
    ghost use Rattle.sentry_text.specs.Crontab.{IsCrontab};
    ghost use Rattle.sentry_records.specs.Monitors.{IsNoCrontab, crontab_schedule};

    /// Creates a schedule from a crontab expression, which is kept verbatim.
    ///
    /// # Errors
    ///
    /// - `Invalid` if [`validate`] returns `false` for the expression.
    /// - `Memory` if an allocation fails.
    pub fn from_crontab(alloc: Global, crontab: &str) -> Result<MonitorSchedule, ScheduleError>
        ensures valid { IfOk result (λ _. IsCrontab crontab.now) }
        ensures text { IfOk result (λ schedule.
            schedule_cell schedule ≡ crontab_schedule crontab.now) }
        ensures err { IfErr result (IsNoCrontab crontab.now) }
    {
        if validate(crontab) {
            Ok(MonitorSchedule::Crontab {
                value: String::from_str(alloc, crontab)?,
            })
        } else {
            Err(ScheduleError::Invalid(CrontabParseError::new(alloc, crontab)?))
        }
    }

    // Placeholder for a schedule that could not be read.
    pub(crate) fn blank() -> MonitorSchedule {
        MonitorSchedule::Interval {
            value: 0,
            unit: MonitorIntervalUnit::Minute,
        }
    }

    /// Clones the schedule. `AllocError` if an allocation fails.
    pub fn clone(&self) -> Result<MonitorSchedule, AllocError>
        ensures { IfOk result (λ copy. schedule_cell copy ≡ schedule_cell self.now) }
    {
        self.copy()
    }
}

impl Formed for MonitorSchedule {
    type Form = AsCase;
}

#[tactic(auto, unfolding(crate::specs::Monitors::crontab_fields, crate::specs::Monitors::lent_fields, crate::specs::Monitors::interval_fields))]
impl Cased for MonitorSchedule {
    ghost cases = { schedule_cases };

    ghost choice_of = { schedule_cell };

    fn words() -> &'static [&'static str] {
        &["crontab", "interval"]
    }

    fn give<S: CaseSink>(&self, to: &mut S) {
        match self {
            MonitorSchedule::Crontab { value } => to.table("crontab", &LentCrontab { value }),
            MonitorSchedule::Interval { value, unit } => {
                let rows = IntervalRows {
                    value: *value,
                    unit: *unit,
                };
                to.table("interval", &rows)
            }
        }
    }

    #[tactic(auto, using(crate::proofs::Schedules::crontab_made, crate::proofs::Schedules::interval_made))]
    fn remake_case(&self, way: Way) -> Result<MonitorSchedule, AllocError> {
        Ok(match self {
            MonitorSchedule::Crontab { value } => MonitorSchedule::Crontab {
                value: value.clone()?,
            },
            MonitorSchedule::Interval { value, unit } => MonitorSchedule::Interval {
                value: *value,
                unit: *unit,
            },
        })
    }

    ghost distinct = { refl };
}

impl ReadCased for MonitorSchedule {
    #[tactic(auto, using(sentry_rows::proofs::CasesRead::case_shown, sentry_rows::proofs::CasesRead::case_refused, sentry_rows::proofs::CasesRead::past_cases), unfolding(crate::specs::Monitors::crontab_fields, crate::specs::Monitors::interval_fields))]
    fn read<N: Node>(alloc: Global, node: &N, case: usize) -> Result<MonitorSchedule, TreeError> {
        match case {
            0 => {
                let CrontabRows { value } = CrontabRows::from_node(alloc, node)?;
                Ok(MonitorSchedule::Crontab { value })
            }
            1 => {
                let IntervalRows { value, unit } = IntervalRows::from_node(alloc, node)?;
                Ok(MonitorSchedule::Interval { value, unit })
            }
            _ => Err(TreeError::Misfit),
        }
    }
}
