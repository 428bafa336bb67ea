//! Payloads of envelope items other than events: sessions, monitor check-ins, logs, metrics and
//! user reports; and the dynamic sampling context of envelope headers.
#![tactic(auto)]

pub mod laws;
pub mod log;
pub mod log_attribute;
pub mod metric;
pub mod monitor_check_in;
pub mod monitor_config;
pub mod monitor_schedule;
pub mod sampling;
mod schedule_rows;
pub mod session_aggregate_item;
pub mod session_aggregates;
pub mod session_attributes;
pub mod session_update;
mod stand_in;
pub mod user_report;

pub use log::Log;
pub use log_attribute::LogAttribute;
pub use metric::Metric;
pub use monitor_check_in::MonitorCheckIn;
pub use monitor_config::MonitorConfig;
pub use monitor_schedule::{MonitorSchedule, ScheduleError};
pub use sampling::DynamicSamplingContext;
pub use session_aggregate_item::SessionAggregateItem;
pub use session_aggregates::SessionAggregates;
pub use session_attributes::SessionAttributes;
pub use session_update::SessionUpdate;
pub use user_report::UserReport;
