//! Enumerations of the protocol that are JSON strings, and booleans as strings.
#![tactic(auto)]

pub mod indexed;
pub mod laws;
pub mod level;
pub mod log_level;
pub mod metric_type;
pub mod monitor_check_in_status;
pub mod monitor_interval_unit;
pub mod orientation;
pub mod parse_word_error;
pub mod sampled;
pub mod session_status;
pub mod span_status;
mod unit;

pub use indexed::{IndexedEnum, Sealed};
pub use level::{Level, ParseLevelError};
pub use log_level::LogLevel;
pub use metric_type::MetricType;
pub use monitor_check_in_status::MonitorCheckInStatus;
pub use monitor_interval_unit::MonitorIntervalUnit;
pub use orientation::Orientation;
pub use parse_word_error::ParseWordError;
pub use sampled::Sampled;
pub use session_status::{ParseSessionStatusError, SessionStatus};
pub use span_status::{ParseStatusError, SpanStatus};
pub use unit::Unit;
