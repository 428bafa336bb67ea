//! Small texts of the protocol: numbers, addresses, URLs, ids of projects and organizations,
//! severities of logs and schedules of cron jobs.
#![tactic(auto)]

mod addr;
mod crontab;
mod ip;
mod ip_text;
pub mod laws;
mod log_severity_number;
mod number;
mod project_id;
mod url_text;

pub use addr::{Addr, RegVal};
pub use crontab::{CrontabParseError, validate};
pub use ip::{IpAddress, ParseIpError};
pub use ip_text::IpText;
pub use log_severity_number::{LogSeverityNumber, SeverityOutOfRange};
pub use number::{ParseNumberError, parse_number};
pub use project_id::{OrganizationId, OrganizationText, ParseProjectIdError, ProjectId};
pub use url_text::UrlText;
