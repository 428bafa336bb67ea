//! Rate limits that Sentry's answers state, and the measure of an envelope before it is parsed.
#![tactic(auto)]

pub mod laws;
pub mod rate_limits;
mod retry_after;
pub mod sizes;

pub use rate_limits::RateLimits;
pub use sizes::{Measured, measure};
