//! The types of the Sentry protocol, by its version.

pub mod v7;

pub use sentry_keys::LATEST;
pub use v7 as latest;
