//! The names of the Rust crate `sentry-types`, at the paths where they stand there.
//!
//! The root has DSNs, authentication, ids of projects and debug files, and the errors of their
//! texts; [`protocol`] has the protocol's types by version, envelopes among them. Each name is
//! re-exported from the crate that implements it.
//!
//! Laws are public functions of modules `laws` in those crates: envelopes' are also
//! [`protocol::v7::laws`], those of DSNs and authentication are `sentry_keys::laws`.
#![tactic(auto)]

pub mod protocol;

pub use sentry_identifiers::{CodeId, DebugId, ParseDebugIdError, random_uuid};
pub use sentry_keys::{ApiUrlError, Auth, Dsn, ParseAuthError, ParseDsnError, Scheme};
pub use sentry_text::{ParseProjectIdError, ProjectId};
pub use sentry_words::IndexedEnum;
pub use uuid::Uuid;
