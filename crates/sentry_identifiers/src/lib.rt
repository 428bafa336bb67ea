//! Identifiers of the Sentry protocol: UUIDs, ids of spans and traces, debug and code identifiers.
#![tactic(auto)]

mod bytes;
mod code_id;
mod debug_id;
mod hex_id;
pub mod laws;
mod span_id;
mod trace_id;
mod uuids;

pub use code_id::CodeId;
pub use debug_id::{DebugId, ParseDebugIdError};
pub use hex::FromHexError;
pub use span_id::SpanId;
pub use trace_id::TraceId;
pub use uuids::{Hyphenated, Simple, random_uuid};
