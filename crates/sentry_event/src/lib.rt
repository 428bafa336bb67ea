//! Events, transactions and spans, and the context types that events and transactions hold.
#![tactic(auto)]

pub mod apart;
pub mod event;
pub mod fingerprint;
pub mod laws;
mod owned;
pub mod span;
pub mod transaction;

pub use apart::{EXTRA, ReadApart};
pub use event::Event;
pub use fingerprint::AsFingerprint;
pub use sentry_contexts::{
    AppContext, BrowserContext, Context, DeviceContext, GpuContext, OsContext, OtelContext,
    ResponseContext, RuntimeContext, TraceContext,
};
pub use span::Span;
pub use transaction::Transaction;
