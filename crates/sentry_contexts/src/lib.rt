//! Contexts: data about the environment in which an event occurred, such as its device or runtime.
#![tactic(auto)]

pub mod app;
pub mod browser;
pub mod context;
pub mod device;
pub mod gpu;
pub mod laws;
pub mod os;
pub mod otel;
pub mod response;
pub mod runtime;
pub mod trace;

pub use app::AppContext;
pub use browser::BrowserContext;
pub use context::Context;
pub use device::DeviceContext;
pub use gpu::GpuContext;
pub use os::OsContext;
pub use otel::OtelContext;
pub use response::ResponseContext;
pub use runtime::RuntimeContext;
pub use trace::TraceContext;
