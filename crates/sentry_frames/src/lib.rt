//! Program state at the time of an event: log entries, stack frames, stack traces, threads,
//! exceptions and their mechanisms.
#![tactic(auto)]

pub mod c_error;
pub mod exception;
pub mod frame;
pub mod laws;
pub mod log_entry;
pub mod mach_exception;
pub mod mechanism;
pub mod mechanism_meta;
pub mod posix_signal;
pub mod stacktrace;
pub mod template_info;
pub mod thread;
pub mod thread_id;

pub use c_error::CError;
pub use exception::Exception;
pub use frame::Frame;
pub use log_entry::LogEntry;
pub use mach_exception::MachException;
pub use mechanism::Mechanism;
pub use mechanism_meta::MechanismMeta;
pub use posix_signal::PosixSignal;
pub use stacktrace::Stacktrace;
pub use template_info::TemplateInfo;
pub use thread::Thread;
pub use thread_id::ThreadId;
