//! Types shared by several payloads: breadcrumbs, users, requests, debug images and SDK
//! information; re-exports the types of `sentry_frames`.
#![tactic(auto)]

pub mod breadcrumb;
pub mod client_sdk_info;
pub mod client_sdk_package;
pub mod debug_image;
pub mod debug_meta;
pub mod laws;
pub mod native_images;
pub mod other_images;
pub mod request;
pub mod system_sdk_info;
pub mod tree_member;
pub mod user;

pub use breadcrumb::Breadcrumb;
pub use client_sdk_info::ClientSdkInfo;
pub use client_sdk_package::ClientSdkPackage;
pub use debug_image::DebugImage;
pub use debug_meta::DebugMeta;
pub use native_images::{AppleDebugImage, SymbolicDebugImage};
pub use other_images::{ProguardDebugImage, WasmDebugImage};
pub use request::Request;
pub use sentry_frames::{
    CError, Exception, Frame, LogEntry, MachException, Mechanism, MechanismMeta, PosixSignal,
    Stacktrace, TemplateInfo, Thread, ThreadId,
};
pub use system_sdk_info::SystemSdkInfo;
pub use tree_member::TreeMember;
pub use user::User;
