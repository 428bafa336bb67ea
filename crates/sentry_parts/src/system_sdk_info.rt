//! System SDK information: the SDK of the system that an application runs on.
#![tactic(auto, unfolding(crate::specs::Debugging::system_fields))]

ghost use Rattle.sentry_parts.specs.Debugging.{system_fields, system_in_order};

use sentry_rows::{AsTable, Copier, CopyTable, ReadTable, Sink, Source, Table};
use sentry_tables::{Formed, Member};
use std::alloc::AllocError;

/// The SDK of the system that an application runs on, such as the iOS SDK.
///
/// <https://develop.sentry.dev/sdk/data-model/event-payloads/debugmeta/>
#[derive(Debug, Drop, PartialEq)]
pub struct SystemSdkInfo {
    /// SDK name, such as `iOS`; required.
    pub sdk_name: String,
    /// Major version; required.
    pub version_major: u32,
    /// Minor version; required.
    pub version_minor: u32,
    /// Patch level of the version; required.
    pub version_patchlevel: u32,
}

impl SystemSdkInfo {
    ghost use Rattle.std.specs.Prelude.{◌≡◌, IfOk};
    ghost use Rattle.sentry_parts.specs.Debugging.{system_cell};

    /// Clones the SDK information. `AllocError` if an allocation fails.
    pub fn clone(&self) -> Result<SystemSdkInfo, AllocError>
        ensures { IfOk result (λ copy. system_cell copy ≡ system_cell self.now) }
    {
        self.copy()
    }
}

impl Formed for SystemSdkInfo {
    type Form = AsTable;
}

impl Table for SystemSdkInfo {
    ghost lines = { system_fields };

    fn rows<S: Sink>(&self, to: &mut S) {
        to.required("sdk_name", &self.sdk_name);
        to.required("version_major", &self.version_major);
        to.required("version_minor", &self.version_minor);
        to.required("version_patchlevel", &self.version_patchlevel);
    }

    ghost ordered = { system_in_order };
}

impl ReadTable for SystemSdkInfo {
    fn read<S: Source>(from: &mut S) -> SystemSdkInfo {
        SystemSdkInfo {
            sdk_name: from.text("sdk_name"),
            version_major: from.required("version_major", 0),
            version_minor: from.required("version_minor", 0),
            version_patchlevel: from.required("version_patchlevel", 0),
        }
    }
}

impl CopyTable for SystemSdkInfo {
    fn copy_rows(&self, copies: &mut Copier) -> Result<SystemSdkInfo, AllocError> {
        Ok(SystemSdkInfo {
            sdk_name: copies.text(&self.sdk_name),
            version_major: copies.plain(&self.version_major),
            version_minor: copies.plain(&self.version_minor),
            version_patchlevel: copies.plain(&self.version_patchlevel),
        })
    }
}
