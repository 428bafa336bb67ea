//! Client SDK information.
#![tactic(auto, unfolding(crate::specs::ClientSdk::sdk_fields))]

ghost use Rattle.sentry_parts.specs.ClientSdk.{sdk_fields, sdk_in_order};

use crate::client_sdk_package::ClientSdkPackage;
use sentry_rows::{AsTable, Copier, CopyTable, ReadTable, Sink, Source, Table};
use sentry_tables::{Formed, Member};
use std::alloc::AllocError;

/// The client SDK: the software that sends data to Sentry.
///
/// <https://develop.sentry.dev/sdk/data-model/event-payloads/sdk/>
#[derive(Debug, Drop, PartialEq)]
pub struct ClientSdkInfo {
    /// SDK name, such as `sentry.rust`; required.
    pub name: String,
    /// SDK version; required.
    pub version: String,
    /// Enabled integrations, such as those with frameworks.
    pub integrations: Vec<String>,
    /// Packages that make up the SDK.
    pub packages: Vec<ClientSdkPackage>,
}

impl ClientSdkInfo {
    ghost use Rattle.std.specs.Prelude.{◌≡◌, IfOk};
    ghost use Rattle.sentry_parts.specs.ClientSdk.{sdk_cell};

    /// Clones the SDK information. `AllocError` if an allocation fails.
    pub fn clone(&self) -> Result<ClientSdkInfo, AllocError>
        ensures { IfOk result (λ copy. sdk_cell copy ≡ sdk_cell self.now) }
    {
        self.copy()
    }
}

impl Formed for ClientSdkInfo {
    type Form = AsTable;
}

impl Table for ClientSdkInfo {
    ghost lines = { sdk_fields };

    fn rows<S: Sink>(&self, to: &mut S) {
        to.list("integrations", &self.integrations);
        to.required("name", &self.name);
        to.list("packages", &self.packages);
        to.required("version", &self.version);
    }

    ghost ordered = { sdk_in_order };
}

impl ReadTable for ClientSdkInfo {
    fn read<S: Source>(from: &mut S) -> ClientSdkInfo {
        ClientSdkInfo {
            integrations: from.list("integrations"),
            name: from.text("name"),
            packages: from.list("packages"),
            version: from.text("version"),
        }
    }
}

impl CopyTable for ClientSdkInfo {
    fn copy_rows(&self, copies: &mut Copier) -> Result<ClientSdkInfo, AllocError> {
        Ok(ClientSdkInfo {
            integrations: copies.list(&self.integrations),
            name: copies.text(&self.name),
            packages: copies.list(&self.packages),
            version: copies.text(&self.version),
        })
    }
}
