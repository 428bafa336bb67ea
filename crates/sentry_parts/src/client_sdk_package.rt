//! Packages of the client SDK.
#![tactic(auto, unfolding(crate::specs::ClientSdk::package_fields))]

ghost use Rattle.sentry_parts.specs.ClientSdk.{package_fields, package_in_order};

use sentry_rows::{AsTable, Copier, CopyTable, ReadTable, Sink, Source, Table};
use sentry_tables::{Formed, Member};
use std::alloc::AllocError;

/// A package of the client SDK.
///
/// <https://develop.sentry.dev/sdk/data-model/event-payloads/sdk/>
#[derive(Debug, Drop, PartialEq)]
pub struct ClientSdkPackage {
    /// Package name, such as `cargo:sentry`; required.
    pub name: String,
    /// Package version; required.
    pub version: String,
}

impl ClientSdkPackage {
    ghost use Rattle.std.specs.Prelude.{◌≡◌, IfOk};
    ghost use Rattle.sentry_parts.specs.ClientSdk.{package_cell};

    /// Clones the package. `AllocError` if an allocation fails.
    pub fn clone(&self) -> Result<ClientSdkPackage, AllocError>
        ensures { IfOk result (λ copy. package_cell copy ≡ package_cell self.now) }
    {
        self.copy()
    }
}

impl Formed for ClientSdkPackage {
    type Form = AsTable;
}

impl Table for ClientSdkPackage {
    ghost lines = { package_fields };

    fn rows<S: Sink>(&self, to: &mut S) {
        to.required("name", &self.name);
        to.required("version", &self.version);
    }

    ghost ordered = { package_in_order };
}

impl ReadTable for ClientSdkPackage {
    fn read<S: Source>(from: &mut S) -> ClientSdkPackage {
        ClientSdkPackage {
            name: from.text("name"),
            version: from.text("version"),
        }
    }
}

impl CopyTable for ClientSdkPackage {
    fn copy_rows(&self, copies: &mut Copier) -> Result<ClientSdkPackage, AllocError> {
        Ok(ClientSdkPackage {
            name: copies.text(&self.name),
            version: copies.text(&self.version),
        })
    }
}
