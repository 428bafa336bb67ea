//! Operating system contexts: the operating system on which an event occurred.
#![tactic(auto, unfolding(crate::specs::Systems::os_fields))]

ghost use Rattle.std.specs.Prelude.{[], ◌∷◌};
ghost use Rattle.serde_json.specs.View.{members_view};
ghost use Rattle.sentry_tables.specs.Kind.{tag};
ghost use Rattle.sentry_contexts.specs.Systems.{os_fields, os_in_order};

use sentry_rows::{AsKept, Copier, KeptTable, Sink, Source, Table};
use sentry_tables::{Formed, Member};
use serde_json::{Map, Value};
use std::alloc::{AllocError, Global};

/// The operating system on which an event occurred.
///
/// <https://develop.sentry.dev/sdk/data-model/event-payloads/contexts/#os-context>
#[derive(Debug, Drop, PartialEq)]
pub struct OsContext {
    /// Name of the operating system.
    pub name: Option<String>,
    /// Version of the operating system.
    pub version: Option<String>,
    /// Internal build identifier of the operating system.
    pub build: Option<String>,
    /// Kernel version.
    pub kernel_version: Option<String>,
    /// Whether the operating system is rooted or jailbroken.
    pub rooted: Option<bool>,
    /// Additional members. The key of a field above, or `type`, makes the context unwritable
    /// (`NotPlain`).
    pub other: Map<String, Value>,
}

impl OsContext {
    ghost use Rattle.std.specs.Prelude.{◌≡◌, IfOk};
    ghost use Rattle.serde_json.specs.Data.{no_members};
    ghost use Rattle.sentry_tables.specs.Defaults.{IsDefault};
    ghost use Rattle.sentry_contexts.specs.Systems.{os_cell};

    /// Creates an operating system context with no fields set.
    pub fn default_in(alloc: Global) -> OsContext
        ensures rows { IsDefault os_fields result }
        ensures other { members_view result.other.entries ≡ no_members }
    {
        OsContext {
            name: None,
            version: None,
            build: None,
            kernel_version: None,
            rooted: None,
            other: Map::new(alloc),
        }
    }

    /// Clones the operating system context. `AllocError` if an allocation fails.
    pub fn clone(&self) -> Result<OsContext, AllocError>
        ensures { IfOk result (λ copy. os_cell copy ≡ os_cell self.now) }
    {
        self.copy()
    }
}

impl Formed for OsContext {
    type Form = AsKept;
}

impl Table for OsContext {
    ghost lines = { os_fields };

    fn rows<S: Sink>(&self, to: &mut S) {
        to.optional("build", &self.build);
        to.optional("kernel_version", &self.kernel_version);
        to.optional("name", &self.name);
        to.optional("rooted", &self.rooted);
        to.optional("version", &self.version);
    }

    ghost ordered = { os_in_order };
}

impl KeptTable for OsContext {
    ghost reserved = { tag ∷ [] };

    ghost others_of = { λ s. members_view s.other.entries };

    fn others(&self) -> &Map<String, Value> {
        &self.other
    }

    fn names() -> &'static [&'static str] {
        &[
            "type",
            "build",
            "kernel_version",
            "name",
            "rooted",
            "version",
        ]
    }

    fn read<S: Source>(from: &mut S) -> OsContext {
        OsContext {
            build: from.optional("build"),
            kernel_version: from.optional("kernel_version"),
            name: from.optional("name"),
            rooted: from.optional("rooted"),
            version: from.optional("version"),
            other: from.others(OsContext::names()),
        }
    }

    fn copy_rows(&self, copies: &mut Copier) -> Result<OsContext, AllocError> {
        Ok(OsContext {
            build: copies.optional(&self.build),
            kernel_version: copies.optional(&self.kernel_version),
            name: copies.optional(&self.name),
            rooted: copies.optional(&self.rooted),
            version: copies.optional(&self.version),
            other: copies.others(&self.other)?,
        })
    }
}
