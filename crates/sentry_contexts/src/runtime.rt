//! Runtime contexts: the runtime in which an event occurred.
#![tactic(auto, unfolding(crate::specs::Systems::runtime_fields))]

ghost use Rattle.std.specs.Prelude.{[], ◌∷◌};
ghost use Rattle.serde_json.specs.View.{members_view};
ghost use Rattle.sentry_tables.specs.Kind.{tag};
ghost use Rattle.sentry_contexts.specs.Systems.{runtime_fields, runtime_in_order};

use sentry_rows::{AsKept, Copier, KeptTable, Sink, Source, Table};
use sentry_tables::{Formed, Member};
use serde_json::{Map, Value};
use std::alloc::{AllocError, Global};

/// The runtime in which an event occurred, such as a virtual machine or an interpreter.
///
/// <https://develop.sentry.dev/sdk/data-model/event-payloads/contexts/#runtime-context>
#[derive(Debug, Drop, PartialEq)]
pub struct RuntimeContext {
    /// Runtime name, such as `JVM`.
    pub name: Option<String>,
    /// Runtime version.
    pub version: Option<String>,
    /// Additional members. The key of a field above, or `type`, makes the context unwritable
    /// (`NotPlain`).
    pub other: Map<String, Value>,
}

impl RuntimeContext {
    ghost use Rattle.std.specs.Prelude.{◌≡◌, IfOk};
    ghost use Rattle.serde_json.specs.Data.{no_members};
    ghost use Rattle.sentry_tables.specs.Defaults.{IsDefault};
    ghost use Rattle.sentry_contexts.specs.Systems.{runtime_cell};

    /// Creates a runtime context with no fields set.
    pub fn default_in(alloc: Global) -> RuntimeContext
        ensures rows { IsDefault runtime_fields result }
        ensures other { members_view result.other.entries ≡ no_members }
    {
        RuntimeContext {
            name: None,
            version: None,
            other: Map::new(alloc),
        }
    }

    /// Clones the runtime context. `AllocError` if an allocation fails.
    pub fn clone(&self) -> Result<RuntimeContext, AllocError>
        ensures { IfOk result (λ copy. runtime_cell copy ≡ runtime_cell self.now) }
    {
        self.copy()
    }
}

impl Formed for RuntimeContext {
    type Form = AsKept;
}

impl Table for RuntimeContext {
    ghost lines = { runtime_fields };

    fn rows<S: Sink>(&self, to: &mut S) {
        to.optional("name", &self.name);
        to.optional("version", &self.version);
    }

    ghost ordered = { runtime_in_order };
}

impl KeptTable for RuntimeContext {
    ghost reserved = { tag ∷ [] };

    ghost others_of = { λ r. members_view r.other.entries };

    fn others(&self) -> &Map<String, Value> {
        &self.other
    }

    fn names() -> &'static [&'static str] {
        &["type", "name", "version"]
    }

    fn read<S: Source>(from: &mut S) -> RuntimeContext {
        RuntimeContext {
            name: from.optional("name"),
            version: from.optional("version"),
            other: from.others(RuntimeContext::names()),
        }
    }

    fn copy_rows(&self, copies: &mut Copier) -> Result<RuntimeContext, AllocError> {
        Ok(RuntimeContext {
            name: copies.optional(&self.name),
            version: copies.optional(&self.version),
            other: copies.others(&self.other)?,
        })
    }
}
