//! Browser contexts: the web browser in which an event occurred.
#![tactic(auto, unfolding(crate::specs::Programs::browser_fields))]

ghost use Rattle.std.specs.Prelude.{[], ◌∷◌};
ghost use Rattle.serde_json.specs.View.{members_view};
ghost use Rattle.sentry_tables.specs.Kind.{tag};
ghost use Rattle.sentry_contexts.specs.Programs.{browser_fields, browser_in_order};

use sentry_rows::{AsKept, Copier, KeptTable, Sink, Source, Table};
use sentry_tables::{Formed, Member};
use serde_json::{Map, Value};
use std::alloc::{AllocError, Global};

/// The web browser in which an event occurred.
///
/// <https://develop.sentry.dev/sdk/data-model/event-payloads/contexts/#browser-context>
#[derive(Debug, Drop, PartialEq)]
pub struct BrowserContext {
    /// Browser name, such as `Chrome`.
    pub name: Option<String>,
    /// Browser version.
    pub version: Option<String>,
    /// Additional members. The key of a field above, or `type`, makes the context unwritable
    /// (`NotPlain`).
    pub other: Map<String, Value>,
}

impl BrowserContext {
    ghost use Rattle.std.specs.Prelude.{◌≡◌, IfOk};
    ghost use Rattle.serde_json.specs.Data.{no_members};
    ghost use Rattle.sentry_tables.specs.Defaults.{IsDefault};
    ghost use Rattle.sentry_contexts.specs.Programs.{browser_cell};

    /// Creates a browser context with no fields set.
    pub fn default_in(alloc: Global) -> BrowserContext
        ensures rows { IsDefault browser_fields result }
        ensures other { members_view result.other.entries ≡ no_members }
    {
        BrowserContext {
            name: None,
            version: None,
            other: Map::new(alloc),
        }
    }

    /// Clones the browser context. `AllocError` if an allocation fails.
    pub fn clone(&self) -> Result<BrowserContext, AllocError>
        ensures { IfOk result (λ copy. browser_cell copy ≡ browser_cell self.now) }
    {
        self.copy()
    }
}

impl Formed for BrowserContext {
    type Form = AsKept;
}

impl Table for BrowserContext {
    ghost lines = { browser_fields };

    fn rows<S: Sink>(&self, to: &mut S) {
        to.optional("name", &self.name);
        to.optional("version", &self.version);
    }

    ghost ordered = { browser_in_order };
}

impl KeptTable for BrowserContext {
    ghost reserved = { tag ∷ [] };

    ghost others_of = { λ b. members_view b.other.entries };

    fn others(&self) -> &Map<String, Value> {
        &self.other
    }

    fn names() -> &'static [&'static str] {
        &["type", "name", "version"]
    }

    fn read<S: Source>(from: &mut S) -> BrowserContext {
        BrowserContext {
            name: from.optional("name"),
            version: from.optional("version"),
            other: from.others(BrowserContext::names()),
        }
    }

    fn copy_rows(&self, copies: &mut Copier) -> Result<BrowserContext, AllocError> {
        Ok(BrowserContext {
            name: copies.optional(&self.name),
            version: copies.optional(&self.version),
            other: copies.others(&self.other)?,
        })
    }
}
