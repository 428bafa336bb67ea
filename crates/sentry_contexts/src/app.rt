//! App contexts: the application in which an event occurred.
#![tactic(auto, unfolding(crate::specs::Programs::app_fields))]

ghost use Rattle.std.specs.Prelude.{[], ◌∷◌};
ghost use Rattle.serde_json.specs.View.{members_view};
ghost use Rattle.sentry_tables.specs.Kind.{tag};
ghost use Rattle.sentry_contexts.specs.Programs.{app_fields, app_in_order};

use sentry_moments::{Moment, Rfc3339};
use sentry_rows::{AsKept, Copier, KeptTable, Sink, Source, Table};
use sentry_tables::{Formed, Member};
use serde_json::{Map, Value};
use std::alloc::{AllocError, Global};

/// The application in which an event occurred.
///
/// <https://develop.sentry.dev/sdk/data-model/event-payloads/contexts/#app-context>
#[derive(Debug, Drop, PartialEq)]
pub struct AppContext {
    /// Start time of the application: RFC 3339; null is rejected.
    pub app_start_time: Option<Moment>,
    /// App-specific device identifier.
    pub device_app_hash: Option<String>,
    /// Kind of build, such as `testflight`.
    pub build_type: Option<String>,
    /// Application identifier: a dotted bundle id.
    pub app_identifier: Option<String>,
    /// Application name, as shown on the platform.
    pub app_name: Option<String>,
    /// Application version, as shown on the platform.
    pub app_version: Option<String>,
    /// Internal build id, as shown on the platform.
    pub app_build: Option<String>,
    /// Additional members. The key of a field above, or `type`, makes the context unwritable
    /// (`NotPlain`).
    pub other: Map<String, Value>,
}

impl AppContext {
    ghost use Rattle.std.specs.Prelude.{◌≡◌, IfOk};
    ghost use Rattle.serde_json.specs.Data.{no_members};
    ghost use Rattle.sentry_tables.specs.Defaults.{IsDefault};
    ghost use Rattle.sentry_contexts.specs.Programs.{app_cell};

    /// Creates an app context with no fields set.
    pub fn default_in(alloc: Global) -> AppContext
        ensures rows { IsDefault app_fields result }
        ensures other { members_view result.other.entries ≡ no_members }
    {
        AppContext {
            app_start_time: None,
            device_app_hash: None,
            build_type: None,
            app_identifier: None,
            app_name: None,
            app_version: None,
            app_build: None,
            other: Map::new(alloc),
        }
    }

    /// Clones the app context. `AllocError` if an allocation fails.
    pub fn clone(&self) -> Result<AppContext, AllocError>
        ensures { IfOk result (λ copy. app_cell copy ≡ app_cell self.now) }
    {
        self.copy()
    }
}

impl Formed for AppContext {
    type Form = AsKept;
}

impl Table for AppContext {
    ghost lines = { app_fields };

    fn rows<S: Sink>(&self, to: &mut S) {
        to.optional("app_build", &self.app_build);
        to.optional("app_identifier", &self.app_identifier);
        to.optional("app_name", &self.app_name);
        to.optional_strict_as::<Rfc3339, Moment>("app_start_time", &self.app_start_time);
        to.optional("app_version", &self.app_version);
        to.optional("build_type", &self.build_type);
        to.optional("device_app_hash", &self.device_app_hash);
    }

    ghost ordered = { app_in_order };
}

impl KeptTable for AppContext {
    ghost reserved = { tag ∷ [] };

    ghost others_of = { λ a. members_view a.other.entries };

    fn others(&self) -> &Map<String, Value> {
        &self.other
    }

    fn names() -> &'static [&'static str] {
        &[
            "type",
            "app_build",
            "app_identifier",
            "app_name",
            "app_start_time",
            "app_version",
            "build_type",
            "device_app_hash",
        ]
    }

    fn read<S: Source>(from: &mut S) -> AppContext {
        AppContext {
            app_build: from.optional("app_build"),
            app_identifier: from.optional("app_identifier"),
            app_name: from.optional("app_name"),
            app_start_time: from.optional_strict_as::<Rfc3339, Moment>("app_start_time"),
            app_version: from.optional("app_version"),
            build_type: from.optional("build_type"),
            device_app_hash: from.optional("device_app_hash"),
            other: from.others(AppContext::names()),
        }
    }

    fn copy_rows(&self, copies: &mut Copier) -> Result<AppContext, AllocError> {
        Ok(AppContext {
            app_build: copies.optional(&self.app_build),
            app_identifier: copies.optional(&self.app_identifier),
            app_name: copies.optional(&self.app_name),
            app_start_time: copies.optional_strict_as::<Rfc3339, Moment>(&self.app_start_time),
            app_version: copies.optional(&self.app_version),
            build_type: copies.optional(&self.build_type),
            device_app_hash: copies.optional(&self.device_app_hash),
            other: copies.others(&self.other)?,
        })
    }
}
