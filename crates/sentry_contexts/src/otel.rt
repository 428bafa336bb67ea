//! OpenTelemetry contexts.
#![tactic(auto, unfolding(crate::specs::Telemetry::otel_fields))]

ghost use Rattle.std.specs.Prelude.{[], ◌∷◌};
ghost use Rattle.serde_json.specs.View.{members_view};
ghost use Rattle.sentry_tables.specs.Kind.{tag};
ghost use Rattle.sentry_contexts.specs.Telemetry.{otel_fields, otel_in_order};

use sentry_rows::{AsKept, Copier, KeptTable, Sink, Source, Table};
use sentry_tables::{Formed, Member};
use serde_json::{Map, Value};
use std::alloc::{AllocError, Global};

/// The OpenTelemetry context of an event: general and resource attributes.
///
/// <https://develop.sentry.dev/sdk/data-model/event-payloads/contexts/>
#[derive(Debug, Drop, PartialEq)]
pub struct OtelContext {
    /// General attributes: <https://opentelemetry.io/docs/specs/semconv/general/attributes/>.
    pub attributes: Map<String, Value>,
    /// Resource attributes, which describe the entity that produces the telemetry:
    /// <https://opentelemetry.io/docs/specs/semconv/resource/>.
    pub resource: Map<String, Value>,
    /// Additional members. The key of a field above, or `type`, makes the context unwritable
    /// (`NotPlain`).
    pub other: Map<String, Value>,
}

impl OtelContext {
    ghost use Rattle.std.specs.Prelude.{◌≡◌, IfOk};
    ghost use Rattle.serde_json.specs.Data.{no_members};
    ghost use Rattle.sentry_tables.specs.Defaults.{IsDefault};
    ghost use Rattle.sentry_contexts.specs.Telemetry.{otel_cell};

    /// Creates an OpenTelemetry context with no attributes.
    pub fn default_in(alloc: Global) -> OtelContext
        ensures rows { IsDefault otel_fields result }
        ensures other { members_view result.other.entries ≡ no_members }
    {
        OtelContext {
            attributes: Map::new(alloc),
            resource: Map::new(alloc),
            other: Map::new(alloc),
        }
    }

    /// Clones the OpenTelemetry context. `AllocError` if an allocation fails.
    pub fn clone(&self) -> Result<OtelContext, AllocError>
        ensures { IfOk result (λ copy. otel_cell copy ≡ otel_cell self.now) }
    {
        self.copy()
    }
}

impl Formed for OtelContext {
    type Form = AsKept;
}

impl Table for OtelContext {
    ghost lines = { otel_fields };

    fn rows<S: Sink>(&self, to: &mut S) {
        to.map("attributes", &self.attributes);
        to.map("resource", &self.resource);
    }

    ghost ordered = { otel_in_order };
}

impl KeptTable for OtelContext {
    ghost reserved = { tag ∷ [] };

    ghost others_of = { λ o. members_view o.other.entries };

    fn others(&self) -> &Map<String, Value> {
        &self.other
    }

    fn names() -> &'static [&'static str] {
        &["type", "attributes", "resource"]
    }

    fn read<S: Source>(from: &mut S) -> OtelContext {
        OtelContext {
            attributes: from.map("attributes"),
            resource: from.map("resource"),
            other: from.others(OtelContext::names()),
        }
    }

    fn copy_rows(&self, copies: &mut Copier) -> Result<OtelContext, AllocError> {
        Ok(OtelContext {
            attributes: copies.map(&self.attributes)?,
            resource: copies.map(&self.resource)?,
            other: copies.others(&self.other)?,
        })
    }
}
