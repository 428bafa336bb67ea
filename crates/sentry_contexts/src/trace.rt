//! Trace contexts: the span and trace of an event.
#![tactic(auto, unfolding(crate::specs::Telemetry::trace_context_fields))]

ghost use Rattle.sentry_contexts.specs.Telemetry.{trace_context_fields, trace_context_in_order};

use rand_core::Rng;
use sentry_identifiers::{SpanId, TraceId};
use sentry_moments::Moment;
use sentry_rows::{AsTable, Copier, CopyTable, ReadTableAt, Sink, Source, Table};
use sentry_tables::{Drawn, Formed, Member, Own};
use sentry_words::SpanStatus;
use serde_json::{Map, Value};
use std::alloc::{AllocError, Global};

/// The trace context of an event: its span and its trace.
///
/// On reading, an absent `span_id` or `trace_id` is drawn from the generator.
///
/// <https://develop.sentry.dev/sdk/data-model/event-payloads/contexts/#trace-context>
#[derive(Debug, Drop, PartialEq)]
pub struct TraceContext {
    /// Span id: 16 hex digits.
    pub span_id: SpanId,
    /// Trace id: 32 hex digits.
    pub trace_id: TraceId,
    /// Id of the parent span.
    pub parent_span_id: Option<SpanId>,
    /// Operation, as a short code.
    pub op: Option<String>,
    /// Description of the operation, human-readable.
    pub description: Option<String>,
    /// Status of the span.
    pub status: Option<SpanStatus>,
    /// Origin, which names the creator of the span:
    /// <https://develop.sentry.dev/sdk/telemetry/traces/trace-origin/>.
    pub origin: Option<String>,
    /// Additional data, by name (member `data`).
    pub data_: Map<String, Value>,
}

impl TraceContext {
    ghost use Rattle.std.specs.Prelude.{◌≡◌, IfOk};
    ghost use Rattle.sentry_tables.specs.Defaults.{IsDefault};
    ghost use Rattle.sentry_contexts.specs.Telemetry.{DrawsIds, trace_context_cell};

    /// Creates a trace context with a new span id and a new trace id, and no other fields set.
    ///
    /// The span id is drawn from `ids` first, then the trace id.
    pub fn new<R: Rng>(alloc: Global, ids: &mut R) -> TraceContext
        ensures rows { IsDefault trace_context_fields result }
        ensures ids { DrawsIds result (R.stream ids.old) (R.stream ids.new) }
    {
        let span_id = <Own as Drawn<SpanId>>::random(ids);
        let trace_id = <Own as Drawn<TraceId>>::random(ids);
        TraceContext {
            span_id,
            trace_id,
            parent_span_id: None,
            op: None,
            description: None,
            status: None,
            origin: None,
            data_: Map::new(alloc),
        }
    }

    /// Clones the trace context. `AllocError` if an allocation fails.
    pub fn clone(&self) -> Result<TraceContext, AllocError>
        ensures { IfOk result (λ copy. trace_context_cell copy ≡ trace_context_cell self.now) }
    {
        self.copy()
    }
}

impl Formed for TraceContext {
    type Form = AsTable;
}

impl Table for TraceContext {
    ghost lines = { trace_context_fields };

    fn rows<S: Sink>(&self, to: &mut S) {
        to.map("data", &self.data_);
        to.optional("description", &self.description);
        to.optional("op", &self.op);
        to.optional("origin", &self.origin);
        to.optional("parent_span_id", &self.parent_span_id);
        to.drawn_as::<Own, SpanId>("span_id", &self.span_id);
        to.optional("status", &self.status);
        to.drawn_as::<Own, TraceId>("trace_id", &self.trace_id);
    }

    ghost ordered = { trace_context_in_order };
}

impl ReadTableAt for TraceContext {
    fn read<S: Source, R: Rng>(from: &mut S, _now: Moment, ids: &mut R) -> TraceContext {
        TraceContext {
            data_: from.map("data"),
            description: from.optional("description"),
            op: from.optional("op"),
            origin: from.optional("origin"),
            parent_span_id: from.optional("parent_span_id"),
            span_id: from.drawn_as::<Own, SpanId, R>("span_id", ids),
            status: from.optional("status"),
            trace_id: from.drawn_as::<Own, TraceId, R>("trace_id", ids),
        }
    }
}

impl CopyTable for TraceContext {
    fn copy_rows(&self, copies: &mut Copier) -> Result<TraceContext, AllocError> {
        Ok(TraceContext {
            data_: copies.map(&self.data_)?,
            description: copies.optional(&self.description),
            op: copies.optional(&self.op),
            origin: copies.optional(&self.origin),
            parent_span_id: copies.optional(&self.parent_span_id),
            span_id: copies.plain(&self.span_id),
            status: copies.optional(&self.status),
            trace_id: copies.plain(&self.trace_id),
        })
    }
}
