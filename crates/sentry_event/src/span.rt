//! Spans: the timed operations of a transaction.
#![tactic(auto, unfolding(crate::specs::Spans::span_fields))]

ghost use Rattle.sentry_event.specs.Spans.{span_fields, span_in_order};

use rand_core::Rng;
use sentry_identifiers::{SpanId, TraceId};
use sentry_moments::{Moment, Rfc3339, Seconds};
use sentry_rows::{AsTable, Copier, CopyTable, ReadTableAt, Sink, Source, Table};
use sentry_tables::{Drawn, Formed, Member, Own};
use sentry_words::SpanStatus;
use serde_json::{Map, Value};
use std::alloc::{AllocError, Global};
use std::fmt;

/// A span: a timed operation within a transaction.
///
/// On reading, an absent `span_id` or `trace_id` is drawn from the generator, and an absent
/// `start_timestamp` is the moment of reading.
///
/// <https://develop.sentry.dev/sdk/data-model/event-payloads/span/>
#[derive(Debug, Drop, PartialEq)]
pub struct Span {
    /// Span id: 16 hex digits.
    pub span_id: SpanId,
    /// Id of the trace that the span belongs to: 32 hex digits.
    pub trace_id: TraceId,
    /// Id of the parent span.
    pub parent_span_id: Option<SpanId>,
    /// Whether the parent span belongs to the same process.
    pub same_process_as_parent: Option<bool>,
    /// Operation, as a short code.
    pub op: Option<String>,
    /// Description of the operation, human-readable.
    pub description: Option<String>,
    /// End time: RFC 3339; null is rejected.
    pub timestamp: Option<Moment>,
    /// Start time: RFC 3339 or whole seconds.
    pub start_timestamp: Moment,
    /// Status of the span.
    pub status: Option<SpanStatus>,
    /// Searchable tags, by name.
    pub tags: Map<String, String>,
    /// Additional data, by name (member `data`).
    pub data_: Map<String, Value>,
}

impl Span {
    ghost use Rattle.std.specs.Prelude.{◌≡◌, IfOk};
    ghost use Rattle.sentry_tables.specs.Defaults.{IsDefaultAt};
    ghost use Rattle.sentry_moments.specs.Moments.{moment_cell};
    ghost use Rattle.sentry_event.specs.Spans.{DrawsIds, EndsAt, span_cell};

    /// Creates a span that starts at `now`, with a new span id and a new trace id, and no other
    /// fields set.
    ///
    /// The span id is drawn from `ids` first, then the trace id.
    pub fn new<R: Rng>(alloc: Global, now: Moment, ids: &mut R) -> Span
        ensures rows { IsDefaultAt (moment_cell now) span_fields result }
        ensures ids { DrawsIds result (R.stream ids.old) (R.stream ids.new) }
    {
        let span_id = <Own as Drawn<SpanId>>::random(ids);
        let trace_id = <Own as Drawn<TraceId>>::random(ids);
        Span {
            span_id,
            trace_id,
            parent_span_id: None,
            same_process_as_parent: None,
            op: None,
            description: None,
            timestamp: None,
            start_timestamp: now,
            status: None,
            tags: Map::new(alloc),
            data_: Map::new(alloc),
        }
    }

    /// Finishes the span at the current time: sets `timestamp` to `now`.
    pub fn finish(&mut self, now: Moment)
        ensures { EndsAt now self.old self.new }
    {
        self.timestamp = Some(now);
    }

    /// Finishes the span at a given time: sets `timestamp`.
    pub fn finish_with_timestamp(&mut self, timestamp: Moment)
        ensures { EndsAt timestamp self.old self.new }
    {
        self.timestamp = Some(timestamp);
    }

    /// Clones the span. `AllocError` if an allocation fails.
    pub fn clone(&self) -> Result<Span, AllocError>
        ensures { IfOk result (λ copy. span_cell copy ≡ span_cell self.now) }
    {
        self.copy()
    }
}

/// Formats the span id and the start time: `Span(id: 4c79f60c11214eb3, ts: 2017-12-24T08:12:00Z)`.
impl fmt::Display for Span {
    ghost use Rattle.std.specs.Prelude.{Some};
    ghost use Rattle.sentry_event.specs.Spans.{span_text};

    ghost output = { λ s. Some (span_text s) };

    fn fmt<W: fmt::Write>(&self, f: &mut fmt::Formatter<W>) -> fmt::Result {
        write!(
            f,
            "Span(id: {}, ts: {})",
            self.span_id, self.start_timestamp
        )
    }
}

impl Formed for Span {
    type Form = AsTable;
}

impl Table for Span {
    ghost lines = { span_fields };

    fn rows<S: Sink>(&self, to: &mut S) {
        to.map("data", &self.data_);
        to.optional("description", &self.description);
        to.optional("op", &self.op);
        to.optional("parent_span_id", &self.parent_span_id);
        to.optional("same_process_as_parent", &self.same_process_as_parent);
        to.drawn_as::<Own, SpanId>("span_id", &self.span_id);
        to.at_once_as::<Seconds, Moment>("start_timestamp", &self.start_timestamp);
        to.optional("status", &self.status);
        to.map("tags", &self.tags);
        to.optional_strict_as::<Rfc3339, Moment>("timestamp", &self.timestamp);
        to.drawn_as::<Own, TraceId>("trace_id", &self.trace_id);
    }

    ghost ordered = { span_in_order };
}

impl ReadTableAt for Span {
    fn read<S: Source, R: Rng>(from: &mut S, now: Moment, ids: &mut R) -> Span {
        Span {
            data_: from.map("data"),
            description: from.optional("description"),
            op: from.optional("op"),
            parent_span_id: from.optional("parent_span_id"),
            same_process_as_parent: from.optional("same_process_as_parent"),
            span_id: from.drawn_as::<Own, SpanId, R>("span_id", ids),
            start_timestamp: from.at_once_as::<Seconds>("start_timestamp", now),
            status: from.optional("status"),
            tags: from.map("tags"),
            timestamp: from.optional_strict_as::<Rfc3339, Moment>("timestamp"),
            trace_id: from.drawn_as::<Own, TraceId, R>("trace_id", ids),
        }
    }
}

impl CopyTable for Span {
    fn copy_rows(&self, copies: &mut Copier) -> Result<Span, AllocError> {
        Ok(Span {
            data_: copies.map(&self.data_)?,
            description: copies.optional(&self.description),
            op: copies.optional(&self.op),
            parent_span_id: copies.optional(&self.parent_span_id),
            same_process_as_parent: copies.optional(&self.same_process_as_parent),
            span_id: copies.plain(&self.span_id),
            start_timestamp: copies.plain_as::<Seconds, Moment>(&self.start_timestamp),
            status: copies.optional(&self.status),
            tags: copies.map(&self.tags)?,
            timestamp: copies.optional_strict_as::<Rfc3339, Moment>(&self.timestamp),
            trace_id: copies.plain(&self.trace_id),
        })
    }
}
