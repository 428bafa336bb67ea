//! Metrics: measured or counted numbers.
#![tactic(auto, unfolding(crate::specs::Metrics::metric_fields))]

ghost use Rattle.sentry_records.specs.Metrics.{metric_fields, metric_in_order};

use crate::log_attribute::LogAttribute;
use crate::stand_in::epoch;
use sentry_identifiers::{SpanId, TraceId};
use sentry_moments::{Moment, Seconds};
use sentry_rows::{AsTable, Copier, CopyTable, ReadTable, Sink, Source, Table};
use sentry_tables::{Formed, Member};
use sentry_words::{MetricType, Unit};
use serde_json::Map;
use std::alloc::AllocError;
use std::borrow::CowStr;

/// A metric: a measured or counted number with searchable attributes.
///
/// <https://develop.sentry.dev/sdk/telemetry/metrics/>
#[derive(Debug, Drop, PartialEq)]
pub struct Metric {
    /// Metric type (`type`); required.
    pub type_: MetricType,
    /// Metric name, with parts separated by dots; required.
    pub name: CowStr<'static>,
    /// Measured or counted value; required.
    pub value: i64,
    /// Time of the measurement: RFC 3339 or whole seconds since 1970; required. Written as RFC 3339
    /// only if fractional.
    pub timestamp: Moment,
    /// Id of the trace that the metric belongs to; required.
    pub trace_id: TraceId,
    /// Id of the span that the metric belongs to.
    pub span_id: Option<SpanId>,
    /// Unit of the value.
    pub unit: Option<Unit>,
    /// Searchable attributes, by name; empty by default.
    pub attributes: Map<String, LogAttribute>,
}

impl Metric {
    ghost use Rattle.std.specs.Prelude.{◌≡◌, IfOk};
    ghost use Rattle.sentry_records.specs.Metrics.{metric_cell};

    /// Clones the metric. `AllocError` if an allocation fails.
    pub fn clone(&self) -> Result<Metric, AllocError>
        ensures { IfOk result (λ copy. metric_cell copy ≡ metric_cell self.now) }
    {
        self.copy()
    }
}

impl Formed for Metric {
    type Form = AsTable;
}

impl Table for Metric {
    ghost lines = { metric_fields };

    fn rows<S: Sink>(&self, to: &mut S) {
        to.map("attributes", &self.attributes);
        to.required("name", &self.name);
        to.optional("span_id", &self.span_id);
        to.required_as::<Seconds, Moment>("timestamp", &self.timestamp);
        to.required("trace_id", &self.trace_id);
        to.required("type", &self.type_);
        to.optional("unit", &self.unit);
        to.required("value", &self.value);
    }

    ghost ordered = { metric_in_order };
}

impl ReadTable for Metric {
    fn read<S: Source>(from: &mut S) -> Metric {
        Metric {
            attributes: from.map("attributes"),
            name: from.cow("name"),
            span_id: from.optional("span_id"),
            timestamp: from.required_as::<Seconds, Moment>("timestamp", epoch()),
            trace_id: from.required("trace_id", TraceId::from([0; 16])),
            type_: from.required("type", MetricType::Counter),
            unit: from.optional("unit"),
            value: from.required("value", 0),
        }
    }
}

impl CopyTable for Metric {
    fn copy_rows(&self, copies: &mut Copier) -> Result<Metric, AllocError> {
        Ok(Metric {
            attributes: copies.map(&self.attributes)?,
            name: copies.cow(&self.name),
            span_id: copies.optional(&self.span_id),
            timestamp: copies.plain_as::<Seconds, Moment>(&self.timestamp),
            trace_id: copies.plain(&self.trace_id),
            type_: copies.plain(&self.type_),
            unit: copies.optional(&self.unit),
            value: copies.plain(&self.value),
        })
    }
}
