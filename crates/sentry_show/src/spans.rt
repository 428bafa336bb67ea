//! The spans of a transaction in time.

use crate::numbers::nanos_between;
use sentry_event::{Span, Transaction};
use sentry_identifiers::SpanId;
use sentry_moments::Moment;
use std::alloc::{AllocError, Global};

/// Most levels below the transaction that are told apart.
pub const LEVELS: usize = 8;

/// A time within that of a transaction, in nanoseconds.
#[derive(Clone, Copy)]
pub struct Interval {
    /// From the transaction's start.
    pub offset: u64,
    /// From its own start to its end.
    pub nanos: u64,
}

/// Returns the time of a transaction.
pub fn transaction_time(transaction: &Transaction<'_>) -> Interval {
    let start = transaction.start_timestamp;
    let end = transaction.timestamp.unwrap_or(start);
    Interval {
        offset: 0,
        nanos: nanos_between(start, end),
    }
}

/// Returns the time of a span of a transaction that starts at `start`.
pub fn span_time(start: Moment, span: &Span) -> Interval {
    let begin = span.start_timestamp;
    let end = span.timestamp.unwrap_or(begin);
    Interval {
        offset: nanos_between(start, begin),
        nanos: nanos_between(begin, end),
    }
}

/// Returns spans by their start. `AllocError` if an allocation fails.
pub fn by_start<'a>(alloc: Global, spans: &'a [Span]) -> Result<Vec<&'a Span>, AllocError> {
    let mut sorted = Vec::with_capacity(alloc, spans.len())?;
    for span in spans {
        sorted.push(span)?;
    }
    sorted.sort_by_key(|span| span.start_timestamp)?;
    Ok(sorted)
}

// The parent of the span of this id, if there is such a span.
fn parent_of(spans: &[Span], id: SpanId) -> Option<Option<SpanId>> {
    for span in spans {
        if span.span_id == id {
            return Some(span.parent_span_id);
        }
    }
    None
}

/// Returns how many levels a span stands below the transaction, from 1 to [`LEVELS`].
pub fn level_of(spans: &[Span], span: &Span) -> usize {
    let mut parent = span.parent_span_id;
    for level in 1..LEVELS {
        let Some(id) = parent else {
            return level;
        };
        let Some(above) = parent_of(spans, id) else {
            return level;
        };
        parent = above;
    }
    LEVELS
}
