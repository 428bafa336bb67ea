//! Fields of headers of envelopes, as their getters give them.

use crate::asked::said_of;
use crate::said::{list, maybe, maybe_shown};
use sentry_types::protocol::v7::{
    DynamicSamplingContext, EnvelopeHeaders, Member, Value, read_line,
};
use std::alloc::{AllocError, Global};

// The tree of a field, or null.
fn tree_of<T: Member>(alloc: Global, found: Option<&T>) -> Result<Value, AllocError> {
    match found {
        Some(found) => found.to_tree(alloc),
        None => Ok(Value::Null),
    }
}

fn said_header(alloc: Global, header: &EnvelopeHeaders) -> Result<Value, AllocError> {
    let fields = [
        maybe_shown(alloc, header.event_id().copied()),
        tree_of(alloc, header.dsn()),
        tree_of(alloc, header.sdk()),
        maybe_shown(alloc, header.sent_at()),
        tree_of(alloc, header.trace()),
    ];
    list(alloc, fields)
}

fn said_sampling(alloc: Global, trace: &DynamicSamplingContext) -> Result<Value, AllocError> {
    let fields = [
        maybe_shown(alloc, trace.trace_id()),
        maybe(alloc, trace.public_key()),
        maybe_shown(alloc, trace.sample_rate()),
        maybe_shown(alloc, trace.sample_rand()),
        maybe_shown(alloc, trace.sampled()),
        maybe(alloc, trace.release()),
        maybe(alloc, trace.environment()),
        maybe(alloc, trace.transaction()),
        maybe_shown(alloc, trace.org_id()),
    ];
    list(alloc, fields)
}

/// The fields of the header, or of the sampling context, that a line shows.
pub fn of_fields(alloc: Global, name: &str, line: &[u8]) -> Option<Result<Value, AllocError>> {
    Some(match name {
        "EnvelopeHeaders" => said_of(alloc, read_line(alloc, line), said_header),
        "DynamicSamplingContext" => said_of(alloc, read_line(alloc, line), said_sampling),
        _ => return None,
    })
}
