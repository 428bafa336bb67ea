//! What headers, events and transactions tell, as names and texts.

use crate::survey::{any_moment, not_memory};
use rand_pcg::Pcg32;
use sentry_envelope::{Envelope, EnvelopeHeaders};
use sentry_event::{Event, Transaction};
use sentry_records::DynamicSamplingContext;
use std::alloc::{AllocError, Global};

/// A member of a JSON object that is shown as a text.
#[derive(Drop)]
pub struct Field {
    /// Key of the member.
    pub name: &'static str,
    /// Text of the value.
    pub value: String,
}

fn push_field(fields: &mut Vec<Field>, name: &'static str, value: &str) -> Result<(), AllocError> {
    let alloc = *fields.allocator();
    let value = String::from_str(alloc, value)?;
    fields.push(Field { name, value })?;
    Ok(())
}

fn push_optional(
    fields: &mut Vec<Field>,
    name: &'static str,
    value: Option<&str>,
) -> Result<(), AllocError> {
    match value {
        Some(value) => push_field(fields, name, value),
        None => Ok(()),
    }
}

fn push_trace(
    alloc: Global,
    fields: &mut Vec<Field>,
    trace: &DynamicSamplingContext,
) -> Result<(), AllocError> {
    if let Some(id) = trace.trace_id() {
        push_field(fields, "trace_id", &format!(in alloc; "{id}")?)?;
    }
    push_optional(fields, "transaction", trace.transaction())?;
    push_optional(fields, "release", trace.release())?;
    push_optional(fields, "environment", trace.environment())?;
    push_optional(fields, "public_key", trace.public_key())?;
    match trace.sampled() {
        Some(true) => push_field(fields, "sampled", "true"),
        Some(false) => push_field(fields, "sampled", "false"),
        None => Ok(()),
    }
}

fn push_headers(
    alloc: Global,
    fields: &mut Vec<Field>,
    headers: &EnvelopeHeaders,
) -> Result<(), AllocError> {
    if let Some(id) = headers.event_id() {
        push_field(fields, "event_id", &format!(in alloc; "{id}")?)?;
    }
    if let Some(dsn) = headers.dsn() {
        push_field(fields, "dsn", &format!(in alloc; "{dsn}")?)?;
    }
    if let Some(sdk) = headers.sdk() {
        let name = &sdk.name;
        let version = &sdk.version;
        push_field(fields, "sdk", &format!(in alloc; "{name} {version}")?)?;
    }
    if let Some(sent_at) = headers.sent_at() {
        push_field(fields, "sent_at", &format!(in alloc; "{sent_at}")?)?;
    }
    match headers.trace() {
        Some(trace) => push_trace(alloc, fields, trace),
        None => Ok(()),
    }
}

/// Returns the fields of a header line, which is read as an envelope without items; none if it is
/// refused.
///
/// # Errors
///
/// `AllocError` if an allocation fails, or if a URL would take 4 GB.
pub fn header_fields(alloc: Global, header_line: &[u8]) -> Result<Vec<Field>, AllocError> {
    let mut fields = Vec::new(alloc);
    match Envelope::from_slice(alloc, header_line, any_moment(), &mut Pcg32::new(0, 0)) {
        Ok(envelope) => push_headers(alloc, &mut fields, envelope.headers())?,
        Err(error) => not_memory(&error)?,
    }
    Ok(fields)
}

/// Returns what an event tells, but for its exceptions. `AllocError` if an allocation fails.
pub fn event_fields(alloc: Global, event: &Event<'_>) -> Result<Vec<Field>, AllocError> {
    let mut fields = Vec::new(alloc);
    push_field(&mut fields, "level", event.level.as_str())?;
    push_optional(&mut fields, "message", event.message.as_deref())?;
    if let Some(entry) = &event.logentry {
        push_field(&mut fields, "logentry", &entry.message)?;
    }
    push_optional(&mut fields, "transaction", event.transaction.as_deref())?;
    push_optional(&mut fields, "release", event.release.as_deref())?;
    push_optional(&mut fields, "environment", event.environment.as_deref())?;
    push_field(&mut fields, "platform", event.platform.as_str())?;
    Ok(fields)
}

/// Returns what a transaction tells, but for its spans. `AllocError` if an allocation fails.
pub fn transaction_fields(
    alloc: Global,
    transaction: &Transaction<'_>,
) -> Result<Vec<Field>, AllocError> {
    let mut fields = Vec::new(alloc);
    push_optional(&mut fields, "name", transaction.name.as_deref())?;
    push_optional(&mut fields, "release", transaction.release.as_deref())?;
    push_optional(
        &mut fields,
        "environment",
        transaction.environment.as_deref(),
    )?;
    Ok(fields)
}
