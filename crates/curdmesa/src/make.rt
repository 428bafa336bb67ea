//! The command `make`.

use sentry_json::Writer;
use serde_json::Value;
use std::alloc::{AllocError, Global};

/// The item header of an event.
pub const EVENT: &[u8] = b"{\"type\":\"event\"}";

// Returns the `event_id` of an event, if it is JSON and states one as a string.
fn stated_id(alloc: Global, event: &[u8]) -> Result<Option<String>, AllocError> {
    let event = match Value::from_slice(alloc, event) {
        Ok(event) => event,
        Err(error) if error.is_memory() => return Err(AllocError),
        Err(_) => return Ok(None),
    };
    match event.get("event_id").and_then(Value::as_str) {
        Some(id) => Ok(Some(String::from_str(alloc, id)?)),
        None => Ok(None),
    }
}

/// Returns the header line of an envelope of an event: with the event's id, or without one if the
/// event is no JSON or states none. `AllocError` if an allocation fails.
pub fn header_line(alloc: Global, event: &[u8]) -> Result<Vec<u8>, AllocError> {
    let id = stated_id(alloc, event)?;
    let mut out = Writer::new(Vec::new(alloc));
    out.begin_object()?;
    if let Some(id) = &id {
        out.key("event_id")?;
        out.string(id)?;
    }
    out.end_object()?;
    Ok(out.into_inner())
}

// The name of a file, without its folder.
fn file_name(path: &str) -> &str {
    match path.rsplit_once('/') {
        Some((_, name)) => name,
        None => path,
    }
}

/// Returns the item header of an attachment with the name of this file. `AllocError` if an
/// allocation fails.
pub fn attachment_header(alloc: Global, path: &str) -> Result<Vec<u8>, AllocError> {
    let mut out = Writer::new(Vec::new(alloc));
    out.begin_object()?;
    out.key("type")?;
    out.string("attachment")?;
    out.key("filename")?;
    out.string(file_name(path))?;
    out.end_object()?;
    Ok(out.into_inner())
}
