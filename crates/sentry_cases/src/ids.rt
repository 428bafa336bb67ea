//! Ids.

use crate::asked::said_of;
use crate::said::{as_tree, debug, list, owned, refused, shown, text};
use sentry_types::protocol::v7::{OrganizationId, SpanId, TraceId, Value};
use sentry_types::{CodeId, DebugId, ProjectId};
use std::alloc::{AllocError, Global};
use std::fmt;

// What an id of hexadecimal digits is printed as in three ways, and whether both readers give it.
fn said_hex<T: fmt::Display + fmt::Debug>(
    alloc: Global,
    id: &T,
    text: Result<String, AllocError>,
    same: bool,
) -> Result<Value, AllocError> {
    let fields = [
        shown(alloc, id),
        owned(text),
        debug(alloc, id),
        as_tree(same),
    ];
    list(alloc, fields)
}

fn of_span(alloc: Global, given: &str) -> Result<Value, AllocError> {
    match SpanId::try_from(String::from_str(alloc, given)?) {
        Ok(id) => said_hex(alloc, &id, id.to_text(alloc), given.parse() == Ok(id)),
        Err(error) => refused(alloc, &error),
    }
}

fn of_trace(alloc: Global, given: &str) -> Result<Value, AllocError> {
    match TraceId::try_from(String::from_str(alloc, given)?) {
        Ok(id) => said_hex(alloc, &id, id.to_text(alloc), given.parse() == Ok(id)),
        Err(error) => refused(alloc, &error),
    }
}

fn of_debug(alloc: Global, given: &str) -> Result<Value, AllocError> {
    match given.parse::<DebugId>() {
        Ok(id) => {
            let again = DebugId::from_parts(id.uuid(), id.appendix());
            let fields = [
                shown(alloc, &id.uuid()),
                as_tree(id.appendix()),
                shown(alloc, &id),
                as_tree(again == id),
            ];
            list(alloc, fields)
        }
        Err(error) => refused(alloc, &error),
    }
}

fn said_project(alloc: Global, id: &ProjectId) -> Result<Value, AllocError> {
    let copy = said_of(alloc, id.clone(), shown);
    list(alloc, [text(alloc, id.value()), copy])
}

fn of_organization(alloc: Global, given: &str) -> Result<Value, AllocError> {
    match given.parse::<OrganizationId>() {
        Ok(id) => list(alloc, [as_tree(id.value()), shown(alloc, &id)]),
        Err(error) => refused(alloc, &error),
    }
}

fn said_code(alloc: Global, id: &CodeId) -> Result<Value, AllocError> {
    let copy = said_of(
        alloc,
        id.clone(),
        |alloc: Global, copy: &CodeId| text(alloc, copy.as_str()),
    );
    list(alloc, [text(alloc, id.as_str()), copy])
}

/// What the text of an id is read as.
pub fn of_id(alloc: Global, name: &str, given: &str) -> Option<Result<Value, AllocError>> {
    Some(match name {
        "SpanId" => of_span(alloc, given),
        "TraceId" => of_trace(alloc, given),
        "DebugId" => of_debug(alloc, given),
        "ProjectId" => said_of(alloc, ProjectId::from_str(alloc, given), said_project),
        "ProjectId::new" => said_of(alloc, ProjectId::new(alloc, given), shown),
        "OrganizationId" => of_organization(alloc, given),
        "CodeId" => said_of(alloc, CodeId::new(alloc, given), said_code),
        _ => return None,
    })
}
