//! DSNs.

use crate::asked::{is_same, said_of};
use crate::said::{as_tree, list, maybe, owned, shown, text};
use sentry_types::Dsn;
use sentry_types::protocol::v7::{Moment, OrganizationId, Url, Value};
use std::alloc::{AllocError, Global};

fn said_url(alloc: Global, url: &Url) -> Result<Value, AllocError> {
    text(alloc, url.as_str())
}

fn said_organization(found: Option<OrganizationId>) -> Result<Value, AllocError> {
    match found {
        Some(id) => as_tree(id.value()),
        None => Ok(Value::Null),
    }
}

fn parts(alloc: Global, dsn: &Dsn) -> Result<Value, AllocError> {
    list(
        alloc,
        [
            shown(alloc, &dsn.scheme()),
            text(alloc, dsn.public_key()),
            maybe(alloc, dsn.secret_key()),
            text(alloc, dsn.host()),
            as_tree(dsn.port()),
            text(alloc, dsn.path()),
            text(alloc, dsn.project_id().value()),
            said_organization(dsn.org_id()),
        ],
    )
}

fn destinations(alloc: Global, dsn: &Dsn) -> Result<Value, AllocError> {
    list(
        alloc,
        [
            owned(dsn.store_api_url_text(alloc)),
            said_of(alloc, dsn.store_api_url(alloc), said_url),
            owned(dsn.envelope_api_url_text(alloc)),
            said_of(alloc, dsn.envelope_api_url(alloc), said_url),
        ],
    )
}

// The authentication of a DSN at second 5 by a client.
fn authentication(alloc: Global, dsn: &Dsn) -> Result<Value, AllocError> {
    let now = Moment::new(5, 0).unwrap();
    said_of(
        alloc,
        dsn.to_auth(alloc, now, Some("sentry-rust/1.0")),
        shown,
    )
}

// Whether a DSN is its copy, and what its text is read as.
fn is_read_back(alloc: Global, dsn: &Dsn) -> Result<bool, AllocError> {
    let text = dsn.to_string(alloc)?;
    Ok(is_same(Dsn::from_str(alloc, text.as_str()), dsn) && is_same(dsn.clone(), dsn))
}

/// The text, the parts, the API URLs and the authentication of a DSN, if it is read back.
pub fn said_dsn(alloc: Global, dsn: &Dsn) -> Result<Value, AllocError> {
    if !is_read_back(alloc, dsn)? {
        return text(alloc, "not read back");
    }
    list(
        alloc,
        [
            shown(alloc, dsn),
            parts(alloc, dsn),
            destinations(alloc, dsn),
            authentication(alloc, dsn),
        ],
    )
}

/// The port of the DSN's scheme.
pub fn said_default_port(_alloc: Global, dsn: &Dsn) -> Result<Value, AllocError> {
    as_tree(dsn.scheme().default_port())
}
