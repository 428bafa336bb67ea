//! Response contexts: HTTP responses.
#![tactic(auto, unfolding(crate::specs::Responses::response_fields))]

ghost use Rattle.sentry_contexts.specs.Responses.{response_fields, response_in_order};

use sentry_rows::{AsTable, Copier, CopyTable, ReadTable, Sink, Source, Table};
use sentry_tables::{Formed, Member};
use serde_json::{Map, Value};
use std::alloc::{AllocError, Global};

/// An HTTP response.
///
/// <https://develop.sentry.dev/sdk/data-model/event-payloads/contexts/#response-context>
#[derive(Debug, Drop, PartialEq)]
pub struct ResponseContext {
    /// Cookies, unparsed.
    pub cookies: Option<String>,
    /// Headers, by name; a repeated header is merged as HTTP merges headers.
    pub headers: Map<String, String>,
    /// HTTP status code.
    pub status_code: Option<u64>,
    /// Body size in bytes.
    pub body_size: Option<u64>,
    /// Body, in any JSON form (member `data`). A null body is written as null and reads back as
    /// `None`.
    pub data_: Option<Value>,
}

impl ResponseContext {
    ghost use Rattle.std.specs.Prelude.{◌≡◌, IfOk};
    ghost use Rattle.sentry_tables.specs.Defaults.{IsDefault};
    ghost use Rattle.sentry_contexts.specs.Responses.{response_cell};

    /// Creates a response context with no fields set.
    pub fn default_in(alloc: Global) -> ResponseContext
        ensures { IsDefault response_fields result }
    {
        ResponseContext {
            cookies: None,
            headers: Map::new(alloc),
            status_code: None,
            body_size: None,
            data_: None,
        }
    }

    /// Clones the response context. `AllocError` if an allocation fails.
    pub fn clone(&self) -> Result<ResponseContext, AllocError>
        ensures { IfOk result (λ copy. response_cell copy ≡ response_cell self.now) }
    {
        self.copy()
    }
}

impl Formed for ResponseContext {
    type Form = AsTable;
}

impl Table for ResponseContext {
    ghost lines = { response_fields };

    fn rows<S: Sink>(&self, to: &mut S) {
        to.optional("body_size", &self.body_size);
        to.optional("cookies", &self.cookies);
        to.optional("data", &self.data_);
        to.map("headers", &self.headers);
        to.optional("status_code", &self.status_code);
    }

    ghost ordered = { response_in_order };
}

impl ReadTable for ResponseContext {
    fn read<S: Source>(from: &mut S) -> ResponseContext {
        ResponseContext {
            body_size: from.optional("body_size"),
            cookies: from.optional("cookies"),
            data_: from.optional("data"),
            headers: from.map("headers"),
            status_code: from.optional("status_code"),
        }
    }
}

impl CopyTable for ResponseContext {
    fn copy_rows(&self, copies: &mut Copier) -> Result<ResponseContext, AllocError> {
        Ok(ResponseContext {
            body_size: copies.optional(&self.body_size),
            cookies: copies.optional(&self.cookies),
            data_: copies.optional(&self.data_),
            headers: copies.map(&self.headers)?,
            status_code: copies.optional(&self.status_code),
        })
    }
}
