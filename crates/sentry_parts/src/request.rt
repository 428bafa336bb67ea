//! HTTP requests.
#![tactic(auto, unfolding(crate::specs::Requests::request_fields))]

ghost use Rattle.sentry_parts.specs.Requests.{request_fields, request_in_order};

use sentry_rows::{AsTable, Copier, CopyTable, ReadTable, Sink, Source, Table};
use sentry_tables::{Formed, Member};
use sentry_text::UrlText;
use serde_json::Map;
use std::alloc::{AllocError, Global};
use url::Url;

/// The HTTP request during which an event occurred.
///
/// <https://develop.sentry.dev/sdk/data-model/event-payloads/request/>
#[derive(Debug, Drop, PartialEq)]
pub struct Request {
    /// Request URL: a string that the URL Standard's parser accepts without a base URL.
    pub url: Option<Url>,
    /// HTTP method, such as `GET`.
    pub method: Option<String>,
    /// Submitted data, human-readable (member `data`).
    pub data_: Option<String>,
    /// Query string, encoded.
    pub query_string: Option<String>,
    /// Cookies, encoded.
    pub cookies: Option<String>,
    /// HTTP headers, by name.
    pub headers: Map<String, String>,
    /// Environment variables of the server, by name, as in CGI.
    pub env: Map<String, String>,
}

impl Request {
    ghost use Rattle.std.specs.Prelude.{◌≡◌, IfOk};
    ghost use Rattle.sentry_tables.specs.Defaults.{IsDefault};
    ghost use Rattle.sentry_parts.specs.Requests.{request_cell};

    /// Creates a request with no fields set.
    pub fn default_in(alloc: Global) -> Request
        ensures { IsDefault request_fields result }
    {
        Request {
            url: None,
            method: None,
            data_: None,
            query_string: None,
            cookies: None,
            headers: Map::new(alloc),
            env: Map::new(alloc),
        }
    }

    /// Clones the request. `AllocError` if an allocation fails.
    pub fn clone(&self) -> Result<Request, AllocError>
        ensures { IfOk result (λ copy. request_cell copy ≡ request_cell self.now) }
    {
        self.copy()
    }
}

impl Formed for Request {
    type Form = AsTable;
}

impl Table for Request {
    ghost lines = { request_fields };

    fn rows<S: Sink>(&self, to: &mut S) {
        to.optional("cookies", &self.cookies);
        to.optional("data", &self.data_);
        to.map("env", &self.env);
        to.map("headers", &self.headers);
        to.optional("method", &self.method);
        to.optional("query_string", &self.query_string);
        to.optional_as::<UrlText, Url>("url", &self.url);
    }

    ghost ordered = { request_in_order };
}

impl ReadTable for Request {
    fn read<S: Source>(from: &mut S) -> Request {
        Request {
            cookies: from.optional("cookies"),
            data_: from.optional("data"),
            env: from.map("env"),
            headers: from.map("headers"),
            method: from.optional("method"),
            query_string: from.optional("query_string"),
            url: from.optional_as::<UrlText, Url>("url"),
        }
    }
}

impl CopyTable for Request {
    fn copy_rows(&self, copies: &mut Copier) -> Result<Request, AllocError> {
        Ok(Request {
            cookies: copies.optional(&self.cookies),
            data_: copies.optional(&self.data_),
            env: copies.map(&self.env)?,
            headers: copies.map(&self.headers)?,
            method: copies.optional(&self.method),
            query_string: copies.optional(&self.query_string),
            url: copies.optional_as::<UrlText, Url>(&self.url),
        })
    }
}
