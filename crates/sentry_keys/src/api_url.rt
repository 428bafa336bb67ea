//! URLs of a DSN's store and envelope endpoints.

ghost use Rattle.std.specs.Prelude.{◌≡◌, IfOk, MatchResult, None, Ok, Some, string_bytes};
ghost use Rattle.url.specs.Parser.{parse_url};
ghost use Rattle.sentry_keys.specs.Dsn.{dsn_parts, port_text};
ghost use Rattle.sentry_keys.specs.DsnApi as spec;
ghost use Rattle.sentry_keys.specs.declared.api_url.ApiUrlError.TheVariants.{Memory};

use crate::dsn::{Dsn, PortText};
use std::alloc::{AllocError, Global};
use thiserror::Error;
use url::{ParseError, Url};

/// An error of making the URL of an API endpoint.
#[derive(Debug, Drop, Error)]
pub enum ApiUrlError {
    /// The text of the endpoint is no URL.
    #[error("NotAUrl")]
    NotAUrl,
    /// An allocation failed, or the URL would take 4 GB.
    #[error("out of memory")]
    Memory,
}

impl From<AllocError> for ApiUrlError {
    ghost from_gives = { λ _ e. e ≡ Memory };

    fn from(_error: AllocError) -> ApiUrlError {
        ApiUrlError::Memory
    }
}

fn parse(alloc: Global, text: &str) -> Result<Url, ApiUrlError>
    ensures { MatchResult result (λ url.
        parse_url None text.now ≡ Ok url) (spec.IsApiRefusal text.now) }
{
    match Url::parse(alloc, text) {
        Ok(url) => Ok(url),
        Err(ParseError::OutOfMemory | ParseError::Overflow) => Err(ApiUrlError::Memory),
        Err(_) => Err(ApiUrlError::NotAUrl),
    }
}

impl Dsn {
    // Returns the port of an endpoint's URL; `None` if the port is the scheme's default.
    fn api_port(&self) -> PortText
        ensures { port_text result.0 ≡ spec.api_port_text (dsn_parts self.now) }
    {
        let port = self.port();
        if port == self.scheme().default_port() {
            PortText(None)
        } else {
            PortText(Some(port))
        }
    }

    /// Returns the text of the store endpoint's URL, which accepts single events:
    /// `SCHEME://HOST:PORT/PATH/api/PROJECT_ID/store/`. `:PORT` is omitted if the port is the
    /// scheme's default, and `/PATH` if the DSN's path is `/`.
    ///
    /// # Errors
    ///
    /// `AllocError` if an allocation fails.
    pub fn store_api_url_text(&self, alloc: Global) -> Result<String, AllocError>
        ensures { IfOk result (λ s. string_bytes s ≡ spec.store_url (dsn_parts self.now)) }
    {
        let (scheme, host, port) = (self.scheme(), self.host(), self.api_port());
        let (path, project) = (self.path(), self.project_id());
        format!(in alloc; "{scheme}://{host}{port}{path}api/{project}/store/")
    }

    /// Returns the text of the envelope endpoint's URL:
    /// `SCHEME://HOST:PORT/PATH/api/PROJECT_ID/envelope/`. `:PORT` is omitted if the port is the
    /// scheme's default, and `/PATH` if the DSN's path is `/`.
    ///
    /// # Errors
    ///
    /// `AllocError` if an allocation fails.
    pub fn envelope_api_url_text(&self, alloc: Global) -> Result<String, AllocError>
        ensures { IfOk result (λ s. string_bytes s ≡ spec.envelope_url (dsn_parts self.now)) }
    {
        let (scheme, host, port) = (self.scheme(), self.host(), self.api_port());
        let (path, project) = (self.path(), self.project_id());
        format!(in alloc; "{scheme}://{host}{port}{path}api/{project}/envelope/")
    }

    /// Returns the URL of the store endpoint, by parsing [`Dsn::store_api_url_text`].
    ///
    /// # Errors
    ///
    /// - `NotAUrl` if the text is no URL.
    /// - `Memory` if an allocation fails, or if the URL would take 4 GB.
    pub fn store_api_url(&self, alloc: Global) -> Result<Url, ApiUrlError>
        ensures { MatchResult result
            (λ url. parse_url None (spec.store_url (dsn_parts self.now)) ≡ Ok url)
            (spec.IsApiRefusal (spec.store_url (dsn_parts self.now))) }
    {
        parse(alloc, self.store_api_url_text(alloc)?.as_str())
    }

    /// Returns the URL of the envelope endpoint, by parsing [`Dsn::envelope_api_url_text`].
    ///
    /// # Errors
    ///
    /// - `NotAUrl` if the text is no URL.
    /// - `Memory` if an allocation fails, or if the URL would take 4 GB.
    pub fn envelope_api_url(&self, alloc: Global) -> Result<Url, ApiUrlError>
        ensures { MatchResult result
            (λ url. parse_url None (spec.envelope_url (dsn_parts self.now)) ≡ Ok url)
            (spec.IsApiRefusal (spec.envelope_url (dsn_parts self.now))) }
    {
        parse(alloc, self.envelope_api_url_text(alloc)?.as_str())
    }
}
