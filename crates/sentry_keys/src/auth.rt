//! Client authentication: the `X-Sentry-Auth` header, or the query string of a URL.
//!
//! <https://develop.sentry.dev/sdk/overview/#authentication>

ghost use Rattle.std.specs.Prelude.{◌≡◌, ◌⊎◌, ◌==◌, ◌<◌, ◌++◌, ◌∷◌, [], ℕ, List, Some, map, option_map, is_some, not, IfOk, IfErr, IfSome, OnOk};
ghost use Rattle.std.specs.List.{before_first};
ghost use Rattle.form_urlencoded.specs.Form.{pair_text};
ghost use Rattle.sentry_keys.specs.Auth.{Pair, parts_of, time_of, IsVersion, HasNoVersion, Tell, ReadsPairs, version_key};
ghost use Rattle.sentry_keys.specs.AuthText.{item_pair, list_pairs, query_pairs, ReadsHeader, part_text, auth_text, time_text};
ghost use Rattle.sentry_keys.specs.declared.auth.ParseAuthError.TheVariants.{InvalidVersion, Memory};

mod tree;

use form_urlencoded::parse;
use sentry_moments::{Decimal, Moment};
use std::alloc::{AllocError, Global};
use std::fmt;
use thiserror::Error;

/// The latest protocol version.
pub const LATEST: u16 = 7;

/// An error of parsing client authentication.
#[derive(Clone, Copy, Debug, PartialEq, Eq, Error)]
pub enum ParseAuthError {
    /// The header doesn't begin with the word `sentry`, in any ASCII case.
    #[error("non sentry auth")]
    NonSentryAuth,
    /// A `sentry_version` isn't a whole number of 16 bits.
    #[error("invalid value for version")]
    InvalidVersion,
    /// The public key (`sentry_key`) is absent or empty.
    #[error("missing public key in auth header")]
    MissingPublicKey,
    /// An allocation failed.
    #[error("out of memory")]
    Memory,
}

impl From<AllocError> for ParseAuthError {
    ghost from_gives = { λ _ e. e ≡ Memory };

    fn from(_e: AllocError) -> ParseAuthError {
        ParseAuthError::Memory
    }
}

/// Client authentication: the public key and the protocol version, with an optional secret key,
/// client name and version, and timestamp.
///
/// Parsed from an `X-Sentry-Auth` header or a query string, and printed as the header's value:
///
/// ```text
/// Sentry sentry_key=b70a31b3510c4cf793964a185cfe1fd0, sentry_version=7, sentry_client=my-sdk/1.0
/// ```
///
/// The JSON form is an object of `sentry_client`, `sentry_key`, `sentry_secret` and
/// `sentry_version`, without the timestamp.
#[derive(Debug, Drop)]
pub struct Auth {
    pub(crate) timestamp: Option<Moment>,
    pub(crate) client: Option<String>,
    pub(crate) version: u16,
    pub(crate) key: String,
    pub(crate) secret: Option<String>,
}

// Returns the text before the first `at`; the whole text if absent.
fn before(text: &str, at: char) -> &str
    requires { at < 128 }
    ensures { result.now ≡ before_first (λ b. b == at) text.now }
{
    text.split_once(at).map_or(text, |(front, _)| front)
}

// Parses the number before the first `.`.
fn read_version(text: &str) -> Option<u16>
    ensures found { IfSome result (IsVersion text.now) }
    ensures only { (n : ℕ) → IsVersion text.now n → result ≡ Some n }
{
    before(text, '.').parse::<u16>().ok()
}

// Splits an item into key and value, trimmed; a second `=` ends the value.
fn item_pair(item: &str) -> Option<(&str, &str)>
    ensures { option_map pair_text result ≡ item_pair item.now }
{
    let (key, rest) = item.split_once('=')?;
    Some((key.trim(), before(rest, '=').trim()))
}

impl Auth {
    // Returns the defaults, which an empty list of pairs gives: no key, version `LATEST`.
    fn untold(alloc: Global) -> Auth
        ensures { Tell [] (parts_of result) }
    {
        Auth {
            timestamp: None,
            client: None,
            version: LATEST,
            key: String::new(alloc),
            secret: None,
        }
    }

    // Applies one more pair, which replaces an earlier pair of its key; ignores an unknown key.
    fn tell(&mut self, alloc: Global, key: &str, value: &str) -> Result<(), ParseAuthError>
        ensures ok { OnOk result ((pairs : List Pair) → Tell pairs (parts_of self.old) →
            Tell (pairs ++ (key.now, value.now) ∷ []) (parts_of self.new)) }
        ensures err { IfErr result (λ e. (e ≡ Memory)
            ⊎ ((e ≡ InvalidVersion) × (key.now ≡ version_key) × HasNoVersion value.now)) }
    {
        match key {
            "sentry_timestamp" => {
                let moment = Moment::from_decimal(value);
                self.timestamp = moment;
            }
            "sentry_client" => self.client = Some(String::from_str(alloc, value)?),
            "sentry_version" => {
                self.version = read_version(value).ok_or(ParseAuthError::InvalidVersion)?;
            }
            "sentry_key" => self.key = String::from_str(alloc, value)?,
            "sentry_secret" => self.secret = Some(String::from_str(alloc, value)?),
            _ => {}
        }
        Ok(())
    }

    // Checks that the public key isn't empty.
    fn with_key(self) -> Result<Auth, ParseAuthError>
        ensures { (pairs : List Pair) → Tell pairs (parts_of self) → ReadsPairs pairs result }
    {
        if self.key.is_empty() {
            return Err(ParseAuthError::MissingPublicKey);
        }
        Ok(self)
    }

    /// Parses pairs of a key and a value.
    ///
    /// The keys are `sentry_key`, `sentry_version`, `sentry_timestamp`, `sentry_client` and
    /// `sentry_secret`; the last pair of a key counts, and other keys are ignored.
    ///
    /// - `sentry_version`: a whole number of 16 bits; a `.` and the text after it are ignored.
    ///   Defaults to 7.
    /// - `sentry_timestamp`: a decimal of seconds since 1970-01-01T00:00:00Z. The timestamp is
    ///   `None` if the last one isn't the decimal text of a [`Moment`].
    ///
    /// # Errors
    ///
    /// - [`ParseAuthError::InvalidVersion`] if a `sentry_version` isn't a whole number of 16 bits,
    ///   also if a later pair replaces the version.
    /// - [`ParseAuthError::MissingPublicKey`] if `sentry_key` is absent or empty.
    /// - [`ParseAuthError::Memory`] if an allocation fails.
    pub fn from_pairs(alloc: Global, pairs: &[(&str, &str)]) -> Result<Auth, ParseAuthError>
        ensures { ReadsPairs (map pair_text pairs.now) result }
    {
        let mut auth = Auth::untold(alloc);
        for (key, value) in pairs {
            auth.tell(alloc, key, value)?;
        }
        auth.with_key()
    }

    /// Parses the query string of a URL (`application/x-www-form-urlencoded`).
    ///
    /// The keys and values are those of [`Auth::from_pairs`].
    ///
    /// <https://url.spec.whatwg.org/#urlencoded-parsing>
    ///
    /// # Errors
    ///
    /// The errors of [`Auth::from_pairs`].
    pub fn from_querystring(alloc: Global, query: &[u8]) -> Result<Auth, ParseAuthError>
        ensures { ReadsPairs (query_pairs query.now) result }
    {
        let mut auth = Auth::untold(alloc);
        for pair in parse(alloc, query) {
            let (key, value) = pair?;
            auth.tell(alloc, key.as_str(), value.as_str())?;
        }
        auth.with_key()
    }

    /// Parses the value of an `X-Sentry-Auth` header.
    ///
    /// The header is the word `sentry` in any ASCII case, a space, and items separated by commas.
    /// An item is a key, `=` and a value; white space around the key and the value is trimmed, and
    /// a second `=` ends the value. An item without `=` is ignored. The keys and values are those
    /// of [`Auth::from_pairs`].
    ///
    /// # Errors
    ///
    /// - [`ParseAuthError::NonSentryAuth`] if the text before the first space isn't `sentry`.
    /// - Otherwise the errors of [`Auth::from_pairs`].
    pub fn from_str(alloc: Global, text: &str) -> Result<Auth, ParseAuthError>
        ensures { ReadsHeader text.now result }
    {
        let (word, items) = text.split_once(' ').unwrap_or((text, ""));
        if !word.eq_ignore_ascii_case("sentry") {
            return Err(ParseAuthError::NonSentryAuth);
        }
        Auth::from_items(alloc, items)
    }

    // Parses the comma-separated items of a header.
    fn from_items(alloc: Global, items: &str) -> Result<Auth, ParseAuthError>
        ensures { ReadsPairs (list_pairs items.now) result }
    {
        let mut auth = Auth::untold(alloc);
        for item in items.split(',') {
            if let Some((key, value)) = item_pair(item) {
                auth.tell(alloc, key, value)?;
            }
        }
        auth.with_key()
    }

    /// Returns the client's timestamp, if given.
    pub fn timestamp(&self) -> Option<Moment>
        ensures { option_map time_of result ≡ (parts_of self.now).timestamp }
    {
        self.timestamp
    }

    /// Returns the protocol version of the client.
    pub fn version(&self) -> u16
        ensures { result ≡ (parts_of self.now).version }
    {
        self.version
    }

    /// Returns the public key.
    pub fn public_key(&self) -> &str
        ensures { result.now ≡ (parts_of self.now).key }
    {
        self.key.as_str()
    }

    /// Returns the secret key, if given.
    pub fn secret_key(&self) -> Option<&str>
        ensures { option_map (λ text. text.now) result ≡ (parts_of self.now).secret }
    {
        self.secret.as_deref()
    }

    /// Returns whether the secret key is absent.
    pub fn is_public(&self) -> bool
        ensures { result ≡ not (is_some (parts_of self.now).secret) }
    {
        self.secret.is_none()
    }

    /// Returns the client's name and version, if given.
    pub fn client_agent(&self) -> Option<&str>
        ensures { option_map (λ text. text.now) result ≡ (parts_of self.now).client }
    {
        self.client.as_deref()
    }

    /// Clones the authentication. `AllocError` if an allocation fails.
    pub fn clone(&self) -> Result<Auth, AllocError>
        ensures { IfOk result (λ auth. parts_of auth ≡ parts_of self.now) }
    {
        Ok(Auth {
            timestamp: self.timestamp,
            client: self.client.clone()?,
            version: self.version,
            key: self.key.clone()?,
            secret: self.secret.clone()?,
        })
    }
}

// The `sentry_timestamp` item of a printed header; `None` prints nothing.
#[derive(Drop)]
struct TimePart {
    moment: Option<Moment>,
}

impl fmt::Display for TimePart {
    ghost use Rattle.sentry_keys.specs.Auth.{timestamp_key};

    ghost output = { λ p.
        Some (part_text timestamp_key (option_map (λ m. time_text (time_of m)) p.moment)) };

    fn fmt<W: fmt::Write>(&self, f: &mut fmt::Formatter<W>) -> fmt::Result {
        let Some(moment) = self.moment else {
            return Ok(());
        };
        let seconds = Decimal {
            whole: moment.secs(),
            billionths: moment.nanos(),
        };
        write!(f, ", sentry_timestamp={seconds}")
    }
}

// A text item of a printed header; `None` prints nothing.
#[derive(Drop)]
struct TextPart<'a> {
    name: &'a str,
    text: Option<&'a str>,
}

impl fmt::Display for TextPart<'_> {
    ghost output = { λ p. Some (part_text p.name.now (option_map (λ t. t.now) p.text)) };

    fn fmt<W: fmt::Write>(&self, f: &mut fmt::Formatter<W>) -> fmt::Result {
        let Some(text) = self.text else {
            return Ok(());
        };
        let name = self.name;
        write!(f, ", {name}={text}")
    }
}

impl fmt::Display for Auth {
    ghost output = { λ auth. Some (auth_text (parts_of auth)) };

    fn fmt<W: fmt::Write>(&self, f: &mut fmt::Formatter<W>) -> fmt::Result {
        let (key, version) = (self.public_key(), self.version());
        let timestamp = TimePart {
            moment: self.timestamp(),
        };
        let client = TextPart {
            name: "sentry_client",
            text: self.client_agent(),
        };
        let secret = TextPart {
            name: "sentry_secret",
            text: self.secret_key(),
        };
        write!(
            f,
            "Sentry sentry_key={key}, sentry_version={version}{timestamp}{client}{secret}"
        )
    }
}
