//! Client authentication in a query string, and what a client makes of its DSN.

ghost use Rattle.std.specs.Prelude.{◌≡◌, ◌≢◌, ◌⊎◌, IfOk, option_copied, string_bytes};
ghost use Rattle.std.specs.Str.{IsUtf8};
ghost use Rattle.sentry_moments.specs.Rfc3339.{IsMomentTime};
ghost use Rattle.sentry_keys.specs.Auth.{IsAuth};
ghost use Rattle.sentry_keys.specs.AuthText.{auth_text, query_pairs};
ghost use Rattle.sentry_keys.specs.Dsn.{dsn_parts};
ghost use Rattle.sentry_keys.specs.DsnAuth.{auth_of};
ghost use Rattle.sentry_c.specs.Output.{IsTooLong, Puts};
ghost use Rattle.sentry_c.specs.Statuses.{IsDsnRefusal, IsQueryRefusal};
ghost use Rattle.sentry_c.specs.Texts.{IsAuthAt, IsAuthPrinted, IsClientAuth, IsEnvelopeUrl, agent_in};

use crate::output::deliver;
use crate::status::{
    NO_MOMENT, NO_ROOM, NOT_UTF8, OK, OUT_OF_MEMORY, status_of_auth_error, status_of_dsn_error,
};
use crate::texts::{CurdmesaAuth, parts_of_auth};
use sentry_types::protocol::v7::Moment;
use sentry_types::{Auth, Dsn};
use std::alloc::{AllocError, Global};
use std::str;

/// Parses client authentication in the query string of a URL, writes its printed form to `out`, and
/// tells its parts.
///
/// # Returns
///
/// - `OK` if the text was written; `needed` is its length, and `parts` is set.
/// - `NO_ROOM` if the text is longer than `out`; `needed` is its length.
/// - The status of the error of `Auth::from_querystring` if the query string is refused;
///   `OUT_OF_MEMORY`, which is one of them, if an allocation fails.
#[unsafe(no_mangle)]
pub extern "C" fn curdmesa_auth_from_query(
    alloc: Global,
    query: &[u8],
    out: &mut [u8],
    needed: &mut u64,
    parts: &mut CurdmesaAuth,
) -> i32
    ensures written { result ≡ OK →
        Puts (IsAuthAt (IsAuth (query_pairs query.now)) parts.new) out.old out.new needed.new }
    ensures no_room { result ≡ NO_ROOM →
        IsTooLong (IsAuthPrinted (IsAuth (query_pairs query.now))) out.old needed.new }
    ensures unchanged { result ≢ OK → out.new ≡ out.old }
    ensures parts_unchanged { result ≢ OK → parts.new ≡ parts.old }
    ensures no_text { result ≢ OK → result ≢ NO_ROOM → needed.new ≡ 0 }
    ensures answers { (result ≡ OK) ⊎ ((result ≡ NO_ROOM) ⊎ IsQueryRefusal query.now result) }
{
    *needed = 0;
    let auth = match Auth::from_querystring(alloc, query) {
        Ok(auth) => auth,
        Err(error) => return status_of_auth_error(&error),
    };
    let Ok(printed) = auth.to_string(alloc) else {
        return OUT_OF_MEMORY;
    };
    if !deliver(printed.as_bytes(), out, needed) {
        return NO_ROOM;
    }
    *parts = parts_of_auth(&auth, printed.len());
    OK
}

/// Parses a DSN, and writes the URL of its envelope endpoint to `out`.
///
/// # Returns
///
/// - `OK` if the URL was written; `needed` is its length.
/// - `NO_ROOM` if the URL is longer than `out`; `needed` is its length.
/// - `NOT_UTF8` if the bytes aren't UTF-8.
/// - The status of the error of `Dsn::from_str` if the text is refused;
///   `OUT_OF_MEMORY`, which is one of them, if an allocation fails.
#[unsafe(no_mangle)]
pub extern "C" fn curdmesa_dsn_envelope_url(
    alloc: Global,
    text: &[u8],
    out: &mut [u8],
    needed: &mut u64,
) -> i32
    ensures written { result ≡ OK → Puts (IsEnvelopeUrl text.now) out.old out.new needed.new }
    ensures no_room { result ≡ NO_ROOM → IsTooLong (IsEnvelopeUrl text.now) out.old needed.new }
    ensures not_utf8 { result ≡ NOT_UTF8 → ¬ IsUtf8 text.now }
    ensures utf8 { result ≢ NOT_UTF8 → IsUtf8 text.now }
    ensures unchanged { result ≢ OK → out.new ≡ out.old }
    ensures no_text { result ≢ OK → result ≢ NO_ROOM → needed.new ≡ 0 }
    ensures answers { (result ≡ OK) ⊎ ((result ≡ NO_ROOM) ⊎ ((result ≡ NOT_UTF8) ⊎
        IsDsnRefusal text.now result)) }
{
    *needed = 0;
    let Ok(text) = str::from_utf8(text) else {
        return NOT_UTF8;
    };
    let dsn = match Dsn::from_str(alloc, text) {
        Ok(dsn) => dsn,
        Err(error) => return status_of_dsn_error(&error),
    };
    match dsn.envelope_api_url_text(alloc) {
        Ok(url) if deliver(url.as_bytes(), out, needed) => OK,
        Ok(_) => NO_ROOM,
        Err(_) => OUT_OF_MEMORY,
    }
}

// Returns the client's name and version; `None` for an empty text.
fn agent_of(client: &str) -> Option<&str>
    ensures { option_copied result ≡ agent_in client.now }
{
    if client.len() == 0 {
        None
    } else {
        Some(client)
    }
}

fn client_auth(alloc: Global, dsn: &Dsn, now: Moment, client: &str) -> Result<String, AllocError>
    ensures { IfOk result (λ text. string_bytes text
        ≡ auth_text (auth_of (dsn_parts dsn.now) now (agent_in client.now))) }
{
    let auth = dsn.to_auth(alloc, now, agent_of(client))?;
    Ok(auth.to_string(alloc)?)
}

/// Parses a DSN, and writes a client's `X-Sentry-Auth` header to `out`: the DSN's keys, the latest
/// protocol version, the timestamp `now`, and the client's name and version unless they are empty.
///
/// # Returns
///
/// - `OK` if the header was written; `needed` is its length.
/// - `NO_ROOM` if the header is longer than `out`; `needed` is its length.
/// - `NO_MOMENT` if the seconds and nanoseconds are no moment.
/// - `NOT_UTF8` if the bytes of the DSN or the client aren't UTF-8.
/// - The status of the error of `Dsn::from_str` if the text is refused;
///   `OUT_OF_MEMORY`, which is one of them, if an allocation fails.
#[unsafe(no_mangle)]
pub extern "C" fn curdmesa_dsn_auth(
    alloc: Global,
    text: &[u8],
    now_secs: u64,
    now_nanos: u32,
    client: &[u8],
    out: &mut [u8],
    needed: &mut u64,
) -> i32
    ensures written { result ≡ OK → Puts (IsClientAuth text.now now_secs now_nanos client.now)
        out.old out.new needed.new }
    ensures no_room { result ≡ NO_ROOM →
        IsTooLong (IsClientAuth text.now now_secs now_nanos client.now) out.old needed.new }
    ensures no_moment { result ≡ NO_MOMENT → ¬ IsMomentTime now_secs now_nanos }
    ensures is_moment { result ≢ NO_MOMENT → IsMomentTime now_secs now_nanos }
    ensures not_utf8 { result ≡ NOT_UTF8 → (¬ IsUtf8 text.now) ⊎ (¬ IsUtf8 client.now) }
    ensures utf8 { result ≢ NO_MOMENT → result ≢ NOT_UTF8 →
        IsUtf8 text.now × IsUtf8 client.now }
    ensures unchanged { result ≢ OK → out.new ≡ out.old }
    ensures no_text { result ≢ OK → result ≢ NO_ROOM → needed.new ≡ 0 }
    ensures answers { (result ≡ OK) ⊎ ((result ≡ NO_ROOM) ⊎ ((result ≡ NO_MOMENT) ⊎
        ((result ≡ NOT_UTF8) ⊎ IsDsnRefusal text.now result))) }
{
    *needed = 0;
    let Some(now) = Moment::new(now_secs, now_nanos) else {
        return NO_MOMENT;
    };
    let Ok(text) = str::from_utf8(text) else {
        return NOT_UTF8;
    };
    let Ok(client) = str::from_utf8(client) else {
        return NOT_UTF8;
    };
    let dsn = match Dsn::from_str(alloc, text) {
        Ok(dsn) => dsn,
        Err(error) => return status_of_dsn_error(&error),
    };
    match client_auth(alloc, &dsn, now, client) {
        Ok(printed) if deliver(printed.as_bytes(), out, needed) => OK,
        Ok(_) => NO_ROOM,
        Err(_) => OUT_OF_MEMORY,
    }
}
