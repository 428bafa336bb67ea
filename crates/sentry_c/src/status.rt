//! The statuses that exported functions return.

ghost use Rattle.std.specs.Prelude.{◌≡◌, ◌≢◌, ◌⊎◌, None, option_copied};
ghost use Rattle.sentry_c.specs.Output.{IsTooLong, Puts};
ghost use Rattle.sentry_c.specs.StatusTexts.{IsStatusText, crate_texts, own_texts, status_text, text_in};
ghost use Rattle.sentry_c.specs.Statuses.{auth_status, dsn_status, refusal_status};
ghost use Rattle.sentry_framing.specs.declared.error.EnvelopeError.{EnvelopeError as Refusal};

use crate::output::deliver;
use sentry_types::protocol::v7::EnvelopeError;
use sentry_types::{ParseAuthError, ParseDsnError};

/// Done; all results are set.
pub const OK: i32 = 0;
/// The text is longer than the room for it; only its length is told.
pub const NO_ROOM: i32 = 1;
/// No such moment.
pub const NO_MOMENT: i32 = 2;
/// The text isn't UTF-8.
pub const NOT_UTF8: i32 = 3;
/// The text isn't a timestamp, isn't a crontab schedule, or isn't a known word.
pub const INVALID_TEXT: i32 = 4;
/// A number, an offset, an answer or the length of a table is out of range.
pub const INVALID_ARGUMENT: i32 = 5;
/// No item is left, or the ledger holds no loss.
pub const NOTHING_LEFT: i32 = 6;
/// The sum would exceed 2^64-1.
pub const LEDGER_FULL: i32 = 7;
/// The header line isn't one JSON object without floats that reads as envelope headers.
pub const INVALID_HEADER: i32 = 14;
/// An allocation failed.
pub const OUT_OF_MEMORY: i32 = 17;

/// Returns the status of a refused envelope: ten and the place of the error among its variants.
pub fn status_of_envelope_error(error: &EnvelopeError) -> i32
    ensures status { result ≡ refusal_status error.now }
    ensures only { (x : Refusal) → result ≡ refusal_status x → x ≡ error.now }
    ensures not_ok { result ≢ OK }
    ensures not_room { result ≢ NO_ROOM }
    ensures not_moment { result ≢ NO_MOMENT }
    ensures not_argument { result ≢ INVALID_ARGUMENT }
    ensures not_left { result ≢ NOTHING_LEFT }
{
    match error {
        EnvelopeError::UnexpectedEof => 10,
        EnvelopeError::MissingHeader => 11,
        EnvelopeError::MissingItemHeader => 12,
        EnvelopeError::MissingNewline => 13,
        EnvelopeError::InvalidHeader => INVALID_HEADER,
        EnvelopeError::InvalidItemHeader => 15,
        EnvelopeError::InvalidItemPayload => 16,
        EnvelopeError::OutOfMemory => OUT_OF_MEMORY,
    }
}

/// Returns the status of a refused DSN.
pub fn status_of_dsn_error(error: &ParseDsnError) -> i32
    ensures status { result ≡ dsn_status error.now }
    ensures not_ok { result ≢ OK }
    ensures not_room { result ≢ NO_ROOM }
    ensures not_utf8 { result ≢ NOT_UTF8 }
{
    match error {
        ParseDsnError::InvalidUrl => 20,
        ParseDsnError::InvalidScheme => 21,
        ParseDsnError::NoUsername => 22,
        ParseDsnError::NoProjectId => 23,
        ParseDsnError::InvalidProjectId(_) => 24,
        ParseDsnError::Memory => OUT_OF_MEMORY,
    }
}

/// Returns the status of refused client authentication.
pub fn status_of_auth_error(error: &ParseAuthError) -> i32
    ensures status { result ≡ auth_status error.now }
    ensures not_ok { result ≢ OK }
    ensures not_room { result ≢ NO_ROOM }
    ensures not_utf8 { result ≢ NOT_UTF8 }
{
    match error {
        ParseAuthError::NonSentryAuth => 30,
        ParseAuthError::InvalidVersion => 31,
        ParseAuthError::MissingPublicKey => 32,
        ParseAuthError::Memory => OUT_OF_MEMORY,
    }
}

// Returns the text of a status of the library's own.
#[tactic(auto, unfolding(crate::specs::StatusTexts::text_in))]
fn own_text(status: i32) -> Option<&'static str>
    ensures { option_copied result ≡ text_in own_texts status }
{
    match status {
        0 => Some("success"),
        1 => Some("the text is longer than the room for it"),
        2 => Some("no such moment"),
        3 => Some("the text isn't UTF-8"),
        4 => Some("the text can't be parsed"),
        5 => Some("invalid argument"),
        6 => Some("nothing left"),
        7 => Some("the ledger is full"),
        17 => Some("out of memory"),
        _ => None,
    }
}

// Returns the text of an error that the Rust crate has, as that crate prints it.
#[tactic(auto, unfolding(crate::specs::StatusTexts::text_in))]
fn crate_text(status: i32) -> Option<&'static str>
    ensures { option_copied result ≡ text_in crate_texts status }
{
    match status {
        10 => Some("unexpected end of file"),
        11 => Some("missing envelope header"),
        12 => Some("missing item header"),
        13 => Some("missing newline after header or payload"),
        14 => Some("invalid envelope header"),
        15 => Some("invalid item header"),
        16 => Some("invalid item payload"),
        20 => Some("no valid url provided"),
        21 => Some("no valid scheme"),
        22 => Some("username is empty"),
        23 => Some("empty path"),
        24 => Some("invalid project id"),
        30 => Some("non sentry auth"),
        31 => Some("invalid value for version"),
        32 => Some("missing public key in auth header"),
        _ => None,
    }
}

// Returns what a status means; `None` for a number that no status has.
fn meaning(status: i32) -> Option<&'static str>
    ensures { option_copied result ≡ status_text status }
{
    match own_text(status) {
        Some(text) => Some(text),
        None => crate_text(status),
    }
}

/// Writes what a status means to `out`, in English.
///
/// # Returns
///
/// - `OK` if the text was written; `needed` is its length.
/// - `NO_ROOM` if the text is longer than `out`; `needed` is its length.
/// - `INVALID_ARGUMENT` if no status has the number.
#[unsafe(no_mangle)]
pub extern "C" fn curdmesa_status_text(status: i32, out: &mut [u8], needed: &mut u64) -> i32
    ensures written { result ≡ OK → Puts (IsStatusText status) out.old out.new needed.new }
    ensures no_room { result ≡ NO_ROOM → IsTooLong (IsStatusText status) out.old needed.new }
    ensures argument { result ≡ INVALID_ARGUMENT → status_text status ≡ None }
    ensures unchanged { result ≢ OK → out.new ≡ out.old }
    ensures no_text { result ≢ OK → result ≢ NO_ROOM → needed.new ≡ 0 }
    ensures answers { (result ≡ OK) ⊎ ((result ≡ NO_ROOM) ⊎ (result ≡ INVALID_ARGUMENT)) }
{
    *needed = 0;
    match meaning(status) {
        Some(text) if deliver(text.as_bytes(), out, needed) => OK,
        Some(_) => NO_ROOM,
        None => INVALID_ARGUMENT,
    }
}
