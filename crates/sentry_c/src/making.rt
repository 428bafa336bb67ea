//! Making envelopes, items and events.

ghost use Rattle.std.specs.Prelude.{◌≡◌, ◌≢◌, ◌⊎◌, ◌++◌, Err, IfErr, IfOk, MatchOption, OnOk, length, map};
ghost use Rattle.std.specs.Str.{IsUtf8};
ghost use Rattle.sentry_framing.specs.declared.error.EnvelopeError.{EnvelopeError as Refusal};
ghost use Rattle.sentry_framing.specs.declared.error.EnvelopeError.TheVariants as refusals;
ghost use Rattle.sentry_forward.specs.View.{IsRefused};
ghost use Rattle.sentry_making.specs.Making.{IsAppended, IsHeaderLine, IsItem};
ghost use Rattle.sentry_c.specs.Making.{HasNoItem, IsJsonText, IsMade, frame_in, total};
ghost use Rattle.sentry_c.specs.Output.{IsTooLong, Puts};
ghost use Rattle.sentry_c.specs.Statuses.{refusal_status};

use crate::output::deliver;
use crate::pairs::{CurdmesaPair, items_of};
use crate::status::{
    INVALID_ARGUMENT, NO_ROOM, NOT_UTF8, OK, OUT_OF_MEMORY, status_of_envelope_error,
};
use sentry_framing::{EnvelopeError, ItemFrame};
use sentry_types::protocol::v7::{append_item, json_text, make_envelope};
use std::alloc::Global;
use std::str;

// Makes an envelope of texts. `None` if their lengths don't add up.
fn made(
    alloc: Global,
    header: &[u8],
    texts: &[u8],
    lengths: &[CurdmesaPair],
) -> Result<Option<Vec<u8>>, EnvelopeError>
    ensures made { IfOk result (λ found. MatchOption found (length texts.now ≢ total lengths.now)
        (λ text. IsMade header.now texts.now lengths.now text.items)) }
    ensures line { result ≡ Err refusals.InvalidHeader → ¬ IsHeaderLine header.now }
    ensures item { result ≡ Err refusals.InvalidItemHeader → HasNoItem texts.now lengths.now }
    ensures faults { IfErr result (λ e. (e ≡ refusals.OutOfMemory)
        ⊎ ((e ≡ refusals.InvalidHeader) ⊎ (e ≡ refusals.InvalidItemHeader))) }
{
    let Some(items) = items_of(alloc, texts, lengths)? else {
        return Ok(None);
    };
    let text = make_envelope(alloc, header, &items)?;
    Ok(Some(text))
}

/// Makes an envelope of a header line and items, and writes it to `out`.
///
/// The header and the payload of each item stand one after the other in `texts`, and `lengths` has
/// the lengths of both. An item header that doesn't state the length of its payload is made to, by a
/// first member `length`; all else is written byte for byte.
///
/// # Returns
///
/// - `OK` if the envelope was written; `needed` is its length.
/// - `NO_ROOM` if the envelope is longer than `out`; `needed` is its length.
/// - `INVALID_ARGUMENT` if the lengths don't add up to that of `texts`.
/// - The status of the error of `make_envelope` if the header line or an item is refused;
///   `OUT_OF_MEMORY`, which is one of them, if an allocation fails.
#[unsafe(no_mangle)]
pub extern "C" fn curdmesa_envelope_make(
    alloc: Global,
    header: &[u8],
    texts: &[u8],
    lengths: &[CurdmesaPair],
    out: &mut [u8],
    needed: &mut u64,
) -> i32
    ensures written { result ≡ OK →
        Puts (IsMade header.now texts.now lengths.now) out.old out.new needed.new }
    ensures no_room { result ≡ NO_ROOM →
        IsTooLong (IsMade header.now texts.now lengths.now) out.old needed.new }
    ensures line { result ≡ refusal_status refusals.InvalidHeader → ¬ IsHeaderLine header.now }
    ensures item { result ≡ refusal_status refusals.InvalidItemHeader →
        HasNoItem texts.now lengths.now }
    ensures argument { result ≡ INVALID_ARGUMENT → length texts.now ≢ total lengths.now }
    ensures unchanged { result ≢ OK → out.new ≡ out.old }
    ensures no_text { result ≢ OK → result ≢ NO_ROOM → needed.new ≡ 0 }
    ensures answers { (result ≡ OK) ⊎ ((result ≡ NO_ROOM) ⊎ ((result ≡ INVALID_ARGUMENT) ⊎
        ((result ≡ refusal_status refusals.InvalidHeader) ⊎
        ((result ≡ refusal_status refusals.InvalidItemHeader) ⊎ (result ≡ OUT_OF_MEMORY))))) }
{
    *needed = 0;
    match made(alloc, header, texts, lengths) {
        Ok(Some(text)) if deliver(&text, out, needed) => OK,
        Ok(Some(_)) => NO_ROOM,
        Ok(None) => INVALID_ARGUMENT,
        Err(error) => status_of_envelope_error(&error),
    }
}

/// Appends an item to an envelope, and writes the longer envelope to `out`: the envelope's bytes,
/// then the item as [`curdmesa_envelope_make`] writes it. The envelope is framed, its payloads
/// aren't read.
///
/// # Returns
///
/// - `OK` if the envelope was written; `needed` is its length.
/// - `NO_ROOM` if the envelope is longer than `out`; `needed` is its length.
/// - The status of the error of `append_item` if the envelope or the item is refused;
///   `OUT_OF_MEMORY`, which is one of them, if an allocation fails.
#[unsafe(no_mangle)]
pub extern "C" fn curdmesa_envelope_append(
    alloc: Global,
    bytes: &[u8],
    header: &[u8],
    payload: &[u8],
    out: &mut [u8],
    needed: &mut u64,
) -> i32
    ensures written { result ≡ OK →
        Puts (IsAppended bytes.now (frame_in (header.now, payload.now))) out.old out.new needed.new }
    ensures no_room { result ≡ NO_ROOM →
        IsTooLong (IsAppended bytes.now (frame_in (header.now, payload.now))) out.old needed.new }
    ensures fault { (x : Refusal) → result ≡ refusal_status x → x ≢ refusals.OutOfMemory →
        IsRefused bytes.now x ⊎ ((x ≡ refusals.InvalidItemHeader)
        × (¬ IsItem (frame_in (header.now, payload.now)))) }
    ensures unchanged { result ≢ OK → out.new ≡ out.old }
    ensures no_text { result ≢ OK → result ≢ NO_ROOM → needed.new ≡ 0 }
    ensures answers { (result ≡ OK) ⊎ ((result ≡ NO_ROOM) ⊎
        ((x : Refusal) × (result ≡ refusal_status x))) }
{
    *needed = 0;
    match append_item(alloc, bytes, &ItemFrame { header, payload }) {
        Ok(text) if deliver(&text, out, needed) => OK,
        Ok(_) => NO_ROOM,
        Err(error) => status_of_envelope_error(&error),
    }
}

/// Writes a text as a JSON string to `out`: in quotes, with the shortest escapes.
///
/// # Returns
///
/// - `OK` if the string was written; `needed` is its length.
/// - `NO_ROOM` if the string is longer than `out`; `needed` is its length.
/// - `NOT_UTF8` if the bytes aren't UTF-8.
/// - `OUT_OF_MEMORY` if an allocation fails.
#[unsafe(no_mangle)]
pub extern "C" fn curdmesa_json_text(
    alloc: Global,
    text: &[u8],
    out: &mut [u8],
    needed: &mut u64,
) -> i32
    ensures written { result ≡ OK → Puts (IsJsonText text.now) out.old out.new needed.new }
    ensures no_room { result ≡ NO_ROOM → IsTooLong (IsJsonText text.now) out.old needed.new }
    ensures not_utf8 { result ≡ NOT_UTF8 → ¬ IsUtf8 text.now }
    ensures utf8 { result ≢ NOT_UTF8 → IsUtf8 text.now }
    ensures unchanged { result ≢ OK → out.new ≡ out.old }
    ensures no_text { result ≢ OK → result ≢ NO_ROOM → needed.new ≡ 0 }
    ensures answers { (result ≡ OK) ⊎ ((result ≡ NO_ROOM) ⊎ ((result ≡ NOT_UTF8) ⊎
        (result ≡ OUT_OF_MEMORY))) }
{
    *needed = 0;
    let Ok(text) = str::from_utf8(text) else {
        return NOT_UTF8;
    };
    match json_text(alloc, text) {
        Ok(json) if deliver(&json, out, needed) => OK,
        Ok(_) => NO_ROOM,
        Err(_) => OUT_OF_MEMORY,
    }
}
