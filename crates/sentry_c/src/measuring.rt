//! The measure of an envelope.

ghost use Rattle.std.specs.Prelude.{◌≡◌, ◌≢◌, ◌⊎◌, length};
ghost use Rattle.sentry_forward.specs.View.{IsRefused};
ghost use Rattle.sentry_framing.specs.declared.error.EnvelopeError.{EnvelopeError as Refusal};
ghost use Rattle.sentry_framing.specs.declared.error.EnvelopeError.TheVariants as refusals;
ghost use Rattle.sentry_c.specs.Limits.{MeasuresRows};
ghost use Rattle.sentry_c.specs.Statuses.{refusal_status};

use crate::status::{INVALID_ARGUMENT, OK, status_of_envelope_error};
use sentry_limits::sizes::KINDS;
use sentry_types::protocol::v7::measure;
use std::alloc::Global;

/// Counts the items of an envelope, and the bytes of their payloads, by their types.
///
/// `items` and `sizes` have a number for each item type, in the order of `ItemKind::ALL`, and one for
/// unknown types; `longest` is the size of the longest payload.
///
/// # Returns
///
/// - `OK` if `items`, `sizes` and `longest` were set.
/// - `INVALID_ARGUMENT` if `items` or `sizes` has another length than [`KINDS`].
/// - The status of the error of `measure` if the bytes are refused; `OUT_OF_MEMORY`, which is one of
///   them, if an allocation fails.
#[unsafe(no_mangle)]
pub extern "C" fn curdmesa_envelope_measure(
    alloc: Global,
    bytes: &[u8],
    items: &mut [u64],
    sizes: &mut [u64],
    longest: &mut u64,
) -> i32
    ensures measured { result ≡ OK → MeasuresRows bytes.now items.new sizes.new longest.new }
    ensures fault { (x : Refusal) → result ≡ refusal_status x → x ≢ refusals.OutOfMemory →
        IsRefused bytes.now x }
    ensures argument { result ≡ INVALID_ARGUMENT → (length items.old ≢ KINDS) ⊎
        (length sizes.old ≢ KINDS) }
    ensures long { result ≢ INVALID_ARGUMENT → (length items.old ≡ KINDS) ×
        (length sizes.old ≡ KINDS) }
    ensures items_unchanged { result ≢ OK → items.new ≡ items.old }
    ensures sizes_unchanged { result ≢ OK → sizes.new ≡ sizes.old }
    ensures longest_unchanged { result ≢ OK → longest.new ≡ longest.old }
    ensures answers { (result ≡ OK) ⊎ ((result ≡ INVALID_ARGUMENT) ⊎
        ((x : Refusal) × (result ≡ refusal_status x))) }
{
    if items.len() != KINDS || sizes.len() != KINDS {
        return INVALID_ARGUMENT;
    }
    let measured = match measure(alloc, bytes) {
        Ok(measured) => measured,
        Err(error) => return status_of_envelope_error(&error),
    };
    items.copy_from_slice(measured.all_items());
    sizes.copy_from_slice(measured.all_bytes());
    *longest = measured.longest();
    OK
}
