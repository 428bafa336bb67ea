//! Forwarding envelopes.

ghost use Rattle.std.specs.Prelude.{◌≡◌, ◌≢◌, ◌⊎◌, ◌≤◌, Err, IfOk, length};
ghost use Rattle.std.specs.List.{All};
ghost use Rattle.sentry_framing.specs.declared.error.EnvelopeError.{EnvelopeError as Refusal};
ghost use Rattle.sentry_framing.specs.declared.error.EnvelopeError.TheVariants as refusals;
ghost use Rattle.sentry_forward.specs.View.{IsRefused, text_of};
ghost use Rattle.sentry_c.specs.Forwarding.{HasOtherCount};
ghost use Rattle.sentry_c.specs.Left.{Forwards, IsTextLeftBy, LeavesNoItemBy};
ghost use Rattle.sentry_c.specs.Output.{IsTooLong, Puts};
ghost use Rattle.sentry_c.specs.Statuses.{refusal_status};

use crate::answered::{are_answers, forward_answered};
use crate::losses::sums_of_frames;
use crate::output::{deliver_parts, parts_len};
use crate::status::{INVALID_ARGUMENT, NO_ROOM, NOTHING_LEFT, OK, status_of_envelope_error};
use sentry_ledger::loss_sums::{LossSums, SUMS};
use sentry_types::protocol::v7::{ForwardError, ForwardRules, Forwarded};
use std::alloc::{AllocError, Global};

// Returns what is left of an envelope by an answer for each item, the length of its text, and the
// sums of what is lost with the other items; `TooManyItems` if there isn't an answer for each item.
fn left_of<'a>(
    alloc: Global,
    bytes: &'a [u8],
    keep: &[u8],
    attachments_follow: bool,
) -> Result<(Forwarded<'a>, usize, LossSums), ForwardError>
    ensures left { IfOk result (λ x. Forwards bytes.now keep.now attachments_follow x.2 x.0) }
    ensures len { IfOk result (λ x. x.1 ≡ length (text_of x.0)) }
    ensures other { result ≡ Err ForwardError.TooManyItems →
        HasOtherCount bytes.now (length keep.now) }
    ensures refused { (x : Refusal) → result ≡ Err (ForwardError.Envelope x) →
        x ≢ refusals.OutOfMemory → IsRefused bytes.now x }
{
    let rules = ForwardRules {
        max_items: keep.len(),
        attachments_follow,
    };
    let left = forward_answered(alloc, bytes, rules, keep)?;
    if left.items != keep.len() {
        return Err(ForwardError::TooManyItems);
    }
    let sums = sums_of_frames(alloc, &left.dropped)?;
    let len = parts_len(&left.parts).ok_or(AllocError)?;
    Ok((left, len, sums))
}

/// Forwards an envelope: writes it to `out` without the items that are dropped, byte for byte.
///
/// `keep` has an answer for each item, in order: 1 keeps the item, 0 drops it. With
/// `attachments_follow` attachments are dropped with the event or transaction that they belong to:
/// if one is dropped and none is kept. `losses` is set to the sums of what is lost with the dropped
/// items, in each category for no reason and for each reason.
///
/// # Returns
///
/// - `OK` if what is left was written; `needed` is its length, and `losses` is set.
/// - `NO_ROOM` if what is left is longer than `out`; `needed` is its length, and `losses` is set.
/// - `NOTHING_LEFT` if no item is left; `losses` is set.
/// - `INVALID_ARGUMENT` if `losses` has another length than [`SUMS`], an answer is neither 0 nor 1,
///   or there isn't one answer for each item.
/// - The status of the error of `forward_by` if the bytes are refused; `OUT_OF_MEMORY`, which is
///   one of them, if an allocation fails.
#[unsafe(no_mangle)]
pub extern "C" fn curdmesa_envelope_forward(
    alloc: Global,
    bytes: &[u8],
    keep: &[u8],
    attachments_follow: bool,
    out: &mut [u8],
    needed: &mut u64,
    losses: &mut [u64],
) -> i32
    ensures written { result ≡ OK →
        Puts (IsTextLeftBy bytes.now keep.now attachments_follow losses.new)
        out.old out.new needed.new }
    ensures no_room { result ≡ NO_ROOM →
        IsTooLong (IsTextLeftBy bytes.now keep.now attachments_follow losses.new)
        out.old needed.new }
    ensures nothing { result ≡ NOTHING_LEFT →
        LeavesNoItemBy bytes.now keep.now attachments_follow losses.new }
    ensures fault { (x : Refusal) → result ≡ refusal_status x → x ≢ refusals.OutOfMemory →
        IsRefused bytes.now x }
    ensures argument { result ≡ INVALID_ARGUMENT → (length losses.old ≢ SUMS) ⊎
        ((¬ All (λ answer. answer ≤ 1) keep.now) ⊎ HasOtherCount bytes.now (length keep.now)) }
    ensures long { result ≢ INVALID_ARGUMENT → length losses.old ≡ SUMS }
    ensures answered { result ≢ INVALID_ARGUMENT → All (λ answer. answer ≤ 1) keep.now }
    ensures unchanged { result ≢ OK → out.new ≡ out.old }
    ensures losses_unchanged { result ≢ OK → result ≢ NO_ROOM → result ≢ NOTHING_LEFT →
        losses.new ≡ losses.old }
    ensures no_text { result ≢ OK → result ≢ NO_ROOM → needed.new ≡ 0 }
    ensures answers { (result ≡ OK) ⊎ ((result ≡ NO_ROOM) ⊎ ((result ≡ NOTHING_LEFT) ⊎
        ((result ≡ INVALID_ARGUMENT) ⊎ ((x : Refusal) × (result ≡ refusal_status x))))) }
{
    *needed = 0;
    if losses.len() != SUMS || !are_answers(keep) {
        return INVALID_ARGUMENT;
    }
    let (left, len, sums) = match left_of(alloc, bytes, keep, attachments_follow) {
        Ok(left) => left,
        Err(ForwardError::TooManyItems) => return INVALID_ARGUMENT,
        Err(ForwardError::Envelope(error)) => return status_of_envelope_error(&error),
    };
    losses.copy_from_slice(sums.as_slice());
    match left.nonempty_parts() {
        Some(parts) if deliver_parts(parts, len, out, needed) => OK,
        Some(_) => NO_ROOM,
        None => NOTHING_LEFT,
    }
}
