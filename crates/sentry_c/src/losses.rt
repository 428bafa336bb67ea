//! What is lost with envelopes and items that aren't sent.

ghost use Rattle.std.specs.Prelude.{◌≡◌, ◌≢◌, ◌⊎◌, None, Some, IfErr, IfOk, length, option_map};
ghost use Rattle.sentry_framing.specs.declared.error.EnvelopeError.{EnvelopeError as Refusal};
ghost use Rattle.sentry_framing.specs.declared.error.EnvelopeError.TheVariants as refusals;
ghost use Rattle.sentry_forward.specs.AnyHeader.{any_header};
ghost use Rattle.sentry_forward.specs.View.{IsRefused};
ghost use Rattle.sentry_c.specs.Losses.{IsRowOfEnvelope, IsRowOfFrame, SumsEnvelope, SumsFrame, SumsFrames};
ghost use Rattle.sentry_c.specs.Statuses.{refusal_status};

use crate::answered::forward_answered;
use crate::status::{INVALID_ARGUMENT, OK, status_of_envelope_error};
use sentry_forward::header::read_any_header;
use sentry_ledger::loss_sums::{LossSums, SUMS};
use sentry_ledger::lost_frames::losses_of_frames;
use sentry_types::protocol::v7::client_report::frame_losses;
use sentry_types::protocol::v7::{AnyFrame, EnvelopeError, ForwardError, ForwardRules};
use std::alloc::{AllocError, Global};

/// Returns the sums of the losses of frames.
///
/// # Errors
///
/// `AllocError` if an allocation fails.
pub fn sums_of_frames(alloc: Global, frames: &[AnyFrame<'_>]) -> Result<LossSums, AllocError>
    ensures { IfOk result (SumsFrames frames.now) }
{
    let losses = losses_of_frames(alloc, frames)?;
    Ok(LossSums::of(&losses))
}

/// Returns the sums of what is lost with all items of an envelope.
///
/// # Errors
///
/// Those of `AnyFrames`; `OutOfMemory`, which is one of them, if an allocation fails.
pub fn sums_of_envelope(alloc: Global, bytes: &[u8]) -> Result<LossSums, EnvelopeError>
    ensures lost { IfOk result (SumsEnvelope bytes.now) }
    ensures refused { IfErr result (λ e. e ≢ EnvelopeError.OutOfMemory → IsRefused bytes.now e) }
{
    match forward_answered(alloc, bytes, ForwardRules::new(), &[]) {
        Ok(left) => Ok(sums_of_frames(alloc, &left.dropped)?),
        Err(ForwardError::Envelope(error)) => Err(error),
        // So many frames don't fit in memory.
        Err(ForwardError::TooManyItems) => Err(EnvelopeError::OutOfMemory),
    }
}

/// Sets `losses` to the sums of what is lost with all items of an envelope, in each category for no
/// reason and for each reason.
///
/// # Returns
///
/// - `OK` if `losses` was set.
/// - `INVALID_ARGUMENT` if `losses` has another length than [`SUMS`].
/// - The status of the error of `AnyFrames` if the bytes are refused; `OUT_OF_MEMORY`, which is one
///   of them, if an allocation fails.
#[unsafe(no_mangle)]
pub extern "C" fn curdmesa_envelope_losses(alloc: Global, bytes: &[u8], losses: &mut [u64]) -> i32
    ensures lost { result ≡ OK → IsRowOfEnvelope bytes.now losses.new }
    ensures fault { (x : Refusal) → result ≡ refusal_status x → x ≢ refusals.OutOfMemory →
        IsRefused bytes.now x }
    ensures argument { result ≡ INVALID_ARGUMENT → length losses.old ≢ SUMS }
    ensures long { result ≢ INVALID_ARGUMENT → length losses.old ≡ SUMS }
    ensures unchanged { result ≢ OK → losses.new ≡ losses.old }
    ensures answers { (result ≡ OK) ⊎ ((result ≡ INVALID_ARGUMENT) ⊎
        ((x : Refusal) × (result ≡ refusal_status x))) }
{
    if losses.len() != SUMS {
        return INVALID_ARGUMENT;
    }
    match sums_of_envelope(alloc, bytes) {
        Ok(sums) => {
            losses.copy_from_slice(sums.as_slice());
            OK
        }
        Err(error) => status_of_envelope_error(&error),
    }
}

// Returns the sums of what is lost with the item with this header and this payload.
fn sums_of_item(alloc: Global, header: &[u8], payload: &[u8]) -> Result<LossSums, EnvelopeError>
    ensures lost { IfOk result (SumsFrame header.now payload.now) }
    ensures refused { IfErr result (λ e. (e ≡ EnvelopeError.OutOfMemory)
        ⊎ ((e ≡ EnvelopeError.InvalidItemHeader) × (any_header header.now ≡ None))) }
{
    let fields = read_any_header(alloc, header)?;
    let frame = AnyFrame {
        header,
        payload,
        word: fields.word,
        length: fields.length,
        bytes: &[],
        start: 0,
        header_start: 0,
        payload_start: 0,
    };
    let losses = frame_losses(alloc, &frame)?;
    Ok(LossSums::of(&losses))
}

/// Sets `losses` to the sums of what is lost with an item, in each category for no reason and for
/// each reason.
///
/// # Returns
///
/// - `OK` if `losses` was set.
/// - `INVALID_ARGUMENT` if `losses` has another length than [`SUMS`].
/// - The status of `InvalidItemHeader` if the header isn't an item header.
/// - `OUT_OF_MEMORY` if an allocation fails.
#[unsafe(no_mangle)]
pub extern "C" fn curdmesa_frame_losses(
    alloc: Global,
    header: &[u8],
    payload: &[u8],
    losses: &mut [u64],
) -> i32
    ensures lost { result ≡ OK → IsRowOfFrame header.now payload.now losses.new }
    ensures fault { (x : Refusal) → result ≡ refusal_status x → x ≢ refusals.OutOfMemory →
        (x ≡ refusals.InvalidItemHeader) × (any_header header.now ≡ None) }
    ensures argument { result ≡ INVALID_ARGUMENT → length losses.old ≢ SUMS }
    ensures long { result ≢ INVALID_ARGUMENT → length losses.old ≡ SUMS }
    ensures unchanged { result ≢ OK → losses.new ≡ losses.old }
    ensures answers { (result ≡ OK) ⊎ ((result ≡ INVALID_ARGUMENT) ⊎
        ((x : Refusal) × (result ≡ refusal_status x))) }
{
    if losses.len() != SUMS {
        return INVALID_ARGUMENT;
    }
    match sums_of_item(alloc, header, payload) {
        Ok(sums) => {
            losses.copy_from_slice(sums.as_slice());
            OK
        }
        Err(error) => status_of_envelope_error(&error),
    }
}
