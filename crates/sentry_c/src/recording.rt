//! Losses that a ledger in the caller's memory records.

ghost use Rattle.std.specs.Prelude.{◌≡◌, ◌≢◌, ◌⊎◌, ◌∷◌, [], None, Some, length, map, slice_get};
ghost use Rattle.sentry_reports.specs.Categories.{reasons};
ghost use Rattle.sentry_reports.specs.declared.reason.Reason.{Reason as Reasons};
ghost use Rattle.sentry_framing.specs.declared.error.EnvelopeError.{EnvelopeError as Refusal};
ghost use Rattle.sentry_framing.specs.declared.error.EnvelopeError.TheVariants as refusals;
ghost use Rattle.sentry_forward.specs.View.{IsRefused};
ghost use Rattle.sentry_c.specs.Recording.{RecordsEnvelope, RecordsOn, RecordsRow, loss_in, losses_in, losses_told};
ghost use Rattle.sentry_c.specs.Statuses.{refusal_status};

use crate::ledger::reason_at;
use crate::losses::sums_of_envelope;
use crate::status::{INVALID_ARGUMENT, OK, status_of_envelope_error};
use sentry_ledger::loss_sums::SUMS;
use sentry_reports::kept_sums::{PAIRS, pair_place};
use sentry_types::IndexedEnum;
use sentry_types::protocol::v7::client_report::{Category, ItemLoss, Reason};
use std::alloc::Global;

// Returns the loss that a row of sums has of a category, for a reason or without one.
fn loss_at(losses: &[u64], category: Category, reason: Option<Reason>) -> ItemLoss
    requires { length losses.now ≡ SUMS }
    ensures { result ≡ loss_in losses.now category reason }
{
    let within = match reason {
        Some(reason) => reason.as_index() + 1,
        None => 0,
    };
    ItemLoss {
        category,
        quantity: losses[10 * category.as_index() + within],
        reason,
    }
}

// Adds a loss under its own reason, or under `reason` if the loss has none. A loss is refused, and
// counted in `refused`, if the sum would exceed 2^64-1.
fn add_loss(ledger: &mut [u64], loss: ItemLoss, reason: Reason, refused: &mut u64)
    requires { length ledger.old ≡ PAIRS }
    ensures recorded { RecordsOn ledger.old ledger.new reason refused.old refused.new
        (loss ∷ []) }
    ensures long { length ledger.new ≡ PAIRS }
{
    let place = pair_place(loss.category, loss.reason.unwrap_or(reason));
    match ledger[place].checked_add(loss.quantity) {
        Some(sum) => ledger[place] = sum,
        None => *refused = refused.saturating_add(1),
    }
}

// Adds the losses of a category for each reason.
fn add_reasons(
    ledger: &mut [u64],
    losses: &[u64],
    category: Category,
    reason: Reason,
    refused: &mut u64,
)
    requires ledger { length ledger.old ≡ PAIRS }
    requires losses { length losses.now ≡ SUMS }
    ensures recorded { RecordsOn ledger.old ledger.new reason refused.old refused.new
        (map (λ own. loss_in losses.now category (Some own)) reasons) }
    ensures long { length ledger.new ≡ PAIRS }
{
    let mut left = Reason::VARIANTS;
    while let Some((own, rest)) = left.split_first() {
        add_loss(
            ledger,
            loss_at(losses, category, Some(*own)),
            reason,
            refused,
        );
        left = rest;
    }
}

// Adds the losses of a category.
fn add_category(
    ledger: &mut [u64],
    losses: &[u64],
    category: Category,
    reason: Reason,
    refused: &mut u64,
)
    requires ledger { length ledger.old ≡ PAIRS }
    requires losses { length losses.now ≡ SUMS }
    ensures recorded { RecordsOn ledger.old ledger.new reason refused.old refused.new
        (losses_in losses.now category) }
    ensures long { length ledger.new ≡ PAIRS }
{
    add_loss(ledger, loss_at(losses, category, None), reason, refused);
    add_reasons(ledger, losses, category, reason, refused);
}

// Adds all losses.
fn add_losses(ledger: &mut [u64], losses: &[u64], reason: Reason, refused: &mut u64)
    requires ledger { length ledger.old ≡ PAIRS }
    requires losses { length losses.now ≡ SUMS }
    ensures { RecordsOn ledger.old ledger.new reason refused.old refused.new
        (losses_told losses.now) }
{
    let mut left = Category::VARIANTS;
    while let Some((category, rest)) = left.split_first() {
        add_category(ledger, losses, *category, reason, refused);
        left = rest;
    }
}

/// Adds losses to a ledger, each sum under its reason, or under `reason` if it has none.
///
/// `refused` is set to the number of sums that were not added because the ledger's would exceed
/// 2^64-1.
///
/// # Returns
///
/// - `OK` if all other sums were added, and `refused` was set.
/// - `INVALID_ARGUMENT` if the ledger has another length than [`PAIRS`], `losses` another than
///   [`SUMS`], or no reason has the number.
#[unsafe(no_mangle)]
pub extern "C" fn curdmesa_ledger_record_losses(
    ledger: &mut [u64],
    losses: &[u64],
    reason: u32,
    refused: &mut u64,
) -> i32
    ensures recorded { result ≡ OK → (r : Reasons) × (slice_get reasons reason ≡ Some r) ×
        RecordsRow ledger.old ledger.new r losses.now refused.new }
    ensures argument { result ≡ INVALID_ARGUMENT → (length ledger.old ≢ PAIRS) ⊎
        ((length losses.now ≢ SUMS) ⊎ (slice_get reasons reason ≡ None)) }
    ensures long { result ≡ OK → length ledger.old ≡ PAIRS }
    ensures losses_long { result ≡ OK → length losses.now ≡ SUMS }
    ensures unchanged { result ≢ OK → ledger.new ≡ ledger.old }
    ensures refused_unchanged { result ≢ OK → refused.new ≡ refused.old }
    ensures answers { (result ≡ OK) ⊎ (result ≡ INVALID_ARGUMENT) }
{
    if ledger.len() != PAIRS || losses.len() != SUMS {
        return INVALID_ARGUMENT;
    }
    let Some(reason) = reason_at(reason) else {
        return INVALID_ARGUMENT;
    };
    *refused = 0;
    add_losses(ledger, losses, reason, refused);
    OK
}

/// Adds to a ledger what is lost if an envelope isn't sent, as [`curdmesa_ledger_record_losses`] of
/// the sums of [`curdmesa_envelope_losses`](crate::losses::curdmesa_envelope_losses). So a report
/// that can't be sent is put back: its losses have reasons of their own.
///
/// # Returns
///
/// - `OK` if all other sums were added, and `refused` was set.
/// - `INVALID_ARGUMENT` if the ledger has another length than [`PAIRS`], or no reason has the
///   number.
/// - The status of the error of `AnyFrames` if the bytes are refused; `OUT_OF_MEMORY`, which is one
///   of them, if an allocation fails.
#[unsafe(no_mangle)]
pub extern "C" fn curdmesa_ledger_record_envelope(
    alloc: Global,
    ledger: &mut [u64],
    bytes: &[u8],
    reason: u32,
    refused: &mut u64,
) -> i32
    ensures recorded { result ≡ OK → RecordsEnvelope ledger.old ledger.new reason bytes.now
        refused.new }
    ensures fault { (x : Refusal) → result ≡ refusal_status x → x ≢ refusals.OutOfMemory →
        IsRefused bytes.now x }
    ensures argument { result ≡ INVALID_ARGUMENT → (length ledger.old ≢ PAIRS) ⊎
        (slice_get reasons reason ≡ None) }
    ensures long { result ≢ INVALID_ARGUMENT → length ledger.old ≡ PAIRS }
    ensures unchanged { result ≢ OK → ledger.new ≡ ledger.old }
    ensures refused_unchanged { result ≢ OK → refused.new ≡ refused.old }
    ensures answers { (result ≡ OK) ⊎ ((result ≡ INVALID_ARGUMENT) ⊎
        ((x : Refusal) × (result ≡ refusal_status x))) }
{
    if ledger.len() != PAIRS {
        return INVALID_ARGUMENT;
    }
    let Some(reason) = reason_at(reason) else {
        return INVALID_ARGUMENT;
    };
    match sums_of_envelope(alloc, bytes) {
        Ok(sums) => {
            *refused = 0;
            add_losses(ledger, sums.as_slice(), reason, refused);
            OK
        }
        Err(error) => status_of_envelope_error(&error),
    }
}
