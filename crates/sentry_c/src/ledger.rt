//! A ledger of losses in the caller's memory.

ghost use Rattle.std.specs.Prelude.{◌≡◌, ◌≢◌, ◌⊎◌, ◌+◌, ◌-◌, ◌^◌, ◌<◌, ◌≤◌, IfSome, IfNone, IfOk, length, replicate, slice_get, slice_set};
ghost use Rattle.sentry_reports.specs.Categories.{categories, reasons};
ghost use Rattle.sentry_reports.specs.ReportSums.{pair_place};
ghost use Rattle.sentry_reports.specs.declared.category.Category.{Category as Categories};
ghost use Rattle.sentry_reports.specs.declared.reason.Reason.{Reason as Reasons};
ghost use Rattle.sentry_ledger.specs.Held.{HoldsNothing, held_in};
ghost use Rattle.sentry_moments.specs.Rfc3339.{IsMomentTime};
ghost use Rattle.sentry_c.specs.Output.{IsTooLong, Puts};
ghost use Rattle.sentry_c.specs.Sums.{Flushes, HasPair, IsPair, IsReport, IsReportIn, IsReportItem, IsReportText};

use crate::envelope::text_of;
use crate::output::deliver;
use crate::status::{
    INVALID_ARGUMENT, LEDGER_FULL, NO_MOMENT, NO_ROOM, NOTHING_LEFT, OK, OUT_OF_MEMORY,
};
use sentry_ledger::held_row::{holds_nothing, report_items};
use sentry_reports::kept_sums::{PAIRS, pair_place};
use sentry_types::IndexedEnum;
use sentry_types::protocol::v7::client_report::{Category, Reason, Report};
use sentry_types::protocol::v7::{Envelope, EnvelopeItem, Frames, Moment};
use std::alloc::{AllocError, Global};

pub(crate) fn category_at(number: u32) -> Option<Category>
    ensures { result ≡ slice_get categories number }
{
    Category::VARIANTS.get(number as usize).copied()
}

pub(crate) fn reason_at(number: u32) -> Option<Reason>
    ensures { result ≡ slice_get reasons number }
{
    Reason::VARIANTS.get(number as usize).copied()
}

// Returns the index of the sum of a category and a reason, by their numbers, in a ledger of the
// right length.
#[tactic(auto, using(crate::proofs::Rows::category_number, crate::proofs::Rows::reason_number, crate::proofs::Rows::number_of_category, crate::proofs::Rows::number_of_reason))]
fn place_in(ledger: &[u64], category: u32, reason: u32) -> Option<usize>
    ensures found { IfSome result (λ place. (c : Categories) × (r : Reasons) ×
        IsPair category reason c r × (place ≡ pair_place c r)) }
    ensures long { IfSome result (λ place. length ledger.now ≡ PAIRS) }
    ensures within { IfSome result (λ place. place < length ledger.now) }
    ensures none { IfNone result ((length ledger.now ≢ PAIRS) ⊎ ¬ HasPair category reason) }
{
    if ledger.len() != PAIRS {
        return None;
    }
    let category = category_at(category)?;
    let reason = reason_at(reason)?;
    Some(pair_place(category, reason))
}

/// Adds a loss to a ledger.
///
/// # Returns
///
/// - `OK` if the loss was added.
/// - `LEDGER_FULL` if the sum would exceed 2^64-1.
/// - `INVALID_ARGUMENT` if the ledger has another length than [`PAIRS`], or no category or no
///   reason has the number.
#[unsafe(no_mangle)]
pub extern "C" fn curdmesa_ledger_record(
    ledger: &mut [u64],
    category: u32,
    reason: u32,
    quantity: u64,
) -> i32
    ensures recorded { result ≡ OK → (c : Categories) (r : Reasons) → IsPair category reason c r →
        ledger.new ≡ slice_set ledger.old (pair_place c r) (held_in ledger.old c r + quantity) }
    ensures room { result ≡ OK → (c : Categories) (r : Reasons) → IsPair category reason c r →
        held_in ledger.old c r + quantity ≤ 2 ^ 64 - 1 }
    ensures full { result ≡ LEDGER_FULL → (c : Categories) (r : Reasons) →
        IsPair category reason c r → 2 ^ 64 - 1 < held_in ledger.old c r + quantity }
    ensures argument { result ≡ INVALID_ARGUMENT → (length ledger.old ≢ PAIRS) ⊎
        ¬ HasPair category reason }
    ensures pair { result ≢ INVALID_ARGUMENT → HasPair category reason }
    ensures long { result ≢ INVALID_ARGUMENT → length ledger.old ≡ PAIRS }
    ensures unchanged { result ≢ OK → ledger.new ≡ ledger.old }
    ensures answers { (result ≡ OK) ⊎ ((result ≡ LEDGER_FULL) ⊎ (result ≡ INVALID_ARGUMENT)) }
{
    let Some(place) = place_in(ledger, category, reason) else {
        return INVALID_ARGUMENT;
    };
    match ledger[place].checked_add(quantity) {
        Some(sum) => {
            ledger[place] = sum;
            OK
        }
        None => LEDGER_FULL,
    }
}

/// Tells what a ledger holds of a category and a reason.
///
/// # Returns
///
/// - `OK` if `quantity` was set.
/// - `INVALID_ARGUMENT` if the ledger has another length than [`PAIRS`], or no category or no
///   reason has the number.
#[unsafe(no_mangle)]
pub extern "C" fn curdmesa_ledger_held(
    ledger: &[u64],
    category: u32,
    reason: u32,
    quantity: &mut u64,
) -> i32
    ensures held { result ≡ OK → (c : Categories) (r : Reasons) → IsPair category reason c r →
        quantity.new ≡ held_in ledger.now c r }
    ensures argument { result ≡ INVALID_ARGUMENT → (length ledger.now ≢ PAIRS) ⊎
        ¬ HasPair category reason }
    ensures pair { result ≡ OK → HasPair category reason }
    ensures long { result ≡ OK → length ledger.now ≡ PAIRS }
    ensures unchanged { result ≢ OK → quantity.new ≡ quantity.old }
    ensures answers { (result ≡ OK) ⊎ (result ≡ INVALID_ARGUMENT) }
{
    let Some(place) = place_in(ledger, category, reason) else {
        return INVALID_ARGUMENT;
    };
    *quantity = ledger[place];
    OK
}

// Returns the text of an envelope whose one item is the report of a ledger.
fn report_text(alloc: Global, ledger: &[u64], now: Moment) -> Result<Vec<u8>, AllocError>
    requires { length ledger.now ≡ PAIRS }
    ensures { IfOk result (λ text.
        IsReportText (held_in ledger.now) now.secs now.nanos text.items) }
{
    let report = Report::new(now, report_items(alloc, ledger)?);
    let Ok(envelope) = Envelope::from_item(alloc, EnvelopeItem::ClientReport(report)) else {
        return Err(AllocError);
    };
    text_of(alloc, &envelope)
}

// Returns the text of an envelope, or what stands behind its header line.
fn report_in(text: &[u8], item_alone: bool) -> &[u8]
    ensures { IsReportIn item_alone text.now result.now }
{
    if item_alone {
        Frames::new(text).rest()
    } else {
        text
    }
}

// Moves all losses of a ledger into a client report: writes its envelope to `out`, or its item alone.
fn flush(
    alloc: Global,
    ledger: &mut [u64],
    now_secs: u64,
    now_nanos: u32,
    item_alone: bool,
    out: &mut [u8],
    needed: &mut u64,
) -> i32
    ensures written { result ≡ OK →
        Puts (IsReport item_alone (held_in ledger.old) now_secs now_nanos)
        out.old out.new needed.new }
    ensures emptied { result ≡ OK → ledger.new ≡ replicate PAIRS 0 }
    ensures no_room { result ≡ NO_ROOM →
        IsTooLong (IsReport item_alone (held_in ledger.old) now_secs now_nanos)
        out.old needed.new }
    ensures nothing { result ≡ NOTHING_LEFT → HoldsNothing (held_in ledger.old) }
    ensures something { (result ≡ OK) ⊎ (result ≡ NO_ROOM) → ¬ HoldsNothing (held_in ledger.old) }
    ensures moment { result ≡ NO_MOMENT → ¬ IsMomentTime now_secs now_nanos }
    ensures is_moment { result ≢ NO_MOMENT → result ≢ INVALID_ARGUMENT →
        IsMomentTime now_secs now_nanos }
    ensures argument { result ≡ INVALID_ARGUMENT → length ledger.old ≢ PAIRS }
    ensures long { result ≢ INVALID_ARGUMENT → length ledger.old ≡ PAIRS }
    ensures memory { result ≡ OUT_OF_MEMORY → ¬ HoldsNothing (held_in ledger.old) }
    ensures unchanged { result ≢ OK → ledger.new ≡ ledger.old }
    ensures out_unchanged { result ≢ OK → out.new ≡ out.old }
    ensures no_text { result ≢ OK → result ≢ NO_ROOM → needed.new ≡ 0 }
    ensures answers { (result ≡ OK) ⊎ ((result ≡ NO_ROOM) ⊎ ((result ≡ NOTHING_LEFT) ⊎
        ((result ≡ NO_MOMENT) ⊎ ((result ≡ INVALID_ARGUMENT) ⊎ (result ≡ OUT_OF_MEMORY))))) }
{
    *needed = 0;
    if ledger.len() != PAIRS {
        return INVALID_ARGUMENT;
    }
    let Some(now) = Moment::new(now_secs, now_nanos) else {
        return NO_MOMENT;
    };
    if holds_nothing(ledger) {
        return NOTHING_LEFT;
    }
    let Ok(text) = report_text(alloc, ledger, now) else {
        return OUT_OF_MEMORY;
    };
    if !deliver(report_in(&text, item_alone), out, needed) {
        return NO_ROOM;
    }
    ledger.fill(0);
    OK
}

/// Moves all losses of a ledger into a client report, in an envelope that is written to `out`.
///
/// # Returns
///
/// - `OK` if the text was written; `needed` is its length, and the ledger holds nothing.
/// - `NO_ROOM` if the text is longer than `out`; `needed` is its length.
/// - `NOTHING_LEFT` if the ledger holds no loss.
/// - `NO_MOMENT` if the seconds and nanoseconds are no moment.
/// - `INVALID_ARGUMENT` if the ledger has another length than [`PAIRS`].
/// - `OUT_OF_MEMORY` if an allocation fails.
#[unsafe(no_mangle)]
pub extern "C" fn curdmesa_ledger_flush(
    alloc: Global,
    ledger: &mut [u64],
    now_secs: u64,
    now_nanos: u32,
    out: &mut [u8],
    needed: &mut u64,
) -> i32
    ensures { Flushes IsReportText now_secs now_nanos ledger.old ledger.new out.old out.new
        needed.new result }
{
    flush(alloc, ledger, now_secs, now_nanos, false, out, needed)
}

/// Moves all losses of a ledger into a client report, and writes its item to `out`: the item header
/// and the payload, each with a line feed, as they stand in an envelope.
///
/// # Returns
///
/// What [`curdmesa_ledger_flush`] returns.
#[unsafe(no_mangle)]
pub extern "C" fn curdmesa_ledger_flush_item(
    alloc: Global,
    ledger: &mut [u64],
    now_secs: u64,
    now_nanos: u32,
    out: &mut [u8],
    needed: &mut u64,
) -> i32
    ensures { Flushes IsReportItem now_secs now_nanos ledger.old ledger.new out.old out.new
        needed.new result }
{
    flush(alloc, ledger, now_secs, now_nanos, true, out, needed)
}
