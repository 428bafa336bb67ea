//! Parsing, normalizing and filtering envelopes.

ghost use Rattle.std.specs.Prelude.{◌≡◌, ◌≢◌, ◌⊎◌, ◌^◌, ◌<◌, ◌≤◌, IfErr, IfOk, IsSomeAnd, None, Ok, OnErr, OnOk, Some, false, length, true};
ghost use Rattle.sentry_framing.specs.ItemWords.{item_kinds};
ghost use Rattle.sentry_framing.specs.declared.error.EnvelopeError.{EnvelopeError as Refusal};
ghost use Rattle.sentry_framing.specs.declared.error.EnvelopeError.TheVariants as refusals;
ghost use Rattle.sentry_tables.specs.Cell.{moment};
ghost use Rattle.sentry_moments.specs.Moments.{moment_cell};
ghost use Rattle.sentry_moments.specs.Rfc3339.{IsMomentTime};
ghost use Rattle.sentry_envelope.specs.Envelope.{Spells};
ghost use Rattle.sentry_envelope.specs.EnvelopeFault.{Fault};
ghost use Rattle.sentry_envelope.specs.EnvelopeView.{structured, text_of};
ghost use Rattle.sentry_envelope.specs.NormalText.{IsNormalText};
ghost use Rattle.sentry_envelope.specs.SentryProfile.{profile};
ghost use Rattle.sentry_c.specs.Envelopes.{IsLeft, IsSpelled, LeavesNothing};
ghost use Rattle.sentry_c.specs.Output.{IsTooLong, Puts};
ghost use Rattle.sentry_c.specs.Statuses.{refusal_status};

use crate::filter::{KindFilter, are_kinds};
use crate::output::deliver_text;
use crate::status::{
    INVALID_ARGUMENT, NO_MOMENT, NO_ROOM, NOTHING_LEFT, OK, status_of_envelope_error,
};
use rand_core::SeedableRng;
use rand_pcg::Pcg32;
use sentry_envelope::{filtered_text, normal_text};
use sentry_ledger::loss_sums::{LossSums, SUMS};
use sentry_types::protocol::v7::{Envelope, EnvelopeError, Moment};
use std::alloc::{AllocError, Global};

fn read(alloc: Global, bytes: &[u8], now: Moment, seed: u64) -> Result<Envelope, EnvelopeError>
    ensures spelled { IfOk result (λ e.
        IsSomeAnd (structured e) (Spells profile bytes.now (moment_cell now))) }
    ensures fault { IfErr result (λ x. x ≢ EnvelopeError.OutOfMemory → Fault profile bytes.now x) }
{
    let mut ids = Pcg32::seed_from_u64(seed);
    Envelope::from_slice(alloc, bytes, now, &mut ids)
}

// Returns the text of an envelope that was parsed or made of a report: only an allocation can fail.
pub(crate) fn text_of(alloc: Global, envelope: &Envelope) -> Result<Vec<u8>, AllocError>
    ensures { IfOk result (λ text. text.items ≡ text_of envelope.now) }
{
    envelope.to_vec(alloc).map_err(|_| AllocError)
}

// Parses an envelope, and writes its normal form to `out` if there is room. Returns whether there
// was.
pub(crate) fn deliver_normal_form(
    alloc: Global,
    bytes: &[u8],
    now: Moment,
    seed: u64,
    out: &mut [u8],
    needed: &mut u64,
) -> Result<bool, EnvelopeError>
    ensures written { result ≡ Ok true →
        Puts (IsNormalText bytes.now (moment_cell now)) out.old out.new needed.new }
    ensures no_room { result ≡ Ok false →
        IsTooLong (IsNormalText bytes.now (moment_cell now)) out.old needed.new }
    ensures fault { IfErr result (λ x. x ≢ EnvelopeError.OutOfMemory → Fault profile bytes.now x) }
    ensures unchanged { result ≢ Ok true → out.new ≡ out.old }
    ensures untold { OnErr result (needed.new ≡ needed.old) }
{
    let mut ids = Pcg32::seed_from_u64(seed);
    let text = normal_text(alloc, bytes, now, &mut ids)?;
    Ok(deliver_text(alloc, &text, out, needed)?)
}

/// Parses an envelope and writes its normal form to `out`.
///
/// # Returns
///
/// - `OK` if the text was written; `needed` is its length.
/// - `NO_ROOM` if the text is longer than `out`; `needed` is its length.
/// - `NO_MOMENT` if the seconds and nanoseconds are no moment.
/// - The status of the error of `Envelope::from_slice` if the bytes
///   are refused; `OUT_OF_MEMORY`, which is one of them, if an allocation fails.
#[unsafe(no_mangle)]
pub extern "C" fn curdmesa_envelope_normalize(
    alloc: Global,
    bytes: &[u8],
    now_secs: u64,
    now_nanos: u32,
    seed: u64,
    out: &mut [u8],
    needed: &mut u64,
) -> i32
    ensures written { result ≡ OK → Puts (IsNormalText bytes.now (moment now_secs now_nanos))
        out.old out.new needed.new }
    ensures no_room { result ≡ NO_ROOM →
        IsTooLong (IsNormalText bytes.now (moment now_secs now_nanos)) out.old needed.new }
    ensures fault { (x : Refusal) → result ≡ refusal_status x → x ≢ refusals.OutOfMemory →
        Fault profile bytes.now x }
    ensures no_moment { result ≡ NO_MOMENT → ¬ IsMomentTime now_secs now_nanos }
    ensures is_moment { result ≢ NO_MOMENT → IsMomentTime now_secs now_nanos }
    ensures unchanged { result ≢ OK → out.new ≡ out.old }
    ensures no_text { result ≢ OK → result ≢ NO_ROOM → needed.new ≡ 0 }
    ensures answers { (result ≡ OK) ⊎ ((result ≡ NO_ROOM) ⊎ ((result ≡ NO_MOMENT) ⊎
        ((x : Refusal) × (result ≡ refusal_status x)))) }
{
    *needed = 0;
    let Some(now) = Moment::new(now_secs, now_nanos) else {
        return NO_MOMENT;
    };
    match deliver_normal_form(alloc, bytes, now, seed, out, needed) {
        Ok(true) => OK,
        Ok(false) => NO_ROOM,
        Err(error) => status_of_envelope_error(&error),
    }
}

// The values of an envelope of fewer bytes are cheaper to make than its text.
const SMALL: usize = 1 << 10;

#[tactic(auto, using(crate::proofs::Envelopes::is_spelled, crate::proofs::Envelopes::is_read))]
fn checked(alloc: Global, bytes: &[u8], now: Moment) -> Result<(), EnvelopeError>
    ensures spelled { OnOk result (IsSpelled bytes.now (moment_cell now)) }
    ensures fault { IfErr result (λ x. x ≢ EnvelopeError.OutOfMemory → Fault profile bytes.now x) }
{
    // The ids that are drawn are dropped, with the envelope or its text.
    if bytes.len() < SMALL {
        read(alloc, bytes, now, 0)?;
        return Ok(());
    }
    let mut ids = Pcg32::seed_from_u64(0);
    normal_text(alloc, bytes, now, &mut ids)?;
    Ok(())
}

/// Parses an envelope, and writes nothing.
///
/// # Returns
///
/// - `OK` if the bytes are an envelope.
/// - `NO_MOMENT` if the seconds and nanoseconds are no moment.
/// - The status of the error of `Envelope::from_slice` if the bytes
///   are refused; `OUT_OF_MEMORY`, which is one of them, if an allocation fails.
#[unsafe(no_mangle)]
pub extern "C" fn curdmesa_envelope_check(
    alloc: Global,
    bytes: &[u8],
    now_secs: u64,
    now_nanos: u32,
) -> i32
    ensures spelled { result ≡ OK → IsSpelled bytes.now (moment now_secs now_nanos) }
    ensures fault { (x : Refusal) → result ≡ refusal_status x → x ≢ refusals.OutOfMemory →
        Fault profile bytes.now x }
    ensures no_moment { result ≡ NO_MOMENT → ¬ IsMomentTime now_secs now_nanos }
    ensures is_moment { result ≢ NO_MOMENT → IsMomentTime now_secs now_nanos }
    ensures answers { (result ≡ OK) ⊎ ((result ≡ NO_MOMENT) ⊎
        ((x : Refusal) × (result ≡ refusal_status x))) }
{
    let Some(now) = Moment::new(now_secs, now_nanos) else {
        return NO_MOMENT;
    };
    match checked(alloc, bytes, now) {
        Ok(()) => OK,
        Err(error) => status_of_envelope_error(&error),
    }
}

// Writes what is left of an envelope to `out`, if anything is left and there is room, and sets
// `losses` to the sums of what is lost. Returns whether there was room.
fn deliver_left(
    alloc: Global,
    bytes: &[u8],
    now: Moment,
    seed: u64,
    filter: &KindFilter,
    keep_headers: bool,
    out: &mut [u8],
    needed: &mut u64,
    losses: &mut [u64],
) -> Result<Option<bool>, EnvelopeError>
    requires { length losses.old ≡ SUMS }
    ensures written { result ≡ Ok (Some true) →
        Puts (IsLeft bytes.now (moment_cell now)
        filter.now.kinds filter.now.keep keep_headers losses.new) out.old out.new needed.new }
    ensures no_room { result ≡ Ok (Some false) →
        IsTooLong (IsLeft bytes.now (moment_cell now)
        filter.now.kinds filter.now.keep keep_headers losses.new) out.old needed.new }
    ensures nothing { result ≡ Ok None →
        LeavesNothing bytes.now (moment_cell now)
        filter.now.kinds filter.now.keep keep_headers losses.new }
    ensures fault { IfErr result (λ x. x ≢ EnvelopeError.OutOfMemory → Fault profile bytes.now x) }
    ensures unchanged { result ≢ Ok (Some true) → out.new ≡ out.old }
    ensures losses_unchanged { OnErr result (losses.new ≡ losses.old) }
    ensures untold { result ≢ Ok (Some true) → result ≢ Ok (Some false) →
        needed.new ≡ needed.old }
{
    let mut ids = Pcg32::seed_from_u64(seed);
    let left = filtered_text(alloc, bytes, now, &mut ids, filter, keep_headers)?;
    let sums = LossSums::of(&left.losses);
    let Some(text) = &left.text else {
        losses.copy_from_slice(sums.as_slice());
        return Ok(None);
    };
    let there_was_room = deliver_text(alloc, text, out, needed)?;
    losses.copy_from_slice(sums.as_slice());
    Ok(Some(there_was_room))
}

/// Parses an envelope, removes items by their type, and writes what is left to `out`.
///
/// `losses` is set to the sums of what is lost with the removed items, in each category for no
/// reason and for each reason.
///
/// # Returns
///
/// - `OK` if what is left was written; `needed` is its length, and `losses` is set.
/// - `NO_ROOM` if the text of what is left is longer than `out`; `needed` is its length, and
///   `losses` is set.
/// - `NOTHING_LEFT` if no item is left; `losses` is set.
/// - `INVALID_ARGUMENT` if `losses` has another length than [`SUMS`], or `kinds` a bit that is no
///   item type's.
/// - `NO_MOMENT` if the seconds and nanoseconds are no moment.
/// - The status of the error of `Envelope::from_slice` if the bytes
///   are refused; `OUT_OF_MEMORY`, which is one of them, if an allocation fails.
#[unsafe(no_mangle)]
pub extern "C" fn curdmesa_envelope_filter(
    alloc: Global,
    bytes: &[u8],
    now_secs: u64,
    now_nanos: u32,
    seed: u64,
    kinds: u32,
    keep: bool,
    keep_headers: bool,
    out: &mut [u8],
    needed: &mut u64,
    losses: &mut [u64],
) -> i32
    ensures written { result ≡ OK → Puts (IsLeft bytes.now (moment now_secs now_nanos)
        kinds keep keep_headers losses.new) out.old out.new needed.new }
    ensures no_room { result ≡ NO_ROOM → IsTooLong (IsLeft bytes.now (moment now_secs now_nanos)
        kinds keep keep_headers losses.new) out.old needed.new }
    ensures nothing { result ≡ NOTHING_LEFT → LeavesNothing bytes.now (moment now_secs now_nanos)
        kinds keep keep_headers losses.new }
    ensures fault { (x : Refusal) → result ≡ refusal_status x → x ≢ refusals.OutOfMemory →
        Fault profile bytes.now x }
    ensures no_moment { result ≡ NO_MOMENT → ¬ IsMomentTime now_secs now_nanos }
    ensures is_moment { result ≢ NO_MOMENT → result ≢ INVALID_ARGUMENT →
        IsMomentTime now_secs now_nanos }
    ensures argument { result ≡ INVALID_ARGUMENT →
        (length losses.old ≢ SUMS) ⊎ (2 ^ length item_kinds ≤ kinds) }
    ensures long { result ≢ INVALID_ARGUMENT → length losses.old ≡ SUMS }
    ensures kinds { result ≢ INVALID_ARGUMENT → kinds < 2 ^ length item_kinds }
    ensures unchanged { result ≢ OK → out.new ≡ out.old }
    ensures losses_unchanged { result ≢ OK → result ≢ NO_ROOM → result ≢ NOTHING_LEFT →
        losses.new ≡ losses.old }
    ensures no_text { result ≢ OK → result ≢ NO_ROOM → needed.new ≡ 0 }
    ensures answers { (result ≡ OK) ⊎ ((result ≡ NO_ROOM) ⊎ ((result ≡ NOTHING_LEFT) ⊎
        ((result ≡ NO_MOMENT) ⊎ ((result ≡ INVALID_ARGUMENT) ⊎
        ((x : Refusal) × (result ≡ refusal_status x)))))) }
{
    *needed = 0;
    if losses.len() != SUMS || !are_kinds(kinds) {
        return INVALID_ARGUMENT;
    }
    let Some(now) = Moment::new(now_secs, now_nanos) else {
        return NO_MOMENT;
    };
    let filter = KindFilter { kinds, keep };
    let delivered = deliver_left(
        alloc,
        bytes,
        now,
        seed,
        &filter,
        keep_headers,
        out,
        needed,
        losses,
    );
    match delivered {
        Ok(Some(true)) => OK,
        Ok(Some(false)) => NO_ROOM,
        Ok(None) => NOTHING_LEFT,
        Err(error) => status_of_envelope_error(&error),
    }
}
