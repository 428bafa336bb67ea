//! Why an envelope is refused.

ghost use Rattle.std.specs.Prelude.{◌≡◌, ◌≢◌, ◌⊎◌, IfOk};
ghost use Rattle.std.specs.List.{AllZip};
ghost use Rattle.sentry_tables.specs.Cell.{moment};
ghost use Rattle.sentry_moments.specs.Moments.{moment_cell};
ghost use Rattle.sentry_moments.specs.Rfc3339.{IsMomentTime};
ghost use Rattle.sentry_c.specs.Explaining.{IsExplainedBy, IsFaultText, IsSomeFaultText, TellsCause, TellsFault, item_number};
ghost use Rattle.sentry_c.specs.Misfits.{IsGrown};
ghost use Rattle.sentry_c.specs.Output.{IsTooLong, Puts};

use crate::misfit::{CurdmesaMisfit, NOWHERE, push_place, push_text};
use crate::output::deliver;
use crate::status::{NO_MOMENT, NO_ROOM, OK, OUT_OF_MEMORY, status_of_envelope_error};
use crate::texts::CurdmesaPlace;
use rand_core::SeedableRng;
use rand_pcg::Pcg32;
use sentry_types::protocol::v7::{Cause, Fault, Moment, explain};
use std::alloc::{AllocError, Global};

/// The index of the header line, which is no item.
pub const HEADER_LINE: u64 = u64::MAX;

/// The cause of a fault: the whole, framing or no single place.
pub const CAUSE_WHOLE: u32 = 0;
/// The cause of a fault: it isn't JSON.
pub const CAUSE_SYNTAX: u32 = 1;
/// The cause of a fault: a value inside doesn't fit.
pub const CAUSE_PLACE: u32 = 2;

/// A fault of an envelope: the check that fails, and where. Texts are places in what is written.
#[derive(Clone, Copy)]
#[repr(C)]
pub struct CurdmesaFault {
    /// Index of the item, or [`HEADER_LINE`].
    pub item: u64,
    /// First byte of the item, or of the header line.
    pub start: u64,
    /// Byte behind it.
    pub end: u64,
    /// What doesn't fit.
    pub misfit: CurdmesaMisfit,
    /// Item type.
    pub word: CurdmesaPlace,
    /// The fault in a line.
    pub message: CurdmesaPlace,
    /// Status of the first check of the item that fails.
    pub error: i32,
    /// [`CAUSE_WHOLE`], [`CAUSE_SYNTAX`] or [`CAUSE_PLACE`].
    pub cause: u32,
}

/// Returns the number of an item, or of the header line.
pub fn number_of_item(item: Option<usize>) -> u64
    ensures { result ≡ item_number item }
{
    match item {
        Some(item) => item as u64,
        None => HEADER_LINE,
    }
}

// Appends the texts of a cause.
fn push_cause(texts: &mut Vec<u8>, fault: &Fault) -> Result<(u32, CurdmesaMisfit), AllocError>
    ensures grown { IfOk result (λ x. IsGrown texts.old.items texts.new.items) }
    ensures tells { IfOk result (λ x. TellsCause texts.new.items x.0 x.1 fault.now.cause) }
{
    let mut misfit = CurdmesaMisfit {
        start: fault.start as u64,
        end: fault.end as u64,
        path: NOWHERE,
        wanted: NOWHERE,
        found: NOWHERE,
        value: NOWHERE,
    };
    match &fault.cause {
        Cause::Whole => Ok((CAUSE_WHOLE, misfit)),
        Cause::Syntax(broken) => {
            misfit.start = broken.at as u64;
            misfit.end = broken.at as u64;
            misfit.wanted = push_text(texts, broken.expected.as_str().as_bytes())?;
            Ok((CAUSE_SYNTAX, misfit))
        }
        Cause::Place(place) => {
            let misfit = push_place(texts, place)?;
            Ok((CAUSE_PLACE, misfit))
        }
    }
}

// Returns the row of a fault, and appends its texts.
fn row_of(alloc: Global, fault: &Fault, texts: &mut Vec<u8>) -> Result<CurdmesaFault, AllocError>
    ensures grown { IfOk result (λ row. IsGrown texts.old.items texts.new.items) }
    ensures tells { IfOk result (λ row. TellsFault texts.new.items row fault.now) }
{
    let line = fault.to_string(alloc)?;
    let message = push_text(texts, line.as_str().as_bytes())?;
    let word = push_text(texts, &fault.word)?;
    let (cause, misfit) = push_cause(texts, fault)?;
    Ok(CurdmesaFault {
        item: number_of_item(fault.item),
        start: fault.start as u64,
        end: fault.end as u64,
        misfit,
        word,
        message,
        error: status_of_envelope_error(&fault.error),
        cause,
    })
}

// Returns the rows of faults, and appends their texts.
fn rows_of(
    alloc: Global,
    faults: &[Fault],
    texts: &mut Vec<u8>,
) -> Result<Vec<CurdmesaFault>, AllocError>
    ensures { IfOk result (λ rows.
        AllZip (TellsFault texts.new.items) rows.items faults.now) }
{
    let mut rows = Vec::new(alloc);
    let mut left = faults;
    while let Some((fault, rest)) = left.split_first() {
        let row = row_of(alloc, fault, texts)?;
        rows.push(row)?;
        left = rest;
    }
    Ok(rows)
}

// The status of an envelope, the number of its faults, and rows of the first of them with their
// texts.
#[derive(Drop)]
struct FaultRows {
    error: i32,
    count: u64,
    rows: Vec<CurdmesaFault>,
    texts: Vec<u8>,
}

// Explains an envelope, with rows of at most so many faults.
#[tactic(auto, using(crate::proofs::Rowed::none_explained))]
fn explain_with_rows(
    alloc: Global,
    bytes: &[u8],
    now: Moment,
    most: usize,
) -> Result<FaultRows, AllocError>
    ensures { IfOk result (IsExplainedBy bytes.now (moment_cell now) most) }
{
    // The ids that are drawn are dropped.
    let mut ids = Pcg32::seed_from_u64(0);
    let Some(explanation) = explain(alloc, bytes, now, &mut ids)? else {
        return Ok(FaultRows {
            error: OK,
            count: 0,
            rows: Vec::new(alloc),
            texts: Vec::new(alloc),
        });
    };
    let faults = &explanation.faults;
    let total = faults.len();
    let shown = total.min(most);
    let mut texts = Vec::new(alloc);
    let rows = rows_of(alloc, &faults[..shown], &mut texts)?;
    Ok(FaultRows {
        error: status_of_envelope_error(&explanation.error),
        count: total as u64,
        rows,
        texts,
    })
}

/// Tells why an envelope is refused: writes its faults to `faults`, as many as there is room for,
/// and their texts to `out`.
///
/// # Returns
///
/// - `OK` if the faults were told; `count` is the number of all, and `error` the status of
///   `curdmesa_envelope_check`, `OK` if the bytes are an envelope.
/// - `NO_ROOM` if the texts are longer than `out`; `needed` is their length, and `count` and
///   `error` are set.
/// - `NO_MOMENT` if the seconds and nanoseconds are no moment.
/// - `OUT_OF_MEMORY` if an allocation fails.
#[tactic(auto, using(crate::proofs::Rowed::fault_text))]
#[unsafe(no_mangle)]
pub extern "C" fn curdmesa_envelope_explain(
    alloc: Global,
    bytes: &[u8],
    now_secs: u64,
    now_nanos: u32,
    faults: &mut [CurdmesaFault],
    count: &mut u64,
    error: &mut i32,
    out: &mut [u8],
    needed: &mut u64,
) -> i32
    ensures written { result ≡ OK → Puts (IsFaultText bytes.now (moment now_secs now_nanos)
        error.new count.new faults.old faults.new) out.old out.new needed.new }
    ensures no_room { result ≡ NO_ROOM →
        IsTooLong (IsSomeFaultText bytes.now (moment now_secs now_nanos)
        error.new count.new faults.old) out.old needed.new }
    ensures no_moment { result ≡ NO_MOMENT → ¬ IsMomentTime now_secs now_nanos }
    ensures is_moment { result ≢ NO_MOMENT → IsMomentTime now_secs now_nanos }
    ensures unchanged { result ≢ OK → out.new ≡ out.old }
    ensures faults_unchanged { result ≢ OK → faults.new ≡ faults.old }
    ensures count_unchanged { result ≢ OK → result ≢ NO_ROOM → count.new ≡ count.old }
    ensures error_unchanged { result ≢ OK → result ≢ NO_ROOM → error.new ≡ error.old }
    ensures no_text { result ≢ OK → result ≢ NO_ROOM → needed.new ≡ 0 }
    ensures answers { (result ≡ OK) ⊎ ((result ≡ NO_ROOM) ⊎ ((result ≡ NO_MOMENT) ⊎
        (result ≡ OUT_OF_MEMORY))) }
{
    *needed = 0;
    let Some(now) = Moment::new(now_secs, now_nanos) else {
        return NO_MOMENT;
    };
    let Ok(told) = explain_with_rows(alloc, bytes, now, faults.len()) else {
        return OUT_OF_MEMORY;
    };
    *count = told.count;
    *error = told.error;
    if !deliver(&told.texts, out, needed) {
        return NO_ROOM;
    }
    faults[..told.rows.len()].copy_from_slice(&told.rows);
    OK
}
