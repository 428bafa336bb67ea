//! A ledger as bytes, as a spool keeps it over a restart.

ghost use Rattle.std.specs.Prelude.{◌≡◌, ◌≢◌, ◌⊎◌, ◌*◌, ℕ, List, IfOk, length};
ghost use Rattle.std.specs.List.{flat_map};
ghost use Rattle.sentry_c.specs.LedgerBytes.{AreLedgerBytes, eight_bytes, ledger_bytes};
ghost use Rattle.sentry_c.specs.Output.{IsTooLong, Puts};

use crate::output::deliver;
use crate::status::{INVALID_ARGUMENT, INVALID_TEXT, NO_ROOM, OK, OUT_OF_MEMORY};
use sentry_reports::kept_sums::PAIRS;
use std::alloc::{AllocError, Global};

// What the bytes of a ledger begin with: a mark of the form, and its version.
const MARK: &[u8] = b"curdmesa ledger 1\n";

fn bytes_of(alloc: Global, ledger: &[u64]) -> Result<Vec<u8>, AllocError>
    ensures { IfOk result (λ bytes. bytes.items ≡ ledger_bytes ledger.now) }
{
    let mut bytes = Vec::new(alloc);
    bytes.extend_from_slice(MARK)?;
    let mut left = ledger;
    while let Some((sum, rest)) = left.split_first() {
        bytes.extend_from_slice(&sum.to_le_bytes())?;
        left = rest;
    }
    Ok(bytes)
}

/// Writes a ledger as bytes to `out`.
///
/// # Returns
///
/// - `OK` if the bytes were written; `needed` is their number.
/// - `NO_ROOM` if the bytes are more than `out` has; `needed` is their number.
/// - `INVALID_ARGUMENT` if the ledger has another length than [`PAIRS`].
/// - `OUT_OF_MEMORY` if an allocation fails.
#[unsafe(no_mangle)]
pub extern "C" fn curdmesa_ledger_write(
    alloc: Global,
    ledger: &[u64],
    out: &mut [u8],
    needed: &mut u64,
) -> i32
    ensures written { result ≡ OK →
        Puts (λ bytes. bytes ≡ ledger_bytes ledger.now) out.old out.new needed.new }
    ensures no_room { result ≡ NO_ROOM →
        IsTooLong (λ bytes. bytes ≡ ledger_bytes ledger.now) out.old needed.new }
    ensures argument { result ≡ INVALID_ARGUMENT → length ledger.now ≢ PAIRS }
    ensures long { result ≢ INVALID_ARGUMENT → length ledger.now ≡ PAIRS }
    ensures unchanged { result ≢ OK → out.new ≡ out.old }
    ensures no_text { result ≢ OK → result ≢ NO_ROOM → needed.new ≡ 0 }
    ensures answers { (result ≡ OK) ⊎ ((result ≡ NO_ROOM) ⊎ ((result ≡ INVALID_ARGUMENT) ⊎
        (result ≡ OUT_OF_MEMORY))) }
{
    *needed = 0;
    if ledger.len() != PAIRS {
        return INVALID_ARGUMENT;
    }
    match bytes_of(alloc, ledger) {
        Ok(bytes) if deliver(&bytes, out, needed) => OK,
        Ok(_) => NO_ROOM,
        Err(_) => OUT_OF_MEMORY,
    }
}

fn number_of(bytes: [u8; 8]) -> u64
    ensures { eight_bytes result ≡ bytes }
{
    u64::from_le_bytes(bytes)
}

// Sets each sum to the number in eight bytes.
fn read_sums(bytes: &[u8], sums: &mut [u64])
    requires { length bytes.now ≡ 8 * length sums.old }
    ensures sums { bytes.now ≡ flat_map eight_bytes sums.new }
    ensures long { length sums.new ≡ length sums.old }
{
    for i in 0..sums.len() {
        let eight = bytes[8 * i..].first_chunk().unwrap();
        sums[i] = number_of(*eight);
    }
}

/// Reads a ledger from the bytes that [`curdmesa_ledger_write`] has written of it.
///
/// # Returns
///
/// - `OK` if the ledger was set.
/// - `INVALID_TEXT` if the bytes aren't those of a ledger.
/// - `INVALID_ARGUMENT` if the ledger has another length than [`PAIRS`].
#[unsafe(no_mangle)]
pub extern "C" fn curdmesa_ledger_read(bytes: &[u8], ledger: &mut [u64]) -> i32
    ensures read { result ≡ OK → AreLedgerBytes PAIRS bytes.now ledger.new }
    ensures only { result ≡ OK → (sums : List ℕ) → AreLedgerBytes PAIRS bytes.now sums →
        ledger.new ≡ sums }
    ensures invalid { result ≡ INVALID_TEXT →
        (sums : List ℕ) → AreLedgerBytes PAIRS bytes.now sums → ⊥ }
    ensures argument { result ≡ INVALID_ARGUMENT → length ledger.old ≢ PAIRS }
    ensures long { result ≢ INVALID_ARGUMENT → length ledger.old ≡ PAIRS }
    ensures unchanged { result ≢ OK → ledger.new ≡ ledger.old }
    ensures answers { (result ≡ OK) ⊎ ((result ≡ INVALID_TEXT) ⊎ (result ≡ INVALID_ARGUMENT)) }
{
    if ledger.len() != PAIRS {
        return INVALID_ARGUMENT;
    }
    let Some(sums) = bytes.strip_prefix(MARK) else {
        return INVALID_TEXT;
    };
    if sums.len() != 8 * PAIRS {
        return INVALID_TEXT;
    }
    read_sums(sums, ledger);
    OK
}
