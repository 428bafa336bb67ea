//! Showing envelopes.

ghost use Rattle.std.specs.Prelude.{◌≡◌, ◌≢◌, ◌⊎◌};
ghost use Rattle.sentry_c.specs.Output.{IsTooLong, Puts};
ghost use Rattle.sentry_c.specs.Showing.{IsShown};

use crate::output::deliver;
use crate::status::{NO_ROOM, OK, OUT_OF_MEMORY};
use sentry_show::show_json;
use std::alloc::Global;

/// Shows an envelope: writes a JSON object to `out` that tells its verdict and faults, the places of
/// its items, its header, what is lost if all items are dropped, and its events and transactions.
///
/// # Returns
///
/// - `OK` if the object was written; `needed` is its length.
/// - `NO_ROOM` if it is longer than `out`; `needed` is its length.
/// - `OUT_OF_MEMORY` if an allocation fails.
#[unsafe(no_mangle)]
pub extern "C" fn curdmesa_envelope_show_json(
    alloc: Global,
    bytes: &[u8],
    out: &mut [u8],
    needed: &mut u64,
) -> i32
    ensures written { result ≡ OK → Puts (IsShown bytes.now) out.old out.new needed.new }
    ensures no_room { result ≡ NO_ROOM → IsTooLong (IsShown bytes.now) out.old needed.new }
    ensures unchanged { result ≢ OK → out.new ≡ out.old }
    ensures no_text { result ≡ OUT_OF_MEMORY → needed.new ≡ 0 }
    ensures answers { (result ≡ OK) ⊎ ((result ≡ NO_ROOM) ⊎ (result ≡ OUT_OF_MEMORY)) }
{
    *needed = 0;
    match show_json(alloc, bytes) {
        Ok(shown) if deliver(&shown.text, out, needed) => OK,
        Ok(_) => NO_ROOM,
        Err(_) => OUT_OF_MEMORY,
    }
}
