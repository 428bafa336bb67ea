//! Texts that are written to the caller's memory.

ghost use Rattle.std.specs.Prelude.{◌≡◌, ◌≢◌, ◌<◌, ◌≤◌, ◌++◌, Ok, IfSome, IsFalse, IsTrue, OnErr, length, drop, true, false};
ghost use Rattle.sentry_items.specs.Texts.{bytes_of};
ghost use Rattle.sentry_forward.specs.View.{joined_parts};
ghost use Rattle.sentry_c.specs.Output.{IsTooLong, Puts};

use sentry_items::text::Text;
use std::alloc::{AllocError, Global};

/// Sets `needed` to the length of a text, and writes the text to the front of `out`. Returns
/// whether there was room; if not, `out` is unchanged.
pub fn deliver(text: &[u8], out: &mut [u8], needed: &mut u64) -> bool
    ensures told { needed.new ≡ length text.now }
    ensures fits { IsTrue result → length text.now ≤ length out.old }
    ensures put { IsTrue result → out.new ≡ text.now ++ drop (length text.now) out.old }
    ensures longer { IsFalse result → length out.old < length text.now }
    ensures unchanged { IsFalse result → out.new ≡ out.old }
{
    *needed = text.len() as u64;
    if out.len() < text.len() {
        return false;
    }
    out[..text.len()].copy_from_slice(text);
    true
}

/// Returns how many bytes parts have together; `None` for 2^64 or more.
pub fn parts_len(parts: &[&[u8]]) -> Option<usize>
    ensures { IfSome result (λ len. len ≡ length (joined_parts parts.now)) }
{
    let mut len: usize = 0;
    for part in parts {
        len = len.checked_add(part.len())?;
    }
    Some(len)
}

// Writes parts to the front of `out`, one after the other.
fn put_parts(parts: &[&[u8]], out: &mut [u8])
    requires { length (joined_parts parts.now) ≤ length out.old }
    ensures { out.new ≡ joined_parts parts.now
        ++ drop (length (joined_parts parts.now)) out.old }
{
    let mut at = 0;
    for part in parts {
        let end = at + part.len();
        out[at..end].copy_from_slice(*part);
        at = end;
    }
}

/// Writes a text of `len` bytes as [`deliver`] does, given its parts.
pub fn deliver_parts(parts: &[&[u8]], len: usize, out: &mut [u8], needed: &mut u64) -> bool
    requires { len ≡ length (joined_parts parts.now) }
    ensures told { needed.new ≡ len }
    ensures fits { IsTrue result → len ≤ length out.old }
    ensures put { IsTrue result → out.new ≡ joined_parts parts.now ++ drop len out.old }
    ensures longer { IsFalse result → length out.old < len }
    ensures unchanged { IsFalse result → out.new ≡ out.old }
{
    *needed = len as u64;
    if out.len() < len {
        return false;
    }
    put_parts(parts, out);
    true
}

/// Writes a text as [`deliver`] does; its pieces aren't joined first.
///
/// # Errors
///
/// `AllocError` if an allocation fails; nothing was written.
#[tactic(auto, using(crate::proofs::Pieces::pieces_are_parts))]
pub fn deliver_text(
    alloc: Global,
    text: &Text<'_>,
    out: &mut [u8],
    needed: &mut u64,
) -> Result<bool, AllocError>
    ensures written { result ≡ Ok true →
        Puts (λ bytes. bytes ≡ bytes_of text.now) out.old out.new needed.new }
    ensures no_room { result ≡ Ok false →
        IsTooLong (λ bytes. bytes ≡ bytes_of text.now) out.old needed.new }
    ensures unchanged { result ≢ Ok true → out.new ≡ out.old }
    ensures untold { OnErr result (needed.new ≡ needed.old) }
{
    let pieces = text.pieces(alloc)?;
    let len = parts_len(&pieces).ok_or(AllocError)?;
    Ok(deliver_parts(&pieces, len, out, needed))
}
