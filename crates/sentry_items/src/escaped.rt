//! Texts with the escapes of JSON.
ghost use Rattle.std.specs.Prelude.{◌≡◌, ℕ, List, ◌++◌, OnOk};
ghost use Rattle.json.specs.Print.{escape, escape_byte};
ghost use Rattle.json.specs.Run.{is_plain};

use sentry_json::{long_escape, run_len, short_escape};
use std::alloc::AllocError;

// Appends a text as it stands in a string of JSON. `AllocError` if an allocation fails; a part may
// have been appended.
#[inline(never)]
pub(crate) fn write_escaped(text: &[u8], out: &mut Vec<u8>) -> Result<(), AllocError>
    ensures ok { OnOk result (out.new.items ≡ out.old.items ++ escape text.now) }
    ensures kept { (part : List ℕ) × (out.new.items ≡ out.old.items ++ part) }
{
    let mut rest = text;
    while let Some((&byte, after)) = rest.split_first() {
        if is_plain(byte) {
            let (run, behind) = rest.split_at(run_len(rest));
            out.extend_from_slice(run)?;
            rest = behind;
        } else {
            write_escape(byte, out)?;
            rest = after;
        }
    }
    Ok(())
}

// Whether a byte needs no escape.
fn is_plain(byte: u8) -> bool
    ensures { result ≡ is_plain byte }
{
    byte >= 0x20 && byte != b'"' && byte != b'\\'
}

// Appends the escape of a byte: the short one where there is one.
#[tactic(auto, unfolding(json::specs::Print::escape_byte))]
fn write_escape(byte: u8, out: &mut Vec<u8>) -> Result<(), AllocError>
    ensures ok { OnOk result (out.new.items ≡ out.old.items ++ escape_byte byte) }
    ensures kept { (part : List ℕ) × (out.new.items ≡ out.old.items ++ part) }
{
    let letter = short_escape(byte);
    if letter > 0 {
        return out.extend_from_slice(&[b'\\', letter]);
    }
    if byte < 0x20 {
        return out.extend_from_slice(&long_escape(byte));
    }
    out.push(byte)?;
    Ok(())
}
