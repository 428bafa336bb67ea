//! Members as compact JSON text.

ghost use Rattle.std.specs.Prelude.{◌≡◌, ◌++◌, [], OnOk, OnErr, IfOk, IsUtf8, false};
ghost use Rattle.serde_json.specs.Written.{has_float, compact_text};
ghost use Rattle.sentry_tables.specs.Writes.{written};

use crate::member::Member;
use sentry_json::Writer;
use std::alloc::{AllocError, Global};
use std::mem;

/// Returns a value as compact JSON text.
///
/// The contract covers values whose tree has no float.
///
/// # Errors
///
/// `AllocError` if an allocation fails.
pub fn text_of<T: Member>(alloc: Global, value: &T) -> Result<Vec<u8>, AllocError>
    ensures text { IfOk result (λ b. has_float (written T.kind (T.cell_of value.now)) ≡ false
        → b.items ≡ compact_text (written T.kind (T.cell_of value.now))) }
    ensures utf8 { IfOk result (λ b. has_float (written T.kind (T.cell_of value.now)) ≡ false →
        IsUtf8 b.items) }
{
    let mut out = Writer::new(Vec::with_capacity(alloc, 128)?);
    value.write(&mut out)?;
    Ok(out.into_inner())
}

/// Appends a value to `out` as compact JSON text.
///
/// The contract covers values whose tree has no float.
///
/// # Errors
///
/// `AllocError` if an allocation fails; `out` is empty then.
pub fn write_text<T: Member>(value: &T, out: &mut Vec<u8>) -> Result<(), AllocError>
    ensures ok { OnOk result (has_float (written T.kind (T.cell_of value.now)) ≡ false
        → out.new.items ≡ out.old.items ++ compact_text (written T.kind (T.cell_of value.now))) }
    ensures err { OnErr result (out.new.items ≡ []) }
{
    let alloc = *out.allocator();
    let mut writer = Writer::new(mem::replace(out, Vec::new(alloc)));
    value.write(&mut writer)?;
    *out = writer.into_inner();
    Ok(())
}
