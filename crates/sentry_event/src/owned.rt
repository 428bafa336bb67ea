//! Owned clones of strings that may be borrowed.

ghost use Rattle.std.specs.Prelude.{◌≡◌, IfOk};
ghost use Rattle.sentry_tables.specs.Cells.{cow_cell, option_cell};

use std::alloc::{AllocError, Global};
use std::borrow::CowStr;

/// Clones a string into an owned one. `AllocError` if an allocation fails.
pub fn owned_text<'a>(alloc: Global, text: &CowStr<'a>) -> Result<CowStr<'static>, AllocError>
    ensures { IfOk result (λ t. cow_cell t ≡ cow_cell text.now) }
{
    Ok(CowStr::Owned(String::from_str(alloc, text.as_str())?))
}

/// Clones an optional string into an owned one. `AllocError` if an allocation fails.
pub fn owned_option<'a>(
    alloc: Global,
    text: &Option<CowStr<'a>>,
) -> Result<Option<CowStr<'static>>, AllocError>
    ensures { IfOk result (λ t. option_cell cow_cell t ≡ option_cell cow_cell text.now) }
{
    text.as_ref()
        .map(|text| owned_text(alloc, text))
        .transpose()
}
