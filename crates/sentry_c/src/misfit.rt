//! Values that don't fit, as places in texts.

ghost use Rattle.std.specs.Prelude.{◌≡◌, ◌++◌, IfOk, List, ℕ};
ghost use Rattle.sentry_c.specs.Misfits.{IsGrown, TellsPlace};
ghost use Rattle.sentry_c.specs.Texts.{IsAt};

use crate::texts::CurdmesaPlace;
use sentry_types::protocol::v7::Place;
use std::alloc::AllocError;

/// A value that doesn't fit: its bytes in the envelope, and texts about it.
#[derive(Clone, Copy)]
#[repr(C)]
pub struct CurdmesaMisfit {
    /// First byte of the value; of an absent one, the bracket that ends its object.
    pub start: u64,
    /// Byte behind the value.
    pub end: u64,
    /// Keys and indices that lead to the value.
    pub path: CurdmesaPlace,
    /// What reads there.
    pub wanted: CurdmesaPlace,
    /// The JSON type of what stands there.
    pub found: CurdmesaPlace,
    /// The number or boolean that stands there.
    pub value: CurdmesaPlace,
}

/// The place of no text.
pub const NOWHERE: CurdmesaPlace = CurdmesaPlace {
    offset: 0,
    length: 0,
};

/// Appends a text to others, and returns its place.
///
/// # Errors
///
/// `AllocError` if an allocation fails.
pub fn push_text(texts: &mut Vec<u8>, text: &[u8]) -> Result<CurdmesaPlace, AllocError>
    ensures grown { IfOk result (λ place. texts.new.items ≡ texts.old.items ++ text.now) }
    ensures place { IfOk result (λ place. IsAt texts.new.items place text.now) }
{
    let offset = texts.len() as u64;
    texts.extend_from_slice(text)?;
    Ok(CurdmesaPlace {
        offset,
        length: text.len() as u64,
    })
}

/// Appends the texts about a value that doesn't fit.
///
/// # Errors
///
/// `AllocError` if an allocation fails.
pub fn push_place(texts: &mut Vec<u8>, place: &Place) -> Result<CurdmesaMisfit, AllocError>
    ensures grown { IfOk result (λ misfit. IsGrown texts.old.items texts.new.items) }
    ensures tells { IfOk result (λ misfit. TellsPlace texts.new.items misfit place.now) }
{
    let path = push_text(texts, &place.path)?;
    let wanted = push_text(texts, place.wanted.as_str().as_bytes())?;
    let found = push_text(texts, place.found.as_str().as_bytes())?;
    let value = push_text(texts, &place.value)?;
    Ok(CurdmesaMisfit {
        start: place.start as u64,
        end: place.end as u64,
        path,
        wanted,
        found,
        value,
    })
}
