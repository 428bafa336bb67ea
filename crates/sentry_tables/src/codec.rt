//! Codecs: JSON forms of values, chosen per field.

ghost use Rattle.std.specs.Prelude.{◌≡◌, ◌↔◌, IfOk, IsTrue, OnOk};
ghost use Rattle.serde_json.specs.View.{view};
ghost use Rattle.sentry_tables.specs.Cell.{Cell, same_cell};
ghost use Rattle.sentry_tables.specs.Kind.{Kind, may, may_strict};
ghost use Rattle.sentry_tables.specs.Norm.{norm, is_null_of};
ghost use Rattle.sentry_tables.specs.Meets.{IsPlain, IsStored};
ghost use Rattle.sentry_tables.specs.Cells.{option_cell};
ghost use Rattle.sentry_tables.specs.Made.{made, row_made};
ghost use Rattle.sentry_tables.specs.Writes.{written, WritesTree};

use crate::member::Member;
use crate::way::Way;
use sentry_json::Writer;
use serde_json::Value;
use std::alloc::{AllocError, Global};

/// A JSON form of the values of `T`.
pub trait Codec<T> {
    // which trees stand for which cells
    ghost kind: { Kind };

    // the value, as contracts see it
    ghost cell_of: { T → Cell };

    /// Returns the JSON tree of a value.
    ///
    /// # Errors
    ///
    /// `AllocError` if an allocation fails.
    fn to_tree(value: &T, alloc: Global) -> Result<Value, AllocError>
        ensures { IfOk result (λ t. view t ≡ written kind (cell_of value.now)) };

    /// Writes a value as JSON text.
    ///
    /// The contract covers values whose tree has no float.
    ///
    /// # Errors
    ///
    /// `AllocError` if an allocation fails; part of the text may have been written.
    fn write(value: &T, out: &mut Writer) -> Result<(), AllocError>
        ensures { OnOk result (WritesTree (written kind (cell_of value.now)) out.old out.new) };

    /// Clones a value, or returns its normal form, by `way`.
    ///
    /// # Errors
    ///
    /// `AllocError` if an allocation fails.
    fn remake(value: &T, way: Way) -> Result<T, AllocError>
        ensures { IfOk result (λ v. cell_of v ≡ made way kind (cell_of value.now)) };

    /// Returns whether the value is written as null.
    fn is_null_tree(value: &T) -> bool
        ensures { result ≡ is_null_of kind (cell_of value.now) };

    /// Clones a value. `AllocError` if an allocation fails.
    #[tactic(auto, unfolding(crate::specs::Made::made))]
    final fn copy(value: &T) -> Result<T, AllocError>
        ensures { IfOk result (λ v. cell_of v ≡ cell_of value.now) }
    {
        Self::remake(value, Way::Same)
    }

    /// Returns whether the value is plain: no tree in it has a float, and no additional member has
    /// the key of a field.
    fn is_plain(value: &T) -> bool
        ensures plain { IsTrue result ↔ IsPlain kind (cell_of value.now) }
        ensures stored { IsTrue result → IsStored kind (cell_of value.now) };
}

/// The codec of a [`Member`]: its own form.
pub struct Own;

impl<T: Member> Codec<T> for Own {
    ghost kind = { T.kind };

    ghost cell_of = { T.cell_of };

    fn to_tree(value: &T, alloc: Global) -> Result<Value, AllocError> {
        value.to_tree(alloc)
    }

    fn write(value: &T, out: &mut Writer) -> Result<(), AllocError> {
        value.write(out)
    }

    fn remake(value: &T, way: Way) -> Result<T, AllocError> {
        value.remake(way)
    }

    fn is_null_tree(value: &T) -> bool {
        value.is_null_tree()
    }

    fn is_plain(value: &T) -> bool {
        value.is_plain()
    }
}

/// A codec with a default value, which may be omitted.
pub trait DefaultedCodec<T>: Codec<T> {
    // the default value
    ghost usual: { Cell };

    /// Returns whether the normal form of the value is the default.
    fn is_usual(value: &T) -> bool
        ensures { result ≡ same_cell (norm Self.kind (Self.cell_of value.now)) usual };
}

/// Clones an optional value, or returns its normal form, by `way`.
///
/// The normal form of a value that is written as null is `None`.
///
/// # Errors
///
/// `AllocError` if an allocation fails.
#[tactic(auto, using(crate::proofs::Ways::null_made, crate::proofs::Ways::there_made, crate::proofs::Ways::absent_made))]
pub fn remake_option_as<F: Codec<T>, T>(
    value: &Option<T>,
    way: Way,
) -> Result<Option<T>, AllocError>
    ensures { IfOk result (λ v.
        option_cell F.cell_of v ≡ row_made way may F.kind (option_cell F.cell_of value.now)) }
{
    match value {
        Some(value) => {
            if way.is_normal() && F::is_null_tree(value) {
                Ok(None)
            } else {
                Ok(Some(F::remake(value, way)?))
            }
        }
        None => Ok(None),
    }
}

/// Clones an optional value whose member rejects null, or returns its normal form, by `way`.
///
/// # Errors
///
/// `AllocError` if an allocation fails.
#[tactic(auto, using(crate::proofs::Ways::strict_made, crate::proofs::Ways::strict_absent_made))]
pub fn remake_strict_as<F: Codec<T>, T>(
    value: &Option<T>,
    way: Way,
) -> Result<Option<T>, AllocError>
    ensures { IfOk result (λ v.
        option_cell F.cell_of v ≡
        row_made way may_strict F.kind (option_cell F.cell_of value.now)) }
{
    match value {
        Some(value) => Ok(Some(F::remake(value, way)?)),
        None => Ok(None),
    }
}
