//! Reads one row of a table: the member at a key, by the row's rule.

ghost use Rattle.std.specs.Prelude.{◌≡◌, IfOk, IfErr, map as map_list};
ghost use Rattle.serde_json.specs.View.{members_view};
ghost use Rattle.sentry_json.specs.Nodes.{object_data};
ghost use Rattle.sentry_json.specs.Keys.{beside};
ghost use Rattle.sentry_tables.specs.Cell.{text};
ghost use Rattle.sentry_tables.specs.Kind.{must, may_strict, default as default_rule};
ghost use Rattle.sentry_tables.specs.Shows.{members_in};
ghost use Rattle.sentry_tables.specs.Cells.{text_cell, option_cell};
ghost use Rattle.sentry_tables.specs.Kinds.{text_kind};
ghost use Rattle.sentry_tables.specs.Reading.{ReadsRow};
ghost use Rattle.sentry_tables.specs.declared.error.TreeError.TheVariants.{Memory};

use sentry_json::{Node, Object};
use sentry_tables::codec::DefaultedCodec;
use sentry_tables::{FromTree, ReadCodec, TreeError};
use serde_json::{Map, Value};
use std::alloc::{AllocError, Global};

// Reads a required member; `Misfit` if absent.
#[tactic(auto, using(crate::proofs::RowLemmas::must_missing, crate::proofs::RowLemmas::must_read))]
#[inline(always)]
pub(crate) fn required_as<F: ReadCodec<T>, T: Drop, N: Node>(
    alloc: Global,
    object: &Object<'_, N>,
    key: &str,
) -> Result<T, TreeError>
    ensures { ReadsRow key.now must F.kind F.cell_of (object_data N.data_of object.now) result }
{
    F::from_node(alloc, object.get(key).ok_or(TreeError::Misfit)?)
}

// Reads an optional member that rejects null; `None` if absent.
#[tactic(auto, using(crate::proofs::RowLemmas::may_strict_absent, crate::proofs::RowLemmas::may_strict_shown, crate::proofs::RowLemmas::may_strict_fails))]
#[inline(always)]
pub(crate) fn optional_strict_as<F: ReadCodec<T>, T: Drop, N: Node>(
    alloc: Global,
    object: &Object<'_, N>,
    key: &str,
) -> Result<Option<T>, TreeError>
    ensures { ReadsRow key.now may_strict F.kind (option_cell F.cell_of)
        (object_data N.data_of object.now) result }
{
    let Some(member) = object.get(key) else {
        return Ok(None);
    };
    Ok(Some(F::from_node(alloc, member)?))
}

// Reads a string; `default` if absent.
#[tactic(auto, using(crate::proofs::RowLemmas::default_absent, crate::proofs::RowLemmas::default_read))]
#[inline(always)]
pub(crate) fn text_or<N: Node>(
    alloc: Global,
    object: &Object<'_, N>,
    key: &str,
    default: &str,
) -> Result<String, TreeError>
    ensures { ReadsRow key.now (default_rule (text default.now)) text_kind text_cell
        (object_data N.data_of object.now) result }
{
    match object.get(key) {
        Some(member) => FromTree::from_node(alloc, member),
        None => Ok(String::from_str(alloc, default)?),
    }
}

/// A codec whose default value takes an allocation.
pub trait MadeCodec<T: Drop>: ReadCodec<T> + DefaultedCodec<T> {
    /// Returns the default value.
    ///
    /// # Errors
    ///
    /// `AllocError` if an allocation fails.
    fn make(alloc: Global) -> Result<T, AllocError>
        ensures { IfOk result (λ v. Self.cell_of v ≡ Self.usual) };
}

// Reads a member; the default of the codec `F` if absent.
#[tactic(auto, using(crate::proofs::RowLemmas::default_absent, crate::proofs::RowLemmas::default_read))]
#[inline(always)]
pub(crate) fn made_as<F: MadeCodec<T>, T: Drop, N: Node>(
    alloc: Global,
    object: &Object<'_, N>,
    key: &str,
) -> Result<T, TreeError>
    ensures { ReadsRow key.now (default_rule F.usual) F.kind F.cell_of
        (object_data N.data_of object.now) result }
{
    match object.get(key) {
        Some(member) => F::from_node(alloc, member),
        None => Ok(F::make(alloc)?),
    }
}

// Reads the members whose keys are none of `names`.
#[inline(always)]
pub(crate) fn others<N: Node>(
    alloc: Global,
    object: &Object<'_, N>,
    names: &[&str],
) -> Result<Map<String, Value>, TreeError>
    ensures ok { IfOk result (λ m. members_view m.entries
        ≡ beside (map_list (λ name.
        name.now) names.now) (members_in (object_data N.data_of object.now))) }
    ensures err { IfErr result (λ e. e ≡ Memory) }
{
    Ok(object.members_beside(alloc, names)?)
}
