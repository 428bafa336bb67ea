//! Types that are read at a moment: the caller's `now` fills absent timestamps, and ids drawn from
//! `ids` fill absent ids.

ghost use Rattle.serde_json.specs.View.{view};
ghost use Rattle.sentry_tables.specs.Kind.{at_once, list as list_kind, values as values_kind};
ghost use Rattle.sentry_tables.specs.Cells.{list_cell};
ghost use Rattle.sentry_tables.specs.Reading.{ReadsAt, ReadsRowAt};
ghost use Rattle.sentry_tables.specs.Passed.{PassesAt};
ghost use Rattle.sentry_moments.specs.Moments.{moment_cell};
ghost use Rattle.sentry_json.specs.Nodes.{object_data};

use rand_core::Rng;
use sentry_json::{Node, Object, Writer};
use sentry_moments::Moment;
use sentry_tables::{AsBoxed, Codec, Formed, Member, Own, ReadCodec, TreeError};
use sentry_writing::values::{AsValues, Values};
use serde_json::Value;
use std::alloc::Global;

/// A type that is read from a JSON tree at a moment, with a generator of ids.
pub trait FromTreeAt: Member {
    /// Reads a value from a node of a JSON tree; `now` fills absent timestamps, `ids` absent ids.
    ///
    /// # Errors
    ///
    /// - `Misfit` if the tree shows no value of the type.
    /// - `Memory` if an allocation fails.
    fn from_node<N: Node, R: Rng>(
        alloc: Global,
        node: &N,
        now: Moment,
        ids: &mut R,
    ) -> Result<Self, TreeError>
        ensures { ReadsAt (moment_cell now) Self.kind Self.cell_of (N.data_of node.now) result };

    /// Writes the value that the tree at a node shows as JSON text; what can be is written as it is
    /// read, and no value made of it.
    ///
    /// The contract covers values whose tree has no float.
    ///
    /// # Errors
    ///
    /// Those of [`from_node`](FromTreeAt::from_node); part of the text may have been written.
    #[tactic(auto, using(sentry_tables::proofs::Passing::value_passed_at))]
    fn pass<N: Node, R: Rng>(
        alloc: Global,
        node: &N,
        now: Moment,
        ids: &mut R,
        out: &mut Writer,
    ) -> Result<(), TreeError>
        ensures { PassesAt (moment_cell now) Self.kind (N.data_of node.now) result out.old out.new }
    {
        let value = Self::from_node(alloc, node, now, ids)?;
        value.write(out)?;
        Ok(())
    }

    /// Reads a value from a JSON tree; `now` fills absent timestamps, `ids` absent ids.
    ///
    /// # Errors
    ///
    /// - `Misfit` if the tree shows no value of the type.
    /// - `Memory` if an allocation fails.
    final fn from_tree<R: Rng>(
        alloc: Global,
        tree: &Value,
        now: Moment,
        ids: &mut R,
    ) -> Result<Self, TreeError>
        ensures { ReadsAt (moment_cell now) Self.kind Self.cell_of (view tree.now) result }
    {
        Self::from_node(alloc, &tree, now, ids)
    }
}

/// A codec that reads at a moment, with a generator of ids.
pub trait ReadCodecAt<T: Drop>: Codec<T> {
    /// Reads a value from a node of a JSON tree; `now` fills absent timestamps, `ids` absent ids.
    ///
    /// # Errors
    ///
    /// - `Misfit` if the tree shows no value of the type.
    /// - `Memory` if an allocation fails.
    fn from_node<N: Node, R: Rng>(
        alloc: Global,
        node: &N,
        now: Moment,
        ids: &mut R,
    ) -> Result<T, TreeError>
        ensures { ReadsAt (moment_cell now) Self.kind Self.cell_of (N.data_of node.now) result };

    /// Writes the value that the tree at a node shows as JSON text; what can be is written as it is
    /// read, and no value made of it.
    ///
    /// The contract covers values whose tree has no float.
    ///
    /// # Errors
    ///
    /// Those of [`from_node`](ReadCodecAt::from_node); part of the text may have been written.
    #[tactic(auto, using(sentry_tables::proofs::Passing::value_passed_at))]
    fn pass<N: Node, R: Rng>(
        alloc: Global,
        node: &N,
        now: Moment,
        ids: &mut R,
        out: &mut Writer,
    ) -> Result<(), TreeError>
        ensures { PassesAt (moment_cell now) Self.kind (N.data_of node.now) result out.old out.new }
    {
        let value = Self::from_node(alloc, node, now, ids)?;
        Self::write(&value, out)?;
        Ok(())
    }
}

impl<T: FromTreeAt> ReadCodecAt<T> for Own {
    fn from_node<N: Node, R: Rng>(
        alloc: Global,
        node: &N,
        now: Moment,
        ids: &mut R,
    ) -> Result<T, TreeError> {
        T::from_node(alloc, node, now, ids)
    }

    fn pass<N: Node, R: Rng>(
        alloc: Global,
        node: &N,
        now: Moment,
        ids: &mut R,
        out: &mut Writer,
    ) -> Result<(), TreeError> {
        T::pass(alloc, node, now, ids, out)
    }
}

impl<T: FromTreeAt> ReadCodecAt<Box<T>> for AsBoxed {
    #[inline(never)]
    fn from_node<N: Node, R: Rng>(
        alloc: Global,
        node: &N,
        now: Moment,
        ids: &mut R,
    ) -> Result<Box<T>, TreeError> {
        Ok(Box::new(alloc, T::from_node(alloc, node, now, ids)?)?)
    }

    fn pass<N: Node, R: Rng>(
        alloc: Global,
        node: &N,
        now: Moment,
        ids: &mut R,
        out: &mut Writer,
    ) -> Result<(), TreeError> {
        T::pass(alloc, node, now, ids, out)
    }
}

impl<T: Formed> FromTreeAt for T
where
    T::Form: ReadCodecAt<T>,
{
    fn from_node<N: Node, R: Rng>(
        alloc: Global,
        node: &N,
        now: Moment,
        ids: &mut R,
    ) -> Result<T, TreeError> {
        <T::Form as ReadCodecAt<T>>::from_node(alloc, node, now, ids)
    }

    fn pass<N: Node, R: Rng>(
        alloc: Global,
        node: &N,
        now: Moment,
        ids: &mut R,
        out: &mut Writer,
    ) -> Result<(), TreeError> {
        <T::Form as ReadCodecAt<T>>::pass(alloc, node, now, ids, out)
    }
}

// Reads a list from an array; `now` fills absent timestamps, `ids` absent ids.
#[tactic(auto, using(sentry_tables::proofs::ListsShown::not_array_at))]
pub(crate) fn read_list_at<T: FromTreeAt, R: Rng, N: Node>(
    alloc: Global,
    node: &N,
    now: Moment,
    ids: &mut R,
) -> Result<Vec<T>, TreeError>
    ensures { ReadsAt (moment_cell now) (list_kind T.kind) (λ v. list_cell T.cell_of v.items)
        (N.data_of node.now) result }
{
    let Some(items) = node.items(alloc)? else {
        return Err(TreeError::Misfit);
    };
    let mut list = Vec::with_capacity(alloc, items.len())?;
    for item in &items {
        list.push(T::from_node(alloc, item, now, ids)?)?;
    }
    Ok(list)
}

// Reads a timestamp with the codec `F`; defaults to `now`.
#[tactic(auto, using(crate::proofs::RowLemmas::at_once_absent_at, crate::proofs::RowLemmas::at_once_read_now))]
pub(crate) fn now_or_as<F: ReadCodec<Moment>, N: Node>(
    alloc: Global,
    object: &Object<'_, N>,
    key: &str,
    now: Moment,
) -> Result<Moment, TreeError>
    ensures { ReadsRowAt (F.cell_of now) key.now at_once F.kind F.cell_of
        (object_data N.data_of object.now) result }
{
    match object.get(key) {
        Some(member) => F::from_node(alloc, member),
        None => Ok(now),
    }
}

// Reads a list from a bare array, or from an object with the array at the key `values`; `now`
// fills absent timestamps, `ids` absent ids.
#[tactic(auto, using(sentry_tables::proofs::ValuesShown::bare_read_at, sentry_tables::proofs::ValuesShown::no_values_at))]
fn read_values_at<T: FromTreeAt, R: Rng, N: Node>(
    alloc: Global,
    node: &N,
    now: Moment,
    ids: &mut R,
) -> Result<Vec<T>, TreeError>
    ensures { ReadsAt (moment_cell now) (values_kind T.kind) (λ v. list_cell T.cell_of v.items)
        (N.data_of node.now) result }
{
    if node.is_array() {
        return read_list_at(alloc, node, now, ids);
    }
    let list = node.get("values").ok_or(TreeError::Misfit)?;
    read_list_at(alloc, &list, now, ids)
}

impl<T: FromTreeAt> ReadCodecAt<Values<T>> for AsValues {
    fn from_node<N: Node, R: Rng>(
        alloc: Global,
        node: &N,
        now: Moment,
        ids: &mut R,
    ) -> Result<Values<T>, TreeError> {
        Ok(Values {
            values: read_values_at(alloc, node, now, ids)?,
        })
    }
}
