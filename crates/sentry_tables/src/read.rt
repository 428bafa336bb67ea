//! Reading of values from JSON trees.

ghost use Rattle.std.specs.Prelude.{◌≡◌, ◌^◌, None, Some, option_map, option_and_then, IfErr, IfOk};
ghost use Rattle.serde_json.specs.Data.{Data};
ghost use Rattle.serde_json.specs.Find.{as_number, as_object};
ghost use Rattle.serde_json.specs.View.{view};
ghost use Rattle.sentry_json.specs.Nodes.{items_data, named_by};
ghost use Rattle.sentry_tables.specs.Basic.{signed_at, pair_of};
ghost use Rattle.sentry_tables.specs.Cell.{Cell, whole};
ghost use Rattle.sentry_tables.specs.Kind.{map as map_kind, values as values_kind};
ghost use Rattle.sentry_tables.specs.Kinds.{text_kind};
ghost use Rattle.sentry_tables.specs.Cells.{pair_cell, list_cell, map_cell, entries};
ghost use Rattle.sentry_tables.specs.Passed.{Passes};
ghost use Rattle.sentry_tables.specs.Reading.{Only, Reads};
ghost use Rattle.sentry_tables.specs.Shows.{Shows, MembersShow};

use crate::codec::{Codec, Own};
use crate::error::TreeError;
use crate::member::{Formed, Member};
use crate::pass::{pass_items, pass_members, pass_text};
use sentry_json::{Named, Node, Writer};
use serde_json::{Map, Value};
use std::alloc::Global;
use std::borrow::CowStr;
use std::collections::btree_map::Entry;

/// A type whose values are read from JSON trees, without the caller's `now` or a generator of ids.
pub trait FromTree: Member {
    /// Reads a value from the tree at a node.
    ///
    /// # Errors
    ///
    /// - `Misfit` if the tree is not a value of the type.
    /// - `Memory` if an allocation fails.
    fn from_node<N: Node>(alloc: Global, node: &N) -> Result<Self, TreeError>
        ensures { Reads Self.kind Self.cell_of (N.data_of node.now) result };

    /// Writes the value that the tree at a node shows as JSON text; what can be is written as it is
    /// read, and no value made of it.
    ///
    /// The contract covers values whose tree has no float.
    ///
    /// # Errors
    ///
    /// Those of [`from_node`](FromTree::from_node); part of the text may have been written.
    #[tactic(auto, using(crate::proofs::Passing::value_passed))]
    fn pass<N: Node>(alloc: Global, node: &N, out: &mut Writer) -> Result<(), TreeError>
        ensures { Passes Self.kind (N.data_of node.now) result out.old out.new }
    {
        let value = Self::from_node(alloc, node)?;
        value.write(out)?;
        Ok(())
    }

    /// Reads a value from a JSON tree.
    ///
    /// # Errors
    ///
    /// - `Misfit` if the tree is not a value of the type.
    /// - `Memory` if an allocation fails.
    final fn from_tree(alloc: Global, tree: &Value) -> Result<Self, TreeError>
        ensures { Reads Self.kind Self.cell_of (view tree.now) result }
    {
        Self::from_node(alloc, &tree)
    }
}

/// A codec whose values are read from JSON trees, without the caller's `now` or a generator of ids.
pub trait ReadCodec<T: Drop>: Codec<T> {
    /// Reads a value from the tree at a node.
    ///
    /// # Errors
    ///
    /// - `Misfit` if the tree is not a value of the type.
    /// - `Memory` if an allocation fails.
    fn from_node<N: Node>(alloc: Global, node: &N) -> Result<T, TreeError>
        ensures { Reads Self.kind Self.cell_of (N.data_of node.now) result };

    /// Writes the value that the tree at a node shows as JSON text; what can be is written as it is
    /// read, and no value made of it.
    ///
    /// The contract covers values whose tree has no float.
    ///
    /// # Errors
    ///
    /// Those of [`from_node`](ReadCodec::from_node); part of the text may have been written.
    #[tactic(auto, using(crate::proofs::Passing::value_passed))]
    fn pass<N: Node>(alloc: Global, node: &N, out: &mut Writer) -> Result<(), TreeError>
        ensures { Passes Self.kind (N.data_of node.now) result out.old out.new }
    {
        let value = Self::from_node(alloc, node)?;
        Self::write(&value, out)?;
        Ok(())
    }
}

impl<T: FromTree> ReadCodec<T> for Own {
    fn from_node<N: Node>(alloc: Global, node: &N) -> Result<T, TreeError> {
        T::from_node(alloc, node)
    }

    fn pass<N: Node>(alloc: Global, node: &N, out: &mut Writer) -> Result<(), TreeError> {
        T::pass(alloc, node, out)
    }
}

impl<T: Formed> FromTree for T
where
    T::Form: ReadCodec<T>,
{
    fn from_node<N: Node>(alloc: Global, node: &N) -> Result<T, TreeError> {
        <T::Form as ReadCodec<T>>::from_node(alloc, node)
    }

    fn pass<N: Node>(alloc: Global, node: &N, out: &mut Writer) -> Result<(), TreeError> {
        <T::Form as ReadCodec<T>>::pass(alloc, node, out)
    }
}

impl FromTree for String {
    #[tactic(auto, using(crate::proofs::ScalarsShown::text_refused, crate::proofs::ScalarsShown::text_shown))]
    fn from_node<N: Node>(alloc: Global, node: &N) -> Result<String, TreeError> {
        let text = node.as_str().ok_or(TreeError::Misfit)?;
        Ok(String::from_str(alloc, text)?)
    }

    fn pass<N: Node>(_alloc: Global, node: &N, out: &mut Writer) -> Result<(), TreeError> {
        pass_text(node, out)
    }
}

impl<'a> FromTree for CowStr<'a> {
    #[tactic(auto, using(crate::proofs::ScalarsShown::text_refused, crate::proofs::ScalarsShown::text_shown))]
    fn from_node<N: Node>(alloc: Global, node: &N) -> Result<CowStr<'a>, TreeError> {
        Ok(CowStr::Owned(String::from_node(alloc, node)?))
    }

    fn pass<N: Node>(_alloc: Global, node: &N, out: &mut Writer) -> Result<(), TreeError>
        ensures { Passes text_kind (N.data_of node.now) result out.old out.new }
    {
        pass_text(node, out)
    }
}

impl FromTree for bool {
    #[tactic(auto, using(crate::proofs::ScalarsShown::truth_refused, crate::proofs::ScalarsShown::truth_shown))]
    fn from_node<N: Node>(_alloc: Global, node: &N) -> Result<bool, TreeError> {
        node.as_bool().ok_or(TreeError::Misfit)
    }
}

// `as_i64` with a contract in the terms of signed kinds.
fn node_as_i64<N: Node>(node: &N) -> Option<i64>
    ensures { option_map whole result
        ≡ option_and_then (signed_at (2 ^ 63)) (as_number (N.data_of node.now)) }
{
    node.as_i64()
}

impl FromTree for i32 {
    fn from_node<N: Node>(_alloc: Global, node: &N) -> Result<i32, TreeError> {
        match node_as_i64(node) {
            Some(number) => match i32::try_from(number) {
                Ok(number) => Ok(number),
                Err(_) => Err(TreeError::Misfit),
            },
            None => Err(TreeError::Misfit),
        }
    }
}

impl FromTree for i64 {
    fn from_node<N: Node>(_alloc: Global, node: &N) -> Result<i64, TreeError> {
        node_as_i64(node).ok_or(TreeError::Misfit)
    }
}

impl FromTree for Value {
    #[tactic(auto, using(crate::proofs::ScalarsShown::any_shown))]
    fn from_node<N: Node>(alloc: Global, node: &N) -> Result<Value, TreeError> {
        Ok(node.to_value(alloc)?)
    }
}

// `None` unless the items are exactly two integers in the range of `u64`.
fn two_numbers<N: Node>(items: &[N]) -> Option<(u64, u64)>
    ensures { option_map pair_cell result ≡ pair_of (items_data N.data_of items.now) }
{
    let (first, after) = items.split_first()?;
    let (second, more) = after.split_first()?;
    match more.split_first() {
        None => Some((first.as_u64()?, second.as_u64()?)),
        Some(_) => None,
    }
}

impl FromTree for (u64, u64) {
    #[tactic(auto, using(crate::proofs::ScalarsShown::no_pair, crate::proofs::ScalarsShown::pair_refused, crate::proofs::ScalarsShown::pair_shown))]
    fn from_node<N: Node>(alloc: Global, node: &N) -> Result<(u64, u64), TreeError> {
        let items = node.items(alloc)?.ok_or(TreeError::Misfit)?;
        two_numbers(&items).ok_or(TreeError::Misfit)
    }
}

impl<T: FromTree> FromTree for Vec<T> {
    #[tactic(auto, using(crate::proofs::ListsShown::not_array))]
    fn from_node<N: Node>(alloc: Global, node: &N) -> Result<Vec<T>, TreeError> {
        let items = node.items(alloc)?.ok_or(TreeError::Misfit)?;
        let mut list = Vec::with_capacity(alloc, items.len())?;
        for item in &items {
            list.push(T::from_node(alloc, item)?)?;
        }
        Ok(list)
    }

    #[tactic(auto, using(crate::proofs::ListsShown::not_array, crate::proofs::Passing::list_passed, crate::proofs::Passing::list_refused))]
    fn pass<N: Node>(alloc: Global, node: &N, out: &mut Writer) -> Result<(), TreeError> {
        let items = node.items(alloc)?.ok_or(TreeError::Misfit)?;
        out.begin_array()?;
        pass_items::<T, N>(alloc, &items, out)?;
        out.end_array()?;
        Ok(())
    }
}

// So many members make a map at once: fewer are inserted one by one, which costs less then.
const MANY: usize = 16;

/// Returns the members of an object.
///
/// # Errors
///
/// - `Misfit` if the node is no object.
/// - `Memory` if an allocation fails.
#[inline(always)]
pub fn members_of<'n, N: Node>(alloc: Global, node: &'n N) -> Result<Vec<Named<'n, N>>, TreeError>
    ensures ok { IfOk result (λ members.
        as_object (N.data_of node.now) ≡ Some (named_by N.data_of members.items)) }
    ensures err { IfErr result (λ e. Only e (as_object (N.data_of node.now) ≡ None)) }
{
    node.members(alloc)?.ok_or(TreeError::Misfit)
}

// Reads the members of an object into a map at once: they are sorted, and the map is built of them,
// when they themselves are given back.
//
// # Errors
//
// `Misfit` if a member, which one of the same key may replace, is not a value of the type; `Memory`
// if an allocation fails.
#[inline(never)]
fn read_many<T: FromTree, N: Node>(
    alloc: Global,
    members: Vec<Named<'_, N>>,
) -> Result<Map<String, T>, TreeError>
    ensures { IfOk result (λ map. (now : Cell) → MembersShow (λ key. Shows T.kind now)
        (named_by N.data_of members.entry.items) (entries T.cell_of map.entries)) }
{
    let mut pairs = Vec::with_capacity(alloc, members.len())?;
    for member in &members {
        let name = String::from_str(alloc, member.key)?;
        pairs.push((name, T::from_node(alloc, &member.node)?))?;
    }
    drop(members);
    Ok(pairs.into_iter().collect(alloc)?)
}

// Reads the members of an object into a map one by one. Of members with equal keys, the last
// counts: they are read from the last to the first.
#[inline(always)]
fn read_each<T: FromTree, N: Node>(
    alloc: Global,
    members: &[Named<'_, N>],
) -> Result<Map<String, T>, TreeError>
    ensures { (d : Data) → as_object d ≡ Some (named_by N.data_of members.now)
        → Reads (map_kind T.kind) (λ m. map_cell T.cell_of m.entries) d result }
{
    let mut map = Map::new(alloc);
    let mut left = members.len();
    while left > 0 {
        left -= 1;
        let member = &members[left];
        let name = String::from_str(alloc, member.key)?;
        // A member whose key comes again later isn't even read.
        if let Entry::Vacant(place) = map.entry(name)? {
            place.insert(T::from_node(alloc, &member.node)?);
        }
    }
    Ok(map)
}

impl<T: FromTree> FromTree for Map<String, T> {
    #[tactic(auto, using(crate::proofs::ListsShown::no_map_fails))]
    fn from_node<N: Node>(alloc: Global, node: &N) -> Result<Map<String, T>, TreeError> {
        let members = members_of(alloc, node)?;
        if members.len() < MANY {
            return read_each(alloc, &members);
        }
        match read_many(alloc, members) {
            Ok(map) => Ok(map),
            Err(TreeError::Misfit) => read_each(alloc, &members_of(alloc, node)?),
            Err(TreeError::Memory) => Err(TreeError::Memory),
        }
    }

    #[tactic(auto, using(crate::proofs::ListsShown::no_map_fails, crate::proofs::Passing::map_passed, crate::proofs::Passing::map_refused))]
    fn pass<N: Node>(alloc: Global, node: &N, out: &mut Writer) -> Result<(), TreeError> {
        let members = members_of(alloc, node)?;
        out.begin_object()?;
        pass_members::<T, N>(alloc, &members, out)?;
        out.end_object()?;
        Ok(())
    }
}

/// Reads a list from an array, or from the array at the key `values` of an object.
///
/// # Errors
///
/// - `Misfit` if the tree is neither, or an item is not a value of the type.
/// - `Memory` if an allocation fails.
#[tactic(auto, using(crate::proofs::ValuesShown::bare_read, crate::proofs::ValuesShown::no_values))]
pub fn read_values<T: FromTree, N: Node>(alloc: Global, node: &N) -> Result<Vec<T>, TreeError>
    ensures { Reads (values_kind T.kind) (λ v.
        list_cell T.cell_of v.items) (N.data_of node.now) result }
{
    if node.is_array() {
        return FromTree::from_node(alloc, node);
    }
    let list = node.get("values").ok_or(TreeError::Misfit)?;
    FromTree::from_node(alloc, &list)
}
