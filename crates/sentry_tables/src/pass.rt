//! Values that are written while they are read, without a value of the whole between.

ghost use Rattle.std.specs.Prelude.{◌≡◌, IfOk};
ghost use Rattle.sentry_json.specs.Nodes.{items_data, named_by};
ghost use Rattle.sentry_tables.specs.Kinds.{text_kind};
ghost use Rattle.sentry_tables.specs.Passed.{Passes, PassesItems, PassesMembers, members_held};

use crate::error::TreeError;
use crate::read::FromTree;
use sentry_json::{Named, Node, Writer};
use std::alloc::{AllocError, Global};
use std::collections::BTreeMap;

/// Ends a mutable borrow; the borrowed value is unchanged.
pub fn leave<S>(_sink: &mut S)
    ensures { _sink.new ≡ _sink.old }
{}

/// Writes the string at a node as JSON text.
///
/// # Errors
///
/// - `Misfit` if the node is no string.
/// - `Memory` if an allocation fails.
#[tactic(auto, using(crate::proofs::ScalarsShown::text_refused, crate::proofs::Passing::text_passed))]
pub fn pass_text<N: Node>(node: &N, out: &mut Writer) -> Result<(), TreeError>
    ensures { Passes text_kind (N.data_of node.now) result out.old out.new }
{
    let text = node.as_str().ok_or(TreeError::Misfit)?;
    out.string(text)?;
    Ok(())
}

/// Writes the values that items show, in order, without the brackets round them.
///
/// # Errors
///
/// - `Misfit` if an item is not a value of the type.
/// - `Memory` if an allocation fails.
///
/// Part of the text may have been written.
pub fn pass_items<T: FromTree, N: Node>(
    alloc: Global,
    items: &[N],
    out: &mut Writer,
) -> Result<(), TreeError>
    ensures { PassesItems T.kind (items_data N.data_of items.now) result out.old out.new }
{
    for item in items {
        T::pass(alloc, item, out)?;
    }
    Ok(())
}

// Returns the nodes of members by their keys, in key order; of members with equal keys, the last
// counts.
fn by_key<'n, 'm, N: Node>(
    alloc: Global,
    members: &'m [Named<'n, N>],
) -> Result<BTreeMap<&'n str, &'m N>, AllocError>
    ensures { IfOk result (λ map.
        members_held N.data_of map.entries ≡ named_by N.data_of members.now) }
{
    let mut nodes = BTreeMap::new(alloc);
    for member in members {
        drop(nodes.insert(member.key, &member.node)?);
    }
    Ok(nodes)
}

/// Writes the values that members show, in key order, without the braces round them; of members
/// with equal keys, the last counts.
///
/// # Errors
///
/// - `Misfit` if a member that counts is not a value of the type.
/// - `Memory` if an allocation fails.
///
/// Part of the text may have been written.
pub fn pass_members<T: FromTree, N: Node>(
    alloc: Global,
    members: &[Named<'_, N>],
    out: &mut Writer,
) -> Result<(), TreeError>
    ensures { PassesMembers T.kind (named_by N.data_of members.now) result out.old out.new }
{
    let nodes = by_key(alloc, members)?;
    for (key, node) in nodes.iter() {
        out.key(*key)?;
        T::pass(alloc, *node, out)?;
    }
    Ok(())
}
