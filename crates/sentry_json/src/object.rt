//! JSON objects whose members are collected once, for lookups by key.

ghost use Rattle.std.specs.Prelude.{◌≡◌, map, option_map, IfOk};
ghost use Rattle.serde_json.specs.Find as find;
ghost use Rattle.serde_json.specs.View.{members_view};
ghost use Rattle.sentry_json.specs.Keys.{beside};
ghost use Rattle.sentry_json.specs.Nodes.{named_by, object_data};

use crate::keys::{is_among, is_same};
use crate::node::Node;
use serde_json::{Map, Value};
use std::alloc::{AllocError, Global};

/// A member of an object: its key and the node of its value.
#[derive(Drop)]
pub struct Named<'n, N> {
    /// Key, unescaped.
    pub key: &'n str,
    /// Node of the value.
    pub node: N,
}

/// An object with its members collected; of members with equal keys, the last counts.
#[derive(Drop)]
pub struct Object<'n, N> {
    /// Members in the order of the tree; keys may repeat.
    pub members: Vec<Named<'n, N>>,
}

impl<'n, N: Node> Object<'n, N> {
    /// Collects the members of the object at a node; `None` if the node is not an object.
    ///
    /// # Errors
    ///
    /// `AllocError` if an allocation fails.
    pub fn new(alloc: Global, node: &'n N) -> Result<Option<Object<'n, N>>, AllocError>
        ensures { IfOk result (λ o. option_map (λ it. named_by N.data_of it.members.items) o
            ≡ find.as_object (N.data_of node.now)) }
    {
        Ok(node.members(alloc)?.map(|members| Object { members }))
    }

    /// Returns the node at a key; `None` if absent.
    pub fn get(&self, key: &str) -> Option<&N>
        ensures { option_map (λ node. N.data_of node.now) result
            ≡ find.get key.now (object_data N.data_of self.now) }
    {
        let mut left = self.members.len();
        while left > 0 {
            left -= 1;
            let member = &self.members[left];
            if is_same(member.key, key) {
                return Some(&member.node);
            }
        }
        None
    }

    /// Copies the members whose keys are none of `names`.
    ///
    /// # Errors
    ///
    /// `AllocError` if an allocation fails.
    pub fn members_beside(
        &self,
        alloc: Global,
        names: &[&str],
    ) -> Result<Map<String, Value>, AllocError>
        ensures { IfOk result (λ m. members_view m.entries
            ≡ beside (map (λ name.
            name.now) names.now) (named_by N.data_of self.now.members.items)) }
    {
        let mut others = Map::new(alloc);
        for member in &self.members {
            if is_among(names, member.key) {
                continue;
            }
            let name = String::from_str(alloc, member.key)?;
            drop(others.insert(name, member.node.to_value(alloc)?)?);
        }
        Ok(others)
    }
}
