//! Nodes of JSON trees, on a tape or in a `serde_json` value.

ghost use Rattle.std.specs.Prelude.{◌≡◌, true, None, map, is_some, option_map, option_and_then, IfOk, IfSome};
ghost use Rattle.serde_json.specs.Data.{Data};
ghost use Rattle.serde_json.specs.Find as find;
ghost use Rattle.serde_json.specs.View.{view, number_view};
ghost use Rattle.sentry_json.specs.Sound.{IsRanged};
ghost use Rattle.sentry_json.specs.Keys.{are_distinct};
ghost use Rattle.sentry_json.specs.Nodes.{items_data, named_by};

use crate::object::Named;
use serde_json::{Number, Value};
use std::alloc::{AllocError, Global};

/// A node of a JSON tree, which a [`Value`] or a [`Tape`](crate::Tape) holds.
pub trait Node: Sized + Drop {
    // the tree at the node
    ghost data_of: { Self → Data };

    /// Returns whether the node is null.
    fn is_null(&self) -> bool
        ensures { result ≡ is_some (find.as_null (data_of self.now)) };

    /// Returns whether the node is an object.
    fn is_object(&self) -> bool
        ensures { result ≡ is_some (find.as_object (data_of self.now)) };

    /// Returns whether the node is an array.
    fn is_array(&self) -> bool
        ensures { result ≡ is_some (find.as_array (data_of self.now)) };

    /// Returns the boolean; `None` for other nodes.
    fn as_bool(&self) -> Option<bool>
        ensures { result ≡ find.as_bool (data_of self.now) };

    /// Returns the number if it is an integer in the range of `u64`; `None` for other nodes.
    fn as_u64(&self) -> Option<u64>
        ensures { result ≡ option_and_then find.as_u64 (find.as_number (data_of self.now)) };

    /// Returns the number if it is an integer in the range of `i64`; `None` for other nodes.
    fn as_i64(&self) -> Option<i64>
        ensures value { result ≡ option_and_then find.as_i64 (find.as_number (data_of self.now)) }
        ensures ranged { IfSome (find.as_number (data_of self.now)) IsRanged };

    /// Returns the string, unescaped; `None` for other nodes.
    fn as_str(&self) -> Option<&str>
        ensures { option_map (λ s. s.now) result ≡ find.as_str (data_of self.now) };

    /// Returns the member at a key; `None` if absent, or if the node is not an object.
    ///
    /// Of members with equal keys, the last counts.
    fn get(&self, key: &str) -> Option<Self>
        ensures { option_map data_of result ≡ find.get key.now (data_of self.now) };

    /// Looks up several keys at once: `places[i]` becomes the member at `keys[i]`, if present.
    ///
    /// The keys are distinct; `places` has as many elements, each `None` before the call.
    fn get_each(&self, keys: &[&str], places: &mut [Option<Self>])
        requires distinct { are_distinct (map (λ key. key.now) keys.now) ≡ true }
        requires empty { map (option_map data_of) places.old ≡ map (λ key. None) keys.now }
        ensures { map (option_map data_of) places.new
            ≡ map (λ key. find.get key.now (data_of self.now)) keys.now };

    /// Returns the string at a key; `None` if absent or not a string.
    fn text_at(&self, key: &str) -> Option<&str>
        ensures { option_map (λ s. s.now) result
            ≡ option_and_then find.as_str (find.get key.now (data_of self.now)) };

    /// Returns the items of an array; `None` for other nodes.
    ///
    /// # Errors
    ///
    /// `AllocError` if an allocation fails.
    fn items(&self, alloc: Global) -> Result<Option<Vec<Self>>, AllocError>
        ensures { IfOk result (λ o. option_map (λ v. items_data data_of v.items) o
            ≡ find.as_array (data_of self.now)) };

    /// Returns the members of an object, in the order of the tree; `None` for other nodes.
    ///
    /// Keys may repeat: of members with equal keys, the last counts.
    ///
    /// # Errors
    ///
    /// `AllocError` if an allocation fails.
    fn members(&self, alloc: Global) -> Result<Option<Vec<Named<'_, Self>>>, AllocError>
        ensures { IfOk result (λ o. option_map (λ v. named_by data_of v.items) o
            ≡ find.as_object (data_of self.now)) };

    /// Copies the tree at the node.
    ///
    /// # Errors
    ///
    /// `AllocError` if an allocation fails.
    fn to_value(&self, alloc: Global) -> Result<Value, AllocError>
        ensures { IfOk result (λ v. view v ≡ data_of self.now) };
}

impl<'v> Node for &'v Value {
    ghost data_of = { λ tree. view tree.now };

    fn is_null(&self) -> bool {
        Value::is_null(*self)
    }

    fn is_object(&self) -> bool {
        Value::is_object(*self)
    }

    fn is_array(&self) -> bool {
        Value::is_array(*self)
    }

    fn as_bool(&self) -> Option<bool> {
        Value::as_bool(*self)
    }

    fn as_u64(&self) -> Option<u64> {
        Value::as_u64(*self)
    }

    fn as_i64(&self) -> Option<i64> {
        number_as_i64(Value::as_number(*self)?)
    }

    fn as_str(&self) -> Option<&str> {
        Value::as_str(*self)
    }

    fn get(&self, key: &str) -> Option<&'v Value> {
        Value::get(*self, key)
    }

    fn get_each(&self, keys: &[&str], places: &mut [Option<&'v Value>]) {
        for i in 0..keys.len() {
            places[i] = Value::get(*self, keys[i]);
        }
    }

    fn text_at(&self, key: &str) -> Option<&str> {
        Value::as_str(Value::get(*self, key)?)
    }

    fn items(&self, alloc: Global) -> Result<Option<Vec<&'v Value>>, AllocError> {
        let Some(items) = Value::as_array(*self) else {
            return Ok(None);
        };
        let mut nodes = Vec::with_capacity(alloc, items.len())?;
        for item in items {
            nodes.push(item)?;
        }
        Ok(Some(nodes))
    }

    fn members(&self, alloc: Global) -> Result<Option<Vec<Named<'_, &'v Value>>>, AllocError> {
        let Some(members) = Value::as_object(*self) else {
            return Ok(None);
        };
        let mut named = Vec::with_capacity(alloc, members.len())?;
        for (key, node) in members.iter() {
            named.push(Named {
                key: key.as_str(),
                node,
            })?;
        }
        Ok(Some(named))
    }

    fn to_value(&self, _alloc: Global) -> Result<Value, AllocError> {
        Value::clone(*self)
    }
}

// Both arms are equal; the match serves the proof of `ranged`.
fn number_as_i64(number: &Number) -> Option<i64>
    ensures value { result ≡ find.as_i64 (number_view number.now) }
    ensures ranged { IsRanged (number_view number.now) }
{
    match number.as_u64() {
        Some(_) => number.as_i64(),
        None => number.as_i64(),
    }
}
