//! Floats in JSON trees.

ghost use Rattle.std.specs.Prelude.{◌≡◌, false};
ghost use Rattle.serde_json.specs.Data.{array, object, number as number_tree};
ghost use Rattle.serde_json.specs.Find.{is_float};
ghost use Rattle.serde_json.specs.View.{view, items_view, members_view, number_view};
ghost use Rattle.serde_json.specs.Written.{has_float, items_have_float, members_have_float};
ghost use Rattle.sentry_json.specs.Sound.{IsSound};

use serde_json::{Map, Number, Value};

/// Returns whether a number in a tree, at any depth, is a float.
///
/// A number with a point or an exponent, `-0`, and an integer that 64 bits don't hold are read as
/// floats. A tree without floats is sound: its numbers are in range, its strings and keys are
/// UTF-8, and its keys are in order.
#[cycle(has_float)]
#[inline(always)]
pub fn has_float(value: &Value) -> bool
    ensures float { result ≡ has_float (view value.now) }
    ensures sound { result ≡ false → IsSound (view value.now) }
{
    match value {
        Value::Number(number) => is_float(number),
        Value::Array(items) => items_have_float(items),
        Value::Object(members) => members_have_float(members),
        Value::String(text) => {
            let _text = text.as_str();
            false
        }
        Value::Null | Value::Bool(_) => false,
    }
}

fn is_float(number: &Number) -> bool
    ensures float { result ≡ is_float (number_view number.now) }
    ensures sound { result ≡ false → IsSound (number_tree (number_view number.now)) }
{
    match number.as_u64() {
        Some(_) => false,
        None => number.as_i64().is_none(),
    }
}

// Not inlined, nor is that of members: what is no list and no map is judged without a call.
#[cycle(has_float)]
#[inline(never)]
fn items_have_float(items: &Vec<Value>) -> bool
    ensures float { result ≡ items_have_float (items_view items.now.items) }
    ensures sound { result ≡ false → IsSound (array (items_view items.now.items)) }
{
    for item in items {
        if has_float(item) {
            return true;
        }
    }
    false
}

#[cycle(has_float)]
#[inline(never)]
fn members_have_float(members: &Map<String, Value>) -> bool
    ensures float { result ≡ members_have_float (members_view members.now.entries) }
    ensures sound { result ≡ false → IsSound (object (members_view members.now.entries)) }
{
    for (key, member) in members.iter() {
        let _key = key.as_str();
        if has_float(member) {
            return true;
        }
    }
    false
}
