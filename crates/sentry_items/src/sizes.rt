//! Sizes of values as losses count them, and sums of sizes.

ghost use Rattle.std.specs.Prelude.{◌≡◌, ◌<◌, ◌^◌, sum_by};
ghost use Rattle.serde_json.specs.View.{view, items_view, members_view};
ghost use Rattle.sentry_items.specs.Sizes.{attributes_size, cut, data_size, items_size, log_size, members_size, metric_size, sessions_in};

use sentry_records::{Log, LogAttribute, Metric, SessionAggregateItem};
use serde_json::{Map, Value};

// A value with a size that losses count.
pub(crate) trait Measured {
    ghost use Rattle.std.specs.Prelude.{ℕ};

    // The size, without a limit.
    ghost size_of: { Self → ℕ };

    // The size, capped at 2^64-1.
    fn size(&self) -> u64
        ensures { result ≡ cut (size_of self.now) };
}

// Sums up the sizes without a limit, and caps the sum at 2^64-1.
#[tactic(auto, using(crate::proofs::Cut::cut_more))]
pub(crate) fn sum_of_sizes<T: Measured>(items: &[T]) -> u64
    ensures { result ≡ cut (sum_by T.size_of items.now) }
{
    let mut sum: u64 = 0;
    for item in items {
        sum = sum.saturating_add(item.size());
    }
    sum
}

// Widens a count, so that the sum of four counts fits.
fn widen(count: u32) -> u64
    ensures same { result ≡ count }
    ensures bounded { result < 2 ^ 32 }
{
    u64::from(count)
}

impl Measured for SessionAggregateItem {
    ghost size_of = { sessions_in };

    // The sessions of the group, whatever their status.
    fn size(&self) -> u64 {
        widen(self.exited) + widen(self.errored) + widen(self.abnormal) + widen(self.crashed)
    }
}

// The size of a JSON value: null 0, a boolean 1, a number 8, a string its bytes, an array its
// elements, an object its keys and values.
#[cycle(tree_size)]
fn tree_size(tree: &Value) -> u64
    ensures { result ≡ cut (data_size (view tree.now)) }
{
    match tree {
        Value::Null => 0,
        Value::Bool(_) => 1,
        Value::Number(_) => 8,
        Value::String(text) => text.len() as u64,
        Value::Array(items) => items_size(items),
        Value::Object(members) => members_size(members),
    }
}

#[cycle(tree_size)]
fn items_size(items: &Vec<Value>) -> u64
    ensures { result ≡ cut (items_size (items_view items.now.items)) }
{
    let mut sum: u64 = 0;
    for item in items {
        sum = sum.saturating_add(tree_size(item));
    }
    sum
}

#[cycle(tree_size)]
fn members_size(members: &Map<String, Value>) -> u64
    ensures { result ≡ cut (members_size (members_view members.now.entries)) }
{
    let mut sum: u64 = 0;
    for (key, member) in members.iter() {
        sum = sum
            .saturating_add(key.len() as u64)
            .saturating_add(tree_size(member));
    }
    sum
}

// The size of attributes: the bytes of their keys, and their values.
fn attributes_size(attributes: &Map<String, LogAttribute>) -> u64
    ensures { result ≡ cut (attributes_size attributes.now.entries) }
{
    let mut sum: u64 = 0;
    for (key, attribute) in attributes.iter() {
        let name = key.len() as u64;
        sum = sum
            .saturating_add(name)
            .saturating_add(tree_size(&attribute.0));
    }
    sum
}

impl Measured for Log {
    ghost size_of = { log_size };

    // The bytes of the body and the size of the attributes; at least 1.
    fn size(&self) -> u64 {
        let text = self.body.len() as u64;
        text.saturating_add(attributes_size(&self.attributes))
            .max(1)
    }
}

impl Measured for Metric {
    ghost size_of = { metric_size };

    // The bytes of the name, 8 for the value, and the size of the attributes.
    fn size(&self) -> u64 {
        let name = self.name.as_ref().len() as u64;
        name.saturating_add(8)
            .saturating_add(attributes_size(&self.attributes))
    }
}
