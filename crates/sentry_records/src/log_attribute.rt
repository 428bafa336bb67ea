//! Attributes of logs and metrics.

ghost use Rattle.std.specs.Prelude.{◌≡◌, IfOk, OnOk, OnErr, None};
ghost use Rattle.serde_json.specs.Data.{number as number_data, string as string_data, member, no_members};
ghost use Rattle.serde_json.specs.Find.{as_i64};
ghost use Rattle.serde_json.specs.View.{view, number_view};
ghost use Rattle.sentry_tables.specs.Kind.{tag};
ghost use Rattle.sentry_tables.specs.Writes.{WritesMembers};
ghost use Rattle.sentry_records.specs.LogAttribute.{attribute_cell, attribute_form, attribute_kind, attribute_members, compacted, value_key, ReadsTyped};

use sentry_json::{Node, Writer};
use sentry_rows::Sink;
use sentry_rows::table::leave;
use sentry_rows::tagged::tag;
use sentry_rows::text::TextRows;
use sentry_rows::tree::TreeRows;
use sentry_tables::spelled::print_into;
use sentry_tables::tree::has_float;
use sentry_tables::{FromTree, Member, Own, Room, TreeError, Way, text_of};
use serde_json::{Number, Value};
use std::alloc::{AllocError, Global};
use std::str;

/// The value of an attribute of a log or metric: an object with the members `type` and `value`.
///
/// A string is written with the type `string`, a boolean with `boolean`, an integer below 2^63 with
/// `integer`; any other value is written as a `string` of its compact JSON. A float at any depth
/// makes the value unwritable (`NotPlain`).
///
/// Reading takes these three types only, each with a `value` of that type; other members are
/// ignored.
///
/// <https://develop.sentry.dev/sdk/telemetry/attributes/>
#[derive(Debug, Drop, PartialEq)]
pub struct LogAttribute(pub Value);

impl LogAttribute {
    // Serializes the members `type` and `value`.
    fn give<S: Sink>(&self, sink: &mut S) -> Result<(), AllocError>
        ensures ok { OnOk result
            (S.Adds sink.old sink.new (attribute_members (attribute_form (view self.now.0)))) }
        ensures err { OnErr result (sink.new ≡ sink.old) }
    {
        match &self.0 {
            Value::Null => {
                give_text("null", sink);
                Ok(())
            }
            Value::Bool(_) => {
                give_typed("boolean", &self.0, sink);
                Ok(())
            }
            Value::Number(number) => {
                if number.as_i64().is_some() {
                    give_typed("integer", &self.0, sink);
                    Ok(())
                } else {
                    give_large(number, sink)
                }
            }
            Value::String(text) => {
                give_text(text.as_str(), sink);
                Ok(())
            }
            Value::Array(items) => give_compact(*items.allocator(), &self.0, sink),
            Value::Object(members) => match members.iter().next() {
                Some((key, _)) => give_compact(*key.allocator(), &self.0, sink),
                None => {
                    give_text("{}", sink);
                    Ok(())
                }
            },
        }
    }

    // Writes the members without the braces of the object.
    fn write_members(&self, out: &mut Writer) -> Result<(), AllocError>
        ensures { OnOk result
            (WritesMembers (attribute_members (attribute_form (view self.now.0))) out.old out.new) }
    {
        let mut text = TextRows { out, failed: None };
        let gave = self.give(&mut text);
        let TextRows { out, failed } = text;
        leave(out);
        gave?;
        match failed {
            None => Ok(()),
            Some(error) => Err(error),
        }
    }

    // The normal form: the attribute that is read back from the written one.
    fn normal_form(&self, alloc: Global) -> Result<LogAttribute, AllocError>
        ensures { IfOk result (λ a. view a.0 ≡ attribute_form (view self.now.0)) }
    {
        match &self.0 {
            Value::Bool(_) | Value::String(_) => self.clone(),
            Value::Number(number) => {
                if number.as_i64().is_some() {
                    self.clone()
                } else {
                    compact(alloc, &self.0)
                }
            }
            Value::Null | Value::Array(_) | Value::Object(_) => compact(alloc, &self.0),
        }
    }

    /// Clones the attribute. `AllocError` if an allocation fails.
    pub fn clone(&self) -> Result<LogAttribute, AllocError>
        ensures { IfOk result (λ copy. attribute_cell copy ≡ attribute_cell self.now) }
    {
        Ok(LogAttribute(self.0.clone()?))
    }
}

impl Member for LogAttribute {
    ghost kind = { attribute_kind };

    ghost cell_of = { attribute_cell };

    fn to_tree(&self, alloc: Global) -> Result<Value, AllocError> {
        let mut rows = TreeRows::new(alloc);
        self.give(&mut rows)?;
        rows.into_tree()
    }

    fn write(&self, out: &mut Writer) -> Result<(), AllocError> {
        out.begin_object()?;
        self.write_members(out)?;
        out.end_object()
    }

    #[tactic(auto, using(crate::proofs::Attributes::attribute_same, crate::proofs::Attributes::attribute_normal))]
    fn remake(&self, way: Way) -> Result<LogAttribute, AllocError> {
        match way {
            Way::Same => self.clone(),
            Way::Normal(alloc) => self.normal_form(alloc),
        }
    }

    #[tactic(auto, unfolding(crate::specs::LogAttribute::attribute_kind))]
    fn is_null_tree(&self) -> bool {
        false
    }

    #[tactic(auto, using(sentry_tables::proofs::SoundTrees::sound_is_stored), unfolding(crate::specs::LogAttribute::attribute_kind))]
    fn is_plain(&self) -> bool {
        !has_float(&self.0)
    }
}

impl FromTree for LogAttribute {
    #[inline(always)]
    #[tactic(auto, using(crate::proofs::Attributes::attribute_is, crate::proofs::Attributes::no_type, crate::proofs::Attributes::no_value, crate::proofs::Attributes::another_type))]
    fn from_node<N: Node>(alloc: Global, node: &N) -> Result<LogAttribute, TreeError> {
        let word = tag(node).ok_or(TreeError::Misfit)?;
        let value = node.get("value").ok_or(TreeError::Misfit)?;
        Ok(LogAttribute(read_typed(alloc, word, &value)?))
    }
}

// A string attribute of the compact JSON of `tree`; the string is empty if `tree` holds a float.
fn compact(alloc: Global, tree: &Value) -> Result<LogAttribute, AllocError>
    ensures { IfOk result (λ a. view a.0 ≡ compacted (view tree.now)) }
{
    if has_float(tree) {
        return Ok(LogAttribute::from(String::new(alloc)));
    }
    let text = text_of(alloc, tree)?;
    match String::from_utf8(text) {
        Ok(text) => Ok(LogAttribute::from(text)),
        Err(_) => unreachable!(),
    }
}

// Serializes an attribute whose value is written unchanged, with the type `word`.
fn give_typed<S: Sink>(word: &str, value: &Value, sink: &mut S)
    ensures { S.Adds sink.old sink.new
        (member tag (string_data word.now) (member value_key (view value.now) no_members)) }
{
    sink.word("type", word);
    sink.member::<Own, Value>("value", value);
}

// Serializes a string attribute.
fn give_text<S: Sink>(text: &str, sink: &mut S)
    ensures { S.Adds sink.old sink.new (attribute_members (string_data text.now)) }
{
    sink.word("type", "string");
    sink.word("value", text);
}

// Serializes a string attribute of the compact JSON of `value`; the string is empty if `value`
// holds a float.
fn give_compact<S: Sink>(alloc: Global, value: &Value, sink: &mut S) -> Result<(), AllocError>
    ensures ok { OnOk result
        (S.Adds sink.old sink.new (attribute_members (compacted (view value.now)))) }
    ensures err { OnErr result (sink.new ≡ sink.old) }
{
    if has_float(value) {
        give_text("", sink);
        return Ok(());
    }
    let text = text_of(alloc, value)?;
    match str::from_utf8(text.as_slice()) {
        Ok(text) => {
            give_text(text, sink);
            Ok(())
        }
        Err(_) => unreachable!(),
    }
}

// Serializes a string attribute of a number that is no `i64`: its digits from 2^63 on, the empty
// string for a float.
#[tactic(auto, using(sentry_text::proofs::Lengths::decimal_size))]
fn give_large<S: Sink>(number: &Number, sink: &mut S) -> Result<(), AllocError>
    ensures ok { OnOk result (as_i64 (number_view number.now) ≡ None
        → S.Adds sink.old sink.new
        (attribute_members (compacted (number_data (number_view number.now))))) }
    ensures err { OnErr result (sink.new ≡ sink.old) }
{
    let Some(natural) = number.as_u64() else {
        give_text("", sink);
        return Ok(());
    };
    let mut room = Room::new();
    give_text(print_into(&natural, &mut room)?, sink);
    Ok(())
}

// Reads a value of the type `word`; `Misfit` for an unknown type or a value of another type.
#[inline(always)]
fn read_typed<N: Node>(alloc: Global, word: &str, value: &N) -> Result<Value, TreeError>
    ensures { ReadsTyped word.now (N.data_of value.now) result }
{
    match word {
        "string" => match value.as_str() {
            Some(text) => Ok(Value::try_from_str(alloc, text)?),
            None => Err(TreeError::Misfit),
        },
        "integer" => match value.as_i64() {
            Some(whole) => Ok(Value::from(whole)),
            None => Err(TreeError::Misfit),
        },
        "boolean" => match value.as_bool() {
            Some(truth) => Ok(Value::from(truth)),
            None => Err(TreeError::Misfit),
        },
        _ => Err(TreeError::Misfit),
    }
}

/// Wraps a JSON value.
impl From<Value> for LogAttribute {
    ghost from_gives = { λ tree a. a.0 ≡ tree };

    fn from(value: Value) -> LogAttribute {
        LogAttribute(value)
    }
}

/// Wraps a boolean.
impl From<bool> for LogAttribute {
    ghost use Rattle.serde_json.specs.Data.{boolean};

    ghost from_gives = { λ truth a. view a.0 ≡ boolean truth };

    fn from(truth: bool) -> LogAttribute {
        LogAttribute(Value::from(truth))
    }
}

/// Wraps an integer.
impl From<i64> for LogAttribute {
    ghost use Rattle.serde_json.specs.Data.{number};
    ghost use Rattle.serde_json.specs.Find.{of_integer};

    ghost from_gives = { λ n a. view a.0 ≡ number (of_integer n) };

    fn from(number: i64) -> LogAttribute {
        LogAttribute(Value::from(number))
    }
}

/// Wraps an unsigned integer; from 2^63 on, the number is written as a `string`.
impl From<u64> for LogAttribute {
    ghost use Rattle.serde_json.specs.Data.{number, unsigned};

    ghost from_gives = { λ n a. view a.0 ≡ number (unsigned n) };

    fn from(number: u64) -> LogAttribute {
        LogAttribute(Value::from(number))
    }
}

/// Wraps a string.
impl From<String> for LogAttribute {
    ghost use Rattle.std.specs.Prelude.{string_bytes};
    ghost use Rattle.serde_json.specs.Data.{string};

    ghost from_gives = { λ s a. view a.0 ≡ string (string_bytes s) };

    fn from(text: String) -> LogAttribute {
        LogAttribute(Value::from(text))
    }
}
