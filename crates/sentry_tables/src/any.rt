//! JSON trees as members.

ghost use Rattle.std.specs.Prelude.{OnOk};
ghost use Rattle.serde_json.specs.Data.{array, object, number as number_data};
ghost use Rattle.serde_json.specs.View.{view, items_view, members_view, number_view};
ghost use Rattle.sentry_tables.specs.Cells.{tree_cell};
ghost use Rattle.sentry_tables.specs.Kinds.{any_kind};
ghost use Rattle.sentry_tables.specs.Writes.{WritesTree, WritesItems, WritesMembers};

use crate::member::Member;
use crate::tree::has_float;
use crate::way::Way;
use sentry_json::Writer;
use serde_json::{Map, Number, Value};
use std::alloc::{AllocError, Global};

impl Member for Value {
    ghost kind = { any_kind };

    ghost cell_of = { tree_cell };

    #[tactic(auto, unfolding(crate::specs::Writes::written))]
    fn to_tree(&self, _alloc: Global) -> Result<Value, AllocError> {
        self.clone()
    }

    #[tactic(auto, unfolding(crate::specs::Writes::written))]
    fn write(&self, out: &mut Writer) -> Result<(), AllocError> {
        write_value(self, out)
    }

    #[tactic(auto, using(crate::proofs::Ways::unchanged))]
    fn remake(&self, _way: Way) -> Result<Value, AllocError> {
        self.clone()
    }

    #[tactic(auto, using(crate::proofs::Ways::tree_null))]
    fn is_null_tree(&self) -> bool {
        self.is_null()
    }

    #[tactic(auto, using(crate::proofs::SoundTrees::sound_is_stored))]
    fn is_plain(&self) -> bool {
        !has_float(self)
    }
}

/// Writes a tree as JSON text.
///
/// The contract covers trees without floats.
///
/// # Errors
///
/// `AllocError` if an allocation fails; part of the text may have been written.
#[cycle(write_value)]
#[inline(always)]
pub fn write_value(value: &Value, out: &mut Writer) -> Result<(), AllocError>
    ensures { OnOk result (WritesTree (view value.now) out.old out.new) }
{
    match value {
        Value::Null => out.null(),
        Value::Bool(truth) => out.boolean(*truth),
        Value::Number(number) => write_number(number, out),
        Value::String(text) => out.string(text.as_str()),
        Value::Array(items) => write_array(items, out),
        Value::Object(members) => write_object(members, out),
    }
}

// Not inlined, nor is that of objects: what is no list and no map is written where it stands.
#[cycle(write_value)]
#[inline(never)]
fn write_array(items: &Vec<Value>, out: &mut Writer) -> Result<(), AllocError>
    ensures { OnOk result (WritesTree (array (items_view items.now.items)) out.old out.new) }
{
    out.begin_array()?;
    write_items(items, out)?;
    out.end_array()
}

#[cycle(write_value)]
#[inline(never)]
fn write_object(members: &Map<String, Value>, out: &mut Writer) -> Result<(), AllocError>
    ensures { OnOk result (WritesTree (object (members_view members.now.entries)) out.old out.new) }
{
    out.begin_object()?;
    write_members(members, out)?;
    out.end_object()
}

#[cycle(write_value)]
fn write_items(items: &Vec<Value>, out: &mut Writer) -> Result<(), AllocError>
    ensures { OnOk result (WritesItems (items_view items.now.items) out.old out.new) }
{
    for item in items {
        write_value(item, out)?;
    }
    Ok(())
}

#[cycle(write_value)]
fn write_members(members: &Map<String, Value>, out: &mut Writer) -> Result<(), AllocError>
    ensures { OnOk result (WritesMembers (members_view members.now.entries) out.old out.new) }
{
    for (key, member) in members.iter() {
        out.key(key.as_str())?;
        write_value(member, out)?;
    }
    Ok(())
}

#[inline(always)]
fn write_number(number: &Number, out: &mut Writer) -> Result<(), AllocError>
    ensures { OnOk result (WritesTree (number_data (number_view number.now)) out.old out.new) }
{
    if let Some(natural) = number.as_u64() {
        return out.u64(natural);
    }
    if let Some(whole) = number.as_i64() {
        return out.i64(whole);
    }
    match number.as_f64() {
        Some(float) if float.is_finite() => out.float(float),
        _ => out.null(),
    }
}
