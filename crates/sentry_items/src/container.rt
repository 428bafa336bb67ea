//! Containers: items that hold many logs or many metrics.

ghost use Rattle.std.specs.Prelude.{◌≡◌, ◌++◌, [], IfOk, OnErr, OnOk, false};
ghost use Rattle.serde_json.specs.Written.{compact_text, has_float};
ghost use Rattle.sentry_tables.specs.Written.{tree};
ghost use Rattle.sentry_tables.specs.Made.{made};
ghost use Rattle.sentry_tables.specs.Writes.{written, WritesTree};
ghost use Rattle.sentry_items.specs.Containers.{container_cell, container_kind, container_type, items_cell};
ghost use Rattle.sentry_items.specs.View.{payload_kind};
ghost use Rattle.sentry_items.specs.declared.container.ItemContainer.TheVariants as variants;

use crate::listed::Lent;
use sentry_framing::ItemKind;
use sentry_json::Writer;
use sentry_records::{Log, Metric};
use sentry_tables::{Member, Way};
use sentry_writing::plain::rows_are_plain;
use sentry_writing::table::write_table;
use std::alloc::AllocError;
use std::mem;

/// An item that holds many values of one type.
///
/// <https://develop.sentry.dev/sdk/data-model/envelope-items/>
#[derive(Debug, Drop, PartialEq)]
pub enum ItemContainer {
    /// Logs (`log`).
    Logs(Vec<Log>),
    /// Metrics (`trace_metric`).
    Metrics(Vec<Metric>),
}

impl ItemContainer {
    ghost use Rattle.std.specs.Prelude.{◌↔◌, nat_eq, IsTrue};
    ghost use Rattle.sentry_tables.specs.Meets.{IsPlain, IsStored};
    ghost use Rattle.sentry_framing.specs.ItemWords.{kind_word};
    ghost use Rattle.sentry_items.specs.Containers.{container_len, content_type};

    /// Returns the number of values.
    pub fn len(&self) -> usize
        ensures { result ≡ container_len self.now }
    {
        match self {
            ItemContainer::Logs(logs) => logs.len(),
            ItemContainer::Metrics(metrics) => metrics.len(),
        }
    }

    /// Returns whether the container has no values.
    pub fn is_empty(&self) -> bool
        ensures { result ≡ nat_eq (container_len self.now) 0 }
    {
        self.len() == 0
    }

    /// Returns the item type.
    pub fn kind(&self) -> ItemKind
        ensures { result ≡ container_type self.now }
    {
        match self {
            ItemContainer::Logs(_) => ItemKind::Logs,
            ItemContainer::Metrics(_) => ItemKind::Metrics,
        }
    }

    /// Returns the `type` in the item header: `log` or `trace_metric`.
    pub fn ty(&self) -> &'static str
        ensures { result.now ≡ kind_word (container_type self.now) }
    {
        self.kind().as_str()
    }

    /// Returns the media type in the item header (`content_type`).
    pub fn content_type(&self) -> &'static str
        ensures { result.now ≡ content_type self.now }
    {
        match self {
            ItemContainer::Logs(_) => "application/vnd.sentry.items.log+json",
            ItemContainer::Metrics(_) => "application/vnd.sentry.items.trace-metric+json",
        }
    }

    /// Returns whether the container can be written: no JSON value in its values holds a float.
    pub fn is_plain(&self) -> bool
        ensures plain { IsTrue result ↔
            IsPlain (payload_kind (container_type self.now)) (container_cell self.now) }
        ensures stored { IsTrue result →
            IsStored (payload_kind (container_type self.now)) (container_cell self.now) }
    {
        match self {
            ItemContainer::Logs(logs) => rows_are_plain(&Lent { items: logs }),
            ItemContainer::Metrics(metrics) => rows_are_plain(&Lent { items: metrics }),
        }
    }

    // Copies the container, or makes its normal form.
    pub(crate) fn remake(&self, way: Way) -> Result<ItemContainer, AllocError>
        ensures kind { IfOk result (λ container.
            container_type container ≡ container_type self.now) }
        ensures made { IfOk result (λ container.
            container_cell container ≡
            made way (payload_kind (container_type self.now)) (container_cell self.now)) }
    {
        Ok(match self {
            ItemContainer::Logs(logs) => ItemContainer::Logs(remake_items(logs, way)?),
            ItemContainer::Metrics(metrics) => ItemContainer::Metrics(remake_items(metrics, way)?),
        })
    }

    /// Clones the container. `AllocError` if an allocation fails.
    #[tactic(auto, unfolding(sentry_tables::specs::Made::made))]
    pub fn clone(&self) -> Result<ItemContainer, AllocError>
        ensures kind { IfOk result (λ container.
            container_type container ≡ container_type self.now) }
        ensures same { IfOk result (λ container.
            container_cell container ≡ container_cell self.now) }
    {
        self.remake(Way::Same)
    }
}

#[tactic(auto, using(crate::proofs::Containers::items_made))]
fn remake_items<T: Member>(items: &Vec<T>, way: Way) -> Result<Vec<T>, AllocError>
    ensures { IfOk result (λ copy.
        items_cell T.cell_of copy.items ≡
        made way (container_kind T.kind) (items_cell T.cell_of items.now.items)) }
{
    items.remake(way)
}

// Appends the payload of a container: an object with the values in the array `items`.
// `AllocError` if an allocation fails; `out` is empty then.
pub(crate) fn write_container_payload(
    container: &ItemContainer,
    out: &mut Vec<u8>,
) -> Result<(), AllocError>
    ensures ok { OnOk result (
        has_float (tree (payload_kind (container_type container.now))
        (container_cell container.now)) ≡ false
        → out.new.items ≡ out.old.items ++
        compact_text (tree (payload_kind (container_type container.now))
        (container_cell container.now))) }
    ensures err { OnErr result (out.new.items ≡ []) }
{
    let alloc = *out.allocator();
    let mut writer = Writer::new(mem::replace(out, Vec::new(alloc)));
    write_container_tree(container, &mut writer)?;
    *out = writer.into_inner();
    Ok(())
}

fn write_container_tree(container: &ItemContainer, out: &mut Writer) -> Result<(), AllocError>
    ensures { OnOk result (WritesTree (written (payload_kind (container_type container.now))
        (container_cell container.now)) out.old out.new) }
{
    match container {
        ItemContainer::Logs(logs) => write_table(&Lent { items: logs }, out),
        ItemContainer::Metrics(metrics) => write_table(&Lent { items: metrics }, out),
    }
}

impl From<Vec<Log>> for ItemContainer {
    ghost from_gives = { λ logs container. container ≡ variants.Logs logs };

    fn from(logs: Vec<Log>) -> ItemContainer {
        ItemContainer::Logs(logs)
    }
}

impl From<Vec<Metric>> for ItemContainer {
    ghost from_gives = { λ metrics container. container ≡ variants.Metrics metrics };

    fn from(metrics: Vec<Metric>) -> ItemContainer {
        ItemContainer::Metrics(metrics)
    }
}
