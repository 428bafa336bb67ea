//! Items of client reports.
#![tactic(auto, unfolding(crate::specs::ItemTable::item_fields))]

ghost use Rattle.sentry_reports.specs.ItemTable.{item_fields, item_in_order};

use crate::category::Category;
use crate::reason::Reason;
use sentry_rows::{AsTable, Copier, CopyTable, ReadTable, Sink, Source, Table};
use sentry_tables::Formed;
use std::alloc::AllocError;

/// An item of a client report: the quantity lost in a category for a reason.
///
/// <https://develop.sentry.dev/sdk/telemetry/client-reports/>
#[derive(Clone, Copy, Debug)]
pub struct Item {
    pub(crate) category: Category,
    pub(crate) reason: Reason,
    pub(crate) quantity: u64,
}

impl Item {
    ghost use Rattle.std.specs.Prelude.{◌≡◌};

    /// Creates an item: a loss of `quantity` in `category` for `reason`.
    pub fn new(category: Category, reason: Reason, quantity: u64) -> Item
        ensures category { result.category ≡ category }
        ensures reason { result.reason ≡ reason }
        ensures quantity { result.quantity ≡ quantity }
    {
        Item {
            category,
            reason,
            quantity,
        }
    }
}

impl Formed for Item {
    type Form = AsTable;
}

impl Table for Item {
    ghost lines = { item_fields };

    fn rows<S: Sink>(&self, to: &mut S) {
        to.required("category", &self.category);
        to.required("quantity", &self.quantity);
        to.required("reason", &self.reason);
    }

    ghost ordered = { item_in_order };
}

impl ReadTable for Item {
    fn read<S: Source>(from: &mut S) -> Item {
        Item {
            category: from.required("category", Category::Error),
            quantity: from.required("quantity", 0),
            reason: from.required("reason", Reason::SendError),
        }
    }
}

impl CopyTable for Item {
    fn copy_rows(&self, copies: &mut Copier) -> Result<Item, AllocError> {
        Ok(Item {
            category: copies.plain(&self.category),
            quantity: copies.plain(&self.quantity),
            reason: copies.plain(&self.reason),
        })
    }
}
