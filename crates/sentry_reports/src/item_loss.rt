//! Losses, with or without a reason.

use crate::category::Category;
use crate::item::Item;
use crate::reason::Reason;

/// A loss of a quantity in a category, with the reason if known.
#[derive(Clone, Copy, Debug)]
pub struct ItemLoss {
    /// Data category.
    pub category: Category,
    /// Quantity lost, in the unit of the category.
    pub quantity: u64,
    /// Discard reason, if known.
    pub reason: Option<Reason>,
}

impl From<Item> for ItemLoss {
    ghost use Rattle.std.specs.Prelude.{◌≡◌};
    ghost use Rattle.sentry_reports.specs.Items.{item_loss};

    ghost from_gives = { λ item loss. loss ≡ item_loss item };

    /// Returns the loss that an item reports, with its reason.
    fn from(item: Item) -> ItemLoss {
        ItemLoss {
            category: item.category,
            quantity: item.quantity,
            reason: Some(item.reason),
        }
    }
}
