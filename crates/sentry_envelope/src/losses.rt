//! The losses of items, and of an envelope: those of its items, in order.

ghost use Rattle.std.specs.Prelude.{◌≡◌, ◌++◌, OnOk};
ghost use Rattle.sentry_items.specs.Losses.{losses_of_item};

use crate::envelope::Envelope;
use sentry_items::{EnvelopeItem, ItemLossIter, LossSource};
use sentry_reports::ItemLoss;
use std::alloc::AllocError;

impl LossSource for Envelope {
    ghost use Rattle.sentry_envelope.specs.EnvelopeLosses.{losses_of_envelope};

    ghost losses_of = { losses_of_envelope };

    fn losses(&self) -> ItemLossIter<'_> {
        ItemLossIter::of_items(self.item_slice())
    }
}

/// Appends the losses of an item.
///
/// # Errors
///
/// `AllocError` if an allocation fails; some of the losses may have been appended.
pub fn push_losses(item: &EnvelopeItem, losses: &mut Vec<ItemLoss>) -> Result<(), AllocError>
    ensures { OnOk result (losses.new.items ≡ losses.old.items ++ losses_of_item item.now) }
{
    for loss in item.losses() {
        losses.push(loss)?;
    }
    Ok(())
}
