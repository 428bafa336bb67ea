//! Iterators over the items of an envelope.

ghost use Rattle.std.specs.Prelude.{◌≡◌};

use sentry_items::EnvelopeItem;
use std::vec;

/// An iterator over the items of an envelope, in order.
#[derive(Clone, Drop)]
pub struct EnvelopeItemIter<'a> {
    items: &'a [EnvelopeItem],
}

impl<'a> EnvelopeItemIter<'a> {
    ghost use Rattle.sentry_envelope.specs.ItemsLeft.{items_left};

    pub(crate) fn new(items: &'a [EnvelopeItem]) -> EnvelopeItemIter<'a>
        ensures { items_left result ≡ items.now }
    {
        EnvelopeItemIter { items }
    }
}

impl<'a> Iterator for EnvelopeItemIter<'a> {
    ghost use Rattle.std.specs.Iterator.{YieldsFirstRef, item_count};
    ghost use Rattle.sentry_envelope.specs.ItemsLeft.{items_left};

    type Item = &'a EnvelopeItem;

    ghost next_gives = { YieldsFirstRef items_left };

    ghost remaining = { item_count items_left };

    fn next(&mut self) -> Option<&'a EnvelopeItem> {
        let (first, others) = self.items.split_first()?;
        self.items = others;
        Some(first)
    }
}

/// An iterator over the items of an envelope by value, in order.
#[derive(Drop)]
pub struct IntoItems {
    items: vec::IntoIter<EnvelopeItem>,
}

impl IntoItems {
    ghost use Rattle.sentry_envelope.specs.ItemsLeft.{owned_items_left};

    pub(crate) fn new(items: Vec<EnvelopeItem>) -> IntoItems
        ensures { owned_items_left result ≡ items.items }
    {
        IntoItems {
            items: items.into_iter(),
        }
    }
}

impl Iterator for IntoItems {
    ghost use Rattle.std.specs.Iterator.{YieldsFirst, item_count};
    ghost use Rattle.sentry_envelope.specs.ItemsLeft.{owned_items_left};

    type Item = EnvelopeItem;

    ghost next_gives = { YieldsFirst owned_items_left };

    ghost remaining = { item_count owned_items_left };

    fn next(&mut self) -> Option<EnvelopeItem> {
        self.items.next()
    }
}
