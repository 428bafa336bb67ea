//! Filters of envelope items.

use crate::called::{Asked, Given};
use sentry_items::EnvelopeItem;
use sentry_words::Sealed;

/// A filter of envelope items, which decides about each item and receives the removed ones.
///
/// A closure `FnMut(&EnvelopeItem) -> bool` is a filter that drops the removed items: closures are
/// [`Asked`]. [`EnvelopeFilterCallbacks`] is a filter of two closures.
///
/// The calls are those of Sentry's own crate `sentry-types`:
/// <https://docs.rs/sentry-types/latest/sentry_types/protocol/v7/trait.EnvelopeFilter.html>
pub trait EnvelopeFilter: Drop + Sealed {
    ghost use Rattle.std.specs.Prelude.{Bool};
    ghost use Rattle.sentry_items.specs.declared.item.EnvelopeItem.{EnvelopeItem};

    /// Holds for a filter that may be called with any item.
    ghost can_filter: { Self → Type 0 };

    /// Relates a filter, an item, the answer about the item, and the filter after the call.
    ghost ask: { Self → EnvelopeItem → Bool → Self → Type 0 };

    /// Relates a filter, a removed item, and the filter after it received the item.
    ghost hand: { Self → EnvelopeItem → Self → Type 0 };

    /// Returns whether to keep an item.
    ///
    /// An attachment that is to be kept is removed all the same if no event and no transaction is
    /// kept.
    fn filter(&mut self, item: &EnvelopeItem) -> bool
        requires { can_filter self.old }
        ensures { ask self.old item.now result self.new };

    /// Receives a removed item, also one that `filter` wanted to keep.
    fn on_filtered(&mut self, item: EnvelopeItem)
        requires { can_filter self.old }
        ensures { hand self.old item self.new };

    /// A filter may be called again after `filter`.
    ghost ask_keeps: { (first : Self) (item : EnvelopeItem) (answer : Bool) (next : Self) →
        can_filter first → ask first item answer next → can_filter next };

    /// A filter may be called again after `on_filtered`.
    ghost hand_keeps: { (first : Self) (item : EnvelopeItem) (next : Self) → can_filter first →
        hand first item next → can_filter next };
}

impl<F: Asked<EnvelopeItem>> EnvelopeFilter for F {
    ghost use Rattle.std.specs.Prelude.{◌≡◌};
    ghost use Rattle.std.proofs.Common.{subst, sym};

    ghost can_filter = { λ f. F.can_ask f };

    ghost ask = { λ f item answer next. F.asks f item answer next };

    ghost hand = { λ f item next. next ≡ f };

    ghost ask_keeps = { λ first item answer next ready asked.
        F.ask_again first item answer next ready asked };

    ghost hand_keeps = { λ first item next ready is. subst F.can_ask (sym is) ready };

    fn filter(&mut self, item: &EnvelopeItem) -> bool {
        self.ask(item)
    }

    /// Drops the item.
    fn on_filtered(&mut self, item: EnvelopeItem) {
        drop(item);
    }
}

/// A filter of two closures: one decides about items, and one receives the removed items.
#[derive(Drop)]
pub struct EnvelopeFilterCallbacks<F, P> {
    filter: F,
    on_filtered: P,
}

impl<F, P> EnvelopeFilterCallbacks<F, P> {
    ghost use Rattle.std.specs.Prelude.{◌≡◌};
    ghost use Rattle.sentry_envelope.specs.Callbacks.{asking, handing};

    /// Creates a filter from a closure that decides and a closure that receives the removed items.
    pub fn new(filter: F, on_filtered: P) -> Self
        ensures asks { asking result ≡ filter }
        ensures hands { handing result ≡ on_filtered }
    {
        EnvelopeFilterCallbacks {
            filter,
            on_filtered,
        }
    }
}

impl<F: Asked<EnvelopeItem>, P: Given<EnvelopeItem>> EnvelopeFilter
    for EnvelopeFilterCallbacks<F, P> {
    ghost use Rattle.std.specs.Prelude.{◌≡◌};
    ghost use Rattle.std.proofs.Common.{subst, sym};
    ghost use Rattle.sentry_envelope.specs.Callbacks.{asking, handing};

    ghost can_filter = { λ f. F.can_ask (asking f) × P.can_give (handing f) };

    ghost ask = { λ f item answer next. F.asks (asking f) item answer (asking next) ×
        (handing next ≡ handing f) };

    ghost hand = { λ f item next. P.gives (handing f) item (handing next) ×
        (asking next ≡ asking f) };

    ghost ask_keeps = { λ first item answer next ready asked. (
      F.ask_again (asking first) item answer (asking next) ready.0 asked.0,
      subst P.can_give
          (sym asked.1) ready.1,
    ) };

    ghost hand_keeps = { λ first item next ready given. (
      subst F.can_ask (sym given.1) ready.0,
      P.give_again (handing first) item
          (handing next) ready.1 given.0,
    ) };

    fn filter(&mut self, item: &EnvelopeItem) -> bool {
        self.filter.ask(item)
    }

    fn on_filtered(&mut self, item: EnvelopeItem) {
        self.on_filtered.give(item);
    }
}
