//! The test whether items are plain: no JSON value in them holds a float, and no additional member
//! has the key of a field.

ghost use Rattle.std.specs.Prelude.{◌∷◌, [], ◌↔◌, IsTrue, map};
ghost use Rattle.sentry_envelope.specs.Envelope.{plain_content, stored_content, ItemsMeet};
ghost use Rattle.sentry_envelope.specs.EnvelopeView.{item_view};
ghost use Rattle.sentry_envelope.specs.SentryProfile.{item_types};

use sentry_items::EnvelopeItem;

pub(crate) fn items_are_plain(items: &[EnvelopeItem]) -> bool
    ensures plain { IsTrue result ↔ ItemsMeet plain_content item_types (map item_view items.now) }
    ensures stored { IsTrue result → ItemsMeet stored_content item_types (map item_view items.now) }
{
    for item in items {
        if !is_plain(item) {
            return false;
        }
    }
    true
}

// `Raw`, which is never written, counts as plain.
#[tactic(auto, using(crate::proofs::Demands::item_plain, crate::proofs::Demands::item_stored))]
fn is_plain(item: &EnvelopeItem) -> bool
    ensures plain { IsTrue result ↔ ItemsMeet plain_content item_types (item_view item.now ∷ []) }
    ensures stored { IsTrue result → ItemsMeet stored_content item_types (item_view item.now ∷ []) }
{
    item.is_plain()
}
