//! The filter of items by their type.

ghost use Rattle.std.specs.Prelude.{◌≡◌, ◌^◌, ◌<◌, ◌↔◌, IsTrue, length};
ghost use Rattle.sentry_framing.specs.ItemWords.{item_kinds};
ghost use Rattle.sentry_c.specs.Kinds.{kind_bit};

use crate::frames::number_of;
use sentry_envelope::KindChoice;
use sentry_types::protocol::v7::ItemKind;

// A bit for each item type.
const ALL_KINDS: u32 = (1 << 11) - 1;

/// Returns whether all bits are those of item types.
pub fn are_kinds(kinds: u32) -> bool
    ensures { IsTrue result ↔ (kinds < 2 ^ length item_kinds) }
{
    kinds <= ALL_KINDS
}

// Returns the bit of an item type: the first type has the lowest.
fn bit(kind: ItemKind) -> u32
    ensures { result ≡ kind_bit kind }
{
    1 << number_of(kind)
}

/// A choice of item types by their bits.
#[derive(Drop)]
pub struct KindFilter {
    pub(crate) kinds: u32,
    /// Whether these types stay, or all others.
    pub(crate) keep: bool,
}

impl KindChoice for KindFilter {
    ghost use Rattle.sentry_c.specs.Kinds.{is_wanted};

    ghost stays = { λ choice kind. is_wanted choice.kinds choice.keep kind };

    fn stays(&self, kind: ItemKind) -> bool {
        let listed = self.kinds & bit(kind) != 0;
        if self.keep { listed } else { !listed }
    }
}
