//! Laws of the definitions that the contracts of this crate cite.

ghost use Rattle.std.specs.Prelude.{◌≡◌, ◌↔◌, true, codes, bytes_eq};
ghost use Rattle.std.specs.List.{IsDistinct};
ghost use Rattle.sentry_tables.specs.Laws.{HasLaws};
ghost use Rattle.sentry_items.specs.Alike.{HasStoredAddress, HoldsNoTree, AreAlike};
ghost use Rattle.sentry_items.specs.AttachmentWords.{attachment_words, attachment_type_kind, known};
ghost use Rattle.sentry_items.specs.View.{attachment_type_cell, attachment_view, item_held};
ghost use Rattle.sentry_items.specs.declared.attachment.Attachment.{Attachment as Attachments};
ghost use Rattle.sentry_items.specs.declared.attachment_type.AttachmentType.{AttachmentType as Types};
ghost use Rattle.sentry_items.specs.declared.item.EnvelopeItem.{EnvelopeItem as Items};
ghost use Rattle.sentry_items.specs.declared.replay_recording.ReplayRecording.{ReplayRecording as Recordings};
ghost use Rattle.sentry_items.specs.Losses.{losses_of_item};

use crate::attachment::Attachment;
use crate::attachment_type::AttachmentType;
use crate::item::EnvelopeItem;
use crate::replay_recording::ReplayRecording;

/// Attachment types round-trip: no two known types share a word, and a written type reads back as
/// its normal form, in which a custom type whose text is a known word is the known type.
pub fn attachment_types_read_back()
    ensures once { IsDistinct bytes_eq attachment_words }
    ensures laws { HasLaws attachment_type_kind }
{}

/// The default attachment type is `event.attachment`.
pub fn default_attachment_type()
    ensures { (ty : Types) → ⟦<AttachmentType as Default>⟧.is_default ty →
        attachment_type_cell ty ≡ known (codes "event.attachment") }
{}

/// `==` on attachment types, attachments, recordings and items compares contents.
///
/// - Two attachment types are equal exactly if they are the same known type or custom types of the
///   same text; two attachments, exactly if all fields are; two recordings, exactly if their bytes
///   are.
/// - Two items without JSON values (sessions, attachments, check-ins, user reports, recordings,
///   client reports, `Raw`) are equal exactly if they are of one type with the same contents;
///   client reports, exactly if their timestamps and sums are the same.
///
/// The law of items assumes that IP addresses have numbers in range, as every address of a program
/// has.
pub fn equal_items()
    ensures types { (a b : Types) → ⟦<AttachmentType as PartialEq>⟧.eq a b ≡ true ↔
        (attachment_type_cell a ≡ attachment_type_cell b) }
    ensures attachments { (a b : Attachments) → ⟦<Attachment as PartialEq>⟧.eq a b ≡ true ↔
        (attachment_view a ≡ attachment_view b) }
    ensures recordings { (a b : Recordings) → ⟦<ReplayRecording as PartialEq>⟧.eq a b ≡ true ↔
        (a.buffer.items ≡ b.buffer.items) }
    ensures items { (a b : Items) → HoldsNoTree (item_held a) → HoldsNoTree (item_held b) →
        HasStoredAddress a → HasStoredAddress b
        → ⟦<EnvelopeItem as PartialEq>⟧.eq a b ≡ true ↔ AreAlike a b }
{}

/// Items with the same contents have the same losses.
#[tactic(auto, using(crate::proofs::SameLosses::same_losses))]
pub fn same_losses()
    ensures { (a b : Items) → item_held a ≡ item_held b → losses_of_item a ≡ losses_of_item b }
{}
