//! Laws of envelopes, and those of filtering and framing.
ghost use Rattle.std.specs.Prelude.{◌≡◌, ◌↔◌, ℕ, List, [], Some, IsSome, true};
ghost use Rattle.sentry_tables.specs.Laws.{HasLaws};
ghost use Rattle.sentry_envelope.specs.declared.envelope.Envelope.{Envelope as Envelopes};
ghost use Rattle.sentry_envelope.specs.declared.headers.EnvelopeHeaders.{EnvelopeHeaders as Headers};
ghost use Rattle.sentry_envelope.specs.EnvelopeAlike.{HasNoTree, HasStoredAddresses, AreEnvelopesAlike};
ghost use Rattle.sentry_envelope.specs.EnvelopeLosses.{losses_of_envelope};
ghost use Rattle.sentry_envelope.specs.EnvelopeView.{items_of, raw_bytes, text_of};
ghost use Rattle.sentry_envelope.specs.ForwardLaws.{ForwardedAreSpelled, KeptAreSpelled, SpelledAreFramed};
ghost use Rattle.sentry_envelope.specs.HeaderFields.{header_kind, headers_cell};
ghost use Rattle.sentry_envelope.specs.EnvelopeLaws.{HasOneAnswer, EnvelopesReadBack, EnvelopesAreStable, EnvelopesHaveOneForm, EnvelopesAreRewritten, RewritingTwiceIsOnce, ShortTextsAreSized, NormalFormsAreSized, SpelledHaveOneForm};
ghost use Rattle.sentry_envelope.specs.OneEnvelope.{HasOneEnvelope, TextsDrawNothing};
ghost use Rattle.sentry_envelope.specs.Accepted.{AcceptedIsReadable};
ghost use Rattle.sentry_envelope.specs.SentryProfile.{profile};

use crate::envelope::Envelope;
pub use crate::filter_laws::{
    each_item_is_kept_or_handed_over, losses_are_conserved, parts_are_conserved,
};
use crate::headers::EnvelopeHeaders;
pub use sentry_framing::laws::{
    a_piece_or_none, a_written_item_is_read, a_written_line_is_read, no_piece_begins_another,
    one_first_frame, one_verdict,
};

/// Any bytes, at each moment, either spell some envelope or have exactly one error, and not both.
pub fn one_answer()
    ensures { HasOneAnswer profile }
{}

/// At each moment bytes in which no id is drawn spell at most one envelope. No id is drawn in the
/// text of a stored, plain, readable and sized envelope, and its text therefore spells at most one.
pub fn one_envelope()
    ensures undrawn { HasOneEnvelope profile }
    ensures written { TextsDrawNothing profile }
{}

/// Envelopes round-trip: at each moment the text of a stored, plain, readable and sized envelope
/// spells its normal form, and nothing else.
pub fn back()
    ensures { EnvelopesReadBack profile }
{}

/// The normal form of a stored, plain envelope is its own normal form, is stored and plain, and is
/// readable if the envelope is.
pub fn stable()
    ensures { EnvelopesAreStable profile }
{}

/// Two stored, plain, readable envelopes with sized normal forms share the normal form exactly if
/// their normal forms have the same text.
pub fn one_form()
    ensures { EnvelopesHaveOneForm profile }
{}

/// Two readable, sized envelopes that bytes spell share the normal form exactly if their texts are
/// the same.
pub fn spelled_one_form()
    ensures { SpelledHaveOneForm profile }
{}

/// An envelope that bytes spell is stored and plain, and has the same text as its normal form.
pub fn rewritten()
    ensures { EnvelopesAreRewritten profile }
{}

/// An envelope that bytes spell is readable if no JSON line of its text nests more than 127 deep:
/// an accepted envelope can be unreadable only by depth.
pub fn accepted_is_readable()
    ensures { AcceptedIsReadable profile }
{}

/// What is accepted can be forwarded: bytes that spell an envelope are framed, by item headers of
/// any type ([`sentry_forward::AnyFrames`]), into the frames of its items.
pub fn accepted_are_framed()
    ensures { SpelledAreFramed profile }
{}

/// What is forwarded ([`sentry_forward::forward`]) is accepted if the kept items are: if the header
/// line shows a header and the kept frames show these items, the bytes that are left spell an
/// envelope of just these items, in order. So of bytes that spell an envelope, those that are left
/// spell one of its kept items.
pub fn forwarded_are_accepted()
    ensures forwarded { ForwardedAreSpelled profile }
    ensures kept { KeptAreSpelled profile }
{}

/// If an envelope that bytes spell is readable and sized, reading its text and writing again gives
/// the same text.
pub fn twice()
    ensures { RewritingTwiceIsOnce profile }
{}

/// A stored envelope whose text has fewer than 2^64 bytes, as any text in memory, is sized. If an
/// envelope that bytes spell is sized, its normal form is, too.
pub fn sized()
    ensures short { ShortTextsAreSized profile }
    ensures normal { NormalFormsAreSized profile }
{}

/// Envelope headers obey the laws of kinds: written headers read back as their normal form and as
/// nothing else, the normal form is its own, and headers that are read are written as their normal
/// form is.
#[tactic(auto, using(crate::proofs::HeaderValues::header_laws))]
pub fn header()
    ensures { HasLaws header_kind }
{}

/// A raw envelope is written as its bytes, and has no items and no losses.
#[tactic(auto, using(crate::proofs::RawEnvelopes::raw_text, crate::proofs::RawEnvelopes::raw_items, crate::proofs::RawEnvelopes::raw_losses))]
pub fn raw()
    ensures text { (e : Envelopes) (b : List ℕ) → raw_bytes e ≡ Some b → text_of e ≡ b }
    ensures items { (e : Envelopes) → IsSome (raw_bytes e) → items_of e ≡ [] }
    ensures losses { (e : Envelopes) → IsSome (raw_bytes e) → losses_of_envelope e ≡ [] }
{}

/// `==` on envelope headers and on envelopes compares contents.
///
/// - Two envelope headers are equal exactly if their fields are the same.
/// - Two envelopes without JSON values are equal exactly if their headers are the same, and their
///   items are alike one by one ([`sentry_items::laws::equal_items`]) or their raw bytes are the
///   same.
///
/// The law of envelopes assumes that IP addresses of users have numbers in range, as every address
/// of a program has.
pub fn equal_envelopes()
    ensures headers { (a b : Headers) → ⟦<EnvelopeHeaders as PartialEq>⟧.eq a b ≡ true ↔
        (headers_cell a ≡ headers_cell b) }
    ensures envelopes { (a b : Envelopes) → HasNoTree a → HasNoTree b → HasStoredAddresses a →
        HasStoredAddresses b
        → ⟦<Envelope as PartialEq>⟧.eq a b ≡ true ↔ AreEnvelopesAlike a b }
{}
