//! Laws of making.
ghost use Rattle.std.specs.Prelude.{◌≡◌, List, ℕ, Some, length, map};
ghost use Rattle.std.specs.List.{All};
ghost use Rattle.sentry_framing.specs.Framing.{Frame};
ghost use Rattle.sentry_forward.specs.AnyHeader.{Typed, any_header};
ghost use Rattle.sentry_making.specs.Making.{IsEnvelopeOf, IsHeaderLine, IsItem, envelope_text, made, made_header};

#[tactic(auto, using(crate::proofs::Stated::header_says))]
/// A made item header says the same type, and the length of the payload.
pub fn made_headers_state_the_length()
    ensures { (item : Frame) (typed : Typed) → IsItem item → any_header item.header ≡ Some typed →
        any_header (made_header item)
        ≡ Some (record { word = typed.word; length = Some (length item.payload) }) }
{}

#[tactic(auto, using(crate::proofs::Framed::envelope_framed))]
/// The text of a header line and items is an envelope of them as they are made.
pub fn made_envelopes_are_framed()
    ensures { (line : List ℕ) (items : List Frame) → IsHeaderLine line → All IsItem items →
        IsEnvelopeOf line (map made items) (envelope_text line items) }
{}
